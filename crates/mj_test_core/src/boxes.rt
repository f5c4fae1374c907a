// Devices of the tests, which fail once and count their drops, in a pool.

use mj_dev::{Counts, Fail, Pool, Watched};
use mj_text::{Failure, Text};
use std::alloc::{AllocError, Global};
use std::sync::Arc;
use std::sync::atomic::{AtomicU64, Ordering};

/// The devices of the tests.
pub type Counting = Watched<Fail, Counts>;

/// The drops of the device `F`, of which there is one, and those of the two principal devices.
#[derive(Drop)]
pub struct Drops {
    named: Arc<AtomicU64, Global>,
    principal: Arc<AtomicU64, Global>,
}

impl Drops {
    pub fn new(alloc: Global) -> Result<Drops, AllocError> {
        let named = Arc::new(alloc, AtomicU64::new(0))?;
        let principal = Arc::new(alloc, AtomicU64::new(0))?;
        Ok(Drops { named, principal })
    }

    /// How often `F` was dropped, and how many principal devices were.
    pub fn counts(&self) -> (u64, u64) {
        (
            self.named.load(Ordering::SeqCst),
            self.principal.load(Ordering::SeqCst),
        )
    }
}

/// The device `F` and two principal ones. Which call of `F` fails, and which of the first principal one, counts from 1; 0 is none.
pub fn pool(
    alloc: Global,
    named: u64,
    principal: u64,
    drops: &Drops,
) -> Result<Pool<Counting>, Failure> {
    let mut pool = Pool::new(alloc);
    match fill(alloc, &mut pool, named, principal, drops) {
        Ok(()) => Ok(pool),
        Err(failure) => {
            drop(pool);
            Err(failure)
        }
    }
}

/// As many devices `D1`, `D2` and so on, which count their drops as `F` does, and two principal ones. None fails.
pub fn many(alloc: Global, devices: u32, drops: &Drops) -> Result<Pool<Counting>, Failure> {
    let mut pool = Pool::new(alloc);
    match fill_many(alloc, &mut pool, devices, drops) {
        Ok(()) => Ok(pool),
        Err(failure) => {
            drop(pool);
            Err(failure)
        }
    }
}

fn fill_many(
    alloc: Global,
    pool: &mut Pool<Counting>,
    devices: u32,
    drops: &Drops,
) -> Result<(), Failure> {
    for number in 1..=devices {
        put_numbered(alloc, pool, number, drops)?;
    }
    put_principals(alloc, pool, 0, drops)
}

fn put_numbered(
    alloc: Global,
    pool: &mut Pool<Counting>,
    number: u32,
    drops: &Drops,
) -> Result<(), Failure> {
    let digits = format!(in alloc; "D{number}")?;
    let name = Text::from(alloc, digits.as_bytes());
    drop(digits);
    let name = name?;
    let put = put(alloc, pool, &name, 0, &drops.named);
    drop(name);
    put
}

fn fill(
    alloc: Global,
    pool: &mut Pool<Counting>,
    named: u64,
    principal: u64,
    drops: &Drops,
) -> Result<(), Failure> {
    put_named(alloc, pool, named, drops)?;
    put_principals(alloc, pool, principal, drops)
}

fn put_principals(
    alloc: Global,
    pool: &mut Pool<Counting>,
    at: u64,
    drops: &Drops,
) -> Result<(), Failure> {
    let zero = Text::from_number(alloc, 0);
    let put = put_principal(alloc, pool, &zero, at, drops);
    drop(zero);
    put
}

/// Adds one more `F`.
pub fn put_named(
    alloc: Global,
    pool: &mut Pool<Counting>,
    at: u64,
    drops: &Drops,
) -> Result<(), Failure> {
    let name = Text::from(alloc, b"F")?;
    let put = put(alloc, pool, &name, at, &drops.named);
    drop(name);
    put
}

fn put_principal(
    alloc: Global,
    pool: &mut Pool<Counting>,
    zero: &Text,
    at: u64,
    drops: &Drops,
) -> Result<(), Failure> {
    put(alloc, pool, zero, at, &drops.principal)?;
    put(alloc, pool, zero, 0, &drops.principal)
}

// Adds a device of this name that fails in this call.
fn put(
    alloc: Global,
    pool: &mut Pool<Counting>,
    name: &Text,
    at: u64,
    drops: &Arc<AtomicU64, Global>,
) -> Result<(), Failure> {
    let drops = Arc::try_clone(drops)?;
    let device = Watched {
        device: Fail::new(alloc, at),
        watch: Counts { drops },
    };
    match pool.add(name, device) {
        Ok(()) => Ok(()),
        Err(device) => {
            drop(device);
            Err(Failure::Memory)
        }
    }
}
