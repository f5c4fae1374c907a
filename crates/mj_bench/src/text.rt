// How long the string functions and `_` take: nanoseconds a call and picoseconds a byte of the text, for texts of 10, 1,000 and
// 30,000 bytes.

mod work;

use mj_text::Failure;
use std::alloc::Global;
use std::io;
use std::time::Instant;
use work::{Sample, WORKS, Work, once};

// the bytes that are worked through for each figure
const BYTES: u64 = 4_000_000;

const SIZES: [u32; 3] = [10, 1_000, 30_000];

/// Measures all, and prints it.
pub fn measure_all(rt: &HostRuntime) -> io::Result<()> {
    for work in WORKS {
        for size in SIZES {
            measure(rt, work, size)?;
        }
    }
    Ok(())
}

fn measure(rt: &HostRuntime, work: Work, size: u32) -> io::Result<()> {
    match Sample::new(rt.alloc(), size) {
        Ok(sample) => time(rt, work, size, &sample),
        Err(_) => Err(io::Error::from(io::ErrorKind::OutOfMemory)),
    }
}

// Times as many calls as work through all the bytes.
fn time(rt: &HostRuntime, work: Work, size: u32, sample: &Sample) -> io::Result<()> {
    let rounds = BYTES / u64::from(size.max(1));
    let start = Instant::now(rt)?;
    let failures = refused(rt.alloc(), work, sample, rounds);
    tell(
        rt,
        work,
        size,
        rounds,
        start.elapsed(rt)?.as_nanos(),
        failures,
    )
}

// Prints what so many calls took.
fn tell(
    rt: &HostRuntime,
    work: Work,
    size: u32,
    rounds: u64,
    nanos: u128,
    failures: u64,
) -> io::Result<()> {
    let call = nanos / u128::from(rounds.max(1));
    let byte = nanos.saturating_mul(1000) / u128::from(rounds.max(1)) / u128::from(size.max(1));
    let name = work.name();
    println!(rt; "{name} {size} {call} ns/call {byte} ps/byte, {failures} refused")
}

// Makes the call so many times. How many of them were refused memory.
fn refused(alloc: Global, work: Work, sample: &Sample, rounds: u64) -> u64 {
    let mut failures = 0_u64;
    for _ in 0..rounds {
        if let Err(Failure::Memory) = once(alloc, work, sample) {
            failures = failures.saturating_add(1);
        }
    }
    failures
}
