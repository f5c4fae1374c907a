// How long tries of names take, and giving them up: a line for each work, with its name, how many names, and nanoseconds.

mod work;

use mj_locktab::LockTable;
use std::io;
use std::time::Instant;
use work::{WORKS, Work, perform};

/// Measures all, and prints it.
pub fn measure_all(rt: &HostRuntime) -> io::Result<()> {
    let mut locks = LockTable::new(rt.alloc());
    for work in WORKS {
        measure(rt, work, &mut locks)?;
    }
    Ok(())
}

fn measure(rt: &HostRuntime, work: Work, locks: &mut LockTable) -> io::Result<()> {
    let start = Instant::now(rt)?;
    let done = match perform(rt.alloc(), work, locks) {
        Ok(done) => done,
        Err(_) => return Err(io::Error::from(io::ErrorKind::OutOfMemory)),
    };
    let nanos = start.elapsed(rt)?.as_nanos();
    println!(rt; "{} {} {}", work.name(), done, nanos)?;
    Ok(())
}
