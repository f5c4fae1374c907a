// How long the questions and the changes of trees take, and how many bytes a node takes: a line for each work, with its name, how
// many nodes, and nanoseconds.

mod work;

use mj_globs::Globals;
use std::time::Instant;
use std::{fs, io};
use work::{WORKS, Work, perform};

/// Measures all, and prints it.
pub fn measure_all(rt: &HostRuntime) -> io::Result<()> {
    let mut globals = Globals::new(rt.alloc());
    let before = resident(rt)?;
    for work in WORKS {
        measure(rt, work, &mut globals)?;
        if let Work::Set = work {
            println!(rt; "kilobytes 1 {}", resident(rt)?.saturating_sub(before))?;
        }
    }
    Ok(())
}

fn measure(rt: &HostRuntime, work: Work, globals: &mut Globals) -> io::Result<()> {
    let start = Instant::now(rt)?;
    let done = match perform(rt.alloc(), work, globals) {
        Ok(done) => done,
        Err(_) => return Err(io::Error::from(io::ErrorKind::OutOfMemory)),
    };
    let nanos = start.elapsed(rt)?.as_nanos();
    println!(rt; "{} {} {}", work.name(), done, nanos)?;
    Ok(())
}

// The kilobytes of memory that the program holds.
fn resident(rt: &HostRuntime) -> io::Result<u64> {
    let text = fs::read_to_string(rt, "/proc/self/status")?;
    for line in text.as_str().lines() {
        if let Some(rest) = line.strip_prefix("VmRSS:") {
            let number = rest.trim().trim_end_matches(" kB");
            return Ok(number.parse::<u64>().unwrap_or(0));
        }
    }
    Ok(0)
}
