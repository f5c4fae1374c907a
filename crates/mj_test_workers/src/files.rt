// A device with two sessions over files: the second job takes it once the first has ended, which writes to it, and commits nothing.

ghost use Rattle.std.specs.Prelude.{◌≡◌, ◌≤◌, [], length, true};
ghost use Rattle.mj_text.specs.declared.limit.Limit.TheVariants.{V2};
ghost use Rattle.mj_dev.specs.Shelves.{principal, left_of};
ghost use Rattle.mj_jobs.specs.Rows.{rows_limit};
ghost use Rattle.mj_sys.specs.Opening.{opening_of, are_bare};

use crate::gates::{Behind, Tries};
use mj_ask::Start;
use mj_dev::{Device, Pool};
use mj_files::{Named, Port, pool_of, read_device};
use mj_globs::Globals;
use mj_load::Image;
use mj_sys::{Opening, System};
use mj_test_core::begins::{image, starts};
use mj_text::Failure;
use mj_trace::{Form, event_line};
use mj_work::{Ended, gather, run_workers};
use std::alloc::{AllocError, Global};
use std::fs::File;
use std::marker::Brand;
use std::rt::{Clock, Env, Files};
use std::sync::Wait;
use std::test::Fail;
use std::thread::Threads;
use std::{env, fs};

// The first job's change in a transaction is undone with its end, and its name and device are free. The second gives its device back, and there is no
// session left.
const BYTES: &str = " GOTO B:$JOB=2
 SET ^A=1 OPEN \"F\" USE \"F\" WRITE \"x\" LOCK +^L TSTART  SET ^A=2 HALT
B OPEN \"F\" LOCK +^L:0 WRITE $TEST,^A CLOSE \"F\" OPEN \"F\"
";

const LINES: &str = "1 dev \"0\" begin done
2 dev \"0\" begin done
1 set ^A \"1\" done
1 open \"F\" got
1 dev \"F\" begin done
1 dev \"F\" write \"x\" done
1 try ^L got
1 begin done
1 set ^A \"2\" done
1 dev \"F\" end done
1 dev \"0\" end done
1 halt done
2 open \"F\" got
2 dev \"F\" begin done
2 try ^L :0 got
2 dev \"0\" write \"1\" done
2 value ^A \"1\"
2 dev \"0\" write \"1\" done
2 dev \"F\" end done
2 close \"F\" done
2 open \"F\" none
2 dev \"0\" write \"\\0aF15 NODEVICE R:3\\0a\" done
2 dev \"0\" end done
2 halt F15 done
";

#[test]
fn two_jobs_have_a_device(rt: HostRuntime) -> Result<(), Fail> {
    let folder = folder(&rt)?;
    let told = have_a_device(&rt, folder.as_str());
    drop(folder);
    told
}

fn folder<R: AllocGlobal + Clock + Env>(rt: &R) -> Result<String, Fail> {
    let time = rt.since_1970()?;
    let (seconds, nanoseconds) = (time.as_secs(), time.subsec_nanos());
    let temporary = env::temp_dir(rt)?;
    let above = temporary.as_str();
    let name = format!(in rt.alloc(); "{above}/mj_test_workers_{seconds}_{nanoseconds}");
    drop(temporary);
    Ok(name?)
}

fn have_a_device<R>(rt: &R, folder: &str) -> Result<(), Fail>
where
    R: Files<File = File, Dir: Send> + AllocGlobal + Clock + Env + Threads + Wait + Sync,
{
    fs::create_dir_all(rt, folder)?;
    let lines = ran(rt, folder)?;
    let told = judge(LINES, &lines);
    drop(lines);
    told?;
    has(rt, folder, "first", "x")?;
    has(rt, folder, "second", "")?;
    fs::remove_dir_all(rt, folder)?;
    Ok(())
}

fn judge(wanted: &str, lines: &[u8]) -> Result<(), Fail> {
    if lines == wanted.as_bytes() {
        return Ok(());
    }
    let lines = std::str::from_utf8(lines).unwrap_or("?");
    Err(Fail::new(format_args!("{lines}")))
}

// Fails where a file hasn't these bytes.
fn has<R: Files + AllocGlobal>(rt: &R, folder: &str, name: &str, wanted: &str) -> Result<(), Fail> {
    let path = format!(in rt.alloc(); "{folder}/{name}")?;
    let text = fs::read_to_string(rt, path.as_str());
    drop(path);
    let text = text?;
    let told = judge(wanted, text.as_bytes());
    drop(text);
    told
}

// The lines of the run that is gathered, over the two files.
fn ran<R>(rt: &R, folder: &str) -> Result<Vec<u8>, Failure>
where
    R: Files<File = File, Dir: Send> + AllocGlobal + Clock + Threads + Wait + Sync,
{
    let image = image(rt.alloc(), BYTES)?;
    let lines = match starts(rt.alloc(), 2) {
        Ok(starts) => over_files(rt, folder, &image, starts),
        Err(failure) => Err(failure),
    };
    drop(image);
    lines
}

fn over_files<R>(
    rt: &R,
    folder: &str,
    image: &Image,
    starts: Vec<Start>,
) -> Result<Vec<u8>, Failure>
where
    R: Files<File = File, Dir: Send> + AllocGlobal + Clock + Threads + Wait + Sync,
    requires long { image.now.bounds.limit ≡ V2 }
    requires bare { are_bare starts.items ≡ true }
{
    match files_in(rt, folder) {
        Ok(pool) => begun(rt, image, pool, starts),
        Err(failure) => {
            drop(starts);
            Err(failure)
        }
    }
}

// The two files of a folder, as devices.
fn files_in<'a, R>(rt: &'a R, folder: &str) -> Result<Pool<Port<&'a R>>, Failure>
where
    R: Files + AllocGlobal,
{
    let first = format!(in rt.alloc(); "F=out:{folder}/first")?;
    let second = format!(in rt.alloc(); "F=out:{folder}/second")?;
    two_files(rt, first.as_str(), second.as_str())
}

// The devices that two words name, beside two principal ones.
fn two_files<'a, R>(rt: &'a R, first: &str, second: &str) -> Result<Pool<Port<&'a R>>, Failure>
where
    R: Files + AllocGlobal,
{
    let devices = named(rt.alloc(), first, second)?;
    let pool = pool_of(rt.alloc(), rt, 2, Vec::new(rt.alloc()), &devices);
    drop(devices);
    Ok(pool?)
}

fn named<'a>(alloc: Global, first: &'a str, second: &'a str) -> Result<Vec<Named<'a>>, AllocError> {
    let mut devices = Vec::new(alloc);
    for word in [first, second] {
        if let Some(device) = read_device(alloc, word)? {
            devices.push(device)?;
        }
    }
    Ok(devices)
}

fn begun<R, F>(
    rt: &R,
    image: &Image,
    pool: Pool<Port<F>>,
    starts: Vec<Start>,
) -> Result<Vec<u8>, Failure>
where
    R: AllocGlobal + Clock + Threads + Wait + Sync,
    F: Files + Drop + Send,
    F::File: Send,
    F::Dir: Send,
    requires long { image.now.bounds.limit ≡ V2 }
    requires bare { are_bare starts.items ≡ true }
{
    if starts.len() != 2 || !pool.fits(2) {
        drop(pool);
        drop(starts);
        return Err(Failure::Memory);
    }
    run::<Port<F>, Brand, R>(rt, image, pool, starts)
}

fn run<D: Device + Send, O: Opening + Send, R: AllocGlobal + Clock + Threads + Wait + Sync>(
    rt: &R,
    image: &Image,
    pool: Pool<D>,
    starts: Vec<Start>,
) -> Result<Vec<u8>, Failure>
    requires long { image.now.bounds.limit ≡ V2 }
    requires opening { opening_of [] pool starts.items ≡ O.opening }
    requires some { 1 ≤ length starts.items }
    requires few { length starts.items ≤ rows_limit }
    requires fits { length starts.items ≤ left_of principal pool }
    requires bare { are_bare starts.items ≡ true }
{
    let alloc = rt.alloc();
    match System::<D, O>::new(alloc, Globals::new(alloc), pool, starts) {
        Ok(system) => work(rt, image, system),
        Err(back) => {
            drop(back);
            Err(Failure::Memory)
        }
    }
}

fn work<D: Device + Send, O: Opening + Send, R: AllocGlobal + Clock + Threads + Wait + Sync>(
    rt: &R,
    image: &Image,
    system: System<D, O>,
) -> Result<Vec<u8>, Failure>
    requires long { image.now.bounds.limit ≡ V2 }
    requires empty { length system.history ≡ 0 }
{
    let (gate, clock) = (Behind::new(rt), Tries { rt });
    let ran = run_workers(rt, rt.alloc(), 2, system, image, &gate, &clock);
    drop(gate);
    drop(clock);
    match ran {
        Ok(ended) => {
            let lines = lines_of(rt.alloc(), &ended);
            drop(ended);
            Ok(lines?)
        }
        Err(back) => {
            drop(back);
            Err(Failure::Memory)
        }
    }
}

// The lines of the run that is gathered: none, where none is.
fn lines_of<D: Device, O: Opening>(
    alloc: Global,
    ended: &Ended<'_, D, O>,
) -> Result<Vec<u8>, AllocError> {
    let mut lines = Vec::new(alloc);
    if let Ok(run) = gather(alloc, &ended.system, &ended.rans) {
        for at in 0..run.len() {
            if let Some((job, ask, reply)) = run.event(at) {
                let line = event_line(alloc, Form::First, job, None, ask, reply)?;
                lines.extend_from_slice(&line)?;
                lines.push(b'\n')?;
            }
        }
    }
    Ok(lines)
}
