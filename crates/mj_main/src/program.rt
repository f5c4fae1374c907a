// The program.

ghost use Rattle.std.specs.Prelude.{◌≡◌, ◌≤◌, map, true, IfOk, IfSome};
ghost use Rattle.std.specs.List.{list_all};
ghost use Rattle.mj_dev.specs.Shelves.{AreRising, count_of};
ghost use Rattle.mj_sys.specs.Opening.{opening_of};
ghost use Rattle.mj_rou.specs.Words.{Each, IsRoutineWorded};
ghost use Rattle.mj_load.specs.Image.{routines_of};
ghost use Rattle.mj_replica.specs.Replicas.{AreWhole};
ghost use Rattle.mj_text.specs.declared.limit.Limit.TheVariants.{V2};
ghost use Rattle.mj_trace.specs.declared.form.Form.TheVariants.{Second};
ghost use Rattle.mj_trace.specs.Trace.{opening_text};
ghost use Rattle.mj_trace.specs.Sized.{device_count_fits};
ghost use Rattle.mj_recorded.specs.Traces.{entries_of};
ghost use Rattle.mj_begin.specs.Words.{WereGiven};

use crate::lives::live;
use crate::workers::with_workers;
use mj_ask::EVENTS_LIMIT;
use mj_begin::{
    Beginning, Outlet, begin, loaded, refused, refused_files, refused_record, routine_bytes,
};
use mj_command_line::{NoOrder, Order, Run, read_words};
use mj_dev::Device;
use mj_drafts::{Lockable, ProgramError, WORDS, is_stream, print, stopped};
use mj_files::Port;
use mj_finish::{finish, kept_starts};
use mj_load::Image;
use mj_prompt::debug;
use mj_recall::{explain, migrate, replay};
use mj_run::run_jobs;
use mj_search::explore;
use mj_sys::Opening;
use mj_text::Limit;
use mj_warnings::put_warnings;
use std::alloc::AllocError;
use std::convert::AsStr;
use std::io::{Read, Write};
use std::marker::Brand;
use std::mem::forget;
use std::rt::{Clock, Files};
use std::sync::Wait;
use std::thread::Threads;

/// Does what the words ask for, of which the first is the program's name, and gives the exit status: 0; 1 where a job faulted, a trace isn't that of a run, or
/// a run by chance shows what is looked for; 2 where a routine, a listing, a trace, a file of steps or a step is refused; 3 where the words are wrong; 4 where
/// memory or a file fails, where all jobs wait, or where they went on for too long; the greatest where several apply. What the jobs write goes to `out`; a
/// refusal goes to `err`, on one line, but the text on wrong words, which is clap's. Behind that, and behind a run of which a job faulted, the words may ask
/// for hints, and to check routines is to ask for them. Where the words ask for it, `input` is read whole before the run, and its lines are those of the first
/// job's principal session; of a live run they are read one by one, as that session asks for them, and what it takes goes to `out` as it is taken. The globals
/// that are left, the trace of the run and steps that are kept are written after the output. Of a debugger the input has the commands, each of which is
/// answered on `out` before the next is read.
pub fn run<R, S, I, O, E>(rt: &R, words: &[S], input: &mut I, out: &mut O, err: &mut E) -> u8
where
    R: Files + AllocGlobal + Clock + Threads + Wait + Sync,
    R::File: Lockable + Send,
    R::Dir: Send,
    S: AsStr,
    I: Read,
    O: Write,
    E: Write,
    ensures { result ≤ 4 }
{
    match read_words(rt.alloc(), words) {
        Ok(Order::Run { run, workers }) => run_order(rt, &run, Some(workers), input, out, err),
        Ok(Order::Live(order)) => live(rt, &order, input, out, err),
        Ok(Order::Step(order)) => run_order(rt, &order, None, input, out, err),
        Ok(Order::Explore(order)) => explore(rt, &order, input, out, err),
        Ok(Order::Debug(order)) => debug(rt, &order, input, out, err),
        Ok(Order::Check { files }) => match check(rt, &files, out, err) {
            Ok(status) => status,
            Err(stop) => refused_files(rt, &files, &stop, err),
        },
        Ok(Order::Replay(order)) => match replay(rt, &order, out, err) {
            Ok(status) => status,
            Err(stop) => refused_record(rt, &order, None, &stop, err),
        },
        Ok(Order::Migrate(order)) => match migrate(rt, &order, out, err) {
            Ok(status) => status,
            Err(stop) => refused_record(rt, &order.record, Some(order.out), &stop, err),
        },
        Ok(Order::Explain(order)) => match explain(rt, &order, out, err) {
            Ok(status) => status,
            Err(stop) => refused_record(rt, &order.record, order.html, &stop, err),
        },
        Err(refusal) => match tell(&refusal, out, err) {
            Ok(status) => status,
            Err(stop) => stopped(&stop, err),
        },
    }
}

// Runs jobs, by so many workers, or without workers by steps, and gives the exit status.
fn run_order<R, I, O, E>(
    rt: R,
    order: &Run<'_>,
    workers: Option<u32>,
    input: &mut I,
    out: &mut O,
    err: &mut E,
) -> u8
where
    R: Files + AllocGlobal + Clock + Threads + Wait + Copy + Drop + Send + Sync,
    R::File: Lockable + Send,
    R::Dir: Send,
    I: Read,
    O: Write,
    E: Write,
    ensures { result ≤ 4 }
{
    match begin(rt, order, input) {
        Ok((beginning, outlet)) => run_from(rt, order, workers, beginning, outlet, out, err),
        Err(stop) => refused(&rt, order, &stop, err),
    }
}

// Runs jobs from what was read.
fn run_from<R, O, E>(
    rt: R,
    order: &Run<'_>,
    workers: Option<u32>,
    beginning: Beginning<Port<R>>,
    outlet: Outlet<'_, R::File>,
    out: &mut O,
    err: &mut E,
) -> u8
where
    R: Files + AllocGlobal + Clock + Threads + Wait + Copy + Drop + Send + Sync,
    R::File: Lockable + Send,
    R::Dir: Send,
    O: Write,
    E: Write,
    requires given { WereGiven order.now beginning.starts.items beginning.pool beginning.image beginning.globals.content beginning.steps }
    requires worded { Each IsRoutineWorded (routines_of beginning.image) }
    requires whole { AreWhole beginning.pool }
    requires text { IfSome outlet.trace (λ t. t.opening.items ≡ opening_text (Second V2) (map count_of beginning.pool) (entries_of beginning.starts.items)) }
    requires sized { IfSome outlet.trace (λ t. list_all device_count_fits (map count_of beginning.pool) ≡ true) }
    requires rising { IfSome outlet.trace (λ t. AreRising beginning.pool) }
    ensures { result ≤ 4 }
{
    let status = match workers {
        None => { with_files::<R, O, E, Port<R>, Brand>(&rt, order, beginning, &outlet, out, err) }
        Some(n) => {
            with_workers::<R, O, E, Port<R>, Brand>(&rt, order, n, beginning, &outlet, out, err)
        }
    };
    drop(outlet);
    status
}

// Steps the jobs, and writes what comes of them. What they leave is forgotten: the process ends behind this, and a drop of it all takes a tenth of a run.
fn with_files<R: Files + AllocGlobal, O: Write, E: Write, D: Device, G: Opening>(
    rt: &R,
    order: &Run<'_>,
    beginning: Beginning<D>,
    outlet: &Outlet<'_, R::File>,
    out: &mut O,
    err: &mut E,
) -> u8
where
    R::File: Lockable,
    requires opening { opening_of beginning.globals.content beginning.pool beginning.starts.items ≡ G.opening }
    requires given { WereGiven order.now beginning.starts.items beginning.pool beginning.image beginning.globals.content beginning.steps }
    requires worded { Each IsRoutineWorded (routines_of beginning.image) }
    requires whole { AreWhole beginning.pool }
    requires text { IfSome outlet.now.trace
        (λ t. t.opening.items ≡ opening_text (Second V2) (map count_of beginning.pool) (entries_of beginning.starts.items)) }
    requires sized { IfSome outlet.now.trace (λ t. list_all device_count_fits (map count_of beginning.pool) ≡ true) }
    requires rising { IfSome outlet.now.trace (λ t. AreRising beginning.pool) }
    ensures { result ≤ 4 }
{
    let Beginning {
        steps,
        image,
        globals,
        pool,
        starts,
    } = beginning;
    let list = match &steps {
        None => None,
        Some(steps) => Some(steps.as_slice()),
    };
    let kept = kept_starts(rt.alloc(), &starts, order.hints);
    let status = match run_jobs::<D, G>(rt.alloc(), image, globals, pool, starts, list) {
        Ok((mut core, ending)) => {
            let status = finish(rt, &mut core, ending, order, outlet, &kept, out, err);
            forget(core);
            status
        }
        Err(back) => {
            forget(back);
            stopped(&ProgramError::Memory, err)
        }
    };
    drop(steps);
    status
}

// Loads the routines of these files, and says how many they are.
fn check<'a, R: Files + AllocGlobal, O: Write, E: Write>(
    rt: &R,
    files: &[&'a str],
    out: &mut O,
    err: &mut E,
) -> Result<u8, ProgramError<'a>>
    ensures { IfOk result (λ status. status ≤ 1) }
{
    let image = loaded(rt, files, Limit::V2, EVENTS_LIMIT)?;
    let count = files.len();
    let told = format!(in rt.alloc(); "ok {count}\n")?;
    print(told.as_bytes(), out)?;
    warn(rt, files, &image, err);
    Ok(0)
}

// Tells what is doubtful of the routines of these files. Where memory is refused, or this can't be written, nothing more is told.
fn warn<R: Files + AllocGlobal, E: Write>(rt: &R, files: &[&str], image: &Image, err: &mut E) {
    if let Ok(bytes) = warnings(rt, files, image) {
        let _ = err.write_all(&bytes);
    }
}

// What is doubtful of them. The files are read once more where something is, for the source.
fn warnings<R: Files + AllocGlobal>(
    rt: &R,
    files: &[&str],
    image: &Image,
) -> Result<Vec<u8>, AllocError> {
    let mut bytes = Vec::new(rt.alloc());
    put_warnings(rt.alloc(), &mut bytes, image, &[])?;
    if !bytes.is_empty() {
        let texts = texts(rt, files)?;
        bytes.clear();
        put_warnings(rt.alloc(), &mut bytes, image, &texts)?;
    }
    Ok(bytes)
}

// The texts of these files.
fn texts<R: Files + AllocGlobal>(rt: &R, files: &[&str]) -> Result<Vec<Vec<u8>>, AllocError> {
    let mut texts = Vec::new(rt.alloc());
    for file in files {
        texts.push(text(rt, *file)?)?;
    }
    Ok(texts)
}

// The text of a file. What can't be read once more has none.
fn text<R: Files + AllocGlobal>(rt: &R, file: &str) -> Result<Vec<u8>, AllocError> {
    if is_stream(file) {
        return Ok(Vec::new(rt.alloc()));
    }
    match routine_bytes(rt, file) {
        Ok(bytes) => Ok(bytes),
        Err(ProgramError::Memory) => Err(AllocError),
        Err(_) => Ok(Vec::new(rt.alloc())),
    }
}

// Prints the text on words that are no order: help, which was asked for, or what is wrong.
fn tell<'a, O: Write, E: Write>(
    refusal: &NoOrder,
    out: &mut O,
    err: &mut E,
) -> Result<u8, ProgramError<'a>>
    ensures { IfOk result (λ status. status ≤ 3) }
{
    match refusal {
        NoOrder::Help(text) => {
            print(text.as_bytes(), out)?;
            Ok(0)
        }
        NoOrder::Wrong(text) => {
            // Where this can't be written, the status alone tells.
            let _ = write!(err, "{text}");
            Ok(WORDS)
        }
        NoOrder::Memory => Err(ProgramError::Memory),
    }
}
