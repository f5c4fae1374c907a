// The debugger, over the commands that a reader gives.

ghost use Rattle.std.specs.Prelude.{◌≡◌, ◌≤◌, [], IfOk};
ghost use Rattle.mj_sys.specs.Opening.{opening_of};
ghost use Rattle.mj_replica.specs.Replicas.{AreWhole};
ghost use Rattle.mj_begin.specs.Words.{WereGiven};

use crate::prompts::{Prompt, prompt_of};
use crate::talking::{Talked, talk};
use mj_ask::Start;
use mj_begin::{Beginning, Outlet, begin, refused, refused_record, save, write_record};
use mj_command_line::{Debug, Replay, Run};
use mj_debug::Debugger;
use mj_dev::{Device, Memory};
use mj_drafts::{FAULTED, Lockable, ProgramError, stopped, tell_trouble};
use mj_files::Port;
use mj_guide::Notes;
use mj_remade::{Again, beginning_of, opened};
use mj_report::has_faulted;
use mj_sessions::Sessions;
use mj_sys::Opening;
use mj_trace::Trace;
use std::alloc::{AllocError, Global};
use std::io::{BufRead, BufReader, Read, Write};
use std::marker::Brand;
use std::rt::Files;

/// Answers the commands of `input` on `out`, each before the next is read, and gives the exit status. The globals and the trace are written
/// behind the last one, as they stand at the record's end.
pub fn debug<R, I, O, E>(rt: R, order: &Debug<'_>, input: &mut I, out: &mut O, err: &mut E) -> u8
where
    R: Files + AllocGlobal + Copy + Drop,
    R::File: Lockable,
    I: Read,
    O: Write,
    E: Write,
    ensures { result ≤ 4 }
{
    let Ok(mut reader) = BufReader::new(rt.alloc(), input) else {
        return stopped(&ProgramError::Memory, err);
    };
    let mut next = match begun(rt, order, None, &mut reader, out, err) {
        Ok(status) => return status,
        Err(next) => next,
    };
    for _ in 0..u64::MAX {
        match begun(rt, order, Some(next), &mut reader, out, err) {
            Ok(status) => return status,
            Err(more) => next = more,
        }
    }
    drop(next);
    0
}

// What goes over where all is to begin again, and what is ready for what the run leaves.
type Next<'a, F> = (Again, Outlet<'a, F>);

// Begins, or begins again, and answers commands. The exit status, or what goes over where all is to begin again.
fn begun<'a, R: Files + AllocGlobal + Copy + Drop, B: BufRead, O: Write, E: Write>(
    rt: R,
    order: &Debug<'a>,
    next: Option<Next<'a, R::File>>,
    reader: &mut B,
    out: &mut O,
    err: &mut E,
) -> Result<u8, Next<'a, R::File>>
where
    R::File: Lockable,
    ensures { IfOk result (λ status. status ≤ 4) }
{
    if let Some(file) = order.replay {
        return replayed(&rt, order, file, next, reader, out, err);
    }
    if let Some((again, outlet)) = next {
        return begun_again(rt, order, again, outlet, reader, out, err);
    }
    match begin(rt, &order.run, reader) {
        Ok((beginning, outlet)) => {
            debug_from(rt, order, beginning, outlet, None, reader, out, err)
        }
        Err(stop) => Ok(refused(&rt, &order.run, &stop, err)),
    }
}

// Begins again, and answers commands. What is ready for what the run leaves stays so: the file to which the globals go is locked all the time.
fn begun_again<'a, R: Files + AllocGlobal + Copy + Drop, B: BufRead, O: Write, E: Write>(
    rt: R,
    order: &Debug<'a>,
    again: Again,
    outlet: Outlet<'a, R::File>,
    reader: &mut B,
    out: &mut O,
    err: &mut E,
) -> Result<u8, Next<'a, R::File>>
where
    R::File: Lockable,
    ensures { IfOk result (λ status. status ≤ 4) }
{
    match without_outlet(rt.alloc(), &order.run) {
        Ok(run) => begun_with(rt, order, run, again, outlet, reader, out, err),
        Err(_) => {
            drop(again);
            drop(outlet);
            Ok(stopped(&ProgramError::Memory, err))
        }
    }
}

// Begins again by these words, which are those of before but for what nothing is left of.
fn begun_with<'a, R: Files + AllocGlobal + Copy + Drop, B: BufRead, O: Write, E: Write>(
    rt: R,
    order: &Debug<'a>,
    run: Run<'a>,
    again: Again,
    outlet: Outlet<'a, R::File>,
    reader: &mut B,
    out: &mut O,
    err: &mut E,
) -> Result<u8, Next<'a, R::File>>
where
    R::File: Lockable,
    requires starts { run.starts.items ≡ order.now.run.starts.items }
    requires files { run.files.items ≡ order.now.run.files.items }
    requires devices { run.devices.items ≡ order.now.run.devices.items }
    requires globals { run.globals ≡ order.now.run.globals }
    requires steps { run.steps ≡ order.now.run.steps }
    requires events { run.events ≡ order.now.run.events }
    ensures { IfOk result (λ status. status ≤ 4) }
{
    match begin(rt, &run, reader) {
        Ok((beginning, none)) => {
            drop(none);
            drop(run);
            debug_from(rt, order, beginning, outlet, Some(again), reader, out, err)
        }
        Err(stop) => {
            let status = refused(&rt, &order.run, &stop, err);
            drop(run);
            drop(again);
            drop(outlet);
            Ok(status)
        }
    }
}

// The same jobs, of which nothing is saved or traced.
fn without_outlet<'a>(alloc: Global, run: &Run<'a>) -> Result<Run<'a>, AllocError>
    ensures starts { IfOk result (λ copy. copy.starts.items ≡ run.now.starts.items) }
    ensures files { IfOk result (λ copy. copy.files.items ≡ run.now.files.items) }
    ensures devices { IfOk result (λ copy. copy.devices.items ≡ run.now.devices.items) }
    ensures globals { IfOk result (λ copy. copy.globals ≡ run.now.globals) }
    ensures steps { IfOk result (λ copy. copy.steps ≡ run.now.steps) }
    ensures events { IfOk result (λ copy. copy.events ≡ run.now.events) }
{
    let starts = copied(alloc, &run.starts)?;
    let files = copied(alloc, &run.files)?;
    let devices = copied(alloc, &run.devices)?;
    Ok(Run {
        starts,
        files,
        globals: run.globals,
        save: None,
        trace: None,
        stdin: run.stdin,
        devices,
        steps: run.steps,
        why: run.why,
        hints: run.hints,
        events: run.events,
    })
}

// Copies words.
fn copied<'a>(alloc: Global, words: &[&'a str]) -> Result<Vec<&'a str>, AllocError>
    ensures { IfOk result (λ copies. copies.items ≡ words.now) }
{
    let mut copies = Vec::new(alloc);
    copies.extend_from_slice(words)?;
    Ok(copies)
}

// Opens a trace, and answers commands. The exit status, or what goes over where it is to be opened again.
fn replayed<'a, R: Files + AllocGlobal, B: BufRead, O: Write, E: Write>(
    rt: &R,
    order: &Debug<'a>,
    file: &'a str,
    next: Option<Next<'a, R::File>>,
    reader: &mut B,
    out: &mut O,
    err: &mut E,
) -> Result<u8, Next<'a, R::File>>
where
    R::File: Lockable,
    ensures { IfOk result (λ status. status ≤ 4) }
{
    match opened(rt, order, file) {
        Ok(trace) => {
            let left = replayed_from(rt, order, &trace, next, reader, out, err);
            drop(trace);
            left
        }
        Err(stop) => {
            drop(next);
            Ok(unopened(rt, &order.run, file, &stop, err))
        }
    }
}

// Says why a trace can't be opened, and gives the exit status. Behind that, where the words ask for hints, it tells more of what is refused.
fn unopened<'a, R: Files + AllocGlobal, E: Write>(
    rt: &R,
    order: &Run<'a>,
    file: &'a str,
    stop: &ProgramError<'_>,
    err: &mut E,
) -> u8
    ensures { result ≤ 4 }
{
    let Ok(files) = copied(rt.alloc(), &order.files) else {
        return stopped(stop, err);
    };
    let record = Replay {
        trace: file,
        files,
        globals: order.globals,
        hints: order.hints,
        events: order.events,
    };
    let status = refused_record(rt, &record, None, stop, err);
    drop(record);
    if order.hints && matches!(stop, ProgramError::Value(_)) {
        // Where this can't be written, the line alone tells.
        let _ = err.write_all(ALONE);
    }
    status
}

// What is told behind a value that is refused beside a trace.
const ALONE: &[u8] = b"    `--replay` goes without `--start`, `--device`, `--save` and `--trace`\n";

// Answers commands from what a trace says that its run began with.
fn replayed_from<'a, R: Files + AllocGlobal, B: BufRead, O: Write, E: Write>(
    rt: &R,
    order: &Debug<'a>,
    trace: &Trace,
    next: Option<Next<'a, R::File>>,
    reader: &mut B,
    out: &mut O,
    err: &mut E,
) -> Result<u8, Next<'a, R::File>>
where
    R::File: Lockable,
    ensures { IfOk result (λ status. status ≤ 4) }
{
    let again = match next {
        Some((again, outlet)) => {
            drop(outlet);
            Some(again)
        }
        None => None,
    };
    let beginning = match beginning_of(rt, &order.run, trace) {
        Ok(beginning) => beginning,
        Err(stop) => {
            drop(again);
            return Ok(refused(rt, &order.run, &stop, err));
        }
    };
    let outlet = Outlet {
        lock: None,
        trace: None,
    };
    with_prompt::<R, B, O, E, Memory, Brand>(
        rt,
        order,
        beginning,
        outlet,
        Some(trace),
        again,
        reader,
        out,
        err,
    )
}

// Answers commands from what was read.
fn debug_from<'a, R: Files + AllocGlobal + Copy + Drop, B: BufRead, O: Write, E: Write>(
    rt: R,
    order: &Debug<'a>,
    beginning: Beginning<Port<R>>,
    outlet: Outlet<'a, R::File>,
    again: Option<Again>,
    reader: &mut B,
    out: &mut O,
    err: &mut E,
) -> Result<u8, Next<'a, R::File>>
where
    R::File: Lockable,
    requires given { WereGiven order.now.run beginning.starts.items beginning.pool beginning.image beginning.globals.content beginning.steps }
    requires whole { AreWhole beginning.pool }
    ensures { IfOk result (λ status. status ≤ 4) }
{
    with_prompt::<R, B, O, E, Port<R>, Brand>(
        &rt, order, beginning, outlet, None, again, reader, out, err,
    )
}

// Answers commands, with a prompt where the words ask for one.
fn with_prompt<'a, R: Files + AllocGlobal, B: BufRead, O: Write, E: Write, D: Device, G: Opening>(
    rt: &R,
    order: &Debug<'a>,
    beginning: Beginning<D>,
    outlet: Outlet<'a, R::File>,
    trace: Option<&Trace>,
    again: Option<Again>,
    reader: &mut B,
    out: &mut O,
    err: &mut E,
) -> Result<u8, Next<'a, R::File>>
where
    R::File: Lockable,
    requires opening { opening_of beginning.globals.content beginning.pool beginning.starts.items ≡ G.opening }
    requires whole { AreWhole beginning.pool }
    ensures { IfOk result (λ status. status ≤ 4) }
{
    let prompt = match prompt_of(rt, order) {
        Ok(prompt) => prompt,
        Err(stop) => {
            drop(beginning);
            drop(outlet);
            drop(again);
            return Ok(stopped(&stop, err));
        }
    };
    let left = over::<R, B, O, E, D, G>(
        rt, order, &prompt, beginning, &outlet, trace, again, reader, out, err,
    );
    drop(prompt);
    match left {
        Ok(status) => {
            drop(outlet);
            Ok(status)
        }
        Err(again) => Err((again, outlet)),
    }
}

// Answers commands over what the jobs begin with, and notes of how they start.
fn over<R: Files + AllocGlobal, B: BufRead, O: Write, E: Write, D: Device, G: Opening>(
    rt: &R,
    order: &Debug<'_>,
    prompt: &Option<Prompt>,
    beginning: Beginning<D>,
    outlet: &Outlet<'_, R::File>,
    trace: Option<&Trace>,
    again: Option<Again>,
    reader: &mut B,
    out: &mut O,
    err: &mut E,
) -> Result<u8, Again>
where
    R::File: Lockable,
    requires opening { opening_of beginning.globals.content beginning.pool beginning.starts.items ≡ G.opening }
    requires whole { AreWhole beginning.pool }
    ensures { IfOk result (λ status. status ≤ 4) }
{
    match notes_of(rt.alloc(), &beginning.starts) {
        Ok(notes) => over_notes::<R, B, O, E, D, G>(
            rt, order, prompt, beginning, notes, outlet, trace, again, reader, out, err,
        ),
        Err(_) => {
            drop(beginning);
            drop(again);
            Ok(stopped(&ProgramError::Memory, err))
        }
    }
}

// Makes a debugger, and answers commands over it.
fn over_notes<R: Files + AllocGlobal, B: BufRead, O: Write, E: Write, D: Device, G: Opening>(
    rt: &R,
    order: &Debug<'_>,
    prompt: &Option<Prompt>,
    beginning: Beginning<D>,
    notes: Notes,
    outlet: &Outlet<'_, R::File>,
    trace: Option<&Trace>,
    again: Option<Again>,
    reader: &mut B,
    out: &mut O,
    err: &mut E,
) -> Result<u8, Again>
where
    R::File: Lockable,
    requires opening { opening_of beginning.globals.content beginning.pool beginning.starts.items ≡ G.opening }
    requires whole { AreWhole beginning.pool }
    ensures { IfOk result (λ status. status ≤ 4) }
{
    let Beginning {
        steps,
        image,
        globals,
        pool,
        starts,
    } = beginning;
    drop(steps);
    match Debugger::<D, Sessions<D>, G>::new(rt.alloc(), image, globals, pool, starts) {
        Ok(mut debugger) => {
            let left = over_debugger(
                rt,
                &mut debugger,
                order,
                prompt,
                notes,
                outlet,
                trace,
                again,
                reader,
                out,
                err,
            );
            // its core alone is dropped here, since the prover doesn't cover the drop of a whole debugger
            drop(debugger.into_core());
            left
        }
        Err(back) => {
            drop(back);
            drop(notes);
            drop(again);
            Ok(stopped(&ProgramError::Memory, err))
        }
    }
}

// Answers commands over a debugger, and writes what is left.
fn over_debugger<R: Files + AllocGlobal, B: BufRead, O: Write, E: Write, D: Device, G: Opening>(
    rt: &R,
    debugger: &mut Debugger<D, Sessions<D>, G>,
    order: &Debug<'_>,
    prompt: &Option<Prompt>,
    notes: Notes,
    outlet: &Outlet<'_, R::File>,
    trace: Option<&Trace>,
    again: Option<Again>,
    reader: &mut B,
    out: &mut O,
    err: &mut E,
) -> Result<u8, Again>
where
    R::File: Lockable,
    ensures { IfOk result (λ status. status ≤ 4) }
{
    match talk(
        rt, debugger, order, prompt, trace, notes, again, reader, out, err,
    ) {
        Ok(Talked::Over(told)) => Ok(finish(rt, debugger, order, outlet, told, err)),
        Ok(Talked::Again(next)) => Err(next),
        Err(_) => Ok(stopped(&ProgramError::Memory, err)),
    }
}

// Notes of jobs that start so, of which nothing was asked yet.
fn notes_of(alloc: Global, starts: &[Start]) -> Result<Notes, AllocError>
    ensures starts { IfOk result (λ notes. notes.starts.items ≡ starts.now) }
    ensures steps { IfOk result (λ notes. notes.steps.items ≡ []) }
    ensures watched { IfOk result (λ notes. notes.watched.items ≡ []) }
{
    let mut copies = Vec::with_capacity(alloc, starts.len())?;
    for start in starts {
        copies.push(start.try_clone()?)?;
    }
    Ok(Notes::new(alloc, copies))
}

// Writes the globals, then the trace, and gives the exit status: the greatest where several apply. Where the globals can't be written the trace still is,
// unless memory was refused.
fn finish<R: Files + AllocGlobal, E: Write, D: Device, G: Opening>(
    rt: &R,
    debugger: &Debugger<D, Sessions<D>, G>,
    order: &Debug<'_>,
    outlet: &Outlet<'_, R::File>,
    told: u8,
    err: &mut E,
) -> u8
where
    R::File: Lockable,
    requires { told ≤ 4 }
    ensures { result ≤ 4 }
{
    let core = debugger.core();
    let faulted = if has_faulted(core) { FAULTED } else { 0 };
    let saved = match save(rt, core.globals(), order.run.save, &outlet.lock) {
        Err(ProgramError::Memory) => return stopped(&ProgramError::Memory, err),
        done => tell_trouble(done, err),
    };
    let traced = tell_trouble(write_record(rt, &outlet.trace, core), err);
    told.max(faulted).max(saved).max(traced)
}
