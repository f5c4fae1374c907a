// What is said where a run can't begin.

ghost use Rattle.std.specs.Prelude.{◌≡◌, ◌≤◌, ◌++◌, ◌∷◌, [], OnOk, codes};
ghost use Rattle.mj_drafts.specs.Choices.{wanted_by};
ghost use Rattle.mj_drafts.specs.Statuses.{status_of};

use crate::files::{file_bytes, routine_bytes, routine_name};
use crate::probing::put_trouble;
use mj_command_line::{Replay, Run};
use mj_drafts::{Choice, ProgramError, is_stream, stopped};
use mj_hints::{put_help, refusals};
use mj_reasons::{put_listing, put_steps, put_trace};
use mj_rou::LoadError;
use std::alloc::{AllocError, Global};
use std::io::Write;
use std::rt::Files;

/// The most refusals that are told of a file.
const REFUSALS: usize = 20;

// What is read besides the routines, and what is written: the names of the files, where there are such.
#[derive(Clone, Copy)]
struct Sources<'a> {
    globals: Option<&'a str>,
    trace: Option<&'a str>,
    steps: Option<&'a str>,
    written: Option<&'a str>,
}

/// Says why a run can't begin, and gives the exit status. Behind that, where the words ask for hints, it tells more of what is refused, and what helps. The
/// files are read once more for it.
pub fn refused<R: Files + AllocGlobal, E: Write>(
    rt: &R,
    order: &Run<'_>,
    stop: &ProgramError<'_>,
    err: &mut E,
) -> u8
    ensures which { result ≡ status_of stop.now }
    ensures bound { result ≤ 4 }
{
    let sources = Sources {
        globals: order.globals,
        trace: None,
        steps: order.steps,
        written: order.save,
    };
    refused_by(rt, &order.files, sources, order.hints, stop, err)
}

/// Says so of a trace that was to be replayed, or brought to today's form or explained in a file of this name.
pub fn refused_record<'a, R: Files + AllocGlobal, E: Write>(
    rt: &R,
    order: &Replay<'a>,
    written: Option<&'a str>,
    stop: &ProgramError<'_>,
    err: &mut E,
) -> u8
    ensures which { result ≡ status_of stop.now }
    ensures bound { result ≤ 4 }
{
    let sources = Sources {
        globals: order.globals,
        trace: Some(order.trace),
        steps: None,
        written,
    };
    refused_by(rt, &order.files, sources, order.hints, stop, err)
}

/// Says so of routines that were to be loaded. What is refused in all of them is told in any case.
pub fn refused_files<R: Files + AllocGlobal, E: Write>(
    rt: &R,
    files: &[&str],
    stop: &ProgramError<'_>,
    err: &mut E,
) -> u8
    ensures which { result ≡ status_of stop.now }
    ensures bound { result ≤ 4 }
{
    let status = stopped(stop, err);
    if is_of_routines(stop) {
        // Where memory is refused, or this can't be written, the line alone tells.
        let _ = tell(rt, files, stop, err);
    }
    status
}

// Says why the program stops, and gives the exit status. Behind that, where hints are wanted, it tells more.
fn refused_by<R: Files + AllocGlobal, E: Write>(
    rt: &R,
    files: &[&str],
    sources: Sources<'_>,
    hints: bool,
    stop: &ProgramError<'_>,
    err: &mut E,
) -> u8
    ensures which { result ≡ status_of stop.now }
    ensures bound { result ≤ 4 }
{
    let status = stopped(stop, err);
    if hints {
        // Where memory is refused, or this can't be written, the line alone tells.
        let _ = tell_more(rt, files, sources, stop, err);
    }
    status
}

// Tells more of why the program stops.
fn tell_more<R: Files + AllocGlobal, E: Write>(
    rt: &R,
    files: &[&str],
    sources: Sources<'_>,
    stop: &ProgramError<'_>,
    err: &mut E,
) -> Result<(), AllocError> {
    if is_of_routines(stop) {
        tell(rt, files, stop, err)?;
    }
    if is_of_one(files, stop) {
        return Ok(());
    }
    let mut bytes = Vec::new(rt.alloc());
    if put_reason(rt, &mut bytes, sources, stop).is_ok() {
        let _ = err.write_all(&bytes);
    }
    drop(bytes);
    Ok(())
}

// Whether it is one of these files that stops the program, of which is told then why it can't be read.
fn is_of_one(files: &[&str], stop: &ProgramError<'_>) -> bool {
    match stop {
        ProgramError::File(stopped) => files.iter().any(|file| *file == *stopped),
        _ => false,
    }
}

// Puts why a value, a second file of a routine, or a file that is no routine is refused to the end.
fn put_reason<R: Files + AllocGlobal>(
    rt: &R,
    bytes: &mut Vec<u8>,
    sources: Sources<'_>,
    stop: &ProgramError<'_>,
) -> Result<(), AllocError> {
    match stop {
        ProgramError::Chosen { option, .. } => put_form(bytes, *option),
        ProgramError::Twice(_) => put_twice(bytes),
        ProgramError::File(file) if *file != "-" => put_file_trouble(rt, bytes, *file, sources),
        ProgramError::Listing(refusal) => match once_more(rt, sources.globals)? {
            Some((file, text)) => put_listing(bytes, file, &text, refusal),
            None => Ok(()),
        },
        ProgramError::Trace(refusal) => match once_more(rt, sources.trace)? {
            Some((file, text)) => put_trace(bytes, file, &text, refusal),
            None => Ok(()),
        },
        ProgramError::Steps(refusal) => match once_more(rt, sources.steps)? {
            Some((file, text)) => put_steps(bytes, file, &text, refusal),
            None => Ok(()),
        },
        _ => Ok(()),
    }
}

// Puts that two files have a routine to the end.
fn put_twice(bytes: &mut Vec<u8>) -> Result<(), AllocError> {
    bytes.extend_from_slice(
        b"    two of the files have this routine: a file's name says which it has\n",
    )
}

// Puts what the system says of a file to the end. One that is written is read only where it takes the place of the listing or of the trace.
fn put_file_trouble<R: Files>(
    rt: &R,
    bytes: &mut Vec<u8>,
    file: &str,
    sources: Sources<'_>,
) -> Result<(), AllocError> {
    let is_written = is_name(sources.written, file);
    let is_read = !is_written || is_name(sources.globals, file) || is_name(sources.trace, file);
    put_trouble(rt, bytes, file, is_read, is_written)
}

// Whether a name is that of this file.
fn is_name(name: Option<&str>, file: &str) -> bool {
    match name {
        None => false,
        Some(name) => name == file,
    }
}

// Puts the form of the values of an option to the end.
fn put_form(bytes: &mut Vec<u8>, option: Choice) -> Result<(), AllocError>
    ensures { OnOk result (bytes.new.items ≡ bytes.old.items ++ (codes "    " ++ wanted_by option ++ 10 ∷ [])) }
{
    bytes.extend_from_slice(b"    ")?;
    bytes.extend_from_slice(option.wants().as_bytes())?;
    bytes.push(b'\n')?;
    Ok(())
}

// The bytes of a file, read once more, with its name. What can be read only once has none.
fn once_more<'a, R: Files + AllocGlobal>(
    rt: &R,
    file: Option<&'a str>,
) -> Result<Option<(&'a str, Vec<u8>)>, AllocError> {
    let Some(file) = file else {
        return Ok(None);
    };
    if is_stream(file) {
        return Ok(None);
    }
    match file_bytes(rt, file) {
        Ok(bytes) => Ok(Some((file, bytes))),
        Err(ProgramError::Memory) => Err(AllocError),
        Err(_) => Ok(None),
    }
}

// Whether it is a routine that stops the program, or may be.
fn is_of_routines(stop: &ProgramError<'_>) -> bool {
    matches!(
        stop,
        ProgramError::Name(_)
            | ProgramError::Routine(_)
            | ProgramError::Twice(_)
            | ProgramError::File(_)
    )
}

// Tells what is refused in these files, behind the first line of it, which was told.
fn tell<R: Files + AllocGlobal, E: Write>(
    rt: &R,
    files: &[&str],
    stop: &ProgramError<'_>,
    err: &mut E,
) -> Result<(), AllocError> {
    let first = format!(in rt.alloc(); "{stop}\n")?;
    let told = told(rt, files);
    if let Ok(told) = &told {
        let rest = match told.strip_prefix(first.as_bytes()) {
            Some(rest) => rest,
            None => told.as_slice(),
        };
        let _ = err.write_all(rest);
    }
    drop(first);
    drop(told);
    Ok(())
}

// What is refused in these files.
fn told<R: Files + AllocGlobal>(rt: &R, files: &[&str]) -> Result<Vec<u8>, AllocError> {
    let mut told = Vec::new(rt.alloc());
    for file in files {
        put_file(rt, &mut told, *file)?;
    }
    Ok(told)
}

// Puts what is refused in a file to the end, or why it can't be read.
fn put_file<R: Files + AllocGlobal>(
    rt: &R,
    told: &mut Vec<u8>,
    file: &str,
) -> Result<(), AllocError> {
    match routine_bytes(rt, file) {
        Ok(bytes) => {
            let done = put_refusals(rt.alloc(), told, file, &bytes);
            drop(bytes);
            done
        }
        Err(ProgramError::Memory) => Err(AllocError),
        Err(stop) => {
            let line = format!(in rt.alloc(); "{stop}\n")?;
            told.extend_from_slice(line.as_bytes())?;
            put_trouble(rt, told, file, true, false)
        }
    }
}

// Puts what is refused in a file of these bytes to the end.
fn put_refusals(
    alloc: Global,
    told: &mut Vec<u8>,
    file: &str,
    bytes: &[u8],
) -> Result<(), AllocError> {
    let name = routine_name(alloc, file)?;
    let list = refusals(alloc, &name, bytes, REFUSALS);
    drop(name);
    let list = list?;
    let done = put_all(alloc, told, file, bytes, &list);
    drop(list);
    done
}

// Puts each of these refusals to the end.
fn put_all(
    alloc: Global,
    told: &mut Vec<u8>,
    file: &str,
    bytes: &[u8],
    list: &[LoadError],
) -> Result<(), AllocError> {
    for refusal in list {
        put_line(alloc, told, file, refusal)?;
        put_help(alloc, told, bytes, refusal)?;
    }
    if list.len() == REFUSALS {
        told.extend_from_slice(b"    No more than 20 lines of a file are told.\n")?;
    }
    Ok(())
}

// Puts the line of a refusal to the end, as the program prints it.
fn put_line(
    alloc: Global,
    told: &mut Vec<u8>,
    file: &str,
    refusal: &LoadError,
) -> Result<(), AllocError> {
    let line = match refusal {
        LoadError::Name => format!(in alloc; "L1 {file}\n"),
        _ => format!(in alloc; "{refusal}\n"),
    };
    let line = line?;
    let done = told.extend_from_slice(line.as_bytes());
    drop(line);
    done
}
