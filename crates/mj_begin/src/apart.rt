// Files that are written are apart from all others of a run.

use mj_command_line::{Replay, Run};
use mj_drafts::{Choice, Place, ProgramError, is_stream, path_of, place_of};
use mj_files::{Named, read_device};
use std::fs;
use std::os::unix::fs::MetadataExt;
use std::rt::Files;

/// Sees that what is saved and the trace go to no file that the run reads or writes besides: not to each other, and not to the files of the routines, of
/// the steps, of devices and of the standard streams. The listing that is saved may take the place of the one that was read; the trace may not.
pub fn written_apart<'a, R: Files + AllocGlobal>(
    rt: &R,
    order: &Run<'a>,
    devices: &[Named<'_>],
) -> Result<(), ProgramError<'a>> {
    if let Some(save) = order.save {
        of_choice(apart_from_read(rt, save, order, devices), Choice::Save)?;
    }
    match order.trace {
        None => Ok(()),
        Some(trace) => of_choice(trace_apart(rt, trace, order, devices), Choice::Trace),
    }
}

// Says which option a value is of that is refused.
fn of_choice<'a>(
    done: Result<(), ProgramError<'a>>,
    option: Choice,
) -> Result<(), ProgramError<'a>> {
    match done {
        Ok(()) => Ok(()),
        Err(stop) => Err(stop.of_choice(option)),
    }
}

// Sees that the trace goes to no file that the run reads or writes besides.
fn trace_apart<'a, R: Files + AllocGlobal>(
    rt: &R,
    trace: &'a str,
    order: &Run<'_>,
    devices: &[Named<'_>],
) -> Result<(), ProgramError<'a>> {
    apart_from_read(rt, trace, order, devices)?;
    apart_from(rt, trace, order.globals)?;
    apart_from(rt, trace, order.save)
}

/// Sees that a file that is written on the way is none that the run reads or writes, and not another one, if that is named.
pub fn written_besides<'a, R: Files + AllocGlobal>(
    rt: &R,
    name: &'a str,
    order: &Run<'_>,
    other: Option<&str>,
) -> Result<(), ProgramError<'a>> {
    apart_from_read(rt, name, order, &[])?;
    for word in &order.devices {
        if let Some(device) = read_device(rt.alloc(), *word)? {
            apart_from(rt, name, Some(device.file))?;
        }
    }
    apart_from(rt, name, order.globals)?;
    apart_from(rt, name, order.save)?;
    apart_from(rt, name, order.trace)?;
    apart_from(rt, name, other)
}

/// Sees that a page on a trace goes to no file that is read for it: not to that of the trace, of a routine or of the globals; and not to that of a standard
/// stream.
pub fn page_apart<'a, R: Files + AllocGlobal>(
    rt: &R,
    page: &'a str,
    record: &Replay<'_>,
) -> Result<(), ProgramError<'a>> {
    of_choice(apart_from(rt, page, Some(record.trace)), Choice::Html)?;
    of_choice(apart_from_record(rt, page, record), Choice::Html)
}

/// Sees that a trace that is brought to today's form goes to no file that is read for it but that of the trace, whose place it may take: not to that of a
/// routine or of the globals; and not to that of a standard stream.
pub fn migrated_apart<'a, R: Files + AllocGlobal>(
    rt: &R,
    out: &'a str,
    record: &Replay<'_>,
) -> Result<(), ProgramError<'a>> {
    of_choice(apart_from_record(rt, out, record), Choice::Out)
}

// Sees that a file isn't one of a routine, of the globals or of a standard stream.
fn apart_from_record<'a, R: Files + AllocGlobal>(
    rt: &R,
    name: &'a str,
    record: &Replay<'_>,
) -> Result<(), ProgramError<'a>> {
    for file in &record.files {
        apart_from(rt, name, Some(*file))?;
    }
    apart_from(rt, name, record.globals)?;
    apart_from_streams(rt, name)
}

// Sees that a file isn't one of a routine, of the steps, of a device or of a standard stream.
fn apart_from_read<'a, R: Files + AllocGlobal>(
    rt: &R,
    name: &'a str,
    order: &Run<'_>,
    devices: &[Named<'_>],
) -> Result<(), ProgramError<'a>> {
    for file in &order.files {
        apart_from(rt, name, Some(*file))?;
    }
    for device in devices {
        apart_from(rt, name, Some(device.file))?;
    }
    apart_from(rt, name, order.steps)?;
    apart_from_streams(rt, name)
}

// Sees that a file isn't one of a standard stream. What goes to a stream by its own name is meant to.
fn apart_from_streams<'a, R: Files + AllocGlobal>(
    rt: &R,
    name: &'a str,
) -> Result<(), ProgramError<'a>> {
    if is_stream(name) {
        return Ok(());
    }
    for stream in ["/dev/stdin", "/dev/stdout", "/dev/stderr"] {
        apart_from(rt, name, Some(stream))?;
    }
    Ok(())
}

// Sees that a file isn't another one.
fn apart_from<'a, R: Files + AllocGlobal>(
    rt: &R,
    name: &'a str,
    other: Option<&str>,
) -> Result<(), ProgramError<'a>> {
    let Some(other) = other else {
        return Ok(());
    };
    if is_same(rt, name, other)? {
        Err(ProgramError::Value(name))
    } else {
        Ok(())
    }
}

// Whether two names lead to one file, or to the place of one. Where one of them leads nowhere, that is told when the file is read or written.
fn is_same<'a, R: Files + AllocGlobal>(
    rt: &R,
    name: &'a str,
    other: &str,
) -> Result<bool, ProgramError<'a>> {
    match place_of(rt, name) {
        Ok(Place::Own(path, None)) => is_path_of(rt, path.as_str(), other),
        Ok(_) => Ok(is_one_file(rt, name, other)),
        Err(ProgramError::Memory) => Err(ProgramError::Memory),
        Err(_) => Ok(false),
    }
}

// Whether the place where a file will be is that of another name. A link that leads nowhere may lead there, once it is written to: it counts as one that does.
fn is_path_of<'a, R: Files + AllocGlobal>(
    rt: &R,
    path: &str,
    other: &str,
) -> Result<bool, ProgramError<'a>> {
    match path_of(rt, other) {
        Ok(found) => Ok(path == found.as_str() || leads_nowhere(rt, found.as_str())),
        Err(ProgramError::Memory) => Err(ProgramError::Memory),
        Err(_) => Ok(false),
    }
}

// Whether a path is that of a link that leads nowhere. A stream leads somewhere, though it has no path.
fn leads_nowhere<R: Files>(files: &R, path: &str) -> bool {
    match (fs::symlink_metadata(files, path), fs::metadata(files, path)) {
        (Ok(found), Err(_)) => found.is_symlink(),
        _ => false,
    }
}

// Whether two names lead to one file that is there, by whichever paths.
fn is_one_file<R: Files>(files: &R, name: &str, other: &str) -> bool {
    match (fs::metadata(files, name), fs::metadata(files, other)) {
        (Ok(one), Ok(two)) => one.is_file() && one.dev() == two.dev() && one.ino() == two.ino(),
        _ => false,
    }
}
