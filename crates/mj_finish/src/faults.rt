// What is told of jobs that faulted, behind all else.

ghost use Rattle.std.specs.Prelude.{◌≡◌, ℕ, List, [], IfOk, IfSome, true};
ghost use Rattle.mj_faults.specs.Told.{AddsAll};

use mj_ask::Start;
use mj_begin::{routine_bytes, routine_name};
use mj_command_line::Run;
use mj_drafts::ProgramError;
use mj_faulted::Source;
use mj_faults::put_faults;
use mj_load::Image;
use mj_report::{Events, has_faulted};
use std::alloc::{AllocError, Global};
use std::io::Write;
use std::rt::Files;

/// The starts with which a run begins, where hints are wanted, and memory isn't refused for them.
pub fn kept_starts(alloc: Global, starts: &[Start], hints: bool) -> Option<Vec<Start>>
    ensures { IfSome result (λ kept. kept.items ≡ starts.now) }
{
    if !hints {
        return None;
    }
    copied(alloc, starts).ok()
}

// Copies starts.
fn copied(alloc: Global, starts: &[Start]) -> Result<Vec<Start>, AllocError>
    ensures { IfOk result (λ list. list.items ≡ starts.now) }
{
    let mut list = Vec::new(alloc);
    'starts: for start in starts {
        list.push(start.try_clone()?)?;
    }
    Ok(list)
}

/// Tells of each job of a run that faulted, on standard error, where the starts were kept with which the run began.
pub fn tell_faults<R: Files + AllocGlobal, E: Write, H: Events>(
    rt: &R,
    order: &Run<'_>,
    image: &Image,
    starts: &Option<Vec<Start>>,
    told: &H,
    err: &mut E,
) {
    let Some(starts) = starts else {
        return;
    };
    if !has_faulted(told) {
        return;
    }
    // Where memory is refused, or this can't be written, nothing more is told.
    if let Ok(bytes) = faults(rt, &order.files, image, starts, told) {
        let _ = err.write_all(&bytes);
    }
}

// What is told of each job of a run that faulted, by the routines of these files, as far as they can be read once more.
fn faults<R: Files + AllocGlobal, H: Events>(
    rt: &R,
    files: &[&str],
    image: &Image,
    starts: &[Start],
    told: &H,
) -> Result<Vec<u8>, AllocError>
    ensures { IfOk result (λ bytes. (sources : List (List ℕ × List ℕ)) × AddsAll image.now sources starts.now (H.history told.now) [] bytes.items) }
{
    let sources = sources(rt, files)?;
    let mut bytes = Vec::new(rt.alloc());
    put_faults(rt.alloc(), &mut bytes, image, &sources, starts, told)?;
    Ok(bytes)
}

// The routines of these files, as far as they can be read.
fn sources<R: Files + AllocGlobal>(rt: &R, files: &[&str]) -> Result<Vec<Source>, AllocError> {
    let mut sources = Vec::new(rt.alloc());
    for file in files {
        add_source(rt, &mut sources, *file)?;
    }
    Ok(sources)
}

// Adds the routine of a file, if that can be read.
fn add_source<R: Files + AllocGlobal>(
    rt: &R,
    sources: &mut Vec<Source>,
    file: &str,
) -> Result<(), AllocError> {
    match routine_bytes(rt, file) {
        Ok(bytes) => {
            let name = routine_name(rt.alloc(), file)?;
            sources.push(Source { name, bytes })?;
            Ok(())
        }
        Err(ProgramError::Memory) => Err(AllocError),
        Err(_) => Ok(()),
    }
}
