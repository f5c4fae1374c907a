// Traces that are written to files.

ghost use Rattle.std.specs.Prelude.{IfSome};
ghost use Rattle.mj_load.specs.Image.{program_of};
ghost use Rattle.mj_core.specs.Runs.{IsRun, ArePlacedIn, places_lent, places_at};
ghost use Rattle.mj_report.specs.Traced.{IsHead};

use mj_core::{Answerer, Core, Fresh};
use mj_dev::Device;
use mj_drafts::{Lockable, ProgramError, write_file};
use mj_jobvm::Places;
use mj_load::Image;
use mj_report::{Events, Trace};
use mj_sys::Opening;
use std::rt::Files;

/// Writes the trace of a run of this image, if there is to be one. These are the places of each job's asks.
pub fn write_trace<'a, R: Files + AllocGlobal, O: Opening, H: Events>(
    rt: &R,
    trace: &Option<Trace<'a>>,
    image: &Image,
    told: &H,
    places: &[Option<&Places>],
) -> Result<(), ProgramError<'a>>
where
    R::File: Lockable,
    requires head { IfSome trace.now (λ t. IsHead image.now O.opening t.opening.items) }
    requires run { IsRun (program_of image.now) O.opening (H.history told.now) }
    requires placed { ArePlacedIn (program_of image.now) O.opening (H.history told.now) (places_at (places_lent places.now)) }
{
    let Some(trace) = trace else {
        return Ok(());
    };
    let bytes = trace.run::<O, H>(rt.alloc(), image, told, places)?;
    write_file(rt, trace.file, &bytes)
}

/// Writes the trace of what a debugger recorded of the jobs of a core, if there is to be one. Only then the places of their asks take memory.
pub fn write_record<'a, R: Files + AllocGlobal, D: Device, A: Answerer<Fresh<D>>, O: Opening>(
    rt: &R,
    trace: &Option<Trace<'a>>,
    core: &Core<D, A, O>,
) -> Result<(), ProgramError<'a>>
where
    R::File: Lockable,
{
    let Some(trace) = trace else {
        return Ok(());
    };
    let Ok(places) = core.all_places() else {
        return Err(ProgramError::Memory);
    };
    write_placed::<R, O, Core<D, A, O>>(rt, trace, core.image(), core, &places)
}

// Writes the trace of what a debugger recorded of jobs of this image. These are the places of each job's asks.
fn write_placed<'a, R: Files + AllocGlobal, O: Opening, H: Events>(
    rt: &R,
    trace: &Trace<'a>,
    image: &Image,
    told: &H,
    places: &[Option<&Places>],
) -> Result<(), ProgramError<'a>>
where
    R::File: Lockable,
    requires placed { ArePlacedIn (program_of image.now) O.opening (H.history told.now) (places_at (places_lent places.now)) }
{
    let bytes = trace.bytes(rt.alloc(), told, places)?;
    write_file(rt, trace.file, &bytes)
}
