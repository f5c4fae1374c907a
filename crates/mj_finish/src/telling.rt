// What is told of a run, be it one that was stepped or one of workers.

ghost use Rattle.std.specs.Prelude.{◌≡◌, ◌≤◌, IfOk, IfSome, if◌then◌else◌};
ghost use Rattle.mj_load.specs.Image.{program_of};
ghost use Rattle.mj_core.specs.Runs.{IsRun, ArePlacedIn, places_lent, places_at};
ghost use Rattle.mj_report.specs.Faults.{has_faulted};
ghost use Rattle.mj_report.specs.Traced.{IsHead};

use mj_begin::{Outlet, save, write_trace};
use mj_command_line::Run;
use mj_drafts::{FAULTED, Lockable, ProgramError, print, stopped, tell_stop, tell_trouble};
use mj_globs::Globals;
use mj_jobvm::Places;
use mj_load::Image;
use mj_report::{Events, has_faulted, printed};
use mj_sys::Opening;
use std::io::Write;
use std::rt::Files;

/// Writes what so many jobs wrote, then tells the rest of their run.
pub fn tell_run<R: Files + AllocGlobal, O: Write, E: Write, H: Events>(
    rt: &R,
    order: &Run<'_>,
    outlet: &Outlet<'_, R::File>,
    told: &H,
    jobs: u32,
    globals: &Globals,
    stop: Option<ProgramError<'_>>,
    out: &mut O,
    err: &mut E,
) -> Option<(u8, bool)>
where
    R::File: Lockable,
    ensures { IfSome result (λ told. told.0 ≤ 4) }
{
    let shown = match show(rt, told, jobs, out) {
        Ok(status) => status,
        Err(ProgramError::Memory) => return None,
        Err(stop) => stopped(&stop, err),
    };
    tell_rest(rt, order, outlet, shown, globals, stop, err)
}

/// Tells, behind what jobs wrote, why they were stopped, if they were, and writes the globals that they left. Gives the exit status, the greatest where several
/// apply, that of their output among them, and whether the trace is to be written behind that. Where memory was refused to the jobs the files stay as they are.
/// Where the globals can't be written the trace still is. Where memory is refused here there is no status.
pub fn tell_rest<R: Files + AllocGlobal, E: Write>(
    rt: &R,
    order: &Run<'_>,
    outlet: &Outlet<'_, R::File>,
    shown: u8,
    globals: &Globals,
    stop: Option<ProgramError<'_>>,
    err: &mut E,
) -> Option<(u8, bool)>
where
    R::File: Lockable,
    requires { shown ≤ 4 }
    ensures { IfSome result (λ told. told.0 ≤ 4) }
{
    let is_for_memory = matches!(&stop, Some(ProgramError::Memory));
    let ended = tell_stop(stop, err);
    if is_for_memory {
        return Some((shown.max(ended), false));
    }
    let saved = match save(rt, globals, order.save, &outlet.lock) {
        Err(ProgramError::Memory) => return None,
        done => tell_trouble(done, err),
    };
    Some((shown.max(ended).max(saved), true))
}

/// Writes the trace of a run, if there is to be one, and gives the exit status of that. These are the places of each job's asks.
pub fn tell_trace<R: Files + AllocGlobal, E: Write, H: Events, G: Opening>(
    rt: &R,
    outlet: &Outlet<'_, R::File>,
    image: &Image,
    told: &H,
    places: &[Option<&Places>],
    err: &mut E,
) -> u8
where
    R::File: Lockable,
    requires head { IfSome outlet.now.trace (λ t. IsHead image.now G.opening t.opening.items) }
    requires run { IsRun (program_of image.now) G.opening (H.history told.now) }
    requires placed { ArePlacedIn (program_of image.now) G.opening (H.history told.now) (places_at (places_lent places.now)) }
    ensures { result ≤ 4 }
{
    tell_trouble(
        write_trace::<R, G, H>(rt, &outlet.trace, image, told, places),
        err,
    )
}

// Writes what the jobs wrote, and says whether one faulted.
fn show<'a, R, O, H>(rt: &R, told: &H, jobs: u32, out: &mut O) -> Result<u8, ProgramError<'a>>
where
    R: Files + AllocGlobal,
    O: Write,
    H: Events,
    ensures which { IfOk result (λ status. status ≡ (if has_faulted (H.history told.now) then 1 else 0)) }
    ensures bound { IfOk result (λ status. status ≤ 1) }
{
    let bytes = printed(rt.alloc(), told, jobs)?;
    print(&bytes, out)?;
    Ok(if has_faulted(told) { FAULTED } else { 0 })
}
