// What is told of jobs that were stepped.

ghost use Rattle.std.specs.Prelude.{◌≤◌, IfSome};
ghost use Rattle.mj_report.specs.Traced.{IsHead};

use crate::ends::{tell_devices, tell_end};
use crate::faults::tell_faults;
use crate::jobs::waits;
use crate::telling::{tell_run, tell_trace};
use mj_ask::Start;
use mj_begin::Outlet;
use mj_command_line::Run;
use mj_core::Core;
use mj_dev::Device;
use mj_drafts::{Lockable, ProgramError, stopped};
use mj_sessions::Sessions;
use mj_steps::Ending;
use mj_sys::Opening;
use std::io::Write;
use std::rt::Files;

/// Tells of the run of a core, then what each job waits for, if that was asked for, then where jobs faulted, if the starts were kept for that, and gives
/// the exit status.
pub fn finish<R: Files + AllocGlobal, O: Write, E: Write, D: Device, G: Opening>(
    rt: &R,
    core: &mut Core<D, Sessions<D>, G>,
    ending: Ending,
    order: &Run<'_>,
    outlet: &Outlet<'_, R::File>,
    kept: &Option<Vec<Start>>,
    out: &mut O,
    err: &mut E,
) -> u8
where
    R::File: Lockable,
    requires { IfSome outlet.now.trace (λ t. IsHead core.old.image G.opening t.opening.items) }
    ensures { result ≤ 4 }
{
    let Some(status) = tell_core(rt, core, ending, order, outlet, out, err) else {
        return stopped(&ProgramError::Memory, err);
    };
    // To ask what each job waits for is to step it once more, so it comes last. Behind the steps of a file it isn't known yet whether all wait.
    let may_wait = ending == Ending::Stuck || order.steps.is_some() && ending == Ending::Over;
    if may_wait && order.why {
        tell_waits(rt, core, order.hints, err);
    }
    tell_more(rt, core, ending, order, kept, err);
    status
}

// Tells of the run of a core. Where memory was refused for that, there is no status.
fn tell_core<R: Files + AllocGlobal, O: Write, E: Write, D: Device, G: Opening>(
    rt: &R,
    core: &Core<D, Sessions<D>, G>,
    ending: Ending,
    order: &Run<'_>,
    outlet: &Outlet<'_, R::File>,
    out: &mut O,
    err: &mut E,
) -> Option<u8>
where
    R::File: Lockable,
    requires { IfSome outlet.now.trace (λ t. IsHead core.now.image G.opening t.opening.items) }
    ensures { IfSome result (λ status. status ≤ 4) }
{
    let jobs = core.jobs() as u32;
    let stop = ProgramError::of_ending(ending);
    let globals = core.globals();
    match tell_run(rt, order, outlet, core, jobs, globals, stop, out, err) {
        Some((status, true)) => Some(status.max(trace_core(rt, core, outlet, err))),
        Some((status, false)) => Some(status),
        None => None,
    }
}

/// Writes the trace of a core, if there is to be one, and gives the exit status of that. Only then its places take memory.
pub fn trace_core<R: Files + AllocGlobal, E: Write, D: Device, G: Opening>(
    rt: &R,
    core: &Core<D, Sessions<D>, G>,
    outlet: &Outlet<'_, R::File>,
    err: &mut E,
) -> u8
where
    R::File: Lockable,
    requires { IfSome outlet.now.trace (λ t. IsHead core.now.image G.opening t.opening.items) }
    ensures { result ≤ 4 }
{
    if outlet.trace.is_none() {
        return 0;
    }
    // its history is a run
    let _run = core.len(); // for the proof
    let Ok(places) = core.all_places() else {
        return stopped(&ProgramError::Memory, err);
    };
    let image = core.image();
    tell_trace::<R, E, Core<D, Sessions<D>, G>, G>(rt, outlet, image, core, &places, err)
}

/// Tells more of the run of a core, where hints are wanted: what helps at such an end; where jobs faulted, if the starts were kept for that; and what the
/// system says of devices that failed.
pub fn tell_more<R: Files + AllocGlobal, E: Write, D: Device, G: Opening>(
    rt: &R,
    core: &Core<D, Sessions<D>, G>,
    ending: Ending,
    order: &Run<'_>,
    kept: &Option<Vec<Start>>,
    err: &mut E,
) {
    if order.hints {
        tell_end(rt, core, ending, order, err);
    }
    tell_faults(rt, order, core.image(), kept, core, err);
    tell_devices(rt, core, order, err);
}

// Says what each job waits for, and where that was taken, if that is to be told.
fn tell_waits<R, E, D, G>(rt: &R, core: &mut Core<D, Sessions<D>, G>, since: bool, err: &mut E)
where
    R: Files + AllocGlobal,
    E: Write,
    D: Device,
    G: Opening,
{
    if let Some(lines) = waits(rt.alloc(), core, since) {
        // Where this can't be written, the status alone tells.
        let _ = err.write_all(&lines);
    }
}
