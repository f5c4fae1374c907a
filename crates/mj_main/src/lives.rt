// A live run.

ghost use Rattle.std.specs.Prelude.{◌≡◌, ◌≤◌, true, map, IfOk, IfSome, if◌then◌else◌};
ghost use Rattle.std.specs.List.{list_all};
ghost use Rattle.mj_dev.specs.Shelves.{AreRising, count_of};
ghost use Rattle.mj_sys.specs.Opening.{opening_of};
ghost use Rattle.mj_rou.specs.Words.{Each, IsRoutineWorded};
ghost use Rattle.mj_load.specs.Image.{routines_of};
ghost use Rattle.mj_replica.specs.Replicas.{AreWhole};
ghost use Rattle.mj_text.specs.declared.limit.Limit.TheVariants.{V2};
ghost use Rattle.mj_trace.specs.declared.form.Form.TheVariants.{Second};
ghost use Rattle.mj_trace.specs.Trace.{opening_text};
ghost use Rattle.mj_trace.specs.Sized.{device_count_fits};
ghost use Rattle.mj_recorded.specs.Traces.{entries_of};
ghost use Rattle.mj_report.specs.Faults.{has_faulted};
ghost use Rattle.mj_report.specs.Traced.{IsHead};
ghost use Rattle.mj_begin.specs.Words.{WereGiven};

use mj_ask::Start;
use mj_begin::{Beginning, Outlet, begin, refused};
use mj_command_line::Run;
use mj_core::Core;
use mj_dev::{Device, Pool};
use mj_drafts::{FAULTED, Lockable, ProgramError, print, stopped};
use mj_files::{Port, Trouble};
use mj_finish::{kept_starts, tell_more, tell_rest, trace_core};
use mj_jobs::ROWS_LIMIT;
use mj_live::{Lived, run_live};
use mj_report::{Events, has_faulted, printed};
use mj_sessions::Sessions;
use mj_sys::Opening;
use mj_text::Text;
use mj_typed::{Live, pool_of};
use std::io::{Read, Write};
use std::marker::Brand;
use std::mem::forget;
use std::rt::{Clock, Files};

/// Runs a job that writes to `out` as it goes, and reads a line of `input` when it asks for one, and gives the exit status. Jobs that it starts are stepped
/// beside it, and what they wrote comes behind the end of all. The globals and the trace are written then, as they are of any run.
pub fn live<R, I, O, E>(rt: R, order: &Run<'_>, input: &mut I, out: &mut O, err: &mut E) -> u8
where
    R: Files + AllocGlobal + Clock + Copy + Drop,
    R::File: Lockable,
    I: Read,
    O: Write,
    E: Write,
    ensures { result ≤ 4 }
{
    match begin(rt, order, input) {
        Ok((beginning, outlet)) => live_from(rt, order, beginning, outlet, input, out, err),
        Err(stop) => refused(&rt, order, &stop, err),
    }
}

// Runs it from what was read.
fn live_from<R: Files + AllocGlobal + Clock + Copy + Drop, I: Read, O: Write, E: Write>(
    rt: R,
    order: &Run<'_>,
    beginning: Beginning<Port<R>>,
    outlet: Outlet<'_, R::File>,
    input: &mut I,
    out: &mut O,
    err: &mut E,
) -> u8
where
    R::File: Lockable,
    requires given { WereGiven order.now beginning.starts.items beginning.pool beginning.image beginning.globals.content beginning.steps }
    requires worded { Each IsRoutineWorded (routines_of beginning.image) }
    requires whole { AreWhole beginning.pool }
    requires text { IfSome outlet.trace (λ t. t.opening.items ≡ opening_text (Second V2) (map count_of beginning.pool) (entries_of beginning.starts.items)) }
    requires sized { IfSome outlet.trace (λ t. list_all device_count_fits (map count_of beginning.pool) ≡ true) }
    requires rising { IfSome outlet.trace (λ t. AreRising beginning.pool) }
    ensures { result ≤ 4 }
{
    let status = match pool_of(rt.alloc(), rt, ROWS_LIMIT as u32, input, &order.devices) {
        Ok(pool) => with_lines::<R, O, E, Live<R, &mut I>, Brand>(
            &rt, order, beginning, pool, &outlet, out, err,
        ),
        Err(trouble) => {
            drop(beginning);
            stopped(&stop_of(&trouble), err)
        }
    };
    drop(outlet);
    status
}

// Why the program stops where there are no devices. That each word names one is known by then, so that memory alone may be wanting.
fn stop_of<'a>(trouble: &Trouble) -> ProgramError<'a> {
    match trouble {
        Trouble::Memory => ProgramError::Memory,
        Trouble::Failed => ProgramError::File("-"),
    }
}

// Runs the job over these devices, which are of the same names as those that it was to begin with, and tells of what it left, which is forgotten, since the
// process ends behind this.
fn with_lines<R: Files + AllocGlobal + Clock + Drop, O: Write, E: Write, D: Device, G: Opening>(
    rt: &R,
    order: &Run<'_>,
    beginning: Beginning<Port<R>>,
    pool: Pool<D>,
    outlet: &Outlet<'_, R::File>,
    out: &mut O,
    err: &mut E,
) -> u8
where
    R::File: Lockable,
    requires same { pool ≡ beginning.pool }
    requires opening { opening_of beginning.globals.content beginning.pool beginning.starts.items ≡ G.opening }
    requires given { WereGiven order.now beginning.starts.items beginning.pool beginning.image beginning.globals.content beginning.steps }
    requires worded { Each IsRoutineWorded (routines_of beginning.image) }
    requires whole { AreWhole beginning.pool }
    requires text { IfSome outlet.now.trace
        (λ t. t.opening.items ≡ opening_text (Second V2) (map count_of beginning.pool) (entries_of beginning.starts.items)) }
    requires sized { IfSome outlet.now.trace (λ t. list_all device_count_fits (map count_of beginning.pool) ≡ true) }
    requires rising { IfSome outlet.now.trace (λ t. AreRising beginning.pool) }
    ensures { result ≤ 4 }
{
    let Beginning {
        steps,
        image,
        globals,
        pool: others,
        starts,
    } = beginning;
    drop(steps);
    drop(others);
    let kept = kept_starts(rt.alloc(), &starts, order.hints);
    let alloc = rt.alloc();
    match run_live::<R, D, G, &mut O>(rt, alloc, image, globals, pool, starts, out) {
        Ok(lived) => finish(rt, order, lived, outlet, &kept, err),
        Err(back) => {
            forget(back);
            stopped(&ProgramError::Memory, err)
        }
    }
}

// Tells of what a live run left, behind what was written of it, and where jobs faulted, if the starts were kept for that, and gives the exit status.
fn finish<R: Files + AllocGlobal, W: Write + Drop, E: Write, D: Device, G: Opening>(
    rt: &R,
    order: &Run<'_>,
    lived: Lived<D, G, W>,
    outlet: &Outlet<'_, R::File>,
    kept: &Option<Vec<Start>>,
    err: &mut E,
) -> u8
where
    R::File: Lockable,
    requires { IfSome outlet.now.trace (λ t. IsHead lived.core.image G.opening t.opening.items) }
    ensures { result ≤ 4 }
{
    let Lived {
        core,
        ending,
        mut out,
        is_closed,
    } = lived;
    let stop = if is_closed {
        Some(ProgramError::File("-"))
    } else {
        ProgramError::of_ending(ending)
    };
    let status = match tell(rt, order, &core, stop, is_closed, outlet, &mut out, err) {
        Some(status) => status,
        None => stopped(&ProgramError::Memory, err),
    };
    if !is_closed {
        tell_more(rt, &core, ending, order, kept, err);
    }
    drop(out);
    forget(core);
    status
}

// Writes what is to be written behind it. Where memory was refused for that, there is no status.
fn tell<R: Files + AllocGlobal, W: Write, E: Write, D: Device, G: Opening>(
    rt: &R,
    order: &Run<'_>,
    core: &Core<D, Sessions<D>, G>,
    stop: Option<ProgramError<'_>>,
    is_closed: bool,
    outlet: &Outlet<'_, R::File>,
    out: &mut W,
    err: &mut E,
) -> Option<u8>
where
    R::File: Lockable,
    requires { IfSome outlet.now.trace (λ t. IsHead core.now.image G.opening t.opening.items) }
    ensures { IfSome result (λ status. status ≤ 4) }
{
    let others = if is_closed {
        Ok(())
    } else {
        show_others(rt, core, out)
    };
    let shown = match others {
        Ok(()) => faulted(core),
        Err(ProgramError::Memory) => return None,
        Err(stop) => stopped(&stop, err).max(faulted(core)),
    };
    match tell_rest(rt, order, outlet, shown, core.globals(), stop, err) {
        Some((status, true)) => Some(status.max(trace_core(rt, core, outlet, err))),
        Some((status, false)) => Some(status),
        None => None,
    }
}

// The exit status of whether a job faulted.
fn faulted<H: Events>(told: &H) -> u8
    ensures which { result ≡ (if has_faulted (H.history told.now) then 1 else 0) }
    ensures bound { result ≤ 1 }
{
    if has_faulted(told) { FAULTED } else { 0 }
}

// Writes what the jobs wrote that the first one started: as it is printed of a run of so many, behind what that printed of the first one.
fn show_others<'a, R: Files + AllocGlobal, W: Write, D: Device, G: Opening>(
    rt: &R,
    core: &Core<D, Sessions<D>, G>,
    out: &mut W,
) -> Result<(), ProgramError<'a>> {
    let jobs = core.jobs() as u32;
    if jobs == 1 {
        return Ok(());
    }
    let alloc = rt.alloc();
    let all = printed(alloc, core, jobs)?;
    let first = core.out(1, &Text::from_number(alloc, 0), 1)?;
    print(behind(behind(&all, FIRST_HEAD), &first), out)
}

// What is printed before what the first of several jobs wrote.
const FIRST_HEAD: &[u8] = b"--- job 1\n";

// What stands behind these bytes.
fn behind<'a>(all: &'a [u8], front: &[u8]) -> &'a [u8] {
    match all.strip_prefix(front) {
        Some(rest) => rest,
        None => all,
    }
}
