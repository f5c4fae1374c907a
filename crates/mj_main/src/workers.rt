// Jobs that workers run at the same time.

ghost use Rattle.std.specs.Prelude.{◌≡◌, ◌≤◌, map, true, IfSome};
ghost use Rattle.std.specs.List.{All, list_all};
ghost use Rattle.mj_dev.specs.Shelves.{AreRising, count_of};
ghost use Rattle.mj_sys.specs.Opening.{opening_of};
ghost use Rattle.mj_rou.specs.Words.{Each, IsRoutineWorded};
ghost use Rattle.mj_load.specs.Image.{routines_of};
ghost use Rattle.mj_replica.specs.Replicas.{AreWhole};
ghost use Rattle.mj_text.specs.declared.limit.Limit.TheVariants.{V2};
ghost use Rattle.mj_trace.specs.declared.form.Form.TheVariants.{Second};
ghost use Rattle.mj_trace.specs.Trace.{opening_text};
ghost use Rattle.mj_trace.specs.Sized.{device_count_fits};
ghost use Rattle.mj_recorded.specs.Traces.{entries_of};
ghost use Rattle.mj_report.specs.Traced.{IsHead};
ghost use Rattle.mj_begin.specs.Words.{WereGiven};
ghost use Rattle.mj_main.specs.Statuses.{cut_stop, ungathered_stop};

use mj_ask::Start;
use mj_begin::{Beginning, Outlet, save};
use mj_command_line::Run;
use mj_dev::Device;
use mj_drafts::{Lockable, ProgramError, stopped, tell_trouble};
use mj_finish::{kept_starts, tell_devices, tell_faults, tell_full, tell_run, tell_trace};
use mj_gather::{Ungathered, gather};
use mj_load::Image;
use mj_sys::Opening;
use mj_threads::{Cut, cut_of, run_together};
use mj_work::{Ended, WORKERS_LIMIT};
use std::io::Write;
use std::mem::forget;
use std::rt::{Clock, Files};
use std::sync::Wait;
use std::thread::Threads;

/// Runs the jobs by so many workers, and tells of the run that is gathered of what they leave, which is forgotten: the process ends behind this.
pub fn with_workers<R, O, E, D, G>(
    rt: &R,
    order: &Run<'_>,
    workers: u32,
    beginning: Beginning<D>,
    outlet: &Outlet<'_, R::File>,
    out: &mut O,
    err: &mut E,
) -> u8
where
    R: Files + AllocGlobal + Clock + Threads + Wait + Sync,
    R::File: Lockable,
    O: Write,
    E: Write,
    D: Device + Send,
    G: Opening + Send,
    requires opening { opening_of beginning.globals.content beginning.pool beginning.starts.items ≡ G.opening }
    requires given { WereGiven order.now beginning.starts.items beginning.pool beginning.image beginning.globals.content beginning.steps }
    requires worded { Each IsRoutineWorded (routines_of beginning.image) }
    requires whole { AreWhole beginning.pool }
    requires text { IfSome outlet.now.trace
        (λ t. t.opening.items ≡ opening_text (Second V2) (map count_of beginning.pool) (entries_of beginning.starts.items)) }
    requires sized { IfSome outlet.now.trace (λ t. list_all device_count_fits (map count_of beginning.pool) ≡ true) }
    requires rising { IfSome outlet.now.trace (λ t. AreRising beginning.pool) }
    ensures { result ≤ 4 }
{
    let Beginning {
        steps,
        image,
        globals,
        pool,
        starts,
    } = beginning;
    let kept = kept_starts(rt.alloc(), &starts, order.hints);
    drop(steps);
    let n = workers.max(1).min(WORKERS_LIMIT);
    let status = match run_together::<D, G, R>(rt, rt.alloc(), n, &image, globals, pool, starts) {
        Ok(ended) => {
            let status = tell_ended(rt, order, outlet, &image, &ended, &kept, out, err);
            forget(ended);
            match status {
                Some(status) => status,
                None => stopped(&ProgramError::Memory, err),
            }
        }
        Err(_) => stopped(&ProgramError::Memory, err),
    };
    forget(image);
    status
}

// Tells of the run that is gathered of what workers leave. Where it can't be gathered, nothing is printed, and there is no trace. Where memory was refused for
// that, there is no status.
fn tell_ended<R: Files + AllocGlobal, O: Write, E: Write, D: Device, G: Opening>(
    rt: &R,
    order: &Run<'_>,
    outlet: &Outlet<'_, R::File>,
    image: &Image,
    ended: &Ended<'_, D, G>,
    kept: &Option<Vec<Start>>,
    out: &mut O,
    err: &mut E,
) -> Option<u8>
where
    R::File: Lockable,
    requires head { IfSome outlet.now.trace (λ t. IsHead image.now G.opening t.opening.items) }
    requires images { All (λ r. r.image ≡ image.now) ended.now.rans.items }
    ensures { IfSome result (λ status. status ≤ 4) }
{
    let globals = ended.system.globals();
    match gather(rt.alloc(), &ended.system, &ended.rans) {
        Ok(run) => {
            let cut = cut_of(&ended.rans, ended.short);
            let stop = cut_stop(cut);
            let jobs = ended.system.rows() as u32;
            let told = tell_run(rt, order, outlet, &run, jobs, globals, stop, out, err);
            let status = match told {
                Some((status, true)) => Some(status.max(tell_trace::<R, E, mj_gather::Run<'_>, G>(
                    rt,
                    outlet,
                    image,
                    &run,
                    run.places(),
                    err,
                ))),
                Some((status, false)) => Some(status),
                None => None,
            };
            if order.hints && matches!(cut, Some(Cut::Full)) {
                tell_full(rt, &run, run.places(), order, err);
            }
            tell_faults(rt, order, image, kept, &run, err);
            tell_devices(rt, &run, order, err);
            forget(run);
            status
        }
        Err(Ungathered::Memory) => None,
        Err(why) => {
            let status = stopped(&ungathered_stop(why), err);
            match save(rt, globals, order.save, &outlet.lock) {
                Err(ProgramError::Memory) => None,
                done => Some(status.max(tell_trouble(done, err))),
            }
        }
    }
}

// Why jobs that workers ran stopped before their end, if some did.
fn cut_stop<'a>(cut: Option<Cut>) -> Option<ProgramError<'a>>
    ensures { result ≡ cut_stop cut }
{
    match cut {
        None => None,
        Some(Cut::Memory) => Some(ProgramError::Memory),
        Some(Cut::Full) => Some(ProgramError::Full),
        Some(Cut::Refused { job }) => Some(ProgramError::Differs(job)),
    }
}

// Why nothing is gathered of what workers ran.
fn ungathered_stop<'a>(why: Ungathered) -> ProgramError<'a>
    ensures { result ≡ ungathered_stop why }
{
    match why {
        Ungathered::Differs { job, .. } | Ungathered::Twice { job } => ProgramError::Differs(job),
        Ungathered::Memory => ProgramError::Memory,
    }
}
