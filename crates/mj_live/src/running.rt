// Jobs run live from their beginning.

ghost use Rattle.std.specs.Prelude.{◌≡◌, ◌≤◌, true, false, length, IfOk, IfErr};
ghost use Rattle.std.specs.Io.KnownBytes.{Appends};
ghost use Rattle.mj_text.specs.declared.limit.Limit.TheVariants.{V2};
ghost use Rattle.mj_dev.specs.Shelves.{principal, left_of};
ghost use Rattle.mj_dev.specs.Told.{IsToldBy};
ghost use Rattle.mj_jobs.specs.Rows.{rows_limit};
ghost use Rattle.mj_load.specs.Image.{program_of};
ghost use Rattle.mj_locktab.specs.Locks.{LocksApart};
ghost use Rattle.mj_sys.specs.History.{state_of};
ghost use Rattle.mj_sys.specs.Opening.{opening_of, are_bare};
ghost use Rattle.mj_sys.specs.Shared.{are_global};
ghost use Rattle.mj_core.specs.Runs.{IsRun};
ghost use Rattle.mj_core.specs.Shown.{begun};
ghost use Rattle.mj_serial.specs.Laws.{IsAsAlone, AllMustClash};
ghost use Rattle.mj_run.specs.Stepping.{AreSteps};
ghost use Rattle.mj_live.specs.Live.{RanLive};
ghost use Rattle.mj_live.specs.Shows.{printed_of};

use crate::stepping::LiveJobs;
use mj_ask::Start;
use mj_core::Core;
use mj_dev::{Device, Pool};
use mj_globs::Globals;
use mj_load::Image;
use mj_run::{Jobs, begin_jobs};
use mj_serial::holds;
use mj_sessions::Sessions;
use mj_steps::Ending;
use mj_sys::{Opening, Unmade};
use std::alloc::Global;
use std::io::Write;
use std::rt::Clock;

/// The most steps of a live run. No run comes to as many.
pub const STEPS_LIMIT: usize = usize::MAX;

/// What a live run leaves.
#[derive(Drop)]
pub struct Lived<D: Device, O: Opening, W: Write + Drop> {
    /// the core
    pub core: Core<D, Sessions<D>, O>,
    /// how stepping ended
    pub ending: Ending,
    /// where the bytes were written
    pub out: W,
    /// whether some couldn't be: then the run was ended there
    pub is_closed: bool,
}

/// Runs jobs live from their beginning: steps them in turn, until all have ended, all wait, or what the first job wrote can't be written. Behind each step what
/// its event had the first job's principal device take is written to `out`, and flushed. HANG takes its time, and so does a timeout that is over. The other
/// arguments, and what comes back at want of memory, are those of `Core::new`.
///
/// Whatever the steps were: unless something couldn't be written, just that was written what is printed of the run; and all is promised of it that
/// `mj_run::run_jobs` promises.
pub fn run_live<R: Clock, D: Device, O: Opening, W: Write + Drop>(
    rt: &R,
    alloc: Global,
    image: Image,
    globals: Globals,
    pool: Pool<D>,
    starts: Vec<Start>,
    out: W,
) -> Result<Lived<D, O, W>, Unmade<D>>
    requires long { image.bounds.limit ≡ V2 }
    requires opening { opening_of globals.content pool starts.items ≡ O.opening }
    requires global { are_global globals.content ≡ true }
    requires some { 1 ≤ length starts.items }
    requires few { length starts.items ≤ rows_limit }
    requires fits { length starts.items ≤ left_of principal pool }
    requires bare { are_bare starts.items ≡ true }
    ensures image { IfOk result (λ ran. ran.core.image ≡ image) }
    ensures live { IfOk result (λ ran. RanLive (IsToldBy D.inside D.failures D.taken D.given D.IsTold) O.opening STEPS_LIMIT image
        (W.contents out) ran.ending ran.core (W.contents ran.out) ran.is_closed) }
    ensures written { IfOk result
        (λ ran. ran.is_closed ≡ false → Appends (W.contents out) (W.contents ran.out) (printed_of ran.core.history)) }
    ensures gives { IfOk result (λ ran. AreSteps (IsToldBy D.inside D.failures D.taken D.given D.IsTold) O.opening (begun image) ran.core) }
    ensures run { IfOk result (λ ran. IsRun (program_of image) O.opening ran.core.history) }
    ensures apart { IfOk result (λ ran. LocksApart (state_of O.opening ran.core.history).locks) }
    ensures serial { IfOk result (λ ran. IsAsAlone (program_of image) O.opening ran.core.history) }
    ensures clashes { IfOk result (λ ran. AllMustClash (program_of image) O.opening ran.core.history) }
    ensures globals { IfErr result (λ back. back.globals ≡ globals) }
    ensures pool { IfErr result (λ back. back.pool ≡ pool) }
    ensures starts { IfErr result (λ back. back.starts.items ≡ starts.items) }
{
    let jobs = begin_jobs::<D, O>(alloc, image, globals, pool, starts)?;
    let mut live = LiveJobs::new(rt, jobs, out);
    let ending = live.go(STEPS_LIMIT);
    let LiveJobs {
        jobs,
        out,
        is_closed,
        ..
    } = live;
    let Jobs { core } = jobs;
    // what is kept behind each step is kept behind the last
    let _run = core.len(); // for the proof
    let _locks = core.locks(); // for the proof
    // and what holds of every core holds of this one
    holds(&core);
    Ok(Lived {
        core,
        ending,
        out,
        is_closed,
    })
}
