// Jobs run from their beginning.

ghost use Rattle.std.specs.Prelude.{◌≡◌, ◌≤◌, true, length, IfOk, IfErr, IfSome, IfNone};
ghost use Rattle.mj_text.specs.declared.limit.Limit.TheVariants.{V2};
ghost use Rattle.mj_dev.specs.Shelves.{principal, left_of};
ghost use Rattle.mj_dev.specs.Told.{IsToldBy};
ghost use Rattle.mj_jobs.specs.Rows.{rows_limit};
ghost use Rattle.mj_load.specs.Image.{program_of};
ghost use Rattle.mj_locktab.specs.Locks.{LocksApart};
ghost use Rattle.mj_steps.specs.Driven.{ByList};
ghost use Rattle.mj_sys.specs.History.{state_of};
ghost use Rattle.mj_sys.specs.Opening.{opening_of, are_bare};
ghost use Rattle.mj_sys.specs.Shared.{are_global};
ghost use Rattle.mj_core.specs.Runs.{IsRun};
ghost use Rattle.mj_core.specs.Shown.{begun};
ghost use Rattle.mj_serial.specs.Laws.{IsAsAlone, AllMustClash};
ghost use Rattle.mj_run.specs.Stepping.{StepsAs, IsInTurn, in_turn_limit, AreSteps};

use crate::jobs::Jobs;
use mj_ask::Start;
use mj_core::Core;
use mj_dev::{Device, Pool};
use mj_fit::none_is_held;
use mj_globs::Globals;
use mj_load::Image;
use mj_serial::holds;
use mj_sessions::Sessions;
use mj_steps::{Ending, Step};
use mj_sys::{Opening, Unmade};
use std::alloc::Global;

/// Runs jobs from their beginning: makes the steps of the list, in order, up to the first that is refused; or where there is no list, steps the jobs in turn,
/// until all have ended, all wait, or as many steps were made as may be. Gives the core that they leave, and how it ended. The arguments are those of
/// `Core::new`. At want of memory for the system nothing was stepped, and all comes back that the system was to be made of.
///
/// Whatever the steps were: the history is a run of the image's program from the opening; no two jobs hold overlapping names; what the jobs did is as their
/// committed transactions run alone, one after the other; and each commit that clashed had to. No job asked what nobody could serve, and what a job was told
/// of its device comes of a call to a device.
pub fn run_jobs<D: Device, O: Opening>(
    alloc: Global,
    image: Image,
    globals: Globals,
    pool: Pool<D>,
    starts: Vec<Start>,
    steps: Option<&[Step]>,
) -> Result<(Core<D, Sessions<D>, O>, Ending), Unmade<D>>
    requires long { image.bounds.limit ≡ V2 }
    requires opening { opening_of globals.content pool starts.items ≡ O.opening }
    requires global { are_global globals.content ≡ true }
    requires some { 1 ≤ length starts.items }
    requires few { length starts.items ≤ rows_limit }
    requires fits { length starts.items ≤ left_of principal pool }
    requires bare { are_bare starts.items ≡ true }
    ensures image { IfOk result (λ ran. ran.0.image ≡ image) }
    ensures listed { IfOk result (λ ran. IfSome steps.entry (λ list.
        ByList (StepsAs (IsToldBy D.inside D.failures D.taken D.given D.IsTold) O.opening) 0 list.now (begun image) ran.1 ran.0)) }
    ensures in_turn { IfOk result (λ ran. IfNone steps.entry
        (IsInTurn (IsToldBy D.inside D.failures D.taken D.given D.IsTold) O.opening in_turn_limit (begun image) ran.1 ran.0)) }
    ensures gives { IfOk result (λ ran. AreSteps (IsToldBy D.inside D.failures D.taken D.given D.IsTold) O.opening (begun image) ran.0) }
    ensures run { IfOk result (λ ran. IsRun (program_of image) O.opening ran.0.history) }
    ensures apart { IfOk result (λ ran. LocksApart (state_of O.opening ran.0.history).locks) }
    ensures serial { IfOk result (λ ran. IsAsAlone (program_of image) O.opening ran.0.history) }
    ensures clashes { IfOk result (λ ran. AllMustClash (program_of image) O.opening ran.0.history) }
    ensures globals { IfErr result (λ back. back.globals ≡ globals) }
    ensures pool { IfErr result (λ back. back.pool ≡ pool) }
    ensures starts { IfErr result (λ back. back.starts.items ≡ starts.items) }
{
    none_is_held();
    let core = Core::<D, Sessions<D>, O>::new(alloc, image, globals, pool, starts)?;
    let mut jobs = Jobs { core };
    let ending = jobs.go(steps);
    let Jobs { core } = jobs;
    // what is kept behind each step is kept behind the last
    let _run = core.len(); // for the proof
    let _locks = core.locks(); // for the proof
    // and what holds of every core holds of this one
    holds(&core);
    Ok((core, ending))
}

/// The jobs of a core of which nothing was asked yet, for who steps them otherwise. The arguments, and what comes back at want of memory, are those of
/// `Core::new`.
pub fn begin_jobs<D: Device, O: Opening>(
    alloc: Global,
    image: Image,
    globals: Globals,
    pool: Pool<D>,
    starts: Vec<Start>,
) -> Result<Jobs<D, Sessions<D>, O>, Unmade<D>>
    requires long { image.bounds.limit ≡ V2 }
    requires opening { opening_of globals.content pool starts.items ≡ O.opening }
    requires global { are_global globals.content ≡ true }
    requires some { 1 ≤ length starts.items }
    requires few { length starts.items ≤ rows_limit }
    requires fits { length starts.items ≤ left_of principal pool }
    requires bare { are_bare starts.items ≡ true }
    ensures begun { IfOk result (λ jobs. jobs ≡ begun image) }
    ensures globals { IfErr result (λ back. back.globals ≡ globals) }
    ensures pool { IfErr result (λ back. back.pool ≡ pool) }
    ensures starts { IfErr result (λ back. back.starts.items ≡ starts.items) }
{
    none_is_held();
    let core = Core::<D, Sessions<D>, O>::new(alloc, image, globals, pool, starts)?;
    let jobs = Jobs { core };
    Ok(jobs)
}
