// Where jobs stand, and what those that go on ask next.

ghost use Rattle.std.specs.Prelude.{◌≡◌, ◌++◌, ◌∷◌, [], IfOk, OnOk, IfSome, Some};
ghost use Rattle.mj_load.specs.Image.{program_of};
ghost use Rattle.mj_semantics.specs.State.{places};
ghost use Rattle.mj_jobvm.specs.Jobs.{Running};
ghost use Rattle.mj_core.specs.Asking.{IfAsks, IsAtAsk};
ghost use Rattle.mj_core.specs.Shown.{AtAsk, stand_at};
ghost use Rattle.mj_retrace.specs.Made.{SeesAsk};
ghost use Rattle.mj_retrace.specs.Retraced.{innermost, AsksFrom, AreAsked};

use crate::retracing::{Asked, Spot};
use mj_ask::Ask;
use mj_core::{Core, Ready, Refusal};
use mj_dev::Blank;
use mj_expect::Heeds;
use mj_jobvm::Job;
use mj_sys::Opening;
use std::alloc::{AllocError, Global};

/// How often a job is let go on to its next ask.
const RUNS: u32 = 1_000;

/// What each job that goes on asks next, and where in the routines it stands there. One that asks nothing for long isn't there.
pub fn next_asks<O: Opening>(
    alloc: Global,
    core: &mut Core<Blank, Heeds, O>,
) -> Result<(Vec<Asked>, Vec<Spot>), AllocError>
    ensures history { core.new.history ≡ core.old.history }
    ensures asked { IfOk result (λ ends. AreAsked (program_of core.old.image) O.opening core.old.history ends.0.items ends.1.items) }
{
    let mut asked = Vec::new(alloc);
    let mut stands = Vec::new(alloc);
    for done in 0..core.jobs() as u32 {
        add_ask(core, done + 1, &mut asked, &mut stands)?;
    }
    Ok((asked, stands))
}

// Adds what a job asks next, and where it stands there, if it goes on and asks soon.
fn add_ask<O: Opening>(
    core: &mut Core<Blank, Heeds, O>,
    job: u32,
    asked: &mut Vec<Asked>,
    stands: &mut Vec<Spot>,
) -> Result<(), AllocError>
    ensures image { core.new.image ≡ core.old.image }
    ensures history { core.new.history ≡ core.old.history }
    ensures asked { AreAsked (program_of core.old.image) O.opening core.old.history asked.old.items stands.old.items
        → OnOk result (AreAsked (program_of core.old.image) O.opening core.old.history asked.new.items stands.new.items) }
{
    match next_ask(core, job)? {
        None => Ok(()),
        Some((ask, spot)) => {
            asked.push((job, ask))?;
            stands.push(spot)?;
            Ok(())
        }
    }
}

/// What a job asks next, and where it stands there, if it goes on and asks soon.
pub fn next_ask<O: Opening>(
    core: &mut Core<Blank, Heeds, O>,
    job: u32,
) -> Result<Option<(Ask, Spot)>, AllocError>
    ensures image { core.new.image ≡ core.old.image }
    ensures history { core.new.history ≡ core.old.history }
    ensures asks { IfOk result (λ next. IfSome next (λ ask. AsksFrom (program_of core.old.image) O.opening core.old.history job ask.0 ask.1)) }
{
    for _ in 0..RUNS {
        match ready_on(core, job) {
            Ok(Ready::Ran) => {}
            Ok(Ready::Asks(seen)) => return seen,
            Ok(Ready::Ended) => return Ok(None),
            Err(Refusal::Memory) => return Err(AllocError),
            Err(_) => return Ok(None),
        }
    }
    Ok(None)
}

// Lets a job go on to its next ask, and copies that, with where it stands there. The history stays as it is.
fn ready_on<O: Opening>(
    core: &mut Core<Blank, Heeds, O>,
    job: u32,
) -> Result<Ready<Result<Option<(Ask, Spot)>, AllocError>>, Refusal>
    ensures image { core.new.image ≡ core.old.image }
    ensures history { core.new.history ≡ core.old.history }
    ensures asks { IfAsks result (λ seen. IfOk seen (λ next. (found : Running)
        × IsAtAsk core.old.image O.opening core.old.history job found × SeesAsk found.run next)) }
{
    core.ready_job(job, seen)
}

// What a job asks that waits, and where it stands.
fn seen(job: &Job) -> Result<Option<(Ask, Spot)>, AllocError>
    ensures { IfOk result (λ next. SeesAsk job.now.run next) }
{
    match job.ask() {
        None => Ok(None),
        Some(ask) => Ok(Some((ask.try_clone()?, spot_of(job)?))),
    }
}

/// Adds where in the routines a job stands that stands at an ask.
pub fn add_spot<O: Opening>(
    spots: &mut Vec<Spot>,
    core: &Core<Blank, Heeds, O>,
    job: u32,
) -> Result<(), AllocError>
    ensures { (at : AtAsk) → stand_at core.now.stands job ≡ Some at → OnOk result (spots.new.items ≡ spots.old.items ++ innermost at.places ∷ []) }
{
    let spot = spot_at(core, job)?;
    spots.push(spot)?;
    Ok(())
}

// Where in the routines a job stands that stands at an ask.
fn spot_at<O: Opening>(core: &Core<Blank, Heeds, O>, job: u32) -> Result<Spot, AllocError>
    ensures { (at : AtAsk) → stand_at core.now.stands job ≡ Some at → IfOk result (λ spot. spot ≡ innermost at.places) }
{
    match core.job(job) {
        None => Ok(None),
        Some(job) => spot_of(job),
    }
}

// Where a job stands in the routines.
fn spot_of(job: &Job) -> Result<Spot, AllocError>
    ensures { IfOk result (λ spot. spot ≡ innermost (places job.now.run.at.state)) }
{
    match job.place() {
        None => Ok(None),
        Some((routine, line)) => Ok(Some((routine.try_clone()?, line))),
    }
}
