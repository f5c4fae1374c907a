// Recorded events, replayed with the places where their asks came from.

ghost use Rattle.std.specs.Prelude.{◌≡◌, ◌≤◌, ◌↔◌, length, Some, Option, IsTrue, IfOk, true, option_copied};
ghost use Rattle.mj_dev.specs.Shelves.{principal, left_of};
ghost use Rattle.mj_frames.specs.Frames.{place_at};
ghost use Rattle.mj_jobs.specs.Rows.{rows_limit};
ghost use Rattle.mj_load.specs.Image.{program_of};
ghost use Rattle.mj_semantics.specs.State.{Place, place_of};
ghost use Rattle.mj_sys.specs.Opening.{opening_of, are_bare};
ghost use Rattle.mj_sys.specs.Shared.{are_global};
ghost use Rattle.mj_sys.specs.System.{history_limit};
ghost use Rattle.mj_replica.specs.Placed.{spot_place, spot_for, place_in, SaysPlaced, Locates};
ghost use Rattle.mj_replica.specs.Walks.{Looks};

use crate::playing::Played;
use crate::replaying::Verdict;
use crate::walking::{Sought, walk};
use mj_ask::{Noted, Spot, Start};
use mj_dev::{Device, Pool};
use mj_globs::Globals;
use mj_jobvm::Job;
use mj_load::Image;
use mj_sys::Opening;
use mj_text::Text;
use std::alloc::{AllocError, Global};

/// What comes of looking for the places of recorded events.
#[derive(Drop)]
pub enum Located {
    /// the same events, each with the place where its ask came from
    To(Vec<Noted>),
    /// the event at this place, from 0, is the first that isn't made
    Differs(usize),
}

/// Replays recorded events as `replay` does, and compares where their asks came from: an event from another place isn't made either.
pub fn replay_placed<D: Device, O: Opening>(
    alloc: Global,
    image: &Image,
    globals: Globals,
    pool: Pool<D>,
    starts: Vec<Start>,
    events: &[Noted],
) -> Result<Verdict, AllocError>
    requires opening { opening_of globals.content pool starts.items ≡ O.opening }
    requires global { are_global globals.content ≡ true }
    requires some { 1 ≤ length starts.items }
    requires few { length starts.items ≤ rows_limit }
    requires fits { length starts.items ≤ left_of principal pool }
    requires bare { are_bare starts.items ≡ true }
    requires short { length events.now ≤ history_limit }
    ensures { IfOk result (λ verdict. SaysPlaced (program_of image.now) O.opening events.now verdict) }
{
    let mut none = Vec::new(alloc);
    walk::<D, O>(
        alloc,
        image,
        globals,
        pool,
        starts,
        events,
        Sought::Recorded,
        &mut none,
    )
}

/// Replays recorded events as `replay` does, and where they are a run, gives them again, each with the place where its ask came from. What is recorded of
/// places isn't looked at.
pub fn locate<D: Device, O: Opening>(
    alloc: Global,
    image: &Image,
    globals: Globals,
    pool: Pool<D>,
    starts: Vec<Start>,
    events: &[Noted],
) -> Result<Located, AllocError>
    requires opening { opening_of globals.content pool starts.items ≡ O.opening }
    requires global { are_global globals.content ≡ true }
    requires some { 1 ≤ length starts.items }
    requires few { length starts.items ≤ rows_limit }
    requires fits { length starts.items ≤ left_of principal pool }
    requires bare { are_bare starts.items ≡ true }
    requires short { length events.now ≤ history_limit }
    ensures { IfOk result (λ located. Locates (program_of image.now) O.opening events.now located) }
{
    let mut found = Vec::new(alloc);
    let verdict = walk::<D, O>(
        alloc,
        image,
        globals,
        pool,
        starts,
        events,
        Sought::All,
        &mut found,
    )?;
    match verdict {
        Verdict::Same => Ok(Located::To(found)),
        Verdict::Differs(at) => Ok(Located::Differs(at)),
    }
}

// Looks where an event that was just made came from, as far as that is sought, and says whether it agrees with what is recorded. Where all places are
// sought, the event is added to what was found, with its own.
pub fn look(
    what: Sought,
    jobs: &[Played],
    event: &Noted,
    found: &mut Vec<Noted>,
) -> Result<bool, AllocError>
    ensures { IfOk result (λ agrees. Looks what jobs.now event.now found.old.items agrees found.new.items) }
{
    match what {
        Sought::Nothing => Ok(true),
        Sought::Recorded => Ok(came_from(jobs, event.job, event.spot.as_ref())),
        Sought::All => {
            let spot = spot_of(jobs, event.job)?;
            let noted = noted_at(event, spot)?;
            found.push(noted)?;
            Ok(true)
        }
    }
}

// Whether a job that was started stands where this says.
fn came_from(jobs: &[Played], job: u32, spot: Option<&Spot>) -> bool
    ensures { IsTrue result ↔ (place_in jobs.now job ≡ Some (spot_place (option_copied spot.entry))) }
{
    let Some(at) = (job as usize).checked_sub(1) else {
        return false;
    };
    match jobs.get(at) {
        None => false,
        Some(played) => stands_at(&played.job, spot),
    }
}

// Whether a job stands there.
fn stands_at(job: &Job, spot: Option<&Spot>) -> bool
    ensures { IsTrue result ↔ (place_of job.now.run.at.state ≡ spot_place (option_copied spot.entry)) }
{
    match (job.place(), spot) {
        (None, None) => true,
        (Some((routine, line)), Some(spot)) => *routine == spot.routine && line == spot.line,
        _ => false,
    }
}

// Where a job stands that was started.
fn spot_of(jobs: &[Played], job: u32) -> Result<Option<Spot>, AllocError>
    ensures { IfOk result (λ spot. (place : Option Place) → place_in jobs.now job ≡ Some place → spot ≡ spot_for place) }
{
    let Some(at) = (job as usize).checked_sub(1) else {
        return Ok(None);
    };
    match jobs.get(at) {
        None => Ok(None),
        Some(played) => spot_for(played.job.place()),
    }
}

/// A place as it is written, if there is one.
pub fn spot_for(place: Option<(&Text, u32)>) -> Result<Option<Spot>, AllocError>
    ensures { IfOk result (λ spot. spot ≡ spot_for (place_at place.entry)) }
{
    match place {
        None => Ok(None),
        Some((routine, line)) => Ok(Some(Spot {
            routine: routine.try_clone()?,
            line,
        })),
    }
}

// The same event with this place.
fn noted_at(event: &Noted, spot: Option<Spot>) -> Result<Noted, AllocError>
    ensures { IfOk result (λ noted. noted ≡ record event.now { spot = spot }) }
{
    let ask = event.ask.try_clone()?;
    let reply = event.reply.try_clone()?;
    Ok(Noted {
        job: event.job,
        spot,
        ask,
        reply,
    })
}
