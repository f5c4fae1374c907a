// What a run does in the place of an event.

ghost use Rattle.std.specs.Prelude.{◌≡◌, ◌≤◌, ◌++◌, ◌∷◌, [], length, replicate, take, slice_get, IfOk, IfSome, true, false};
ghost use Rattle.mj_ask.specs.Fits.{is_shared};
ghost use Rattle.mj_dev.specs.Shelves.{principal, left_of};
ghost use Rattle.mj_jobs.specs.Rows.{rows_limit};
ghost use Rattle.mj_sys.specs.Opening.{opening_of, are_bare};
ghost use Rattle.mj_sys.specs.Shared.{are_global};
ghost use Rattle.mj_text.specs.declared.limit.Limit.TheVariants.{V2};
ghost use Rattle.mj_trace.specs.Lines.{IsTrace};
ghost use Rattle.mj_load.specs.Image.{program_of};
ghost use Rattle.mj_core.specs.Runs.{IsRun};
ghost use Rattle.mj_replica.specs.Replays.{history_of};
ghost use Rattle.mj_replay.specs.Traces.{opening_in};
ghost use Rattle.mj_retrace.specs.Made.{IsThere, event_by};
ghost use Rattle.mj_retrace.specs.Instead.{IsFront, IsInstead, MayTell};

use crate::again::{RUNS, make_again, way_of};
use crate::ends::next_ask;
use crate::retracing::Spot;
use mj_ask::{Ask, Noted, Reply, Start, is_same_ask};
use mj_core::{Core, Refusal, Seen, Step};
use mj_dev::{Blank, Pool};
use mj_expect::Heeds;
use mj_globs::Globals;
use mj_load::Image;
use mj_replay::opened;
use mj_sys::Opening;
use mj_trace::Trace;
use std::alloc::{AllocError, Global};
use std::marker::Brand;

/// What a run does in the place of an event.
#[derive(Drop)]
pub struct Instead {
    /// the job of the event
    pub job: u32,
    /// what it asks there
    pub ask: Ask,
    /// where in the routines it stands there
    pub spot: Spot,
    /// what it is told there, if what serves that is shared by all jobs, and lets it go on
    pub told: Option<Reply>,
}

/// What the job of the event at a place does behind the events before that. None where one of these isn't made, and where the job asks nothing soon. Texts
/// have the greater limit.
pub fn does_instead(
    alloc: Global,
    image: Image,
    globals: Globals,
    trace: &Trace,
    at: usize,
) -> Result<Option<Instead>, AllocError>
    requires global { are_global globals.content ≡ true }
    requires written { IsTrace trace.now }
    requires long { image.bounds.limit ≡ V2 }
    requires room { length trace.now.events ≤ image.bounds.events }
    ensures { IfOk result (λ found. IfSome found (λ it.
        IsInstead (program_of image) (opening_in globals.content trace.now) (history_of trace.now.events) at it.job it.ask it.spot it.told)) }
{
    match opened(alloc, trace) {
        Ok((pool, starts)) => instead_over(alloc, image, globals, pool, starts, trace.events(), at),
        Err(refused) => {
            drop(image);
            drop(globals);
            Err(refused)
        }
    }
}

// The same over an opening.
fn instead_over(
    alloc: Global,
    image: Image,
    globals: Globals,
    pool: Pool<Blank>,
    starts: Vec<Start>,
    events: &[Noted],
    at: usize,
) -> Result<Option<Instead>, AllocError>
    requires global { are_global globals.content ≡ true }
    requires some { 1 ≤ length starts.items }
    requires few { length starts.items ≤ rows_limit }
    requires fits { length starts.items ≤ left_of principal pool }
    requires bare { are_bare starts.items ≡ true }
    requires long { image.bounds.limit ≡ V2 }
    requires room { length events.now ≤ image.bounds.events }
    ensures { IfOk result (λ found. IfSome found (λ it.
        IsInstead (program_of image) (opening_of globals.content pool starts.items) (history_of events.now) at it.job it.ask it.spot it.told)) }
{
    instead_in::<Brand>(alloc, image, globals, pool, starts, events, at)
}

// The same in a core of that opening.
fn instead_in<O: Opening>(
    alloc: Global,
    image: Image,
    globals: Globals,
    pool: Pool<Blank>,
    starts: Vec<Start>,
    events: &[Noted],
    at: usize,
) -> Result<Option<Instead>, AllocError>
    requires opening { opening_of globals.content pool starts.items ≡ O.opening }
    requires global { are_global globals.content ≡ true }
    requires some { 1 ≤ length starts.items }
    requires few { length starts.items ≤ rows_limit }
    requires fits { length starts.items ≤ left_of principal pool }
    requires bare { are_bare starts.items ≡ true }
    requires long { image.bounds.limit ≡ V2 }
    requires room { length events.now ≤ image.bounds.events }
    ensures { IfOk result (λ found. IfSome found (λ it.
        IsInstead (program_of image) O.opening (history_of events.now) at it.job it.ask it.spot it.told)) }
{
    match Core::<Blank, Heeds, O>::new(alloc, image, globals, pool, starts) {
        Ok(mut core) => {
            let found = instead_of(&mut core, events, at);
            drop(core);
            found
        }
        Err(back) => {
            drop(back);
            Err(AllocError)
        }
    }
}

// The same in a core that has made none of the events.
fn instead_of<O: Opening>(
    core: &mut Core<Blank, Heeds, O>,
    events: &[Noted],
    at: usize,
) -> Result<Option<Instead>, AllocError>
    requires none { core.old.history ≡ [] }
    requires over { core.old.over ≡ replicate rows_limit false }
    requires short { length events.now ≤ core.old.image.bounds.events }
    ensures { IfOk result (λ found. IfSome found (λ it.
        IsInstead (program_of core.old.image) O.opening (history_of events.now) at it.job it.ask it.spot it.told)) }
{
    let Some(event) = events.get(at) else {
        return Ok(None);
    };
    if !makes_front(core, events, at)? {
        return Ok(None);
    }
    does_there(core, event.job, &event.reply)
}

// Makes the events before a place, and says whether all of them are made.
fn makes_front<O: Opening>(
    core: &mut Core<Blank, Heeds, O>,
    events: &[Noted],
    at: usize,
) -> Result<bool, AllocError>
    requires none { core.old.history ≡ [] }
    requires over { core.old.over ≡ replicate rows_limit false }
    requires short { length events.now ≤ core.old.image.bounds.events }
    requires within { at ≤ length events.now }
    ensures { IfOk result (λ all. all ≡ true → IsFront core.old.image events.now at core.new) }
{
    for place in 0..at {
        let event = &events[place];
        if !make_again(core, event.job, &event.ask, &event.reply)? {
            return Ok(false);
        }
    }
    Ok(true)
}

// What a job does next, where this is recorded as its reply.
fn does_there<O: Opening>(
    core: &mut Core<Blank, Heeds, O>,
    job: u32,
    reply: &Reply,
) -> Result<Option<Instead>, AllocError>
    ensures { IfOk result (λ found. IfSome found (λ it.
        (it.job ≡ job) × MayTell (program_of core.old.image) O.opening core.old.history job it.ask it.spot it.told)) }
{
    let _events = core.len(); // for the proof
    let Some((ask, spot)) = next_ask(core, job)? else {
        return Ok(None);
    };
    let told = told_of(core, job, &ask, reply)?;
    Ok(Some(Instead {
        job,
        ask,
        spot,
        told,
    }))
}

// What a job is told that asks this next, if all jobs share what serves it.
fn told_of<O: Opening>(
    core: &mut Core<Blank, Heeds, O>,
    job: u32,
    ask: &Ask,
    reply: &Reply,
) -> Result<Option<Reply>, AllocError>
    ensures shared { IfOk result (λ told. IfSome told (λ r. is_shared ask.now ≡ true)) }
    ensures run { IfOk result (λ told. IfSome told (λ r. IsRun (program_of core.old.image) O.opening (core.old.history ++ event_by job ask.now r ∷ []))) }
{
    match ask {
        Ask::Shared(_) => told_there(core, job, ask, reply),
        _ => Ok(None),
    }
}

// What a job is told that asks this next, where that is recorded.
fn told_there<O: Opening>(
    core: &mut Core<Blank, Heeds, O>,
    job: u32,
    ask: &Ask,
    reply: &Reply,
) -> Result<Option<Reply>, AllocError>
    ensures { IfOk result (λ told. IfSome told (λ r. IsRun (program_of core.old.image) O.opening (core.old.history ++ event_by job ask.now r ∷ []))) }
{
    // each job that there may be has a place
    let _events = core.len(); // for the proof
    let _jobs = core.jobs(); // for the proof
    let step = Step {
        job,
        way: way_of(ask, reply),
    };
    for _ in 0..RUNS {
        match core.step_with(step, reply) {
            Ok(seen) => match seen {
                Seen::Ran => {}
                Seen::Event(place) => {
                    let _made = core.len(); // for the proof
                    return reply_at(core, place, ask);
                }
                _ => return Ok(None),
            },
            Err(why) => match why {
                Refusal::Memory => return Err(AllocError),
                _ => return Ok(None),
            },
        }
    }
    Ok(None)
}

// The reply of the event at a place of the history, if what is asked there is this.
fn reply_at<O: Opening>(
    core: &Core<Blank, Heeds, O>,
    place: usize,
    ask: &Ask,
) -> Result<Option<Reply>, AllocError>
    ensures { IfOk result (λ told. IfSome told (λ r. IsThere core.now.history place ask.now r)) }
{
    match core.event(place) {
        None => Ok(None),
        Some((_, asked, told)) => {
            if !is_same_ask(asked, ask) {
                return Ok(None);
            }
            Ok(Some(told.try_clone()?))
        }
    }
}
