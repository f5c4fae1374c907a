// Recorded events, replayed.

ghost use Rattle.std.specs.Prelude.{◌≡◌, ◌<◌, ◌≤◌, ℕ, suc, length, Some, take, slice_get, IfOk, OnOk, true};
ghost use Rattle.mj_ask.specs.declared.ask.Ask as asks;
ghost use Rattle.mj_ask.specs.declared.ask.Reply as replies;
ghost use Rattle.mj_dev.specs.Shelves.{principal, left_of};
ghost use Rattle.mj_jobs.specs.Rows.{IsLive, rows_limit};
ghost use Rattle.mj_load.specs.Image.{program_of};
ghost use Rattle.mj_sys.specs.History.{History, state_of};
ghost use Rattle.mj_sys.specs.Opening.{opening_of, are_bare};
ghost use Rattle.mj_sys.specs.Shared.{are_global};
ghost use Rattle.mj_sys.specs.System.{history_limit};
ghost use Rattle.mj_replica.specs.Replays.{event_of, history_of, Says};
ghost use Rattle.mj_replica.specs.Playing.{AreStaged, Stages};

use crate::playing::{Played, play};
use crate::walking::{Sought, walk};
use mj_ask::{Ask, Noted, Reply, Start};
use mj_dev::{Device, Pool};
use mj_expect::Heeds;
use mj_globs::Globals;
use mj_jobvm::Job;
use mj_load::Image;
use mj_sys::{Opening, System};
use std::alloc::{AllocError, Global};

/// What a replay comes to.
#[derive(Clone, Copy, PartialEq, Eq, Debug)]
pub enum Verdict {
    /// the events are a run
    Same,
    /// the event at this place, from 0, is the first that isn't made
    Differs(usize),
}

/// Replays recorded events over this image, from the opening of a system of these globals, devices and starts. What the system serves must be told as
/// it serves it; what a device is recorded to have answered must be what some device may have, and no device is called. An event may be taken for one that
/// isn't made where its job goes on for 10,000,000,000 turns behind its last reply. Where an ask is recorded to have come from isn't looked at.
pub fn replay<D: Device, O: Opening>(
    alloc: Global,
    image: &Image,
    globals: Globals,
    pool: Pool<D>,
    starts: Vec<Start>,
    events: &[Noted],
) -> Result<Verdict, AllocError>
    requires opening { opening_of globals.content pool starts.items ≡ O.opening }
    requires global { are_global globals.content ≡ true }
    requires some { 1 ≤ length starts.items }
    requires few { length starts.items ≤ rows_limit }
    requires fits { length starts.items ≤ left_of principal pool }
    requires bare { are_bare starts.items ≡ true }
    requires short { length events.now ≤ history_limit }
    ensures { IfOk result (λ verdict. Says (program_of image.now) O.opening (history_of events.now) verdict) }
{
    let mut none = Vec::new(alloc);
    walk::<D, O>(
        alloc,
        image,
        globals,
        pool,
        starts,
        events,
        Sought::Nothing,
        &mut none,
    )
}

// Makes an event again, if it is the next.
pub fn make_event<D: Device, O: Opening>(
    alloc: Global,
    image: &Image,
    system: &mut System<D, O>,
    jobs: &mut Vec<Played>,
    job: u32,
    ask: &Ask,
    reply: &Reply,
) -> Result<bool, AllocError>
    requires staged { (history : History) × AreStaged image.now O.opening history system.old jobs.old.items }
    requires room { length system.old.history < history_limit }
    ensures { (history : History) → AreStaged image.now O.opening history system.old jobs.old.items
        → IfOk result (λ made. Stages image.now O.opening history (record { job = job; ask = ask.now; reply = reply.now }) made system.new jobs.new.items) }
{
    if !system.is_live(job) {
        return Ok(false);
    }
    admit(alloc, image, system, jobs, job as usize)?;
    make_of(image, system, jobs, job, ask, reply)
}

// Makes an event of a job again that was started, if it is the next.
fn make_of<D: Device, O: Opening>(
    image: &Image,
    system: &mut System<D, O>,
    jobs: &mut [Played],
    job: u32,
    ask: &Ask,
    reply: &Reply,
) -> Result<bool, AllocError>
    requires numbered { 1 ≤ job }
    requires there { job ≤ length jobs.old }
    requires staged { (history : History) × AreStaged image.now O.opening history system.old jobs.old }
    requires live { IsLive (state_of O.opening system.old.history).rows job }
    requires room { length system.old.history < history_limit }
    ensures { (history : History) → AreStaged image.now O.opening history system.old jobs.old
        → IfOk result (λ made. Stages image.now O.opening history (record { job = job; ask = ask.now; reply = reply.now }) made system.new jobs.new) }
{
    let at = job as usize - 1;
    let played = &mut jobs[at];
    play(
        image,
        system,
        &mut played.claim,
        &mut played.job,
        &mut played.heeds,
        ask,
        reply,
    )
}

// Starts the jobs up to this one.
pub fn admit<D: Device, O: Opening>(
    alloc: Global,
    image: &Image,
    system: &mut System<D, O>,
    jobs: &mut Vec<Played>,
    job: usize,
) -> Result<(), AllocError>
    requires staged { (history : History) × AreStaged image.now O.opening history system.old jobs.old.items }
    requires row { job ≤ length (state_of O.opening system.old.history).rows }
    ensures staged { OnOk result
        ((history : History) → AreStaged image.now O.opening history system.old jobs.old.items
        → AreStaged image.now O.opening history system.new jobs.new.items) }
    ensures history { system.new.history ≡ system.old.history }
    ensures there { OnOk result (job ≤ length jobs.new.items) }
{
    for _ in jobs.len()..job {
        start_next(alloc, image, system, jobs)?;
    }
    Ok(())
}

// Starts the job of the lowest row that isn't claimed yet.
fn start_next<D: Device, O: Opening>(
    alloc: Global,
    image: &Image,
    system: &mut System<D, O>,
    jobs: &mut Vec<Played>,
) -> Result<(), AllocError>
    requires staged { (history : History) × AreStaged image.now O.opening history system.old jobs.old.items }
    requires row { length jobs.old.items < length (state_of O.opening system.old.history).rows }
    ensures staged { OnOk result
        ((history : History) → AreStaged image.now O.opening history system.old jobs.old.items
        → AreStaged image.now O.opening history system.new jobs.new.items) }
    ensures history { system.new.history ≡ system.old.history }
    ensures more { OnOk result (length jobs.new.items ≡ suc (length jobs.old.items)) }
{
    jobs.reserve(1)?;
    let Some((claim, session)) = system.claim()? else {
        unreachable!();
    };
    drop(session);
    let (entry, values) = claim.start().try_clone()?.into_parts();
    let job = Job::start(alloc, image, claim.job(), entry, values);
    jobs.push_reserved(Played {
        claim,
        job,
        heeds: Heeds::new(alloc),
    });
    Ok(())
}
