// One event, made again.

ghost use Rattle.std.specs.Prelude.{◌≡◌, ◌<◌, ◌↔◌, length, true, false, IsTrue, IfOk};
ghost use Rattle.mj_load.specs.Image.{program_of};
ghost use Rattle.mj_core.specs.Runs.{IsRun};
ghost use Rattle.mj_core.specs.Shown.{was_over};
ghost use Rattle.mj_replica.specs.Replays.{IsUnmade};
ghost use Rattle.mj_retrace.specs.Made.{MakesAgain, IsThere, event_by, is_due, way_of};

use mj_ask::{Ask, Reply, is_same_ask, is_same_reply};
use mj_core::{Core, Refusal, Seen, Step, Way};
use mj_dev::Blank;
use mj_expect::Heeds;
use mj_sys::Opening;
use std::alloc::AllocError;

/// How often a job may use up the turns of a step before it asks something.
pub const RUNS: u32 = 1_000_000;

/// Has a job make its next event, and says whether that is this one. No job's end was seen before.
pub fn make_again<O: Opening>(
    core: &mut Core<Blank, Heeds, O>,
    job: u32,
    ask: &Ask,
    reply: &Reply,
) -> Result<bool, AllocError>
    requires short { length core.old.history < core.old.image.bounds.events }
    requires going { was_over core.old.over job ≡ false }
    ensures run { IsRun (program_of core.old.image) O.opening core.old.history }
    ensures image { IfOk result (λ made. core.new.image ≡ core.old.image) }
    ensures made { IfOk result (λ made. made ≡ true → MakesAgain core.old.image O.opening core.old.history job ask.now reply.now core.new) }
    ensures over { IfOk result (λ made. made ≡ true → core.new.over ≡ core.old.over) }
    ensures unmade { IfOk result (λ made. made ≡ false
        → IsUnmade (program_of core.old.image) O.opening core.old.history (event_by job ask.now reply.now)) }
{
    // each job that there may be has a place
    let _events = core.len(); // for the proof
    let _jobs = core.jobs(); // for the proof
    let step = Step {
        job,
        way: way_of(ask, reply),
    };
    for _ in 0..RUNS {
        match core.step_with(step, reply) {
            Ok(seen) => match seen {
                Seen::Ran => {}
                Seen::Event(place) => return Ok(is_event(core, place, ask, reply)),
                _ => return Ok(false),
            },
            Err(why) => match why {
                Refusal::Memory => return Err(AllocError),
                _ => return Ok(false),
            },
        }
    }
    Ok(false)
}

/// How a job is stepped that is told this.
pub fn way_of(ask: &Ask, reply: &Reply) -> Way
    ensures { result ≡ way_of ask.now reply.now }
{
    if is_due(ask, reply) {
        Way::Late
    } else {
        Way::Go
    }
}

// Whether a job has to be late to be told this.
fn is_due(ask: &Ask, reply: &Reply) -> bool
    ensures { result ≡ is_due ask.now reply.now }
{
    match reply {
        Reply::Late => ask.timeout().is_some(),
        _ => false,
    }
}

// Whether the event at a place of the history is this, of whichever job.
fn is_event<O: Opening>(
    core: &Core<Blank, Heeds, O>,
    place: usize,
    ask: &Ask,
    reply: &Reply,
) -> bool
    ensures { IsTrue result ↔ IsThere core.now.history place ask.now reply.now }
{
    match core.event(place) {
        None => false,
        Some((_, asked, told)) => is_same_ask(asked, ask) && is_same_reply(told, reply),
    }
}
