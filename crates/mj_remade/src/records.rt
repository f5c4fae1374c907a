// Records, compared with events that were noted.

ghost use Rattle.std.specs.Prelude.{◌≡◌, ◌↔◌, ◌⊎◌, ◌+◌, true, false, take, slice_get, Some, IfOk, OnOk, IsTrue, option_copied};
ghost use Rattle.mj_frames.specs.Frames.{place_at};
ghost use Rattle.mj_load.specs.Image.{program_of};
ghost use Rattle.mj_replica.specs.Replays.{event_of, history_of};
ghost use Rattle.mj_replica.specs.Placed.{spot_place};
ghost use Rattle.mj_remade.specs.Records.{Compares, IsAskedAt, IsElsewhere, IsFrom};

use mj_ask::{Ask, Noted, Reply, Spot, is_same_ask, is_same_reply};
use mj_core::Core;
use mj_dev::Device;
use mj_sessions::Sessions;
use mj_sys::Opening;
use mj_text::Text;
use mj_trace::Form;
use std::alloc::{AllocError, Global};

/// Copies the events before a place of a record. Where they came from isn't noted.
pub fn noted<D: Device, O: Opening>(
    alloc: Global,
    core: &Core<D, Sessions<D>, O>,
    place: usize,
) -> Result<Vec<Noted>, AllocError>
    ensures { IfOk result (λ events. history_of events.items ≡ take place core.now.history) }
{
    let mut events = Vec::new(alloc);
    for at in 0..place {
        add_noted(core, at, &mut events)?;
    }
    Ok(events)
}

// Adds the event at a place, if there is one.
#[tactic(auto, using(crate::proofs::Comparing::one_noted, crate::proofs::Comparing::none_noted))]
fn add_noted<D: Device, O: Opening>(
    core: &Core<D, Sessions<D>, O>,
    at: usize,
    events: &mut Vec<Noted>,
) -> Result<(), AllocError>
    requires { history_of events.old.items ≡ take at core.now.history }
    ensures { OnOk result (history_of events.new.items ≡ take (at + 1) core.now.history) }
{
    let Some((job, ask, reply)) = core.event(at) else {
        return Ok(());
    };
    let event = noted_of(job, ask, reply)?;
    events.push(event)?;
    Ok(())
}

// An event, noted.
fn noted_of(job: u32, ask: &Ask, reply: &Reply) -> Result<Noted, AllocError>
    ensures { IfOk result (λ event. event_of event ≡ record { job = job; ask = ask.now; reply = reply.now }) }
{
    let ask = ask.try_clone()?;
    let reply = reply.try_clone()?;
    Ok(Noted {
        job,
        spot: None,
        ask,
        reply,
    })
}

/// Where a record isn't what was noted, from 0: none, where it is.
pub fn first_apart<D: Device, O: Opening>(
    core: &Core<D, Sessions<D>, O>,
    form: Form,
    events: &[Noted],
) -> Option<usize>
    ensures { Compares form (program_of core.now.image) O.opening events.now core.now.history result }
{
    for at in 0..events.len() {
        if !is_as_noted(core, form, at, &events[at]) {
            return Some(at);
        }
    }
    let count = core.len();
    let same = count == events.len();
    if same {
        return None;
    }
    Some(events.len())
}

/// Whether the event at a place of a record is what was noted.
pub fn is_as_noted<D: Device, O: Opening>(
    core: &Core<D, Sessions<D>, O>,
    form: Form,
    at: usize,
    event: &Noted,
) -> bool
    ensures event { result ≡ true → slice_get core.now.history at ≡ Some (event_of event.now) }
    ensures from { result ≡ true → IsFrom form (program_of core.now.image) O.opening core.now.history at event.now }
    ensures apart { result ≡ false → (slice_get core.now.history at ≡ Some (event_of event.now) → ⊥)
        ⊎ IsElsewhere form (program_of core.now.image) O.opening core.now.history at event.now }
{
    is_event(core, at, event) && is_from(core, form, at, event)
}

// Whether a record has this event at a place.
fn is_event<D: Device, O: Opening>(core: &Core<D, Sessions<D>, O>, at: usize, event: &Noted) -> bool
    ensures { IsTrue result ↔ (slice_get core.now.history at ≡ Some (event_of event.now)) }
{
    match core.event(at) {
        None => false,
        Some((job, ask, reply)) => {
            job == event.job && is_same_ask(ask, &event.ask) && is_same_reply(reply, &event.reply)
        }
    }
}

// Whether the ask of the event at a place of a record came from where that was noted to.
fn is_from<D: Device, O: Opening>(
    core: &Core<D, Sessions<D>, O>,
    form: Form,
    at: usize,
    event: &Noted,
) -> bool
    ensures from { result ≡ true → IsFrom form (program_of core.now.image) O.opening core.now.history at event.now }
    ensures elsewhere { result ≡ false → IsElsewhere form (program_of core.now.image) O.opening core.now.history at event.now }
{
    match form {
        Form::First => true,
        Form::Second(_) => is_spot(place_of(core, at), event.spot.as_ref()),
    }
}

// Where the ask of the event at a place of a record came from, if there is one.
fn place_of<D: Device, O: Opening>(
    core: &Core<D, Sessions<D>, O>,
    at: usize,
) -> Option<(&Text, u32)>
    ensures { IsAskedAt (program_of core.now.image) O.opening core.now.history at (place_at result) }
{
    core.place_of(at)
}

// Whether a place is the one that was noted.
fn is_spot(place: Option<(&Text, u32)>, spot: Option<&Spot>) -> bool
    ensures { IsTrue result ↔ (place_at place.entry ≡ spot_place (option_copied spot.entry)) }
{
    match (place, spot) {
        (None, None) => true,
        (Some((routine, line)), Some(spot)) => *routine == spot.routine && line == spot.line,
        _ => false,
    }
}
