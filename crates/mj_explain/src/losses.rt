// Updates that were lost outside transactions.

ghost use Rattle.std.specs.Prelude.{◌≡◌, ◌<◌, ◌≤◌, ℕ, true, false, All, length, slice_get, IfOk, IsTrue, Some, None, option_copied};
ghost use Rattle.mj_explain.specs.Events.{AreBegins, is_set_of, is_touch_of, touches};
ghost use Rattle.mj_explain.specs.Looks.{is_look_of};
ghost use Rattle.mj_explain.specs.Landings.{made_at};
ghost use Rattle.mj_explain.specs.Losses.{IsOutside, IsUntouched, IsUpdate, IsLoss, IsUnchanged, is_to, are_to};

use crate::events::{change_at, is_set_of, is_touch_of, touches};
use crate::landings::{Landing, made_at};
use crate::looks::is_look_of;
use mj_ask::{Ask, Noted, SharedAsk};
use mj_store::Access;
use mj_subs::Name;
use std::alloc::{AllocError, Global};

/// An update that was lost, by the places of four events. What the first job set, the second has set anew, and had looked at before.
#[derive(Clone, Copy, PartialEq, Eq, Debug)]
pub struct Loss {
    /// the first job looks at the name
    pub first_look: usize,
    /// the second job looks at it
    pub second_look: usize,
    /// the first job sets
    pub first_write: usize,
    /// the second job sets
    pub second_write: usize,
}

/// Whether an update was lost by these four events.
pub fn is_loss(
    alloc: Global,
    events: &[Noted],
    begins: &[Option<usize>],
    loss: Loss,
) -> Result<bool, AllocError>
    requires begins { AreBegins events.now begins.now }
    ensures { IfOk result (λ is. is ≡ true → IsLoss events.now loss) }
{
    let Some(over) = events.get(loss.second_write) else {
        return Ok(false);
    };
    let Ask::Shared(SharedAsk::Access(Access::Set(name, _))) = &over.ask else {
        return Ok(false);
    };
    let name = name.get();
    let Some(lost) = events.get(loss.first_write) else {
        return Ok(false);
    };
    let first = lost.job;
    let second = over.job;
    if first == second || !is_in_order(loss) {
        return Ok(false);
    }
    if !is_update(
        events,
        begins,
        first,
        name,
        loss.first_look,
        loss.first_write,
    ) {
        return Ok(false);
    }
    if !is_update(
        events,
        begins,
        second,
        name,
        loss.second_look,
        loss.second_write,
    ) {
        return Ok(false);
    }
    is_unchanged(
        alloc,
        events,
        begins,
        name,
        loss.first_write,
        loss.second_write,
    )
}

// Whether the second looks before the first sets, and sets last.
fn is_in_order(loss: Loss) -> bool
    ensures early { result ≡ true → loss.second_look < loss.first_write }
    ensures over { result ≡ true → loss.first_write < loss.second_write }
{
    loss.second_look < loss.first_write && loss.first_write < loss.second_write
}

// Whether a job looks at a name and then sets it, and neither looks at it nor changes it between.
fn is_update(
    events: &[Noted],
    begins: &[Option<usize>],
    job: u32,
    name: &Name,
    look: usize,
    write: usize,
) -> bool
    requires begins { AreBegins events.now begins.now }
    ensures { result ≡ true → IsUpdate events.now job name.now look write }
{
    look < write
        && looks_and_sets(events, begins, job, name, look, write)
        && is_untouched(events, job, name, look, write)
}

// Whether a job looks at a name at one place and sets it at another, both outside transactions.
fn looks_and_sets(
    events: &[Noted],
    begins: &[Option<usize>],
    job: u32,
    name: &Name,
    look: usize,
    write: usize,
) -> bool
    requires begins { AreBegins events.now begins.now }
    ensures looks { result ≡ true → IsOutside events.now job look (λ e. is_look_of job name.now e) }
    ensures sets { result ≡ true → IsOutside events.now job write (λ e. is_set_of job name.now e) }
{
    is_look_of(job, name, events.get(look))
        && is_outside(begins, look)
        && is_set_of(job, name, events.get(write))
        && is_outside(begins, write)
}

// Whether the job of an event has no transaction open before it.
fn is_outside(begins: &[Option<usize>], place: usize) -> bool
    ensures { result ≡ true → slice_get begins.now place ≡ Some None }
{
    match begins.get(place) {
        Some(None) => true,
        _ => false,
    }
}

// Whether a job neither looks at a name nor changes it between two places.
fn is_untouched(events: &[Noted], job: u32, name: &Name, after: usize, before: usize) -> bool
    ensures { result ≡ true → IsUntouched events.now job name.now after before }
{
    for place in after.saturating_add(1)..before {
        if is_touch_of(job, name, events.get(place)) {
            return false;
        }
    }
    true
}

// Whether no event between two places changes the text of a name.
fn is_unchanged(
    alloc: Global,
    events: &[Noted],
    begins: &[Option<usize>],
    name: &Name,
    after: usize,
    before: usize,
) -> Result<bool, AllocError>
    requires begins { AreBegins events.now begins.now }
    requires within { before ≤ length events.now }
    ensures { IfOk result (λ is. is ≡ true → IsUnchanged events.now name.now after before) }
{
    for place in after.saturating_add(1)..before {
        if changes(alloc, events, begins, name, place)? {
            return Ok(false);
        }
    }
    Ok(true)
}

// Whether an event changes the text of a name.
fn changes(
    alloc: Global,
    events: &[Noted],
    begins: &[Option<usize>],
    name: &Name,
    place: usize,
) -> Result<bool, AllocError>
    requires begins { AreBegins events.now begins.now }
    requires within { place < length events.now }
    ensures { IfOk result (λ is. is ≡ are_to events.now name.now (made_at events.now place)) }
{
    let made = made_at(alloc, events, begins, place)?;
    Ok(are_to(events, name, &made))
}

// Whether one of some changes is to the text of a name.
fn are_to(events: &[Noted], name: &Name, made: &[Landing]) -> bool
    ensures { result ≡ are_to events.now name.now made.now }
{
    made.iter()
        .any(|landing| is_to(name, change_at(events, landing.write)))
}

// Whether a change is.
fn is_to(name: &Name, access: Option<&Access>) -> bool
    ensures { result ≡ is_to name.now (option_copied access.entry) }
{
    match access {
        None => false,
        Some(access) => touches(name, access),
    }
}
