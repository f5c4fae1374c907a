// The event that gave a read another answer.

ghost use Rattle.std.specs.Prelude.{◌≡◌, ◌<◌, ◌≤◌, ◌++◌, ◌-◌, false, length, Some, IfOk, OnOk, slice_get, if◌then◌else◌};
ghost use Rattle.mj_store.specs.Runs.{answer_of, after_access};
ghost use Rattle.mj_txlog.specs.Accesses.{is_write, seen};
ghost use Rattle.mj_txlog.specs.Laid.{IsLaid};
ghost use Rattle.mj_explain.specs.Events.{AreBegins, change_at};
ghost use Rattle.mj_explain.specs.Landings.{made_at, after_change, after_landing, globals_behind, globals_after, globals_to};
ghost use Rattle.mj_explain.specs.Clashes.{own_at, own_in, told_on, told_at, IsLast, IsCause, later_of};

use crate::events::{change_at, is_change_of};
use crate::landings::{Landing, made_at};
use mj_ask::Noted;
use mj_globs::Globals;
use mj_store::{Access, Answer, is_same_answer, perform};
use mj_txlog::{Entry, Overlay, Skips, answer};
use std::alloc::{AllocError, Global};

/// What a read is answered behind the events before a place, with the changes of its own job made on the globals that were made before it; and the last event
/// from another place on that gave it another answer, with the last change that did.
pub fn cause(
    alloc: Global,
    globals: &Globals,
    events: &[Noted],
    begins: &[Option<usize>],
    own: &[Entry],
    read: &Access,
    from: usize,
    end: usize,
) -> Result<(Answer, Option<Landing>), AllocError>
    requires begins { AreBegins events.now begins.now }
    requires read { is_write read.now ≡ false }
    requires order { from ≤ end }
    requires within { end ≤ length events.now }
    ensures now { IfOk result (λ found. found.0 ≡ told_at events.now globals.now.content read.now own.now end) }
    ensures cause { IfOk result (λ found. IsCause events.now globals.now.content read.now own.now from end found.1) }
{
    let mut globals = globals.try_clone()?;
    match overlay(alloc, own) {
        Ok(over) => cause_over(
            alloc,
            &mut globals,
            events,
            begins,
            own,
            &over,
            read,
            from,
            end,
        ),
        Err(refused) => Err(refused),
    }
}

// What own changes leave over the globals.
fn overlay(alloc: Global, own: &[Entry]) -> Result<Overlay, AllocError>
    ensures { IfOk result (λ over. IsLaid over own.now) }
{
    let mut over = Overlay::new(alloc);
    for entry in own {
        over.add(entry)?;
    }
    Ok(over)
}

// Finds it where the own changes lie over the globals.
fn cause_over(
    alloc: Global,
    globals: &mut Globals,
    events: &[Noted],
    begins: &[Option<usize>],
    own: &[Entry],
    over: &Overlay,
    read: &Access,
    from: usize,
    end: usize,
) -> Result<(Answer, Option<Landing>), AllocError>
    requires begins { AreBegins events.now begins.now }
    requires read { is_write read.now ≡ false }
    requires laid { IsLaid over.now own.now }
    requires order { from ≤ end }
    requires within { end ≤ length events.now }
    ensures now { IfOk result (λ found. found.0 ≡ told_at events.now globals.old.content read.now own.now end) }
    ensures cause { IfOk result (λ found. IsCause events.now globals.old.content read.now own.now from end found.1) }
{
    go_to(alloc, globals, events, begins, from)?;
    let mut found = None;
    let mut told = told_on(alloc, globals, own, over, read)?;
    for place in from..end {
        let made = made_at(alloc, events, begins, place)?;
        if made.is_empty() {
            continue;
        }
        let (now, last) = turn(alloc, globals, events, &made, own, over, read)?;
        let same = is_same_answer(&now, &told);
        found = later(place, same, last, found);
        told = now;
    }
    Ok((told, found))
}

// Makes the changes of the events before a place.
fn go_to(
    alloc: Global,
    globals: &mut Globals,
    events: &[Noted],
    begins: &[Option<usize>],
    end: usize,
) -> Result<(), AllocError>
    requires begins { AreBegins events.now begins.now }
    requires within { end ≤ length events.now }
    ensures { OnOk result (globals.new.content ≡ globals_to events.now globals.old.content end) }
{
    for place in 0..end {
        land_made(alloc, globals, events, begins, place)?;
    }
    Ok(())
}

// Makes the changes of the event at a place.
fn land_made(
    alloc: Global,
    globals: &mut Globals,
    events: &[Noted],
    begins: &[Option<usize>],
    place: usize,
) -> Result<(), AllocError>
    requires begins { AreBegins events.now begins.now }
    requires within { place < length events.now }
    ensures { OnOk result (globals.new.content ≡ globals_after events.now (made_at events.now place) globals.old.content) }
{
    let made = made_at(alloc, events, begins, place)?;
    land_all(globals, events, &made)
}

// Makes changes one behind the other.
fn land_all(globals: &mut Globals, events: &[Noted], made: &[Landing]) -> Result<(), AllocError>
    ensures { OnOk result (globals.new.content ≡ globals_after events.now made.now globals.old.content) }
{
    for landing in made {
        land(globals, events, landing.write)?;
    }
    Ok(())
}

// Makes changes one behind the other, and says what a read is answered behind them, and which was the last to give it another answer.
fn turn(
    alloc: Global,
    globals: &mut Globals,
    events: &[Noted],
    made: &[Landing],
    own: &[Entry],
    over: &Overlay,
    read: &Access,
) -> Result<(Answer, Option<Landing>), AllocError>
    requires read { is_write read.now ≡ false }
    requires laid { IsLaid over.now own.now }
    ensures globals { OnOk result (globals.new.content ≡ globals_after events.now made.now globals.old.content) }
    ensures now { IfOk result (λ found. found.0 ≡ told_on read.now own.now (globals_after events.now made.now globals.old.content)) }
    ensures last { IfOk result (λ found. IsLast events.now made.now globals.old.content read.now own.now (length made.now) found.1) }
{
    let mut found = None;
    let mut told = told_on(alloc, globals, own, over, read)?;
    for landing in made {
        land(globals, events, landing.write)?;
        let now = told_on(alloc, globals, own, over, read)?;
        let same = is_same_answer(&now, &told);
        found = newer(*landing, same, found);
        told = now;
    }
    Ok((told, found))
}

// A change behind which a read isn't answered the same; or the one before it that was found.
fn newer(landing: Landing, same: bool, found: Option<Landing>) -> Option<Landing>
    ensures { result ≡ (if same then found else Some landing) }
{
    if same { found } else { Some(landing) }
}

// The event at a place, of which this is the last change to give a read another answer, where it isn't answered the same behind it; or the one before it that
// was found.
fn later(place: usize, same: bool, last: Option<Landing>, found: Option<Landing>) -> Option<Landing>
    ensures { result ≡ later_of place same last found }
{
    if same {
        return found;
    }
    match last {
        None => found,
        Some(change) => Some(Landing {
            write: change.write,
            made: place,
        }),
    }
}

// Makes the change at a place.
fn land(globals: &mut Globals, events: &[Noted], write: usize) -> Result<(), AllocError>
    ensures { OnOk result (globals.new.content ≡ after_change (change_at events.now write) globals.old.content) }
{
    if let Some(access) = change_at(events, write) {
        drop(perform(globals, access)?);
    }
    Ok(())
}

// What a read is answered on these globals, with own changes over them.
fn told_on(
    alloc: Global,
    globals: &Globals,
    own: &[Entry],
    over: &Overlay,
    read: &Access,
) -> Result<Answer, AllocError>
    requires read { is_write read.now ≡ false }
    requires laid { IsLaid over.now own.now }
    ensures { IfOk result (λ a. a ≡ told_on read.now own.now globals.now.content) }
{
    let mut skips = Skips::new(alloc);
    let told = answer(alloc, globals.texts(), own, over, &mut skips, read);
    drop(skips);
    told
}

/// A job's own changes among the events from a place on up to another.
pub fn own_in(
    alloc: Global,
    events: &[Noted],
    job: u32,
    from: usize,
    end: usize,
) -> Result<Vec<Entry>, AllocError>
    ensures { IfOk result (λ own. own.items ≡ own_in events.now job from (end - from)) }
{
    let mut own = Vec::new(alloc);
    for place in from..end {
        add_own(&mut own, events, job, place)?;
    }
    Ok(own)
}

// Adds a job's own change at a place, if it made one.
fn add_own(own: &mut Vec<Entry>, events: &[Noted], job: u32, place: usize) -> Result<(), AllocError>
    ensures { OnOk result (own.new.items ≡ own.old.items ++ own_at job (slice_get events.now place) (change_at events.now place)) }
{
    let Some(access) = change_at(events, place) else {
        return Ok(());
    };
    if is_change_of(job, events.get(place)) {
        own.push(Entry::Access(access.try_clone()?, Answer::Done))?;
    }
    Ok(())
}
