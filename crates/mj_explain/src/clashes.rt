// Commits that clashed, and why.

ghost use Rattle.std.specs.Prelude.{◌≡◌, ◌≢◌, ◌<◌, ◌≤◌, ◌+◌, ◌-◌, ◌++◌, ◌∷◌, [], suc, true, false, All, map, Some, length, slice_get, IfOk, IfSome, OnOk};
ghost use Rattle.std.specs.Prelude.{option_copied, take, min};
ghost use Rattle.mj_ask.specs.Keeping.{kept_of};
ghost use Rattle.mj_ask.specs.declared.ask.Ask.TheVariants as asks;
ghost use Rattle.mj_ask.specs.declared.ask.SharedAsk.TheVariants as shared_asks;
ghost use Rattle.mj_ask.specs.declared.ask.Reply.TheVariants as replies;
ghost use Rattle.mj_explain.specs.Events.{AreBegins, began_by, is_counted_of};
ghost use Rattle.mj_txlog.specs.Accesses.{is_write};
ghost use Rattle.mj_explain.specs.Clashes.{IsAccessOf, IsClash, IsClashOf, IsWhyOf, AreClashes, clash_places, told_at, own_in, own_before, IsCause};

use crate::causes::{cause, own_in};
use crate::events::{clash_of, is_counted_of};
use crate::landings::Landing;
use mj_ask::{Ask, BoxedClash, Clash, Kept, Noted, Reply, SharedAsk, is_same_reply};
use mj_globs::Globals;
use mj_store::{Access, Answer, is_same_answer};
use mj_txlog::is_write;
use std::alloc::{AllocError, Global};

/// Why a commit clashed.
#[derive(Drop)]
pub struct Why {
    /// the place where its transaction began
    pub begin: usize,
    /// the place of the read that has another answer at the commit
    pub read: usize,
    /// what it is answered there
    pub answer: Answer,
    /// the change that gave it another answer
    pub cause: Option<Landing>,
}

/// A commit that clashed.
#[derive(Drop)]
pub struct ToldClash {
    /// the place of the event
    pub commit: usize,
    /// why it did
    pub why: Option<Why>,
}

/// The first clashes of a trace over these globals, at most so many, and how many there are.
pub fn clashes(
    alloc: Global,
    globals: &Globals,
    events: &[Noted],
    begins: &[Option<usize>],
    most: usize,
) -> Result<(Vec<ToldClash>, usize), AllocError>
    requires begins { AreBegins events.now begins.now }
    ensures are { IfOk result (λ found. AreClashes globals.now.content events.now most found.0.items) }
    ensures count { IfOk result (λ found. found.1 ≡ length (clash_places events.now (length events.now))) }
{
    let mut clashes = Vec::new(alloc);
    let mut count = 0;
    for (place, event) in events.iter().enumerate() {
        let Some(clash) = clash_of(&event.ask, &event.reply) else {
            continue;
        };
        count += 1;
        if count <= most {
            add_clash(
                alloc,
                &mut clashes,
                globals,
                events,
                begins,
                place,
                event,
                clash,
            )?;
        }
    }
    Ok((clashes, count))
}

// Adds the clash of the event at a place.
fn add_clash(
    alloc: Global,
    clashes: &mut Vec<ToldClash>,
    globals: &Globals,
    events: &[Noted],
    begins: &[Option<usize>],
    place: usize,
    event: &Noted,
    clash: &Clash,
) -> Result<(), AllocError>
    requires begins { AreBegins events.now begins.now }
    requires there { slice_get events.now place ≡ Some event.now }
    requires is { IsClashOf event.now.ask event.now.reply (Some clash.now) }
    ensures each { All (IsClash globals.now.content events.now) clashes.old.items
        → OnOk result (All (IsClash globals.now.content events.now) clashes.new.items) }
    ensures more { OnOk result (map (λ c. c.commit) clashes.new.items ≡ map (λ c. c.commit) clashes.old.items ++ place ∷ []) }
{
    let why = why_of(alloc, globals, events, begins, place, event, clash)?;
    clashes.push(ToldClash { commit: place, why })?;
    Ok(())
}

// Why the commit at a place clashed.
fn why_of(
    alloc: Global,
    globals: &Globals,
    events: &[Noted],
    begins: &[Option<usize>],
    place: usize,
    event: &Noted,
    clash: &Clash,
) -> Result<Option<Why>, AllocError>
    requires begins { AreBegins events.now begins.now }
    requires there { slice_get events.now place ≡ Some event.now }
    ensures { IfOk result (λ found. IsWhyOf globals.now.content events.now event.now.job clash.entry.now place found) }
{
    let Some(Some(begin)) = begins.get(place) else {
        return Ok(None);
    };
    let Some(read) = access_of(events, event.job, *begin, clash.place, place) else {
        return Ok(None);
    };
    let Some(other) = events.get(read) else {
        return Ok(None);
    };
    let (Ask::Shared(SharedAsk::Access(access)), Reply::Answer(had)) = (&other.ask, &other.reply)
    else {
        return Ok(None);
    };
    if other.job != event.job || is_write(access) {
        return Ok(None);
    }
    let (answer, cause) = reason(
        alloc, globals, events, begins, event.job, *begin, read, access, place,
    )?;
    if !is_told(alloc, clash, had, &answer)? {
        return Ok(None);
    }
    Ok(Some(Why {
        begin: *begin,
        read,
        answer,
        cause,
    }))
}

// Whether these answers to a read are those of which a clash tells, and aren't the same.
fn is_told(alloc: Global, clash: &Clash, had: &Answer, answer: &Answer) -> Result<bool, AllocError>
    ensures other { IfOk result (λ is. is ≡ true → answer.now ≢ had.now) }
    ensures says { IfOk result (λ is. is ≡ true
        → clash.entry.now ≡ record { place = clash.entry.now.place; then = kept_of had.now; now = kept_of answer.now }) }
{
    if is_same_answer(answer, had) {
        return Ok(false);
    }
    let then = Kept::of(had.try_clone()?);
    let now = Kept::of(answer.try_clone()?);
    let told = boxed(
        alloc,
        Clash {
            place: clash.place,
            then,
            now,
        },
    )?;
    let was = boxed(alloc, clash.try_clone()?)?;
    Ok(is_same_reply(&was, &told))
}

// The reply that a commit clashes so.
fn boxed(alloc: Global, clash: Clash) -> Result<Reply, AllocError>
    ensures { IfOk result (λ reply. reply ≡ replies.Clash clash) }
{
    Ok(Reply::Clash(BoxedClash::new(alloc, clash)?))
}

// The place of the access of this number of a job's transaction, before another place.
#[tactic(auto, using(crate::proofs::Counting::counted_none))]
fn access_of(events: &[Noted], job: u32, begin: usize, number: u32, end: usize) -> Option<usize>
    ensures is { IfSome result (λ place. IsAccessOf events.now job begin number place) }
    ensures before { IfSome result (λ place. place < end) }
{
    if end <= begin {
        return None;
    }
    let mut count: u32 = 0;
    for place in begin + 1..end {
        if !is_counted_of(job, events.get(place)) {
            continue;
        }
        count = count.checked_add(1)?;
        if count == number {
            return Some(place);
        }
    }
    None
}

// What a read is answered at a commit, and what changed its answer.
fn reason(
    alloc: Global,
    globals: &Globals,
    events: &[Noted],
    begins: &[Option<usize>],
    job: u32,
    begin: usize,
    read: usize,
    access: &Access,
    commit: usize,
) -> Result<(Answer, Option<Landing>), AllocError>
    requires begins { AreBegins events.now begins.now }
    requires order { read < commit }
    requires within { commit ≤ length events.now }
    requires read { is_write access.now ≡ false }
    requires behind { begin < read }
    ensures now { IfOk result (λ found. found.0 ≡ told_at events.now globals.now.content access.now (own_before events.now job begin read) commit) }
    ensures cause { IfOk result (λ found.
        IsCause events.now globals.now.content access.now (own_before events.now job begin read) (suc read) commit found.1) }
{
    match own_in(alloc, events, job, begin + 1, read) {
        Ok(own) => cause(
            alloc,
            globals,
            events,
            begins,
            &own,
            access,
            read + 1,
            commit,
        ),
        Err(refused) => Err(refused),
    }
}
