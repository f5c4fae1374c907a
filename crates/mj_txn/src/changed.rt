// The first read of a transaction that has another answer now.

ghost use Rattle.std.specs.Prelude.{◌≡◌, ◌<◌, ◌≤◌, [], false, length, None, IfOk, MatchOption};
ghost use Rattle.mj_txlog.specs.Accesses.{is_write};
ghost use Rattle.mj_txlog.specs.Follows.{FollowsAt, AreFollowing, Follows, stale_of};
ghost use Rattle.mj_txlog.specs.Laid.{IsLaid};
ghost use Rattle.mj_txlog.specs.Skips.{AreSkips};
ghost use Rattle.mj_txn.specs.Commits.{HasAnswer, HoldsNow, Hold, IsOther, DiffersNow, Differs};

use mj_globs::{Globals, Texts};
use mj_store::{Access, Answer, is_same_answer};
use mj_txlog::{ACCESSES_LIMIT, Entry, Overlay, Skips, TxLog, answer, is_stale, is_write};
use std::alloc::{AllocError, Global};

/// A read that has another answer now.
#[derive(Drop)]
pub struct Changed {
    /// the place of the read among the accesses, from 1 on
    pub place: u32,
    /// the answer that it had
    pub then: Answer,
    /// the answer that it has now
    pub now: Answer,
}

/// The first read of a transaction that has another answer now, if there is one. A read whose word's stamp stands still has its answer. Any other is asked
/// on the globals as they are, with the own writes before it made on them. Where all stamps stand still none is asked, and no own write is looked at.
pub fn first_changed(log: &TxLog, globals: &Globals) -> Result<Option<Changed>, AllocError>
    requires { Follows log.now globals.now }
    ensures first { IfOk result (λ r. MatchOption r (Hold globals.now.content [] log.now.transaction.accesses)
        (λ c. Differs globals.now.content log.now.transaction.accesses c.place c.then c.now)) }
    ensures fresh { stale_of log.now globals.now.stamps ≡ 0 → IfOk result (λ r. r ≡ None) }
{
    let stamps = log.stamps();
    if log.stale(globals) == 0 {
        return Ok(None);
    }
    let alloc = log.allocator();
    let mut own = Overlay::new(alloc);
    let mut skips = Skips::new(alloc);
    let found = first_over(alloc, globals, log.entries(), stamps, &mut own, &mut skips);
    drop(skips);
    drop(own);
    found
}

// Finds it where no own writes lie over the globals yet. What a read passes over, the later ones don't look at again.
fn first_over(
    alloc: Global,
    globals: &Globals,
    entries: &[Entry],
    stamps: &[u64],
    own: &mut Overlay,
    skips: &mut Skips,
) -> Result<Option<Changed>, AllocError>
    requires limit { length entries.now ≤ ACCESSES_LIMIT }
    requires each { length stamps.now ≡ length entries.now }
    requires follow { AreFollowing globals.now entries.now stamps.now }
    requires none { IsLaid own.old [] }
    requires skips { AreSkips globals.now.content own.old.gone skips.old }
    ensures { IfOk result (λ r. MatchOption r (Hold globals.now.content [] entries.now) (λ c. Differs globals.now.content entries.now c.place c.then c.now)) }
{
    for (i, entry) in entries.iter().enumerate() {
        match changed_now(alloc, globals, &entries[..i], own, skips, entry, stamps[i]) {
            Ok(None) => own.add(entry)?,
            Ok(Some(changed)) => return Ok(Some(changed)),
            Err(refused) => return Err(refused),
        }
    }
    Ok(None)
}

// Whether an access after these is a read that has another answer now, where it kept this stamp.
fn changed_now(
    alloc: Global,
    globals: &Globals,
    earlier: &[Entry],
    own: &Overlay,
    skips: &mut Skips,
    entry: &Entry,
    stamp: u64,
) -> Result<Option<Changed>, AllocError>
    requires follows { FollowsAt globals.now earlier.now entry.now stamp }
    requires room { length earlier.now < ACCESSES_LIMIT }
    requires own { IsLaid own.now earlier.now }
    requires skips { AreSkips globals.now.content own.now.gone skips.old }
    ensures skips { AreSkips globals.now.content own.now.gone skips.new }
    ensures changed { IfOk result (λ r.
        MatchOption r (HoldsNow globals.now.content earlier.now entry.now) (λ c. DiffersNow globals.now.content earlier.now entry.now c.place c.then c.now)) }
{
    match entry {
        Entry::Access(access, then) => {
            if is_write(access) {
                return Ok(None);
            }
            if !is_stale(globals, entry, stamp) {
                return Ok(None);
            }
            changed_read(alloc, globals.texts(), earlier, own, skips, access, then)
        }
        Entry::Unlock(_) => Ok(None),
    }
}

// The read, where it has another answer now.
fn changed_read(
    alloc: Global,
    texts: &Texts,
    earlier: &[Entry],
    own: &Overlay,
    skips: &mut Skips,
    read: &Access,
    then: &Answer,
) -> Result<Option<Changed>, AllocError>
    requires room { length earlier.now < ACCESSES_LIMIT }
    requires own { IsLaid own.now earlier.now }
    requires skips { AreSkips texts.now own.now.gone skips.old }
    requires read { is_write read.now ≡ false }
    ensures skips { AreSkips texts.now own.now.gone skips.new }
    ensures changed { IfOk result (λ r.
        MatchOption r (HasAnswer texts.now earlier.now read.now then.now)
        (λ c. IsOther texts.now earlier.now read.now then.now c.place c.then c.now)) }
{
    let now = answer(alloc, texts, earlier, own, skips, read)?;
    if is_same_answer(&now, then) {
        return Ok(None);
    }
    Ok(Some(Changed {
        place: earlier.len() as u32 + 1,
        then: then.try_clone()?,
        now,
    }))
}
