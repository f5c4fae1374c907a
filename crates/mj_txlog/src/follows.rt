// Whether what the stamps of a transaction say of its reads is so.

ghost use Rattle.std.specs.Prelude.{◌≡◌, ◌≤◌, ◌↔◌, [], length, false, IsTrue, IfOk};
ghost use Rattle.mj_store.specs.Runs.{answer_of};
ghost use Rattle.mj_txlog.specs.Accesses.{is_write, seen};
ghost use Rattle.mj_txlog.specs.Follows.{AreFollowing, FollowsAt};
ghost use Rattle.mj_txlog.specs.Laid.{IsLaid};
ghost use Rattle.mj_txlog.specs.Skips.{AreSkips};

use crate::entry::{Entry, is_write};
use crate::log::ACCESSES_LIMIT;
use crate::overlay::Overlay;
use crate::sight::answer;
use crate::skips::Skips;
use crate::stale::is_still;
use mj_globs::{Globals, Texts};
use mj_store::{Access, Answer, is_same_answer};
use std::alloc::{AllocError, Global};

// Whether each of these reads kept no stamp above that of its word, and has its answer still where the stamp is the same.
pub(crate) fn are_following(
    alloc: Global,
    globals: &Globals,
    entries: &[Entry],
    stamps: &[u64],
) -> Result<bool, AllocError>
    requires limit { length entries.now ≤ ACCESSES_LIMIT }
    requires each { length stamps.now ≡ length entries.now }
    ensures { IfOk result (λ follow. IsTrue follow ↔ AreFollowing globals.now entries.now stamps.now) }
{
    let mut own = Overlay::new(alloc);
    let mut skips = Skips::new(alloc);
    let follow = follow_over(alloc, globals, entries, stamps, &mut own, &mut skips);
    drop(skips); // for the proof
    drop(own); // for the proof
    follow
}

// The same where no own writes lie over the globals yet.
fn follow_over(
    alloc: Global,
    globals: &Globals,
    entries: &[Entry],
    stamps: &[u64],
    own: &mut Overlay,
    skips: &mut Skips,
) -> Result<bool, AllocError>
    requires limit { length entries.now ≤ ACCESSES_LIMIT }
    requires each { length stamps.now ≡ length entries.now }
    requires none { IsLaid own.old [] }
    requires skips { AreSkips globals.now.content own.old.gone skips.old }
    ensures { IfOk result (λ follow. IsTrue follow ↔ AreFollowing globals.now entries.now stamps.now) }
{
    for (i, entry) in entries.iter().enumerate() {
        match follows_now(alloc, globals, &entries[..i], own, skips, entry, stamps[i]) {
            Ok(true) => own.add(entry)?,
            Ok(false) => return Ok(false),
            Err(refused) => return Err(refused),
        }
    }
    Ok(true)
}

// Whether an access after these is so.
fn follows_now(
    alloc: Global,
    globals: &Globals,
    earlier: &[Entry],
    own: &Overlay,
    skips: &mut Skips,
    entry: &Entry,
    stamp: u64,
) -> Result<bool, AllocError>
    requires own { IsLaid own.now earlier.now }
    requires skips { AreSkips globals.now.content own.now.gone skips.old }
    ensures skips { AreSkips globals.now.content own.now.gone skips.new }
    ensures follows { IfOk result (λ follows. IsTrue follows ↔ FollowsAt globals.now earlier.now entry.now stamp) }
{
    match entry {
        Entry::Access(access, then) => {
            if is_write(access) {
                return Ok(true);
            }
            let now = globals.stamp(access.name());
            if now < stamp {
                return Ok(false);
            }
            if !is_still(stamp, now) {
                return Ok(true);
            }
            has_answer(alloc, globals.texts(), earlier, own, skips, access, then)
        }
        Entry::Unlock(_) => Ok(true),
    }
}

// Whether a read after these accesses has this answer.
fn has_answer(
    alloc: Global,
    texts: &Texts,
    earlier: &[Entry],
    own: &Overlay,
    skips: &mut Skips,
    read: &Access,
    then: &Answer,
) -> Result<bool, AllocError>
    requires own { IsLaid own.now earlier.now }
    requires skips { AreSkips texts.now own.now.gone skips.old }
    requires read { is_write read.now ≡ false }
    ensures skips { AreSkips texts.now own.now.gone skips.new }
    ensures has { IfOk result (λ has. IsTrue has ↔ (answer_of read.now (seen texts.now earlier.now) ≡ then.now)) }
{
    let now = answer(alloc, texts, earlier, own, skips, read)?;
    let is_same = is_same_answer(&now, then);
    drop(now); // for the proof
    Ok(is_same)
}
