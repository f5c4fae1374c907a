// Reads whose words may have changed.

ghost use Rattle.std.specs.Prelude.{◌≡◌, ◌≤◌, length};
ghost use Rattle.mj_txlog.specs.Follows.{is_stale, stale_among};
ghost use Rattle.mj_globs.specs.Stamps.{is_still};

use crate::entry::{Entry, is_write};
use crate::log::ACCESSES_LIMIT;
use mj_globs::Globals;

// How many of these accesses are reads of words whose stamps have changed since, or count as changed.
pub(crate) fn stale_among(globals: &Globals, entries: &[Entry], stamps: &[u64]) -> u32
    requires limit { length entries.now ≤ ACCESSES_LIMIT }
    requires each { length stamps.now ≡ length entries.now }
    ensures { result ≡ stale_among globals.now.stamps entries.now stamps.now }
{
    let mut stale = 0;
    for (i, entry) in entries.iter().enumerate() {
        if is_stale(globals, entry, stamps[i]) {
            stale += 1;
        }
    }
    stale
}

/// Whether an access is a read that kept this stamp, whose word has another one by now, or counts as changed.
pub fn is_stale(globals: &Globals, entry: &Entry, stamp: u64) -> bool
    ensures { result ≡ is_stale globals.now.stamps entry.now stamp }
{
    match entry {
        Entry::Access(access, _) => {
            !is_write(access) && !is_still(stamp, globals.stamp(access.name()))
        }
        Entry::Unlock(_) => false,
    }
}

/// Whether nothing has changed from the one stamp to the other. The greatest counts as changed.
pub fn is_still(old: u64, new: u64) -> bool
    ensures { result ≡ is_still old new }
{
    old == new && new < u64::MAX
}
