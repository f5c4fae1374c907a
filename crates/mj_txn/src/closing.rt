// How an open transaction serves its job's asks, and how it is closed.

ghost use Rattle.std.specs.Prelude.{◌≡◌, ◌∷◌, [], IfOk, OnOk, OnErr};
ghost use Rattle.mj_locktab.specs.Tries.{outcome_of as try_of, after_try, TryGives};
ghost use Rattle.mj_txn.specs.Closing.{is_local_write, told_in, after_told, gained_by_try, unlocked, unlocked_by, rolled_back, committed, clash_of};
ghost use Rattle.mj_ask.specs.declared.ask.Reply.TheVariants as replies;
ghost use Rattle.mj_txlog.specs.Accesses.{unlock_reply, with_unlock};
ghost use Rattle.mj_txlog.specs.Follows.{Follows};
ghost use Rattle.mj_txlog.specs.Skips.{AreSkips, gone_by};
ghost use Rattle.mj_globs.specs.Changes.{are_to};
ghost use Rattle.mj_globs.specs.Stamps.{Stamped, Rises, KeepsStamps};
ghost use Rattle.mj_txn.specs.Commits.{changes_of};
ghost use Rattle.mj_txlog.specs.declared.entry.Unlock.TheVariants as unlocks;

use crate::changed::Changed;
use crate::committing::{Outcome, commit};
use mj_ask::{BoxedClash, Clash, Kept, Reply};
use mj_globs::Globals;
use mj_locktab::{LockTable, Taken};
use mj_store::{Access, Answer};
use mj_subs::Name;
use mj_txlog::{Entry, NameList, Skips, TxLog, Unlock, is_refused, is_write};
use std::alloc::{AllocError, Global};

/// Makes an access of the job in its transaction. A change of a local name is done without a change, and is no access of the transaction. The
/// answer is there twice, once for the job and once for who writes it down. What its reads pass over is kept in `skips`, which is so for as long as the globals
/// don't change.
pub fn access(
    log: &mut TxLog,
    globals: &Globals,
    skips: &mut Skips,
    access: &Access,
) -> Result<(Answer, Answer), AllocError>
    requires { AreSkips globals.now.content (gone_by log.old.transaction.accesses) skips.old }
    ensures answer { IfOk result (λ told. told.0 ≡ told_in log.old.transaction globals.now.content access.now) }
    ensures again { IfOk result (λ told. told.1 ≡ told_in log.old.transaction globals.now.content access.now) }
    ensures log { OnOk result (log.new.transaction ≡ after_told log.old.transaction globals.now.content access.now) }
    ensures unchanged { OnErr result (log.new.transaction ≡ log.old.transaction) }
    ensures follows { Follows log.old globals.now → Follows log.new globals.now }
    ensures skips { AreSkips globals.now.content (gone_by log.new.transaction.accesses) skips.new }
{
    if is_local_write(access) {
        return Ok(if is_refused(access) {
            (Answer::Limit, Answer::Limit)
        } else {
            (Answer::Done, Answer::Done)
        });
    }
    log.see(globals, skips, access.try_clone()?)
}

// Whether it is a change of a local name.
fn is_local_write(access: &Access) -> bool
    ensures { result ≡ is_local_write access.now }
{
    is_write(access) && !access.name().is_global()
}

/// Takes each name once more for each of its places in the list, or none of them, as a try elsewhere; what it takes is gained by the
/// transaction.
pub fn try_take(
    log: &mut TxLog,
    locks: &mut LockTable,
    job: u32,
    names: &[Name],
) -> Result<Taken, AllocError>
    ensures taken { IfOk result (λ taken. taken ≡ try_of locks.old.holds job names.now) }
    ensures locks { OnOk result (locks.new.holds ≡ after_try locks.old.holds job names.now) }
    ensures meaning { IfOk result (λ taken. TryGives locks.old.holds job names.now taken locks.new.holds) }
    ensures log { IfOk result (λ taken. log.new.transaction ≡ gained_by_try log.old.transaction names.now taken) }
    ensures follows { (globals : Stamped) → Follows log.old globals → Follows log.new globals }
    ensures unchanged { OnErr result ((locks.new.holds ≡ locks.old.holds) × (log.new.transaction ≡ log.old.transaction)) }
{
    locks.keeps();
    match locks.try_take(job, names)? {
        Taken::Got => match log.gain(names) {
            Ok(()) => Ok(Taken::Got),
            Err(refused) => {
                locks.give(job, names);
                Err(refused)
            }
        },
        Taken::Busy { holder, name } => Ok(Taken::Busy { holder, name }),
        Taken::Limit => Ok(Taken::Limit),
    }
}

/// An unlock of the names, which waits for the commit. Past the limit of accesses it is answered that it passes one, and doesn't.
pub fn unlock(log: &mut TxLog, names: &[Name]) -> Result<Answer, AllocError>
    ensures answer { IfOk result (λ a. a ≡ unlock_reply log.old.transaction) }
    ensures waits { OnOk result (log.new.transaction ≡ with_unlock log.old.transaction (unlocks.Names names.now)) }
    ensures follows { (globals : Stamped) → Follows log.old globals → Follows log.new globals }
    ensures unchanged { OnErr result (log.new.transaction ≡ log.old.transaction) }
{
    let list = NameList::of(log.allocator(), names)?;
    log.unlock(Unlock::Names(list))
}

/// Rolls the transaction back: the counts that it gained go back, and the unlocks that waited are forgotten.
pub fn roll_back(log: &TxLog, locks: &mut LockTable, job: u32)
    ensures { locks.new.holds ≡ rolled_back log.now.transaction job locks.old.holds }
{
    locks.give(job, log.gained());
}

/// Commits the transaction, or rolls it back where it clashes. The reply is there twice, once for the job and once for who writes it down. Where
/// memory is refused nothing has changed.
pub fn close(
    log: &TxLog,
    globals: &mut Globals,
    locks: &mut LockTable,
    job: u32,
) -> Result<(Reply, Reply), AllocError>
    requires { Follows log.now globals.old }
    ensures reply { IfOk result (λ told. told.0 ≡ (committed log.now.transaction job globals.old.content locks.old.holds).reply) }
    ensures again { IfOk result (λ told. told.1 ≡ told.0) }
    ensures globals { OnOk result (globals.new.content ≡ (committed log.now.transaction job globals.old.content locks.old.holds).globals) }
    ensures locks { OnOk result (locks.new.holds ≡ (committed log.now.transaction job globals.old.content locks.old.holds).locks) }
    ensures unchanged { OnErr result ((globals.new.content ≡ globals.old.content) × (locks.new.holds ≡ locks.old.holds)) }
    ensures stamps { Rises globals.old globals.new }
    ensures others { OnOk result (KeepsStamps (are_to (changes_of log.now.transaction.accesses)) globals.old.stamps globals.new.stamps) }
{
    match commit(log, globals)? {
        Outcome::Done => {
            unlock_waiting(log.entries(), locks, job);
            Ok((Reply::Done, Reply::Done))
        }
        Outcome::Clash(changed) => {
            let told = clash_twice(log.allocator(), changed)?;
            roll_back(log, locks, job);
            Ok(told)
        }
    }
}

// What a clash is told, twice.
fn clash_twice(alloc: Global, changed: Changed) -> Result<(Reply, Reply), AllocError>
    ensures one { IfOk result (λ told. told.0 ≡ replies.Clash (clash_of changed)) }
    ensures other { IfOk result (λ told. told.1 ≡ replies.Clash (clash_of changed)) }
{
    let Changed { place, then, now } = changed;
    let clash = Clash {
        place,
        then: Kept::of(then),
        now: Kept::of(now),
    };
    let clash = BoxedClash::new(alloc, clash)?;
    match clash.try_clone() {
        Ok(copy) => Ok((Reply::Clash(clash), Reply::Clash(copy))),
        Err(refused) => {
            drop(clash);
            Err(refused)
        }
    }
}

// Makes the unlocks that waited, in order.
fn unlock_waiting(entries: &[Entry], locks: &mut LockTable, job: u32)
    ensures { locks.new.holds ≡ unlocked locks.old.holds job entries.now }
{
    for entry in entries {
        unlock_by(entry, locks, job);
    }
}

// Makes the unlock that an entry is, if it is one.
fn unlock_by(entry: &Entry, locks: &mut LockTable, job: u32)
    ensures { locks.new.holds ≡ unlocked locks.old.holds job (entry.now ∷ []) }
{
    if let Entry::Unlock(unlock) = entry {
        unlock_one(unlock, locks, job);
    }
}

// Makes one of them.
fn unlock_one(unlock: &Unlock, locks: &mut LockTable, job: u32)
    ensures { locks.new.holds ≡ unlocked_by locks.old.holds job unlock.now }
{
    match unlock {
        Unlock::Names(names) => locks.give(job, names.as_slice()),
        Unlock::All => locks.give_all(job),
    }
}
