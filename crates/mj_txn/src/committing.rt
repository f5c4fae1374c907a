// A commit.

ghost use Rattle.std.specs.Prelude.{◌≡◌, ◌↔◌, IfOk, OnOk, OnErr};
ghost use Rattle.mj_globs.specs.Changes.{are_to};
ghost use Rattle.mj_globs.specs.Stamps.{Rises, KeepsStamps};
ghost use Rattle.mj_txlog.specs.Accesses.{seen};
ghost use Rattle.mj_txlog.specs.Follows.{Follows, stale_of};
ghost use Rattle.mj_txn.specs.Commits.{MayCommit, CommitsAs, after_commit, changes_of};
ghost use Rattle.mj_txn.specs.Testing.{outcome_of};
ghost use Rattle.mj_txn.specs.declared.committing.Outcome.TheVariants as outcome;

use crate::changed::{Changed, first_changed};
use crate::writes::{changes_of, only_set};
use mj_globs::Globals;
use mj_store::Store;
use mj_text::Failure;
use mj_txlog::TxLog;
use std::alloc::AllocError;

/// What comes of a commit.
#[derive(Drop)]
pub enum Outcome {
    /// the writes are made
    Done,
    /// a read of a SERIAL transaction has another answer now, and nothing is made
    Clash(Changed),
}

/// Commits the transaction. A SERIAL one is done exactly where each of its reads, asked now on the globals with its own writes before that
/// read, has the answer that it had, and otherwise the first read that has another answer is named. Where it is done all writes are made,
/// and else none. A read is asked only where the stamp of its word has changed: where none is stale the commit is done. The stamps of
/// words that it doesn't write stay. The transaction itself stays as it is: what waits for its commit, and what a rollback gives back, is the caller's to do.
pub fn commit(log: &TxLog, globals: &mut Globals) -> Result<Outcome, AllocError>
    requires { Follows log.now globals.old }
    ensures outcome { IfOk result (λ r. CommitsAs log.now.transaction globals.old.content r) }
    ensures exactly { IfOk result (λ r. (r ≡ outcome.Done) ↔ MayCommit log.now.transaction globals.old.content) }
    ensures told { IfOk result (λ r. r ≡ outcome_of log.now.transaction globals.old.content) }
    ensures globals { IfOk result (λ r. globals.new.content ≡ after_commit log.now.transaction globals.old.content r) }
    ensures fresh { stale_of log.now globals.old.stamps ≡ 0 → IfOk result (λ r. r ≡ outcome.Done) }
    ensures unchanged { OnErr result (globals.new.content ≡ globals.old.content) }
    ensures stamps { Rises globals.old globals.new }
    ensures others { OnOk result (KeepsStamps (are_to (changes_of log.now.transaction.accesses)) globals.old.stamps globals.new.stamps) }
{
    made(log, globals)
}

// Commits, told by what holds of what comes of it.
#[tactic(auto, using(crate::proofs::Replies::exact, mj_globs::proofs::Stamping::rises_same))]
fn made(log: &TxLog, globals: &mut Globals) -> Result<Outcome, AllocError>
    requires { Follows log.now globals.old }
    ensures outcome { IfOk result (λ r. CommitsAs log.now.transaction globals.old.content r) }
    ensures exactly { IfOk result (λ r. (r ≡ outcome.Done) ↔ MayCommit log.now.transaction globals.old.content) }
    ensures globals { IfOk result (λ r. globals.new.content ≡ after_commit log.now.transaction globals.old.content r) }
    ensures fresh { stale_of log.now globals.old.stamps ≡ 0 → IfOk result (λ r. r ≡ outcome.Done) }
    ensures unchanged { OnErr result (globals.new.content ≡ globals.old.content) }
    ensures stamps { Rises globals.old globals.new }
    ensures others { OnOk result (KeepsStamps (are_to (changes_of log.now.transaction.accesses)) globals.old.stamps globals.new.stamps) }
{
    if log.is_serial() {
        if let Some(changed) = first_changed(log, globals)? {
            return Ok(Outcome::Clash(changed));
        }
    }
    make_changes(log, globals)?;
    Ok(Outcome::Done)
}

// Makes all changes, or none. A SET at the end, where no other access is a write, is made without a list of changes.
#[tactic(auto, using(crate::proofs::Replies::set_seen, crate::proofs::Replies::set_others))]
fn make_changes(log: &TxLog, globals: &mut Globals) -> Result<(), AllocError>
    ensures globals { OnOk result (globals.new.content ≡ seen globals.old.content log.now.transaction.accesses) }
    ensures unchanged { OnErr result (globals.new.content ≡ globals.old.content) }
    ensures stamps { Rises globals.old globals.new }
    ensures others { OnOk result (KeepsStamps (are_to (changes_of log.now.transaction.accesses)) globals.old.stamps globals.new.stamps) }
{
    match only_set(log.entries()) {
        Some((name, text)) => globals.set(name, text),
        None => make_all(log, globals),
    }
}

// Makes all changes, or none.
fn make_all(log: &TxLog, globals: &mut Globals) -> Result<(), AllocError>
    ensures globals { OnOk result (globals.new.content ≡ seen globals.old.content log.now.transaction.accesses) }
    ensures unchanged { OnErr result (globals.new.content ≡ globals.old.content) }
    ensures stamps { Rises globals.old globals.new }
    ensures others { OnOk result (KeepsStamps (are_to (changes_of log.now.transaction.accesses)) globals.old.stamps globals.new.stamps) }
{
    let changes = changes_of(log.allocator(), log.entries())?;
    match globals.apply(&changes) {
        Ok(()) => Ok(()),
        Err(Failure::Memory) => Err(AllocError),
        Err(Failure::Fault(_)) => unreachable!(),
    }
}
