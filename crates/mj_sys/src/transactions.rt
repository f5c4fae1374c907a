// The transactions that jobs have open, and what their asks make of them.

ghost use Rattle.std.specs.Prelude.{◌≡◌, ◌≤◌, ◌<◌, ℕ, suc, length, replicate, None, IfOk, OnOk, OnErr, IfSome, IfNone};
ghost use Rattle.mj_ask.specs.declared.ask.Reply.TheVariants as replies;
ghost use Rattle.mj_locktab.specs.Tries.{outcome_of as try_of, after_try, TryGives};
ghost use Rattle.mj_txlog.specs.declared.entry.Unlock.TheVariants as unlocks;
ghost use Rattle.mj_sys.specs.Transactions.{transaction_of, with_transaction, logged, all_logged, twice, told_to, with_access, unlock_told, after_unlock};
ghost use Rattle.mj_sys.specs.Transactions.{with_waiting, begun_as, closed_as, locks_back};
ghost use Rattle.mj_sys.specs.Shared.{globals_after};
ghost use Rattle.mj_sys.specs.Passed.{IsOpenOn, IsOpen, AreOpen};
ghost use Rattle.mj_globs.specs.Stamps.{Stamped, Rises};
ghost use Rattle.mj_sys.specs.Kept.{transaction_after_try, as_reply};

use crate::accessed::answer;
use crate::ongoing::Ongoing;
use mj_ask::{Kind, Reply};
use mj_globs::Globals;
use mj_locktab::{LockTable, Taken};
use mj_store::{Access, Answer};
use mj_subs::Name;
use mj_txn as txn;
use std::alloc::{AllocError, Global};
use std::mem::replace;

// No transaction, for each of so many rows.
#[tactic(auto, using(crate::proofs::Places::one_more, crate::proofs::Places::seen_more, crate::proofs::Passing::row_more))]
pub fn none_open(alloc: Global, rows: usize) -> Result<Vec<Option<Ongoing>>, AllocError>
    ensures logged { IfOk result (λ logs. all_logged logs.items ≡ replicate rows None) }
    ensures open { IfOk result (λ logs. (globals : Stamped) → AreOpen globals logs.items) }
{
    let mut logs = Vec::new(alloc);
    for _ in 0..rows {
        logs.push(None)?;
    }
    Ok(logs)
}

// The place of a job among so many rows, if it has one.
pub fn place(rows: usize, job: u32) -> Option<usize>
    ensures none { IfNone result (1 ≤ job → rows < job) }
    ensures some { IfSome result (λ at. (job ≡ suc at) × (at < rows)) }
{
    let at = job.checked_sub(1)? as usize;
    if at < rows { Some(at) } else { None }
}

// The transaction that the job has open is taken out of its place.
#[tactic(auto, using(crate::proofs::Places::seen_of, crate::proofs::Places::seen_without))]
pub fn take_out(logs: &mut Vec<Option<Ongoing>>, job: u32) -> Option<Ongoing>
    ensures taken { logged result ≡ transaction_of (all_logged logs.old.items) job }
    ensures left { all_logged logs.new.items ≡ with_transaction (all_logged logs.old.items) job None }
    ensures open { (globals : Stamped) → AreOpen globals logs.old.items → IsOpen globals result × AreOpen globals logs.new.items }
{
    match place(logs.len(), job) {
        None => None,
        Some(at) => logs[at].take(),
    }
}

// The job has this transaction open, or none.
#[tactic(auto, using(crate::proofs::Places::seen_with))]
pub fn put_back(logs: &mut Vec<Option<Ongoing>>, job: u32, log: Option<Ongoing>)
    ensures back { all_logged logs.new.items ≡ with_transaction (all_logged logs.old.items) job (logged log) }
    ensures open { (globals : Stamped) → IsOpen globals log → AreOpen globals logs.old.items → AreOpen globals logs.new.items }
{
    match place(logs.len(), job) {
        None => drop(log),
        Some(at) => drop(replace(&mut logs[at], log)),
    }
}

// A transaction begins, unless one is open.
pub fn begun(alloc: Global, own: Option<Ongoing>, kind: Kind) -> Option<Ongoing>
    ensures begun { logged result ≡ begun_as (logged own) kind }
    ensures open { (globals : Stamped) → IsOpen globals own → IsOpen globals result }
{
    match own {
        None => Some(Ongoing::new(alloc, kind == Kind::Serial)),
        Some(open) => Some(open),
    }
}

// An access of a job that has a place, in its transaction if it has one open: what it is told, once for the job and once for the history.
#[tactic(auto, using(crate::proofs::Passing::rises_self))]
pub fn access_at(
    own: &mut Option<Ongoing>,
    globals: &mut Globals,
    access: &Access,
) -> Result<(Reply, Reply), AllocError>
    requires { IsOpen globals.old own.old }
    ensures told { IfOk result (λ told. told ≡ twice (replies.Answer (told_to (logged own.old) globals.old.content access.now))) }
    ensures globals { OnOk result (globals.new.content ≡ globals_after (logged own.old) access.now globals.old.content) }
    ensures own { OnOk result (logged own.new ≡ with_access (logged own.old) globals.old.content access.now) }
    ensures stamps { Rises globals.old globals.new }
    ensures open { IsOpen globals.new own.new }
    ensures err { OnErr result ((globals.new.content ≡ globals.old.content) × (logged own.new ≡ logged own.old)) }
{
    match own {
        None => answer(globals, access),
        Some(open) => inside(open, globals, access),
    }
}

// An access in a transaction.
fn inside(
    ongoing: &mut Ongoing,
    globals: &Globals,
    access: &Access,
) -> Result<(Reply, Reply), AllocError>
    requires { IsOpenOn globals.now ongoing.old }
    ensures told { IfOk result (λ told. told ≡ twice (replies.Answer (told_to (Some ongoing.old.log.transaction) globals.now.content access.now))) }
    ensures log { OnOk result (Some ongoing.new.log.transaction ≡ with_access (Some ongoing.old.log.transaction) globals.now.content access.now) }
    ensures open { IsOpenOn globals.now ongoing.new }
    ensures err { OnErr result (ongoing.new.log.transaction ≡ ongoing.old.log.transaction) }
{
    let (reply, again) = ongoing.access(globals, access)?;
    Ok((Reply::Answer(reply), Reply::Answer(again)))
}

// A try of names, which a transaction gains where they are got.
#[tactic(auto, using(crate::proofs::Places::taken_none, crate::proofs::Places::taken_some))]
pub fn try_take(
    own: &mut Option<Ongoing>,
    locks: &mut LockTable,
    job: u32,
    names: &[Name],
) -> Result<Taken, AllocError>
    ensures taken { IfOk result (λ taken. taken ≡ try_of locks.old.holds job names.now) }
    ensures locks { OnOk result (locks.new.holds ≡ after_try locks.old.holds job names.now) }
    ensures meaning { IfOk result (λ taken. TryGives locks.old.holds job names.now taken locks.new.holds) }
    ensures own { IfOk result (λ taken. logged own.new ≡ transaction_after_try (logged own.old) names.now taken) }
    ensures open { (globals : Stamped) → IsOpen globals own.old → IsOpen globals own.new }
    ensures err { OnErr result ((locks.new.holds ≡ locks.old.holds) × (logged own.new ≡ logged own.old)) }
{
    match own {
        None => locks.try_take(job, names),
        Some(open) => open.try_take(locks, job, names),
    }
}

// An unlock of names, which waits where a transaction is open. What it is told is there twice.
#[tactic(auto, using(crate::proofs::Places::unlock_replies))]
pub fn unlock(
    own: &mut Option<Ongoing>,
    locks: &mut LockTable,
    job: u32,
    names: &[Name],
) -> Result<(Reply, Reply), AllocError>
    ensures told { IfOk result (λ told. told ≡ twice (unlock_told (logged own.old))) }
    ensures locks { OnOk result (locks.new.holds ≡ after_unlock (logged own.old) job locks.old.holds (unlocks.Names names.now)) }
    ensures own { OnOk result (logged own.new ≡ with_waiting (logged own.old) (unlocks.Names names.now)) }
    ensures open { (globals : Stamped) → IsOpen globals own.old → IsOpen globals own.new }
    ensures err { OnErr result ((locks.new.holds ≡ locks.old.holds) × (logged own.new ≡ logged own.old)) }
{
    match own {
        None => {
            locks.give(job, names);
            Ok((Reply::Done, Reply::Done))
        }
        Some(open) => Ok(told_twice(open.unlock(names)?)),
    }
}

// An unlock of all names.
#[tactic(auto, using(crate::proofs::Places::unlock_replies))]
pub fn unlock_all(
    own: &mut Option<Ongoing>,
    locks: &mut LockTable,
    job: u32,
) -> Result<(Reply, Reply), AllocError>
    ensures told { IfOk result (λ told. told ≡ twice (unlock_told (logged own.old))) }
    ensures locks { OnOk result (locks.new.holds ≡ after_unlock (logged own.old) job locks.old.holds unlocks.All) }
    ensures own { OnOk result (logged own.new ≡ with_waiting (logged own.old) unlocks.All) }
    ensures open { (globals : Stamped) → IsOpen globals own.old → IsOpen globals own.new }
    ensures err { OnErr result ((locks.new.holds ≡ locks.old.holds) × (logged own.new ≡ logged own.old)) }
{
    match own {
        None => {
            locks.give_all(job);
            Ok((Reply::Done, Reply::Done))
        }
        Some(open) => Ok(told_twice(open.unlock_all()?)),
    }
}

// What an unlock is told, which waits or passes a limit.
fn told_twice(answer: Answer) -> (Reply, Reply)
    ensures { result ≡ (as_reply answer, as_reply answer) }
{
    match answer {
        Answer::Limit => (Reply::Limit, Reply::Limit),
        _ => (Reply::Done, Reply::Done),
    }
}

// A commit of the transaction, if one is open. What it is told is there twice.
#[tactic(auto, using(crate::proofs::Passing::rises_self))]
pub fn commit(
    own: &Option<Ongoing>,
    globals: &mut Globals,
    locks: &mut LockTable,
    job: u32,
) -> Result<(Reply, Reply), AllocError>
    requires { IsOpen globals.old own.now }
    ensures told { IfOk result (λ told. told.0 ≡ (closed_as (logged own.now) job globals.old.content locks.old.holds).reply) }
    ensures again { IfOk result (λ told. told.1 ≡ told.0) }
    ensures globals { OnOk result (globals.new.content ≡ (closed_as (logged own.now) job globals.old.content locks.old.holds).globals) }
    ensures locks { OnOk result (locks.new.holds ≡ (closed_as (logged own.now) job globals.old.content locks.old.holds).locks) }
    ensures stamps { Rises globals.old globals.new }
    ensures err { OnErr result ((globals.new.content ≡ globals.old.content) × (locks.new.holds ≡ locks.old.holds)) }
{
    match own {
        None => Ok((Reply::Done, Reply::Done)),
        Some(open) => txn::close(open.log(), globals, locks, job),
    }
}

// A rollback of the transaction, if one is open.
pub fn roll_back(own: &Option<Ongoing>, locks: &mut LockTable, job: u32)
    ensures { locks.new.holds ≡ locks_back (logged own.now) job locks.old.holds }
{
    match own {
        None => {}
        Some(open) => txn::roll_back(open.log(), locks, job),
    }
}
