// The globals, and the transactions that are open on them.

ghost use Rattle.std.specs.Prelude.{◌≡◌, ◌++◌, ◌-◌, ◌∷◌, [], length, take, None, IfOk, OnOk, OnErr};
ghost use Rattle.mj_ask.specs.declared.ask.Reply.TheVariants as replies;
ghost use Rattle.mj_locktab.specs.Tries.{outcome_of as try_of, after_try, TryGives};
ghost use Rattle.mj_txlog.specs.declared.entry.Unlock.TheVariants as unlocks;
ghost use Rattle.mj_sys.specs.Transactions.{all_logged, own_of, with_own, twice, told_to, unlock_told, after_unlock, with_waiting, begun_as, locks_back};
ghost use Rattle.mj_sys.specs.Kept.{transaction_after_try, with_accessed, closed_of, with_closed};
ghost use Rattle.mj_sys.specs.Passed.{AreOpen};

use crate::accessed::answer;
use crate::ongoing::Ongoing;
use crate::transactions::{
    access_at, begun, commit, place, put_back, roll_back, take_out, try_take, unlock, unlock_all,
};
use mj_ask::{Kind, Reply};
use mj_globs::Globals;
use mj_locktab::{LockTable, Taken};
use mj_store::{Access, Store};
use mj_subs::Name;
use std::alloc::{AllocError, Global};
use std::marker::Model;

// The globals, and for each row the transaction that its job has open. The type keeps that each of these follows the globals, and that what its reads
// have passed over isn't to be seen in them.
#[derive(Drop)]
pub struct Transacted {
    alloc: Global,
    globals: Globals,
    logs: Vec<Option<Ongoing>>,
}

impl Model for Transacted {
    ghost use Rattle.mj_sys.specs.Transactions.{Transacted, all_logged};
    ghost use Rattle.mj_sys.specs.Passed.{AreOpen};

    ghost Value = { Transacted };

    ghost view = { λ s. record { globals = s.globals.content; transactions = all_logged s.logs.items } };

    ghost invariant = { λ s. AreOpen s.globals s.logs.items };
}

impl Transacted {
    // These globals, with these transactions open.
    pub fn new(alloc: Global, globals: Globals, logs: Vec<Option<Ongoing>>) -> Transacted
        requires { AreOpen globals logs.items }
        ensures { result ≡ record { globals = globals.content; transactions = all_logged logs.items } }
    {
        Transacted {
            alloc,
            globals,
            logs,
        }
    }

    // The globals.
    pub fn globals(&self) -> &Globals
        ensures { result.now.content ≡ self.now.globals }
    {
        &self.globals
    }

    // One row more, without a transaction.
    #[tactic(auto, using(crate::proofs::Places::seen_more, crate::proofs::Passing::row_more))]
    pub fn add_row(&mut self) -> Result<(), AllocError>
        ensures added { OnOk result (self.new ≡ record { globals = self.old.globals; transactions = self.old.transactions ++ None ∷ [] }) }
        ensures err { OnErr result (self.new ≡ self.old) }
    {
        self.logs.push(None)?;
        Ok(())
    }

    // The last row isn't there any more.
    pub fn drop_row(&mut self)
        ensures { self.new ≡ record { globals = self.old.globals; transactions = take (length self.old.transactions - 1) self.old.transactions } }
    {
        drop(self.logs.pop());
    }

    // An access, in the job's transaction if it has one open: what it is told, once for the job and once for the history.
    #[tactic(auto, using(crate::proofs::Places::seen_length, crate::proofs::Places::seen_of, crate::proofs::Places::seen_set))]
    pub fn access(&mut self, job: u32, access: &Access) -> Result<(Reply, Reply), AllocError>
        ensures told { IfOk result (λ told. told ≡ twice (replies.Answer (told_to (own_of self.old job) self.old.globals access.now))) }
        ensures after { OnOk result (self.new ≡ with_accessed self.old job access.now) }
        ensures err { OnErr result (self.new ≡ self.old) }
    {
        self.globals.rises();
        match place(self.logs.len(), job) {
            None => {
                let told = answer(&mut self.globals, access);
                self.globals.rises();
                told
            }
            Some(at) => {
                let told = access_at(&mut self.logs[at], &mut self.globals, access);
                self.globals.rises();
                told
            }
        }
    }

    // A try of names, which a transaction gains where they are got.
    #[tactic(auto, using(crate::proofs::Places::with_twice, crate::proofs::Places::with_same))]
    pub fn try_take(
        &mut self,
        locks: &mut LockTable,
        job: u32,
        names: &[Name],
    ) -> Result<Taken, AllocError>
        ensures taken { IfOk result (λ taken. taken ≡ try_of locks.old.holds job names.now) }
        ensures locks { OnOk result (locks.new.holds ≡ after_try locks.old.holds job names.now) }
        ensures meaning { IfOk result (λ taken. TryGives locks.old.holds job names.now taken locks.new.holds) }
        ensures after { IfOk result (λ taken. self.new ≡ with_own self.old job (transaction_after_try (own_of self.old job) names.now taken)) }
        ensures err { OnErr result ((locks.new.holds ≡ locks.old.holds) × (self.new ≡ self.old)) }
    {
        let mut own = take_out(&mut self.logs, job);
        let taken = try_take(&mut own, locks, job, names);
        put_back(&mut self.logs, job, own);
        taken
    }

    // An unlock of names, which waits where a transaction is open. What it is told is there twice.
    #[tactic(auto, using(crate::proofs::Places::with_twice, crate::proofs::Places::with_same))]
    pub fn unlock(
        &mut self,
        locks: &mut LockTable,
        job: u32,
        names: &[Name],
    ) -> Result<(Reply, Reply), AllocError>
        ensures told { IfOk result (λ told. told ≡ twice (unlock_told (own_of self.old job))) }
        ensures locks { OnOk result (locks.new.holds ≡ after_unlock (own_of self.old job) job locks.old.holds (unlocks.Names names.now)) }
        ensures after { OnOk result (self.new ≡ with_own self.old job (with_waiting (own_of self.old job) (unlocks.Names names.now))) }
        ensures err { OnErr result ((locks.new.holds ≡ locks.old.holds) × (self.new ≡ self.old)) }
    {
        let mut own = take_out(&mut self.logs, job);
        let told = unlock(&mut own, locks, job, names);
        put_back(&mut self.logs, job, own);
        told
    }

    // An unlock of all names.
    #[tactic(auto, using(crate::proofs::Places::with_twice, crate::proofs::Places::with_same))]
    pub fn unlock_all(
        &mut self,
        locks: &mut LockTable,
        job: u32,
    ) -> Result<(Reply, Reply), AllocError>
        ensures told { IfOk result (λ told. told ≡ twice (unlock_told (own_of self.old job))) }
        ensures locks { OnOk result (locks.new.holds ≡ after_unlock (own_of self.old job) job locks.old.holds unlocks.All) }
        ensures after { OnOk result (self.new ≡ with_own self.old job (with_waiting (own_of self.old job) unlocks.All)) }
        ensures err { OnErr result ((locks.new.holds ≡ locks.old.holds) × (self.new ≡ self.old)) }
    {
        let mut own = take_out(&mut self.logs, job);
        let told = unlock_all(&mut own, locks, job);
        put_back(&mut self.logs, job, own);
        told
    }

    // A transaction begins, unless one is open.
    #[tactic(auto, using(crate::proofs::Places::with_twice, crate::proofs::Places::with_same))]
    pub fn begin(&mut self, job: u32, kind: Kind)
        ensures { self.new ≡ with_own self.old job (begun_as (own_of self.old job) kind) }
    {
        let own = take_out(&mut self.logs, job);
        put_back(&mut self.logs, job, begun(self.alloc, own, kind));
    }

    // A commit of the transaction, if one is open. What it is told is there twice.
    #[tactic(auto, using(crate::proofs::Places::with_twice, crate::proofs::Places::with_same))]
    pub fn commit(&mut self, locks: &mut LockTable, job: u32) -> Result<(Reply, Reply), AllocError>
        ensures told { IfOk result (λ told. told.0 ≡ (closed_of self.old job locks.old.holds).reply) }
        ensures again { IfOk result (λ told. told.1 ≡ told.0) }
        ensures after { OnOk result (self.new ≡ with_closed self.old job locks.old.holds) }
        ensures locks { OnOk result (locks.new.holds ≡ (closed_of self.old job locks.old.holds).locks) }
        ensures err { OnErr result ((locks.new.holds ≡ locks.old.holds) × (self.new ≡ self.old)) }
    {
        let own = take_out(&mut self.logs, job);
        self.globals.rises();
        let told = commit(&own, &mut self.globals, locks, job);
        self.globals.rises();
        match told {
            Ok(told) => {
                drop(own);
                Ok(told)
            }
            Err(refused) => {
                put_back(&mut self.logs, job, own);
                Err(refused)
            }
        }
    }

    // A rollback of the transaction, if one is open.
    #[tactic(auto, using(crate::proofs::Places::with_twice, crate::proofs::Places::with_same))]
    pub fn roll_back(&mut self, locks: &mut LockTable, job: u32)
        ensures after { self.new ≡ with_own self.old job None }
        ensures locks { locks.new.holds ≡ locks_back (own_of self.old job) job locks.old.holds }
    {
        let own = take_out(&mut self.logs, job);
        roll_back(&own, locks, job);
        drop(own);
    }
}
