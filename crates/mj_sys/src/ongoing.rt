// A transaction that a job has open.

ghost use Rattle.std.specs.Prelude.{◌≡◌, [], IfOk, OnOk, OnErr};
ghost use Rattle.std.specs.BTreeMap.{values};
ghost use Rattle.mj_locktab.specs.Tries.{outcome_of as try_of, after_try, TryGives};
ghost use Rattle.mj_store.specs.Questions.{Content};
ghost use Rattle.mj_globs.specs.Stamps.{Stamped};
ghost use Rattle.mj_txlog.specs.Accesses.{unlock_reply, with_unlock};
ghost use Rattle.mj_txlog.specs.declared.entry.Unlock.TheVariants as unlocks;
ghost use Rattle.mj_txn.specs.Closing.{told_in, after_told, gained_by_try};
ghost use Rattle.mj_sys.specs.Passed.{IsPassed, ArePassed, IsOpenOn};

use crate::passed::PassedWord;
use mj_globs::Globals;
use mj_locktab::{LockTable, Taken};
use mj_store::{Access, Answer};
use mj_subs::Name;
use mj_text::Digits;
use mj_txlog::{Skips, TxLog, Unlock};
use mj_txn as txn;
use std::alloc::{AllocError, Global};
use std::collections::BTreeMap;
use std::marker::Model;

// A transaction that a job has open, and what its reads have passed over, by the bytes of words.
#[derive(Drop)]
pub struct Ongoing {
    alloc: Global,
    log: TxLog,
    passed: BTreeMap<Vec<u8>, PassedWord>,
}

impl Model for Ongoing {
    ghost use Rattle.std.specs.Map.{values_of};
    ghost use Rattle.mj_sys.specs.Transactions.{Ongoing};

    ghost Value = { Ongoing };

    ghost view = { λ o. record { log = o.log; passed = values_of o.passed.entries } };
}

impl Ongoing {
    // One that has just begun.
    pub fn new(alloc: Global, serial: bool) -> Ongoing
        ensures transaction { result.log.transaction ≡ record { serial = serial; accesses = []; gained = [] } }
        ensures stamps { result.log.stamps ≡ [] }
        ensures passed { result.passed ≡ [] }
    {
        Ongoing {
            alloc,
            log: TxLog::new(alloc, serial),
            passed: BTreeMap::new(alloc),
        }
    }

    // Its log.
    pub fn log(&self) -> &TxLog
        ensures { result.now ≡ self.now.log }
    {
        &self.log
    }

    // A try of names, which the transaction gains where they are got.
    pub fn try_take(
        &mut self,
        locks: &mut LockTable,
        job: u32,
        names: &[Name],
    ) -> Result<Taken, AllocError>
        ensures taken { IfOk result (λ taken. taken ≡ try_of locks.old.holds job names.now) }
        ensures locks { OnOk result (locks.new.holds ≡ after_try locks.old.holds job names.now) }
        ensures meaning { IfOk result (λ taken. TryGives locks.old.holds job names.now taken locks.new.holds) }
        ensures log { IfOk result (λ taken. self.new.log.transaction ≡ gained_by_try self.old.log.transaction names.now taken) }
        ensures open { (globals : Stamped) → IsOpenOn globals self.old → IsOpenOn globals self.new }
        ensures unchanged { OnErr result ((locks.new.holds ≡ locks.old.holds) × (self.new.log.transaction ≡ self.old.log.transaction)) }
    {
        txn::try_take(&mut self.log, locks, job, names)
    }

    // An unlock of names, which waits for the commit.
    pub fn unlock(&mut self, names: &[Name]) -> Result<Answer, AllocError>
        ensures answer { IfOk result (λ a. a ≡ unlock_reply self.old.log.transaction) }
        ensures waits { OnOk result (self.new.log.transaction ≡ with_unlock self.old.log.transaction (unlocks.Names names.now)) }
        ensures open { (globals : Stamped) → IsOpenOn globals self.old → IsOpenOn globals self.new }
        ensures unchanged { OnErr result (self.new.log.transaction ≡ self.old.log.transaction) }
    {
        txn::unlock(&mut self.log, names)
    }

    // An unlock of all names.
    pub fn unlock_all(&mut self) -> Result<Answer, AllocError>
        ensures answer { IfOk result (λ a. a ≡ unlock_reply self.old.log.transaction) }
        ensures waits { OnOk result (self.new.log.transaction ≡ with_unlock self.old.log.transaction unlocks.All) }
        ensures open { (globals : Stamped) → IsOpenOn globals self.old → IsOpenOn globals self.new }
        ensures unchanged { OnErr result (self.new.log.transaction ≡ self.old.log.transaction) }
    {
        self.log.unlock(Unlock::All)
    }

    // Makes an access in the transaction: what it is told, twice. A write, and a read of one text or of a subtree, neither goes by what reads passed over
    // nor adds to it, so it is made without.
    pub fn access(
        &mut self,
        globals: &Globals,
        access: &Access,
    ) -> Result<(Answer, Answer), AllocError>
        requires { IsOpenOn globals.now self.old }
        ensures answer { IfOk result (λ told. told.0 ≡ told_in self.old.log.transaction globals.now.content access.now) }
        ensures again { IfOk result (λ told. told.1 ≡ told_in self.old.log.transaction globals.now.content access.now) }
        ensures log { OnOk result (self.new.log.transaction ≡ after_told self.old.log.transaction globals.now.content access.now) }
        ensures unchanged { OnErr result (self.new.log.transaction ≡ self.old.log.transaction) }
        ensures open { IsOpenOn globals.now self.new }
    {
        if may_pass(access) {
            return self.passing(globals, access);
        }
        let mut skips = Skips::new(self.alloc);
        let told = txn::access(&mut self.log, globals, &mut skips, access);
        drop(skips); // for the proof
        told
    }

    // Makes one that may pass over something.
    fn passing(
        &mut self,
        globals: &Globals,
        access: &Access,
    ) -> Result<(Answer, Answer), AllocError>
        requires { IsOpenOn globals.now self.old }
        ensures answer { IfOk result (λ told. told.0 ≡ told_in self.old.log.transaction globals.now.content access.now) }
        ensures again { IfOk result (λ told. told.1 ≡ told_in self.old.log.transaction globals.now.content access.now) }
        ensures log { OnOk result (self.new.log.transaction ≡ after_told self.old.log.transaction globals.now.content access.now) }
        ensures unchanged { OnErr result (self.new.log.transaction ≡ self.old.log.transaction) }
        ensures open { IsOpenOn globals.now self.new }
    {
        let mut digits = Digits::new();
        let key = access.name().word().bytes(&mut digits);
        if let Some(word) = self.passed.get_mut(key) {
            return word.access(&mut self.log, globals, access);
        }
        let mut word = PassedWord::new(self.alloc);
        let told = word.access(&mut self.log, globals, access);
        if word.skips.may_be_any() {
            keep(&mut self.passed, self.alloc, key, word);
        } else {
            drop(word); // for the proof
        }
        told
    }
}

// Whether an access goes by what reads passed over, and may add to it.
fn may_pass(access: &Access) -> bool {
    match access {
        Access::Data(_) | Access::Order(_, _) | Access::Query(_) => true,
        Access::Value(_)
        | Access::Subtree(_)
        | Access::Set(_, _)
        | Access::Kill(_)
        | Access::Put(_, _) => false,
    }
}

// Keeps what was passed over of a word. Where memory is refused it isn't kept, and more is passed over once more.
fn keep(passed: &mut BTreeMap<Vec<u8>, PassedWord>, alloc: Global, key: &[u8], word: PassedWord)
    ensures { (globals : Stamped) (gone : Content) → IsPassed globals gone word → ArePassed globals gone (values passed.old)
        → ArePassed globals gone (values passed.new) }
{
    match Vec::from_slice(alloc, key) {
        Ok(key) => {
            let _kept = passed.insert(key, word);
        }
        Err(_) => drop(word),
    }
}
