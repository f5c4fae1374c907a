// What the reads of an open transaction have passed over, word by word.
//
// A read of a transaction goes past what its own kills took of the globals, one subscript after the other. What was passed so is kept, so that the
// next read doesn't go there once more. It holds as long as the globals of that word are the same: the word's stamp is kept beside it, and what was
// kept at another stamp isn't looked at.

ghost use Rattle.std.specs.Prelude.{◌≡◌, [], IfOk, OnOk, OnErr};
ghost use Rattle.mj_txlog.specs.Follows.{Follows};
ghost use Rattle.mj_txlog.specs.Skips.{AreSkips, AreWithin, gone_by};
ghost use Rattle.mj_store.specs.Questions.{Content};
ghost use Rattle.mj_globs.specs.Stamps.{stamp_at};
ghost use Rattle.mj_txn.specs.Closing.{told_in, after_told};
ghost use Rattle.mj_sys.specs.Passed.{IsPassed};

use mj_globs::Globals;
use mj_store::{Access, Answer};
use mj_subs::Name;
use mj_txlog::{Skips, TxLog, is_still};
use mj_txn as txn;
use std::alloc::{AllocError, Global};

// What the reads of a transaction have passed over below names of one word, and the stamp that the word had then.
#[derive(Drop)]
pub struct PassedWord {
    pub at: u64,
    pub skips: Skips,
}

impl PassedWord {
    // Nothing was passed over.
    pub fn new(alloc: Global) -> PassedWord
        ensures { result ≡ record { at = 0; skips = [] } }
    {
        PassedWord {
            at: 0,
            skips: Skips::of_one_word(alloc),
        }
    }

    // Makes an access in the transaction, which should be to a name of the word: what it is told, twice.
    #[tactic(auto, using(crate::proofs::Passing::passed_then))]
    pub fn access(
        &mut self,
        log: &mut TxLog,
        globals: &Globals,
        access: &Access,
    ) -> Result<(Answer, Answer), AllocError>
        requires { IsPassed globals.now (gone_by log.old.transaction.accesses) self.old }
        ensures answer { IfOk result (λ told. told.0 ≡ told_in log.old.transaction globals.now.content access.now) }
        ensures again { IfOk result (λ told. told.1 ≡ told_in log.old.transaction globals.now.content access.now) }
        ensures log { OnOk result (log.new.transaction ≡ after_told log.old.transaction globals.now.content access.now) }
        ensures unchanged { OnErr result (log.new.transaction ≡ log.old.transaction) }
        ensures follows { Follows log.old globals.now → Follows log.new globals.now }
        ensures passed { IsPassed globals.now (gone_by log.new.transaction.accesses) self.new }
    {
        self.renew(access.name(), globals);
        let told = txn::access(log, globals, &mut self.skips, access);
        self.limit(access.name());
        told
    }

    // It is of the stamp of a name's word now. What was passed over at another, or of another word, is left.
    #[tactic(auto, using(crate::proofs::Passing::passed_now, crate::proofs::Passing::no_skips))]
    fn renew(&mut self, name: &Name, globals: &Globals)
        ensures at { self.new.at ≡ stamp_at globals.now.stamps name.now }
        ensures skips { (gone : Content) → IsPassed globals.now gone self.old → AreSkips globals.now.content gone self.new.skips }
    {
        let now = globals.stamp(name);
        if !self.skips.are_of(name) || !is_still(self.at, now) {
            self.skips.clear();
        }
        self.at = now;
    }

    // Nothing is kept that isn't of a name's word.
    #[tactic(auto, using(crate::proofs::Passing::no_skips, crate::proofs::Passing::none_within))]
    fn limit(&mut self, name: &Name)
        ensures at { self.new.at ≡ self.old.at }
        ensures within { AreWithin name.now self.new.skips }
        ensures skips { (globals gone : Content) → AreSkips globals gone self.old.skips → AreSkips globals gone self.new.skips }
    {
        if !self.skips.are_of(name) {
            self.skips.clear();
        }
    }
}
