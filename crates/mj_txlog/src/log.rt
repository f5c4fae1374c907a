// The list of a transaction's accesses.

ghost use Rattle.std.specs.Prelude.{◌≡◌, ◌≤◌, ◌∷◌, ◌++◌, [], false, true, cond, length, take, ◌↔◌, IsTrue, IfOk, OnOk, OnErr};
ghost use Rattle.mj_globs.specs.Stamps.{Stamped};
ghost use Rattle.mj_store.specs.Runs.{answer_of};
ghost use Rattle.mj_txlog.specs.declared.entry.Entry.TheVariants.{Access as access_entry};
ghost use Rattle.mj_txlog.specs.Accesses.{is_write, is_full, reply_in, seen, with_entry, with_told, with_unlock, unlock_reply, with_gained};
ghost use Rattle.mj_txlog.specs.Follows.{stamp_kept, with_stamp, Follows, stale_of};
ghost use Rattle.mj_txlog.specs.Laid.{IsLaid};
ghost use Rattle.mj_txlog.specs.Skips.{AreSkips, gone_by};

use crate::entry::{Entry, Unlock, is_refused, is_write};
use crate::follows::are_following;
use crate::names::copies_of;
use crate::overlay::Overlay;
use crate::sight::answer;
use crate::skips::Skips;
use crate::stale::stale_among;
use mj_globs::Globals;
use mj_store::{Access, Answer};
use mj_subs::Name;
use std::alloc::{AllocError, Global};
use std::marker::Model;

/// The most accesses that a transaction has.
pub const ACCESSES_LIMIT: usize = 65_536;

/// An open transaction.
#[derive(Drop)]
pub struct TxLog {
    alloc: Global,
    serial: bool,
    entries: Vec<Entry>,
    // for each of them the stamp that its word had when it was made, where it is a read
    stamps: Vec<u64>,
    // the writes among the first of them, by what they leave
    own: Overlay,
    // how many these first ones are: the next read lays the writes among the others over them
    laid: usize,
    gained: Vec<Name>,
}

impl Model for TxLog {
    ghost use Rattle.std.specs.Prelude.{◌≡◌, ◌≤◌, [], length, take};
    ghost use Rattle.mj_txlog.specs.Logged.{Logged};
    ghost use Rattle.mj_txlog.specs.declared.log.TheConstants.{ACCESSES_LIMIT};
    ghost use Rattle.mj_txlog.specs.Laid.{IsLaid};
    ghost use Rattle.mj_txlog.specs.Skips.{gone_by};

    ghost Value = { Logged };

    ghost view = { λ t. record {
      transaction = record { serial = t.serial; accesses = t.entries.items; gained = t.gained.items };
      stamps = t.stamps.items;
    } };

    ghost invariant = { λ t.
        (length t.entries.items ≤ ACCESSES_LIMIT) × (length t.stamps.items ≡ length t.entries.items) × (t.laid ≤ length t.entries.items)
        × IsLaid t.own (take t.laid t.entries.items) × (t.own.gone ≡ gone_by (take t.laid t.entries.items)) };
}

impl TxLog {
    /// A transaction that has just begun.
    #[tactic(auto, using(crate::proofs::Laid::none_laid))]
    pub fn new(alloc: Global, serial: bool) -> TxLog
        ensures transaction { result.transaction ≡ record { serial = serial; accesses = []; gained = [] } }
        ensures stamps { result.stamps ≡ [] }
    {
        TxLog {
            alloc,
            serial,
            entries: Vec::new(alloc),
            stamps: Vec::new(alloc),
            own: Overlay::new(alloc),
            laid: 0,
            gained: Vec::new(alloc),
        }
    }

    /// Where its memory comes from.
    pub fn allocator(&self) -> Global {
        self.alloc
    }

    /// Whether it is SERIAL.
    pub fn is_serial(&self) -> bool
        ensures { result ≡ self.now.transaction.serial }
    {
        self.serial
    }

    /// Its accesses, in order.
    pub fn entries(&self) -> &[Entry]
        ensures value { result.now ≡ self.now.transaction.accesses }
        ensures limit { length result.now ≤ ACCESSES_LIMIT }
    {
        &self.entries
    }

    /// For each of its accesses the stamp that it kept: a read keeps that of its word.
    pub fn stamps(&self) -> &[u64]
        ensures value { result.now ≡ self.now.stamps }
        ensures each { length result.now ≡ length self.now.transaction.accesses }
    {
        &self.stamps
    }

    /// Whether what its stamps say of its reads is so, which a commit is told beforehand: none is above that of its word, and as long as they are the
    /// same, the read has its answer.
    pub fn follows(&self, globals: &Globals) -> Result<bool, AllocError>
        ensures { IfOk result (λ follows. IsTrue follows ↔ Follows self.now globals.now) }
    {
        are_following(self.alloc, globals, &self.entries, &self.stamps)
    }

    /// How many of its reads are of words whose stamps have changed since, or count as changed.
    pub fn stale(&self, globals: &Globals) -> u32
        ensures { result ≡ stale_of self.now globals.now.stamps }
    {
        stale_among(globals, &self.entries, &self.stamps)
    }

    /// The names of the locks that were gained since it began, one for each count.
    pub fn gained(&self) -> &[Name]
        ensures { result.now ≡ self.now.transaction.gained }
    {
        &self.gained
    }

    /// Makes an access in the transaction. A read is answered on the globals as they are, with the own writes made on them. A write is
    /// done. Both are appended, with their answers. An access past the limit, and a write that would give a name too many subscripts, is
    /// answered that it passes a limit, and isn't appended. The answer is there twice, once for the job and once for who writes it down. What its reads pass
    /// over is kept in `skips`, which is true of the same globals for as long as they don't change.
    pub fn see(
        &mut self,
        globals: &Globals,
        skips: &mut Skips,
        access: Access,
    ) -> Result<(Answer, Answer), AllocError>
        requires { AreSkips globals.now.content (gone_by self.old.transaction.accesses) skips.old }
        ensures answer { IfOk result (λ told. told.0 ≡ reply_in self.old.transaction globals.now.content access) }
        ensures again { IfOk result (λ told. told.1 ≡ reply_in self.old.transaction globals.now.content access) }
        ensures appended { OnOk result (self.new.transaction ≡ with_told self.old.transaction access globals.now.content) }
        ensures stamped { OnOk result (self.new.stamps
            ≡ with_stamp self.old.stamps (reply_in self.old.transaction globals.now.content access) (stamp_kept access globals.now.stamps)) }
        ensures unchanged { OnErr result (self.new.transaction ≡ self.old.transaction) }
        ensures same { OnErr result (self.new.stamps ≡ self.old.stamps) }
        ensures follows { Follows self.old globals.now → Follows self.new globals.now }
        ensures skips { AreSkips globals.now.content (gone_by self.new.transaction.accesses) skips.new }
    {
        if is_write(&access) {
            return self.write(access);
        }
        if self.is_full() {
            drop(access); // for the proof
            return Ok((Answer::Limit, Answer::Limit));
        }
        match self.answers(globals, skips, &access) {
            Ok((told, kept)) => {
                let stamp = globals.stamp(access.name());
                self.append(access, told, kept, stamp)
            }
            Err(refused) => {
                drop(access); // for the proof
                Err(refused)
            }
        }
    }

    // The answer to a read, to be given twice and to be kept. Own writes that don't lie over the globals yet are laid over them.
    fn answers(
        &mut self,
        globals: &Globals,
        skips: &mut Skips,
        read: &Access,
    ) -> Result<((Answer, Answer), Answer), AllocError>
        requires read { is_write read.now ≡ false }
        requires skips { AreSkips globals.now.content (gone_by self.old.transaction.accesses) skips.old }
        ensures same { self.new ≡ self.old }
        ensures skips { AreSkips globals.now.content (gone_by self.old.transaction.accesses) skips.new }
        ensures given { IfOk result (λ x. x.0.0 ≡ answer_of read.now (seen globals.now.content self.old.transaction.accesses)) }
        ensures again { IfOk result (λ x. x.0.1 ≡ answer_of read.now (seen globals.now.content self.old.transaction.accesses)) }
        ensures kept { IfOk result (λ x. x.1 ≡ answer_of read.now (seen globals.now.content self.old.transaction.accesses)) }
    {
        let entries = self.entries.as_slice();
        lay(entries, &mut self.own, &mut self.laid)?;
        let answer = answer(self.alloc, globals.texts(), entries, &self.own, skips, read)?;
        match twice(&answer) {
            Ok((again, kept)) => Ok(((answer, again), kept)),
            Err(refused) => {
                drop(answer); // for the proof
                Err(refused)
            }
        }
    }

    // Appends an access with the answer that is kept, and gives the other ones.
    fn append(
        &mut self,
        access: Access,
        told: (Answer, Answer),
        kept: Answer,
        stamp: u64,
    ) -> Result<(Answer, Answer), AllocError>
        requires { is_full self.old.transaction ≡ false }
        ensures each { length self.old.stamps ≡ length self.old.transaction.accesses }
        ensures answer { IfOk result (λ t. t ≡ told) }
        ensures appended { OnOk result (self.new.transaction ≡ with_entry self.old.transaction (access_entry access kept)) }
        ensures stamped { OnOk result (self.new.stamps ≡ self.old.stamps ++ stamp ∷ []) }
        ensures unchanged { OnErr result (self.new.transaction ≡ self.old.transaction) }
        ensures same { OnErr result (self.new.stamps ≡ self.old.stamps) }
    {
        match self.push(Entry::Access(access, kept), stamp) {
            Ok(()) => Ok(told),
            Err(refused) => {
                drop(told); // for the proof
                Err(refused)
            }
        }
    }

    // Appends an entry with the stamp that it keeps.
    #[tactic(auto, using(crate::proofs::Laying::still_laid, crate::proofs::Laying::still_gone))]
    fn push(&mut self, entry: Entry, stamp: u64) -> Result<(), AllocError>
        requires { is_full self.old.transaction ≡ false }
        ensures each { length self.old.stamps ≡ length self.old.transaction.accesses }
        ensures appended { OnOk result (self.new.transaction ≡ with_entry self.old.transaction entry) }
        ensures stamped { OnOk result (self.new.stamps ≡ self.old.stamps ++ stamp ∷ []) }
        ensures unchanged { OnErr result (self.new.transaction ≡ self.old.transaction) }
        ensures same { OnErr result (self.new.stamps ≡ self.old.stamps) }
    {
        let room = match self.entries.reserve(1) {
            Ok(()) => self.stamps.reserve(1),
            Err(refused) => Err(refused),
        };
        match room {
            Ok(()) => {
                self.entries.push_reserved(entry);
                self.stamps.push_reserved(stamp);
                Ok(())
            }
            Err(refused) => {
                drop(entry); // for the proof
                Err(refused)
            }
        }
    }

    /// Makes a write in the transaction, as `see` does, for which no globals are wanted.
    #[tactic(auto, using(crate::proofs::Appending::write_follows, crate::proofs::Appending::same_follows))]
    pub fn write(&mut self, access: Access) -> Result<(Answer, Answer), AllocError>
        requires { is_write access ≡ true }
        ensures answer { IfOk result (λ told. told.0 ≡ reply_in self.old.transaction [] access) }
        ensures again { IfOk result (λ told. told.1 ≡ reply_in self.old.transaction [] access) }
        ensures appended { OnOk result (self.new.transaction ≡ with_told self.old.transaction access []) }
        ensures stamped { OnOk result (self.new.stamps ≡ with_stamp self.old.stamps (reply_in self.old.transaction [] access) 0) }
        ensures unchanged { OnErr result (self.new.transaction ≡ self.old.transaction) }
        ensures same { OnErr result (self.new.stamps ≡ self.old.stamps) }
        ensures follows { (globals : Stamped) → Follows self.old globals → Follows self.new globals }
    {
        if self.is_full() || is_refused(&access) {
            drop(access); // for the proof
            return Ok((Answer::Limit, Answer::Limit));
        }
        self.push(Entry::Access(access, Answer::Done), 0)?;
        Ok((Answer::Done, Answer::Done))
    }

    /// Appends an unlock, which waits for the commit. Past the limit it is answered that it passes one, and isn't appended.
    #[tactic(auto, using(crate::proofs::Appending::free_follows, crate::proofs::Appending::same_follows))]
    pub fn unlock(&mut self, unlock: Unlock) -> Result<Answer, AllocError>
        ensures answer { IfOk result (λ a. a ≡ unlock_reply self.old.transaction) }
        ensures appended { OnOk result (self.new.transaction ≡ with_unlock self.old.transaction unlock) }
        ensures stamped { OnOk result (self.new.stamps ≡ cond (is_full self.old.transaction) self.old.stamps (self.old.stamps ++ 0 ∷ [])) }
        ensures unchanged { OnErr result (self.new.transaction ≡ self.old.transaction) }
        ensures same { OnErr result (self.new.stamps ≡ self.old.stamps) }
        ensures follows { (globals : Stamped) → Follows self.old globals → Follows self.new globals }
    {
        if self.is_full() {
            drop(unlock); // for the proof
            return Ok(Answer::Limit);
        }
        self.push(Entry::Unlock(unlock), 0)?;
        Ok(Answer::Done)
    }

    /// Counts the lock of each name once more, which a rollback gives back: all of them, or none.
    pub fn gain(&mut self, names: &[Name]) -> Result<(), AllocError>
        ensures gained { OnOk result (self.new.transaction ≡ with_gained self.old.transaction names.now) }
        ensures stamped { self.new.stamps ≡ self.old.stamps }
        ensures unchanged { OnErr result (self.new.transaction ≡ self.old.transaction) }
    {
        let mut copies = copies_of(self.alloc, names)?;
        self.gained.append(&mut copies)?;
        Ok(())
    }

    /// Whether it has as many accesses as it can have.
    pub fn is_full(&self) -> bool
        ensures { result ≡ is_full self.now.transaction }
    {
        ACCESSES_LIMIT <= self.entries.len()
    }
}

// Lays those of the writes among the entries that don't lie over the globals yet over the others.
fn lay(entries: &[Entry], own: &mut Overlay, laid: &mut usize) -> Result<(), AllocError>
    requires within { laid.old ≤ length entries.now }
    requires laid { IsLaid own.old (take laid.old entries.now) }
    requires gone { own.old.gone ≡ gone_by (take laid.old entries.now) }
    ensures within { laid.new ≤ length entries.now }
    ensures laid { IsLaid own.new (take laid.new entries.now) }
    ensures gone { own.new.gone ≡ gone_by (take laid.new entries.now) }
    ensures all_laid { OnOk result (IsLaid own.new entries.now) }
    ensures all_gone { OnOk result (own.new.gone ≡ gone_by entries.now) }
{
    for at in *laid..entries.len() {
        own.add(&entries[at])?;
        *laid = at + 1;
    }
    Ok(())
}

// Two copies of the answer.
fn twice(answer: &Answer) -> Result<(Answer, Answer), AllocError>
    ensures one { IfOk result (λ two. two.0 ≡ answer.now) }
    ensures other { IfOk result (λ two. two.1 ≡ answer.now) }
{
    let one = answer.try_clone()?;
    match answer.try_clone() {
        Ok(other) => Ok((one, other)),
        Err(refused) => {
            drop(one); // for the proof
            Err(refused)
        }
    }
}
