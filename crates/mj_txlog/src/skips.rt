// What the reads of a transaction have passed over.
//
// Where own kills took what the globals have below a name, its subscripts are passed over one by one (`next.rt`). They are so once: what was
// passed is kept as runs of subscripts, from the first to the last, and a later read goes from one end of a run to the other. A run holds as long
// as the globals are the same, whatever the transaction does: what went doesn't come back.

ghost use Rattle.std.specs.Prelude.{◌≡◌, ◌⊎◌, ◌∷◌, [], true, false, ℕ, List, IfOk};
ghost use Rattle.mj_store.specs.Questions.{Content};
ghost use Rattle.std.specs.Option.{IfSome, option_copied};
ghost use Rattle.std.specs.Ordering.{is_lt};
ghost use Rattle.mj_subs.specs.Collation.{subscript_cmp};
ghost use Rattle.mj_store.specs.Questions.{value_at, same_word};
ghost use Rattle.mj_store.specs.Changes.{followed_by, after_set, after_kill};
ghost use Rattle.mj_txlog.specs.Skips.{LiesInRun, IsFar, IsNextRun, Joins, AreWithin, AreOf, far_end, later_of};

use crate::names::with_one;
use mj_globs::Texts;
use mj_store::{Direction, Store};
use mj_subs::{Name, Sub};
use std::alloc::{AllocError, Global};
use std::marker::Model;

/// Runs of subscripts below names, of which nothing in the globals shows through a transaction's own writes. A contract sees them as texts: at the
/// name with a run's first subscript stands its last.
#[derive(Drop)]
pub struct Skips {
    alloc: Global,
    // whether all runs are of one word
    one: bool,
    // a name of that word, where there is a run
    of: Option<Name>,
    runs: Texts,
}

impl Model for Skips {
    ghost use Rattle.std.specs.Prelude.{◌≡◌, true};
    ghost use Rattle.mj_store.specs.Questions.{Content};
    ghost use Rattle.mj_txlog.specs.Skips.{AreOf};

    ghost Value = { Content };

    ghost view = { λ s. s.runs };

    ghost invariant = { λ s. s.one ≡ true → AreOf s.of s.runs };
}

impl Skips {
    /// None.
    pub fn new(alloc: Global) -> Skips
        ensures { result ≡ [] }
    {
        Skips {
            alloc,
            one: false,
            of: None,
            runs: Texts::new(alloc),
        }
    }

    /// None, to which only those of one word are added.
    pub fn of_one_word(alloc: Global) -> Skips
        ensures { result ≡ [] }
    {
        Skips {
            alloc,
            one: true,
            of: None,
            runs: Texts::new(alloc),
        }
    }

    /// Whether all runs are below names of this name's word, where only those of one word are added.
    pub fn are_of(&self, name: &Name) -> bool
        ensures { result ≡ true → AreWithin name.now self.now }
    {
        self.one && is_of(&self.of, name)
    }

    /// Whether there may be a run, where only those of one word are added.
    pub fn may_be_any(&self) -> bool
        ensures { result ≡ false → self.now ≡ [] }
    {
        !self.one || self.of.is_some()
    }

    /// Forgets all runs.
    pub fn clear(&mut self)
        ensures { self.new ≡ [] }
    {
        if !self.may_be_any() {
            return;
        }
        self.runs = Texts::new(self.alloc);
        self.of = None;
    }

    // The far end of a run in which the subscript lies, below a name, if that is found.
    pub(crate) fn end_of(
        &self,
        front: &Name,
        sub: &Sub,
        way: Direction,
    ) -> Result<Option<Sub>, AllocError>
        ensures { IfOk result (λ found. IfSome found (λ far. IsFar self.now front.now sub.now way far)) }
    {
        let Some((first, last)) = self.run_of(front, sub)? else {
            return Ok(None);
        };
        Ok(Some(far_end(way, first, last)))
    }

    // Keeps what lies from the one subscript to the other, in collating order, as passed over, joined with the run in which the first of them lies, and with
    // one that begins up to the other. At want of memory a run may be lost, of which more will be passed over once more.
    pub(crate) fn join(&mut self, front: &Name, from: &Sub, to: &Sub) -> Result<(), AllocError>
        ensures { Joins self.old front.now from.now to.now self.new }
    {
        match self.run_of(front, from)? {
            Some((first, last)) => {
                let done = self.lengthen(front, &first, later(&last, to));
                drop(first); // for the proof
                drop(last); // for the proof
                done
            }
            None => self.lengthen(front, from, to),
        }
    }

    // Keeps a run from the one subscript to the other, joined with one that begins behind its first and not behind its last.
    fn lengthen(&mut self, front: &Name, first: &Sub, to: &Sub) -> Result<(), AllocError>
        ensures { Joins self.old front.now first.now to.now self.new }
    {
        let at = with_one(self.alloc, front, first)?;
        let done = match self.behind(&at, front, to) {
            Ok(found) => self.put_run(front, first, &at, found, to),
            Err(refused) => Err(refused),
        };
        drop(at); // for the proof
        done
    }

    // Keeps a run, where the name with its first subscript is at hand, and the run that it is joined with.
    fn put_run(
        &mut self,
        front: &Name,
        first: &Sub,
        at: &Name,
        found: Option<(Name, Sub)>,
        to: &Sub,
    ) -> Result<(), AllocError>
        requires at { at.now ≡ followed_by front.now (first.now ∷ []) }
        requires found { IfSome found (λ run. IsNextRun self.old front.now to.now run.0 run.1) }
        ensures { Joins self.old front.now first.now to.now self.new }
    {
        match found {
            Some((name, last)) => {
                self.forget(&name);
                drop(name); // for the proof
                let done = self.set(at, later(&last, to));
                drop(last); // for the proof
                done
            }
            None => self.set(at, to),
        }
    }

    // Forgets the runs that stand at a name and below it.
    pub(crate) fn forget(&mut self, name: &Name)
        ensures { self.new ≡ after_kill self.old name.now }
    {
        self.runs.kill(name);
    }

    // Keeps a run at a name, if it is one that is added.
    fn set(&mut self, at: &Name, last: &Sub) -> Result<(), AllocError>
        ensures { (self.new ≡ after_set self.old at.now last.now) ⊎ (self.new ≡ self.old) }
    {
        if self.one && !claim(&mut self.of, at)? {
            return Ok(());
        }
        self.runs.set(at, last.text())
    }

    // The run that begins next behind a name, if that isn't behind the subscript: the name at which it stands, and its last subscript.
    fn behind(&self, at: &Name, front: &Name, to: &Sub) -> Result<Option<(Name, Sub)>, AllocError>
        ensures { IfOk result (λ found. IfSome found (λ run. IsNextRun self.now front.now to.now run.0 run.1)) }
    {
        let Some(begin) = self.runs.order(at, Direction::Forward) else {
            return Ok(None);
        };
        if to < begin {
            return Ok(None);
        }
        let name = with_one(self.alloc, front, begin)?;
        match self.last_at(&name) {
            Ok(Some(last)) => Ok(Some((name, last))),
            Ok(None) => {
                drop(name); // for the proof
                Ok(None)
            }
            Err(refused) => {
                drop(name); // for the proof
                Err(refused)
            }
        }
    }

    // The run in which the subscript lies, if that is found: its first and its last subscript.
    fn run_of(&self, front: &Name, sub: &Sub) -> Result<Option<(Sub, Sub)>, AllocError>
        ensures { IfOk result (λ found. IfSome found (λ run. LiesInRun self.now front.now sub.now run.0 run.1)) }
    {
        let at = with_one(self.alloc, front, sub)?;
        let found = self.run_at(&at, front, sub);
        drop(at); // for the proof
        found
    }

    // The run in which the subscript lies, if that is found, where the name with the subscript is at hand.
    fn run_at(&self, at: &Name, front: &Name, sub: &Sub) -> Result<Option<(Sub, Sub)>, AllocError>
        requires { at.now ≡ followed_by front.now (sub.now ∷ []) }
        ensures { IfOk result (λ found. IfSome found (λ run. LiesInRun self.now front.now sub.now run.0 run.1)) }
    {
        if self.runs.value(at).is_some() {
            return self.run_from(front, sub, sub);
        }
        match self.runs.order(at, Direction::Backward) {
            None => Ok(None),
            Some(first) => self.run_from(front, first, sub),
        }
    }

    // The run that begins with the one subscript, if the other lies in it.
    fn run_from(
        &self,
        front: &Name,
        first: &Sub,
        sub: &Sub,
    ) -> Result<Option<(Sub, Sub)>, AllocError>
        ensures { IfOk result (λ found. IfSome found (λ run. LiesInRun self.now front.now sub.now run.0 run.1)) }
    {
        if sub < first {
            return Ok(None);
        }
        let name = with_one(self.alloc, front, first)?;
        let last = self.last_at(&name);
        drop(name); // for the proof
        let Some(last) = last? else {
            return Ok(None);
        };
        if last < *sub {
            drop(last); // for the proof
            return Ok(None);
        }
        match first.try_clone() {
            Ok(first) => Ok(Some((first, last))),
            Err(refused) => {
                drop(last); // for the proof
                Err(refused)
            }
        }
    }

    // The last subscript of the run that stands at a name, if one does.
    fn last_at(&self, name: &Name) -> Result<Option<Sub>, AllocError>
        ensures { IfOk result (λ last. last ≡ value_at self.now name.now) }
    {
        match self.runs.value(name) {
            None => Ok(None),
            Some(text) => Ok(Some(Sub::from_text(text.try_clone()?))),
        }
    }
}

// Whether a name is of that word, or there is no word yet.
fn is_of(of: &Option<Name>, name: &Name) -> bool
    ensures { result ≡ true → (runs : Content) → AreOf of.now runs → AreWithin name.now runs }
{
    match of {
        None => true,
        Some(one) => is_same_word(one, name),
    }
}

// Whether a name is of that word, which is its own where there is none yet.
#[tactic(auto, using(crate::proofs::Only::first_of_word, crate::proofs::Only::set_within))]
fn claim(of: &mut Option<Name>, at: &Name) -> Result<bool, AllocError>
    ensures of { IfOk result (λ is. is ≡ true → (runs : Content) (last : List ℕ) → AreOf of.old runs → AreOf of.new (after_set runs at.now last)) }
    ensures kept { (runs : Content) → AreOf of.old runs → AreOf of.new runs }
{
    match of {
        None => {
            *of = Some(at.try_clone()?);
            Ok(true)
        }
        Some(one) => Ok(is_same_word(one, at)),
    }
}

// Whether the names are of one kind and word.
fn is_same_word(one: &Name, other: &Name) -> bool
    ensures { result ≡ true → same_word one.now other.now ≡ true }
{
    one.is_global() == other.is_global() && one.word() == other.word()
}

// The far end of a run.
fn far_end(way: Direction, first: Sub, last: Sub) -> Sub
    ensures { result ≡ far_end way first last }
{
    match way {
        Direction::Forward => {
            drop(first); // for the proof
            last
        }
        Direction::Backward => {
            drop(last); // for the proof
            first
        }
    }
}

// The later one of two subscripts.
fn later<'a>(one: &'a Sub, other: &'a Sub) -> &'a Sub
    ensures { result.now ≡ later_of one.now other.now }
{
    if other < one { one } else { other }
}
