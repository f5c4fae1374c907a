// A list of subscripts.

ghost use Rattle.std.specs.Prelude.{◌≡◌, ◌<◌, ◌≤◌, ◌↔◌, [], ◌∷◌, ◌++◌, length, IsTrue, IsSome, IsOkUnless, IfOk, OnOk, OnErr, slice_get};
ghost use Rattle.std.specs.Slice.Iter.{iter_rest};
ghost use Rattle.std.specs.Iterator.Adapters.{IterYieldsInOrder};
ghost use Rattle.std.specs.Option.{option_copied, option_to_list};
ghost use Rattle.mj_text.specs.declared.fault.Failure.TheVariants as failure;
ghost use Rattle.mj_text.specs.declared.fault.Fault.TheVariants as fault;
ghost use Rattle.mj_text.specs.Limit.{are_within};
ghost use Rattle.mj_subs.specs.Name.{is_proper_front, are_in_line};

use crate::sub::Sub;
use mj_text::{Failure, Fault, Limit};
use smallvec::SmallVec;
use std::alloc::{AllocError, Global};
use std::cmp::Ordering;
use std::marker::Model;
use std::slice;

/// The greatest number of subscripts of a name.
pub const SUBSCRIPTS_LIMIT: usize = 31;

/// A list of at most [`SUBSCRIPTS_LIMIT`] subscripts. One takes no memory beside its own.
#[derive(Debug, Drop)]
pub struct Subs {
    kept: SmallVec<Sub, 1>,
}

impl Model for Subs {
    ghost use Rattle.std.specs.Prelude.{List, ℕ, ◌≤◌, length};
    ghost use Rattle.mj_subs.specs.declared.subs.TheConstants.{SUBSCRIPTS_LIMIT};

    ghost Value = { List (List ℕ) };

    ghost view = { λ s. s.kept.items };

    ghost invariant = { λ s. length s.kept.items ≤ SUBSCRIPTS_LIMIT };
}

impl Subs {
    /// The list without a subscript.
    pub fn new(alloc: Global) -> Subs
        ensures { result ≡ [] }
    {
        Subs {
            kept: SmallVec::new(alloc),
        }
    }

    /// Puts a subscript at the end. One too many is `Limit`.
    pub fn push(&mut self, sub: Sub) -> Result<(), Failure>
        ensures ok { OnOk result (self.new ≡ self.old ++ sub ∷ []) }
        ensures full { (result ≡ Err (failure.Fault fault.Limit)) ↔ (length self.old ≡ SUBSCRIPTS_LIMIT) }
        ensures within { length self.old < SUBSCRIPTS_LIMIT → IsOkUnless result failure.Memory }
        ensures err { OnErr result (self.new ≡ self.old) }
    {
        if self.len() == SUBSCRIPTS_LIMIT {
            return Err(Failure::Fault(Fault::Limit));
        }
        match self.kept.push(sub) {
            Ok(()) => Ok(()),
            Err(_) => Err(Failure::Memory),
        }
    }

    /// Takes the last subscript away, if there is one.
    pub fn pop(&mut self) -> Option<Sub>
        ensures items { self.old ≡ self.new ++ option_to_list result }
        ensures variant { IsSome result ↔ (0 < length self.old) }
    {
        self.kept.pop()
    }

    /// How many subscripts it has.
    pub fn len(&self) -> usize
        ensures value { result ≡ length self.now }
        ensures limit { result ≤ SUBSCRIPTS_LIMIT }
    {
        self.kept.len()
    }

    /// Whether it has no subscript.
    pub fn is_empty(&self) -> bool
        ensures { IsTrue result ↔ (self.now ≡ []) }
    {
        self.kept.is_empty()
    }

    /// The subscript at a place, from 0.
    pub fn get(&self, place: usize) -> Option<&Sub>
        ensures { option_copied result ≡ slice_get self.now place }
    {
        self.as_slice().get(place)
    }

    /// The subscripts, in order.
    pub fn as_slice(&self) -> &[Sub]
        ensures value { result.now ≡ self.now }
        ensures limit { length result.now ≤ SUBSCRIPTS_LIMIT }
    {
        self.kept.as_slice()
    }

    /// Whether the text of each is one of this limit.
    pub fn are_within(&self, limit: Limit) -> bool
        ensures { result ≡ are_within limit self.now }
    {
        self.as_slice().iter().all(|sub| sub.is_within(limit))
    }

    /// The subscripts, one after the other.
    pub fn iter(&self) -> slice::Iter<'_, Sub>
        ensures rest { iter_rest result ≡ self.now }
        ensures runs { IterYieldsInOrder Sub }
    {
        self.as_slice().iter()
    }

    /// Whether the list is a proper front of the other.
    pub fn is_front_of(&self, other: &Subs) -> bool
        ensures { result ≡ is_proper_front self.now other.now }
    {
        self.len() < other.len() && other.as_slice().starts_with(self.as_slice())
    }

    /// Whether the lists are equal, or one is a front of the other.
    pub fn is_in_line_with(&self, other: &Subs) -> bool
        ensures { result ≡ are_in_line self.now other.now }
    {
        let common = self.len().min(other.len());
        self.as_slice()[..common] == other.as_slice()[..common]
    }

    /// A copy.
    pub fn try_clone(&self) -> Result<Subs, AllocError>
        ensures { IfOk result (λ s. s ≡ self.now) }
    {
        let mut kept = SmallVec::with_capacity(*self.kept.allocator(), self.len())?;
        for sub in self.as_slice() {
            kept.push(sub.try_clone()?)?;
        }
        Ok(Subs { kept })
    }
}

impl Clone for Subs {
    ghost is_clone = { λ s copy. copy ≡ s };

    fn clone(&self) -> Result<Subs, AllocError> {
        self.try_clone()
    }
}

impl PartialEq for Subs {
    ghost use Rattle.std.specs.Prelude.{◌≡◌, ◌↔◌, IsTrue};
    ghost use Rattle.std.specs.Str.{bytes_eq};
    ghost use Rattle.std.specs.Cmp.{partial_equiv_from_equiv};
    ghost use Rattle.std.specs.Cmp.Lexicographic.{pointwise, lists_equiv, nat_list_eq_equiv};

    ghost eq = { pointwise bytes_eq };

    ghost laws = { partial_equiv_from_equiv (lists_equiv nat_list_eq_equiv) };

    fn eq(&self, other: &Subs) -> bool
        ensures value { result ≡ pointwise bytes_eq self.now other.now }
        ensures same { IsTrue result ↔ (self.now ≡ other.now) }
    {
        self.as_slice() == other.as_slice()
    }
}

impl Eq for Subs {
    ghost use Rattle.std.specs.Cmp.Lexicographic.{lists_equiv, nat_list_eq_equiv};

    ghost laws = { lists_equiv nat_list_eq_equiv };
}

impl PartialOrd for Subs {
    ghost use Rattle.std.specs.Cmp.{po};
    ghost use Rattle.std.specs.Ordering.{as_partial_cmp};
    ghost use Rattle.mj_subs.specs.Collation.{subscripts_cmp};
    ghost use Rattle.mj_subs.specs.Laws.Total.{subscripts_cmp_total};
    ghost use Rattle.mj_subs.specs.Laws.Ties.{lists_eq-subscripts_cmp};

    ghost partial_cmp = { as_partial_cmp subscripts_cmp };

    ghost laws = { po subscripts_cmp_total lists_eq-subscripts_cmp };

    fn partial_cmp(&self, other: &Subs) -> Option<Ordering> {
        Some(self.cmp(other))
    }
}

impl Ord for Subs {
    ghost use Rattle.std.proofs.Common.{refl};
    ghost use Rattle.mj_subs.specs.Collation.{subscripts_cmp};
    ghost use Rattle.mj_subs.specs.Laws.Total.{subscripts_cmp_total};
    ghost use Rattle.mj_subs.specs.Laws.Ties.{lists_eq-subscripts_cmp};

    ghost cmp = { subscripts_cmp };

    ghost total = { subscripts_cmp_total };

    ghost matches_partial_cmp = { λ _ _. refl };

    ghost matches_eq = { lists_eq-subscripts_cmp };

    fn cmp(&self, other: &Subs) -> Ordering {
        self.as_slice().cmp(other.as_slice())
    }
}
