// A subscript.

ghost use Rattle.std.specs.Prelude.{◌≡◌, ◌↔◌, [], true, false, IsTrue, IfOk, MatchOption};
ghost use Rattle.mj_num.specs.Number.{number_of, is_canonic};
ghost use Rattle.mj_text.specs.Limit.{is_within};
ghost use Rattle.mj_subs.specs.Tag.{IsTag};

use mj_num::{Num, is_canonic as is_canonic_text};
use mj_text::{Digits, Limit, Text};
use std::alloc::{AllocError, Global};
use std::cmp::Ordering;
use std::default::MadeWith;
use std::marker::Model;

/// A subscript: a text that is tagged with its number where it is canonic, so that two compare without being read.
#[derive(Debug, Drop)]
pub struct Sub {
    text: Text,
    number: Option<Num>,
}

impl Model for Sub {
    ghost use Rattle.std.specs.Prelude.{List, ℕ};
    ghost use Rattle.mj_subs.specs.Tag.{IsTag};

    ghost Value = { List ℕ };

    ghost view = { λ s. s.text };

    ghost invariant = { λ s. IsTag s.text s.number };
}

impl Sub {
    /// The subscript of this text.
    pub fn from_text(text: Text) -> Sub
        ensures { result ≡ text }
    {
        let number = tag(&text);
        Sub { text, number }
    }

    /// Its text.
    pub fn text(&self) -> &Text
        ensures { result.now ≡ self.now }
    {
        &self.text
    }

    /// Its text, for keeps.
    pub fn to_text(self) -> Text
        ensures { result ≡ self }
    {
        let Sub { text, number: _ } = self;
        text
    }

    /// Its bytes, in order. Those of a number are spelled into `digits`.
    pub fn bytes<'a>(&'a self, digits: &'a mut Digits) -> &'a [u8]
        ensures { result.now ≡ self.now }
    {
        self.text.bytes(digits)
    }

    /// Whether it has no byte.
    pub fn is_empty(&self) -> bool
        ensures { IsTrue result ↔ (self.now ≡ []) }
    {
        self.text.is_empty()
    }

    /// Whether its text is one of this limit.
    pub fn is_within(&self, limit: Limit) -> bool
        ensures { result ≡ is_within limit self.now }
    {
        self.text.is_within(limit)
    }

    /// Its number, where it is a canonic text.
    pub fn number(&self) -> Option<Num>
        ensures { MatchOption result (is_canonic self.now ≡ false)
            (λ n. (is_canonic self.now ≡ true) × (n ≡ number_of self.now)) }
    {
        self.number
    }

    /// A copy.
    pub fn try_clone(&self) -> Result<Sub, AllocError>
        ensures { IfOk result (λ s. s ≡ self.now) }
    {
        Ok(Sub {
            text: self.text.try_clone()?,
            number: self.number,
        })
    }
}

impl Clone for Sub {
    ghost is_clone = { λ s copy. copy ≡ s };

    fn clone(&self) -> Result<Sub, AllocError> {
        self.try_clone()
    }
}

impl PartialEq for Sub {
    ghost use Rattle.std.specs.Prelude.{◌≡◌, ◌↔◌, IsTrue};
    ghost use Rattle.std.specs.Str.{bytes_eq};
    ghost use Rattle.std.specs.Cmp.{partial_equiv_from_equiv};
    ghost use Rattle.std.specs.Cmp.Lexicographic.{nat_list_eq_equiv};

    ghost eq = { bytes_eq };

    ghost laws = { partial_equiv_from_equiv nat_list_eq_equiv };

    fn eq(&self, other: &Sub) -> bool
        ensures value { result ≡ bytes_eq self.now other.now }
        ensures same { IsTrue result ↔ (self.now ≡ other.now) }
    {
        match (self.number, other.number) {
            (Some(number), Some(other)) => number == other,
            (None, None) => self.text == other.text,
            _ => false,
        }
    }
}

impl Eq for Sub {
    ghost use Rattle.std.specs.Cmp.Lexicographic.{nat_list_eq_equiv};

    ghost laws = { nat_list_eq_equiv };
}

impl PartialOrd for Sub {
    ghost use Rattle.std.specs.Cmp.{po};
    ghost use Rattle.std.specs.Ordering.{as_partial_cmp};
    ghost use Rattle.mj_subs.specs.Collation.{subscript_cmp};
    ghost use Rattle.mj_subs.specs.Laws.Total.{subscript_cmp_total};
    ghost use Rattle.mj_subs.specs.Laws.Ties.{bytes_eq-subscript_cmp};

    ghost partial_cmp = { as_partial_cmp subscript_cmp };

    ghost laws = { po subscript_cmp_total bytes_eq-subscript_cmp };

    fn partial_cmp(&self, other: &Sub) -> Option<Ordering> {
        Some(self.cmp(other))
    }
}

impl Ord for Sub {
    ghost use Rattle.std.proofs.Common.{refl};
    ghost use Rattle.mj_subs.specs.Collation.{subscript_cmp};
    ghost use Rattle.mj_subs.specs.Laws.Total.{subscript_cmp_total};
    ghost use Rattle.mj_subs.specs.Laws.Ties.{bytes_eq-subscript_cmp};

    ghost cmp = { subscript_cmp };

    ghost total = { subscript_cmp_total };

    ghost matches_partial_cmp = { λ _ _. refl };

    ghost matches_eq = { bytes_eq-subscript_cmp };

    fn cmp(&self, other: &Sub) -> Ordering {
        match (self.number, other.number) {
            (Some(number), Some(other)) => number.cmp(&other),
            (Some(_), None) if other.is_empty() => Ordering::Greater,
            (Some(_), None) => Ordering::Less,
            (None, Some(_)) if self.is_empty() => Ordering::Less,
            (None, Some(_)) => Ordering::Greater,
            (None, None) => self.text.cmp_bytes(&other.text),
        }
    }
}

// The number of a canonic text.
fn tag(text: &Text) -> Option<Num>
    ensures { IsTag text.now result }
{
    if is_canonic_text(text) {
        Num::read(text).ok()
    } else {
        None
    }
}

impl MadeWith<Global> for Sub {
    ghost is_made_with = { λ s. s ≡ [] };

    fn made_with(alloc: Global) -> Sub {
        // The empty text is no number.
        Sub {
            text: Text::new(alloc),
            number: None,
        }
    }
}
