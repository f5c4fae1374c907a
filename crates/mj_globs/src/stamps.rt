// The stamps of words.
//
// A word gets its stamp when one of its globals is first given a text, and keeps it from then on.

ghost use Rattle.std.specs.Prelude.{◌≡◌, ◌≤◌, ◌<◌, [], IfOk, OnOk, OnErr};
ghost use Rattle.std.specs.BTreeMap.{insert_entry};
ghost use Rattle.std.specs.Ordering.{nat_cmp};
ghost use Rattle.std.specs.Cmp.Lexicographic.{slice_cmp};
ghost use Rattle.mj_globs.specs.Stamps.{stamp_limit, stamp_of, IsRaised};

use mj_text::{Digits, Text};
use std::alloc::{AllocError, Global};
use std::collections::BTreeMap;
use std::marker::Model;

/// Words with their stamps.
#[derive(Drop)]
pub struct Stamps {
    alloc: Global,
    words: BTreeMap<Vec<u8>, u64>,
}

impl Model for Stamps {
    ghost use Rattle.mj_globs.specs.Stamps.{Stamps as Stamped};
    ghost use Rattle.mj_globs.specs.Words.{spelled};

    ghost Value = { Stamped };

    ghost view = { λ s. spelled s.words.entries };
}

impl Stamps {
    /// No word has one.
    pub fn new(alloc: Global) -> Stamps
        ensures { result ≡ [] }
    {
        Stamps {
            alloc,
            words: BTreeMap::new(alloc),
        }
    }

    /// A copy.
    pub fn try_clone(&self) -> Result<Stamps, AllocError>
        ensures { IfOk result (λ stamps. stamps ≡ self.now) }
    {
        let words = self.words.clone()?;
        Ok(Stamps {
            alloc: self.alloc,
            words,
        })
    }

    /// The stamp of a word, 0 as long as it has none.
    pub fn of(&self, word: &Text) -> u64
        ensures { result ≡ stamp_of self.now word.now }
    {
        let mut digits = Digits::new();
        match self.words.get(word.bytes(&mut digits)) {
            Some(stamp) => *stamp,
            None => 0,
        }
    }

    /// The stamp of a word rises, if it has one.
    pub fn raise(&mut self, word: &Text)
        ensures { IsRaised word.now self.old self.new }
    {
        let mut digits = Digits::new();
        let Some(stamp) = self.words.get_mut(word.bytes(&mut digits)) else {
            return;
        };
        *stamp = after(*stamp);
    }

    /// The stamp of a word rises. One that has none gets it.
    pub fn count(&mut self, word: &Text) -> Result<(), AllocError>
        ensures raised { IsRaised word.now self.old self.new }
        ensures counted { OnOk result (stamp_of self.old word.now < stamp_limit → stamp_of self.old word.now < stamp_of self.new word.now) }
    {
        let mut digits = Digits::new();
        let key = word.bytes(&mut digits);
        match self.words.get_mut(key) {
            Some(stamp) => {
                *stamp = after(*stamp);
                Ok(())
            }
            None => self.add(key),
        }
    }

    // A word that has no stamp gets its first one.
    fn add(&mut self, word: &[u8]) -> Result<(), AllocError>
        ensures ok { OnOk result (self.new ≡ insert_entry (slice_cmp nat_cmp) self.old word.now 1) }
        ensures err { OnErr result (self.new ≡ self.old) }
    {
        self.words.insert(Vec::from_slice(self.alloc, word)?, 1)?;
        Ok(())
    }
}

// The stamp after this one. The greatest stays.
fn after(stamp: u64) -> u64
    ensures up { stamp ≤ result }
    ensures further { stamp < stamp_limit → stamp < result }
{
    stamp.saturating_add(1)
}
