// Which place each word has.
//
// Most locals have names of one letter. The place of such a word is told by the letter, with no word compared.

ghost use Rattle.std.specs.Prelude.{◌≡◌, [], ◌∷◌, IfSome, None, Some, OnOk, OnErr, ℕ, get_or};
ghost use Rattle.std.specs.BTreeMap.{insert_entry};
ghost use Rattle.std.specs.Ordering.{nat_cmp};
ghost use Rattle.std.specs.Cmp.Lexicographic.{slice_cmp};
ghost use Rattle.mj_locals.specs.Letters.{place_in, IsLeading};

use std::alloc::{AllocError, Global};
use std::collections::BTreeMap;
use std::marker::Model;

// How many letters there are: as many as a byte has values.
const LETTERS: usize = 256;

/// Words, each with its place.
#[derive(Drop)]
pub struct Index {
    words: BTreeMap<Vec<u8>, usize>,
    // by each letter one more than the place of the word that it is, or 0 where none is known
    letters: [u16; LETTERS],
}

impl Model for Index {
    ghost use Rattle.std.specs.Prelude.{List, ℕ, Vec};
    ghost use Rattle.std.specs.Global.{Global};
    ghost use Rattle.mj_locals.specs.Letters.{AreLed};

    ghost Value = { List (Vec ℕ Global × ℕ) };

    ghost view = { λ p. p.words.entries };

    ghost invariant = { λ p. AreLed p.letters p.words.entries };
}

impl Index {
    /// No word.
    pub fn new(alloc: Global) -> Index
        ensures { result ≡ [] }
    {
        Index {
            words: BTreeMap::new(alloc),
            letters: no_letters(),
        }
    }

    /// The place of a word of one letter, where it is at hand. `None` says nothing.
    #[inline(always)]
    pub fn of_letter(&self, letter: u8) -> Option<usize>
        ensures { IfSome result (λ p. place_in (letter ∷ []) self.now ≡ Some p) }
    {
        let next = usize::from(self.letters[usize::from(letter)]);
        if next == 0 {
            return None;
        }
        Some(next - 1)
    }

    /// The place of a word.
    pub fn of(&self, word: &[u8]) -> Option<usize>
        ensures { result ≡ place_in word.now self.now }
    {
        self.words.get(word).copied()
    }

    /// A word that has none gets a place.
    pub fn add(&mut self, word: Vec<u8>, place: usize) -> Result<(), AllocError>
        requires { place_in word.items self.old ≡ None }
        ensures ok { OnOk result (self.new ≡ insert_entry (λ x y. slice_cmp nat_cmp x.items y.items) self.old word place) }
        ensures err { OnErr result (self.new ≡ self.old) }
    {
        let letter = only_letter(word.as_slice());
        self.words.insert(word, place)?;
        if let Some(letter) = letter {
            lead(&mut self.letters, letter, place);
        }
        Ok(())
    }
}

// No letter leads to a place.
fn no_letters() -> [u16; LETTERS]
    ensures { (letter : ℕ) → get_or result letter 0 ≡ 0 }
{
    [0; LETTERS]
}

// The letter of a word that has one.
fn only_letter(word: &[u8]) -> Option<u8>
    ensures { IfSome result (λ letter. word.now ≡ letter ∷ []) }
{
    match word {
        [only] => Some(*only),
        _ => None,
    }
}

// A letter leads to a place, where the place is small enough.
fn lead(letters: &mut [u16; LETTERS], letter: u8, place: usize)
    ensures { IsLeading letter place letters.old letters.new }
{
    if place < usize::from(u16::MAX) {
        letters[usize::from(letter)] = place as u16 + 1;
    }
}
