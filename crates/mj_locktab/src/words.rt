// The words of one kind of which a name was ever held, each with the tree of its names that are held now.

ghost use Rattle.std.specs.Prelude.{◌≡◌, ℕ, ◌+◌, ◌-◌, ◌^◌, min, ◌<◌, ◌≤◌, List, length, Some, option_copied, IfOk, OnOk, OnErr, MatchOption};
ghost use Rattle.std.specs.Map.{lookup};
ghost use Rattle.std.specs.BTreeMap.{is_at};
ghost use Rattle.mj_locktab.specs.declared.held.TheConstants.{HOLDS_LIMIT};
ghost use Rattle.mj_locktab.specs.Trees.{word_cmp, spelled, kid_at, at_words, is_place_of, is_place_above, tally_of, is_in_way};
ghost use Rattle.mj_locktab.specs.Trees.{AreAlike, HasOneMore, HasOneLess, IsWritten, NoOther, IsLeastOther};

use crate::node::{Node, chain};
use mj_subs::Name;
use mj_text::{Digits, Text};
use std::alloc::{AllocError, Global};
use std::collections::BTreeMap;

/// Words by their bytes.
pub type Words = BTreeMap<Vec<u8>, Node>;

/// The lowest other job that has a name in the way of this one. It looks at no more nodes than one and the name's subscripts.
pub fn least_other(words: &Words, job: u32, name: &Name, visits: &mut u64) -> Option<u32>
    ensures least { MatchOption result (NoOther (is_in_way (λ p. kid_at word_cmp (spelled words.now.entries) name.now.word p) name.now.subscripts) job)
        (IsLeastOther (is_in_way (λ p. kid_at word_cmp (spelled words.now.entries) name.now.word p) name.now.subscripts) job) }
    ensures visits { visits.new ≤ visits.old + 1 + length name.now.subscripts }
    ensures looked { min (visits.old + 1) (2 ^ 64 - 1) ≤ visits.new }
{
    match enter(words, name.word(), visits) {
        None => None,
        Some(node) => node.least_other(job, name.subscripts().as_slice(), visits),
    }
}

// The node of a word. It is the only way in, and counts one node more that is looked at.
fn enter<'a>(words: &'a Words, word: &Text, visits: &mut u64) -> Option<&'a Node>
    ensures node { option_copied result ≡ lookup (is_at (word_cmp word.now)) (spelled words.now.entries) }
    ensures visits { visits.new ≡ min (visits.old + 1) (2 ^ 64 - 1) }
{
    *visits = visits.saturating_add(1);
    let mut digits = Digits::new();
    words.get(word.bytes(&mut digits))
}

/// Has the job hold a name of these words, which it didn't hold.
pub fn mark(words: &mut Words, alloc: Global, job: u32, name: &Name) -> Result<(), AllocError>
    requires { (p : List (List ℕ)) → tally_of (kid_at word_cmp (spelled words.old.entries) name.now.word p) job < HOLDS_LIMIT }
    ensures ok { OnOk result
        (HasOneMore (at_words (spelled words.old.entries)) (at_words (spelled words.new.entries)) (is_place_of name.now) (is_place_above name.now) job) }
    ensures err { OnErr result (AreAlike (at_words (spelled words.old.entries)) (at_words (spelled words.new.entries))) }
{
    let mut digits = Digits::new();
    let key = name.word().bytes(&mut digits);
    match words.get_mut(key) {
        Some(node) => node.mark(job, name.subscripts().as_slice()),
        None => {
            let node = chain(alloc, job, name.subscripts().as_slice())?;
            put(words, alloc, key, node)
        }
    }
}

/// Has the job hold a name of these words no more. The word's own node stays, bare or not, for the next name of that word: a program has few words, and
/// takes names of the same words, and gives them up, again and again.
pub fn unmark(words: &mut Words, job: u32, name: &Name)
    ensures { HasOneLess (at_words (spelled words.old.entries)) (at_words (spelled words.new.entries)) (is_place_of name.now) (is_place_above name.now) job }
{
    let mut digits = Digits::new();
    let Some(node) = words.get_mut(name.word().bytes(&mut digits)) else {
        return;
    };
    node.unmark(job, name.subscripts().as_slice());
}

// Puts the tree of a word.
fn put(words: &mut Words, alloc: Global, word: &[u8], node: Node) -> Result<(), AllocError>
    ensures ok { OnOk result (IsWritten word_cmp (spelled words.old.entries) (spelled words.new.entries) word.now (Some node)) }
    ensures err { OnErr result (words.new.entries ≡ words.old.entries) }
{
    words.insert(Vec::from_slice(alloc, word)?, node)?;
    Ok(())
}

/// A copy.
pub fn copy(words: &Words) -> Result<Words, AllocError>
    ensures { IfOk result (λ copy. spelled copy.entries ≡ spelled words.now.entries) }
{
    let copy = words.clone()?;
    Ok(copy)
}
