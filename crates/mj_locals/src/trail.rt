// What NEWs saved, one after the other.
//
// All that was saved lies in one list, each tree with the place of its word, and a NEW is a mark in it: so a NEW of words takes memory only
// where the list grows.

ghost use Rattle.std.specs.Prelude.{◌≡◌, ◌<◌, ◌++◌, [], ◌∷◌, length, option_to_list, slice_index_or, OnOk, OnErr, IfNone};
ghost use Rattle.std.specs.Option.{option_map};
ghost use Rattle.mj_locals.specs.Groups.{newest, spared_by, rest, with_new_group, saved, reduced, AreSorted};
ghost use Rattle.mj_locals.specs.Trees.{at, placed, word_at};

use crate::table::Table;
use mj_text::Text;
use mj_tree::Tree;
use std::alloc::{AllocError, Global};
use std::marker::Model;

/// What NEWs saved: a group for each.
#[derive(Drop)]
pub struct Trail {
    // the newest last
    pairs: Vec<Pair>,
    // the newest last
    marks: Vec<NewMark>,
}

// The place of a word, and its tree.
type Pair = (usize, Tree);

// A NEW.
#[derive(Drop)]
struct NewMark {
    // where its pairs begin
    start: usize,
    // the words that it doesn't cover, where it covers all others
    kept: Option<Vec<Text>>,
}

impl Model for Trail {
    ghost use Rattle.std.specs.Prelude.{List};
    ghost use Rattle.mj_locals.specs.Groups.{Group};

    ghost Value = { List Group };

    ghost use Rattle.mj_locals.specs.Marks.{groups_of, AreMarked};

    ghost view = { groups_of };

    ghost invariant = { AreMarked };
}

impl Trail {
    /// Nothing is saved.
    pub fn new(alloc: Global) -> Trail
        ensures { result ≡ [] }
    {
        Trail {
            pairs: Vec::new(alloc),
            marks: Vec::new(alloc),
        }
    }

    /// In each tree the subscripts rise.
    pub fn rises(&self)
        ensures { AreSorted self.now }
    {
        let _pairs = &self.pairs; // for the proof
    }

    /// How many groups there are.
    pub fn height(&self) -> usize
        ensures { result ≡ length self.now }
    {
        self.marks.len()
    }

    /// A group begins, which spares some words or none.
    pub fn begin(&mut self, kept: Option<Vec<Text>>) -> Result<(), AllocError>
        ensures ok { OnOk result (self.new ≡ with_new_group (option_map (λ v. v.items) kept) self.old) }
        ensures err { OnErr result (self.new ≡ self.old) }
    {
        let start = self.pairs.len();
        self.marks.push(NewMark { start, kept })?;
        Ok(())
    }

    /// The tree of a place comes into the newest group, and the place has none any more. It takes memory only where the list grows, and room is
    /// made first, so that the tree is moved once and need not come back.
    pub fn hide(&mut self, table: &mut Table, alloc: Global, place: usize) -> Result<(), AllocError>
        requires { place < length table.old }
        ensures ok { OnOk result (self.new ≡ saved (place, at table.old (word_at table.old place)) self.old) }
        ensures table { OnOk result (table.new ≡ placed table.old (word_at table.old place) []) }
        ensures err { OnErr result (self.new ≡ self.old) }
        ensures table_err { OnErr result (table.new ≡ table.old) }
    {
        self.pairs.reserve(1)?;
        let tree = table.exchange(place, Tree::new(alloc));
        tree.rises();
        self.pairs.push_reserved((place, tree));
        Ok(())
    }

    /// How many trees the newest group has.
    pub fn len(&self) -> usize
        ensures { result ≡ length (newest self.now) }
    {
        match self.marks.last() {
            None => 0,
            Some(mark) => self.pairs.len() - mark.start,
        }
    }

    /// The place that the newest group has at an index.
    pub fn place(&self, index: usize) -> usize
        requires { index < length (newest self.now) }
        ensures { result ≡ (slice_index_or (newest self.now) index (0, [])).0 }
    {
        match self.marks.last() {
            None => 0,
            Some(mark) => self.pairs[mark.start + index].0,
        }
    }

    /// The words that the newest group spares.
    pub fn kept(&self) -> Option<&[Text]>
        ensures { option_map (λ r. r.now) result ≡ spared_by self.now }
    {
        match self.marks.last()?.kept.as_ref() {
            None => None,
            Some(words) => Some(words.as_slice()),
        }
    }

    /// The tree that came last into the newest group goes out of it.
    pub fn pop(&mut self) -> Option<Pair>
        ensures pairs { newest self.old ≡ newest self.new ++ option_to_list result }
        ensures rest { self.new ≡ reduced (newest self.new) self.old }
        ensures none { IfNone result (newest self.old ≡ []) }
    {
        if self.len() == 0 {
            return None;
        }
        self.pairs.pop()
    }

    /// The newest group ends, which is empty.
    pub fn end(&mut self)
        requires { newest self.old ≡ [] }
        ensures { self.new ≡ rest self.old }
    {
        let _mark = self.marks.pop();
    }
}
