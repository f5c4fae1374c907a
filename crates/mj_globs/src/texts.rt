// The texts of a store: a tree for each word.

ghost use Rattle.std.specs.Prelude.{◌≡◌, [], List, ℕ, option_copied, IfOk, IfErr, OnOk};
ghost use Rattle.std.specs.FinMap.{find};
ghost use Rattle.std.specs.List.{list_all};
ghost use Rattle.std.specs.Cmp.Lexicographic.{slice_cmp};
ghost use Rattle.mj_subs.specs.Collation.{subscript_cmp, name_cmp};
ghost use Rattle.mj_store.specs.Nodes.{subtree};
ghost use Rattle.mj_store.specs.Questions.{with_subscripts, value_at, subtree_at};
ghost use Rattle.mj_tree.specs.Nest.{nodes_of};
ghost use Rattle.mj_tree.specs.Undo.{restored};
ghost use Rattle.mj_tree.specs.Walks.{StopsSo};
ghost use Rattle.mj_globs.specs.Within.{is_entry_within};

use crate::words::{self, Words};
use mj_store::{Direction, Nodes, Store};
use mj_subs::{Name, Sub, Subs};
use mj_text::{Failure, Limit, Text};
use mj_tree::{Sink, SinkStop, Tree};
use std::alloc::{AllocError, Global};
use std::collections::BTreeMap;
use std::marker::Model;

/// The texts of all words, in a tree for each word. A contract sees the names in their order, each with its text.
#[derive(Drop)]
pub struct Texts {
    alloc: Global,
    globals: Words,
    locals: Words,
}

impl Model for Texts {
    ghost use Rattle.std.specs.Prelude.{T, []};
    ghost use Rattle.std.specs.FinMap.{is_sorted};
    ghost use Rattle.std.specs.Ordering.{nat_cmp};
    ghost use Rattle.std.specs.Cmp.Lexicographic.{slice_cmp};
    ghost use Rattle.mj_subs.specs.Collation.{name_cmp};
    ghost use Rattle.mj_store.specs.Questions.{Content};
    ghost use Rattle.mj_globs.specs.Words.{spelled, of_both, AreRising};

    ghost Value = { Content };

    ghost view = { λ a. of_both (spelled a.globals.entries) (spelled a.locals.entries) };

    ghost invariant = { λ a. AreRising (spelled a.globals.entries) (spelled a.locals.entries) };
}

impl Texts {
    /// A store without a name.
    pub fn new(alloc: Global) -> Texts
        ensures { result ≡ [] }
    {
        Texts {
            alloc,
            globals: BTreeMap::new(alloc),
            locals: BTreeMap::new(alloc),
        }
    }

    /// Where its memory comes from.
    pub fn allocator(&self) -> Global {
        self.alloc
    }

    /// A copy.
    pub fn try_clone(&self) -> Result<Texts, AllocError>
        ensures { IfOk result (λ g. g ≡ self.now) }
    {
        Ok(Texts {
            alloc: self.alloc,
            globals: words::copy(&self.globals)?,
            locals: words::copy(&self.locals)?,
        })
    }

    /// Its names in their order, each with its text.
    pub fn nodes(&self) -> Result<Vec<(Name, Text)>, AllocError>
        ensures { IfOk result (λ nodes. nodes.items ≡ self.now) }
    {
        let mut nodes = Vec::new(self.alloc);
        words::gather(&self.globals, self.alloc, true, &mut nodes)?;
        words::gather(&self.locals, self.alloc, false, &mut nodes)?;
        Ok(nodes)
    }

    /// Has a sink take its names in their order, each with its text. What the sink keeps is all the memory that it takes, but for the subscripts of one
    /// name. It is told that the sink closed only where that did, behind what was walked until then.
    pub fn walk<S: Sink>(&self, sink: &mut S) -> Result<(), SinkStop>
        ensures taken { OnOk result (S.takes sink.old self.now sink.new) }
        ensures closed { IfErr result (StopsSo S.closes sink.old self.now sink.new) }
    {
        words::walk(&self.globals, true, sink)?;
        words::walk(&self.locals, false, sink)
    }

    /// Whether each of its subscripts and of its texts is one of this limit.
    pub fn are_within(&self, limit: Limit) -> bool
        ensures { result ≡ list_all (is_entry_within limit) self.now }
    {
        words::are_within(&self.globals, limit) && words::are_within(&self.locals, limit)
    }

    /// Gives a text in place of its own to a name that has one, or takes it. Nothing changes at a name without one.
    pub fn restore(&mut self, name: &Name, text: Option<Text>)
        ensures { self.new ≡ restored name_cmp name.now text self.old }
    {
        if name.is_global() {
            words::restore(&mut self.globals, name.word(), name.subscripts(), text);
            return;
        }
        words::restore(&mut self.locals, name.word(), name.subscripts(), text);
    }

    // The tree of a name's word.
    fn tree(&self, name: &Name) -> Option<&Tree>
        ensures own { (p : List (List ℕ)) →
            subtree_at self.now (with_subscripts name.now p) ≡ subtree subscript_cmp p (nodes_of (option_copied result)) }
        ensures value { value_at self.now name.now ≡ find (slice_cmp subscript_cmp) name.now.subscripts (nodes_of (option_copied result)) }
    {
        if name.is_global() {
            words::find(&self.globals, name.word())
        } else {
            words::find(&self.locals, name.word())
        }
    }
}

impl Store for Texts {
    ghost contents = { λ g. g };

    fn rises(&self) {
        let _globals = &self.globals; // for the proof
    }

    fn value(&self, name: &Name) -> Option<&Text> {
        self.tree(name)?.value(name.subscripts())
    }

    fn data(&self, name: &Name) -> u8 {
        match self.tree(name) {
            None => 0,
            Some(tree) => tree.data(name.subscripts()),
        }
    }

    fn order(&self, name: &Name, direction: Direction) -> Option<&Sub> {
        self.tree(name)?.order(name.subscripts(), direction)
    }

    fn query(&self, name: &Name) -> Result<Option<Name>, AllocError> {
        match self.tree(name) {
            None => Ok(None),
            Some(tree) => match tree.query(name.subscripts())? {
                None => Ok(None),
                Some(next) => Ok(Some(with(name, next)?)),
            },
        }
    }

    fn subtree(&self, name: &Name) -> Result<Nodes, AllocError> {
        match self.tree(name) {
            None => Ok(Nodes::new(self.alloc)),
            Some(tree) => tree.subtree(name.subscripts()),
        }
    }

    fn set(&mut self, name: &Name, text: &Text) -> Result<(), AllocError> {
        if name.is_global() {
            return words::set(
                &mut self.globals,
                self.alloc,
                name.word(),
                name.subscripts(),
                text,
            );
        }
        words::set(
            &mut self.locals,
            self.alloc,
            name.word(),
            name.subscripts(),
            text,
        )
    }

    fn kill(&mut self, name: &Name) {
        if name.is_global() {
            words::kill(&mut self.globals, name.word(), name.subscripts());
            return;
        }
        words::kill(&mut self.locals, name.word(), name.subscripts());
    }

    fn put(&mut self, name: &Name, nodes: &Nodes) -> Result<(), Failure> {
        if name.is_global() {
            return words::put(
                &mut self.globals,
                self.alloc,
                name.word(),
                name.subscripts(),
                nodes,
            );
        }
        words::put(
            &mut self.locals,
            self.alloc,
            name.word(),
            name.subscripts(),
            nodes,
        )
    }
}

/// The name of the same kind and word with these subscripts.
pub(crate) fn with(name: &Name, list: Subs) -> Result<Name, AllocError>
    ensures { IfOk result (λ n. n ≡ with_subscripts name.now list) }
{
    let word = name.word().try_clone()?;
    Ok(if name.is_global() {
        Name::global(word, list)
    } else {
        Name::local(word, list)
    })
}
