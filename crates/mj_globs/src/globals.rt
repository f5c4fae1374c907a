// A store with a tree for each word, and a stamp for each word of globals.

ghost use Rattle.std.specs.Prelude.{◌≡◌, ◌↔◌, if◌then◌else◌, [], IsTrue, IfOk, IfErr, OnOk, OnErr, false};
ghost use Rattle.std.specs.List.{list_any};
ghost use Rattle.mj_subs.specs.Collation.{name_cmp};
ghost use Rattle.mj_store.specs.Questions.{same_word};
ghost use Rattle.mj_store.specs.Changes.{after_set, after_kill, after_put, is_too_deep};
ghost use Rattle.mj_tree.specs.Undo.{restored};
ghost use Rattle.mj_tree.specs.Walks.{StopsSo};
ghost use Rattle.mj_globs.specs.Changes.{after_change, after_changes, goes_too_deep, is_to, are_to};
ghost use Rattle.mj_globs.specs.Within.{is_content_within};
ghost use Rattle.mj_globs.specs.Stamps.{stamp_at, IsRaisedAt, IsCounted, Rises, KeepsStamps};
ghost use Rattle.mj_text.specs.declared.fault.Failure.TheVariants as failure;
ghost use Rattle.mj_text.specs.declared.fault.Fault.TheVariants as fault;

use crate::all::make_all;
use crate::change::Change;
use crate::stamps::Stamps;
use crate::texts::Texts;
use mj_store::{Direction, Nodes, Store, is_too_deep};
use mj_subs::{Name, Sub};
use mj_text::{Failure, Fault, Limit, Text};
use mj_tree::{Sink, SinkStop};
use std::alloc::{AllocError, Global};
use std::marker::Model;

/// A store over all words, with a tree for each. Each word of globals has a stamp, which rises with every change of that word.
#[derive(Drop)]
pub struct Globals {
    texts: Texts,
    stamps: Stamps,
}

impl Model for Globals {
    ghost use Rattle.mj_globs.specs.Stamps.{Stamped, AreStamped};

    ghost Value = { Stamped };

    ghost view = { λ a. record { content = a.texts; stamps = a.stamps } };

    ghost invariant = { λ a. AreStamped (record { content = a.texts; stamps = a.stamps }) };
}

impl Globals {
    /// A store without a name.
    pub fn new(alloc: Global) -> Globals
        ensures content { result.content ≡ [] }
        ensures stamps { result.stamps ≡ [] }
    {
        Globals {
            texts: Texts::new(alloc),
            stamps: Stamps::new(alloc),
        }
    }

    /// Where its memory comes from.
    pub fn allocator(&self) -> Global {
        self.texts.allocator()
    }

    /// Its texts, without its stamps.
    pub fn texts(&self) -> &Texts
        ensures { result.now ≡ self.now.content }
    {
        &self.texts
    }

    /// A copy.
    pub fn try_clone(&self) -> Result<Globals, AllocError>
        ensures content { IfOk result (λ g. g.content ≡ self.now.content) }
        ensures stamps { IfOk result (λ g. g.stamps ≡ self.now.stamps) }
    {
        Ok(Globals {
            texts: self.texts.try_clone()?,
            stamps: self.stamps.try_clone()?,
        })
    }

    /// Its names in their order, each with its text.
    pub fn nodes(&self) -> Result<Vec<(Name, Text)>, AllocError>
        ensures { IfOk result (λ nodes. nodes.items ≡ self.now.content) }
    {
        self.texts.nodes()
    }

    /// Has a sink take its names in their order, each with its text. What the sink keeps is all the memory that it takes, but for the subscripts of one
    /// name. It is told that the sink closed only where that did, behind what was walked until then.
    pub fn walk<S: Sink>(&self, sink: &mut S) -> Result<(), SinkStop>
        ensures taken { OnOk result (S.takes sink.old self.now.content sink.new) }
        ensures closed { IfErr result (StopsSo S.closes sink.old self.now.content sink.new) }
    {
        self.texts.walk(sink)
    }

    /// Whether each of its subscripts and of its texts is one of this limit. That of the greater one looks at nothing.
    pub fn within(&self, limit: Limit) -> bool
        ensures { result ≡ is_content_within limit self.now.content }
    {
        match limit {
            Limit::V1 => self.texts.are_within(Limit::V1),
            Limit::V2 => true,
        }
    }

    /// The stamp of a name's word. A local always has the greatest one, as its changes aren't stamped.
    pub fn stamp(&self, name: &Name) -> u64
        ensures { result ≡ stamp_at self.now.stamps name.now }
    {
        if name.is_global() {
            self.stamps.of(name.word())
        } else {
            u64::MAX
        }
    }

    /// Makes the changes in order, all of them or none. `Limit` where one would give a name too many subscripts, and otherwise nothing
    /// but memory can be wanting. The store itself is never copied: they cost what they give and what they take. Where a text is given again at a name that
    /// goes, or below one, the nodes there are listed. Where memory is refused, stamps may rise without a change.
    pub fn apply(&mut self, changes: &[Change]) -> Result<(), Failure>
        ensures ok { OnOk result (self.new.content ≡ after_changes self.old.content changes.now) }
        ensures limit { (result ≡ Err (failure.Fault fault.Limit)) ↔ IsTrue (list_any goes_too_deep changes.now) }
        ensures within { OnOk result (list_any goes_too_deep changes.now ≡ false) }
        ensures error { IfErr result (λ e. e ≡ (if list_any goes_too_deep changes.now then failure.Fault fault.Limit else failure.Memory)) }
        ensures err { OnErr result (self.new.content ≡ self.old.content) }
        ensures stamps { Rises self.old self.new }
        ensures others { OnOk result (KeepsStamps (are_to changes.now) self.old.stamps self.new.stamps) }
    {
        if is_any_too_deep(changes) {
            return Err(Failure::Fault(Fault::Limit));
        }
        if let [change] = changes {
            return match self.make(change) {
                Ok(()) => Ok(()),
                Err(_) => Err(Failure::Memory),
            };
        }
        match make_all(self, changes) {
            Ok(()) => Ok(()),
            Err(_) => Err(Failure::Memory),
        }
    }

    /// Gives a text in place of its own to a name that has one, or takes it. Nothing changes at a name without one.
    pub fn restore(&mut self, name: &Name, text: Option<Text>)
        ensures content { self.new.content ≡ restored name_cmp name.now text self.old.content }
        ensures stamps { Rises self.old self.new }
        ensures others { KeepsStamps (same_word name.now) self.old.stamps self.new.stamps }
    {
        self.raise(name);
        self.texts.restore(name, text);
    }

    // The stamp of a name's word rises, if it has one.
    fn raise(&mut self, name: &Name)
        ensures content { self.new.content ≡ self.old.content }
        ensures raised { IsRaisedAt name.now self.old.stamps self.new.stamps }
    {
        if name.is_global() {
            self.stamps.raise(name.word());
        }
    }

    // The stamp of a name's word rises. One that has none gets it.
    fn count(&mut self, name: &Name) -> Result<(), AllocError>
        ensures content { self.new.content ≡ self.old.content }
        ensures raised { IsRaisedAt name.now self.old.stamps self.new.stamps }
        ensures counted { OnOk result (IsCounted name.now self.old.stamps self.new.stamps) }
    {
        if name.is_global() {
            return self.stamps.count(name.word());
        }
        Ok(())
    }

    // Makes one change.
    pub(crate) fn make(&mut self, change: &Change) -> Result<(), Failure>
        ensures ok { OnOk result (self.new.content ≡ after_change self.old.content change.now) }
        ensures limit { (result ≡ Err (failure.Fault fault.Limit)) ↔ IsTrue (goes_too_deep change.now) }
        ensures err { OnErr result (self.new.content ≡ self.old.content) }
        ensures stamps { Rises self.old self.new }
        ensures others { KeepsStamps (is_to change.now) self.old.stamps self.new.stamps }
    {
        match change {
            Change::Set(name, text) => match self.set(name, text) {
                Ok(()) => Ok(()),
                Err(_) => Err(Failure::Memory),
            },
            Change::Kill(name) => {
                self.kill(name);
                Ok(())
            }
            Change::Put(name, nodes) => self.put(name, nodes),
        }
    }
}

impl Store for Globals {
    ghost contents = { λ g. g.content };

    fn rises(&self) {
        self.texts.rises();
    }

    fn value(&self, name: &Name) -> Option<&Text> {
        self.texts.value(name)
    }

    fn data(&self, name: &Name) -> u8 {
        self.texts.data(name)
    }

    fn order(&self, name: &Name, direction: Direction) -> Option<&Sub> {
        self.texts.order(name, direction)
    }

    fn query(&self, name: &Name) -> Result<Option<Name>, AllocError> {
        self.texts.query(name)
    }

    fn subtree(&self, name: &Name) -> Result<Nodes, AllocError> {
        self.texts.subtree(name)
    }

    fn set(&mut self, name: &Name, text: &Text) -> Result<(), AllocError>
        ensures ok { OnOk result (self.new.content ≡ after_set self.old.content name.now text.now) }
        ensures err { OnErr result (self.new.content ≡ self.old.content) }
        ensures stamps { Rises self.old self.new }
        ensures others { KeepsStamps (same_word name.now) self.old.stamps self.new.stamps }
    {
        self.count(name)?;
        self.texts.set(name, text)
    }

    fn kill(&mut self, name: &Name)
        ensures content { self.new.content ≡ after_kill self.old.content name.now }
        ensures stamps { Rises self.old self.new }
        ensures others { KeepsStamps (same_word name.now) self.old.stamps self.new.stamps }
    {
        self.raise(name);
        self.texts.kill(name);
    }

    fn put(&mut self, name: &Name, nodes: &Nodes) -> Result<(), Failure>
        ensures ok { OnOk result (self.new.content ≡ after_put self.old.content name.now nodes.now) }
        ensures limit { (result ≡ Err (failure.Fault fault.Limit)) ↔ IsTrue (is_too_deep name.now nodes.now) }
        ensures error { IfErr result (λ e. e ≡ (if is_too_deep name.now nodes.now then failure.Fault fault.Limit else failure.Memory)) }
        ensures err { OnErr result (self.new.content ≡ self.old.content) }
        ensures stamps { Rises self.old self.new }
        ensures others { KeepsStamps (same_word name.now) self.old.stamps self.new.stamps }
    {
        if is_too_deep(name, nodes.as_slice()) {
            return Err(Failure::Fault(Fault::Limit));
        }
        if self.count(name).is_err() {
            return Err(Failure::Memory);
        }
        self.texts.put(name, nodes)
    }
}

// Whether one of the changes would give a name too many subscripts.
fn is_any_too_deep(changes: &[Change]) -> bool
    ensures { result ≡ list_any goes_too_deep changes.now }
{
    changes.iter().any(|change| goes_too_deep(change))
}

// Whether a change would give a name too many subscripts.
fn goes_too_deep(change: &Change) -> bool
    ensures { result ≡ goes_too_deep change.now }
{
    match change {
        Change::Put(name, nodes) => is_too_deep(name, nodes.as_slice()),
        Change::Set(_, _) | Change::Kill(_) => false,
    }
}
