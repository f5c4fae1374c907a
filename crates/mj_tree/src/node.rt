// A node: a text of its own, and children by their subscripts.

ghost use Rattle.std.specs.Prelude.{◌≡◌, ◌↔◌, [], ◌∷◌, ◌++◌, ◌<◌, length, option_copied, IsTrue, IfSome, IfOk, IfErr, OnOk, OnErr, MatchOption};
ghost use Rattle.std.specs.Option.{option_map};
ghost use Rattle.std.specs.FinMap.{find, put};
ghost use Rattle.std.specs.Cmp.Lexicographic.{slice_cmp};
ghost use Rattle.mj_subs.specs.Collation.{subscript_cmp};
ghost use Rattle.std.specs.BTreeMap.{is_at};
ghost use Rattle.std.specs.Map.{keys_of, lookup, remove_entry};
ghost use Rattle.mj_store.specs.declared.store.Direction.TheVariants as way;
ghost use Rattle.mj_store.specs.Nodes.{is_empty, subtree, data_of, next_past};
ghost use Rattle.mj_store.specs.Questions.{next_from};
ghost use Rattle.mj_store.specs.Within.{are_nodes_within};
ghost use Rattle.mj_tree.specs.Nest.{IsAside, IsNoneAside, IsTurn, behind, lead, later, nodes_of, own, without};
ghost use Rattle.mj_tree.specs.Rows.{Adds, IsOrdered, IsSound, all_of, live};
ghost use Rattle.mj_tree.specs.Undo.{restored};
ghost use Rattle.mj_tree.specs.Changes.{changed};
ghost use Rattle.mj_tree.specs.Walks.{named, StopsSo};
ghost use Rattle.mj_tree.specs.declared.sink.SinkStop.TheVariants as stops;

use crate::beside::{aside, key_after, key_before};
use crate::children::{Children, kept, put};
use crate::sink::{Sink, SinkStop};
use mj_store::{Direction, Nodes};
use mj_subs::{Sub, Subs};
use mj_text::{Limit, Text};
use std::alloc::{AllocError, Global};
use std::collections::BTreeMap;
use std::marker::Model;

/// What stands at a list of subscripts and below it. No child is without a text at it or below.
#[cycle(node)]
#[derive(Drop)]
pub struct Node {
    text: Option<Text>,
    // None, or some of which at least one is there.
    children: Option<Box<Children>>,
}

impl Model for Node {
    ghost use Rattle.mj_store.specs.Questions.{Subtree};

    ghost Value = { Subtree };

    ghost use Rattle.std.specs.Prelude.{◌++◌};
    ghost use Rattle.mj_tree.specs.Nest.{own, below, weight};
    ghost use Rattle.mj_tree.specs.Rows.{places, AreSound};

    ghost view = { λ a. own a.text ++ below (places a.children) };

    ghost invariant = { λ a. AreSound a.children };

    ghost size = { weight };

    ghost use Rattle.mj_tree.specs.Falls.{child_le-weight};

    ghost size_decreases = { λ a h. child_le-weight a.text a.children h };
}

impl Node {
    /// A node without a text at it or below.
    pub fn new(alloc: Global) -> Node
        ensures { result ≡ [] }
    {
        Node {
            text: None,
            children: None,
        }
    }

    // The node at a list of subscripts. None stands where nothing does.
    fn at(&self, path: &[Sub]) -> Option<&Node>
        ensures { nodes_of (option_copied result) ≡ subtree subscript_cmp path.now self.now }
    {
        match path {
            [] => Some(self),
            [sub, rest @ ..] => match &self.children {
                None => None,
                Some(children) => match children.get(sub) {
                    None => None,
                    Some(child) => child.at(rest),
                },
            },
        }
    }

    // The node at a list of texts, each of which is made a subscript where it is looked for, so that no list is made.
    fn at_texts(&self, path: &[Text]) -> Result<Option<&Node>, AllocError>
        ensures { IfOk result (λ node. nodes_of (option_copied node) ≡ subtree subscript_cmp path.now self.now) }
    {
        match path {
            [] => Ok(Some(self)),
            [text, rest @ ..] => match &self.children {
                None => Ok(None),
                Some(children) => match children.get_at(text)? {
                    None => Ok(None),
                    Some(child) => child.at_texts(rest),
                },
            },
        }
    }

    /// The text at a list of subscripts.
    pub fn value(&self, path: &[Sub]) -> Option<&Text>
        ensures { option_copied result ≡ find (slice_cmp subscript_cmp) path.now self.now }
    {
        match self.at(path) {
            None => None,
            Some(node) => node.text.as_ref(),
        }
    }

    /// The text at a list of subscripts that are told by their texts.
    pub fn value_at(&self, path: &[Text]) -> Result<Option<&Text>, AllocError>
        ensures { IfOk result (λ text. option_copied text ≡ find (slice_cmp subscript_cmp) path.now self.now) }
    {
        match self.at_texts(path)? {
            None => Ok(None),
            Some(node) => Ok(node.own_text()),
        }
    }

    /// The text of the node itself.
    pub fn own_text(&self) -> Option<&Text>
        ensures { option_copied result ≡ find (slice_cmp subscript_cmp) [] self.now }
    {
        self.text.as_ref()
    }

    /// Whether a text stands there, and whether one stands below.
    pub fn data(&self, path: &[Sub]) -> u8
        ensures { result ≡ data_of (subtree subscript_cmp path.now self.now) }
    {
        match self.at(path) {
            None => 0,
            Some(node) => node.own_data(),
        }
    }

    /// Whether a text stands at subscripts that are told by their texts, and whether one stands below them.
    pub fn data_at(&self, path: &[Text]) -> Result<u8, AllocError>
        ensures { IfOk result (λ d. d ≡ data_of (subtree subscript_cmp path.now self.now)) }
    {
        match self.at_texts(path)? {
            None => Ok(0),
            Some(node) => Ok(node.own_data()),
        }
    }

    // Whether it has a text, and whether one stands below it.
    fn own_data(&self) -> u8
        ensures { result ≡ data_of self.now }
    {
        match (self.text.is_some(), self.children.is_none()) {
            (false, true) => 0,
            (true, true) => 1,
            (false, false) => 10,
            (true, false) => 11,
        }
    }

    /// The next subscript after `last` at the place below `front`, in a direction. From the empty one it is the first.
    pub fn order(&self, front: &[Sub], last: &Sub, direction: Direction) -> Option<&Sub>
        ensures { option_copied result ≡ next_from direction last.now (subtree subscript_cmp front.now self.now) }
    {
        match self.at(front) {
            None => None,
            Some(node) => match &node.children {
                None => None,
                Some(children) => match direction {
                    Direction::Forward => key_after(children, last),
                    Direction::Backward => key_before(children, last),
                },
            },
        }
    }

    /// The next subscript after `last` at the place below `front`, in a direction, where subscripts are told by their texts.
    pub fn order_at(
        &self,
        front: &[Text],
        last: &Text,
        direction: Direction,
    ) -> Result<Option<&Sub>, AllocError>
        ensures { IfOk result (λ next. option_copied next ≡ next_from direction last.now (subtree subscript_cmp front.now self.now)) }
    {
        match self.at_texts(front)? {
            None => Ok(None),
            Some(node) => {
                let last = Sub::from_text(last.try_clone()?);
                Ok(node.order(&[], &last, direction))
            }
        }
    }

    /// The first place after this one with a text.
    pub fn query(&self, alloc: Global, path: &[Sub]) -> Result<Option<Subs>, AllocError>
        ensures { IfOk result (λ next. next ≡ lead (later subscript_cmp path.now self.now)) }
    {
        match self.turn(path) {
            None => Ok(None),
            Some((kept, sub, child)) => {
                let mut next = Subs::new(alloc);
                extend(&mut next, &path[..kept])?;
                append(&mut next, sub)?;
                child.descend(&mut next)?;
                Ok(Some(next))
            }
        }
    }

    // Where the next place leaves the path: how many of the path's subscripts stay, the subscript after them, and the child there.
    fn turn(&self, path: &[Sub]) -> Option<(usize, &Sub, &Node)>
        ensures { MatchOption result (lead (later subscript_cmp path.now self.now) ≡ None) (λ t. IsTurn path.now self.now t.0 t.1.now t.2.now) }
    {
        match path {
            [] => match &self.children {
                None => None,
                Some(children) => match children.first() {
                    None => None,
                    Some((sub, child)) => Some((0, sub, child)),
                },
            },
            [sub, rest @ ..] => match &self.children {
                None => None,
                Some(children) => match children.get(sub) {
                    None => aside(children, sub),
                    Some(child) => match child.turn(rest) {
                        None => aside(children, sub),
                        Some((kept, next, below)) => Some((kept + 1, next, below)),
                    },
                },
            },
        }
    }

    // Puts the subscripts of the first text at the node or below it to the end of a list.
    fn descend(&self, found: &mut Subs) -> Result<(), AllocError>
        ensures { OnOk result (IfSome (lead self.now) (λ p. found.new ≡ found.old ++ p)) }
    {
        if self.text.is_some() {
            return Ok(());
        }
        match &self.children {
            None => Ok(()),
            Some(children) => match children.first() {
                None => Ok(()),
                Some((sub, child)) => {
                    append(found, sub)?;
                    child.descend(found)
                }
            },
        }
    }

    /// What stands at a place and below it.
    pub fn subtree(&self, alloc: Global, path: &[Sub]) -> Result<Nodes, AllocError>
        ensures { IfOk result (λ nodes. nodes ≡ subtree subscript_cmp path.now self.now) }
    {
        match self.at(path) {
            None => Ok(Nodes::new(alloc)),
            Some(node) => node.nodes(alloc),
        }
    }

    // What stands at the node and below it.
    fn nodes(&self, alloc: Global) -> Result<Nodes, AllocError>
        ensures { IfOk result (λ nodes. nodes ≡ self.now) }
    {
        let mut front = Subs::new(alloc);
        let mut nodes = Nodes::new(alloc);
        self.collect(&mut front, &mut nodes)?;
        Ok(nodes)
    }

    // Puts what stands at the node and below it to the end of some nodes, each behind `front`, which is given back as it was.
    fn collect(&self, front: &mut Subs, nodes: &mut Nodes) -> Result<(), AllocError>
        ensures nodes { OnOk result (nodes.new ≡ nodes.old ++ behind front.old self.now) }
        ensures front { OnOk result (front.new ≡ front.old) }
    {
        collect_own(&self.text, front, nodes)?;
        if let Some(children) = &self.children {
            for (sub, child) in children.iter() {
                append(front, sub)?;
                child.collect(front, nodes)?;
                let _last = front.pop();
            }
        }
        Ok(())
    }

    /// Has a sink take what stands at the node and below it, in order: each by the name of this kind and word with the subscripts of `front` and then
    /// its own. `front` is given back as it was. It is told that the sink closed only where that did, behind what was walked until then.
    pub fn walk<S: Sink>(
        &self,
        global: bool,
        word: &[u8],
        front: &mut Subs,
        sink: &mut S,
    ) -> Result<(), SinkStop>
        ensures taken { OnOk result (S.takes sink.old (named global word.now (behind front.old self.now)) sink.new) }
        ensures closed { IfErr result (StopsSo S.closes sink.old (named global word.now (behind front.old self.now)) sink.new) }
        ensures front { OnOk result (front.new ≡ front.old) }
    {
        walk_own(&self.text, global, word, front, sink)?;
        if let Some(children) = &self.children {
            for (sub, child) in children.iter() {
                append(front, sub)?;
                child.walk(global, word, front, sink)?;
                let _last = front.pop();
            }
        }
        Ok(())
    }

    /// A copy.
    pub fn try_clone(&self, alloc: Global) -> Result<Node, AllocError>
        ensures { IfOk result (λ n. n ≡ self.now) }
    {
        let text = self.text.clone()?;
        let Some(children) = &self.children else {
            return Ok(Node {
                text,
                children: None,
            });
        };
        let mut copy = Children::new(alloc);
        for place in &children.row {
            copy.row
                .push_back((place.0.try_clone()?, place.1.try_clone(alloc)?))?;
        }
        for (sub, child) in &children.others {
            put(&mut copy.others, sub, child.try_clone(alloc)?)?;
        }
        Ok(Node {
            text,
            children: Some(Box::new(alloc, copy)?),
        })
    }

    /// Whether no text stands at it or below.
    pub fn is_empty(&self) -> bool
        ensures { IsTrue result ↔ (self.now ≡ []) }
    {
        self.text.is_none() && self.children.is_none()
    }

    /// Whether what stands at it and below it keeps to this limit: each subscript that leads there, and each text.
    pub fn is_within(&self, limit: Limit) -> bool
        ensures { result ≡ are_nodes_within limit self.now }
    {
        if !is_own_within(&self.text, limit) {
            return false;
        }
        if let Some(children) = &self.children {
            for (sub, child) in children.iter() {
                if child.is_empty() {
                    continue;
                }
                if !sub.is_within(limit) {
                    return false;
                }
                if !child.is_within(limit) {
                    return false;
                }
            }
        }
        true
    }

    /// Takes out what stands at the place and below it.
    pub fn kill(&mut self, path: &[Sub])
        ensures { self.new ≡ without subscript_cmp path.now self.old }
    {
        self.change(path, Change::Kill);
    }

    // Makes a change at a place. A child that holds nothing then goes.
    fn change(&mut self, path: &[Sub], change: Change)
        ensures { self.new ≡ changed change path.now self.old }
    {
        match path {
            [] => self.change_own(change),
            [sub, rest @ ..] => {
                let Some(taken) = self.children.take() else {
                    return;
                };
                let mut children = taken;
                match children.place_of(sub) {
                    Some(at) => {
                        let child = &mut children.row[at].1;
                        child.change(rest, change);
                        if child.is_empty() {
                            children.trim(at);
                            self.children = kept(children);
                            return;
                        }
                        self.children = Some(children);
                    }
                    None => {
                        let Some(child) = children.others.get_mut(sub) else {
                            self.children = Some(children);
                            return;
                        };
                        child.change(rest, change);
                        if child.is_empty() {
                            remove(&mut children.others, sub);
                            self.children = kept(children);
                            return;
                        }
                        self.children = Some(children);
                    }
                }
            }
        }
    }

    // Makes a change at the node itself.
    fn change_own(&mut self, change: Change)
        ensures { self.new ≡ changed change [] self.old }
    {
        match change {
            Change::Kill => {
                self.text = None;
                self.children = None;
            }
            Change::Restore(text) => {
                if self.text.is_some() {
                    self.text = text;
                }
            }
        }
    }

    /// Gives a text to the node itself.
    #[inline(always)]
    pub fn assign(&mut self, text: Text)
        ensures { self.new ≡ put (slice_cmp subscript_cmp) [] text self.old }
    {
        become_some(&mut self.text, text);
    }

    /// Gives a text to the place.
    pub fn set(&mut self, alloc: Global, path: &[Sub], text: Text) -> Result<(), AllocError>
        ensures ok { OnOk result (self.new ≡ put (slice_cmp subscript_cmp) path.now text self.old) }
        ensures err { OnErr result (self.new ≡ self.old) }
    {
        match path {
            [] => {
                self.text = Some(text);
                Ok(())
            }
            [sub, rest @ ..] => {
                let Some(taken) = self.children.take() else {
                    self.children = Some(only(alloc, sub, chain(alloc, rest, text)?)?);
                    return Ok(());
                };
                let mut children = taken;
                match children.place_of(sub) {
                    Some(at) => {
                        let done = children.row[at].1.set(alloc, rest, text);
                        self.children = Some(children);
                        done
                    }
                    None => match children.others.get_mut(sub) {
                        Some(child) => {
                            let done = child.set(alloc, rest, text);
                            self.children = Some(children);
                            done
                        }
                        None => {
                            let done = add_chain(&mut children, alloc, sub, rest, text);
                            self.children = Some(children);
                            done
                        }
                    },
                }
            }
        }
    }

    /// Gives a text in place of its own to a place that has one, or takes it. Nothing changes at a place without one.
    pub fn restore(&mut self, path: &[Sub], text: Option<Text>)
        ensures { self.new ≡ restored (slice_cmp subscript_cmp) path.now text self.old }
    {
        self.change(path, Change::Restore(text));
    }
}

// A node with one text, at a list of subscripts.
fn chain(alloc: Global, path: &[Sub], text: Text) -> Result<Node, AllocError>
    ensures { IfOk result (λ n. n ≡ (path.now, text) ∷ []) }
{
    match path {
        [] => Ok(Node {
            text: Some(text),
            children: None,
        }),
        [sub, rest @ ..] => {
            let child = chain(alloc, rest, text)?;
            Ok(Node {
                text: None,
                children: Some(only(alloc, sub, child)?),
            })
        }
    }
}

// Adds a child with one text, at a list of subscripts below it.
fn add_chain(
    children: &mut Children,
    alloc: Global,
    sub: &Sub,
    path: &[Sub],
    text: Text,
) -> Result<(), AllocError>
    requires sound { IsSound children.old }
    requires absent { lookup (is_at (subscript_cmp sub.now)) (all_of children.old) ≡ None }
    ensures { Adds children.old children.new sub.now ((path.now, text) ∷ []) result }
{
    let child = chain(alloc, path, text)?;
    children.add(alloc, sub, child)
}

// One child alone.
fn only(alloc: Global, sub: &Sub, child: Node) -> Result<Box<Children>, AllocError>
    requires { 0 < length child }
    ensures sound { IfOk result (λ c. IsSound c.value) }
    ensures alone { IfOk result (λ c. live (all_of c.value) ≡ (sub.now, child) ∷ []) }
{
    let mut children = Children::new(alloc);
    children.add(alloc, sub, child)?;
    Ok(Box::new(alloc, children)?)
}

// Puts the text of a node itself to the end of some nodes, where there is one.
fn collect_own(text: &Option<Text>, front: &Subs, nodes: &mut Nodes) -> Result<(), AllocError>
    ensures { OnOk result (nodes.new ≡ nodes.old ++ behind front.now (own text.now)) }
{
    match text {
        None => Ok(()),
        Some(text) => nodes.push(front.try_clone()?, text.try_clone()?),
    }
}

// Whether the text of a node itself, where there is one, is one of this limit.
fn is_own_within(text: &Option<Text>, limit: Limit) -> bool
    ensures { result ≡ are_nodes_within limit (own text.now) }
{
    match text {
        None => true,
        Some(text) => text.is_within(limit),
    }
}

// Has a sink take the text of a node itself, where there is one.
fn walk_own<S: Sink>(
    text: &Option<Text>,
    global: bool,
    word: &[u8],
    front: &Subs,
    sink: &mut S,
) -> Result<(), SinkStop>
    ensures taken { OnOk result (S.takes sink.old (named global word.now (behind front.now (own text.now))) sink.new) }
    ensures closed { IfErr result (λ stop. stop ≡ stops.Closed → S.closes sink.old (named global word.now (behind front.now (own text.now))) sink.new) }
{
    match text {
        None => Ok(()),
        Some(text) => sink.take(global, word, front, text),
    }
}

/// Puts one more subscript to the end of a list in which there is room for it.
pub fn append(list: &mut Subs, sub: &Sub) -> Result<(), AllocError>
    ensures { OnOk result (list.new ≡ list.old ++ sub.now ∷ []) }
{
    match list.push(sub.try_clone()?) {
        Ok(()) => Ok(()),
        Err(_) => Err(AllocError),
    }
}

/// Puts subscripts to the end of a list in which there is room for them.
pub fn extend(list: &mut Subs, more: &[Sub]) -> Result<(), AllocError>
    ensures { OnOk result (list.new ≡ list.old ++ more.now) }
{
    for sub in more {
        append(list, sub)?;
    }
    Ok(())
}

// Takes the child at a subscript out, if there is one.
fn remove(children: &mut BTreeMap<Sub, Node>, sub: &Sub)
    ensures { children.new.entries ≡ remove_entry (is_at (subscript_cmp sub.now)) children.old.entries }
{
    let _gone = children.remove(sub);
}

// A change at a place.
#[derive(Drop)]
enum Change {
    // all goes that stands at it or below
    Kill,
    // a text comes in place of that at it, or goes
    Restore(Option<Text>),
}

// A node's text is this one from now on.
#[inline(always)]
fn become_some(own: &mut Option<Text>, text: Text)
    ensures { own.new ≡ Some text }
{
    match own {
        Some(old) => old.become_text(text),
        None => *own = Some(text),
    }
}
