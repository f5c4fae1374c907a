// A tree: what stands at the names of one word.

ghost use Rattle.std.specs.Prelude.{◌≡◌, ◌↔◌, ◌++◌, ◌∷◌, if◌then◌else◌, [], option_copied, IsTrue, IfOk, IfErr, OnOk, OnErr, T};
ghost use Rattle.std.specs.FinMap.{find, put, is_sorted};
ghost use Rattle.std.specs.Cmp.Lexicographic.{slice_cmp};
ghost use Rattle.mj_subs.specs.Collation.{subscript_cmp};
ghost use Rattle.mj_store.specs.Nodes.{subtree, data_of, next_after};
ghost use Rattle.mj_store.specs.Within.{are_nodes_within};
ghost use Rattle.mj_tree.specs.Nest.{order_in, without, put_behind, is_too_long};
ghost use Rattle.mj_tree.specs.Undo.{restored, undone};
ghost use Rattle.mj_tree.specs.Walks.{named, StopsSo};
ghost use Rattle.mj_text.specs.declared.fault.Failure.TheVariants as failure;
ghost use Rattle.mj_text.specs.declared.fault.Fault.TheVariants as fault;

use crate::node::{Node, append, extend};
use crate::sink::{Sink, SinkStop};
use mj_store::{Direction, Nodes};
use mj_subs::{SUBSCRIPTS_LIMIT, Sub, Subs};
use mj_text::{Failure, Fault, Limit, Text};
use std::alloc::{AllocError, Global};
use std::marker::Model;

// Lists that were written, in order, each with its text of before.
type Log = Vec<(Subs, Option<Text>)>;

/// The part of a store that belongs to one word: a finite map from lists of subscripts to texts.
#[derive(Drop)]
pub struct Tree {
    alloc: Global,
    root: Node,
}

impl Model for Tree {
    ghost use Rattle.std.specs.Prelude.{T};
    ghost use Rattle.std.specs.FinMap.{is_sorted};
    ghost use Rattle.std.specs.Cmp.Lexicographic.{slice_cmp};
    ghost use Rattle.mj_subs.specs.Collation.{subscript_cmp};
    ghost use Rattle.mj_store.specs.Questions.{Subtree};

    ghost Value = { Subtree };

    ghost view = { λ a. a.root };

    ghost invariant = { λ a. T (is_sorted (slice_cmp subscript_cmp) a.root) };
}

impl Tree {
    /// A tree without a text.
    pub fn new(alloc: Global) -> Tree
        ensures { result ≡ [] }
    {
        Tree {
            alloc,
            root: Node::new(alloc),
        }
    }

    /// Says that its lists rise, so that each stands once.
    pub fn rises(&self)
        ensures { T (is_sorted (slice_cmp subscript_cmp) self.now) }
    {
        let _root = &self.root; // for the proof
    }

    /// Whether it has no text.
    pub fn is_empty(&self) -> bool
        ensures { IsTrue result ↔ (self.now ≡ []) }
    {
        self.root.is_empty()
    }

    /// Whether each of its subscripts and of its texts is one of this limit.
    pub fn is_within(&self, limit: Limit) -> bool
        ensures { result ≡ are_nodes_within limit self.now }
    {
        self.root.is_within(limit)
    }

    /// The text at a list of subscripts.
    pub fn value(&self, path: &Subs) -> Option<&Text>
        ensures { option_copied result ≡ find (slice_cmp subscript_cmp) path.now self.now }
    {
        self.root.value(path.as_slice())
    }

    /// The text at a list of subscripts that are told by their texts. No list of subscripts is made.
    pub fn value_at(&self, path: &[Text]) -> Result<Option<&Text>, AllocError>
        ensures { IfOk result (λ text. option_copied text ≡ find (slice_cmp subscript_cmp) path.now self.now) }
    {
        self.root.value_at(path)
    }

    /// The text at the list without a subscript.
    pub fn own_text(&self) -> Option<&Text>
        ensures { option_copied result ≡ find (slice_cmp subscript_cmp) [] self.now }
    {
        self.root.own_text()
    }

    /// 0, 1, 10 or 11: the ones digit for a text there, the tens digit for one below it.
    pub fn data(&self, path: &Subs) -> u8
        ensures { result ≡ data_of (subtree subscript_cmp path.now self.now) }
    {
        self.root.data(path.as_slice())
    }

    /// 0, 1, 10 or 11, for subscripts that are told by their texts. No list of subscripts is made.
    pub fn data_at(&self, path: &[Text]) -> Result<u8, AllocError>
        ensures { IfOk result (λ d. d ≡ data_of (subtree subscript_cmp path.now self.now)) }
    {
        self.root.data_at(path)
    }

    /// The next subscript in place of the last one, in a direction. From the empty subscript it is the first. There is none at the end,
    /// and in place of no subscript.
    pub fn order(&self, path: &Subs, direction: Direction) -> Option<&Sub>
        ensures { option_copied result ≡ order_in path.now direction self.now }
    {
        let (last, front) = path.as_slice().split_last()?;
        self.root.order(front, last, direction)
    }

    /// The next subscript in place of the last one, in a direction, where subscripts are told by their texts. No list of subscripts is made.
    pub fn order_at(&self, path: &[Text], direction: Direction) -> Result<Option<&Sub>, AllocError>
        ensures { IfOk result (λ next. option_copied next ≡ order_in path.now direction self.now) }
    {
        match path.split_last() {
            None => Ok(None),
            Some((last, front)) => self.root.order_at(front, last, direction),
        }
    }

    /// The next list of subscripts with a text.
    pub fn query(&self, path: &Subs) -> Result<Option<Subs>, AllocError>
        ensures { IfOk result (λ next. next ≡ next_after subscript_cmp path.now self.now) }
    {
        self.root.query(self.alloc, path.as_slice())
    }

    /// What stands at a list of subscripts and below it, in order.
    pub fn subtree(&self, path: &Subs) -> Result<Nodes, AllocError>
        ensures { IfOk result (λ nodes. nodes ≡ subtree subscript_cmp path.now self.now) }
    {
        self.root.subtree(self.alloc, path.as_slice())
    }

    /// Has a sink take its texts, in order, each by the name of this kind and word with its list. It is told that the sink closed only where that did,
    /// behind what was walked until then.
    pub fn walk<S: Sink>(&self, global: bool, word: &[u8], sink: &mut S) -> Result<(), SinkStop>
        ensures taken { OnOk result (S.takes sink.old (named global word.now self.now) sink.new) }
        ensures closed { IfErr result (StopsSo S.closes sink.old (named global word.now self.now) sink.new) }
    {
        self.root
            .walk(global, word, &mut Subs::new(self.alloc), sink)
    }

    /// Gives the list this text.
    pub fn set(&mut self, path: &Subs, text: &Text) -> Result<(), AllocError>
        ensures ok { OnOk result (self.new ≡ put (slice_cmp subscript_cmp) path.now text.now self.old) }
        ensures err { OnErr result (self.new ≡ self.old) }
    {
        let text = text.try_clone()?;
        self.root.set(self.alloc, path.as_slice(), text)
    }

    /// Gives the list of the subscripts that are told by their texts this text.
    pub fn set_at(&mut self, path: &[Text], text: &Text) -> Result<(), AllocError>
        ensures ok { OnOk result (self.new ≡ put (slice_cmp subscript_cmp) path.now text.now self.old) }
        ensures err { OnErr result (self.new ≡ self.old) }
    {
        match path {
            [one] => self.set_one(one, text),
            [one, two] => self.set_two(one, two, text),
            _ => {
                let path = listed(self.alloc, path)?;
                self.set(&path, text)
            }
        }
    }

    // Gives a text to the list of one subscript, which stands in place.
    fn set_one(&mut self, one: &Text, text: &Text) -> Result<(), AllocError>
        ensures ok { OnOk result (self.new ≡ put (slice_cmp subscript_cmp) (one.now ∷ []) text.now self.old) }
        ensures err { OnErr result (self.new ≡ self.old) }
    {
        let text = text.try_clone()?;
        let path = [Sub::from_text(one.try_clone()?)];
        self.root.set(self.alloc, &path, text)
    }

    // Gives a text to the list of two subscripts, which stand in place.
    fn set_two(&mut self, one: &Text, two: &Text, text: &Text) -> Result<(), AllocError>
        ensures ok { OnOk result (self.new ≡ put (slice_cmp subscript_cmp) (one.now ∷ two.now ∷ []) text.now self.old) }
        ensures err { OnErr result (self.new ≡ self.old) }
    {
        let text = text.try_clone()?;
        let path = [
            Sub::from_text(one.try_clone()?),
            Sub::from_text(two.try_clone()?),
        ];
        self.root.set(self.alloc, &path, text)
    }

    /// Gives the list without a subscript this text. It takes no memory.
    #[inline(always)]
    pub fn assign(&mut self, text: Text)
        ensures { self.new ≡ put (slice_cmp subscript_cmp) [] text self.old }
    {
        self.root.assign(text);
    }

    /// Takes the list and every list below it out.
    pub fn kill(&mut self, path: &Subs)
        ensures { self.new ≡ without subscript_cmp path.now self.old }
    {
        self.root.kill(path.as_slice());
    }

    /// Takes the list of the subscripts that are told by their texts and every list below it out.
    pub fn kill_at(&mut self, path: &[Text]) -> Result<(), AllocError>
        ensures ok { OnOk result (self.new ≡ without subscript_cmp path.now self.old) }
        ensures err { OnErr result (self.new ≡ self.old) }
    {
        match path {
            [one] => self.kill_one(one),
            _ => {
                let path = listed(self.alloc, path)?;
                self.kill(&path);
                Ok(())
            }
        }
    }

    // Takes the list of one subscript, which stands in place, and every list below it out.
    fn kill_one(&mut self, one: &Text) -> Result<(), AllocError>
        ensures ok { OnOk result (self.new ≡ without subscript_cmp (one.now ∷ []) self.old) }
        ensures err { OnErr result (self.new ≡ self.old) }
    {
        let path = [Sub::from_text(one.try_clone()?)];
        self.root.kill(&path);
        Ok(())
    }

    /// Gives the list followed by each of the nodes' lists that node's text. Nothing is taken out. `Limit` where one would be too long, and
    /// otherwise nothing but memory can be wanting.
    pub fn put(&mut self, path: &Subs, nodes: &Nodes) -> Result<(), Failure>
        ensures ok { OnOk result (self.new ≡ put_behind subscript_cmp path.now nodes.now self.old) }
        ensures limit { (result ≡ Err (failure.Fault fault.Limit)) ↔ IsTrue (is_too_long path.now nodes.now) }
        ensures error { IfErr result (λ e. e ≡ (if is_too_long path.now nodes.now then failure.Fault fault.Limit else failure.Memory)) }
        ensures err { OnErr result (self.new ≡ self.old) }
    {
        if is_too_long(path, nodes.as_slice()) {
            return Err(Failure::Fault(Fault::Limit));
        }
        let mut log = Vec::new(self.alloc);
        match self.put_all(path, nodes.as_slice(), &mut log) {
            Ok(()) => Ok(()),
            Err(_) => {
                self.undo(log);
                Err(Failure::Memory)
            }
        }
    }

    // Gives each text to its list behind the path, and logs what was there. After want of memory some are given.
    fn put_all(
        &mut self,
        path: &Subs,
        nodes: &[(Subs, Text)],
        log: &mut Log,
    ) -> Result<(), AllocError>
        ensures ok { OnOk result (self.new ≡ put_behind subscript_cmp path.now nodes.now self.old) }
        ensures before { undone (slice_cmp subscript_cmp) log.new.items self.new ≡ undone (slice_cmp subscript_cmp) log.old.items self.old }
    {
        for node in nodes {
            let place = joined(path, &node.0)?;
            self.exchange(place, &node.1, log)?;
        }
        Ok(())
    }

    // Gives a text to a list, and logs what was there.
    fn exchange(&mut self, place: Subs, text: &Text, log: &mut Log) -> Result<(), AllocError>
        ensures ok { OnOk result (self.new ≡ put (slice_cmp subscript_cmp) place text.now self.old) }
        ensures before { undone (slice_cmp subscript_cmp) log.new.items self.new ≡ undone (slice_cmp subscript_cmp) log.old.items self.old }
    {
        self.rises();
        let before = self.text(&place)?;
        self.set(&place, text)?;
        match log.push((place, before)) {
            Ok(()) => Ok(()),
            Err(refused) => {
                let (place, before) = refused.value;
                self.restore(&place, before);
                Err(AllocError)
            }
        }
    }

    // The text at a list of subscripts, for keeps.
    fn text(&self, path: &Subs) -> Result<Option<Text>, AllocError>
        ensures { IfOk result (λ text. text ≡ find (slice_cmp subscript_cmp) path.now self.now) }
    {
        Ok(match self.value(path) {
            None => None,
            Some(text) => Some(text.try_clone()?),
        })
    }

    // Takes back what a log says.
    fn undo(&mut self, log: Log)
        ensures { self.new ≡ undone (slice_cmp subscript_cmp) log.items self.old }
    {
        let mut left = log;
        while let Some((place, before)) = left.pop() {
            self.restore(&place, before);
        }
    }

    /// Gives a text in place of its own to a list that has one, or takes it. Nothing changes at a list without one.
    pub fn restore(&mut self, path: &Subs, text: Option<Text>)
        ensures { self.new ≡ restored (slice_cmp subscript_cmp) path.now text self.old }
    {
        self.root.restore(path.as_slice(), text);
    }

    /// A copy.
    pub fn try_clone(&self) -> Result<Tree, AllocError>
        ensures { IfOk result (λ t. t ≡ self.now) }
    {
        Ok(Tree {
            alloc: self.alloc,
            root: self.root.try_clone(self.alloc)?,
        })
    }
}

impl Clone for Tree {
    ghost is_clone = { λ t copy. copy ≡ t };

    fn clone(&self) -> Result<Tree, AllocError> {
        self.try_clone()
    }
}

// Texts as subscripts, of which there are no more than a list has.
fn listed(alloc: Global, texts: &[Text]) -> Result<Subs, AllocError>
    ensures { IfOk result (λ list. list ≡ texts.now) }
{
    let mut list = Subs::new(alloc);
    for text in texts {
        append(&mut list, &Sub::from_text(text.try_clone()?))?;
    }
    Ok(list)
}

// One list behind the other, which together are short enough.
fn joined(front: &Subs, back: &Subs) -> Result<Subs, AllocError>
    ensures { IfOk result (λ list. list ≡ front.now ++ back.now) }
{
    let mut list = front.try_clone()?;
    extend(&mut list, back.as_slice())?;
    Ok(list)
}

// Whether a list would follow the path with more subscripts than there can be.
fn is_too_long(path: &Subs, nodes: &[(Subs, Text)]) -> bool
    ensures { result ≡ is_too_long path.now nodes.now }
{
    let above = path.len();
    nodes
        .iter()
        .any(|node| SUBSCRIPTS_LIMIT < above + node.0.len())
}
