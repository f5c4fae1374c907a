// What stands at a name and below it.

ghost use Rattle.std.specs.Prelude.{◌≡◌, ◌++◌, ◌∷◌, [], if◌then◌else◌, is_ok, IfOk};
ghost use Rattle.mj_store.specs.Within.{is_node_within, are_nodes_within};

use mj_subs::Subs;
use mj_text::{Limit, Text};
use std::alloc::{AllocError, Global};
use std::marker::Model;
use std::sync::Arc;

/// Lists of subscripts, each with a text: what stands at a name and below it, by the subscripts that follow the name's. Every copy shares them.
#[derive(Drop)]
pub struct Nodes {
    alloc: Global,
    kept: Kept,
}

#[derive(Drop)]
enum Kept {
    // No nodes.
    Empty,
    // Nodes, which every copy shares.
    Shared(Arc<Vec<(Subs, Text)>>),
}

impl Model for Nodes {
    ghost use Rattle.mj_store.specs.Questions.{Subtree};
    ghost use Rattle.mj_store.specs.Kept.{nodes_of};

    ghost Value = { Subtree };

    ghost view = { λ n. nodes_of n.kept };
}

impl Nodes {
    /// No nodes.
    pub fn new(alloc: Global) -> Nodes
        ensures { result ≡ [] }
    {
        Nodes {
            alloc,
            kept: Kept::Empty,
        }
    }

    /// The nodes, in order.
    pub fn as_slice(&self) -> &[(Subs, Text)]
        ensures { result.now ≡ self.now }
    {
        match &self.kept {
            Kept::Empty => &[],
            Kept::Shared(list) => list.as_slice(),
        }
    }

    /// Puts one more at the end. Nodes that a copy shares are copied first.
    pub fn push(&mut self, subscripts: Subs, text: Text) -> Result<(), AllocError>
        ensures { self.new ≡ (if is_ok result then self.old ++ (subscripts, text) ∷ [] else self.old) }
    {
        match &mut self.kept {
            Kept::Empty => {}
            Kept::Shared(shared) => {
                if let Some(list) = Arc::get_mut(shared) {
                    return put_behind(list, subscripts, text);
                }
            }
        }
        self.push_anew(subscripts, text)
    }

    // Puts one more behind a list of its own.
    fn push_anew(&mut self, subscripts: Subs, text: Text) -> Result<(), AllocError>
        ensures { self.new ≡ (if is_ok result then self.old ++ (subscripts, text) ∷ [] else self.old) }
    {
        let mut list = self.copied()?;
        put_behind(&mut list, subscripts, text)?;
        self.kept = Kept::Shared(Arc::new(self.alloc, list)?);
        Ok(())
    }

    /// Whether each of their subscripts and of their texts is one of this limit.
    pub fn are_within(&self, limit: Limit) -> bool
        ensures { result ≡ are_nodes_within limit self.now }
    {
        self.as_slice()
            .iter()
            .all(|node| is_node_within(node, limit))
    }

    // The nodes, in memory of their own.
    fn copied(&self) -> Result<Vec<(Subs, Text)>, AllocError>
        ensures { IfOk result (λ list. list.items ≡ self.now) }
    {
        match &self.kept {
            Kept::Empty => Ok(Vec::new(self.alloc)),
            Kept::Shared(list) => copy_of(list),
        }
    }

    /// A copy.
    pub fn try_clone(&self) -> Result<Nodes, AllocError>
        ensures { IfOk result (λ nodes. nodes ≡ self.now) }
    {
        let kept = match &self.kept {
            Kept::Empty => Kept::Empty,
            Kept::Shared(list) => Kept::Shared(list.clone()?),
        };
        Ok(Nodes {
            alloc: self.alloc,
            kept,
        })
    }
}

// Whether each of the subscripts and the text is one of this limit.
fn is_node_within(node: &(Subs, Text), limit: Limit) -> bool
    ensures { result ≡ is_node_within limit node.now }
{
    node.0.are_within(limit) && node.1.is_within(limit)
}

// Puts a node behind others.
fn put_behind(list: &mut Vec<(Subs, Text)>, subscripts: Subs, text: Text) -> Result<(), AllocError>
    ensures { list.new.items ≡ (if is_ok result then list.old.items ++ (subscripts, text) ∷ [] else list.old.items) }
{
    list.push((subscripts, text))?;
    Ok(())
}

// The nodes of a list, in memory of their own.
fn copy_of(list: &Vec<(Subs, Text)>) -> Result<Vec<(Subs, Text)>, AllocError>
    ensures { IfOk result (λ copy. copy.items ≡ list.now.items) }
{
    list.clone()
}
