// A node of a tree of names: what stands at a list of subscripts of a word and below it.

ghost use Rattle.std.specs.Prelude.{◌≡◌, ◌↔◌, ℕ, ◌+◌, ◌-◌, ◌^◌, min, ◌<◌, ◌≤◌, ◌∷◌, List, length, Option, Some, None, IsTrue, IfOk, OnOk, OnErr, MatchOption};
ghost use Rattle.mj_subs.specs.Collation.{subscript_cmp};
ghost use Rattle.mj_locktab.specs.declared.held.TheConstants.{HOLDS_LIMIT};
ghost use Rattle.mj_locktab.specs.Trees.{stand_at, tally_of, is_front, paths_eq, is_job, is_in_way, lesser};
ghost use Rattle.mj_locktab.specs.Trees.{AreAlike, IsBare, HasOneMore, HasOneLess, IsWritten, IsGrown, NoOther, IsLeastOther};
ghost use Rattle.std.specs.Map.{lookup};
ghost use Rattle.std.specs.BTreeMap.{is_at, insert_entry, IsOrdered};

use crate::tally::Tallies;
use mj_subs::Sub;
use std::alloc::{AllocError, Global};
use std::collections::BTreeMap;
use std::marker::Model;

/// The job that holds the name here, how many names each job has here and below, and what stands below.
#[derive(Drop)]
pub struct Node {
    alloc: Global,
    holder: Option<u32>,
    tallies: Tallies,
    children: BTreeMap<Sub, Node>,
}

impl Model for Node {
    ghost use Rattle.mj_locktab.specs.Trees.{Stands};

    ghost Value = { Stands };

    ghost use Rattle.std.specs.Prelude.{◌∷◌, []};
    ghost use Rattle.std.specs.BTreeMap.{IsOrdered};
    ghost use Rattle.mj_subs.specs.Collation.{subscript_cmp};
    ghost use Rattle.mj_locktab.specs.Trees.{below, weight, tallies_of, AreCounted, NoneBare};

    ghost view = { λ a. ([], (a.holder, tallies_of a.tallies)) ∷ below a.children.entries };

    ghost invariant = { λ a. IsOrdered subscript_cmp a.children × AreCounted (tallies_of a.tallies) × NoneBare subscript_cmp a.children.entries };

    ghost size = { weight };

    ghost use Rattle.mj_locktab.specs.Falls.{child_le-weight};

    ghost size_decreases = { λ a h. child_le-weight (a.holder, tallies_of a.tallies) a.children.entries };
}

impl Node {
    /// Has the job hold the name at a list of subscripts, which it didn't hold.
    pub fn mark(&mut self, job: u32, path: &[Sub]) -> Result<(), AllocError>
        requires { (p : List (List ℕ)) → tally_of (stand_at self.old p) job < HOLDS_LIMIT }
        ensures ok { OnOk result (HasOneMore (stand_at self.old) (stand_at self.new) (λ p. paths_eq p path.now) (λ p. is_front p path.now) job) }
        ensures err { OnErr result (AreAlike (stand_at self.old) (stand_at self.new)) }
    {
        self.tallies.raise(self.alloc, job)?;
        let [sub, rest @ ..] = path else {
            self.holder = Some(job);
            return Ok(());
        };
        let Some(child) = self.children.get_mut(sub) else {
            if let Err(error) = grow(&mut self.children, self.alloc, job, sub, rest) {
                self.tallies.lower(job);
                return Err(error);
            }
            return Ok(());
        };
        if let Err(error) = child.mark(job, rest) {
            self.tallies.lower(job);
            return Err(error);
        }
        Ok(())
    }

    /// Has the job hold the name at a list of subscripts no more.
    pub fn unmark(&mut self, job: u32, path: &[Sub])
        ensures { HasOneLess (stand_at self.old) (stand_at self.new) (λ p. paths_eq p path.now) (λ p. is_front p path.now) job }
    {
        self.tallies.lower(job);
        let [sub, rest @ ..] = path else {
            self.holder = None;
            return;
        };
        let Some(child) = self.children.get_mut(sub) else {
            return;
        };
        child.unmark(job, rest);
        if child.is_bare() {
            remove(&mut self.children, sub);
        }
    }

    /// Whether no name is held here or below.
    pub fn is_bare(&self) -> bool
        ensures { IsTrue result ↔ IsBare self.now }
    {
        self.holder.is_none() && self.tallies.is_empty() && self.children.is_empty()
    }

    /// The lowest other job that has a name in the way of a list of subscripts. It looks at no more nodes below than there are subscripts.
    pub fn least_other(&self, job: u32, path: &[Sub], visits: &mut u64) -> Option<u32>
        ensures least { MatchOption result (NoOther (is_in_way (stand_at self.now) path.now) job) (IsLeastOther (is_in_way (stand_at self.now) path.now) job) }
        ensures visits { visits.new ≤ visits.old + length path.now }
        ensures looked { min visits.old (2 ^ 64 - 1) ≤ visits.new }
    {
        let [sub, rest @ ..] = path else {
            return self.tallies.first_other(job);
        };
        let below = match self.down(sub, visits) {
            None => None,
            Some(child) => child.least_other(job, rest, visits),
        };
        lower_of(other_than(self.holder, job), below)
    }

    // The child at a subscript. It is the only way down, and counts one node more that is looked at.
    fn down(&self, sub: &Sub, visits: &mut u64) -> Option<&Node>
        ensures child { MatchOption result ((p : List (List ℕ)) → stand_at self.now (sub.now ∷ p) ≡ None)
            (λ child. (p : List (List ℕ)) → stand_at self.now (sub.now ∷ p) ≡ stand_at child.now p) }
        ensures visits { visits.new ≡ min (visits.old + 1) (2 ^ 64 - 1) }
    {
        *visits = visits.saturating_add(1);
        self.children.get(sub)
    }

    /// A copy.
    pub fn try_clone(&self) -> Result<Node, AllocError>
        ensures { IfOk result (λ n. n ≡ self.now) }
    {
        let mut children = BTreeMap::new(self.alloc);
        for (sub, child) in &self.children {
            add(&mut children, sub, child.try_clone()?)?;
        }
        Ok(Node {
            alloc: self.alloc,
            holder: self.holder,
            tallies: self.tallies.try_clone()?,
            children,
        })
    }
}

/// A node below which the job holds the one name at a list of subscripts.
pub fn chain(alloc: Global, job: u32, path: &[Sub]) -> Result<Node, AllocError>
    ensures { IfOk result (λ n. HasOneMore (λ p. None) (stand_at n) (λ p. paths_eq p path.now) (λ p. is_front p path.now) job) }
{
    let tallies = Tallies::One { own: job, count: 1 };
    let mut children = BTreeMap::new(alloc);
    match path {
        [] => Ok(Node {
            alloc,
            holder: Some(job),
            tallies,
            children,
        }),
        [sub, rest @ ..] => {
            add(&mut children, sub, chain(alloc, job, rest)?)?;
            Ok(Node {
                alloc,
                holder: None,
                tallies,
                children,
            })
        }
    }
}

// Adds a child below which the job holds the one name at a list of subscripts. None was there.
fn grow(
    children: &mut BTreeMap<Sub, Node>,
    alloc: Global,
    job: u32,
    sub: &Sub,
    rest: &[Sub],
) -> Result<(), AllocError>
    ensures ok { OnOk result (IsGrown children.old.entries children.new.entries sub.now rest.now job) }
    ensures err { OnErr result (children.new.entries ≡ children.old.entries) }
    ensures ordered { IsOrdered subscript_cmp children.old → IsOrdered subscript_cmp children.new }
{
    let child = chain(alloc, job, rest)?;
    add(children, sub, child)
}

// Adds a child, or puts it in place of that at its subscript.
fn add(children: &mut BTreeMap<Sub, Node>, sub: &Sub, child: Node) -> Result<(), AllocError>
    ensures ok { OnOk result (children.new.entries ≡ insert_entry subscript_cmp children.old.entries sub.now child) }
    ensures written { OnOk result (IsWritten subscript_cmp children.old.entries children.new.entries sub.now (Some child)) }
    ensures err { OnErr result (children.new.entries ≡ children.old.entries) }
    ensures ordered { IsOrdered subscript_cmp children.old → IsOrdered subscript_cmp children.new }
{
    children.insert(sub.try_clone()?, child)?;
    Ok(())
}

// Takes the child at a subscript out.
fn remove(children: &mut BTreeMap<Sub, Node>, sub: &Sub)
    ensures written { IsWritten subscript_cmp children.old.entries children.new.entries sub.now None }
    ensures ordered { IsOrdered subscript_cmp children.new }
{
    let _gone = children.remove(sub);
}

// The job, where it is another one.
fn other_than(holder: Option<u32>, job: u32) -> Option<u32>
    ensures { MatchOption result (NoOther (is_job holder) job) (IsLeastOther (is_job holder) job) }
{
    match holder {
        None => None,
        Some(other) => { if other == job { None } else { Some(other) } }
    }
}

// The lower of two jobs, if there is one.
fn lower_of(one: Option<u32>, other: Option<u32>) -> Option<u32>
    ensures { result ≡ lesser one other }
{
    match (one, other) {
        (Some(one), Some(other)) => Some(one.min(other)),
        (Some(one), None) => Some(one),
        (None, other) => other,
    }
}

impl Clone for Node {
    ghost is_clone = { λ n copy. copy ≡ n };

    fn clone(&self) -> Result<Node, AllocError> {
        self.try_clone()
    }
}
