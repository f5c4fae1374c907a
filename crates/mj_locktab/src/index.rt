// The names that are held, as trees by their words.

ghost use Rattle.std.specs.Prelude.{◌≡◌, ℕ, ◌+◌, ◌-◌, ◌^◌, min, ◌<◌, ◌≤◌, List, length, Option, None, IfOk, OnOk, OnErr, MatchOption};
ghost use Rattle.mj_subs.specs.Name.{Name as Seen, names_eq};
ghost use Rattle.mj_locktab.specs.declared.held.TheConstants.{HOLDS_LIMIT};
ghost use Rattle.mj_locktab.specs.Trees.{tally_of, along, is_at_or_above, is_in_way, AreAlike, HasOneMore, HasOneLess, NoOther, IsLeastOther};
ghost use Rattle.mj_locktab.specs.Told.{stands_of};

use crate::words::{self, Words};
use mj_subs::Name;
use std::alloc::{AllocError, Global};
use std::collections::BTreeMap;
use std::marker::Model;

/// At each name the job that holds it, and of each job how many names are held there and below.
#[derive(Drop)]
pub struct Index {
    globals: Words,
    locals: Words,
}

impl Model for Index {
    ghost use Rattle.mj_locktab.specs.Trees.{Kinds, spelled};

    ghost Value = { Kinds };

    ghost view = { λ a. record { globals = spelled a.globals.entries; locals = spelled a.locals.entries } };
}

impl Index {
    /// An index of no name.
    pub fn new(alloc: Global) -> Index
        ensures { AreAlike (λ n. None) (stands_of result) }
    {
        Index {
            globals: BTreeMap::new(alloc),
            locals: BTreeMap::new(alloc),
        }
    }

    /// The lowest other job that has a name in the way of this one. It looks at no more nodes than one and the name's subscripts.
    pub fn least_other(&self, job: u32, name: &Name, visits: &mut u64) -> Option<u32>
        ensures least { MatchOption result (NoOther (is_in_way (along (stands_of self.now) name.now) name.now.subscripts) job)
            (IsLeastOther (is_in_way (along (stands_of self.now) name.now) name.now.subscripts) job) }
        ensures visits { visits.new ≤ visits.old + 1 + length name.now.subscripts }
        ensures looked { min (visits.old + 1) (2 ^ 64 - 1) ≤ visits.new }
    {
        if name.is_global() {
            words::least_other(&self.globals, job, name, visits)
        } else {
            words::least_other(&self.locals, job, name, visits)
        }
    }

    /// Has the job hold a name that it didn't hold.
    pub fn mark(&mut self, alloc: Global, job: u32, name: &Name) -> Result<(), AllocError>
        requires { (p : List (List ℕ)) → tally_of (along (stands_of self.old) name.now p) job < HOLDS_LIMIT }
        ensures ok { OnOk result (HasOneMore (stands_of self.old) (stands_of self.new) (λ m. names_eq m name.now) (λ m. is_at_or_above m name.now) job) }
        ensures err { OnErr result (AreAlike (stands_of self.old) (stands_of self.new)) }
    {
        if name.is_global() {
            words::mark(&mut self.globals, alloc, job, name)
        } else {
            words::mark(&mut self.locals, alloc, job, name)
        }
    }

    /// Has the job hold a name no more.
    pub fn unmark(&mut self, job: u32, name: &Name)
        ensures { HasOneLess (stands_of self.old) (stands_of self.new) (λ m. names_eq m name.now) (λ m. is_at_or_above m name.now) job }
    {
        if name.is_global() {
            words::unmark(&mut self.globals, job, name);
        } else {
            words::unmark(&mut self.locals, job, name);
        }
    }

    /// A copy.
    pub fn try_clone(&self) -> Result<Index, AllocError>
        ensures { IfOk result (λ copy. copy ≡ self.now) }
    {
        Ok(Index {
            globals: words::copy(&self.globals)?,
            locals: words::copy(&self.locals)?,
        })
    }
}
