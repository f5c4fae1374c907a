// The table of locks.

ghost use Rattle.std.specs.Prelude.{◌≡◌, ◌≤◌, [], map, IfOk, OnOk, OnErr};
ghost use Rattle.mj_locktab.specs.Locks.{count_of, job_of, name_of, IsLockTable};
ghost use Rattle.mj_locktab.specs.Changes.{after_give, after_give_all, FallsBy, IsWithout};
ghost use Rattle.mj_locktab.specs.Tries.{conflict_of, outcome_of, after_try, TryGives};
ghost use Rattle.mj_locktab.specs.Told.{visits_limit, visits_least};

use crate::held::{self, Parts};
use crate::index::Index;
use crate::taken::Taken;
use mj_subs::{Name, SharedName};
use std::alloc::{AllocError, Global};
use std::collections::BTreeMap;
use std::marker::Model;

/// The names that jobs hold, each with its count. Names of different jobs never overlap.
#[derive(Drop)]
pub struct LockTable {
    alloc: Global,
    held: Parts,
    index: Index,
    visits: u64,
}

impl Model for LockTable {
    ghost use Rattle.mj_locktab.specs.Locks.{IsLockTable};
    ghost use Rattle.mj_locktab.specs.Visits.{Visited};
    ghost use Rattle.mj_locktab.specs.Told.{stands_of, Tell};
    ghost use Rattle.mj_locktab.specs.Parts.{holds_of, AreParts};

    ghost Value = { Visited };

    ghost view = { λ t. record { holds = holds_of t.held.entries; visits = t.visits } };

    ghost invariant = { λ t. IsLockTable (holds_of t.held.entries) × AreParts t.held.entries × Tell (stands_of t.index) (holds_of t.held.entries) };
}

impl LockTable {
    /// A table in which nothing is held.
    pub fn new(alloc: Global) -> LockTable
        ensures { result.holds ≡ [] }
    {
        LockTable {
            alloc,
            held: BTreeMap::new(alloc),
            index: Index::new(alloc),
            visits: 0,
        }
    }

    /// Takes each name once more for each of its places in the list, or none of them. Of several holds that are in the way the one is told
    /// that the first such name of the list meets: the lowest job's, and of its names the least. Whether a name is in the way is told by no more nodes
    /// than one and the name's subscripts, however many names are held.
    pub fn try_take(&mut self, job: u32, names: &[Name]) -> Result<Taken, AllocError>
        ensures answer { IfOk result (λ taken. taken ≡ outcome_of self.old.holds job names.now) }
        ensures after { OnOk result (self.new.holds ≡ after_try self.old.holds job names.now) }
        ensures meaning { IfOk result (λ taken. TryGives self.old.holds job names.now taken self.new.holds) }
        ensures err { OnErr result (self.new.holds ≡ self.old.holds) }
        ensures visits { OnOk result (self.new.visits ≤ visits_limit names.now) }
        ensures looked { OnOk result (visits_least (conflict_of self.old.holds job names.now) names.now ≤ self.new.visits) }
    {
        let mut visits = 0;
        match held::conflict_of(&self.held, &self.index, job, names, &mut visits) {
            Some((holder, in_the_way, _)) => {
                let name = shared(self.alloc, in_the_way)?;
                self.visits = visits;
                Ok(Taken::Busy { holder, name })
            }
            None => {
                self.visits = visits;
                if !held::take_each(&mut self.held, &mut self.index, self.alloc, job, names)? {
                    return Ok(Taken::Limit);
                }
                Ok(Taken::Got)
            }
        }
    }

    /// How many nodes the test of the last try looked at.
    pub fn visits(&self) -> u64
        ensures { result ≡ self.now.visits }
    {
        self.visits
    }

    /// Gives each name up once for each of its places in the list. Of a name that the job doesn't hold nothing changes.
    pub fn give(&mut self, job: u32, names: &[Name])
        ensures after { self.new.holds ≡ after_give self.old.holds job names.now }
        ensures counts { FallsBy self.old.holds job names.now self.new.holds }
        ensures visits { self.new.visits ≡ self.old.visits }
    {
        held::give_each(&mut self.held, &mut self.index, job, names);
    }

    /// Gives all names of the job up, whatever their counts.
    pub fn give_all(&mut self, job: u32)
        ensures after { self.new.holds ≡ after_give_all self.old.holds job }
        ensures counts { IsWithout self.old.holds job self.new.holds }
        ensures visits { self.new.visits ≡ self.old.visits }
    {
        held::give_all(&mut self.held, &mut self.index, job);
    }

    /// How often the job holds the name.
    pub fn count(&self, job: u32, name: &Name) -> u32
        ensures { result ≡ count_of self.now.holds job name.now }
    {
        held::count(&self.held, job, name)
    }

    /// Each job with each name that it holds and its count: by job, then globals before locals, then by word and subscripts.
    pub fn held(&self, alloc: Global) -> Result<Vec<(u32, Name, u32)>, AllocError>
        ensures each { IfOk result (λ list. list.items ≡ map (λ e. (job_of e.0, name_of e.0, e.1)) self.now.holds) }
        ensures kept { IsLockTable self.now.holds }
    {
        held::list(alloc, &self.held)
    }

    /// A copy.
    pub fn try_clone(&self) -> Result<LockTable, AllocError>
        ensures { IfOk result (λ copy. copy.holds ≡ self.now.holds) }
    {
        let held = held::copy(&self.held)?;
        let index = self.index.try_clone()?;
        Ok(LockTable {
            alloc: self.alloc,
            held,
            index,
            visits: self.visits,
        })
    }

    /// That this table keeps what each does. Nothing is done.
    pub fn keeps(&self)
        ensures { IsLockTable self.now.holds }
    {
        let _held = &self.held; // for the proof
    }
}

// A copy of a name behind a pointer, so that the answer of a try is small.
fn shared(alloc: Global, name: &Name) -> Result<SharedName, AllocError>
    ensures { IfOk result (λ shared. shared ≡ name.now) }
{
    SharedName::new(alloc, name.try_clone()?)
}
