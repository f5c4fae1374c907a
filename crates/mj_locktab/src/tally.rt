// How many names each job has at a node of a tree or below it.

ghost use Rattle.std.specs.Prelude.{◌≡◌, ◌↔◌, ℕ, ◌+◌, ◌-◌, ◌^◌, ◌<◌, ◌==◌, ◌&&◌, not, nat_lt};
ghost use Rattle.std.specs.Prelude.{[], ◌∷◌, length, IsTrue, IfOk, OnOk, OnErr, MatchOption, if◌then◌else◌};
ghost use Rattle.mj_locktab.specs.Trees.{tally, tallies_of, AreCounted, NoOther, IsLeastOther};

use std::alloc::{AllocError, Global};
use std::collections::BTreeMap;

/// Jobs, each with how many names it has. One that isn't told has none. As long as there was never more than one job at a time, as at most nodes, that takes
/// no memory of its own.
#[derive(Drop)]
pub enum Tallies {
    /// No job.
    Empty,
    /// One job, and how many names it has.
    One { own: u32, count: u32 },
    /// Several jobs, or what is left of several: any number, or none.
    More(BTreeMap<u32, u32>),
}

impl Tallies {
    /// Whether no job is told.
    pub fn is_empty(&self) -> bool
        ensures { IsTrue result ↔ (length (tallies_of self.now) ≡ 0) }
    {
        match self {
            Tallies::Empty => true,
            Tallies::One { .. } => false,
            Tallies::More(map) => map.is_empty(),
        }
    }

    /// One name more of the job.
    pub fn raise(&mut self, alloc: Global, job: u32) -> Result<(), AllocError>
        requires { tally (tallies_of self.old) job < 2 ^ 32 - 1 }
        ensures ok { OnOk result ((j : ℕ) → tally (tallies_of self.new) j ≡ tally (tallies_of self.old) j + (if j == job then 1 else 0)) }
        ensures err { OnErr result (tallies_of self.new ≡ tallies_of self.old) }
        ensures counted { AreCounted (tallies_of self.old) → AreCounted (tallies_of self.new) }
    {
        match self {
            Tallies::Empty => {
                *self = Tallies::One { own: job, count: 1 };
                Ok(())
            }
            Tallies::One { own, count } => {
                if *own == job {
                    *count += 1;
                    return Ok(());
                }
                let mut map = only(alloc, *own, *count)?;
                raise_in(&mut map, job)?;
                *self = Tallies::More(map);
                Ok(())
            }
            Tallies::More(map) => raise_in(map, job),
        }
    }

    /// One name less of the job, where it has one.
    pub fn lower(&mut self, job: u32)
        ensures less { (j : ℕ) → tally (tallies_of self.new) j ≡ tally (tallies_of self.old) j - (if j == job then 1 else 0) }
        ensures counted { AreCounted (tallies_of self.old) → AreCounted (tallies_of self.new) }
    {
        match self {
            Tallies::Empty => {}
            Tallies::One { own, count } => {
                if *own != job {
                    return;
                }
                if *count > 1 {
                    *count -= 1;
                } else {
                    *self = Tallies::Empty;
                }
            }
            Tallies::More(map) => lower_in(map, job),
        }
    }

    /// The lowest other job that has a name. As a job without one is rarely told, it looks at two of them.
    pub fn first_other(&self, job: u32) -> Option<u32>
        ensures { MatchOption result (NoOther (λ j. nat_lt 0 (tally (tallies_of self.now) j)) job)
            (IsLeastOther (λ j. nat_lt 0 (tally (tallies_of self.now) j)) job) }
    {
        match self {
            Tallies::Empty => None,
            Tallies::One { own, count } => {
                if has_one(*own, *count, job) {
                    return Some(*own);
                }
                None
            }
            Tallies::More(map) => first_other_in(map, job),
        }
    }

    /// A copy.
    pub fn try_clone(&self) -> Result<Tallies, AllocError>
        ensures { IfOk result (λ copy. tallies_of copy ≡ tallies_of self.now) }
    {
        match self {
            Tallies::Empty => Ok(Tallies::Empty),
            Tallies::One { own, count } => Ok(Tallies::One {
                own: *own,
                count: *count,
            }),
            Tallies::More(map) => Ok(Tallies::More(map.clone()?)),
        }
    }
}

// A map of one job.
fn only(alloc: Global, job: u32, count: u32) -> Result<BTreeMap<u32, u32>, AllocError>
    ensures { IfOk result (λ map. map.entries ≡ (job, count) ∷ []) }
{
    let mut map = BTreeMap::new(alloc);
    map.insert(job, count)?;
    Ok(map)
}

// One name more of the job, in a map.
fn raise_in(map: &mut BTreeMap<u32, u32>, job: u32) -> Result<(), AllocError>
    requires { tally map.old.entries job < 2 ^ 32 - 1 }
    ensures ok { OnOk result ((j : ℕ) → tally map.new.entries j ≡ tally map.old.entries j + (if j == job then 1 else 0)) }
    ensures err { OnErr result (map.new.entries ≡ map.old.entries) }
    ensures counted { AreCounted map.old.entries → AreCounted map.new.entries }
{
    match map.get_mut(&job) {
        Some(count) => {
            *count += 1;
            Ok(())
        }
        None => {
            map.insert(job, 1)?;
            Ok(())
        }
    }
}

// One name less of the job, in a map.
fn lower_in(map: &mut BTreeMap<u32, u32>, job: u32)
    ensures less { (j : ℕ) → tally map.new.entries j ≡ tally map.old.entries j - (if j == job then 1 else 0) }
    ensures counted { AreCounted map.old.entries → AreCounted map.new.entries }
{
    let Some(count) = map.get_mut(&job) else {
        return;
    };
    if *count > 1 {
        *count -= 1;
    } else {
        let _gone = map.remove(&job);
    }
}

// The lowest other job that has a name, in a map.
fn first_other_in(map: &BTreeMap<u32, u32>, job: u32) -> Option<u32>
    ensures { MatchOption result (NoOther (λ j. nat_lt 0 (tally map.now.entries j)) job) (IsLeastOther (λ j. nat_lt 0 (tally map.now.entries j)) job) }
{
    for (other, count) in map {
        if has_one(*other, *count, job) {
            return Some(*other);
        }
    }
    None
}

// Whether it is another job, and has a name.
fn has_one(other: u32, count: u32, job: u32) -> bool
    ensures { result ≡ (not (other == job) && nat_lt 0 count) }
{
    other != job && count > 0
}
