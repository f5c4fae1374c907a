// The holds of all jobs, each job's by themselves.

ghost use Rattle.std.specs.Prelude.{◌≡◌, ◌+◌, ◌-◌, ◌^◌, min, ◌≤◌, length, map, false, None, IfOk, OnErr};
ghost use Rattle.std.specs.Option.{option_map};
ghost use Rattle.std.specs.Ordering.{nat_cmp};
ghost use Rattle.std.specs.Map.{lookup};
ghost use Rattle.std.specs.BTreeMap.{is_at};
ghost use Rattle.mj_locktab.specs.Locks.{hold_of, job_of, name_of, count_of, is_past_limit, IsLockTable};
ghost use Rattle.mj_locktab.specs.Changes.{one_more, one_less, after_take, after_give, after_give_all};
ghost use Rattle.mj_locktab.specs.Tries.{conflict_with, conflict_of, AreFree, TakeLeaves};
ghost use Rattle.mj_locktab.specs.Told.{stands_of, Tell, IsFree, visits_limit, visits_least};
ghost use Rattle.mj_locktab.specs.Parts.{holds_of, AreParts};

use crate::index::Index;
use crate::part::{self, Part};
use mj_subs::Name;
use std::alloc::{AllocError, Global};
use std::collections::BTreeMap;

/// The most names that a job may hold.
pub const HOLDS_LIMIT: usize = 1024;

/// The most often that a job may hold one name.
pub const COUNT_LIMIT: u32 = u32::MAX;

/// Jobs, each with its names in order and their counts. A job without a name may be told or not.
pub type Parts = BTreeMap<u32, Part>;

/// The first hold of another job that keeps this one from the names: that job, the name and its count. For each name the trees are asked, at the node
/// of its word and at one for each of its subscripts. Only the holds of the job that they name are looked through.
pub fn conflict_of<'a>(
    parts: &'a Parts,
    index: &Index,
    job: u32,
    names: &[Name],
    visits: &mut u64,
) -> Option<(u32, &'a Name, u32)>
    requires parts { AreParts parts.now.entries }
    requires told { Tell (stands_of index.now) (holds_of parts.now.entries) }
    ensures conflict { option_map (λ e. (hold_of e.0 e.1.now, e.2)) result ≡ conflict_of (holds_of parts.now.entries) job names.now }
    ensures visits { visits.new ≤ visits.old + visits_limit names.now }
    ensures looked { min (visits.old + visits_least (option_map (λ e. (hold_of e.0 e.1.now, e.2)) result) names.now) (2 ^ 64 - 1) ≤ visits.new }
{
    for name in names {
        if let Some(entry) = conflict_with(parts, index, job, name, visits) {
            return Some(entry);
        }
    }
    None
}

// The first hold of another job that keeps this one from the name.
fn conflict_with<'a>(
    parts: &'a Parts,
    index: &Index,
    job: u32,
    name: &Name,
    visits: &mut u64,
) -> Option<(u32, &'a Name, u32)>
    requires parts { AreParts parts.now.entries }
    requires told { Tell (stands_of index.now) (holds_of parts.now.entries) }
    ensures conflict { option_map (λ e. (hold_of e.0 e.1.now, e.2)) result ≡ conflict_with (holds_of parts.now.entries) job name.now }
    ensures visits { visits.new ≤ visits.old + 1 + length name.now.subscripts }
    ensures looked { min (visits.old + 1) (2 ^ 64 - 1) ≤ visits.new }
{
    match index.least_other(job, name, visits) {
        None => None,
        Some(least) => match parts.get(&least) {
            None => None,
            Some(part) => part::first_conflict(part, least, job, name),
        },
    }
}

/// Takes each name once more for each of its places, or none where a limit would be passed, and says which.
pub fn take_each(
    parts: &mut Parts,
    index: &mut Index,
    alloc: Global,
    job: u32,
    names: &[Name],
) -> Result<bool, AllocError>
    requires parts { AreParts parts.old.entries }
    requires kept { IsLockTable (holds_of parts.old.entries) }
    requires told { Tell (stands_of index.old) (holds_of parts.old.entries) }
    requires free { AreFree (holds_of parts.old.entries) job names.now }
    ensures ok { IfOk result (λ taken.
        TakeLeaves (holds_of parts.old.entries) (after_take (holds_of parts.old.entries) job names.now) job taken (holds_of parts.new.entries)) }
    ensures err { OnErr result (holds_of parts.new.entries ≡ holds_of parts.old.entries) }
    ensures parts { AreParts parts.new.entries }
    ensures told { Tell (stands_of index.new) (holds_of parts.new.entries) }
{
    for (i, name) in names.iter().enumerate() {
        match take(parts, index, alloc, job, name) {
            Ok(true) => {}
            Ok(false) => {
                give_each(parts, index, job, &names[..i]);
                return Ok(false);
            }
            Err(error) => {
                give_each(parts, index, job, &names[..i]);
                return Err(error);
            }
        }
    }
    Ok(true)
}

// Takes the name once more, or leaves it where a limit would be passed, and says which.
fn take(
    parts: &mut Parts,
    index: &mut Index,
    alloc: Global,
    job: u32,
    name: &Name,
) -> Result<bool, AllocError>
    requires parts { AreParts parts.old.entries }
    requires within { is_past_limit (holds_of parts.old.entries) job ≡ false }
    requires told { Tell (stands_of index.old) (holds_of parts.old.entries) }
    requires free { IsFree (holds_of parts.old.entries) job name.now }
    ensures ok { IfOk result (λ taken.
        TakeLeaves (holds_of parts.old.entries) (one_more (holds_of parts.old.entries) job name.now) job taken (holds_of parts.new.entries)) }
    ensures err { OnErr result (holds_of parts.new.entries ≡ holds_of parts.old.entries) }
    ensures parts { AreParts parts.new.entries }
    ensures told { Tell (stands_of index.new) (holds_of parts.new.entries) }
{
    match parts.get_mut(&job) {
        Some(part) => part::take(part, index, alloc, job, name),
        None => take_first(parts, index, alloc, job, name),
    }
}

// Takes the name for a job that isn't told.
fn take_first(
    parts: &mut Parts,
    index: &mut Index,
    alloc: Global,
    job: u32,
    name: &Name,
) -> Result<bool, AllocError>
    requires parts { AreParts parts.old.entries }
    requires untold { lookup (is_at (nat_cmp job)) parts.old.entries ≡ None }
    requires within { is_past_limit (holds_of parts.old.entries) job ≡ false }
    requires told { Tell (stands_of index.old) (holds_of parts.old.entries) }
    requires free { IsFree (holds_of parts.old.entries) job name.now }
    ensures ok { IfOk result (λ taken.
        TakeLeaves (holds_of parts.old.entries) (one_more (holds_of parts.old.entries) job name.now) job taken (holds_of parts.new.entries)) }
    ensures err { OnErr result (holds_of parts.new.entries ≡ holds_of parts.old.entries) }
    ensures parts { AreParts parts.new.entries }
    ensures told { Tell (stands_of index.new) (holds_of parts.new.entries) }
{
    open(parts, alloc, job)?;
    match parts.get_mut(&job) {
        Some(part) => part::take(part, index, alloc, job, name),
        None => Err(AllocError), // it was opened
    }
}

// Makes room for the names of a job that isn't told.
fn open(parts: &mut Parts, alloc: Global, job: u32) -> Result<(), AllocError>
    requires parts { AreParts parts.old.entries }
    requires untold { lookup (is_at (nat_cmp job)) parts.old.entries ≡ None }
    ensures same { holds_of parts.new.entries ≡ holds_of parts.old.entries }
    ensures parts { AreParts parts.new.entries }
{
    parts.insert(job, BTreeMap::new(alloc))?;
    Ok(())
}

/// Gives each name up once for each of its places.
pub fn give_each(parts: &mut Parts, index: &mut Index, job: u32, names: &[Name])
    requires parts { AreParts parts.old.entries }
    requires told { Tell (stands_of index.old) (holds_of parts.old.entries) }
    ensures after { holds_of parts.new.entries ≡ after_give (holds_of parts.old.entries) job names.now }
    ensures parts { AreParts parts.new.entries }
    ensures told { Tell (stands_of index.new) (holds_of parts.new.entries) }
{
    for name in names {
        give(parts, index, job, name);
    }
}

// Gives the name up once.
fn give(parts: &mut Parts, index: &mut Index, job: u32, name: &Name)
    requires parts { AreParts parts.old.entries }
    requires told { Tell (stands_of index.old) (holds_of parts.old.entries) }
    ensures after { holds_of parts.new.entries ≡ one_less (holds_of parts.old.entries) job name.now }
    ensures parts { AreParts parts.new.entries }
    ensures told { Tell (stands_of index.new) (holds_of parts.new.entries) }
{
    let Some(part) = parts.get_mut(&job) else {
        return;
    };
    part::give(part, index, job, name);
}

/// Gives all names of the job up. No hold of another job is looked at.
pub fn give_all(parts: &mut Parts, index: &mut Index, job: u32)
    requires parts { AreParts parts.old.entries }
    requires told { Tell (stands_of index.old) (holds_of parts.old.entries) }
    ensures after { holds_of parts.new.entries ≡ after_give_all (holds_of parts.old.entries) job }
    ensures parts { AreParts parts.new.entries }
    ensures told { Tell (stands_of index.new) (holds_of parts.new.entries) }
{
    let Some(mut part) = parts.remove(&job) else {
        return;
    };
    while let Some((name, _count)) = part.pop_last() {
        index.unmark(job, &name);
    }
}

/// How often the job holds the name.
pub fn count(parts: &Parts, job: u32, name: &Name) -> u32
    requires { AreParts parts.now.entries }
    ensures { result ≡ count_of (holds_of parts.now.entries) job name.now }
{
    match parts.get(&job) {
        None => 0,
        Some(part) => part::count(part, name),
    }
}

/// Each job with its names and their counts.
pub fn list(alloc: Global, parts: &Parts) -> Result<Vec<(u32, Name, u32)>, AllocError>
    ensures { IfOk result (λ list. list.items ≡ map (λ e. (job_of e.0, name_of e.0, e.1)) (holds_of parts.now.entries)) }
{
    let mut list = Vec::new(alloc);
    for (job, part) in parts {
        part::list(&mut list, *job, part)?;
    }
    Ok(list)
}

/// A copy.
pub fn copy(parts: &Parts) -> Result<Parts, AllocError>
    requires { AreParts parts.now.entries }
    ensures holds { IfOk result (λ copy. holds_of copy.entries ≡ holds_of parts.now.entries) }
    ensures parts { IfOk result (λ copy. AreParts copy.entries) }
{
    let copy = parts.clone()?;
    Ok(copy)
}
