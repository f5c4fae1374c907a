// The names of one job, each with how often it holds it.

ghost use Rattle.std.specs.Prelude.{◌≡◌, ℕ, ◌<◌, ◌≤◌, ◌++◌, List, None, map, true, false, IfOk, OnOk, OnErr};
ghost use Rattle.std.specs.Option.{option_map};
ghost use Rattle.std.specs.FinMap.{find};
ghost use Rattle.mj_locktab.specs.declared.held.TheConstants.{HOLDS_LIMIT};
ghost use Rattle.mj_locktab.specs.Locks.{hold_cmp, hold_of, job_of, name_of, names_of, count_of, is_past_limit};
ghost use Rattle.mj_locktab.specs.Changes.{one_more, one_less};
ghost use Rattle.mj_locktab.specs.Tries.{is_conflict, conflict_with, TakeLeaves};
ghost use Rattle.mj_locktab.specs.Trees.{holder_of, tally_of, along};
ghost use Rattle.mj_locktab.specs.Told.{stands_of, Follows};
ghost use Rattle.mj_locktab.specs.Parts.{held_by, IsPart};

use crate::held::{COUNT_LIMIT, HOLDS_LIMIT};
use crate::index::Index;
use mj_subs::Name;
use std::alloc::{AllocError, Global};
use std::collections::BTreeMap;

/// Names in order, each with its count.
pub type Part = BTreeMap<Name, u32>;

/// The holder's first name that keeps another job from this one: the holder, that name and its count.
pub fn first_conflict<'a>(
    part: &'a Part,
    holder: u32,
    job: u32,
    name: &Name,
) -> Option<(u32, &'a Name, u32)>
    ensures { option_map (λ e. (hold_of e.0 e.1.now, e.2)) result ≡ conflict_with (held_by holder part.now.entries) job name.now }
{
    for (held, count) in part {
        if is_conflict(holder, held, job, name) {
            return Some((holder, held, *count));
        }
    }
    None
}

fn is_conflict(holder: u32, held: &Name, job: u32, name: &Name) -> bool
    ensures { result ≡ is_conflict job name.now (hold_of holder held.now, 0) }
{
    holder != job && held.overlap(name)
}

/// Takes the name once more, or leaves it where a limit would be passed, and says which. The trees follow.
pub fn take(
    part: &mut Part,
    index: &mut Index,
    alloc: Global,
    job: u32,
    name: &Name,
) -> Result<bool, AllocError>
    requires part { IsPart job (held_by job part.old.entries) }
    requires within { is_past_limit (held_by job part.old.entries) job ≡ false }
    requires room { (p : List (List ℕ)) → tally_of (along (stands_of index.old) name.now p) job ≤ names_of (held_by job part.old.entries) job }
    requires free { find hold_cmp (hold_of job name.now) (held_by job part.old.entries) ≡ None → holder_of (stands_of index.old name.now) ≡ None }
    ensures ok { IfOk result (λ taken.
        TakeLeaves (held_by job part.old.entries) (one_more (held_by job part.old.entries) job name.now) job taken (held_by job part.new.entries)) }
    ensures err { OnErr result (held_by job part.new.entries ≡ held_by job part.old.entries) }
    ensures follows { Follows (stands_of index.old) (stands_of index.new) (held_by job part.old.entries) (held_by job part.new.entries) job name.now }
{
    match part.get_mut(name) {
        Some(count) => {
            if *count == COUNT_LIMIT {
                return Ok(false);
            }
            *count += 1;
            Ok(true)
        }
        None => {
            if part.len() >= HOLDS_LIMIT {
                return Ok(false);
            }
            add(part, index, alloc, job, name)?;
            Ok(true)
        }
    }
}

// Adds a new name, and has the trees tell of it. Where memory is refused to the map, it is taken out of the trees again.
fn add(
    part: &mut Part,
    index: &mut Index,
    alloc: Global,
    job: u32,
    name: &Name,
) -> Result<(), AllocError>
    requires part { IsPart job (held_by job part.old.entries) }
    requires absent { find hold_cmp (hold_of job name.now) (held_by job part.old.entries) ≡ None }
    requires room { (p : List (List ℕ)) → tally_of (along (stands_of index.old) name.now p) job < HOLDS_LIMIT }
    requires free { holder_of (stands_of index.old name.now) ≡ None }
    ensures ok { OnOk result (held_by job part.new.entries ≡ one_more (held_by job part.old.entries) job name.now) }
    ensures err { OnErr result (held_by job part.new.entries ≡ held_by job part.old.entries) }
    ensures follows { Follows (stands_of index.old) (stands_of index.new) (held_by job part.old.entries) (held_by job part.new.entries) job name.now }
{
    let added = name.try_clone()?;
    index.mark(alloc, job, name)?;
    if let Err(_refused) = part.insert(added, 1) {
        index.unmark(job, name);
        return Err(AllocError);
    }
    Ok(())
}

/// Gives the name up once. The trees follow.
pub fn give(part: &mut Part, index: &mut Index, job: u32, name: &Name)
    requires { IsPart job (held_by job part.old.entries) }
    ensures after { held_by job part.new.entries ≡ one_less (held_by job part.old.entries) job name.now }
    ensures follows { Follows (stands_of index.old) (stands_of index.new) (held_by job part.old.entries) (held_by job part.new.entries) job name.now }
{
    let Some(count) = part.get_mut(name) else {
        return;
    };
    if *count > 1 {
        *count -= 1;
    } else {
        let _gone = part.remove(name);
        index.unmark(job, name);
    }
}

/// How often the job holds the name, whichever job's names these are.
pub fn count(part: &Part, name: &Name) -> u32
    ensures { (job : ℕ) → result ≡ count_of (held_by job part.now.entries) job name.now }
{
    match part.get(name) {
        None => 0,
        Some(count) => *count,
    }
}

/// Puts the job with each of its names and their counts to the end of a list.
pub fn list(list: &mut Vec<(u32, Name, u32)>, job: u32, part: &Part) -> Result<(), AllocError>
    ensures { OnOk result (list.new.items ≡ list.old.items ++ map (λ e. (job_of e.0, name_of e.0, e.1)) (held_by job part.now.entries)) }
{
    for (name, count) in part {
        list.push((job, name.try_clone()?, *count))?;
    }
    Ok(())
}
