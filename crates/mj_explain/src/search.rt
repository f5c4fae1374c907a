// Deadlocks are looked for.

ghost use Rattle.std.specs.Prelude.{◌≡◌, true, All, IfOk, OnOk};
ghost use Rattle.mj_explain.specs.Waiting.{is_deadlock};

use crate::cycles::{Asked, Hold, Wait, is_deadlock, is_wait, wants};
use std::alloc::{AllocError, Global};

/// Jobs that wait for each other, round by round. A job is in one of them at most.
pub fn deadlocks(
    alloc: Global,
    asked: &[Asked],
    holds: &[Hold],
) -> Result<Vec<Vec<Wait>>, AllocError>
    ensures { IfOk result (λ found. All (λ waits. is_deadlock asked.now holds.now waits.items ≡ true) found.items) }
{
    let mut left = Vec::new(alloc);
    left.resize(asked.len(), true)?;
    let mut found = Vec::new(alloc);
    for _ in 0..asked.len() {
        if !add_round(alloc, asked, holds, &mut left, &mut found)? {
            break;
        }
    }
    Ok(found)
}

// Adds the waits of a round of jobs that are left, which aren't left then; or says that there is none.
fn add_round(
    alloc: Global,
    asked: &[Asked],
    holds: &[Hold],
    left: &mut Vec<bool>,
    found: &mut Vec<Vec<Wait>>,
) -> Result<bool, AllocError>
    ensures { All (λ waits. is_deadlock asked.now holds.now waits.items ≡ true) found.old.items
        → OnOk result (All (λ waits. is_deadlock asked.now holds.now waits.items ≡ true) found.new.items) }
{
    for _ in 0..asked.len() {
        if !drop_free(asked, holds, left) {
            break;
        }
    }
    let Some(start) = left.iter().position(|is| *is) else {
        return Ok(false);
    };
    let waits = round_from(alloc, asked, holds, left, start)?;
    for wait in &waits {
        if let Some(is) = left.get_mut(wait.ask) {
            *is = false;
        }
    }
    if is_deadlock(asked, holds, &waits) {
        found.push(waits)?;
        return Ok(true);
    }
    Ok(false)
}

// Those that wait for none of those that are left aren't left any more. It says whether there were any.
fn drop_free(asked: &[Asked], holds: &[Hold], left: &mut [bool]) -> bool {
    let mut some = false;
    for ask in 0..left.len() {
        if left[ask] && wait_of(asked, holds, left, ask).is_none() {
            left[ask] = false;
            some = true;
        }
    }
    some
}

// What a job waits for of those that are left, and which of the asks is that job's.
fn wait_of(asked: &[Asked], holds: &[Hold], left: &[bool], ask: usize) -> Option<(Wait, usize)> {
    for (hold, (job, _, _)) in holds.iter().enumerate() {
        if let Some(next) = ask_of(asked, *job)
            && left.get(next) == Some(&true)
        {
            for name in 0..wants(asked.get(ask)) {
                let wait = Wait { ask, name, hold };
                if is_wait(asked, holds, wait) {
                    return Some((wait, next));
                }
            }
        }
    }
    None
}

// Which of the asks is that of a job.
fn ask_of(asked: &[Asked], job: u32) -> Option<usize> {
    asked.iter().position(|(other, _)| *other == job)
}

// The waits of a round to which a job's waits lead.
fn round_from(
    alloc: Global,
    asked: &[Asked],
    holds: &[Hold],
    left: &[bool],
    start: usize,
) -> Result<Vec<Wait>, AllocError> {
    let mut at = start;
    for _ in 0..asked.len() {
        if let Some((_, next)) = wait_of(asked, holds, left, at) {
            at = next;
        }
    }
    let first = at;
    let mut waits = Vec::new(alloc);
    for _ in 0..asked.len() {
        if let Some((wait, next)) = wait_of(asked, holds, left, at) {
            waits.push(wait)?;
            at = next;
            if at == first {
                break;
            }
        }
    }
    Ok(waits)
}
