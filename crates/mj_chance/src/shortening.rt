// Lists of steps that are made shorter, and show the same.

ghost use Rattle.std.specs.Prelude.{◌≡◌, ◌≤◌, List, length, IsTrue, IfOk, IfSome};
ghost use Rattle.mj_steps.specs.declared.step.Step.{Step as StepOf};

use mj_steps::Step;
use std::alloc::{AllocError, Global};

/// What is tried with steps.
pub trait Trial {
    /// what a list of steps shows
    ghost shows: { Self → List StepOf → Type 0 };

    /// Tries the steps that are wished for, and gives those that were made, where these show it.
    fn play(&self, wishes: &[Step]) -> Result<Option<Vec<Step>>, AllocError>
        ensures { IfOk result (λ played. IfSome played (λ steps. shows self.now steps.items)) };
}

/// A list of steps that shows what this one does, and is no longer. It takes no more than so many tries, each of which leaves out a part, a large one first.
pub fn shorten<T: Trial>(
    alloc: Global,
    trial: &T,
    shown: Vec<Step>,
    tries: usize,
) -> Result<Vec<Step>, AllocError>
    requires { T.shows trial.now shown.items }
    ensures shows { IfOk result (λ steps. T.shows trial.now steps.items) }
    ensures short { IfOk result (λ steps. length steps.items ≤ length shown.items) }
{
    let mut wishes = without(alloc, &shown, 0, 0)?;
    let mut best = shown;
    improve(trial, &wishes, &mut best)?;
    let mut size = wishes.len();
    let mut at = 0;
    'tries: for _ in 0..tries {
        if at >= wishes.len() {
            if size <= 1 {
                break;
            }
            size /= 2;
            at = 0;
        }
        let fewer = without(alloc, &wishes, at, size)?;
        if improve(trial, &fewer, &mut best)? {
            wishes = fewer;
        } else {
            at = at.saturating_add(size);
        }
    }
    Ok(best)
}

// Tries these wishes, and keeps the steps that come of them where they show it and are no worse than the best so far. Says whether they are.
fn improve<T: Trial>(trial: &T, wishes: &[Step], best: &mut Vec<Step>) -> Result<bool, AllocError>
    requires { T.shows trial.now best.old.items }
    ensures shows { T.shows trial.now best.new.items }
    ensures short { length best.new.items ≤ length best.old.items }
{
    match trial.play(wishes)? {
        None => Ok(false),
        Some(steps) => {
            let better = is_no_worse(&steps, best);
            if better {
                *best = steps;
            }
            Ok(better)
        }
    }
}

// Whether there are fewer steps, or as many that don't go from job to job more often.
fn is_no_worse(steps: &[Step], best: &[Step]) -> bool
    ensures { IsTrue result → length steps.now ≤ length best.now }
{
    steps.len() < best.len() || steps.len() == best.len() && switches(steps) <= switches(best)
}

// How often steps go from one job to another.
fn switches(steps: &[Step]) -> usize {
    let mut last = 0;
    let mut count: usize = 0;
    for step in steps {
        if step.job != last {
            count = count.saturating_add(1);
        }
        last = step.job;
    }
    count
}

// These steps without so many from a place on.
fn without(
    alloc: Global,
    steps: &[Step],
    at: usize,
    count: usize,
) -> Result<Vec<Step>, AllocError> {
    let start = at.min(steps.len());
    let end = at.saturating_add(count).min(steps.len());
    let mut left = Vec::new(alloc);
    left.extend_from_slice(&steps[..start])?;
    left.extend_from_slice(&steps[end..])?;
    Ok(left)
}
