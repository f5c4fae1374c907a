// What is looked for in runs.

ghost use Rattle.std.specs.Prelude.{◌≡◌, true, Some, IfOk, IfSome, IfNone};
ghost use Rattle.mj_load.specs.Image.{program_of};
ghost use Rattle.mj_explore.specs.Found.{EndsJudged, IsStuck, Shows, found_verdict};

use crate::fates::{Fate, fate_of};
use mj_dev::Memory;
use mj_judge::{Mark, Verdict, count, is_over, verdict_over};
use mj_run::Jobs;
use mj_script::Script;
use mj_sessions::Sessions;
use mj_sys::Opening;
use mj_text::Fault;
use std::alloc::{AllocError, Global};

/// What is looked for.
#[derive(Drop)]
pub enum Goal {
    /// that a job ends by a fault
    Fault,
    /// that all jobs wait, and none for what it asks with a timeout
    Stuck,
    /// that a commit clashes
    Clash,
    /// that all jobs have ended, and over the globals that they left the expression of this script isn't true: it is untrue, or it faults
    False(Script),
}

impl Goal {
    /// Whether only a run whose jobs have all ended shows it.
    pub fn is_of_ends(&self) -> bool {
        matches!(self, Goal::False(_))
    }
}

/// In which way a run shows what is looked for.
#[derive(Clone, Copy, PartialEq, Eq, Debug)]
pub enum Finding {
    /// as it is looked for; of an expression, that it is untrue
    Sought,
    /// that the expression has no value, since it faults
    Faulty(Fault),
}

impl Finding {
    /// Whether another run shows it in the same way.
    pub fn is_that_of(self, shown: Option<Finding>) -> bool
        ensures { result ≡ true → shown ≡ Some self }
    {
        match (self, shown) {
            (Finding::Sought, Some(Finding::Sought)) => true,
            (Finding::Faulty(fault), Some(Finding::Faulty(found))) => found == fault,
            _ => false,
        }
    }
}

/// In which way jobs that stand so show what is looked for, if they do. They may be stepped for that.
pub fn shown<O: Opening>(
    alloc: Global,
    jobs: &mut Jobs<Memory, Sessions<Memory>, O>,
    goal: &Goal,
) -> Result<Option<Finding>, AllocError>
    ensures { IfOk result (λ shown. IfSome shown (λ finding. Shows goal.now finding (program_of jobs.old.image) O.opening jobs.old.history)) }
{
    match goal {
        Goal::Stuck => {
            if is_stuck(jobs)? {
                Ok(Some(Finding::Sought))
            } else {
                Ok(None)
            }
        }
        other => seen(alloc, jobs, other),
    }
}

/// In which way jobs that stand so show it without a step. That they are stuck isn't seen so.
pub fn seen<O: Opening>(
    alloc: Global,
    jobs: &Jobs<Memory, Sessions<Memory>, O>,
    goal: &Goal,
) -> Result<Option<Finding>, AllocError>
    ensures { IfOk result (λ seen. IfSome seen (λ finding. Shows goal.now finding (program_of jobs.now.image) O.opening jobs.now.history)) }
{
    match goal {
        Goal::False(condition) => untruth(alloc, jobs, condition),
        other => {
            if has_event(jobs, other) {
                Ok(Some(Finding::Sought))
            } else {
                Ok(None)
            }
        }
    }
}

// Whether an event shows what is looked for.
fn has_event<O: Opening>(jobs: &Jobs<Memory, Sessions<Memory>, O>, goal: &Goal) -> bool
    ensures { result ≡ true → Shows goal.now Finding.Sought (program_of jobs.now.image) O.opening jobs.now.history }
{
    match goal {
        Goal::Fault => count(&jobs.core, Mark::Fault) > 0,
        Goal::Clash => count(&jobs.core, Mark::Clash) > 0,
        Goal::Stuck | Goal::False(_) => false,
    }
}

// Whether jobs that haven't all ended wait.
fn is_stuck<O: Opening>(jobs: &mut Jobs<Memory, Sessions<Memory>, O>) -> Result<bool, AllocError>
    ensures { IfOk result (λ is. is ≡ true → IsStuck (program_of jobs.old.image) O.opening jobs.old.history) }
{
    let fate = fate_of(jobs)?;
    match fate {
        Fate::Stuck => Ok(true),
        Fate::Over | Fate::Stopped => Ok(false),
    }
}

// In which way the expression isn't true over the globals that were left, where all jobs have ended.
fn untruth<O: Opening>(
    alloc: Global,
    jobs: &Jobs<Memory, Sessions<Memory>, O>,
    condition: &Script,
) -> Result<Option<Finding>, AllocError>
    ensures { IfOk result (λ seen. IfSome seen (λ finding. EndsJudged condition.now (found_verdict finding) O.opening jobs.now.history)) }
{
    if !is_over(&jobs.core) {
        return Ok(None);
    }
    match verdict_over(alloc, condition, jobs.core.globals())? {
        Some(verdict) => Ok(finding_of(verdict)),
        None => Ok(None),
    }
}

// What an expression is found to be that comes to this, if it isn't true.
fn finding_of(verdict: Verdict) -> Option<Finding>
    ensures some { IfSome result (λ finding. verdict ≡ found_verdict finding) }
    ensures none { IfNone result (verdict ≡ Verdict.Holds) }
{
    match verdict {
        Verdict::Holds => None,
        Verdict::Untrue => Some(Finding::Sought),
        Verdict::Faults(fault) => Some(Finding::Faulty(fault)),
    }
}
