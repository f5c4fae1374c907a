// What becomes of the jobs of a run.

ghost use Rattle.std.specs.Prelude.{◌≡◌, IfOk};
ghost use Rattle.mj_load.specs.Image.{program_of};
ghost use Rattle.mj_explore.specs.Found.{IsFateOf, is_fate_stopped, is_fate_stuck};

use crate::waiting::all_wait;
use mj_dev::Memory;
use mj_judge::is_over;
use mj_run::Jobs;
use mj_sessions::Sessions;
use mj_sys::Opening;
use std::alloc::AllocError;

/// What becomes of the jobs of a run.
#[derive(Clone, Copy, PartialEq, Eq, Debug)]
pub enum Fate {
    /// all have ended
    Over,
    /// not all have, and each that hasn't waits for ever
    Stuck,
    /// not all have, and they go no further
    Stopped,
}

impl Fate {
    /// Whether they are stuck.
    pub fn is_stuck(self) -> bool
        ensures { result ≡ is_fate_stuck self }
    {
        matches!(self, Fate::Stuck)
    }

    /// Whether they were stopped.
    pub fn is_stopped(self) -> bool
        ensures { result ≡ is_fate_stopped self }
    {
        matches!(self, Fate::Stopped)
    }
}

/// What has become of jobs that stand so. They may be stepped for that.
pub fn fate_of<O: Opening>(jobs: &mut Jobs<Memory, Sessions<Memory>, O>) -> Result<Fate, AllocError>
    ensures { IfOk result (λ fate. IsFateOf fate (program_of jobs.old.image) O.opening jobs.old.history) }
{
    if is_over(&jobs.core) {
        return Ok(Fate::Over);
    }
    let all = all_wait(jobs)?;
    if all {
        Ok(Fate::Stuck)
    } else {
        Ok(Fate::Stopped)
    }
}
