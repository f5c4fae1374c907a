// Jobs that all wait.

ghost use Rattle.std.specs.Prelude.{◌≡◌, ℕ, true, IfOk};
ghost use Rattle.mj_jobs.specs.Rows.{IsLive};
ghost use Rattle.mj_load.specs.Image.{program_of};
ghost use Rattle.mj_sys.specs.History.{state_of};
ghost use Rattle.mj_explore.specs.Found.{IsHeld};

use mj_dev::Memory;
use mj_run::Jobs;
use mj_sessions::Sessions;
use mj_steps::{Refusal, Standing, Step, Stepped, Way};
use mj_sys::Opening;
use std::alloc::AllocError;

/// Whether all jobs that haven't ended wait, and none for what it asks with a timeout. Each is stepped once more, which changes nothing where that is so.
pub fn all_wait<O: Opening>(
    jobs: &mut Jobs<Memory, Sessions<Memory>, O>,
) -> Result<bool, AllocError>
    ensures { IfOk result (λ all. all ≡ true → (job : ℕ) → IsLive (state_of O.opening jobs.old.history).rows job
        → IsHeld (program_of jobs.old.image) O.opening jobs.old.history job) }
{
    let count = jobs.core.jobs();
    'each: for done in 0..count as u32 {
        if !waits(jobs, done + 1)? {
            return Ok(false);
        }
    }
    Ok(true)
}

// Whether a job has ended, or waits without a timeout: then nothing is asked or told. Where memory is refused to its step there is nothing to say of it.
fn waits<O: Opening>(
    jobs: &mut Jobs<Memory, Sessions<Memory>, O>,
    job: u32,
) -> Result<bool, AllocError>
    ensures held { IfOk result (λ is. is ≡ true → IsLive (state_of O.opening jobs.old.history).rows job
        → IsHeld (program_of jobs.old.image) O.opening jobs.old.history job) }
    ensures history { IfOk result (λ is. is ≡ true → jobs.new.history ≡ jobs.old.history) }
    ensures image { IfOk result (λ is. is ≡ true → jobs.new.image ≡ jobs.old.image) }
{
    let _rows = jobs.core.jobs(); // for the proof
    let events = jobs.core.len();
    let step = Step { job, way: Way::Go };
    match jobs.step(step) {
        Ok(Standing::Waits) => return Ok(true),
        Ok(Standing::Ended) => return Ok(jobs.core.len() == events),
        Ok(Standing::Goes) | Ok(Standing::WaitsTimed) => return Ok(false),
        Err(Refusal::Memory) => return Err(AllocError),
        Err(_) => return Ok(false),
    }
}
