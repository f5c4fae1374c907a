// Steps that someone chooses, one after the other.

ghost use Rattle.std.specs.Prelude.{◌≡◌, ◌≤◌, length, IfOk};
ghost use Rattle.mj_steps.specs.Driven.{ByList};

use mj_steps::{Ending, JOBS_LIMIT, Standing, Step, Stepped};
use std::alloc::{AllocError, Global};

/// Who chooses steps.
pub trait Chooser {
    /// The next step, by where the jobs stand, the first job first; none where there is none to come. A job stands so behind its last step. One that waited
    /// goes on again as soon as any job did something.
    fn choose(&mut self, jobs: &[Standing]) -> Option<Step>;
}

/// Steps that were made.
#[derive(Drop)]
pub struct Made {
    /// all of them, in order, the one that was refused among them
    pub steps: Vec<Step>,
    /// those behind which no job waited
    pub plain: Vec<Step>,
    /// how stepping ended
    pub ending: Ending,
}

/// Makes the steps that are chosen, up to one that is refused, but no more than so many.
pub fn step_by_choice<J: Stepped, C: Chooser>(
    alloc: Global,
    jobs: &mut J,
    chooser: &mut C,
    most: usize,
) -> Result<Made, AllocError>
    ensures listed { IfOk result (λ made. ByList J.makes 0 made.steps.items jobs.old made.ending jobs.new) }
    ensures within { IfOk result (λ made. length made.steps.items ≤ most) }
{
    let mut standings = [Standing::Goes; JOBS_LIMIT];
    let mut steps = Vec::new(alloc);
    let mut plain = Vec::new(alloc);
    'choices: for done in 0..most {
        let count = jobs.jobs();
        let Some(step) = chooser.choose(&standings[..count]) else {
            break;
        };
        steps.push(step)?;
        match jobs.step(step) {
            Ok(standing) => {
                if does_something(standing) {
                    plain.push(step)?;
                    wake(&mut standings);
                }
                stand(&mut standings, step.job, standing);
            }
            Err(why) => {
                return Ok(Made {
                    steps,
                    plain,
                    ending: Ending::Refused {
                        why,
                        step: done + 1,
                    },
                });
            }
        }
    }
    Ok(Made {
        steps,
        plain,
        ending: Ending::Over,
    })
}

// Whether a step did something behind which its job stands so.
fn does_something(standing: Standing) -> bool {
    matches!(standing, Standing::Goes | Standing::Ended)
}

// Lets those that waited go on again.
fn wake(standings: &mut [Standing; JOBS_LIMIT]) {
    for standing in standings.iter_mut() {
        if matches!(*standing, Standing::Waits | Standing::WaitsTimed) {
            *standing = Standing::Goes;
        }
    }
}

// Keeps where the job stands from now on.
fn stand(standings: &mut [Standing; JOBS_LIMIT], job: u32, standing: Standing) {
    let Some(place) = (job as usize).checked_sub(1) else {
        return;
    };
    if let Some(kept) = standings.get_mut(place) {
        *kept = standing;
    }
}
