// Jobs that are stepped, in turn or as a list says.

ghost use Rattle.std.specs.Prelude.{◌≡◌, ◌≤◌, ℕ, Result, take, length};
ghost use Rattle.mj_steps.specs.Rounds.{next_step};
ghost use Rattle.mj_steps.specs.Driven.{ByList, InTurn, fresh, new_round, stand};
ghost use Rattle.mj_steps.specs.declared.step.Step.{Step as StepOf};
ghost use Rattle.mj_steps.specs.declared.round.Standing.{Standing as StandingOf};
ghost use Rattle.mj_steps.specs.declared.step.Refusal.{Refusal as RefusalOf};

use crate::round::{Next, Round, Standing};
use crate::step::{JOBS_LIMIT, Refusal, Step};

/// What can be stepped: jobs, which are numbered from 1, in order of their start.
pub trait Stepped {
    // how many jobs there are
    ghost count: { Self → ℕ };

    // what a step comes to
    ghost makes: { Self → StepOf → Result StandingOf RefusalOf → Self → Type 0 };

    /// How many jobs there are, ended ones among them.
    fn jobs(&self) -> usize
        ensures value { result ≡ count self.now }
        ensures few { result ≤ JOBS_LIMIT };

    /// Makes a step, and tells where its job stands then.
    fn step(&mut self, step: Step) -> Result<Standing, Refusal>
        ensures { makes self.old step result self.new };
}

/// How stepping ends.
#[derive(Clone, Copy, PartialEq, Eq, Debug)]
pub enum Ending {
    /// all steps were made, or all jobs have ended
    Over,
    /// all jobs wait, and none for what it asks with a timeout
    Stuck,
    /// as many steps were made as may be, and not all jobs have ended
    Full,
    /// the step of this number, counted from 1, was refused
    Refused { why: Refusal, step: usize },
}

/// Steps jobs in turn, until all have ended, but with no more steps than these.
pub fn step_in_turn<J: Stepped>(jobs: &mut J, most: usize) -> Ending
    ensures { InTurn J.count J.makes most 0 new_round fresh jobs.old result jobs.new }
{
    let mut standings = [Standing::Goes; JOBS_LIMIT];
    let mut round = Round {
        done: 0,
        waits: true,
    };
    'steps: for made in 0..most {
        let step = match next(jobs, round, &standings) {
            Next::Step(step) => step,
            Next::Over => return Ending::Over,
            Next::Stuck => return Ending::Stuck,
        };
        match jobs.step(step) {
            Ok(standing) => {
                stand(&mut standings, step.job, standing);
                round = round.after(step, standing);
            }
            Err(why) => {
                return Ending::Refused {
                    why,
                    step: made + 1,
                };
            }
        }
    }
    match next(jobs, round, &standings) {
        Next::Over => Ending::Over,
        _ => Ending::Full,
    }
}

// What comes next, of the jobs that there are.
fn next<J: Stepped>(jobs: &J, round: Round, standings: &[Standing]) -> Next
    requires { length standings.now ≡ JOBS_LIMIT }
    ensures { result ≡ next_step round (take (J.count jobs.now) standings.now) }
{
    let count = jobs.jobs();
    round.next(&standings[..count])
}

// Keeps where the job stands from now on.
fn stand(standings: &mut [Standing], job: u32, standing: Standing)
    ensures { standings.new ≡ stand standings.old job standing }
{
    if job == 0 {
        return;
    }
    let place = job as usize - 1;
    if place < standings.len() {
        standings[place] = standing;
    }
}

/// Makes these steps in order, up to the first that is refused.
pub fn step_by<J: Stepped>(jobs: &mut J, steps: &[Step]) -> Ending
    ensures { ByList J.makes 0 steps.now jobs.old result jobs.new }
{
    'steps: for (made, step) in steps.iter().enumerate() {
        if let Err(why) = jobs.step(*step) {
            return Ending::Refused {
                why,
                step: made + 1,
            };
        }
    }
    Ending::Over
}
