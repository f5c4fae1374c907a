// The jobs of a core, as they are stepped by a list or in turn.

ghost use Rattle.std.specs.Prelude.{◌≡◌, slice_get, Ok, IfSome, IfNone};
ghost use Rattle.mj_dev.specs.Told.{IsToldBy};
ghost use Rattle.mj_sys.specs.History.{state_of};
ghost use Rattle.mj_steps.specs.Driven.{ByList};
ghost use Rattle.mj_core.specs.Shown.{stand_at};
ghost use Rattle.mj_run.specs.Stepping.{StepsAs, StandsSo, IsFitting, IsInTurn, in_turn_limit, AreSteps, jobs_of, ends_its_job, is_timed};

use mj_ask::{Ask, SharedAsk};
use mj_core::{Answerer, Core, Fresh, Seen};
use mj_dev::Device;
use mj_fit::no_step_is_unfit;
use mj_sessions::Sessions;
use mj_steps::{Ending, Refusal, Standing, Step, Stepped, step_by, step_in_turn};
use mj_sys::Opening;
use std::marker::Model;

/// The most steps that are made in turn. A step that only lets a job wait counts too, so it is another limit than that of the events in a history.
pub const IN_TURN_LIMIT: usize = 1_000_000;

/// The jobs of a core.
#[derive(Drop)]
pub struct Jobs<D: Device, A: Answerer<Fresh<D>>, O: Opening> {
    pub core: Core<D, A, O>,
}

impl<D: Device, A: Answerer<Fresh<D>>, O: Opening> Model for Jobs<D, A, O> {
    ghost use Rattle.std.specs.Coded.{codes};
    ghost use Rattle.mj_ast.specs.contracts.routine.Routine as routine;
    ghost use Rattle.mj_pcode.specs.contracts.instr.Unit as unit;
    ghost use Rattle.mj_core.specs.Shown.{Shown};
    ghost use Rattle.mj_fit.specs.Laws.{NoneIsHeld};

    ghost Value = { Shown };

    ghost coded = { Prim.hlevel (codes, routine.the_row.coded, unit.the_row.coded) };

    ghost view = { λ jobs. jobs.core };

    // no job held a device when the system began
    ghost invariant = { λ jobs. NoneIsHeld O.opening };
}

impl<D: Device, O: Opening> Stepped for Jobs<D, Sessions<D>, O> {
    ghost count = { jobs_of O.opening };

    ghost makes = { StepsAs (IsToldBy D.inside D.failures D.taken D.given D.IsTold) O.opening };

    fn jobs(&self) -> usize {
        self.core.jobs()
    }

    fn step(&mut self, step: Step) -> Result<Standing, Refusal> {
        // the history is a run, as the core keeps it, and in a run no step is unfit
        let _run = self.core.len(); // for the proof
        no_step_is_unfit();
        match self.core.step(step) {
            Ok(seen) => Ok(self.standing(step.job, &seen)),
            Err(why) => Err(why),
        }
    }
}

impl<D: Device, O: Opening> Jobs<D, Sessions<D>, O> {
    // Makes these steps; or where there are none, steps the jobs in turn. Either way a list of the core's steps was made.
    pub(crate) fn go(&mut self, steps: Option<&[Step]>) -> Ending
        ensures listed { IfSome steps.entry (λ list.
            ByList (StepsAs (IsToldBy D.inside D.failures D.taken D.given D.IsTold) O.opening) 0 list.now self.old result self.new) }
        ensures in_turn { IfNone steps.entry
            (IsInTurn (IsToldBy D.inside D.failures D.taken D.given D.IsTold) O.opening in_turn_limit self.old result self.new) }
        ensures run { AreSteps (IsToldBy D.inside D.failures D.taken D.given D.IsTold) O.opening self.old self.new }
    {
        match steps {
            None => self.in_turn(IN_TURN_LIMIT),
            Some(steps) => self.listed(steps),
        }
    }

    /// Makes these steps, in order, up to the first that is refused.
    pub fn listed(&mut self, steps: &[Step]) -> Ending
        ensures listed { ByList (StepsAs (IsToldBy D.inside D.failures D.taken D.given D.IsTold) O.opening) 0 steps.now self.old result self.new }
        ensures run { AreSteps (IsToldBy D.inside D.failures D.taken D.given D.IsTold) O.opening self.old self.new }
    {
        step_by(self, steps)
    }

    /// Steps the jobs in turn, until all have ended or all wait, no more often than that.
    pub fn in_turn(&mut self, most: usize) -> Ending
        ensures in_turn { IsInTurn (IsToldBy D.inside D.failures D.taken D.given D.IsTold) O.opening most self.old result self.new }
        ensures run { AreSteps (IsToldBy D.inside D.failures D.taken D.given D.IsTold) O.opening self.old self.new }
    {
        step_in_turn(self, most)
    }

    // Where a job stands of whose step this was seen.
    fn standing(&self, job: u32, seen: &Seen) -> Standing
        requires { IsFitting (Ok seen.now) }
        ensures { StandsSo self.now job seen.now result }
    {
        match seen {
            Seen::Event(at) => {
                if self.is_end(*at) {
                    Standing::Ended
                } else {
                    Standing::Goes
                }
            }
            Seen::Ran => Standing::Goes,
            Seen::Unfit => unreachable!(),
            Seen::Ended => Standing::Ended,
            Seen::Busy { .. } | Seen::NotYet => {
                if self.is_timed(job) {
                    Standing::WaitsTimed
                } else {
                    Standing::Waits
                }
            }
        }
    }

    // Whether the event at a place of the history, from 0, is the end of its job.
    fn is_end(&self, at: usize) -> bool
        ensures { result ≡ ends_its_job (slice_get self.now.history at) }
    {
        match self.core.event(at) {
            Some((_, Ask::Shared(SharedAsk::Halt(_)), _)) => true,
            _ => false,
        }
    }

    // Whether the job waits at an ask with a timeout.
    fn is_timed(&self, job: u32) -> bool
        ensures { result ≡ is_timed (stand_at self.now.stands job) }
    {
        let Some(found) = self.core.job(job) else {
            return false;
        };
        match found.ask() {
            None => false,
            Some(ask) => ask.timeout().is_some(),
        }
    }
}
