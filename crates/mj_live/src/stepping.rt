// Jobs that are stepped live.

ghost use Rattle.std.specs.Prelude.{◌≡◌, [], false, length, IfSome};
ghost use Rattle.mj_dev.specs.Told.{IsToldBy};
ghost use Rattle.mj_run.specs.Stepping.{AreSteps};
ghost use Rattle.mj_live.specs.Events.{IsShownAt};
ghost use Rattle.mj_live.specs.Shows.{LiveStep, Shows};
ghost use Rattle.mj_live.specs.Live.{IsLive, count_of};

use crate::event::{rest, show_event};
use mj_dev::Device;
use mj_run::Jobs;
use mj_sessions::Sessions;
use mj_steps::{Ending, Refusal, Standing, Step, Stepped, Way, step_in_turn};
use mj_sys::Opening;
use std::io::Write;
use std::marker::Model;
use std::rt::Clock;

/// Jobs whose first one writes as it goes, by the clock of a runtime.
#[derive(Drop)]
pub struct LiveJobs<'a, R, D: Device, O: Opening, W: Write + Drop> {
    pub rt: &'a R,
    pub jobs: Jobs<D, Sessions<D>, O>,
    pub out: W,
    /// which session of the first job's principal device is written of, where the one that goes on is 1
    pub session: u32,
    /// whether something couldn't be written
    pub is_closed: bool,
}

impl<'a, R, D: Device, O: Opening, W: Write + Drop> Model for LiveJobs<'a, R, D, O, W> {
    ghost use Rattle.std.specs.Coded.{codes};
    ghost use Rattle.mj_ast.specs.contracts.routine.Routine as routine;
    ghost use Rattle.mj_pcode.specs.contracts.instr.Unit as unit;
    ghost use Rattle.mj_live.specs.Shows.{Living, IsLooking};

    ghost Value = { Living };

    ghost coded = { Prim.hlevel (codes, routine.the_row.coded, unit.the_row.coded) };

    ghost view = { λ l. record { core = l.jobs; contents = W.contents l.out; session = l.session; closed = l.is_closed } };

    ghost invariant = { λ l. IsLooking l.jobs.history l.session l.is_closed };
}

impl<'a, R: Clock, D: Device, O: Opening, W: Write + Drop> Stepped for LiveJobs<'a, R, D, O, W> {
    ghost count = { count_of O.opening };

    ghost makes = { LiveStep (IsToldBy D.inside D.failures D.taken D.given D.IsTold) O.opening };

    fn jobs(&self) -> usize {
        self.jobs.jobs()
    }

    // A step that is late is made once its timeout is over. Where what it wrote can't be written it was the last, for which any refusal serves.
    fn step(&mut self, step: Step) -> Result<Standing, Refusal> {
        if self.is_closed {
            return Err(Refusal::Memory);
        }
        wait(self.rt, &self.jobs, step);
        let place = count(&self.jobs);
        match self.jobs.step(step) {
            Err(why) => Err(why),
            Ok(standing) => {
                match show(self.rt, &self.jobs, place, self.session, &mut self.out) {
                    Some(session) => {
                        self.session = session;
                        Ok(standing)
                    }
                    None => {
                        self.is_closed = true;
                        Err(Refusal::Memory)
                    }
                }
            }
        }
    }
}

// How many events there are.
fn count<D: Device, O: Opening>(jobs: &Jobs<D, Sessions<D>, O>) -> usize
    ensures { result ≡ length jobs.now.history }
{
    jobs.core.len()
}

// Waits, before a step that is late, until the timeout of what its job asks is over.
fn wait<R: Clock, D: Device, O: Opening>(rt: &R, jobs: &Jobs<D, Sessions<D>, O>, step: Step) {
    if step.way == Way::Late
        && let Some(job) = jobs.core.job(step.job)
        && let Some(ask) = job.ask()
        && let Some(seconds) = ask.timeout()
    {
        rest(rt, seconds);
    }
}

// Shows the event at a place, if there is one there.
fn show<R, D, O, W>(
    rt: &R,
    jobs: &Jobs<D, Sessions<D>, O>,
    place: usize,
    session: u32,
    out: &mut W,
) -> Option<u32>
where
    R: Clock,
    D: Device,
    O: Opening,
    W: Write,
    ensures { IfSome result (λ behind. IsShownAt jobs.now.history place session (W.contents out.old) behind (W.contents out.new)) }
{
    show_event(rt, &jobs.core, place, session, out)
}

impl<'a, R: Clock, D: Device, O: Opening, W: Write + Drop> LiveJobs<'a, R, D, O, W> {
    /// Jobs of which nothing was asked yet.
    pub fn new(rt: &'a R, jobs: Jobs<D, Sessions<D>, O>, out: W) -> LiveJobs<'a, R, D, O, W>
        requires { jobs.history ≡ [] }
        ensures { result ≡ record { core = jobs; contents = W.contents out; session = 1; closed = false } }
    {
        LiveJobs {
            rt,
            jobs,
            out,
            session: 1,
            is_closed: false,
        }
    }

    /// Steps the jobs in turn, until all have ended, all wait, or something can't be written, no more often than that.
    pub fn go(&mut self, most: usize) -> Ending
        ensures live { IsLive (IsToldBy D.inside D.failures D.taken D.given D.IsTold) O.opening most self.old result self.new }
        ensures run { AreSteps (IsToldBy D.inside D.failures D.taken D.given D.IsTold) O.opening self.old.core self.new.core }
        ensures shows { self.new.closed ≡ false → Shows self.old self.new }
    {
        step_in_turn(self, most)
    }
}
