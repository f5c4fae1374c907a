// A job's own sessions answer what it asks devices.

ghost use Rattle.std.specs.Prelude.{◌≡◌, ◌<◌, ℕ, List, Bool, true, None, if◌then◌else◌, IfOk, OnErr};
ghost use Rattle.std.specs.Str.{bytes_eq};
ghost use Rattle.mj_dev.specs.Told.{IsToldBy};
ghost use Rattle.mj_load.specs.Image.{program_of};
ghost use Rattle.mj_locktab.specs.Locks.{LocksApart};
ghost use Rattle.mj_sessions.specs.Events.{Log};
ghost use Rattle.mj_sys.specs.History.{state_of};
ghost use Rattle.mj_core.specs.Gives.{CoreStepGives, DeviceStepGives, RunGives, DeviceRunGives};
ghost use Rattle.mj_core.specs.Runs.{IsRun};

use crate::answerer::{Answerer, Fresh, Unplaced};
use crate::seen::Seen;
use crate::together::Core;
use mj_ask::{Ask, Reply};
use mj_dev::Device;
use mj_sessions::{Answer, Sessions};
use mj_steps::{Refusal, Step};
use mj_sys::Opening;
use mj_text::Text;
use std::alloc::{AllocError, Global};

impl<D: Device> Answerer<Fresh<D>> for Sessions<D> {
    ghost use Rattle.mj_dev.specs.Told.{IsToldBy};
    ghost use Rattle.mj_core.specs.BySessions.{by_sessions};

    ghost answering = { by_sessions (IsToldBy D.inside D.failures D.taken D.given D.IsTold) };

    fn new(alloc: Global) -> Sessions<D> {
        Sessions::new(alloc)
    }

    fn make_room(&mut self, name: &Text) -> Result<(), Unplaced> {
        if self.has(name) {
            return Err(Unplaced::Taken);
        }
        match self.reserve() {
            Ok(()) => Ok(()),
            Err(_) => Err(Unplaced::Memory),
        }
    }

    fn open(&mut self, name: Text, session: Fresh<D>)
        requires { (by_sessions (IsToldBy D.inside D.failures D.taken D.given D.IsTold)).HasRoom self.old name }
        ensures of { (log : Log) → (by_sessions (IsToldBy D.inside D.failures D.taken D.given D.IsTold)).IsOf self.old log
            → (by_sessions (IsToldBy D.inside D.failures D.taken D.given D.IsTold)).IsOf self.new log }
        ensures there { (other : List ℕ) (has : Bool) → (by_sessions (IsToldBy D.inside D.failures D.taken D.given D.IsTold)).Has self.old other has
            → (by_sessions (IsToldBy D.inside D.failures D.taken D.given D.IsTold)).Has self.new other (if bytes_eq name other then true else has) }
    {
        self.open(name, session.session());
    }

    fn answer(&mut self, ask: &Ask, late: bool, given: Option<&Reply>) -> Answer {
        self.serve(ask, late)
    }
}

impl<D: Device, O: Opening> Core<D, Sessions<D>, O> {
    /// Makes a step: the job goes on for at most 10,000 turns to its next ask, which is served. Where it isn't made, nothing is asked or told.
    pub fn step(&mut self, step: Step) -> Result<Seen, Refusal>
        ensures gives { CoreStepGives O.opening self.old step result self.new }
        ensures called { DeviceStepGives (IsToldBy D.inside D.failures D.taken D.given D.IsTold) O.opening self.old step result self.new }
    {
        self.make(step, None)
    }

    /// Makes every step in order, and gives one answer for each. Room for the answers is taken first.
    pub fn run(&mut self, steps: &[Step]) -> Result<Vec<Result<Seen, Refusal>>, AllocError>
        ensures gives { IfOk result (λ answers. RunGives O.opening self.old steps.now answers.items self.new) }
        ensures called { IfOk result (λ answers.
            DeviceRunGives (IsToldBy D.inside D.failures D.taken D.given D.IsTold) O.opening self.old steps.now answers.items self.new) }
        ensures run { IsRun (program_of self.new.image) O.opening self.new.history }
        ensures apart { LocksApart (state_of O.opening self.new.history).locks }
        ensures err { OnErr result (self.new ≡ self.old) }
    {
        let answers = self.answers(steps);
        // what is kept behind each step is kept behind the last
        let _events = self.len(); // for the proof
        let _locks = self.locks(); // for the proof
        answers
    }

    // Makes every step in order.
    fn answers(&mut self, steps: &[Step]) -> Result<Vec<Result<Seen, Refusal>>, AllocError>
        ensures called { IfOk result (λ answers.
            DeviceRunGives (IsToldBy D.inside D.failures D.taken D.given D.IsTold) O.opening self.old steps.now answers.items self.new) }
        ensures err { OnErr result (self.new ≡ self.old) }
    {
        let mut answers = Vec::with_capacity(self.alloc(), steps.len())?;
        for step in steps {
            let answer = self.step(*step);
            answers.push_reserved(answer);
        }
        Ok(answers)
    }
}
