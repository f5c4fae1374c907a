// A history, event by event.

ghost use Rattle.std.specs.Prelude.{◌≡◌, length, slice_get, IfOk};
ghost use Rattle.mj_sys.specs.History.{History};
ghost use Rattle.mj_core.specs.Kept.{shown_event};
ghost use Rattle.mj_core.specs.Runs.{out_of};

use mj_ask::{Ask, Reply};
use mj_core::{Answerer, Core, Fresh};
use mj_dev::Device;
use mj_gather::Run;
use mj_sessions::output;
use mj_sys::Opening;
use mj_text::Text;
use std::alloc::{AllocError, Global};

/// What jobs did, event by event.
pub trait Events {
    /// the history of all jobs
    ghost history: { Self → History };

    /// How many events there are.
    fn count(&self) -> usize
        ensures { result ≡ length (history self.now) };

    /// The event at a place, from 0: its job, what that asked, and what it was told.
    fn event_at(&self, at: usize) -> Option<(u32, &Ask, &Reply)>
        ensures { shown_event result ≡ slice_get (history self.now) at };

    /// The bytes that a session of a job took which it had under this name: the first is 1.
    fn taken_by(
        &self,
        alloc: Global,
        job: u32,
        name: &Text,
        session: u32,
    ) -> Result<Vec<u8>, AllocError>
        ensures { IfOk result (λ bytes. bytes.items ≡ out_of (history self.now) job name.now session) };
}

// Jobs that were stepped.
impl<D: Device, A: Answerer<Fresh<D>>, O: Opening> Events for Core<D, A, O> {
    ghost history = { λ core. core.history };

    fn count(&self) -> usize {
        self.len()
    }

    fn event_at(&self, at: usize) -> Option<(u32, &Ask, &Reply)> {
        self.event(at)
    }

    fn taken_by(
        &self,
        _alloc: Global,
        job: u32,
        name: &Text,
        session: u32,
    ) -> Result<Vec<u8>, AllocError> {
        self.out(job, name, session)
    }
}

// Jobs that workers ran.
impl<'a> Events for Run<'a> {
    ghost history = { λ run. run.history };

    fn count(&self) -> usize {
        self.len()
    }

    fn event_at(&self, at: usize) -> Option<(u32, &Ask, &Reply)> {
        self.event(at)
    }

    fn taken_by(
        &self,
        alloc: Global,
        job: u32,
        name: &Text,
        session: u32,
    ) -> Result<Vec<u8>, AllocError> {
        output(alloc, self.log(job), name, session)
    }
}
