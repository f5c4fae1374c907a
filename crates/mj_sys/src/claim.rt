// Claims.

ghost use Rattle.std.specs.Prelude.{◌≡◌, ◌≤◌, ◌<◌, ◌+◌, ◌-◌, ◌^◌};

use mj_ask::Start;
use std::marker::Model;

/// A row that was claimed: its job's asks are served with it. It counts the job's events.
#[derive(Drop)]
pub struct Claim {
    job: u32,
    start: Start,
    events: u64,
}

impl Model for Claim {
    ghost use Rattle.std.specs.Prelude.{◌≤◌};
    ghost use Rattle.mj_sys.specs.System.{Claimed};

    ghost Value = { Claimed };

    ghost view = { λ c. record { job = c.job; start = c.start; events = c.events } };

    ghost invariant = { λ c. 1 ≤ c.job };
}

impl Claim {
    // A claim of a job without an event.
    pub(crate) fn new(job: u32, start: Start) -> Claim
        requires { 1 ≤ job }
        ensures { result ≡ record { job = job; start = start; events = 0 } }
    {
        Claim {
            job,
            start,
            events: 0,
        }
    }

    // One event more.
    pub(crate) fn count(&mut self)
        requires { self.old.events < 2 ^ 64 - 1 }
        ensures { self.new ≡ record self.old { events = self.old.events + 1 } }
    {
        self.events += 1;
    }

    /// The job's number.
    pub fn job(&self) -> u32
        ensures value { result ≡ self.now.job }
        ensures numbered { 1 ≤ result }
    {
        self.job
    }

    /// How the job starts.
    pub fn start(&self) -> &Start
        ensures { result.now ≡ self.now.start }
    {
        &self.start
    }

    /// How many events of the job were served with it.
    pub fn events(&self) -> u64
        ensures { result ≡ self.now.events }
    {
        self.events
    }
}
