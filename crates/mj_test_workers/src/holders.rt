// What holds at a write to a device, and devices that fail at each.

use crate::gates::{Hold, Meeting};
use mj_dev::{Device, Did, Input, Watch};
use mj_text::Text;
use std::rt::Clock;

/// Holds a job at a write to its device.
#[derive(Drop)]
pub struct Holder<'a, R: Clock> {
    pub meeting: &'a Meeting<'a, R>,
    /// the job that has the device
    pub job: u32,
}

impl<'a, R: Clock> Watch for Holder<'a, R> {
    fn writes(&self) {
        self.meeting.come(self.job, Hold::Write);
    }
}

/// A device that fails at every write, and gives no line.
#[derive(Drop)]
pub struct Refuser {
    pub failures: u64,
}

impl Device for Refuser {
    ghost use Rattle.std.specs.Prelude.{[]};

    ghost failures = { λ r. r.failures };

    ghost taken = { λ _. [] };

    ghost given = { λ _. [] };

    ghost inside = { λ _. 0 };

    ghost IsTold = { λ _ _ _. Unit {0} };

    fn begin(&mut self) -> Did {
        Did::Done
    }

    fn write(&mut self, _bytes: &[u8]) -> Did {
        self.failures += 1;
        Did::Failed
    }

    fn read(&mut self) -> Input {
        Input::End
    }

    fn end(&mut self) -> Did {
        Did::Done
    }

    fn failures(&self) -> u64 {
        self.failures
    }

    fn taken(&self) -> &[u8] {
        &[]
    }

    fn given(&self) -> &[Text] {
        &[]
    }
}
