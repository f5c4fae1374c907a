// A device in memory.

ghost use Rattle.std.specs.Prelude.{◌≡◌, []};

use crate::device::{Device, Did, Input, take};
use crate::lines::Lines;
use mj_text::Text;
use std::alloc::Global;
use std::marker::Model;

/// A device that takes whatever is written to it, and gives the lines of some bytes. A line ends with byte 10, which the last may lack; byte 13
/// stays in it. One that is longer than a text is a failure.
#[derive(Drop)]
pub struct Memory {
    lines: Lines,
    failures: u64,
    taken: Vec<u8>,
}

impl Model for Memory {
    ghost use Rattle.mj_dev.specs.Supply.{Supply};

    ghost Value = { Supply };

    ghost view = { λ m. record {
      ahead = m.lines.ahead;
      failures = m.failures;
      taken = m.taken.items;
      given = m.lines.given;
    } };
}

impl Memory {
    /// A device that gives the lines of these bytes.
    pub fn new(alloc: Global, input: Vec<u8>) -> Memory
        ensures ahead { result.ahead ≡ input.items }
        ensures failures { result.failures ≡ 0 }
        ensures taken { result.taken ≡ [] }
        ensures given { result.given ≡ [] }
    {
        Memory {
            lines: Lines::new(alloc, input),
            failures: 0,
            taken: Vec::new(alloc),
        }
    }
}

impl Device for Memory {
    ghost use Rattle.std.specs.Prelude.{◌≡◌, ◌+◌, ◌<◌, ◌-◌, ◌^◌, ◌++◌};
    ghost use Rattle.mj_dev.specs.Input.{failures_of_reading, lines_of};
    ghost use Rattle.mj_dev.specs.Supply.{ReadsAhead};

    ghost failures = { λ m. m.failures };

    ghost taken = { λ m. m.taken };

    ghost given = { λ m. m.given };

    ghost inside = { λ _. 0 };

    ghost IsTold = { λ _ _ _. Unit {0} };

    fn begin(&mut self) -> Did {
        Did::Done
    }

    fn write(&mut self, bytes: &[u8]) -> Did {
        take(&mut self.taken, bytes)
    }

    fn read(&mut self) -> Input
        requires { self.old.failures < 2 ^ 64 - 1 }
        ensures failures { self.new.failures ≡ self.old.failures + failures_of_reading result }
        ensures taken { self.new.taken ≡ self.old.taken }
        ensures given { self.new.given ≡ self.old.given ++ lines_of result }
        ensures ahead { ReadsAhead self.old.ahead result self.new.ahead }
    {
        let input = self.lines.read();
        if let Input::Failed = &input {
            self.failures += 1;
        }
        input
    }

    fn end(&mut self) -> Did {
        Did::Done
    }

    fn failures(&self) -> u64 {
        self.failures
    }

    fn taken(&self) -> &[u8] {
        self.taken.as_slice()
    }

    fn given(&self) -> &[Text] {
        self.lines.given()
    }
}
