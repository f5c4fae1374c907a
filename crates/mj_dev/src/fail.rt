// A device that fails once.

use crate::device::{Device, Did, Input};
use mj_text::Text;
use std::alloc::Global;
use std::marker::Model;

/// A device that fails in one call alone. It takes everything else, and gives no line. A call that is refused memory isn't counted.
#[derive(Drop)]
pub struct Fail {
    ahead: Option<u64>,
    failures: u64,
    taken: Vec<u8>,
}

impl Model for Fail {
    ghost use Rattle.mj_dev.specs.Failing.{Failing};

    ghost Value = { Failing };

    ghost view = { λ f. record {
      ahead = f.ahead;
      failures = f.failures;
      taken = f.taken.items;
    } };
}

impl Fail {
    ghost use Rattle.std.specs.Prelude.{◌≡◌, ◌+◌, ◌<◌, ◌-◌, ◌^◌, []};
    ghost use Rattle.mj_dev.specs.Did.{failures_of, IsAnswered};
    ghost use Rattle.mj_dev.specs.Failing.{calls_before, Fails};

    /// A device that will fail in its call number `at`, counted from 1, or in none for 0.
    pub fn new(alloc: Global, at: u64) -> Fail
        ensures ahead { result.ahead ≡ calls_before at }
        ensures failures { result.failures ≡ 0 }
        ensures taken { result.taken ≡ [] }
    {
        Fail {
            ahead: at.checked_sub(1),
            failures: 0,
            taken: Vec::new(alloc),
        }
    }

    // Counts a call that takes no memory, and tells how it went.
    fn call(&mut self) -> Did
        requires { self.old.failures < 2 ^ 64 - 1 }
        ensures failures { self.new.failures ≡ self.old.failures + failures_of result }
        ensures taken { self.new.taken ≡ self.old.taken }
        ensures call { Fails self.old.ahead result self.new.ahead }
        ensures answered { IsAnswered result }
    {
        match self.ahead {
            Some(0) => {
                self.ahead = None;
                self.failures += 1;
                Did::Failed
            }
            Some(ahead) => {
                self.ahead = ahead.checked_sub(1);
                Did::Done
            }
            None => Did::Done,
        }
    }
}

impl Device for Fail {
    ghost use Rattle.std.specs.Prelude.{◌≡◌, ◌+◌, ◌<◌, ◌-◌, ◌^◌, ◌++◌, []};
    ghost use Rattle.mj_dev.specs.Did.{failures_of, bytes_of, IsAnswered};
    ghost use Rattle.mj_dev.specs.Input.{failures_of_reading, lines_of};
    ghost use Rattle.mj_dev.specs.Failing.{Fails, FailsReading};

    ghost failures = { λ f. f.failures };

    ghost taken = { λ f. f.taken };

    ghost given = { λ _. [] };

    ghost inside = { λ _. 0 };

    ghost IsTold = { λ _ _ _. Unit {0} };

    fn begin(&mut self) -> Did
        requires { self.old.failures < 2 ^ 64 - 1 }
        ensures failures { self.new.failures ≡ self.old.failures + failures_of result }
        ensures taken { self.new.taken ≡ self.old.taken }
        ensures call { Fails self.old.ahead result self.new.ahead }
    {
        self.call()
    }

    fn write(&mut self, bytes: &[u8]) -> Did
        requires { self.old.failures < 2 ^ 64 - 1 }
        ensures failures { self.new.failures ≡ self.old.failures + failures_of result }
        ensures taken { self.new.taken ≡ self.old.taken ++ bytes_of result bytes.now }
        ensures call { Fails self.old.ahead result self.new.ahead }
    {
        if let Some(0) = self.ahead {
            return self.call();
        }
        match self.taken.extend_from_slice(bytes) {
            Ok(()) => self.call(),
            Err(_) => Did::Memory,
        }
    }

    fn read(&mut self) -> Input
        requires { self.old.failures < 2 ^ 64 - 1 }
        ensures failures { self.new.failures ≡ self.old.failures + failures_of_reading result }
        ensures taken { self.new.taken ≡ self.old.taken }
        ensures call { FailsReading self.old.ahead result self.new.ahead }
    {
        match self.call() {
            Did::Failed => Input::Failed,
            Did::Done | Did::Memory => Input::End,
        }
    }

    fn end(&mut self) -> Did
        requires { self.old.failures < 2 ^ 64 - 1 }
        ensures failures { self.new.failures ≡ self.old.failures + failures_of result }
        ensures taken { self.new.taken ≡ self.old.taken }
        ensures call { Fails self.old.ahead result self.new.ahead }
        ensures answered { IsAnswered result }
    {
        self.call()
    }

    fn failures(&self) -> u64 {
        self.failures
    }

    fn taken(&self) -> &[u8] {
        self.taken.as_slice()
    }

    fn given(&self) -> &[Text] {
        &[]
    }
}
