// What a device is.

ghost use Rattle.std.specs.Prelude.{◌≡◌, ◌++◌};
ghost use Rattle.mj_dev.specs.Did.{failures_of, bytes_of};

use mj_text::Text;

/// How a call to a device went.
#[derive(Clone, Copy, PartialEq, Eq, Debug)]
pub enum Did {
    /// it is done
    Done,
    /// the device failed
    Failed,
    /// memory was refused
    Memory,
}

/// What a device, or a session with one, reads.
#[derive(Drop)]
pub enum Input {
    /// a line
    Line(Text),
    /// there is no further line
    End,
    /// no line is there yet
    NotYet,
    /// the device failed
    Failed,
    /// memory was refused
    Memory,
}

/// What a session writes to and reads from. A call that is refused memory leaves the counts as they were, and may be made again.
pub trait Device: Drop {
    ghost use Rattle.std.specs.Prelude.{◌≡◌, ◌+◌, ◌<◌, ◌-◌, ◌^◌, ◌++◌, ℕ, List};
    ghost use Rattle.mj_dev.specs.Did.{failures_of, bytes_of, IsAnswered};
    ghost use Rattle.mj_dev.specs.Input.{failures_of_reading, lines_of};
    ghost use Rattle.mj_dev.specs.Told.{DeviceCall};

    /// how many calls failed
    ghost failures: { Self → ℕ };

    /// the bytes that were written, of the writes that are done
    ghost taken: { Self → List ℕ };

    /// the lines that were read
    ghost given: { Self → List (List ℕ) };

    /// a number for all that it keeps
    ghost inside: { Self → ℕ };

    /// Its last call was this, which was answered so, and before it the number was that. Of any device, of which nothing else is known, only that one call
    /// shows this: so what shows it of a number and of the device that came of it made just one call.
    ghost IsTold: { Self → ℕ → DeviceCall → Type 0 };

    /// The first call to a device.
    fn begin(&mut self) -> Did
        requires { failures self.old < 2 ^ 64 - 1 }
        ensures failures { failures self.new ≡ failures self.old + failures_of result }
        ensures taken { taken self.new ≡ taken self.old }
        ensures given { given self.new ≡ given self.old }
        ensures told { IsTold self.new (inside self.old) (DeviceCall.Begun result) };

    /// Writes some bytes, all or none.
    fn write(&mut self, bytes: &[u8]) -> Did
        requires { failures self.old < 2 ^ 64 - 1 }
        ensures failures { failures self.new ≡ failures self.old + failures_of result }
        ensures taken { taken self.new ≡ taken self.old ++ bytes_of result bytes.now }
        ensures given { given self.new ≡ given self.old }
        ensures told { IsTold self.new (inside self.old) (DeviceCall.Wrote bytes.now result) };

    /// Reads the next line. It is without what ends it.
    fn read(&mut self) -> Input
        requires { failures self.old < 2 ^ 64 - 1 }
        ensures failures { failures self.new ≡ failures self.old + failures_of_reading result }
        ensures taken { taken self.new ≡ taken self.old }
        ensures given { given self.new ≡ given self.old ++ lines_of result }
        ensures told { IsTold self.new (inside self.old) (DeviceCall.Gave result) };

    /// The last call to a device. It takes no memory.
    fn end(&mut self) -> Did
        requires { failures self.old < 2 ^ 64 - 1 }
        ensures failures { failures self.new ≡ failures self.old + failures_of result }
        ensures taken { taken self.new ≡ taken self.old }
        ensures given { given self.new ≡ given self.old }
        ensures answered { IsAnswered result }
        ensures told { IsTold self.new (inside self.old) (DeviceCall.Over result) };

    /// How many calls failed.
    fn failures(&self) -> u64
        ensures { result ≡ failures self.now };

    /// The bytes that were written, of the writes that are done.
    fn taken(&self) -> &[u8]
        ensures { result.now ≡ taken self.now };

    /// The lines that were read.
    fn given(&self) -> &[Text]
        ensures { result.now ≡ given self.now };
}

/// Keeps the bytes of a write behind those of the writes before, all or none.
pub fn take(taken: &mut Vec<u8>, bytes: &[u8]) -> Did
    ensures failures { failures_of result ≡ 0 }
    ensures taken { taken.new.items ≡ taken.old.items ++ bytes_of result bytes.now }
{
    match taken.extend_from_slice(bytes) {
        Ok(()) => Did::Done,
        Err(_) => Did::Memory,
    }
}

// A box of a device is a device: a call goes to the one inside.
impl Device for Box<dyn Device + Send> {
    ghost failures = { λ b. (Device-box b).failures b.value };

    ghost taken = { λ b. (Device-box b).taken b.value };

    ghost given = { λ b. (Device-box b).given b.value };

    ghost inside = { λ b. (Device-box b).inside b.value };

    ghost IsTold = { λ b. (Device-box b).IsTold b.value };

    fn begin(&mut self) -> Did {
        (**self).begin()
    }

    fn write(&mut self, bytes: &[u8]) -> Did {
        (**self).write(bytes)
    }

    fn read(&mut self) -> Input {
        (**self).read()
    }

    fn end(&mut self) -> Did {
        (**self).end()
    }

    fn failures(&self) -> u64 {
        (**self).failures()
    }

    fn taken(&self) -> &[u8] {
        (**self).taken()
    }

    fn given(&self) -> &[Text] {
        (**self).given()
    }
}
