// A device over what is typed.

ghost use Rattle.std.specs.Prelude.{◌≡◌, ◌<◌, ◌∷◌, [], ℕ, List, Option, false, vec_len, vec_capacity, IfOk, IfNone, IfSome, OnOk, OnErr};
ghost use Rattle.std.specs.Io.KnownBytes.{Consumes, Keeps, IsAtEnd};
ghost use Rattle.mj_typed.specs.Typed.{IsOfOneLine, IsReadUp, AreKept, ahead_of};

use mj_dev::{Device, Did, Input, take};
use mj_files::Trouble;
use mj_text::{TEXT_LIMIT, Text};
use std::alloc::{AllocError, Global};
use std::io::{self, BufReader, ErrorKind, Read};
use std::marker::Model;

/// A device that gives the lines of a reader, and takes whatever is written to it. It reads a line when it is asked for one, and waits for it as long as the
/// reader does. A line ends with byte 10, which the last may lack; byte 13 stays in it. One that is longer than a text is a failure.
#[derive(Drop)]
pub struct Typed<I: Read + Drop> {
    alloc: Global,
    reader: BufReader<I>,
    // the bytes of a line that isn't given yet, without its end
    begun: Vec<u8>,
    // whether its end was read
    is_whole: bool,
    failures: u64,
    taken: Vec<u8>,
    given: Vec<Text>,
}

impl<I: Read + Drop> Model for Typed<I> {
    ghost use Rattle.std.specs.Io.Buffered.{reader_remaining};
    ghost use Rattle.mj_typed.specs.Typed.{Typing, IsOfOneLine, ahead_of};

    ghost Value = { Typing };

    ghost view = { λ t. record {
      ahead = ahead_of t.begun.items t.is_whole (reader_remaining I.remaining t.reader);
      failures = t.failures;
      taken = t.taken.items;
      given = t.given.items;
    } };

    ghost invariant = { λ t. IsOfOneLine t.begun.items };
}

impl<I: Read + Drop> Typed<I> {
    /// A device that gives the lines of this reader, which is dropped where memory is refused.
    pub fn new(alloc: Global, reader: I) -> Result<Typed<I>, AllocError>
        ensures ahead { IfOk result (λ typed. AreKept (I.remaining reader) typed.ahead) }
        ensures failures { IfOk result (λ typed. typed.failures ≡ 0) }
        ensures taken { IfOk result (λ typed. typed.taken ≡ []) }
        ensures given { IfOk result (λ typed. typed.given ≡ []) }
    {
        let Ok(reader) = BufReader::new(alloc, reader) else {
            return Err(AllocError);
        };
        Ok(Typed {
            alloc,
            reader,
            begun: Vec::new(alloc),
            is_whole: false,
            failures: 0,
            taken: Vec::new(alloc),
            given: Vec::new(alloc),
        })
    }
}

impl<I: Read + Drop> Device for Typed<I> {
    ghost use Rattle.std.specs.Prelude.{◌≡◌, ◌+◌, ◌<◌, ◌-◌, ◌^◌, ◌++◌};
    ghost use Rattle.mj_dev.specs.Did.{failures_of, bytes_of, IsAnswered};
    ghost use Rattle.mj_dev.specs.Input.{failures_of_reading, lines_of};
    ghost use Rattle.mj_typed.specs.Typed.{ReadsTyped};

    ghost failures = { λ t. t.failures };

    ghost taken = { λ t. t.taken };

    ghost given = { λ t. t.given };

    ghost inside = { λ _. 0 };

    ghost IsTold = { λ _ _ _. Unit {0} };

    fn begin(&mut self) -> Did {
        Did::Done
    }

    fn write(&mut self, bytes: &[u8]) -> Did
        requires { self.old.failures < 2 ^ 64 - 1 }
        ensures failures { self.new.failures ≡ self.old.failures + failures_of result }
        ensures taken { self.new.taken ≡ self.old.taken ++ bytes_of result bytes.now }
        ensures given { self.new.given ≡ self.old.given }
        ensures ahead { self.new.ahead ≡ self.old.ahead }
    {
        take(&mut self.taken, bytes)
    }

    fn read(&mut self) -> Input
        requires { self.old.failures < 2 ^ 64 - 1 }
        ensures failures { self.new.failures ≡ self.old.failures + failures_of_reading result }
        ensures taken { self.new.taken ≡ self.old.taken }
        ensures given { self.new.given ≡ self.old.given ++ lines_of result }
        ensures ahead { ReadsTyped self.old.ahead result self.new.ahead }
    {
        match read_up(&mut self.reader, &mut self.begun, &mut self.is_whole) {
            Ok(()) => {}
            Err(Trouble::Memory) => return Input::Memory,
            Err(Trouble::Failed) => {
                self.failures += 1;
                return Input::Failed;
            }
        }
        if self.begun.is_empty() && !self.is_whole {
            return Input::End;
        }
        if self.begun.len() > TEXT_LIMIT {
            self.failures += 1;
            return Input::Failed;
        }
        let Ok(line) = Text::from(self.alloc, &self.begun) else {
            return Input::Memory;
        };
        let Ok(copy) = line.try_clone() else {
            return Input::Memory;
        };
        if self.given.reserve(1).is_err() {
            return Input::Memory;
        }
        self.given.push_reserved(copy);
        self.begun.clear();
        self.is_whole = false;
        Input::Line(line)
    }

    fn end(&mut self) -> Did {
        Did::Done
    }

    fn failures(&self) -> u64 {
        self.failures
    }

    fn taken(&self) -> &[u8] {
        self.taken.as_slice()
    }

    fn given(&self) -> &[Text] {
        self.given.as_slice()
    }
}

// Reads on until a line that was begun goes on no further. Nothing that is read is lost.
fn read_up<B: Read>(reader: &mut B, begun: &mut Vec<u8>, is_whole: &mut bool) -> Result<(), Trouble>
    requires { IsOfOneLine begun.old.items }
    ensures line { IsOfOneLine begun.new.items }
    ensures kept { AreKept (ahead_of begun.old.items is_whole.old (B.remaining reader.old)) (ahead_of begun.new.items is_whole.new (B.remaining reader.new)) }
    ensures up { OnOk result (IsReadUp begun.new.items is_whole.new (B.remaining reader.new)) }
{
    'bytes: for _ in 0..u64::MAX {
        if *is_whole || begun.len() > TEXT_LIMIT {
            return Ok(());
        }
        begun.reserve(1)?;
        match next_byte(reader) {
            Ok(None) => return Ok(()),
            Ok(Some(byte)) => take_byte(begun, is_whole, byte),
            Err(error) if error.kind() == ErrorKind::Interrupted => {}
            Err(error) => return Err(Trouble::from(error)),
        }
    }
    Err(Trouble::Failed)
}

// A byte goes to the end of a line that was begun, or ends it. There is room for it.
fn take_byte(begun: &mut Vec<u8>, is_whole: &mut bool, byte: u8)
    requires room { vec_len begun.old < vec_capacity begun.old }
    requires line { IsOfOneLine begun.old.items }
    requires unended { is_whole.old ≡ false }
    ensures line { IsOfOneLine begun.new.items }
    ensures kept { (old new : Option (List ℕ)) → Consumes old new (byte ∷ [])
        → AreKept (ahead_of begun.old.items false old) (ahead_of begun.new.items is_whole.new new) }
{
    if byte == 10 {
        *is_whole = true;
        return;
    }
    begun.push_reserved(byte);
}

// The next byte of a reader, if it has one.
fn next_byte<B: Read>(reader: &mut B) -> io::Result<Option<u8>>
    ensures some { IfOk result (λ byte. IfSome byte (λ byte. Consumes (B.remaining reader.old) (B.remaining reader.new) (byte ∷ []))) }
    ensures none { IfOk result (λ byte. IfNone byte (Keeps (B.remaining reader.old) (B.remaining reader.new) × IsAtEnd (B.remaining reader.new))) }
    ensures err { OnErr result (Keeps (B.remaining reader.old) (B.remaining reader.new)) }
{
    let mut byte = [0u8; 1];
    let count = reader.read(&mut byte)?;
    Ok(if count == 0 { None } else { Some(byte[0]) })
}
