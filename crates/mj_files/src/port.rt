// Devices over files.

ghost use Rattle.std.specs.Prelude.{◌≡◌, [], true, false, OnOk, OnErr, IfOk, IsTrue};
ghost use Rattle.std.specs.Option.{is_some};
ghost use Rattle.mj_files.specs.Ported.{untouched, HasFile, PortBegins, Gets};

use crate::bytes::Trouble;
use crate::reading::file_bytes;
use mj_dev::{Device, Did, Input, Lines};
use mj_text::Text;
use std::alloc::Global;
use std::fs::File;
use std::io::Write;
use std::marker::Model;
use std::rt::Files;

/// Where a file is.
#[derive(Drop)]
struct Place<R: Drop> {
    files: R,
    path: String,
}

/// A device whose lines are given or those of a file, or that writes to a file. A line ends with byte 10, which the last may lack; byte 13 stays in
/// it. One that is longer than a text is a failure.
#[derive(Drop)]
pub struct Port<R: Files + Drop> {
    alloc: Global,
    source: Option<Place<R>>,
    target: Option<Place<R>>,
    lines: Lines,
    file: Option<R::File>,
    failures: u64,
    taken: Vec<u8>,
}

impl<R: Files + Drop> Model for Port<R> {
    ghost use Rattle.std.specs.Prelude.{Some, None};
    ghost use Rattle.std.specs.Option.{is_some};
    ghost use Rattle.mj_files.specs.Ported.{Ported};

    ghost Value = { Ported };

    ghost view = { λ p. record {
      reads_file = is_some p.source;
      writes_file = is_some p.target;
      ahead = p.lines.ahead;
      file = elim p.file [ None ↦ None | Some f ↦ Some (R.File.contents f) ];
      failures = p.failures;
      taken = p.taken.items;
      given = p.lines.given;
    } };
}

impl<R: Files + Drop> Port<R> {
    /// A device that gives the lines of these bytes, and takes what is written to it.
    pub fn of_lines(alloc: Global, input: Vec<u8>) -> Port<R>
        ensures { result ≡ untouched false false input.items }
    {
        Port::with(alloc, None, None, input)
    }

    /// A device that will give the lines of a file, and takes what is written to it.
    pub fn from_file(alloc: Global, files: R, path: String) -> Port<R>
        ensures { result ≡ untouched true false [] }
    {
        Port::with(alloc, Some(Place { files, path }), None, Vec::new(alloc))
    }

    /// A device that will write to a file, in the place of what stands there, and gives no line.
    pub fn to_file(alloc: Global, files: R, path: String) -> Port<R>
        ensures { result ≡ untouched false true [] }
    {
        Port::with(alloc, None, Some(Place { files, path }), Vec::new(alloc))
    }

    fn with(
        alloc: Global,
        source: Option<Place<R>>,
        target: Option<Place<R>>,
        input: Vec<u8>,
    ) -> Port<R>
        ensures { result ≡ untouched (is_some source) (is_some target) input.items }
    {
        Port {
            alloc,
            source,
            target,
            lines: Lines::new(alloc, input),
            file: None,
            failures: 0,
            taken: Vec::new(alloc),
        }
    }

    // The bytes of the file of its lines, if it has one.
    fn input(&self) -> Result<Option<Vec<u8>>, Trouble>
        ensures ok { IfOk result (λ input. is_some input ≡ self.now.reads_file) }
        ensures err { OnErr result (self.now.reads_file ≡ true) }
    {
        let Some(source) = &self.source else {
            return Ok(None);
        };
        let bytes = file_bytes(self.alloc, &source.files, source.path.as_str())?;
        Ok(Some(bytes))
    }

    // The file that it writes to, if it is to, with nothing in it.
    fn made(&self) -> Result<Option<R::File>, Trouble>
        ensures ok { IfOk result (λ file. is_some file ≡ self.now.writes_file) }
        ensures err { OnErr result (self.now.writes_file ≡ true) }
    {
        let Some(target) = &self.target else {
            return Ok(None);
        };
        Ok(Some(File::create(&target.files, target.path.as_str())?))
    }

    // Opens its files. Lines that were begun are not begun again.
    fn open(&mut self) -> Result<(), Trouble>
        ensures ok { OnOk result (PortBegins self.old Did.Done self.new) }
        ensures err { OnErr result ((self.new ≡ self.old) × HasFile self.old.reads_file self.old.writes_file) }
    {
        let input = self.input()?;
        let file = self.made()?;
        if let Some(input) = input
            && self.lines.given().is_empty()
        {
            self.lines = Lines::new(self.alloc, input);
        }
        if file.is_some() {
            self.file = file;
        }
        Ok(())
    }

    // Writes to the file, if it is to, and says whether that went well.
    fn put(&mut self, bytes: &[u8]) -> bool
        ensures put { IsTrue result → Gets self.old.writes_file bytes.now self.old.file self.new.file }
        ensures failed { result ≡ false → self.old.writes_file ≡ true }
        ensures rest { self.new ≡ record self.old { file = self.new.file } }
    {
        if self.target.is_none() {
            return true;
        }
        match &mut self.file {
            Some(file) => file.write_all(bytes).is_ok(),
            None => false,
        }
    }
}

impl<R: Files + Drop> Device for Port<R> {
    ghost use Rattle.std.specs.Prelude.{◌≡◌, ◌+◌, ◌<◌, ◌-◌, ◌^◌, ◌++◌};
    ghost use Rattle.mj_dev.specs.Did.{failures_of, bytes_of, IsAnswered};
    ghost use Rattle.mj_dev.specs.Input.{failures_of_reading, lines_of};
    ghost use Rattle.mj_files.specs.Ported.{PortBegins, Writes, PortReads};

    ghost failures = { λ p. p.failures };

    ghost taken = { λ p. p.taken };

    ghost given = { λ p. p.given };

    ghost inside = { λ _. 0 };

    ghost IsTold = { λ _ _ _. Unit {0} };

    fn begin(&mut self) -> Did
        requires { self.old.failures < 2 ^ 64 - 1 }
        ensures failures { self.new.failures ≡ self.old.failures + failures_of result }
        ensures taken { self.new.taken ≡ self.old.taken }
        ensures given { self.new.given ≡ self.old.given }
        ensures begins { PortBegins self.old result self.new }
    {
        match self.open() {
            Ok(()) => Did::Done,
            Err(Trouble::Memory) => Did::Memory,
            Err(Trouble::Failed) => {
                self.failures += 1;
                Did::Failed
            }
        }
    }

    fn write(&mut self, bytes: &[u8]) -> Did
        requires { self.old.failures < 2 ^ 64 - 1 }
        ensures failures { self.new.failures ≡ self.old.failures + failures_of result }
        ensures taken { self.new.taken ≡ self.old.taken ++ bytes_of result bytes.now }
        ensures given { self.new.given ≡ self.old.given }
        ensures writes { Writes self.old bytes.now result self.new }
    {
        let before = self.taken.len();
        if self.taken.extend_from_slice(bytes).is_err() {
            return Did::Memory;
        }
        if self.put(bytes) {
            return Did::Done;
        }
        self.taken.truncate(before);
        self.failures += 1;
        Did::Failed
    }

    fn read(&mut self) -> Input
        requires { self.old.failures < 2 ^ 64 - 1 }
        ensures failures { self.new.failures ≡ self.old.failures + failures_of_reading result }
        ensures taken { self.new.taken ≡ self.old.taken }
        ensures given { self.new.given ≡ self.old.given ++ lines_of result }
        ensures reads { PortReads self.old result self.new }
    {
        let input = self.lines.read();
        if let Input::Failed = &input {
            self.failures += 1;
        }
        input
    }

    fn end(&mut self) -> Did
        requires { self.old.failures < 2 ^ 64 - 1 }
        ensures failures { self.new.failures ≡ self.old.failures + failures_of result }
        ensures taken { self.new.taken ≡ self.old.taken }
        ensures given { self.new.given ≡ self.old.given }
        ensures answered { IsAnswered result }
        ensures unchanged { self.new ≡ self.old }
    {
        Did::Done
    }

    fn failures(&self) -> u64 {
        self.failures
    }

    fn taken(&self) -> &[u8] {
        self.taken.as_slice()
    }

    fn given(&self) -> &[Text] {
        self.lines.given()
    }
}
