// The lines of some bytes.

ghost use Rattle.std.specs.Prelude.{◌≡◌, [], length, position};
ghost use Rattle.std.specs.List.{position_or_len};
ghost use Rattle.mj_dev.specs.Supply.{is_line_end};

use crate::device::Input;
use mj_text::{TEXT_LIMIT, Text};
use std::alloc::{AllocError, Global};
use std::marker::Model;

// As many bytes that were read don't matter.
const FEW: usize = 65_536;

/// The lines of some bytes, and those that were read. A line ends with byte 10, which the last may lack; byte 13 stays in it. Bytes that were read
/// are let go of when they are more than the others. So they don't lie beside the lines, and no more bytes are copied for that than there were.
#[derive(Drop)]
pub struct Lines {
    alloc: Global,
    input: Vec<u8>,
    place: usize,
    given: Vec<Text>,
}

impl Model for Lines {
    ghost use Rattle.std.specs.Prelude.{◌≤◌, length, drop};
    ghost use Rattle.mj_dev.specs.Supply.{Supplied};

    ghost Value = { Supplied };

    ghost view = { λ l. record { ahead = drop l.place l.input.items; given = l.given.items } };

    ghost invariant = { λ l. l.place ≤ length l.input.items };
}

impl Lines {
    ghost use Rattle.std.specs.Prelude.{◌≡◌, ◌++◌, OnErr};
    ghost use Rattle.mj_dev.specs.Input.{lines_of};
    ghost use Rattle.mj_dev.specs.Supply.{ReadsAhead};

    /// The lines of these bytes.
    pub fn new(alloc: Global, input: Vec<u8>) -> Lines
        ensures ahead { result.ahead ≡ input.items }
        ensures given { result.given ≡ [] }
    {
        Lines {
            alloc,
            input,
            place: 0,
            given: Vec::new(alloc),
        }
    }

    /// The lines that were read.
    pub fn given(&self) -> &[Text]
        ensures { result.now ≡ self.now.given }
    {
        self.given.as_slice()
    }

    /// Reads the next line. One that is longer than a text is a failure.
    pub fn read(&mut self) -> Input
        ensures given { self.new.given ≡ self.old.given ++ lines_of result }
        ensures ahead { ReadsAhead self.old.ahead result self.new.ahead }
    {
        // What is left can lie at another place afterwards, where there is memory for it.
        let _ = self.let_go();
        let ahead = &self.input.as_slice()[self.place..];
        if ahead.is_empty() {
            return Input::End;
        }
        let end = line_end(ahead);
        if end > TEXT_LIMIT {
            return Input::Failed;
        }
        let Ok(line) = Text::from(self.alloc, &ahead[..end]) else {
            return Input::Memory;
        };
        let Ok(copy) = line.try_clone() else {
            return Input::Memory;
        };
        if self.given.reserve(1).is_err() {
            return Input::Memory;
        }
        self.given.push_reserved(copy);
        self.place += ahead.len().min(end + 1);
        Input::Line(line)
    }

    // Lets go of the bytes that were read, where these are more than the others.
    fn let_go(&mut self) -> Result<(), AllocError>
        ensures { self.new ≡ self.old }
    {
        if self.place >= FEW && self.place > self.input.len() / 2 {
            let left = self.input.as_slice()[self.place..].to_vec(self.alloc)?;
            self.input = left;
            self.place = 0;
        }
        Ok(())
    }
}

// Where the first line of some bytes ends.
fn line_end(bytes: &[u8]) -> usize
    ensures { result ≡ position_or_len is_line_end bytes.now }
{
    match found_end(bytes) {
        Some(end) => end,
        None => bytes.len(),
    }
}

// The place of the first byte that ends a line.
fn found_end(bytes: &[u8]) -> Option<usize>
    ensures { result ≡ position is_line_end bytes.now }
{
    bytes.iter().position(|byte| *byte == 10)
}
