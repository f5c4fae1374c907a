// What is left of a line that was begun.

ghost use Rattle.std.specs.Prelude.{◌≡◌, ◌≤◌, None, length};

use crate::device::Input;
use crate::talk::Code;
use mj_text::{Digits, Text};
use std::marker::Model;

// The rest of a line, where one was begun: the whole of it, from which place on it is left, and where it ends. So neither a byte nor the end of
// one takes memory.
#[derive(Drop)]
pub struct Rest {
    line: Option<Text>,
    start: usize,
    end: usize,
}

impl Model for Rest {
    ghost use Rattle.std.specs.Prelude.{ℕ, List, Option};

    ghost Value = { Option (List ℕ) };

    ghost use Rattle.mj_dev.specs.Rest.{rest_of, IsWithinLine};

    ghost view = { λ r. rest_of r.line r.start };

    ghost invariant = { λ r. IsWithinLine r.line r.start r.end };
}

impl Rest {
    ghost use Rattle.std.specs.Prelude.{Some, IsSome, IsTrue, ◌↔◌};
    ghost use Rattle.mj_text.specs.declared.text.TheConstants.{TEXT_LIMIT};
    ghost use Rattle.mj_dev.specs.Rest.{TakesFirst, TakesAll};

    // No line was begun.
    pub fn none() -> Rest
        ensures { result ≡ None }
    {
        Rest {
            line: None,
            start: 0,
            end: 0,
        }
    }

    // All of a line.
    pub fn whole(line: Text) -> Rest
        ensures value { result ≡ Some line }
        ensures limit { length line ≤ TEXT_LIMIT }
    {
        let end = line.len();
        Rest {
            line: Some(line),
            start: 0,
            end,
        }
    }

    // Whether a line was begun.
    pub fn is_begun(&self) -> bool
        ensures { IsTrue result ↔ IsSome self.now }
    {
        self.line.is_some()
    }

    // Takes all that is left.
    pub fn take_line(&mut self) -> Input
        ensures { TakesAll self.old result self.new }
    {
        let Some(line) = &self.line else {
            return Input::End;
        };
        match line.cut(self.start, self.end) {
            Ok(rest) => {
                self.line = None;
                Input::Line(rest)
            }
            Err(_) => Input::Memory,
        }
    }

    // Takes the first byte's code, or 10 at the end of the line.
    pub fn take_byte(&mut self) -> Code
        ensures { TakesFirst self.old result self.new }
    {
        let Some(line) = &self.line else {
            return Code::End;
        };
        if self.start < self.end {
            let byte = line.bytes(&mut Digits::new())[self.start];
            self.start += 1;
            return Code::Byte(byte);
        }
        self.line = None;
        Code::Byte(10)
    }
}
