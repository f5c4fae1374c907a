// Why the program ends before its end.

ghost use Rattle.std.specs.Prelude.{◌≡◌, ◌≤◌};
ghost use Rattle.mj_drafts.specs.Statuses.{chosen, status_of, stop_of};

use crate::choice::Choice;
use mj_gfile::ReadError;
use mj_rou::LoadError;
use mj_steps::{Ending, Refusal, StepsError};
use mj_text::{Digits, Text};
use mj_trace::TraceError;
use std::alloc::AllocError;
use std::{fmt, str};
use thiserror::Error;

/// Why the program stops: what it prints of it, on one line.
#[derive(Debug, Drop, Error)]
pub enum ProgramError<'a> {
    /// a value on the command line isn't of its form
    #[error("bad {0}")]
    Value(&'a str),
    /// the value of this option isn't of its form
    #[error("bad {value}")]
    Chosen { option: Choice, value: &'a str },
    /// a file can't be read or written
    #[error("file {0}")]
    File(&'a str),
    /// someone else has a file locked
    #[error("busy {0}")]
    Busy(&'a str),
    /// the name of a routine's file gives no word
    #[error("L1 {0}")]
    Name(&'a str),
    /// a routine is refused
    #[error("{0}")]
    Routine(LoadError),
    /// a routine has the name of an earlier one
    #[error("L4 {0}")]
    Twice(Word),
    /// a listing of globals is refused
    #[error("{0}")]
    Listing(ReadError),
    /// a trace is refused
    #[error("{0}")]
    Trace(TraceError),
    /// a file of steps is refused
    #[error("{0}")]
    Steps(StepsError),
    /// a step is refused; steps count from 1
    #[error("{why} at step {step}")]
    Step { why: Refusal, step: usize },
    /// all jobs wait, and none for what it asks with a timeout
    #[error("stuck")]
    Stuck,
    /// there are as many events as there may be, or as many steps were made
    #[error("full")]
    Full,
    /// a job goes on for longer between two of its events than it is followed when these are played again
    #[error("long")]
    Long,
    /// what this job did isn't what all jobs together did
    #[error("differs in job {0}")]
    Differs(u32),
    /// an allocation was refused
    #[error("memory")]
    Memory,
}

impl<'a> From<AllocError> for ProgramError<'a> {
    fn from(_error: AllocError) -> ProgramError<'a> {
        ProgramError::Memory
    }
}

/// The exit status of a run in which a job faulted.
pub const FAULTED: u8 = 1;
/// The exit status where a trace isn't that of a run.
pub const DIFFERS: u8 = 1;
/// The exit status where a routine, a listing, a trace, a file of steps or a step is refused.
pub const REFUSED: u8 = 2;
/// The exit status where the command line is wrong.
pub const WORDS: u8 = 3;
/// The exit status where memory or a file fails, where all jobs wait, or where they go on for too long.
pub const FAILED: u8 = 4;

impl<'a> ProgramError<'a> {
    /// The same, and if a value isn't of its form, that it is the one of this option.
    pub fn of_choice(self, option: Choice) -> ProgramError<'a>
        ensures { result ≡ chosen self.entry option }
    {
        match self {
            ProgramError::Value(value) => ProgramError::Chosen { option, value },
            other => other,
        }
    }

    /// Why stepping ended before its end, if it did.
    pub fn of_ending(ending: Ending) -> Option<ProgramError<'a>>
        ensures { result ≡ stop_of ending }
    {
        match ending {
            Ending::Over => None,
            Ending::Stuck => Some(ProgramError::Stuck),
            Ending::Full => Some(ProgramError::Full),
            Ending::Refused {
                why: Refusal::Full,
                ..
            } => Some(ProgramError::Full),
            Ending::Refused {
                why: Refusal::Memory,
                ..
            } => Some(ProgramError::Memory),
            Ending::Refused { why, step } => Some(ProgramError::Step { why, step }),
        }
    }
}

impl ProgramError<'_> {
    /// The exit status that goes with it.
    pub fn status(&self) -> u8
        ensures which { result ≡ status_of self.now }
        ensures bound { result ≤ 4 }
    {
        match self {
            ProgramError::Name(_)
            | ProgramError::Routine(_)
            | ProgramError::Twice(_)
            | ProgramError::Listing(_) => REFUSED,
            ProgramError::Trace(_) | ProgramError::Steps(_) | ProgramError::Step { .. } => REFUSED,
            ProgramError::Value(_) | ProgramError::Chosen { .. } => WORDS,
            ProgramError::File(_)
            | ProgramError::Busy(_)
            | ProgramError::Stuck
            | ProgramError::Full
            | ProgramError::Long
            | ProgramError::Differs(_)
            | ProgramError::Memory => FAILED,
        }
    }
}

/// A word, for a message.
#[derive(Debug, Drop)]
pub struct Word {
    pub name: Text,
}

impl fmt::Display for Word {
    fn fmt<W: fmt::Write>(&self, f: &mut fmt::Formatter<W>) -> fmt::Result {
        let mut digits = Digits::new();
        match str::from_utf8(self.name.bytes(&mut digits)) {
            Ok(name) => f.write_str(name),
            Err(_) => Err(fmt::Error),
        }
    }
}
