//! Why a job ends on its own account.

ghost use Rattle.std.specs.Prelude.{◌≡◌};

use std::alloc::{AllocError, AllocFailed};
use thiserror::Error;

/// A fault: the job writes one line with its code and its name, and ends.
#[derive(Clone, Copy, PartialEq, Eq, Debug, Error)]
#[error("{}", self.name())]
pub enum Fault {
    /// a variable, or a node, without a value is read
    Undefined,
    /// a division by 0
    Divide,
    /// a quotient that is no whole number
    Fraction,
    /// a number above 10^18 - 1 in magnitude
    Range,
    /// a text above its limit
    Length,
    /// an empty subscript, or a text that is no name text
    Subscript,
    /// no condition of `$SELECT` is true
    Select,
    /// no such routine, label or line
    NoLine,
    /// a QUIT with a value where none is wanted, or without one where one is
    Quit,
    /// a QUIT that leaves the frame of the outermost TSTART
    QuitInTransaction,
    /// no transaction is open
    NoTransaction,
    /// a restart of a transaction that can't be restarted
    NoRestart,
    /// what can't be done in a transaction
    InTransaction,
    /// a MERGE of names of which one is above the other, or that are equal
    Overlap,
    /// a device that there isn't
    NoDevice,
    /// a device that failed
    Device,
    /// a frame too many
    Depth,
    /// a limit is passed
    Limit,
    /// an ask too many
    Steps,
    /// a FOR whose variable lost its value
    ForIndex,
    /// a code that is no byte
    Char,
    /// more values than formals
    Params,
}

impl Fault {
    ghost use Rattle.mj_text.specs.Fault.{code_of, name_of};

    /// Its number, 1 to 22: the digits after the F of its printed name.
    pub fn code(self) -> u32
        ensures { result ≡ code_of self }
    {
        match self {
            Fault::Undefined => 1,
            Fault::Divide => 2,
            Fault::Fraction => 3,
            Fault::Range => 4,
            Fault::Length => 5,
            Fault::Subscript => 6,
            Fault::Select => 7,
            Fault::NoLine => 8,
            Fault::Quit => 9,
            Fault::QuitInTransaction => 10,
            Fault::NoTransaction => 11,
            Fault::NoRestart => 12,
            Fault::InTransaction => 13,
            Fault::Overlap => 14,
            Fault::NoDevice => 15,
            Fault::Device => 16,
            Fault::Depth => 17,
            Fault::Limit => 18,
            Fault::Steps => 19,
            Fault::ForIndex => 20,
            Fault::Char => 21,
            Fault::Params => 22,
        }
    }

    /// What is printed of it: its number after an F, a space, and its name in capitals.
    pub fn name(self) -> &'static str
        ensures { result.now ≡ name_of self }
    {
        match self {
            Fault::Undefined => "F1 UNDEF",
            Fault::Divide => "F2 DIVIDE",
            Fault::Fraction => "F3 FRACTION",
            Fault::Range => "F4 RANGE",
            Fault::Length => "F5 LENGTH",
            Fault::Subscript => "F6 SUBSCRIPT",
            Fault::Select => "F7 SELECT",
            Fault::NoLine => "F8 NOLINE",
            Fault::Quit => "F9 QUIT",
            Fault::QuitInTransaction => "F10 TXQUIT",
            Fault::NoTransaction => "F11 NOTX",
            Fault::NoRestart => "F12 NORESTART",
            Fault::InTransaction => "F13 INTX",
            Fault::Overlap => "F14 OVERLAP",
            Fault::NoDevice => "F15 NODEVICE",
            Fault::Device => "F16 DEVICE",
            Fault::Depth => "F17 DEPTH",
            Fault::Limit => "F18 LIMIT",
            Fault::Steps => "F19 STEPS",
            Fault::ForIndex => "F20 FORINDEX",
            Fault::Char => "F21 CHAR",
            Fault::Params => "F22 PARAMS",
        }
    }
}

/// Why a call gives no value: the job's fault, or want of memory.
#[derive(Clone, Copy, PartialEq, Eq, Debug, Error)]
pub enum Failure {
    /// the job's fault
    #[error("{0}")]
    Fault(Fault),
    /// an allocation was refused
    #[error("memory")]
    Memory,
}

impl From<AllocError> for Failure {
    ghost use Rattle.std.specs.Prelude.{◌≡◌};
    ghost use Rattle.mj_text.specs.declared.fault.Failure.TheVariants.{Memory};

    ghost from_gives = { λ _ e. e ≡ Memory };

    fn from(_e: AllocError) -> Failure {
        Failure::Memory
    }
}

impl<T: Drop> From<AllocFailed<T>> for Failure {
    ghost use Rattle.std.specs.Prelude.{◌≡◌};
    ghost use Rattle.mj_text.specs.declared.fault.Failure.TheVariants.{Memory};

    ghost from_gives = { λ _ e. e ≡ Memory };

    fn from(_e: AllocFailed<T>) -> Failure {
        Failure::Memory
    }
}
