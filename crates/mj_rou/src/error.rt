// Why a routine is refused.

ghost use Rattle.std.specs.Prelude.{◌≡◌, ℕ, List};
ghost use Rattle.mj_ast.specs.Routines.{IsName};
ghost use Rattle.mj_rou.specs.Read.{IsRefusedAt, IsRoutineRefused};

use arrayvec::ArrayString;
use mj_ast::Construct;
use thiserror::Error;

/// The name of a routine, for a message.
pub type RoutineName = ArrayString<31>;

/// Why a routine is refused, with its name and the place: lines and columns count from 1, and the column of a line's end is
/// one past its length.
#[derive(Debug, Drop, Error)]
pub enum LoadError {
    /// its name is no word; the file is named by the caller
    #[error("L1")]
    Name,
    /// the grammar can't go on
    #[error("L2 {routine}:{line}:{column}")]
    Stuck {
        routine: RoutineName,
        line: usize,
        column: usize,
    },
    /// a label that an earlier line has
    #[error("L3 {routine}:{line}")]
    Twice {
        routine: RoutineName,
        line: usize,
    },
    /// a line, the routine, a word or a list of subscripts is over its limit
    #[error("L5 {routine}:{line}")]
    Long {
        routine: RoutineName,
        line: usize,
    },
    /// an expression nests too deep
    #[error("L6 {routine}:{line}:{column}")]
    Deep {
        routine: RoutineName,
        line: usize,
        column: usize,
    },
    /// the grammar can't go on, at what the language leaves out by name
    #[error("L7 {routine}:{line}:{column} {construct}")]
    LeftOut {
        routine: RoutineName,
        line: usize,
        column: usize,
        construct: Construct,
    },
    /// an allocation was refused
    #[error("memory")]
    Memory,
}

/// Why a line is refused.
#[derive(Clone, Copy, PartialEq, Eq, Debug)]
pub enum LineError {
    Stuck(usize),
    LeftOut(usize, Construct),
    Twice,
    Long,
    Deep(usize),
    Memory,
}

/// The refusal of a routine for one of its lines.
pub fn at_line(refusal: LineError, routine: RoutineName, line: usize) -> LoadError
    ensures { (name bytes : List ℕ) → IsName name → routine.bytes ≡ name → IsRefusedAt bytes line refusal → IsRoutineRefused name bytes result }
{
    match refusal {
        LineError::Stuck(column) => LoadError::Stuck {
            routine,
            line,
            column,
        },
        LineError::LeftOut(column, construct) => LoadError::LeftOut {
            routine,
            line,
            column,
            construct,
        },
        LineError::Twice => LoadError::Twice { routine, line },
        LineError::Long => LoadError::Long { routine, line },
        LineError::Deep(column) => LoadError::Deep {
            routine,
            line,
            column,
        },
        LineError::Memory => LoadError::Memory,
    }
}
