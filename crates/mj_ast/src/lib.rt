// Routines as trees: what the reader gives and the assembler takes.
//
// The trees are plain data. `specs/Syntax.antt` has them without where they lie in memory, which is what the meaning of
// routines is defined on, and `specs/Trees.antt` leads from the one to the other.
#![tactic(auto)]

mod breaks;
mod construct;
mod expr;
mod function;
mod keyword;
mod limits;
mod routine;
mod sign;

pub use construct::Construct;
pub use expr::{Actual, Choice, Expr, Operand, Scope, Tail, Variable};
pub use function::{Callee, Function, NameFunction, Special};
pub use keyword::{Keyword, Verb};
pub use limits::{DEPTH_LIMIT, LINE_LIMIT, ROUTINE_LIMIT};
pub use routine::{
    Assignment, Called, Command, Destination, FormatMark, Input, Jumped, Killed, Layout, Line,
    LineCommand, LockMode, LockNames, Locked, Merged, Opened, Output, Range, ReadMode, Received,
    Renewed, Restartable, Restored, Routine, Serial, Started, Target, Targets,
};
pub use sign::Sign;
