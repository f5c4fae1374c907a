// A job's machine: where a job stands, and what the instructions on operands do to it.
//
// What a turn of an instruction does is said by `Does` (`specs/Kept.antt`): what the p-code's definition (`mj_pcode`) has the instruction do leads from
// where the machine stood to where it stands, whatever comes next, for every number of turns to come and every list of replies. With want of memory the
// machine stands where it stood.
//
// Each module has the instructions on one kind of data: the stack and constants (`quiet`), operators and functions (`values`), and what is written
// (`asking`, `format`). Those on variables are in `mj_variable_ops`, which does its turns by what is here: operands (`stack`), a value that an instruction
// leaves (`values`), the arguments of functions (`calls`), a turn that waits (`asking`) or fails (`quiet`).
#![tactic(auto)]

pub mod asking;
pub mod calls;
mod control;
pub mod format;
mod machine;
mod mark;
pub mod quiet;
pub mod stack;
pub mod values;

pub use control::Control;
pub use machine::{Machine, TurnOutcome};
pub use mark::{Return, TransactionMark};
