// What a debugger answers to commands.
//
// `read` gives the command that a line spells, and none exactly where it spells none (`specs/Commands.antt`): each command is spelled in one way
// alone, without a blank before or behind it.
//
// `answer` does what a command asks for and writes its lines (`specs/Says.antt`): of a step what came of it, of a walk along the record the
// line of the event that it went over, and of a show what stands at the place. Each line of a `go` is written as soon as its step is made.
// `spot_of`, `put_spot`, `tell_step` and `tell_gone` are parts of these, for callers that have commands of their own.
// Why a command isn't answered to its end, what was told of it by then, and what is left, says `specs/Fails.antt`.
#![tactic(auto)]

mod answering;
mod command;
mod doing;
mod line;
mod number;
mod shows;
mod steps;
mod tell;

pub use answering::{Unanswered, answer};
pub use command::Command;
pub use line::{read, spot_of};
pub use steps::{Passed, Told, tell as tell_step, tell_gone};
pub use tell::put_spot;
