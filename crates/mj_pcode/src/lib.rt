// The p-code of a routine, and what the machine does with it.
//
// `specs/Machine.antt` says what each instruction does: each is one turn.
#![tactic(auto)]

mod find;
mod instr;
mod labels;
mod laws;
mod marks;
mod references;
mod shape;
mod words;

pub use find::{Target, find_line, find_target};
pub use instr::{Depth, Head, Instr, LineStart, Reference, Restores, Span, Unit, Wait};
pub use labels::Labels;
pub use laws::{deep_enough, hands_on_at_most};
pub use marks::Marks;
pub use references::References;
pub use shape::Shape;
pub use words::Words;
