// What the instructions on variables do to a job's machine, and what they ask.
//
// A turn is said as in `mj_machine`, by `Does` of its `specs/Kept.antt`: what the p-code's definition has the instruction do leads from where the machine
// stood to where it stands. A local is looked up or changed in that turn; for a global the turn waits for the reply to an ask, and takes it. With want
// of memory the machine stands where it stood.
//
// Variables are read (`variables`), assigned and taken away (`changes`), asked about (`about`), and merged (`merges`), and pieces of their values are
// assigned (`pieces`). A local is reached by its word and by the operands that are its subscripts, as they lie on the stack; names are made of them (`names`)
// for globals, and for locals in `$NAME`, `$QUERY`, MERGE, pieces and FOR.
#![tactic(auto)]

pub mod about;
pub mod changes;
mod globals;
pub mod merges;
pub mod names;
pub mod pieces;
pub mod tellings;
pub mod variables;
