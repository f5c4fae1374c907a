// Commands and lines, read from the tokens of a line.
//
// `line` reads the tokens of a whole line: the tree that they spell, or why there is none. Where the grammar can't go on
// it is the token there that is named, by how many tokens are left from it on (none at the line's end).
#![tactic(auto)]

mod call;
mod command;
mod control;
mod device;
mod formals;
mod keyword;
mod kill;
mod layout;
mod lines;
mod list;
mod lock;
mod parts;
mod phrase;
mod read;
mod repeat;
mod restart;
mod set;
mod write;

pub use command::may_be_bare;
pub use keyword::verb_of;
pub use lines::line;
