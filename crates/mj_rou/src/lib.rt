// Routines, read from the bytes of their files.
//
// `read` takes a routine's name and its bytes, and gives its tree, or says why there is none: which rule the routine breaks,
// and where. Of several reasons the one of the first line is given; in a line, what is over its limit comes first, then a
// label that stands twice, then the least column.
#![tactic(auto)]

mod error;
mod file;
mod laws;
mod routine;

pub use error::{LoadError, RoutineName};
pub use file::{first_line, newline, stripped};
pub use laws::{has_words, one_reason, read_or_refused};
pub use routine::read;
