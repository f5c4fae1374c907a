// Why a file is refused, in words.
//
// A listing of globals, a trace or a file of steps that is refused has one line that says its code. `put_listing`, `put_trace` and `put_steps` write what
// stands behind it: the file, the line, a caret where the line can't go on, and what is wanted there. Where a line of a listing or of steps stops being one
// is said by a machine over its bytes (`specs/Parts.antt`), of a line of a trace by its fields (`specs/Fields.antt`). What is told of which code is
// `specs/Reasons.antt`, and with which words `specs/Words.antt`.
// `kind_words` has words for what the system says of a file (`specs/Systems.antt`).
#![tactic(auto)]

mod asks;
mod fields;
mod part;
mod reason;
mod system;
mod tell;
mod words;

pub use system::kind_words;
pub use tell::{put_listing, put_steps, put_trace};
