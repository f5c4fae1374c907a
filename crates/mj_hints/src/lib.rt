// What helps where a routine is refused.
//
// `refusals` goes on behind the first refusal of a text: each is the first one of the text in which the lines that were refused before are empty
// (`specs/Refusals.antt`). `put_help` writes what is shown of one: the line of the source, a caret under the column, the word that stands there, and a phrase
// that helps where people err most (`specs/Shown.antt`). Which phrase it is, is said by the bytes around the column (`specs/Hints.antt`). `line_at`,
// `put_source` and `put_front` show a line of a text whatever it is shown for.
#![tactic(auto)]

mod all;
mod around;
mod hint;
mod names;
mod near;
mod phrases;
mod shown;
mod text;
mod token;

pub use all::refusals;
pub use shown::{put_front, put_help, put_source};
pub use text::line_at;
