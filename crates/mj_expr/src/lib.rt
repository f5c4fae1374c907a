// Expressions and variables, read from the tokens of a line.
//
// `expression` and `variable` read one from the front of the tokens, as far as it goes, and give its tree and the tokens
// behind it, or say at which token no expression goes on so, or a level too many opens.
#![tactic(auto)]

mod beyond;
mod list;
mod phrase;
mod read;
mod stop;
mod token;

pub use beyond::{behind_expression, behind_variable};
pub use list::added;
pub use phrase::{expression, variable};
pub use stop::ParseError;
pub use token::{ListKind, callee, least, most};
