// The tokens of a line of a routine.
//
// `tokens_into` cuts a line into its tokens, each with the number of bytes before it, into a list that is there already. Every
// line has tokens: what can stand in no sentence of the language, as a quote that isn't closed, is a token too. `next` takes
// one from the front of a list.
#![tactic(auto)]

mod front;
mod token;

pub use front::tokens_into;
pub use token::{Lexeme, Token, next, unquoted};
