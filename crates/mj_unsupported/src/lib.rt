// What the language leaves out by name, where a line is stuck.
//
// `left_out` is called where the reader of lines can't go on. It looks at the token there, at those before it and at those behind
// it, and gives the name by which the line is refused, if what stands there is left out by one. Where something may begin is found
// out by reading the tokens before it once more, with one behind them that could begin it.
#![tactic(auto)]

mod devices;
mod last;
mod left;
mod rows;
mod stand;
mod tokens;
mod transactions;
mod words;

pub use left::left_out;
