// The words of the command line: what they ask for.
//
// They are read by `clap`. Everything that is `clap`'s stands in here, so that the program is checked without it.
#![tactic(auto)]

mod order;
mod read;
mod texts;
mod words;

pub use order::{Debug, Explain, Explore, Migrate, NoOrder, Order, Replay, Run};
pub use read::read_words;
