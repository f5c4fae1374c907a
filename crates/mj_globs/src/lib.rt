// Globals: what stands at the names of all words.
//
// A contract sees a store as its content, the list of its names in their order, each with its text, and every call through the trait as its
// definition in `mj_store`. Beside the content it has stamps (`specs/Stamps.antt`): each word of globals has a number that rises with every change
// of that word, and stays where the word's last name goes. So who keeps a stamp can tell later that nothing has changed. Each word has a tree of its
// own, which is found by the word's bytes, so a question or a change makes no more comparisons than a tree does beside the logarithm of the number
// of words. A list of changes is made whole or not at all: its texts are given in place, with what was there logged, and then the names go that it
// takes and doesn't give again.
#![tactic(auto)]

mod all;
mod change;
mod globals;
mod stamps;
mod texts;
mod words;

pub use change::Change;
pub use globals::Globals;
pub use texts::Texts;
pub use words::{Words, add, gather};
