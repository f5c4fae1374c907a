// Stores: maps from names to texts, with the questions and the changes of the language's trees.
//
// A contract sees a store as its content, the list of its names in their order, each with its text. Every question and every change is its
// definition on that list, in `specs/Questions.antt` and `specs/Changes.antt`, however the store is kept: so what is proved of a
// store through the trait, as of `run`, holds for each. A change that is refused memory leaves the content as it was. `Flat` keeps the
// plain list.
#![tactic(auto)]

mod access;
mod flat;
mod nodes;
mod same;
mod store;

pub use access::{Access, Answer, ask, perform, run};
pub use flat::{Flat, strip};
pub use nodes::Nodes;
pub use same::{are_same_nodes, is_same_answer};
pub use store::{Direction, Store, is_too_deep};
