// Trees: what stands at the names of one word.
//
// A contract sees a tree as the list of its texts, each by the subscripts that lead to it, in order. Every call is the definition of its
// name on that list, in `mj_store`: a tree is the part of a store that belongs to one word. A question or a change makes no more
// comparisons than the depth times the logarithm of the number of siblings, and none among children whose subscripts are numbers in a
// row, which are found by their place; `order` and `query` copy nothing but their answer, and the questions by texts a subscript for
// each level; `kill` frees what stands at the place and below it and walks nothing else, but where it parts a row, whose rest goes to
// a map, once for each child. After want of memory a tree is as it was.
#![tactic(auto)]

mod beside;
mod children;
mod node;
mod sink;
mod tree;

pub use sink::{Sink, SinkStop};
pub use tree::Tree;
