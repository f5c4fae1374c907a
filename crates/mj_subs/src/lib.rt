// Subscripts, lists of subscripts and names: how they are ordered, which name is above which, and which overlap.
//
// A contract sees a subscript as the list of its bytes, a list of subscripts as the list of these lists, and a name as a record of its
// kind, its word and its subscripts, whether or not it is shared. Every comparison is its definition in `Collation`, `above` and `overlap` those in `Name`, and
// none of them takes memory.
#![tactic(auto)]

mod name;
mod shared;
mod sub;
mod subs;
mod word;

pub use name::Name;
pub use shared::SharedName;
pub use sub::Sub;
pub use subs::{SUBSCRIPTS_LIMIT, Subs};
pub use word::{WORD_LIMIT, is_word};
