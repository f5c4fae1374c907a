// What is doubtful of routines that are right as they stand.
//
// `doubt_at` says of an instruction that leads to an entry whether it fails there, whatever the values are: `specs/Doubts.antt` says what a doubt is, and
// that it is a fault. `put_warnings` tells these, lines that nothing reaches, and names that LOCK takes in two orders, each by the line of its command, with
// its source behind.
#![tactic(auto)]

mod doubts;
mod laws;
mod locks;
mod reached;
mod told;

pub use doubts::{Doubt, doubt_at};
pub use laws::doubts_fault;
pub use told::put_warnings;
