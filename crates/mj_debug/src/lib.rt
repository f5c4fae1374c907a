// Runs walked back and forth.
//
// `Debugger` steps jobs and keeps a place in the record of what happened (`specs/Walks.antt`). What stands there is what the events before
// it leave, shown by a replica of the run, which plays them again, or by a view that was made on the way of one (`mj_replica`). It stops at
// breakpoints (`specs/Breaks.antt`, `specs/Goes.antt`).
#![tactic(auto)]

mod breaks;
mod debugger;

pub use debugger::{Debugger, Gone, WalkRefusal};
