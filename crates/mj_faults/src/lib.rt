// What is told of all jobs of a run that ended by a fault, in the order in which they ended.
//
// Of each it takes what the history has: how the job starts, and the replies that it got. What is told of one is in `mj_faulted`, and `specs/Told.antt` says of
// whom.
#![tactic(auto)]

mod history;
mod told;

pub use told::put_faults;
