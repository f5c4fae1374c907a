// What a job does among others: the instructions of HANG, JOB and LOCK.
//
// A turn is said as in `mj_machine`, by `Does` of its `specs/Kept.antt`: what the p-code's definition has the instruction do leads from where the machine
// stood to where it stands. Each instruction asks once at most, and a reply is taken in one place (`timed`). With want of memory the machine stands where
// it stood.
#![tactic(auto)]

pub mod actuals;
pub mod hang;
pub mod locks;
pub mod start;
pub mod timed;
