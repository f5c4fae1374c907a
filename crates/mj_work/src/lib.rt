// Jobs that run at the same time, by worker threads.
//
// `run_workers` runs the jobs of a system by so many workers. One lock holds the system. A worker takes it for an instant: to claim a row, to have one ask
// served, and to hand in what its job left. A job's own code, the calls of its device sessions and its waiting go on with the lock free. A worker keeps a job
// to its end, and then claims another. `specs/Working.antt` has what workers leave.
//
// Of what they leave `gather` makes one run; it is handed on from `mj_gather` with what it takes and gives.
//
// That jobs do run at the same time, and that a worker ends, no contract says.
#![tactic(auto)]

mod gate;
mod job;
mod locked;
mod workers;

pub use gate::{Clock, Gate};
pub use mj_gather::{Ran, Run, Stop, Ungathered, gather};
pub use workers::{Ended, WORKERS_LIMIT, run_workers};
