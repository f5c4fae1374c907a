// Jobs run from their beginning: what `mj step` does, and what is promised of it.
//
// `run_jobs` makes a core, and steps its jobs by a list or in turn. Its contract says what was stepped (`specs/Stepping.antt`), and has the promises on
// what comes of it: the history is a run, the locks are apart, and the transactions are as if each had run alone. `begin_jobs` gives the jobs at their
// beginning, for who steps them otherwise.
#![tactic(auto)]

mod jobs;
mod running;

pub use jobs::{IN_TURN_LIMIT, Jobs};
pub use running::{begin_jobs, run_jobs};
