// Jobs run live: what the first job writes is written on as it is taken, behind each step, and time goes by as the jobs ask.
//
// `run_live` steps the jobs of a run in turn (`mj_run`, `mj_steps`). Behind each step that came to an event it writes what the first job's principal device
// took by that, and lets the time of a HANG go by. So what was written is, behind each step, what is printed of the events so far (`specs/Shows.antt`), and
// all that is promised of steps in turn holds of it.
#![tactic(auto)]

mod event;
mod running;
mod stepping;

pub use running::{Lived, STEPS_LIMIT, run_live};
