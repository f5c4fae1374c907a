// Jobs run from their beginning by worker threads: what `mj run` does, beside `mj_run`, which steps them on one thread.
//
// `run_together` makes a system, and has its jobs run by so many workers (`mj_work`), which nothing holds (`Idle`), by the clock of the runtime (`Seconds`).
// What they leave, `mj_gather::gather` makes one run of. `cut_of` says why jobs stopped before their end (`specs/Cuts.antt`).
#![tactic(auto)]

mod clock;
mod cuts;
mod running;

pub use clock::{Idle, Seconds};
pub use cuts::{Cut, cut_of};
pub use running::run_together;
