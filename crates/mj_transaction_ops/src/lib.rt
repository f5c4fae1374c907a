// What a job does with transactions: the instructions of TSTART, TCOMMIT, TROLLBACK and TRESTART.
//
// A turn is said as in `mj_machine`, by `Does` of its `specs/Kept.antt`. Where the outermost TSTART is done the machine keeps its mark
// (`starting`): copies of the locals that a restart restores, and how many frames and NEWs there were. Behind it the place where a restart goes on
// is kept (`marking`), and a restart leads back there (`again`). The clauses of these two are said of the instructions of some units
// (`specs/Restarts.antt`), as they change what a restart goes on with.
#![tactic(auto)]

pub mod again;
pub mod ending;
pub mod marking;
pub mod starting;
