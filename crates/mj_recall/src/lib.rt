// What the program does with a trace of a run: it is replayed, brought to today's form, or explained.
//
// Each reads the trace first, then the routines, then the globals. What is printed of a trace that is replayed or migrated is `specs/Printed.antt`, of one that
// is explained `specs/Explained.antt`, and the exit status `specs/Statuses.antt`. Where it differs, and hints are wanted, what the job does there
// instead (`specs/Instead.antt`) and the usual causes are told behind that.
#![tactic(auto)]

mod causes;
mod differing;
mod explains;
mod migrates;
mod replays;

pub use explains::explain;
pub use migrates::migrate;
pub use replays::replay;
