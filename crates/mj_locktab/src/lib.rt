// Locks: which job holds which names, and how often. No name of one job overlaps a name of another.
//
// A contract sees a table as its holds in order, each with its count, and what is asked of it and done to it as the definitions of
// `specs/`. Beside the holds stands how many nodes the test of the last try looked at (`specs/Visits.antt`). `TryGives` says what each answer of
// a try means; the counts of a table tell all of it. How the table is kept no public clause tells.
//
// It keeps the holds of each job by themselves (`part`, `held`), and beside them trees of the names that are held, by word and subscripts (`node`,
// `words`, `index`): at each node stands the job that holds its name, and of each job how many of its names are held there and below. So a try goes
// down along its names alone, whatever others hold.
#![tactic(auto)]

mod held;
mod hold;
mod index;
mod node;
mod part;
mod table;
mod taken;
mod tally;
mod words;

pub use hold::Hold;
pub use table::LockTable;
pub use taken::Taken;
