// What is told of a run: what its jobs wrote, as it is printed; whether one of them faulted; and its trace.
//
// A run is told event by event (`Events`), be it that of jobs which were stepped by a core, or one that was gathered of what workers ran. What is printed
// of it and what its trace has is said of its history alone (`specs/Printed.antt`, `specs/Faults.antt`, `specs/Traced.antt`).
#![tactic(auto)]

mod faults;
mod history;
mod outputs;
mod part;
mod traces;

pub use faults::has_faulted;
pub use history::Events;
pub use outputs::printed;
pub use traces::{Trace, trace_of};
