// Runs of a debugger that are made again: where a record is cut at a place, and where a trace is opened.
//
// A record is cut at a place. What goes over to jobs that begin again are the events before the place, the steps so far, the names that are watched, the
// breakpoints (`branches.rt`, `marks.rt`, `specs/Marks.antt`), and what was told so far (`said.rt`, `specs/Said.antt`). They make the steps again up to the
// place. The jobs of a trace that is opened make a step for each of its events, over devices that give what it says was read (`traces.rt`). In both cases the
// record is compared with what it is to be (`records.rt`, `specs/Records.antt`).
#![tactic(auto)]

mod branches;
mod marks;
mod records;
mod said;
mod traces;

pub use branches::{Again, cut, made_again};
pub use marks::Mark;
pub use said::Said;
pub use traces::{beginning_of, follow, line_of_event, opened};
