// What is told of a job that ended by a fault: what it is about, the line of the source, and the calls by which the job came there.
//
// A job's run is a function of how it starts and of the replies that it gets. So it is made once more (`walk`), up to the turn that comes to the fault
// (`fault`): there the machine stands at the instruction, with its operands and its frames (`specs/Stands.antt`). What the instruction names is said by
// `specs/Subjects.antt`, and what is told by `specs/Stories.antt`. `put_fault` tells it (`specs/Told.antt`).
#![tactic(auto)]

mod fault;
mod meanings;
mod places;
mod putting;
mod sources;
mod story;
mod subject;
mod told;
mod walk;

pub use sources::Source;
pub use story::put_lost;
pub use told::put_fault;
