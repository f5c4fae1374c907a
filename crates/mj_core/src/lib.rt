// Many jobs over one system, on one thread.
//
// A step lets one job go on to its next ask, which is served: by the system, by who answers for the job (`answerer.rt`), or at once
// (`specs/Ties.antt`, `Steps`). What was asked and told, in order, is a history; when one is a run of a program says `specs/Runs.antt`.
// The shared state keeps the history of what it served; what a job asked of its devices, or of the clock, is in that job's log alone. So
// the history of all events is woven of the jobs' logs by what is written down of their order (`specs/Woven.antt`), and nothing is kept
// twice; when one is in order says `specs/Happen.antt`.
//
// What a job asks a device is answered by its own sessions (`by_sessions.rt`), or by a record of what devices answered, where none is called
// (`by_record.rt`).
//
// `Core` (`together.rt`) keeps all jobs and the history; what a step of it gives says `specs/Gives.antt`, and the theorem on lists of steps is the
// contract of `run`, over sessions. One job's step among many is in `slot.rt`; `parts.rt` has its parts apart, for who shares the system under a lock.
#![tactic(auto)]

mod answerer;
mod by_record;
mod by_sessions;
mod happened;
mod laws;
mod parts;
mod seen;
mod slot;
mod together;

pub use answerer::{Answerer, Fresh, Unplaced};
pub use happened::Happened;
pub use laws::ended_by_halt;
pub use mj_steps::{Refusal, Step, Way};
pub use parts::{Made, Place, make_place, serve_at, take_reply, take_up, talk};
pub use seen::{Ready, Seen};
pub use slot::{FUEL, Slot, step_slot};
pub use together::{Core, most_events};
