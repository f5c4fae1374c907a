// What a debugger answers at a prompt, beyond the commands that it has without one.
//
// `read` gives the request that a line spells (`specs/Requests.antt`); the commands that stand without a prompt are requests too. `respond` answers one,
// with what `mj_inspect` shows of the place. Jobs go on in turn up to a goal, a watched name or the point where all of them wait (`specs/Ends.antt`). The
// steps that did something are kept (`notes.rt`), and can be made again.
#![tactic(auto)]

mod ends;
mod going;
mod notes;
mod reading;
mod request;
mod responding;
mod tally;
mod telling;

pub use notes::{Notes, did_something, steps_text};
pub use reading::read;
pub use request::{Goal, Request};
pub use responding::respond;
