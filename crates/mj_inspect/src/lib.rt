// What a debugger shows of a place.
//
// A variable is shown as its job sees it, so a global with what an open transaction of that job wrote (`specs/Own.antt`, `specs/Shows.antt`). Of routines
// the source round a line is shown, the lines at which jobs stop, and whether an ask comes from a line (`specs/Asks.antt`). What a job asks next is found by
// letting it go on by itself (`waiting.rt`).
#![tactic(auto)]

mod own;
mod printing;
mod silence;
mod source;
mod special;
mod specials;
mod spots;
mod telling;
mod waiting;

pub use printing::show;
pub use silence::may_ask;
pub use source::{Source, around, line_of};
pub use special::Special;
pub use specials::special_line;
pub use spots::{last_job, line_of_entry, list_breaks, spot_at};
pub use telling::{or_nothing, said};
pub use waiting::{is_over, waits};
