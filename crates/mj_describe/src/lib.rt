// What a recorded run tells, told: `words` puts it in words, as `specs/Words.antt` says, and `page` draws it. `first_elsewhere` finds the first event that
// comes from another line than the trace says (`specs/Elsewhere.antt`). `instead_words` tells what a run does in the place of an event.
#![tactic(auto)]

mod deadlocks;
mod draw;
mod elsewhere;
mod escape;
mod instead;
mod pages;
mod telling;
mod wording;

pub use deadlocks::Standing;
pub use elsewhere::first_elsewhere;
pub use instead::instead_words;
pub use pages::{Held, page};
pub use telling::words;
pub use wording::{Shown, Spot};
