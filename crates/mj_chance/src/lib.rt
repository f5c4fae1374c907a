// Steps by chance, and fewer steps that show the same.
//
// `step_by_choice` makes the steps that someone chooses, of whatever can be stepped, and gives the list that was made. `Chance` chooses by chance, from a seed:
// some jobs are slow in a run, and some are late. `Wishes` chooses the steps of a list, as far as they can be made. `shorten` makes a list shorter that shows
// something, by a number of tries; what it gives still shows it, whatever the tries were. `put_steps` spells a list, as a file of steps has it.
#![tactic(auto)]

mod by_chance;
mod choose;
mod shortening;
mod spelled;
mod wished;

pub use by_chance::Chance;
pub use choose::{Chooser, Made, step_by_choice};
pub use shortening::{Trial, shorten};
pub use spelled::put_steps;
pub use wished::Wishes;
