// Views of places of a run.
//
// A view is a copy of what a show gives at one place: the committed globals, the table of locks, and each job's frames and locals. It is only looked
// at; nothing goes on from it. `Views` keeps those of places that follow one another. Of which run they are, they don't know.
#![tactic(auto)]

mod copies;
mod view;
mod views;

pub use view::View;
pub use views::Views;
