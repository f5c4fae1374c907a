// A trace, run again: where in the routines each of its events comes from, and how its jobs stand at its end.
//
// `retrace` has the jobs of a trace make each of its events again, over devices that nothing is asked of, and says which is the first that isn't made. On
// its way it notes the line of a routine at which the job of each event stands, and which event made a job hold each name; and at the end what each job
// that goes on asks next. `does_instead` has them make those before one, and says what the run does in the place of that (`specs/Instead.antt`).
#![tactic(auto)]

mod again;
mod doing;
mod ends;
mod holds;
mod retracing;

pub use doing::{Instead, does_instead};
pub use holds::{Held, Hold};
pub use retracing::{Asked, Retraced, Spot, Untraced, retrace};
