// Steps: which job is stepped, how, and why a step isn't made.
//
// A file has a step a line. `read` accepts exactly the files whose lines all spell a step, and gives these steps; else it names the first
// line that spells none; `step_of` and `job_of` read one line, and one number of a job. Without a file jobs are stepped in turn, round by round:
// `Round::next` says which step comes next. `step_by` and `step_in_turn` make the steps, of whatever can be stepped.
#![tactic(auto)]

mod drive;
mod file;
mod line;
mod round;
mod step;

pub use drive::{Ending, Stepped, step_by, step_in_turn};
pub use file::{StepsError, read};
pub use line::{job_of, step_of};
pub use round::{Next, Round, Standing};
pub use step::{JOBS_LIMIT, Refusal, Step, Way};
