// What is done where a run is over, be it one of jobs that were stepped or of jobs that workers ran.
//
// First comes what the jobs wrote, then why they were stopped, if they were, then the globals that they left, then the trace (`telling.rt`, and `stepped.rt`
// for a core). Behind that stands what helps: what each job waits for (`jobs.rt`, `taken.rt`), where jobs are that haven't ended (`ends.rt`), and where jobs
// faulted (`faults.rt`). What the lines say is `specs/Printed.antt`, and where a job took what it holds `specs/Taken.antt`.
#![tactic(auto)]

mod ends;
mod faults;
mod jobs;
mod stepped;
mod taken;
mod telling;
mod wait;

pub use ends::{tell_devices, tell_full};
pub use faults::{kept_starts, tell_faults};
pub use stepped::{finish, tell_more, trace_core};
pub use telling::{tell_rest, tell_run, tell_trace};
