// One job: its private state, and a run of it that may be paused at any turn and goes on with replies.
//
// A job's value is its log, where the asks in it came from, the ask that it waits with, the turns that it counted since the last reply, and where it stands.
// `IsRunOf` (`specs/Jobs.antt`) says of an image, an entry and a job that what is left of the job's run is what the image's
// routines mean from that entry, by the definitions of `mj_semantics`, after as many turns and with the log's replies.
// `start` gives it and every call keeps it, also where memory is refused. From it follow that the log is a trace, and what
// `advance` tells (`specs/Told.antt`).
#![tactic(auto)]

mod job;
mod laws;
mod places;

pub use job::{Job, SPENT_LIMIT, Turn};
pub use laws::{asks_what_fits, ended_by_halt};
pub use places::Places;
