// The device sessions of one job.
//
// A job has its sessions by the names of their devices, no two by one name. An ask that goes to a device is one call to its session
// (`specs/Answers.antt`); what a job asked and was told is, for each name, the talks of one session after the other, which obey the device
// protocol, and an open session's device took just the bytes of its talk (`specs/Named.antt`, `AreTold`).
#![tactic(auto)]

mod answer;
mod held;
mod sessions;
mod written;

pub use answer::Answer;
pub use sessions::Sessions;
pub use written::output;
