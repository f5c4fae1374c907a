// The devices that a job has open.
//
// A contract sees them as a job's state does (`State.antt` of `mj_semantics`): the open devices in order of opening, the principal one first, and the name of
// the current one. What changes them is said by that page too: a write (`wrote`), a call that failed (`broke`), a device that is open no more (`dropped`).
// The principal device is always open, and takes no memory. What can fail for want of memory leaves all as it was.
#![tactic(auto)]

mod column;
mod devices;

pub use devices::{Devices, principal};
