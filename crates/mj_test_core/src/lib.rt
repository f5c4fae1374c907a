// Tests of a core of many jobs, and of what it stands on: devices that fail, and where each is dropped; what is recorded, told to a core without
// devices; what jobs share, served event by event; the blocks of a history, of a trace and of a core; and how often a job asks. They are no tests of the
// program, and one crate, since each that stands on a core has all below it loaded, and how parts of it are dropped proved anew.
// What jobs begin with, the devices that count their drops, and how shared things stand are there for `mj_refused` too.
#![tactic(auto)]

pub mod begins;
#[cfg(test)]
mod blank;
pub mod boxes;
#[cfg(test)]
mod cores;
#[cfg(test)]
mod counted;
#[cfg(test)]
mod failing;
#[cfg(test)]
mod judged;
#[cfg(test)]
mod logs;
#[cfg(test)]
mod recorded;
#[cfg(test)]
mod serial;
#[cfg(test)]
mod serving;
pub mod standing;
#[cfg(test)]
mod traced;
