// What a job reads as it is typed: a device that takes a line of a reader only when it is asked for one.
//
// `Typed` is such a device over any reader. `Live` is that or a port of the program, and `pool_of` makes the devices of a run whose first job has the reader:
// they are those that `mj_files::pool_of` makes of the same words, but for the lines of the first.
#![tactic(auto)]

mod live;
mod pool;
mod typed;

pub use live::Live;
pub use pool::pool_of;
pub use typed::Typed;
