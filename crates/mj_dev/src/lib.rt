// Devices, the sessions that jobs have with them, and the pool of those that no job has yet.
//
// A device is whatever keeps the contract of the trait `Device`, which counts its failures, the bytes that it took and the lines that it gave.
// A session holds one device, and its type keeps the protocol: behind a failure there is only its end, and behind its end nothing. What each
// call does to a session is one definition, for every device, so the bytes that a device took are the output of its session's talk. A pool holds
// devices of which nothing was asked yet, by name.
#![tactic(auto)]

mod blank;
mod counted;
mod device;
mod fail;
mod lines;
mod memory;
mod pool;
mod rest;
mod row;
mod session;
mod talk;
mod watched;

pub use blank::{Blank, pool_of};
pub use counted::Counts;
pub use device::{Device, Did, Input, take};
pub use fail::Fail;
pub use lines::Lines;
pub use memory::Memory;
pub use pool::Pool;
pub use session::Session;
pub use talk::{Code, Cursor, State};
pub use watched::{Watch, Watched};
