// How an ask is served, and why it isn't.

use mj_ask::Reply;
use mj_subs::SharedName;
use mj_text::Text;

/// What another job has.
#[derive(Drop)]
pub enum Held {
    /// a name that overlaps one of a lock
    Name(SharedName),
    /// the device
    Device(Text),
}

/// What comes of an ask, where a session of a device is an `S`.
#[derive(Drop)]
pub enum Served<S> {
    /// the job is told this
    Reply(Reply),
    /// the job is told that it has the device now, and this is its session
    Opened(S),
    /// another job has what is asked for, and nothing is told
    Busy {
        /// the job that has it
        holder: u32,
        /// what it has
        held: Held,
    },
}

/// What comes of an ask by which no session goes to a job.
#[derive(Drop)]
pub enum Told {
    /// the job is told this
    Reply(Reply),
    /// another job has what is asked for, and nothing is told
    Busy {
        /// the job that has it
        holder: u32,
        /// what it has
        held: Held,
    },
}

/// Why an ask isn't served.
#[derive(Clone, Copy, PartialEq, Eq, Debug)]
pub enum Refused {
    /// it isn't the claim's turn: the history has so many events of its job
    Turn { expected: u64 },
    /// an allocation was refused
    Memory,
    /// the history is full
    Full,
}
