// Where a run stands.

use mj_text::Fault;

/// What a job does next.
#[derive(Clone, Copy, PartialEq, Eq, Debug)]
pub enum Control {
    /// its principal session begins, and then the line where it starts
    Begin,
    /// the instruction with this number
    At(usize),
    /// a fault is told of
    Faulted(Fault),
    /// so many of its sessions have ended: the next one ends, or, where there is none, the job
    Closing(usize, Option<Fault>),
    /// nothing
    Over,
}
