// One step, and why it isn't made.

use thiserror::Error;

/// The most jobs, which are numbered from 1.
pub const JOBS_LIMIT: usize = 255;

/// How a job is stepped whose ask is busy, or that finds nothing to read yet.
#[derive(Clone, Copy, PartialEq, Eq, Debug)]
pub enum Way {
    /// it waits, but for a timeout of 0 or less
    Go,
    /// its timeout is over
    Late,
}

/// A step: the job with this number goes on to its next ask, which is served in this way.
#[derive(Clone, Copy, PartialEq, Eq, Debug)]
pub struct Step {
    pub job: u32,
    pub way: Way,
}

/// Why a step isn't made. It is printed as its code.
#[derive(Clone, Copy, PartialEq, Eq, Debug, Error)]
pub enum Refusal {
    /// there is no such job
    #[error("C1")]
    NoJob,
    /// the step is late, and what the job asks has no timeout
    #[error("C2")]
    NotTimed,
    /// the job has ended, and a step before has seen it
    #[error("C3")]
    Ended,
    /// there are as many events as there may be
    #[error("C4")]
    Full,
    /// an allocation was refused
    #[error("memory")]
    Memory,
}
