// Why bytes are refused as a trace.

use std::alloc::AllocError;
use thiserror::Error;

/// Why bytes are refused as a trace. Lines count from 1, the header among them.
#[derive(Clone, Copy, PartialEq, Eq, Debug, Error)]
pub enum TraceError {
    /// the first line isn't the header
    #[error("X1")]
    Header,
    /// a line isn't spelled as one of a trace, byte 10 doesn't end it, or it can't stand there; or a start is missing there
    #[error("X2 line {0}")]
    Line(usize),
    /// a line stands behind the last event that there may be
    #[error("X3 line {0}")]
    Long(usize),
    /// an allocation was refused
    #[error("memory")]
    Memory,
}

impl From<AllocError> for TraceError {
    ghost use Rattle.mj_trace.specs.declared.refusal.TraceError.TheVariants as error;
    ghost use Rattle.std.specs.Prelude.{◌≡◌};

    ghost from_gives = { λ e r. r ≡ error.Memory };

    fn from(_error: AllocError) -> TraceError {
        TraceError::Memory
    }
}
