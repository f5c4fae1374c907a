// Why bytes are refused as a listing.

use std::alloc::AllocError;
use thiserror::Error;

/// Why bytes are refused as a listing. Lines count from 1, the header among them.
#[derive(Clone, Copy, PartialEq, Eq, Debug, Error)]
pub enum ReadError {
    /// the first line isn't the header
    #[error("G1")]
    Header,
    /// a line isn't spelled as one of a listing, or byte 10 doesn't end it
    #[error("G2 line {0}")]
    Line(usize),
    /// a line's name doesn't stand after that of the line before
    #[error("G3 line {0}")]
    Order(usize),
    /// a word, a list of subscripts or a text is over its limit
    #[error("G4 line {0}")]
    Limit(usize),
    /// an allocation was refused
    #[error("memory")]
    Memory,
}

impl From<AllocError> for ReadError {
    ghost use Rattle.mj_gfile.specs.declared.error.ReadError.TheVariants as error;
    ghost use Rattle.std.specs.Prelude.{◌≡◌};

    ghost from_gives = { λ e r. r ≡ error.Memory };

    fn from(_error: AllocError) -> ReadError {
        ReadError::Memory
    }
}
