// Why no tree is given.

use std::alloc::{AllocError, AllocFailed};

/// Why no tree is given. A place is how many tokens are left there, of those that were given.
#[derive(Clone, Copy, PartialEq, Eq, Debug)]
pub enum ParseError {
    /// the token at which no phrase goes on so, or the end
    Stuck(usize),
    /// the token that opens a level too many
    Deep(usize),
    /// a word has more bytes than a name, or a list of subscripts more commas than it may have
    Long,
    /// an allocation was refused
    Memory,
}

impl From<AllocError> for ParseError {
    ghost use Rattle.std.specs.Prelude.{◌≡◌};
    ghost use Rattle.mj_expr.specs.declared.stop.ParseError.TheVariants.{Memory};

    ghost from_gives = { λ _ e. e ≡ Memory };

    fn from(_e: AllocError) -> ParseError {
        ParseError::Memory
    }
}

impl<T: Drop> From<AllocFailed<T>> for ParseError {
    ghost use Rattle.std.specs.Prelude.{◌≡◌};
    ghost use Rattle.mj_expr.specs.declared.stop.ParseError.TheVariants.{Memory};

    ghost from_gives = { λ _ e. e ≡ Memory };

    fn from(_e: AllocFailed<T>) -> ParseError {
        ParseError::Memory
    }
}
