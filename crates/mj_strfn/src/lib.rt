// The string functions of expressions, and the new text of a SET of `$PIECE`.
//
// Each call gives exactly what `specs/Functions.antt` says of lists of bytes, and each fault exactly where it says so.
// Arguments are texts; the calls read those that stand for numbers. None changes anything.
#![tactic(auto)]

mod arguments;
mod bytes;
mod pieces;
mod room;
mod search;
mod translation;

pub use bytes::{ascii, char, extract, find, justify, reverse};
pub use pieces::{PieceRange, assigned_pieces, length, piece, set_piece};
pub use translation::translate;
