// Numbers of the language: whole numbers of magnitude at most 10^18 - 1.
//
// What a text reads as, which texts are canonic, how a number is written, and the arithmetic. A contract sees a `Num` as a
// whole number, and each call gives exactly what its definition in `specs/Number.antt` gives. No call takes memory.
#![tactic(auto)]

mod digits;
mod num;

pub use digits::{is_canonic, is_canonic_bytes};
pub use num::Num;
