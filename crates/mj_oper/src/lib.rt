// The operators of expressions: what each gives of the values beside it, and which fault stands in the place of a value.
//
// Each call gives exactly what specs/Operators.antt says, and each fault exactly where it says so. No call changes anything.
#![tactic(auto)]

mod apply;
mod op;

pub use apply::{binary, of_numbers, truth, unary};
pub use op::{Op, TruthOp, UnaryOp};
