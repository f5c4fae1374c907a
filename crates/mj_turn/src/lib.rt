// A turn of a job, wherever its machine stands.
//
// A turn (`make_turn`) is said by `Steps` (`specs/Standing.antt` of `mj_machine`): what is left of the run behind it, for every number of turns to come
// and every list of replies, is what was left before it after one turn less, by the p-code's definition (`mj_pcode`). With want of memory a turn
// changes nothing. Among units that are checked it leads only to where no operand and no FOR is missing (`specs/Sound.antt`).
//
// Here is what control does: lines, calls, blocks, jumps, FORs, NEW, the ends of frames, and the turns before a job's first instruction and after its
// last. What the instructions on data do is in `mj_machine` and `mj_variable_ops`, what those of the world outside do in `mj_lock_ops` and
// `mj_device_ops`, and what those of transactions do in `mj_transaction_ops`. How frames begin and end (`calling`, `entering`, `leaving`), and how FORs go
// on (`repeat`), serves `mj_segment` as well.
#![tactic(auto)]

pub mod calling;
mod ending;
pub mod entering;
mod fault;
mod flow;
pub mod leaving;
mod news;
pub mod repeat;
mod start;
mod turn;

pub use start::Start;
pub use turn::{make_turn, obey};
