// Open transactions.
//
// A contract sees a transaction as what it is: SERIAL or not, the numbered list of its accesses with their answers, and the names of the locks that
// were gained since it began. Beside it stand the stamps of what it read (`specs/Logged.antt`): while the stamp of a read's word stands still, so does
// its answer (`specs/Follows.antt`). A read in it is answered on the globals as they are at that moment, with the transaction's own writes before the
// read made on them. Nothing of that is done to the globals themselves, and they aren't copied. What the own writes leave is kept beside the list, as
// what lies over the globals (`specs/Laid.antt`). Writes are laid there by the next read, which is then answered from it and the globals, without
// another look at the list; those behind the last read are laid nowhere. `$DATA`, `$ORDER` and `$QUERY` take a few searches in both, and some more for
// each own kill that they pass over for the first time. What they pass over is kept as runs of subscripts (`Skips`, `specs/Skips.antt`), past each of
// which a later read goes in one step. Runs are no part of the transaction: those of a word hold for as long as that word doesn't change, which its
// stamp tells the caller, and are lent by it. Only for a subtree among own writes a small store is made of what stands there, and answers.
//
// A value that isn't given on is given to `drop`, marked as for the proof: a function at whose several ends it is dropped by itself takes a long proof.
#![tactic(auto)]

mod below;
mod entry;
mod follows;
mod log;
mod names;
mod next;
mod overlay;
mod query;
mod sight;
mod skips;
mod stale;

pub use entry::{Entry, Unlock, is_refused, is_write};
pub use log::{ACCESSES_LIMIT, TxLog};
pub use names::NameList;
pub use overlay::Overlay;
pub use sight::answer;
pub use skips::Skips;
pub use stale::{is_stale, is_still};
