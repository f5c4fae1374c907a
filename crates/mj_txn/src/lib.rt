// Commits of transactions, and what else an open one makes of its job's asks.
//
// A SERIAL transaction is committed exactly where each of its reads, asked once more on the globals as they are, with the own writes before
// that read made on them, has the answer that it had. Otherwise the commit clashes, and names the first read that differs with both
// answers. Any other transaction is committed without that test. A commit makes all writes or none.
//
// `access`, `try_take`, `roll_back` and `close` serve the asks of a job that has a transaction open, over the globals and the locks that all
// jobs share. `specs/Closing.antt` says what each is told and what it leaves: an unlock waits for the commit, which makes it after the changes;
// a transaction that is rolled back or clashes gives back the counts that it gained, and makes no unlock that waited.
#![tactic(auto)]

mod changed;
mod closing;
mod committing;
mod writes;

pub use changed::{Changed, first_changed};
pub use closing::{access, close, roll_back, try_take, unlock};
pub use committing::{Outcome, commit};
pub use mj_txlog::Skips;
