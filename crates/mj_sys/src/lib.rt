// What all jobs share, and the history of what they asked and were told.
//
// `specs/Shared.antt` has what is shared, the globals, the locks, who has which device, a row for each job and the transactions that are open, and
// how an ask of it is answered (`answered`; `served` is so of any ask); `specs/Transactions.antt` what it makes of an open transaction;
// `specs/Opening.antt` what is shared when a system begins. `specs/History.antt` has what a history of events leaves of it, and when each event of one
// was served;
// `specs/System.antt` what the type of the system keeps; `specs/Told.antt` what a call of `serve` tells. `specs/Passed.antt` has what the reads of open
// transactions passed over, which the state keeps beside them and nothing above sees.
// `proofs/Examples.antt` has worked examples of `served`.
//
// A `System` is seen as its history alone: its type keeps that its state is what the history leaves of the opening, so nothing of it can be
// made up, lost or changed beside the history.
#![tactic(auto)]

mod accessed;
mod claim;
mod event;
mod ongoing;
mod opening;
mod passed;
mod served;
mod shared;
mod system;
mod transacted;
mod transactions;

pub use claim::Claim;
pub use event::Event;
pub use opening::{Opening, Unmade};
pub use served::{Held, Refused, Served, Told};
pub use system::{HISTORY_LIMIT, System};
