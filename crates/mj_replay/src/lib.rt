// Traces, replayed.
//
// A trace tells how its run began and what each job asked and was told. `replay_trace` says whether that is a run of the routines over some
// globals, or which of its events is the first that isn't made (`mj_replica::replay` says it of recorded events, and `replay_placed` of those with places).
// `migrate` brings a trace of the older form to today's, in which each event has the place where its ask came from. No device is called.
#![tactic(auto)]

mod migrating;
mod replaying;

pub use migrating::{Migrated, migrate};
pub use replaying::{opened, replay_trace};
