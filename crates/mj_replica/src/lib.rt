// Recorded runs, played again.
//
// What jobs asked and were told is recorded; `replay` says whether it is a run of its opening, or which event is the first that isn't made
// (`specs/Replays.antt`). Each job goes on by itself, and must ask what is recorded; what all jobs share is served anew, and must be told
// as it is served; and what a device is recorded to have answered must be what the device protocol allows, which no device is called for.
//
// Where its job stands at an event's ask is the place where that came from (`specs/Placed.antt`): `replay_placed` compares it with what is recorded, and
// `locate` gives the events with it.
//
// A `Replica` is a run of which the first events were played again so (`specs/Replicas.antt`): what it has is what stands behind them
// (`specs/Shows.antt`). On its way to a place views of the last places before it are made (`specs/Views.antt`).
#![tactic(auto)]

mod filming;
mod laws;
mod placing;
mod playing;
mod replaying;
mod replica;
mod walking;

pub use laws::fronts_are_runs;
pub use placing::{Located, locate, replay_placed, spot_for};
pub use replaying::{Verdict, replay};
pub use replica::{KeptOpening, Replica, Unshown, bring, keep};
