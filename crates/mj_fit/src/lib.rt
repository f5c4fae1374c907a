// What jobs ask of devices is fit: laws, with nothing to run.
//
// The language keeps which devices a job has open, and which of them failed. So in a run a job calls only sessions that it has and that can be called, and
// opens only what it hasn't open: no step of a core is unfit (`specs/Laws.antt`). Of a job alone, without a system, this holds as long as it has the sessions
// that the replies of its log say.
#![tactic(auto)]

mod laws;

pub use laws::{
    all_are_served, all_are_served_by, no_step_is_unfit, no_talk_is_unfit, none_is_held,
};
