// Laws of what jobs are told and of what is recorded of them, with nothing to do: the answers of a job's `advance` exclude each other; runs of many jobs
// can be written, event by event; and what is written of a run is read back, and is the same run.
//
// `specs/Agreeing.antt` has the first law, `specs/Laws.antt` the second, `specs/Traces.antt` the third. That what a job asks can be written is
// `mj_written`'s; here are the replies, and that they go on being such.
#![tactic(auto)]

mod laws;

pub use laws::{
    answers_agree, events_are_written, migrated_traces_are_read_back, traces_are_read_back,
};
