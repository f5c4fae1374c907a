// What a job asks can be written: definitions, and laws of every job, with nothing to run.
//
// `specs/Formed.antt` says which locals are formed, and `specs/Laws.antt` has the laws: what a job asks after replies that can be written can
// be written too. `proofs/` goes through the rows of the language one by one, so another command is a row there.
#![tactic(auto)]

mod laws;

pub use laws::asks_are_written;
