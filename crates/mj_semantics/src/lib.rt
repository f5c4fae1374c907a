// What routines mean: definitions and laws, with nothing to run.
//
// `specs/State.antt` has what a job holds, `specs/Outcome.antt` the words that the rows are written in,
// `specs/Evaluation.antt` a row for each form of expression, `specs/Commands.antt` one for each command,
// `specs/Lines.antt` where lines stand, `specs/Program.antt` what jobs run, and `specs/Job.antt` what a job does from its start: `next`.
#![tactic(auto)]

mod laws;

pub use laws::{deep_enough, hands_on_at_most, steady};
