// What workers ran, as one run.
//
// What a job asked and was told is its log, which its worker keeps (`Ran`). `gather` makes one history of the system's history and all logs
// (`specs/Merged.antt`): a run, of which all holds that holds of every run of many jobs, that its transactions are as if each had run alone among it.
// `specs/Rans.antt` has what is kept of a job that was run, `specs/Gathered.antt` why nothing is gathered.
//
// That `gather` gives a run and doesn't say that something differs, no contract says.
#![tactic(auto)]

mod gathering;
mod ran;
mod run;

pub use gathering::{Ungathered, gather};
pub use ran::{Ran, Stop};
pub use run::Run;
