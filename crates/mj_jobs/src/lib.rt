// The rows of jobs: how each starts, whether it was claimed, and whether it has ended.
//
// A job's number is that of its row, from 1 on, and isn't used again. A row is claimed at most once, the lowest first, by whoever is to run its job.
#![tactic(auto)]

mod jobs;

pub use jobs::{Claimed, Jobs, ROWS_LIMIT};
