// Rows of single crates, as in `mj_test_parts`: routines, listings and traces, as they are read and refused.
#![tactic(auto)]

#[cfg(test)]
mod fronts;
#[cfg(test)]
mod grammar;
#[cfg(test)]
mod listings;
#[cfg(test)]
mod read_back;
#[cfg(test)]
mod reading;
#[cfg(test)]
mod routines;
#[cfg(test)]
mod tables;
#[cfg(test)]
mod traces;
