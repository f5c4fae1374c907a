// Rows of single crates, as in `mj_test_parts`: devices over lines and files, call by call, and steps, as they are read and made.
#![tactic(auto)]

#[cfg(test)]
mod devices;
#[cfg(test)]
mod files;
#[cfg(test)]
mod steps;
