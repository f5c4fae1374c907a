// Rows of single crates: what each gives by itself, without the program around it. Their expected values were written down before the code
// ran. A crate with tests is proved twice, so they stand here. Those of devices and steps (`mj_test_devices`), of what reads texts (`mj_test_reading`) and of a
// core (`mj_test_core`) are apart, so that all can be proved at once. The whole program is tested by rows in `rows/`, and by no crate.
#![tactic(auto)]

#[cfg(test)]
mod chance;
#[cfg(test)]
mod locals;
#[cfg(test)]
mod locks;
#[cfg(test)]
mod plain;
#[cfg(test)]
mod stamps;
#[cfg(test)]
mod texts;
#[cfg(test)]
mod trees;
