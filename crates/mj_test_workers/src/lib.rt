// Tests of workers: that jobs run at the same time, with the lock free while they hold, whichever device they have; and that what a device is recorded to
// have taken went to its file. They are no tests of the program, which lets no one hold a job.
#![tactic(auto)]

#[cfg(test)]
mod files;
#[cfg(test)]
mod gates;
#[cfg(test)]
mod holders;
#[cfg(test)]
mod meetings;
