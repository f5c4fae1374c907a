// What devices may have answered, where what a job asked them and was told is recorded.
//
// What a device is recorded to have answered is asked of no device: it is enough that the device protocol allows it (`specs/Heeds.antt`).
#![tactic(auto)]

mod heed;

pub use heed::Heeds;
