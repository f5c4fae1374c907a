// What a job does with its devices: the instructions of OPEN, USE, CLOSE and READ, and those of WRITE that depend on the column or on a code.
//
// A turn is said as in `mj_machine`, by `Does` of its `specs/Kept.antt`: what the p-code's definition has the instruction do leads from where the machine
// stood to where it stands. Each instruction asks once at most: a device is asked for and its session begins (`opening`), the session ends and the name
// is given up (`closing`), a line or a byte is read (`reading`), bytes are written (`formats`). What is open then, and which device is the current one, is
// kept by `mj_open_devices`. With want of memory the machine stands where it stood.
#![tactic(auto)]

pub mod closing;
pub mod formats;
pub mod opening;
pub mod reading;
mod timed;
pub mod using;
