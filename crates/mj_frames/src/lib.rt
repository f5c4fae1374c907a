// A job's frames, and the FORs that they are in.
//
// A contract sees frames as the list that the definitions of `mj_semantics` have of them, the innermost first. Beside it stands what the machine
// keeps for each frame: the FORs that it is in, and where and with which operands it goes on once the frame above it is over. What can fail for want
// of memory leaves all frames as they were.
#![tactic(auto)]

mod frame;
mod frames;
mod loops;

pub use frame::{Frame, Place};
pub use frames::Frames;
pub use loops::{Call, Loop, Passes};
