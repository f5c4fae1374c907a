// Who may refuse memory is told when: by asking for room of one of two sizes, which nothing else here asks for. A library that listens refuses both, and
// without one they come to nothing.

use std::alloc::{AllocError, Global};

// Room of this size tells that memory may be refused from here on.
const MAY_REFUSE: usize = 16_777_259;

// Room of this size tells that it may not.
const MAY_NOT_REFUSE: usize = 16_777_289;

/// From here on memory may be refused, if somebody listens.
pub fn may_refuse(alloc: Global) {
    ask_for(alloc, MAY_REFUSE);
}

/// From here on all memory is given.
pub fn may_not_refuse(alloc: Global) {
    ask_for(alloc, MAY_NOT_REFUSE);
}

fn ask_for(alloc: Global, room: usize) {
    let asked: Result<Vec<u8>, AllocError> = Vec::with_capacity(alloc, room);
    drop(asked);
}
