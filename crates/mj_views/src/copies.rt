// Copies of what a job has.

ghost use Rattle.std.specs.Prelude.{◌≡◌, map, IfOk};
ghost use Rattle.mj_frames.specs.Frames.{frame_of, frames_of};

use mj_frames::Frame;
use mj_locals::Locals;
use std::alloc::{AllocError, Global};

/// Copies frames.
pub fn copy_frames(alloc: Global, frames: &[Frame]) -> Result<Vec<Frame>, AllocError>
    ensures { IfOk result (λ copies. frames_of copies.items ≡ frames_of frames.now) }
{
    let mut copies = Vec::with_capacity(alloc, frames.len())?;
    for frame in frames {
        copies.push(copy_frame(frame)?)?;
    }
    Ok(copies)
}

// Copies a frame.
fn copy_frame(frame: &Frame) -> Result<Frame, AllocError>
    ensures { IfOk result (λ copy. frame_of copy ≡ frame_of frame.now) }
{
    let place = frame.place.try_clone()?;
    Ok(Frame {
        place,
        level: frame.level,
        function: frame.function,
        test: frame.test,
        height: frame.height,
    })
}

/// Copies locals, without what NEW saved of them.
pub fn copy_locals(alloc: Global, locals: &Locals) -> Result<Locals, AllocError>
    ensures { IfOk result (λ copy. copy.now ≡ locals.now.now) }
{
    locals.rises();
    let snapshot = locals.snapshot()?;
    let mut copy = Locals::new(alloc);
    copy.go_back(0, &snapshot)?;
    Ok(copy)
}
