// What stands at the place in the record, as it is shown.

ghost use Rattle.std.specs.Prelude.{◌≡◌, ◌++◌, ◌∷◌, [], map, true, IfOk, OnOk};
ghost use Rattle.mj_frames.specs.Frames.{frames_of};
ghost use Rattle.mj_gfile.specs.Spelling.{listed_lines};
ghost use Rattle.mj_locktab.specs.Locks.{job_of, name_of};
ghost use Rattle.mj_sys.specs.History.{state_of};
ghost use Rattle.mj_debug.specs.Walks.{front};
ghost use Rattle.mj_dialogue.specs.Lines.{spot_lines, held_lines, held_line};
ghost use Rattle.mj_dialogue.specs.Says.{ShowsFrames, ShowsLocals};

use crate::tell::{line, put_spot};
use itoa::Buffer;
use mj_debug::Debugger;
use mj_dev::Device;
use mj_frames::Frame;
use mj_gfile::{put_name, put_nodes};
use mj_locktab::LockTable;
use mj_sessions::Sessions;
use mj_subs::Name;
use mj_sys::Opening;
use std::alloc::{AllocError, Global};

// Writes the lines of a job's frames, the innermost first.
pub fn frames_at<D: Device, O: Opening>(
    alloc: Global,
    debugger: &Debugger<D, Sessions<D>, O>,
    job: u32,
) -> Result<Vec<u8>, AllocError>
    requires { debugger.now.ready ≡ true }
    ensures { IfOk result (λ bytes. ShowsFrames O.opening debugger.now job bytes.items) }
{
    match debugger.frames(job) {
        None => line(alloc, b"C1"),
        Some(frames) => frame_lines(alloc, frames),
    }
}

// Writes the lines of frames, the last first.
fn frame_lines(alloc: Global, frames: &[Frame]) -> Result<Vec<u8>, AllocError>
    ensures { IfOk result (λ bytes. bytes.items ≡ spot_lines (map (λ f. f.place) (frames_of frames.now))) }
{
    let mut bytes = Vec::new(alloc);
    for frame in frames.iter().rev() {
        put_spot(&mut bytes, &frame.place.routine, frame.place.line)?;
    }
    Ok(bytes)
}

// Writes the lines of a job's locals.
pub fn locals_at<D: Device, O: Opening>(
    alloc: Global,
    debugger: &Debugger<D, Sessions<D>, O>,
    job: u32,
) -> Result<Vec<u8>, AllocError>
    requires { debugger.now.ready ≡ true }
    ensures { IfOk result (λ bytes. ShowsLocals O.opening debugger.now job bytes.items) }
{
    let Some(locals) = debugger.locals(job) else {
        return line(alloc, b"C1");
    };
    let nodes = locals.nodes()?;
    let mut bytes = Vec::new(alloc);
    put_nodes(&mut bytes, &nodes)?;
    Ok(bytes)
}

// Writes the lines of the committed globals.
pub fn globals_at<D: Device, O: Opening>(
    alloc: Global,
    debugger: &Debugger<D, Sessions<D>, O>,
) -> Result<Vec<u8>, AllocError>
    requires { debugger.now.ready ≡ true }
    ensures { IfOk result (λ bytes. bytes.items ≡ listed_lines (state_of O.opening (front debugger.now)).globals) }
{
    let nodes = debugger.globals().nodes()?;
    let mut bytes = Vec::new(alloc);
    put_nodes(&mut bytes, &nodes)?;
    Ok(bytes)
}

// Writes the lines of the names that are held.
pub fn locks_at<D: Device, O: Opening>(
    alloc: Global,
    debugger: &Debugger<D, Sessions<D>, O>,
) -> Result<Vec<u8>, AllocError>
    requires { debugger.now.ready ≡ true }
    ensures { IfOk result (λ bytes. bytes.items ≡ held_lines (state_of O.opening (front debugger.now)).locks) }
{
    lock_lines(alloc, debugger.locks())
}

// Writes the lines of the names in a table.
fn lock_lines(alloc: Global, locks: &LockTable) -> Result<Vec<u8>, AllocError>
    ensures { IfOk result (λ bytes. bytes.items ≡ held_lines locks.now.holds) }
{
    let held = locks.held(alloc)?;
    let mut bytes = Vec::new(alloc);
    for (job, name, count) in &held {
        put_lock(&mut bytes, *job, name, *count)?;
    }
    Ok(bytes)
}

// Puts the line of a name that is held to the end.
fn put_lock(bytes: &mut Vec<u8>, job: u32, name: &Name, count: u32) -> Result<(), AllocError>
    ensures { OnOk result (bytes.new.items ≡ bytes.old.items ++ held_line job name.now count) }
{
    bytes.extend_from_slice(Buffer::new().format(job).as_bytes())?;
    bytes.push(b' ')?;
    put_name(bytes, name)?;
    bytes.push(b' ')?;
    bytes.extend_from_slice(Buffer::new().format(count).as_bytes())?;
    bytes.push(b'\n')?;
    Ok(())
}
