// What each command does that makes no step, and its lines.

ghost use Rattle.std.specs.Prelude.{◌≡◌, IfOk, IfErr, OnErr, false};
ghost use Rattle.mj_dialogue.specs.declared.command.Command.TheVariants as commands;
ghost use Rattle.mj_dialogue.specs.Fails.{IsDone, IsHidden};
ghost use Rattle.mj_dialogue.specs.Says.{Says, TellsWalk};

use crate::shows::{frames_at, globals_at, locals_at, locks_at};
use crate::tell::{event, line};
use mj_debug::Debugger;
use mj_dev::Device;
use mj_replica::Unshown;
use mj_sessions::Sessions;
use mj_sys::Opening;
use mj_text::Text;
use std::alloc::{AllocError, Global};

// Sets a breakpoint at a line.
pub fn set<D: Device, O: Opening>(
    alloc: Global,
    debugger: &mut Debugger<D, Sessions<D>, O>,
    routine: &Text,
    number: u32,
) -> Result<Vec<u8>, AllocError>
    ensures ok { IfOk result (λ bytes. Says O.opening debugger.old (commands.Set routine.now number) bytes.items false debugger.new) }
    ensures err { OnErr result (IsDone O.opening debugger.old (commands.Set routine.now number) debugger.new) }
{
    debugger.set(routine, number)?;
    line(alloc, b"ok")
}

// Clears the breakpoint of a line.
pub fn clear<D: Device, O: Opening>(
    alloc: Global,
    debugger: &mut Debugger<D, Sessions<D>, O>,
    routine: &Text,
    number: u32,
) -> Result<Vec<u8>, AllocError>
    ensures ok { IfOk result (λ bytes. Says O.opening debugger.old (commands.Clear routine.now number) bytes.items false debugger.new) }
    ensures err { OnErr result (IsDone O.opening debugger.old (commands.Clear routine.now number) debugger.new) }
{
    debugger.clear(routine, number)?;
    line(alloc, b"ok")
}

// Goes back by one event of the record.
pub fn back<D: Device, O: Opening>(
    alloc: Global,
    debugger: &mut Debugger<D, Sessions<D>, O>,
) -> Result<Vec<u8>, AllocError>
    ensures ok { IfOk result (λ bytes. Says O.opening debugger.old commands.Back bytes.items false debugger.new) }
    ensures err { OnErr result (IsDone O.opening debugger.old commands.Back debugger.new) }
{
    let at = debugger.back();
    walked(alloc, debugger, at)
}

// Goes on by one event of the record.
pub fn forward<D: Device, O: Opening>(
    alloc: Global,
    debugger: &mut Debugger<D, Sessions<D>, O>,
) -> Result<Vec<u8>, AllocError>
    ensures ok { IfOk result (λ bytes. Says O.opening debugger.old commands.Forward bytes.items false debugger.new) }
    ensures err { OnErr result (IsDone O.opening debugger.old commands.Forward debugger.new) }
{
    let at = debugger.forward();
    walked(alloc, debugger, at)
}

// Tells the event that was gone over, or that there is none.
fn walked<D: Device, O: Opening>(
    alloc: Global,
    debugger: &Debugger<D, Sessions<D>, O>,
    at: Option<usize>,
) -> Result<Vec<u8>, AllocError>
    ensures { IfOk result (λ bytes. TellsWalk O.opening debugger.now.core at bytes.items) }
{
    match at {
        Some(at) => event(alloc, debugger.core(), at),
        None => line(alloc, b"none"),
    }
}

// The frames of a job.
pub fn frames<D: Device, O: Opening>(
    alloc: Global,
    debugger: &mut Debugger<D, Sessions<D>, O>,
    job: u32,
) -> Result<Vec<u8>, Unshown>
    ensures ok { IfOk result (λ bytes. Says O.opening debugger.old (commands.Frames job) bytes.items false debugger.new) }
    ensures err { IfErr result (λ why. IsHidden O.opening debugger.old why debugger.new) }
{
    debugger.show()?;
    match frames_at(alloc, debugger, job) {
        Ok(bytes) => Ok(bytes),
        Err(_) => Err(Unshown::Memory),
    }
}

// The locals of a job.
pub fn locals<D: Device, O: Opening>(
    alloc: Global,
    debugger: &mut Debugger<D, Sessions<D>, O>,
    job: u32,
) -> Result<Vec<u8>, Unshown>
    ensures ok { IfOk result (λ bytes. Says O.opening debugger.old (commands.Locals job) bytes.items false debugger.new) }
    ensures err { IfErr result (λ why. IsHidden O.opening debugger.old why debugger.new) }
{
    debugger.show()?;
    match locals_at(alloc, debugger, job) {
        Ok(bytes) => Ok(bytes),
        Err(_) => Err(Unshown::Memory),
    }
}

// The names that are held.
pub fn locks<D: Device, O: Opening>(
    alloc: Global,
    debugger: &mut Debugger<D, Sessions<D>, O>,
) -> Result<Vec<u8>, Unshown>
    ensures ok { IfOk result (λ bytes. Says O.opening debugger.old commands.Locks bytes.items false debugger.new) }
    ensures err { IfErr result (λ why. IsHidden O.opening debugger.old why debugger.new) }
{
    debugger.show()?;
    match locks_at(alloc, debugger) {
        Ok(bytes) => Ok(bytes),
        Err(_) => Err(Unshown::Memory),
    }
}

// The committed globals.
pub fn globals<D: Device, O: Opening>(
    alloc: Global,
    debugger: &mut Debugger<D, Sessions<D>, O>,
) -> Result<Vec<u8>, Unshown>
    ensures ok { IfOk result (λ bytes. Says O.opening debugger.old commands.Globals bytes.items false debugger.new) }
    ensures err { IfErr result (λ why. IsHidden O.opening debugger.old why debugger.new) }
{
    debugger.show()?;
    match globals_at(alloc, debugger) {
        Ok(bytes) => Ok(bytes),
        Err(_) => Err(Unshown::Memory),
    }
}
