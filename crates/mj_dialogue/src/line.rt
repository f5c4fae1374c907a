// The command of a line.

ghost use Rattle.std.specs.Prelude.{◌≡◌, codes, ◌≢◌, ◌<◌, ◌≤◌, ◌^◌, ◌++◌, ◌∷◌, ℕ, List, decimal, position, true, IfOk, IfSome, IfNone};
ghost use Rattle.mj_subs.specs.Name.{is_word};
ghost use Rattle.mj_steps.specs.Steps.{IsJob, IsStep, line_of};
ghost use Rattle.mj_steps.specs.declared.step.Step.{Step as StepOf};
ghost use Rattle.mj_dialogue.specs.declared.command.Command.{Command as CommandOf};
ghost use Rattle.mj_dialogue.specs.Commands.{IsCommand, command_text, spot_text, IsSpot, IsLone, IsNumbered, is_colon};

use crate::command::Command;
use crate::number::count_of;
use mj_steps::{job_of, step_of};
use mj_subs::is_word;
use mj_text::Text;
use std::alloc::{AllocError, Global};

/// Reads the command that a line spells, without its end; none where it spells none.
pub fn read(alloc: Global, line: &[u8]) -> Result<Option<Command>, AllocError>
    ensures some { IfOk result (λ found. IfSome found (λ command. IsCommand command × (line.now ≡ command_text command))) }
    ensures none { IfOk result (λ found. IfNone found ((command : CommandOf) → IsCommand command → line.now ≢ command_text command)) }
{
    if let Some(command) = lone(line) {
        return Ok(Some(command));
    }
    if let Some(command) = numbered(line) {
        return Ok(Some(command));
    }
    if let Some(command) = set(alloc, line)? {
        return Ok(Some(command));
    }
    clear(alloc, line)
}

// Reads a command that is a word alone.
fn lone(line: &[u8]) -> Option<Command>
    ensures some { IfSome result (λ command. IsCommand command × (line.now ≡ command_text command)) }
    ensures none { IfNone result ((command : CommandOf) → IsLone command → line.now ≢ command_text command) }
{
    if line == b"back".as_slice() {
        Some(Command::Back)
    } else if line == b"fwd".as_slice() {
        Some(Command::Forward)
    } else if line == b"k".as_slice() {
        Some(Command::Locks)
    } else if line == b"g".as_slice() {
        Some(Command::Globals)
    } else if line == b"q".as_slice() {
        Some(Command::Quit)
    } else {
        None
    }
}

// Reads a command with a number.
fn numbered(line: &[u8]) -> Option<Command>
    ensures some { IfSome result (λ command. IsCommand command × (line.now ≡ command_text command)) }
    ensures none { IfNone result ((command : CommandOf) → IsNumbered command → IsCommand command → line.now ≢ command_text command) }
{
    if let Some(step) = stepped(line) {
        return Some(Command::Step(step));
    }
    if let Some(count) = going(line) {
        return Some(Command::Go(count));
    }
    if let Some(job) = framed(line) {
        return Some(Command::Frames(job));
    }
    let job = localed(line)?;
    Some(Command::Locals(job))
}

// The step that is to be made.
fn stepped(line: &[u8]) -> Option<mj_steps::Step>
    ensures some { IfSome result (λ step. IsStep step × (line.now ≡ codes "s " ++ line_of step)) }
    ensures none { IfNone result ((step : StepOf) → IsStep step → line.now ≢ codes "s " ++ line_of step) }
{
    step_of(line.strip_prefix(b"s ")?)
}

// How many steps are to be made.
fn going(line: &[u8]) -> Option<u32>
    ensures some { IfSome result (λ count. line.now ≡ codes "go " ++ decimal count) }
    ensures none { IfNone result ((count : ℕ) → count < 2 ^ 32 → line.now ≢ codes "go " ++ decimal count) }
{
    count_of(line.strip_prefix(b"go ")?)
}

// The job whose frames are to be shown.
fn framed(line: &[u8]) -> Option<u32>
    ensures some { IfSome result (λ job. IsJob job × (line.now ≡ codes "f " ++ decimal job)) }
    ensures none { IfNone result ((job : ℕ) → IsJob job → line.now ≢ codes "f " ++ decimal job) }
{
    job_of(line.strip_prefix(b"f ")?)
}

// The job whose locals are to be shown.
fn localed(line: &[u8]) -> Option<u32>
    ensures some { IfSome result (λ job. IsJob job × (line.now ≡ codes "v " ++ decimal job)) }
    ensures none { IfNone result ((job : ℕ) → IsJob job → line.now ≢ codes "v " ++ decimal job) }
{
    job_of(line.strip_prefix(b"v ")?)
}

// A line of a routine that is to be stopped at.
fn set(alloc: Global, line: &[u8]) -> Result<Option<Command>, AllocError>
    ensures some { IfOk result (λ found. IfSome found (λ command. IsCommand command × (line.now ≡ command_text command))) }
    ensures none { IfOk result
        (λ found. IfNone found ((routine : List ℕ) (number : ℕ) → IsSpot routine number → line.now ≢ codes "b " ++ spot_text routine number)) }
{
    let Some(rest) = line.strip_prefix(b"b ") else {
        return Ok(None);
    };
    match spot_of(alloc, rest)? {
        Some((routine, line)) => Ok(Some(Command::Set { routine, line })),
        None => Ok(None),
    }
}

// A line of a routine that isn't to be stopped at.
fn clear(alloc: Global, line: &[u8]) -> Result<Option<Command>, AllocError>
    ensures some { IfOk result (λ found. IfSome found (λ command. IsCommand command × (line.now ≡ command_text command))) }
    ensures none { IfOk result
        (λ found. IfNone found ((routine : List ℕ) (number : ℕ) → IsSpot routine number → line.now ≢ codes "d " ++ spot_text routine number)) }
{
    let Some(rest) = line.strip_prefix(b"d ") else {
        return Ok(None);
    };
    match spot_of(alloc, rest)? {
        Some((routine, line)) => Ok(Some(Command::Clear { routine, line })),
        None => Ok(None),
    }
}

/// The line of a routine that is spelled so.
pub fn spot_of(alloc: Global, bytes: &[u8]) -> Result<Option<(Text, u32)>, AllocError>
    ensures some { IfOk result (λ found. IfSome found (λ spot. IsSpot spot.0 spot.1 × (bytes.now ≡ spot_text spot.0 spot.1))) }
    ensures none { IfOk result
        (λ found. IfNone found ((routine : List ℕ) (number : ℕ) → IsSpot routine number → bytes.now ≢ spot_text routine number)) }
{
    let Some(colon) = colon(bytes) else {
        return Ok(None);
    };
    let (routine, line) = (&bytes[..colon], &bytes[colon + 1..]);
    if !is_word(routine) {
        return Ok(None);
    }
    let Some(line) = count_of(line) else {
        return Ok(None);
    };
    if line == 0 {
        return Ok(None);
    }
    match Text::from(alloc, routine) {
        Ok(routine) => Ok(Some((routine, line))),
        Err(_) => Err(AllocError),
    }
}

// Where the first colon is.
fn colon(bytes: &[u8]) -> Option<usize>
    ensures { result ≡ position is_colon bytes.now }
{
    bytes.iter().position(|byte| *byte == b':')
}
