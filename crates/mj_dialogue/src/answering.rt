// The answer to a command.

ghost use Rattle.std.specs.Prelude.{◌≡◌, Bool, List, ℕ, IfOk, IfErr, OnOk, true, false};
ghost use Rattle.std.specs.Io.KnownBytes.{Appends};
ghost use Rattle.mj_dialogue.specs.declared.command.Command.TheVariants as commands;
ghost use Rattle.mj_dialogue.specs.declared.answering.Unanswered.TheVariants as unanswered;
ghost use Rattle.mj_dialogue.specs.Fails.{Fails, IsOutputWritten};
ghost use Rattle.mj_dialogue.specs.Says.{Says, AnswersGo};

use crate::command::Command;
use crate::doing::{back, clear, forward, frames, globals, locals, locks, set};
use crate::steps::{pass, step};
use mj_debug::Debugger;
use mj_dev::Device;
use mj_replica::Unshown;
use mj_sessions::Sessions;
use mj_sys::Opening;
use std::alloc::{AllocError, Global};
use std::io::Write;

/// Why a command isn't answered, or not to its end.
#[derive(Clone, Copy, PartialEq, Eq, Debug)]
pub enum Unanswered {
    /// an allocation was refused
    Memory,
    /// a job went on for 10,000,000,000 turns between two of its events, and isn't followed so far
    Long,
    /// the answer can't be written
    Unwritten,
}

impl From<AllocError> for Unanswered {
    ghost use Rattle.std.specs.Prelude.{◌≡◌};
    ghost use Rattle.mj_dialogue.specs.declared.answering.Unanswered.TheVariants as unanswered;

    ghost from_gives = { λ _ reason. reason ≡ unanswered.Memory };

    fn from(_error: AllocError) -> Unanswered {
        Unanswered::Memory
    }
}

impl From<Unshown> for Unanswered {
    ghost use Rattle.std.specs.Prelude.{◌≡◌};
    ghost use Rattle.mj_dialogue.specs.Fails.{unanswered_of};

    ghost from_gives = { λ why reason. reason ≡ unanswered_of why };

    fn from(why: Unshown) -> Unanswered {
        match why {
            Unshown::Memory => Unanswered::Memory,
            Unshown::Long => Unanswered::Long,
        }
    }
}

/// Does what a command asks for, and writes what is answered. Whether it is answered that the record is full. Each step of a `go` is
/// written as soon as it is made; the first that isn't made ends it.
pub fn answer<D: Device, O: Opening, W: Write>(
    alloc: Global,
    debugger: &mut Debugger<D, Sessions<D>, O>,
    command: &Command,
    out: &mut W,
) -> Result<bool, Unanswered>
    ensures ok { IfOk result (λ full. (bytes : List ℕ) × Says O.opening debugger.old command.now bytes full debugger.new
        × Appends (W.contents out.old) (W.contents out.new) bytes) }
    ensures err { IfErr result (λ why. (bytes : List ℕ) × Fails O.opening debugger.old command.now bytes why debugger.new
        × IsOutputWritten why (W.contents out.old) (W.contents out.new) bytes) }
{
    match command {
        Command::Go(count) => go(alloc, debugger, *count, out),
        Command::Step(given) => {
            let told = step(alloc, debugger, *given)?;
            give(out, &told.bytes, told.full)
        }
        Command::Set { routine, line } => give(out, &set(alloc, debugger, routine, *line)?, false),
        Command::Clear { routine, line } => {
            give(out, &clear(alloc, debugger, routine, *line)?, false)
        }
        Command::Back => give(out, &back(alloc, debugger)?, false),
        Command::Forward => give(out, &forward(alloc, debugger)?, false),
        Command::Frames(job) => give(out, &frames(alloc, debugger, *job)?, false),
        Command::Locals(job) => give(out, &locals(alloc, debugger, *job)?, false),
        Command::Locks => give(out, &locks(alloc, debugger)?, false),
        Command::Globals => give(out, &globals(alloc, debugger)?, false),
        Command::Quit => Ok(false),
    }
}

// Writes an answer, which says or doesn't say that the record is full.
fn give<W: Write>(out: &mut W, bytes: &[u8], full: bool) -> Result<bool, Unanswered>
    ensures ok { IfOk result (λ told. (told ≡ full) × Appends (W.contents out.old) (W.contents out.new) bytes.now) }
    ensures err { IfErr result (λ why. why ≡ unanswered.Unwritten) }
{
    put(out, bytes)?;
    Ok(full)
}

// Makes up to so many steps in turn.
fn go<D: Device, O: Opening, W: Write>(
    alloc: Global,
    debugger: &mut Debugger<D, Sessions<D>, O>,
    count: u32,
    out: &mut W,
) -> Result<bool, Unanswered>
    ensures ok { IfOk result (λ full. (bytes : List ℕ) × AnswersGo O.opening count debugger.old bytes full debugger.new
        × Appends (W.contents out.old) (W.contents out.new) bytes) }
    ensures err { IfErr result (λ why. (bytes : List ℕ) × Fails O.opening debugger.old (commands.Go count) bytes why debugger.new
        × IsOutputWritten why (W.contents out.old) (W.contents out.new) bytes) }
{
    for made in 0..count {
        let passed = pass(alloc, debugger, made == 0)?;
        put(out, &passed.told.bytes)?;
        if !passed.made {
            return Ok(passed.told.full);
        }
    }
    Ok(false)
}

// Writes some bytes.
fn put<W: Write>(out: &mut W, bytes: &[u8]) -> Result<(), Unanswered>
    ensures ok { OnOk result (Appends (W.contents out.old) (W.contents out.new) bytes.now) }
    ensures err { IfErr result (λ why. why ≡ unanswered.Unwritten) }
{
    match out.write_all(bytes) {
        Ok(()) => Ok(()),
        Err(_) => Err(Unanswered::Unwritten),
    }
}
