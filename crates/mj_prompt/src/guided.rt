// One request at a prompt.

use crate::prompts::{COMMANDS, Prompt};
use mj_begin::written_besides;
use mj_command_line::Debug;
use mj_debug::Debugger;
use mj_dev::Device;
use mj_dialogue::{Command, Unanswered};
use mj_drafts::{Lockable, ProgramError, print, stopped, write_file};
use mj_guide::{Notes, Request, respond, steps_text};
use mj_sessions::Sessions;
use mj_sys::Opening;
use std::alloc::Global;
use std::io::Write;
use std::rt::Files;
use std::str;

/// What comes of a line.
pub enum Exchanged {
    /// it was answered; whether that the record is full
    Answered { full: bool },
    /// it ends the commands, or there is none
    Over,
    /// the record is to be cut at the place
    Branch,
}

/// Answers a line at a prompt.
pub fn guided<'a, R: Files + AllocGlobal, O: Write, E: Write, D: Device, G: Opening>(
    rt: &R,
    debugger: &mut Debugger<D, Sessions<D>, G>,
    order: &Debug<'_>,
    prompt: &Prompt,
    notes: &mut Notes,
    line: &[u8],
    out: &mut O,
    err: &mut E,
) -> Result<Exchanged, ProgramError<'a>>
where
    R::File: Lockable,
{
    let Some(request) = mj_guide::read(rt.alloc(), line)? else {
        print(b"?\n", out)?;
        prompt.help(line, err);
        return Ok(Exchanged::Answered { full: false });
    };
    done(rt, debugger, order, prompt, notes, &request, out, err)
}

// Does what a request asks for.
fn done<'a, R: Files + AllocGlobal, O: Write, E: Write, D: Device, G: Opening>(
    rt: &R,
    debugger: &mut Debugger<D, Sessions<D>, G>,
    order: &Debug<'_>,
    prompt: &Prompt,
    notes: &mut Notes,
    request: &Request,
    out: &mut O,
    err: &mut E,
) -> Result<Exchanged, ProgramError<'a>>
where
    R::File: Lockable,
{
    match request {
        Request::Plain(Command::Quit) => Ok(Exchanged::Over),
        Request::Branch => Ok(Exchanged::Branch),
        Request::Help => {
            print(COMMANDS, out)?;
            Ok(Exchanged::Answered { full: false })
        }
        Request::Keep(file) => {
            keep(rt, order, prompt, notes, file, out, err)?;
            Ok(Exchanged::Answered { full: false })
        }
        _ => {
            let full = answered(rt.alloc(), debugger, prompt, notes, request, out)?;
            Ok(Exchanged::Answered { full })
        }
    }
}

// Answers a request.
fn answered<'a, O: Write, D: Device, G: Opening>(
    alloc: Global,
    debugger: &mut Debugger<D, Sessions<D>, G>,
    prompt: &Prompt,
    notes: &mut Notes,
    request: &Request,
    out: &mut O,
) -> Result<bool, ProgramError<'a>> {
    match respond(alloc, debugger, notes, prompt.sources(), request, out) {
        Ok(full) => {
            print(b"", out)?;
            Ok(full)
        }
        Err(why) => Err(stop_of(why)),
    }
}

/// Why the program stops where a command can't be answered.
pub fn stop_of<'a>(why: Unanswered) -> ProgramError<'a> {
    match why {
        Unanswered::Memory => ProgramError::Memory,
        Unanswered::Long => ProgramError::Long,
        Unanswered::Unwritten => ProgramError::File("-"),
    }
}

// Writes the steps that did something to a file, and answers `ok`. Where that can't be, it is told, and the debugger goes on. A file whose name is no text
// spells no command.
fn keep<'a, R: Files + AllocGlobal, O: Write, E: Write>(
    rt: &R,
    order: &Debug<'_>,
    prompt: &Prompt,
    notes: &Notes,
    file: &[u8],
    out: &mut O,
    err: &mut E,
) -> Result<(), ProgramError<'a>>
where
    R::File: Lockable,
{
    let Ok(name) = str::from_utf8(file) else {
        print(b"?\n", out)?;
        prompt.help(file, err);
        return Ok(());
    };
    let bytes = steps_text(rt.alloc(), &notes.steps)?;
    match written_steps(rt, order, name, &bytes) {
        Ok(()) => print(b"ok\n", out),
        Err(ProgramError::Memory) => Err(ProgramError::Memory),
        Err(stop) => {
            let _status = stopped(&stop, err);
            Ok(())
        }
    }
}

// Writes the steps to a file that is none of the run.
fn written_steps<'b, R: Files + AllocGlobal>(
    rt: &R,
    order: &Debug<'_>,
    name: &'b str,
    bytes: &[u8],
) -> Result<(), ProgramError<'b>>
where
    R::File: Lockable,
{
    written_besides(rt, name, &order.run, order.replay)?;
    write_file(rt, name, bytes)
}
