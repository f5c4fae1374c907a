// The commands that a reader gives, one after the other.

ghost use Rattle.std.specs.Prelude.{◌≡◌, ◌≤◌, ◌++◌, ◌∷◌, [], codes, true, false, IfOk, OnOk};
ghost use Rattle.std.specs.Io.KnownBytes.{Appends};
ghost use Rattle.mj_load.specs.Image.{program_of};
ghost use Rattle.mj_semantics.specs.State.{Place};
ghost use Rattle.mj_debug.specs.Breaks.{is_breakpoint};
ghost use Rattle.mj_replica.specs.Replays.{history_of};
ghost use Rattle.mj_remade.specs.Marks.{all_over};
ghost use Rattle.mj_prompt.specs.Ends.{IsEnd, IsResumed, IsOpened};

use crate::guided::{Exchanged, guided, stop_of};
use crate::prompts::Prompt;
use mj_command_line::Debug;
use mj_debug::Debugger;
use mj_dev::Device;
use mj_dialogue::{Command, answer};
use mj_drafts::{Lockable, ProgramError, print, stopped};
use mj_guide::Notes;
use mj_remade::{Again, Said, cut, follow, line_of_event, made_again};
use mj_sessions::Sessions;
use mj_sys::Opening;
use mj_trace::Trace;
use std::alloc::{AllocError, Global};
use std::io::{BufRead, ErrorKind, Read, Write};
use std::rt::Files;

/// How commands end.
#[derive(Drop)]
pub enum Talked {
    /// with this exit status
    Over(u8),
    /// by one that has all begin again
    Again(Again),
}

/// Makes the steps again that go over, or else those of a trace, and answers commands.
pub fn talk<R: Files + AllocGlobal, B: BufRead, O: Write, E: Write, D: Device, G: Opening>(
    rt: &R,
    debugger: &mut Debugger<D, Sessions<D>, G>,
    order: &Debug<'_>,
    prompt: &Option<Prompt>,
    trace: Option<&Trace>,
    mut notes: Notes,
    again: Option<Again>,
    reader: &mut B,
    out: &mut O,
    err: &mut E,
) -> Result<Talked, AllocError>
where
    R::File: Lockable,
    ensures { IfOk result (λ talked. IsEnd talked debugger.new) }
{
    if let Some(again) = again {
        return match resumed(debugger, &mut notes, again, out) {
            Ok(said) => converse(rt, debugger, order, prompt, notes, said, reader, out, err),
            Err(ProgramError::Memory) => {
                drop(notes);
                Err(AllocError)
            }
            Err(stop) => {
                drop(notes);
                Ok(Talked::Over(stopped(&stop, err)))
            }
        };
    }
    let mut said = Said::nothing();
    if let Some(trace) = trace {
        match followed(debugger, &mut notes, trace, order.run.hints, err) {
            Ok(differs) => said.differs = differs,
            Err(error) => {
                drop(notes);
                return Err(error);
            }
        }
    }
    if let Some(prompt) = prompt {
        prompt.greet(err);
    }
    converse(rt, debugger, order, prompt, notes, said, reader, out, err)
}

// Has jobs of which nothing was asked yet make the steps again that go over, notes them, and tells whether the record is that of before, up to the place. The
// names that were watched stay so. What was told so far.
fn resumed<'a, O: Write, D: Device, G: Opening>(
    debugger: &mut Debugger<D, Sessions<D>, G>,
    notes: &mut Notes,
    again: Again,
    out: &mut O,
) -> Result<Said, ProgramError<'a>>
    ensures told { IfOk result
        (λ said. IsResumed (history_of again.told.items) debugger.new.core.history (O.contents out.old) (O.contents out.new)) }
    ensures marks { IfOk result (λ said. (line : Place) → is_breakpoint debugger.new.core.image debugger.new.marks line
        ≡ all_over (is_breakpoint debugger.new.core.image debugger.old.marks) again.marks.items line) }
    ensures watched { IfOk result (λ said. notes.new.watched.items ≡ again.notes.watched.items) }
    ensures starts { IfOk result (λ said. notes.new.starts.items ≡ notes.old.starts.items) }
    ensures said { IfOk result (λ said. said ≡ again.said) }
{
    let said = again.said;
    let same = made_again(debugger, notes, again)?;
    match tell_same(same, out) {
        Ok(()) => Ok(said),
        Err(stop) => Err(stop),
    }
}

// Tells whether a record is that of before.
fn tell_same<'a, O: Write>(same: bool, out: &mut O) -> Result<(), ProgramError<'a>>
    ensures same { same ≡ true → OnOk result (Appends (O.contents out.old) (O.contents out.new) (codes "ok" ++ 10 ∷ [])) }
    ensures other { same ≡ false → OnOk result (Appends (O.contents out.old) (O.contents out.new) (codes "differs" ++ 10 ∷ [])) }
{
    if same {
        return tell(b"ok\n", out);
    }
    tell(b"differs\n", out)
}

// Writes all bytes of a line, which are seen at once.
fn tell<'a, O: Write>(line: &[u8], out: &mut O) -> Result<(), ProgramError<'a>>
    ensures { OnOk result (Appends (O.contents out.old) (O.contents out.new) line.now) }
{
    match out.write_all(line) {
        Ok(()) => match out.flush() {
            Ok(()) => Ok(()),
            Err(_) => Err(ProgramError::File("-")),
        },
        Err(_) => Err(ProgramError::File("-")),
    }
}

// Has jobs of which nothing was asked yet make the steps of a trace, and tells where the record isn't that of the trace. Whether it isn't.
fn followed<E: Write, D: Device, G: Opening>(
    debugger: &mut Debugger<D, Sessions<D>, G>,
    notes: &mut Notes,
    trace: &Trace,
    hints: bool,
    err: &mut E,
) -> Result<bool, AllocError>
    ensures { IfOk result
        (λ differs. IsOpened (program_of debugger.new.core.image) G.opening trace.now debugger.new.core.history differs) }
{
    let apart = follow(debugger, notes, trace)?;
    match apart {
        None => Ok(false),
        Some(at) => {
            tell_apart(line_of_event(trace, at), hints, err);
            Ok(true)
        }
    }
}

// What is told behind that a trace differs.
const CAUSES: &[u8] =
    b"    usual causes: other `--globals` than those of the run, a routine that was changed since, or a device that failed\n";

// Tells at which line a trace differs, and where hints are wanted what the usual causes are. Where this can't be written, the status alone tells.
fn tell_apart<E: Write>(line: usize, hints: bool, err: &mut E) {
    let _ = write!(err, "differs at line {line}\n");
    if hints {
        let _ = err.write_all(CAUSES);
    }
}

// Answers commands up to the one that ends, or up to the end of the input, or as far as they can be answered. So far this was told.
fn converse<R: Files + AllocGlobal, B: BufRead, O: Write, E: Write, D: Device, G: Opening>(
    rt: &R,
    debugger: &mut Debugger<D, Sessions<D>, G>,
    order: &Debug<'_>,
    prompt: &Option<Prompt>,
    mut notes: Notes,
    before: Said,
    reader: &mut B,
    out: &mut O,
    err: &mut E,
) -> Result<Talked, AllocError>
where
    R::File: Lockable,
    ensures { IfOk result (λ talked. IsEnd talked debugger.new) }
{
    let mut said = before;
    let mut last = Vec::new(rt.alloc());
    for _ in 0..u64::MAX {
        if let Some(prompt) = prompt {
            prompt.show(debugger, err);
        }
        match exchange(
            rt, debugger, order, prompt, &mut notes, &mut last, reader, out, err,
        ) {
            Ok(Exchanged::Answered { full }) => said.full = said.full || full,
            Ok(Exchanged::Over) => break,
            Ok(Exchanged::Branch) => {
                return Ok(Talked::Again(cut(rt.alloc(), debugger, notes, said)?));
            }
            Err(ProgramError::Memory) => return Err(AllocError),
            Err(stop) => return Ok(Talked::Over(stopped(&stop, err))),
        }
    }
    Ok(Talked::Over(said.status()))
}

// Reads the next command, and answers it. At a prompt an empty line stands for the last one.
fn exchange<'a, R: Files + AllocGlobal, B: BufRead, O: Write, E: Write, D: Device, G: Opening>(
    rt: &R,
    debugger: &mut Debugger<D, Sessions<D>, G>,
    order: &Debug<'_>,
    prompt: &Option<Prompt>,
    notes: &mut Notes,
    last: &mut Vec<u8>,
    reader: &mut B,
    out: &mut O,
    err: &mut E,
) -> Result<Exchanged, ProgramError<'a>>
where
    R::File: Lockable,
{
    let Some(line) = next_line(rt.alloc(), reader)? else {
        return Ok(Exchanged::Over);
    };
    let Some(prompt) = prompt else {
        return plain(rt.alloc(), debugger, &line, out);
    };
    if line.is_empty() {
        drop(line);
    } else {
        *last = line;
    }
    guided(rt, debugger, order, prompt, notes, last, out, err)
}

// Answers a command without a prompt.
fn plain<'a, O: Write, D: Device, G: Opening>(
    alloc: Global,
    debugger: &mut Debugger<D, Sessions<D>, G>,
    line: &[u8],
    out: &mut O,
) -> Result<Exchanged, ProgramError<'a>> {
    let Some(command) = mj_dialogue::read(alloc, line)? else {
        print(b"?\n", out)?;
        return Ok(Exchanged::Answered { full: false });
    };
    if let Command::Quit = &command {
        return Ok(Exchanged::Over);
    }
    match answer(alloc, debugger, &command, out) {
        Ok(full) => {
            print(b"", out)?;
            Ok(Exchanged::Answered { full })
        }
        Err(why) => Err(stop_of(why)),
    }
}

// The most bytes of a line, with its end.
const LINE_BYTES: usize = 65_536;

// The next line, without its end, which the last may lack. One that is too long can't be read.
fn next_line<'a, B: BufRead>(
    alloc: Global,
    reader: &mut B,
) -> Result<Option<Vec<u8>>, ProgramError<'a>> {
    let mut line = Vec::new(alloc);
    match reader.take(LINE_BYTES as u64).read_until(b'\n', &mut line) {
        Ok(0) => Ok(None),
        Ok(count) => {
            if line.last() == Some(&b'\n') {
                let _ = line.pop();
            } else if count == LINE_BYTES {
                return Err(ProgramError::File("-"));
            }
            Ok(Some(line))
        }
        Err(error) if error.kind() == ErrorKind::OutOfMemory => Err(ProgramError::Memory),
        Err(_) => Err(ProgramError::File("-")),
    }
}
