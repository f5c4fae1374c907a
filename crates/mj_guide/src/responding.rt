// The answer to a request.

ghost use Rattle.std.specs.Prelude.{◌≡◌, ◌++◌, codes, true, false, IfOk, OnOk};
ghost use Rattle.std.specs.Io.KnownBytes.{Appends};
ghost use Rattle.mj_dialogue.specs.Lines.{lined, spot_line};
ghost use Rattle.mj_inspect.specs.Asks.{is_asking};
ghost use Rattle.mj_inspect.specs.Source.{IsSource, source_lines};
ghost use Rattle.mj_inspect.specs.Specials.{ShowsSpecial};
ghost use Rattle.mj_inspect.specs.Spots.{asker, entry_line};
ghost use Rattle.mj_inspect.specs.Waits.{TellsWaits};
ghost use Rattle.mj_guide.specs.Goes.{GoesToLine, GoesUntil};
ghost use Rattle.mj_guide.specs.Marks.{Marks, MarksEntry, MarksLine, marked_text, silence_text};
ghost use Rattle.mj_guide.specs.Notes.{situation, with_name, without_name};
ghost use Rattle.mj_guide.specs.Responds.{Responds, RespondsPlainly, StepsOn, job_or_none};

use crate::going::go;
use crate::notes::{Notes, add_name, note_step, take_name, watched_text};
use crate::request::{Goal, Request};
use crate::telling::put;
use mj_ask::Entry;
use mj_debug::Debugger;
use mj_dev::Device;
use mj_dialogue::{Command, Unanswered, answer, put_spot, tell_step};
use mj_inspect::{
    Source, Special, around, last_job, line_of_entry, list_breaks, may_ask, said, show,
    special_line, spot_at, waits,
};
use mj_load::Image;
use mj_sessions::Sessions;
use mj_steps::Step;
use mj_subs::Name;
use mj_sys::Opening;
use mj_text::Text;
use std::alloc::{AllocError, Global};
use std::io::Write;

// How many steps `until` makes at most.
pub const MOST: u32 = 10_000;

/// Does what a request asks for, and writes what is answered. Whether it is answered that the record is full. `help`, `keep`, `branch` and `q` are the
/// caller's: of them nothing is done or written.
pub fn respond<D: Device, O: Opening, W: Write>(
    alloc: Global,
    debugger: &mut Debugger<D, Sessions<D>, O>,
    notes: &mut Notes,
    sources: &[Source],
    request: &Request,
    out: &mut W,
) -> Result<bool, Unanswered>
    ensures { IfOk result (λ full. Responds O.opening sources.now (situation debugger.old notes.old (W.contents out.old)) request.now full
        (situation debugger.new notes.new (W.contents out.new))) }
{
    match request {
        Request::Plain(command) => plain(alloc, debugger, notes, command, out),
        Request::Until(goal) => until(alloc, debugger, notes, goal, out),
        Request::Show(name) => {
            let job = asker_or_none(debugger);
            give(out, &show(alloc, debugger, job, name)?)
        }
        Request::ShowOf { job, name } => give(out, &show(alloc, debugger, *job, name)?),
        Request::Special(of) => {
            let job = asker_or_none(debugger);
            give(out, &special(alloc, debugger, notes, job, *of)?)
        }
        Request::SpecialOf { job, special: of } => {
            give(out, &special(alloc, debugger, notes, *job, *of)?)
        }
        Request::Waits => give(out, &waiting(alloc, debugger, notes)?),
        Request::Breaks => give(out, &list_breaks(alloc, debugger)?),
        Request::SetAt(entry) => give(out, &mark_entry(alloc, debugger, entry, true)?),
        Request::ClearAt(entry) => give(out, &mark_entry(alloc, debugger, entry, false)?),
        Request::Source => give(out, &source_here(alloc, debugger, sources)?),
        Request::SourceAt { routine, line } => give(out, &around(alloc, sources, routine, *line)?),
        Request::SourceOf(entry) => {
            give(
                out,
                &source_of(alloc, debugger.core().image(), sources, entry)?,
            )
        }
        Request::Watched => give(out, &watched_text(alloc, notes)?),
        Request::Watch(name) => give(out, &watch(alloc, notes, name)?),
        Request::Unwatch(name) => give(out, &unwatch(alloc, notes, name)?),
        Request::Help => give(out, b""),
        Request::Keep(_) => give(out, b""),
        Request::Branch => give(out, b""),
    }
}

// The job of the last ask before the place; 0, which is none, where there is none.
fn asker_or_none<D: Device, O: Opening>(debugger: &Debugger<D, Sessions<D>, O>) -> u32
    ensures { result ≡ job_or_none (asker debugger.now.core.history debugger.now.place) }
{
    match last_job(debugger) {
        Some(job) => job,
        None => 0,
    }
}

// The line of a special variable of a job.
fn special<D: Device, O: Opening>(
    alloc: Global,
    debugger: &Debugger<D, Sessions<D>, O>,
    notes: &Notes,
    job: u32,
    of: Special,
) -> Result<Vec<u8>, AllocError>
    ensures { IfOk result
        (λ bytes. ShowsSpecial debugger.now.core.image notes.now.starts.items debugger.now.core.history debugger.now.place job of bytes.items) }
{
    special_line(alloc, debugger, &notes.starts, job, of)
}

// The lines of what each job asks next.
fn waiting<D: Device, O: Opening>(
    alloc: Global,
    debugger: &Debugger<D, Sessions<D>, O>,
    notes: &Notes,
) -> Result<Vec<u8>, AllocError>
    ensures { IfOk result (λ bytes. TellsWaits debugger.now.core.image notes.now.starts.items debugger.now.core.history debugger.now.place bytes.items) }
{
    waits(alloc, debugger, &notes.starts)
}

// Writes an answer that doesn't say that the record is full.
fn give<W: Write>(out: &mut W, bytes: &[u8]) -> Result<bool, Unanswered>
    ensures { IfOk result (λ full. (full ≡ false) × Appends (W.contents out.old) (W.contents out.new) bytes.now) }
{
    put(out, bytes)?;
    Ok(false)
}

// Answers a command that stands without a prompt too. Steps are noted, `go` ends in more ways, and of a breakpoint from which no ask comes this is told.
fn plain<D: Device, O: Opening, W: Write>(
    alloc: Global,
    debugger: &mut Debugger<D, Sessions<D>, O>,
    notes: &mut Notes,
    command: &Command,
    out: &mut W,
) -> Result<bool, Unanswered>
    ensures { IfOk result (λ full. RespondsPlainly O.opening (situation debugger.old notes.old (W.contents out.old)) command.now full
        (situation debugger.new notes.new (W.contents out.new))) }
{
    match command {
        Command::Quit => give(out, b""),
        Command::Step(step) => make(alloc, debugger, notes, *step, out),
        Command::Go(count) => go(alloc, debugger, notes, None, *count, out),
        Command::Set { routine, line } => give(out, &set(alloc, debugger, routine, *line)?),
        _ => answer(alloc, debugger, command, out),
    }
}

// Makes a line a breakpoint, and tells whether an ask may come from there.
fn set<D: Device, O: Opening>(
    alloc: Global,
    debugger: &mut Debugger<D, Sessions<D>, O>,
    routine: &Text,
    line: u32,
) -> Result<Vec<u8>, AllocError>
    ensures { IfOk result (λ bytes. Marks true debugger.old routine.now line debugger.new
        × (bytes.items ≡ lined (codes "ok") ++ silence_text (is_asking debugger.old.core.image.units routine.now line))) }
{
    mark(debugger, routine, line, true)?;
    let bytes = set_bytes(alloc, debugger, routine, line)?;
    Ok(bytes)
}

// What is told of a line that is set as a breakpoint.
fn set_bytes<D: Device, O: Opening>(
    alloc: Global,
    debugger: &Debugger<D, Sessions<D>, O>,
    routine: &Text,
    line: u32,
) -> Result<Vec<u8>, AllocError>
    ensures { IfOk result
        (λ bytes. bytes.items ≡ lined (codes "ok") ++ silence_text (is_asking debugger.now.core.image.units routine.now line)) }
{
    let mut bytes = said(alloc, b"ok")?;
    bytes.extend_from_slice(silence(debugger.core().image(), routine, line))?;
    Ok(bytes)
}

// Makes a line a breakpoint, or none.
fn mark<D: Device, O: Opening>(
    debugger: &mut Debugger<D, Sessions<D>, O>,
    routine: &Text,
    line: u32,
    on: bool,
) -> Result<(), AllocError>
    ensures { OnOk result (Marks on debugger.old routine.now line debugger.new) }
{
    if on {
        debugger.set(routine, line)?;
        return Ok(());
    }
    debugger.clear(routine, line)?;
    Ok(())
}

// Makes a step.
fn make<D: Device, O: Opening, W: Write>(
    alloc: Global,
    debugger: &mut Debugger<D, Sessions<D>, O>,
    notes: &mut Notes,
    step: Step,
    out: &mut W,
) -> Result<bool, Unanswered>
    ensures { IfOk result (λ full. StepsOn O.opening (situation debugger.old notes.old (W.contents out.old)) step full
        (situation debugger.new notes.new (W.contents out.new))) }
{
    notes.steps.reserve(1)?;
    let answer = debugger.step(step);
    note_step(notes, step, &answer);
    let told = tell_step(alloc, debugger.core(), &answer)?;
    put(out, &told.bytes)?;
    Ok(told.full)
}

// What is told of a breakpoint from whose line no ask comes.
fn silence(image: &Image, routine: &Text, line: u32) -> &'static [u8]
    ensures { result.now ≡ silence_text (is_asking image.now.units routine.now line) }
{
    if may_ask(image, routine, line) {
        b"".as_slice()
    } else {
        b"no ask comes from there\n".as_slice()
    }
}

// Makes steps in turn up to a goal.
fn until<D: Device, O: Opening, W: Write>(
    alloc: Global,
    debugger: &mut Debugger<D, Sessions<D>, O>,
    notes: &mut Notes,
    goal: &Goal,
    out: &mut W,
) -> Result<bool, Unanswered>
    ensures { IfOk result (λ full. GoesUntil O.opening goal.now (situation debugger.old notes.old (W.contents out.old)) full
        (situation debugger.new notes.new (W.contents out.new))) }
{
    match goal {
        Goal::Line { routine, line } => until_line(alloc, debugger, notes, routine, *line, out),
        _ => go(alloc, debugger, notes, Some(goal), MOST, out),
    }
}

// Makes steps in turn up to a line, which is a breakpoint until then.
fn until_line<D: Device, O: Opening, W: Write>(
    alloc: Global,
    debugger: &mut Debugger<D, Sessions<D>, O>,
    notes: &mut Notes,
    routine: &Text,
    line: u32,
    out: &mut W,
) -> Result<bool, Unanswered>
    ensures { IfOk result (λ full. GoesToLine O.opening routine.now line (situation debugger.old notes.old (W.contents out.old)) full
        (situation debugger.new notes.new (W.contents out.new))) }
{
    if debugger.is_breakpoint(routine, line) {
        return go(alloc, debugger, notes, None, MOST, out);
    }
    debugger.set(routine, line)?;
    let told = go(alloc, debugger, notes, None, MOST, out);
    debugger.clear(routine, line)?;
    told
}

// Makes the line of an entry a breakpoint, or none, and tells which it is.
fn mark_entry<D: Device, O: Opening>(
    alloc: Global,
    debugger: &mut Debugger<D, Sessions<D>, O>,
    entry: &Entry,
    on: bool,
) -> Result<Vec<u8>, AllocError>
    ensures { IfOk result (λ bytes. MarksEntry on debugger.old entry.now bytes.items debugger.new) }
{
    match line_of_entry(debugger.core().image(), entry) {
        None => said(alloc, b"none"),
        Some(line) => mark_line(alloc, debugger, &entry.routine, line, on),
    }
}

// Makes a line a breakpoint, or none, and tells which it is.
fn mark_line<D: Device, O: Opening>(
    alloc: Global,
    debugger: &mut Debugger<D, Sessions<D>, O>,
    routine: &Text,
    line: u32,
    on: bool,
) -> Result<Vec<u8>, AllocError>
    ensures { IfOk result (λ bytes. MarksLine on debugger.old routine.now line bytes.items debugger.new) }
{
    mark(debugger, routine, line, on)?;
    let bytes = mark_bytes(alloc, debugger, routine, line, on)?;
    Ok(bytes)
}

// What is told of a line that is made a breakpoint, or none.
fn mark_bytes<D: Device, O: Opening>(
    alloc: Global,
    debugger: &Debugger<D, Sessions<D>, O>,
    routine: &Text,
    line: u32,
    on: bool,
) -> Result<Vec<u8>, AllocError>
    ensures { IfOk result
        (λ bytes. bytes.items ≡ codes "ok " ++ spot_line routine.now line ++ marked_text on (is_asking debugger.now.core.image.units routine.now line)) }
{
    let mut bytes = Vec::new(alloc);
    bytes.extend_from_slice(b"ok ")?;
    put_spot(&mut bytes, routine, line)?;
    bytes.extend_from_slice(behind(debugger.core().image(), routine, line, on))?;
    Ok(bytes)
}

// What is told behind the line.
fn behind(image: &Image, routine: &Text, line: u32, on: bool) -> &'static [u8]
    ensures { result.now ≡ marked_text on (is_asking image.now.units routine.now line) }
{
    if on {
        return silence(image, routine, line);
    }
    b""
}

// The source round the line that the last ask before the place came from.
fn source_here<D: Device, O: Opening>(
    alloc: Global,
    debugger: &Debugger<D, Sessions<D>, O>,
    sources: &[Source],
) -> Result<Vec<u8>, AllocError>
    ensures { IfOk result (λ bytes. IsSource O.opening sources.now debugger.now bytes.items) }
{
    match spot_at(debugger) {
        Some((routine, line)) => around(alloc, sources, routine, line),
        None => said(alloc, b"none"),
    }
}

// The source round the line of an entry.
fn source_of(
    alloc: Global,
    image: &Image,
    sources: &[Source],
    entry: &Entry,
) -> Result<Vec<u8>, AllocError>
    ensures { IfOk result
        (λ bytes. bytes.items ≡ source_lines sources.now entry.now.routine (entry_line image.now.routines entry.now)) }
{
    match line_of_entry(image, entry) {
        Some(line) => around(alloc, sources, &entry.routine, line),
        None => said(alloc, b"none"),
    }
}

// Watches a name from now on.
fn watch(alloc: Global, notes: &mut Notes, name: &Name) -> Result<Vec<u8>, AllocError>
    ensures ok { IfOk result (λ bytes. bytes.items ≡ lined (codes "ok")) }
    ensures watched { OnOk result (notes.new.watched.items ≡ with_name notes.old.watched.items name.now) }
    ensures steps { notes.new.steps.items ≡ notes.old.steps.items }
    ensures starts { notes.new.starts.items ≡ notes.old.starts.items }
{
    add_name(&mut notes.watched, name)?;
    said(alloc, b"ok")
}

// Doesn't watch a name from now on.
fn unwatch(alloc: Global, notes: &mut Notes, name: &Name) -> Result<Vec<u8>, AllocError>
    ensures ok { IfOk result (λ bytes. bytes.items ≡ lined (codes "ok")) }
    ensures watched { notes.new.watched.items ≡ without_name notes.old.watched.items name.now }
    ensures steps { notes.new.steps.items ≡ notes.old.steps.items }
    ensures starts { notes.new.starts.items ≡ notes.old.starts.items }
{
    take_name(&mut notes.watched, name);
    said(alloc, b"ok")
}
