// Traces that are explained.

ghost use Rattle.std.specs.Prelude.{◌≡◌, ◌≤◌, ℕ, IfOk, None, Some, length, true};
ghost use Rattle.mj_text.specs.declared.limit.Limit.TheVariants.{V2};
ghost use Rattle.mj_sys.specs.Shared.{are_global};
ghost use Rattle.mj_load.specs.Image.{program_of};
ghost use Rattle.mj_replica.specs.declared.replaying.Verdict.TheVariants as verdicts;
ghost use Rattle.mj_trace.specs.Lines.{IsTrace};
ghost use Rattle.mj_describe.specs.Words.{line_of};
ghost use Rattle.mj_recall.specs.Printed.{event_line, verdict_text};
ghost use Rattle.mj_recall.specs.Statuses.{verdict_status};
ghost use Rattle.mj_recall.specs.Explained.{known_of, WasExplained, IsExplained, TellsOf, TellsKnown, TellsStory, IsFirstAway};

use crate::causes::tell_difference;
use crate::replays::{recorded, verdict_text};
use mj_begin::{listed, loaded, page_apart};
use mj_command_line::Explain;
use mj_describe::{Shown, Standing, first_elsewhere, page, words};
use mj_drafts::{Lockable, ProgramError, print, write_file};
use mj_explain::{Story, story_of};
use mj_globs::Globals;
use mj_load::Image;
use mj_replica::Verdict;
use mj_retrace::{Retraced, Untraced, retrace};
use mj_text::Limit;
use mj_trace::{Form, Trace};
use std::alloc::{AllocError, Global};
use std::io::Write;
use std::mem::forget;
use std::rt::Files;

// What is told of a trace: what is to be printed, the page, where one is wanted, the exit status, and which event isn't made, if one isn't.
#[derive(Drop)]
struct Told {
    words: Vec<u8>,
    page: Option<Vec<u8>>,
    status: u8,
    differs: Option<usize>,
}

/// Tells what a trace shows, or which line of it isn't made, and gives the exit status. The trace is read first, then the routines, then the globals. A page is
/// written behind what is printed, where one is wanted and the trace is that of a run. It takes the place of no file that is read.
pub fn explain<'a, R: Files + AllocGlobal, O: Write, E: Write>(
    rt: &R,
    order: &Explain<'a>,
    out: &mut O,
    err: &mut E,
) -> Result<u8, ProgramError<'a>>
where
    R::File: Lockable,
    ensures { IfOk result (λ status. status ≤ 1) }
{
    if let Some(page) = order.html {
        page_apart(rt, page, &order.record)?;
    }
    let trace = recorded(rt, order.record.trace, order.record.events)?;
    let done = tell_all(rt, order, &trace, out, err);
    forget(trace);
    done
}

// Tells what a trace shows that was read, or which line of it isn't made, and gives the exit status.
fn tell_all<'a, R: Files + AllocGlobal, O: Write, E: Write>(
    rt: &R,
    order: &Explain<'a>,
    trace: &Trace,
    out: &mut O,
    err: &mut E,
) -> Result<u8, ProgramError<'a>>
where
    R::File: Lockable,
    requires written { IsTrace trace.now }
    requires few { length trace.now.events ≤ order.now.record.events }
    ensures { IfOk result (λ status. status ≤ 1) }
{
    let Told {
        words,
        page,
        status,
        differs,
    } = explained(rt, order, trace)?;
    let done = shown(rt, order.html, &words, &page, out);
    drop(words);
    drop(page);
    match done {
        Ok(()) => {
            if let Some(at) = differs {
                tell_difference(rt, &order.record, trace, at, err);
            }
            Ok(status)
        }
        Err(stop) => Err(stop),
    }
}

// Prints the words, and then writes the page, if there is one.
fn shown<'a, R: Files + AllocGlobal, O: Write>(
    rt: &R,
    file: Option<&'a str>,
    words: &[u8],
    page: &Option<Vec<u8>>,
    out: &mut O,
) -> Result<(), ProgramError<'a>>
where
    R::File: Lockable,
{
    print(words, out)?;
    match (file, page) {
        (Some(file), Some(page)) => write_file(rt, file, page),
        _ => Ok(()),
    }
}

// Explains it over the routines and the globals. Texts have the greater limit, whatever the trace's is.
fn explained<'a, R: Files + AllocGlobal>(
    rt: &R,
    order: &Explain<'a>,
    trace: &Trace,
) -> Result<Told, ProgramError<'a>>
    requires written { IsTrace trace.now }
    requires few { length trace.now.events ≤ order.now.record.events }
    ensures told { IfOk result (λ told. WasExplained order.now.record.files.items order.now.record.globals trace.now told.words.items told.status) }
    ensures bound { IfOk result (λ told. told.status ≤ 1) }
{
    let image = loaded(rt, &order.record.files, Limit::V2, order.record.events)?;
    match listed(rt, order.record.globals, Limit::V2) {
        Ok(globals) => {
            let told = explain_over(rt.alloc(), image, &globals, trace, order.html.is_some());
            forget(globals);
            told
        }
        Err(stop) => {
            forget(image);
            Err(stop)
        }
    }
}

// Runs the trace again over these globals, and tells what it shows, or which line isn't made.
fn explain_over<'a>(
    alloc: Global,
    image: Image,
    globals: &Globals,
    trace: &Trace,
    draw: bool,
) -> Result<Told, ProgramError<'a>>
    requires global { are_global globals.now.content ≡ true }
    requires written { IsTrace trace.now }
    requires long { image.bounds.limit ≡ V2 }
    requires room { length trace.now.events ≤ image.bounds.events }
    ensures told { IfOk result (λ told. IsExplained (program_of image) globals.now.content trace.now told.words.items told.status) }
    ensures bound { IfOk result (λ told. told.status ≤ 1) }
{
    let Ok(copy) = globals.try_clone() else {
        forget(image);
        return Err(ProgramError::Memory);
    };
    match retrace(alloc, image, copy, trace) {
        Ok(retraced) => {
            let told = tell_known(alloc, globals, trace, &retraced, draw);
            forget(retraced);
            Ok(told?)
        }
        Err(Untraced::Memory) => Err(ProgramError::Memory),
        Err(Untraced::Differs(at)) => Ok(refused(alloc, trace, at)?),
    }
}

// The line on an event that isn't made.
fn refused(alloc: Global, trace: &Trace, at: usize) -> Result<Told, AllocError>
    ensures text { IfOk result (λ told. told.words.items ≡ verdict_text trace.now (verdicts.Differs at)) }
    ensures none { IfOk result (λ told. told.page ≡ None) }
    ensures which { IfOk result (λ told. told.status ≡ verdict_status (verdicts.Differs at)) }
    ensures differs { IfOk result (λ told. told.differs ≡ Some at) }
    ensures bound { IfOk result (λ told. told.status ≤ 1) }
{
    let (text, status) = verdict_text(alloc, trace, Verdict::Differs(at))?;
    Ok(Told {
        words: text.into_bytes(),
        page: None,
        status,
        differs: Some(at),
    })
}

// Tells what a trace shows that was run again, or the first event that comes from elsewhere than a trace of today's form says.
fn tell_known(
    alloc: Global,
    globals: &Globals,
    trace: &Trace,
    retraced: &Retraced,
    draw: bool,
) -> Result<Told, AllocError>
    ensures told { IfOk result (λ told. TellsOf globals.now.content trace.now (known_of retraced.now) told.words.items told.status) }
    ensures bound { IfOk result (λ told. told.status ≤ 1) }
{
    match elsewhere(trace, retraced) {
        Some(at) => refused(alloc, trace, at),
        None => tell(alloc, globals, trace, retraced, draw),
    }
}

// The first event that comes from elsewhere than a trace of today's form says.
fn elsewhere(trace: &Trace, retraced: &Retraced) -> Option<usize>
    ensures { IsFirstAway trace.now.form trace.now.events retraced.now.spots.items result }
{
    match trace.form() {
        Form::First => None,
        Form::Second(_) => first_elsewhere(trace.events(), &retraced.spots),
    }
}

// Tells what a trace shows that was run again.
fn tell(
    alloc: Global,
    globals: &Globals,
    trace: &Trace,
    retraced: &Retraced,
    draw: bool,
) -> Result<Told, AllocError>
    ensures told { IfOk result (λ told. TellsKnown globals.now.content trace.now (known_of retraced.now) told.words.items) }
    ensures status { IfOk result (λ told. told.status ≡ 0) }
    ensures made { IfOk result (λ told. told.differs ≡ None) }
{
    let story = story_of(
        alloc,
        globals,
        trace.events(),
        &retraced.asked,
        &retraced.holds,
    )?;
    let told = tell_story(alloc, trace, retraced, &story, draw);
    forget(story);
    told
}

// Tells it in words, and draws it, where that is wanted.
fn tell_story(
    alloc: Global,
    trace: &Trace,
    retraced: &Retraced,
    story: &Story,
    draw: bool,
) -> Result<Told, AllocError>
    ensures words { IfOk result (λ told. TellsStory trace.now (known_of retraced.now) story.now told.words.items) }
    ensures status { IfOk result (λ told. told.status ≡ 0) }
    ensures made { IfOk result (λ told. told.differs ≡ None) }
{
    let shown = Shown {
        before: before_events(trace),
        events: trace.events(),
        spots: retraced.spots.as_slice(),
    };
    let standing = Standing {
        asked: retraced.asked.as_slice(),
        spots: retraced.stands.as_slice(),
        holds: retraced.holds.as_slice(),
    };
    let words = words(alloc, &shown, &standing, story)?;
    let page = if draw {
        Some(page(alloc, &shown, &standing, &retraced.past, story, &words)?)
    } else {
        None
    };
    Ok(Told {
        words,
        page,
        status: 0,
        differs: None,
    })
}

// How many lines stand between the header of a trace and its events.
fn before_events(trace: &Trace) -> usize
    ensures { (k : ℕ) → line_of result k ≡ event_line trace.now k }
{
    let head = match trace.form() {
        Form::First => 0,
        Form::Second(_) => 1,
    };
    let before = trace.pool().len().saturating_add(trace.starts().len());
    before.saturating_add(head)
}
