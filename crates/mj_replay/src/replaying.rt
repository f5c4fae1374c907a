// A trace, replayed over globals.

ghost use Rattle.std.specs.Prelude.{◌≡◌, ◌≤◌, length, map, true, IfOk};
ghost use Rattle.mj_dev.specs.Shelves.{principal, left_of};
ghost use Rattle.mj_globs.specs.Within.{is_content_within};
ghost use Rattle.mj_jobs.specs.Rows.{rows_limit};
ghost use Rattle.mj_load.specs.Image.{program_of};
ghost use Rattle.mj_sys.specs.Opening.{opening_of, are_bare};
ghost use Rattle.mj_sys.specs.Shared.{are_global};
ghost use Rattle.mj_sys.specs.System.{history_limit};
ghost use Rattle.mj_dev.specs.Pools.{shelves_of};
ghost use Rattle.mj_trace.specs.Lines.{IsTrace};
ghost use Rattle.mj_trace.specs.Trace.{limit_of};
ghost use Rattle.mj_replay.specs.Traces.{opening_in, bare_start, SaysBy};

use mj_ask::{Entry, Noted, Start};
use mj_dev::{Blank, Pool, pool_of};
use mj_globs::Globals;
use mj_load::Image;
use mj_replica::{Verdict, replay, replay_placed};
use mj_trace::{Form, Trace};
use std::alloc::{AllocError, Global};
use std::marker::Brand;

/// Whether the events of a trace are a run of its opening over these globals, or which one, from 0, is the first that isn't made. The routines have the
/// trace's limit for texts, and the globals are within it. Where its form has places, an event isn't made that came from another place.
pub fn replay_trace(
    alloc: Global,
    image: &Image,
    globals: Globals,
    trace: &Trace,
) -> Result<Verdict, AllocError>
    requires global { are_global globals.content ≡ true }
    requires written { IsTrace trace.now }
    requires limit { image.now.bounds.limit ≡ limit_of trace.now.form }
    requires within { is_content_within image.now.bounds.limit globals.content ≡ true }
    ensures { IfOk result
        (λ verdict. SaysBy trace.now.form (program_of image.now) (opening_in globals.content trace.now) trace.now.events verdict) }
{
    match opened(alloc, trace) {
        Ok((pool, starts)) => replay_over(
            alloc,
            image,
            globals,
            pool,
            starts,
            trace.form(),
            trace.events(),
        ),
        Err(error) => {
            drop(globals);
            Err(error)
        }
    }
}

/// The devices and the starts with which the run of a trace begins.
pub fn opened(alloc: Global, trace: &Trace) -> Result<(Pool<Blank>, Vec<Start>), AllocError>
    ensures pool { IfOk result (λ x. x.0 ≡ shelves_of trace.now.pool) }
    ensures starts { IfOk result (λ x. x.1.items ≡ map bare_start trace.now.starts) }
{
    let starts = starts_of(alloc, trace.starts())?;
    match pool_of(alloc, trace.pool()) {
        Ok(pool) => Ok((pool, starts)),
        Err(error) => {
            drop(starts);
            Err(error)
        }
    }
}

// Starts at these entries, without values.
fn starts_of(alloc: Global, entries: &[Entry]) -> Result<Vec<Start>, AllocError>
    ensures { IfOk result (λ starts. starts.items ≡ map bare_start entries.now) }
{
    let mut starts = Vec::with_capacity(alloc, entries.len())?;
    for entry in entries {
        starts.push(Start::new(entry.try_clone()?, Vec::new(alloc)))?;
    }
    Ok(starts)
}

// Replays events of a form over an opening.
fn replay_over(
    alloc: Global,
    image: &Image,
    globals: Globals,
    pool: Pool<Blank>,
    starts: Vec<Start>,
    form: Form,
    events: &[Noted],
) -> Result<Verdict, AllocError>
    requires global { are_global globals.content ≡ true }
    requires some { 1 ≤ length starts.items }
    requires few { length starts.items ≤ rows_limit }
    requires fits { length starts.items ≤ left_of principal pool }
    requires bare { are_bare starts.items ≡ true }
    requires short { length events.now ≤ history_limit }
    ensures { IfOk result (λ verdict. SaysBy form (program_of image.now) (opening_of globals.content pool starts.items) events.now verdict) }
{
    match form {
        Form::First => replay::<Blank, Brand>(alloc, image, globals, pool, starts, events),
        Form::Second(_) => {
            replay_placed::<Blank, Brand>(alloc, image, globals, pool, starts, events)
        }
    }
}
