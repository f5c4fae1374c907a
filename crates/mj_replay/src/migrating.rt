// Traces, brought to today's form.

ghost use Rattle.std.specs.Prelude.{◌≡◌, ◌≤◌, length, true, IfOk};
ghost use Rattle.mj_dev.specs.Shelves.{principal, left_of};
ghost use Rattle.mj_globs.specs.Within.{is_content_within};
ghost use Rattle.mj_jobs.specs.Rows.{rows_limit};
ghost use Rattle.mj_load.specs.Image.{program_of};
ghost use Rattle.mj_sys.specs.Opening.{opening_of, are_bare};
ghost use Rattle.mj_sys.specs.Shared.{are_global};
ghost use Rattle.mj_sys.specs.System.{history_limit};
ghost use Rattle.mj_replica.specs.Placed.{Locates};
ghost use Rattle.mj_trace.specs.declared.form.Form.TheVariants.{First, Second};
ghost use Rattle.mj_trace.specs.Lines.{IsTrace};
ghost use Rattle.mj_trace.specs.Trace.{limit_of};
ghost use Rattle.mj_replay.specs.Traces.{Migrates};

use crate::replaying::{opened, replay_trace};
use mj_ask::{Entry, Noted, Spot, Start};
use mj_dev::{Blank, Pool};
use mj_globs::Globals;
use mj_load::Image;
use mj_replica::{Located, Verdict, locate};
use mj_text::Text;
use mj_trace::{Form, Trace};
use std::alloc::{AllocError, Global};
use std::marker::Brand;

/// What comes of a migration.
#[derive(Drop)]
pub enum Migrated {
    /// the trace in today's form
    To(Trace),
    /// the event at this place, from 0, is the first that isn't made
    Differs(usize),
}

/// Brings a trace to today's form: its events are replayed over these globals, and each gets the place where its ask came from. A trace of today's form comes
/// back as it is, if it is a run.
pub fn migrate(
    alloc: Global,
    image: &Image,
    globals: Globals,
    trace: &Trace,
) -> Result<Migrated, AllocError>
    requires global { are_global globals.content ≡ true }
    requires written { IsTrace trace.now }
    requires limit { image.now.bounds.limit ≡ limit_of trace.now.form }
    requires within { is_content_within image.now.bounds.limit globals.content ≡ true }
    ensures { IfOk result (λ migrated. Migrates (program_of image.now) globals.content trace.now migrated) }
{
    match trace.form() {
        Form::First => located(alloc, image, globals, trace),
        Form::Second(_) => match replay_trace(alloc, image, globals, trace)? {
            Verdict::Same => {
                let events = copy_events(alloc, trace.events())?;
                Ok(Migrated::To(rewritten(alloc, trace, events)?))
            }
            Verdict::Differs(at) => Ok(Migrated::Differs(at)),
        },
    }
}

// Brings a trace that has no places to today's form.
fn located(
    alloc: Global,
    image: &Image,
    globals: Globals,
    trace: &Trace,
) -> Result<Migrated, AllocError>
    requires global { are_global globals.content ≡ true }
    requires written { IsTrace trace.now }
    requires first { trace.now.form ≡ First }
    ensures { IfOk result (λ migrated. Migrates (program_of image.now) globals.content trace.now migrated) }
{
    match opened(alloc, trace) {
        Ok((pool, starts)) => {
            let found = locate_over(alloc, image, globals, pool, starts, trace.events())?;
            match found {
                Located::To(events) => Ok(Migrated::To(rewritten(alloc, trace, events)?)),
                Located::Differs(at) => Ok(Migrated::Differs(at)),
            }
        }
        Err(error) => {
            drop(globals);
            Err(error)
        }
    }
}

// Looks for the places of events over an opening.
fn locate_over(
    alloc: Global,
    image: &Image,
    globals: Globals,
    pool: Pool<Blank>,
    starts: Vec<Start>,
    events: &[Noted],
) -> Result<Located, AllocError>
    requires global { are_global globals.content ≡ true }
    requires some { 1 ≤ length starts.items }
    requires few { length starts.items ≤ rows_limit }
    requires fits { length starts.items ≤ left_of principal pool }
    requires bare { are_bare starts.items ≡ true }
    requires short { length events.now ≤ history_limit }
    ensures { IfOk result (λ located. Locates (program_of image.now) (opening_of globals.content pool starts.items) events.now located) }
{
    locate::<Blank, Brand>(alloc, image, globals, pool, starts, events)
}

// A trace with these events in today's form.
fn rewritten(alloc: Global, trace: &Trace, events: Vec<Noted>) -> Result<Trace, AllocError>
    ensures { IfOk result (λ new. new ≡ record trace.now { form = Second (limit_of trace.now.form); events = events.items }) }
{
    let pool = copy_pool(alloc, trace.pool())?;
    let starts = copy_starts(alloc, trace.starts())?;
    Ok(Trace::new(Form::Second(trace.limit()), pool, starts, events))
}

// Copies the devices of a trace.
fn copy_pool(alloc: Global, pool: &[(Text, u32)]) -> Result<Vec<(Text, u32)>, AllocError>
    ensures { IfOk result (λ copies. copies.items ≡ pool.now) }
{
    let mut copies = Vec::with_capacity(alloc, pool.len())?;
    for device in pool {
        copies.push((device.0.try_clone()?, device.1))?;
    }
    Ok(copies)
}

// Copies the starts of a trace.
fn copy_starts(alloc: Global, starts: &[Entry]) -> Result<Vec<Entry>, AllocError>
    ensures { IfOk result (λ copies. copies.items ≡ starts.now) }
{
    let mut copies = Vec::with_capacity(alloc, starts.len())?;
    for start in starts {
        copies.push(start.try_clone()?)?;
    }
    Ok(copies)
}

// Copies events.
fn copy_events(alloc: Global, events: &[Noted]) -> Result<Vec<Noted>, AllocError>
    ensures { IfOk result (λ copies. copies.items ≡ events.now) }
{
    let mut copies = Vec::with_capacity(alloc, events.len())?;
    for event in events {
        copies.push(copy_event(event)?)?;
    }
    Ok(copies)
}

// Copies an event.
fn copy_event(event: &Noted) -> Result<Noted, AllocError>
    ensures { IfOk result (λ copy. copy ≡ event.now) }
{
    let spot = copy_spot(&event.spot)?;
    let ask = event.ask.try_clone()?;
    let reply = event.reply.try_clone()?;
    Ok(Noted {
        job: event.job,
        spot,
        ask,
        reply,
    })
}

// Copies a place.
fn copy_spot(spot: &Option<Spot>) -> Result<Option<Spot>, AllocError>
    ensures { IfOk result (λ copy. copy ≡ spot.now) }
{
    match spot {
        None => Ok(None),
        Some(spot) => Ok(Some(Spot {
            routine: spot.routine.try_clone()?,
            line: spot.line,
        })),
    }
}
