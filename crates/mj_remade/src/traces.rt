// A trace that is opened: its run is made again.
//
// The devices are in memory, and give the lines that the trace says were read. The jobs make a step for each of its events.

ghost use Rattle.std.specs.Prelude.{◌≡◌, ◌<◌, length, [], true, IfOk, OnOk, IfSome};
ghost use Rattle.mj_load.specs.Image.{program_of};
ghost use Rattle.mj_sys.specs.Opening.{are_bare};
ghost use Rattle.mj_replica.specs.Replicas.{AreWhole};
ghost use Rattle.mj_remade.specs.Records.{Compares};

use crate::records::{first_apart, is_as_noted};
use mj_ask::{Ask, DeviceAsk, Noted, Reply, SharedAsk, Start};
use mj_begin::{Beginning, file_bytes, listed, loaded};
use mj_command_line::{Debug, Run};
use mj_core::Seen;
use mj_debug::{Debugger, WalkRefusal};
use mj_dev::{Device, Memory, Pool};
use mj_drafts::ProgramError;
use mj_guide::Notes;
use mj_jobs::ROWS_LIMIT;
use mj_sessions::Sessions;
use mj_steps::{Refusal, Step, Way};
use mj_sys::Opening;
use mj_text::{Digits, Limit, Text};
use mj_trace::{Form, Trace, TraceError, read_trace};
use std::alloc::{AllocError, Global};
use std::rt::Files;

/// The trace in a file. What else says how a run begins, or where what it leaves goes, has no place beside it.
pub fn opened<'a, R: Files + AllocGlobal>(
    rt: &R,
    order: &Debug<'a>,
    file: &'a str,
) -> Result<Trace, ProgramError<'a>> {
    let run = &order.run;
    if let Some(word) = run.starts.first() {
        return Err(ProgramError::Value(*word));
    }
    if let Some(word) = run.devices.first() {
        return Err(ProgramError::Value(*word));
    }
    if let Some(word) = run.save {
        return Err(ProgramError::Value(word));
    }
    if let Some(word) = run.trace {
        return Err(ProgramError::Value(word));
    }
    let bytes = file_bytes(rt, file)?;
    match read_trace(rt.alloc(), &bytes, run.events) {
        Ok(trace) => Ok(trace),
        Err(TraceError::Memory) => Err(ProgramError::Memory),
        Err(refusal) => Err(ProgramError::Trace(refusal)),
    }
}

/// What the run of a trace began with, over these routines and globals.
pub fn beginning_of<'a, R: Files + AllocGlobal>(
    rt: &R,
    order: &Run<'a>,
    trace: &Trace,
) -> Result<Beginning<Memory>, ProgramError<'a>>
    ensures whole { IfOk result (λ b. AreWhole b.pool) }
{
    let image = loaded(rt, &order.files, Limit::V2, order.events)?;
    let globals = match listed(rt, order.globals, Limit::V2) {
        Ok(globals) => globals,
        Err(stop) => {
            drop(image);
            return Err(stop);
        }
    };
    let (pool, starts) = match devices_and_starts(rt.alloc(), trace) {
        Ok(both) => both,
        Err(_) => {
            drop(image);
            drop(globals);
            return Err(ProgramError::Memory);
        }
    };
    // What was read of a trace has them; it is looked at once more, so that it is known.
    if starts.is_empty() || starts.len() > ROWS_LIMIT || !pool.fits(starts.len() as u32) {
        drop(image);
        drop(globals);
        drop(pool);
        drop(starts);
        return Err(ProgramError::Memory);
    }
    Ok(Beginning {
        steps: None,
        image,
        globals,
        pool,
        starts,
    })
}

// The devices and the starts of a trace.
#[tactic(auto, using(crate::proofs::Beginnings::bare_of))]
fn devices_and_starts(
    alloc: Global,
    trace: &Trace,
) -> Result<(Pool<Memory>, Vec<Start>), AllocError>
    ensures whole { IfOk result (λ x. AreWhole x.0) }
    ensures bare { IfOk result (λ x. are_bare x.1.items ≡ true) }
{
    let (blank, starts) = mj_replay::opened(alloc, trace)?;
    drop(blank);
    match pool_of(alloc, trace) {
        Ok(pool) => Ok((pool, starts)),
        Err(error) => {
            drop(starts);
            Err(error)
        }
    }
}

// A session that was taken: the name of its device, its job, and the bytes that were read in it.
#[derive(Drop)]
struct Taken {
    name: Text,
    job: u32,
    input: Vec<u8>,
}

// The devices of a trace. Those of a name give, one after the other, what was read in the sessions of that name, in the order in which they were taken.
fn pool_of(alloc: Global, trace: &Trace) -> Result<Pool<Memory>, AllocError>
    ensures { IfOk result AreWhole }
{
    let taken = taken_in(alloc, trace.events())?;
    let mut pool = Pool::new(alloc);
    'names: for (name, count) in trace.pool() {
        add(alloc, &mut pool, name, *count, &taken)?;
    }
    Ok(pool)
}

// Adds so many devices of a name.
fn add(
    alloc: Global,
    pool: &mut Pool<Memory>,
    name: &Text,
    count: u32,
    taken: &[Taken],
) -> Result<(), AllocError>
    requires { AreWhole pool.old }
    ensures { OnOk result (AreWhole pool.new) }
{
    let mut rest = taken;
    'devices: for _ in 0..count {
        let mut input = Vec::new(alloc);
        if let Some((session, behind)) = next_of(rest, name) {
            input.extend_from_slice(&session.input)?;
            rest = behind;
        }
        add_one(pool, name, Memory::new(alloc, input))?;
    }
    Ok(())
}

// The first session of a name, and those behind it.
fn next_of<'a>(taken: &'a [Taken], name: &Text) -> Option<(&'a Taken, &'a [Taken])> {
    let mut rest = taken;
    'sessions: while let [session, behind @ ..] = rest {
        if session.name == *name {
            return Some((session, behind));
        }
        rest = behind;
    }
    None
}

// Adds a device.
#[tactic(auto, using(crate::proofs::Beginnings::one_whole))]
fn add_one(pool: &mut Pool<Memory>, name: &Text, device: Memory) -> Result<(), AllocError>
    requires whole { AreWhole pool.old }
    requires fresh { (device.failures ≡ 0) × (device.taken ≡ []) × (device.given ≡ []) }
    ensures { OnOk result (AreWhole pool.new) }
{
    match pool.add(name, device) {
        Ok(()) => Ok(()),
        Err(back) => {
            drop(back);
            Err(AllocError)
        }
    }
}

// The sessions that were taken by these events, with what was read in each: of the principal device one by each job, in order of the jobs.
fn taken_in(alloc: Global, events: &[Noted]) -> Result<Vec<Taken>, AllocError> {
    let principal = Text::from_number(alloc, 0);
    let mut taken = Vec::new(alloc);
    for job in 1..jobs_in(events).min(ROWS_LIMIT as u32) + 1 {
        take(alloc, &mut taken, job, &principal)?;
    }
    for event in events {
        match &event.ask {
            Ask::Shared(SharedAsk::Open(name, _)) => {
                if let Reply::Got = &event.reply {
                    take(alloc, &mut taken, event.job, name)?;
                }
            }
            Ask::Device(name, DeviceAsk::Line(_) | DeviceAsk::Byte(_)) => {
                read(&mut taken, event.job, name, &event.reply)?;
            }
            _ => (),
        }
    }
    Ok(taken)
}

// The number of the last job that has an event.
fn jobs_in(events: &[Noted]) -> u32 {
    let mut last = 0;
    for event in events {
        last = last.max(event.job);
    }
    last
}

// A job takes a session of a device.
fn take(alloc: Global, taken: &mut Vec<Taken>, job: u32, name: &Text) -> Result<(), AllocError> {
    taken.reserve(1)?;
    let name = name.try_clone()?;
    taken.push_reserved(Taken {
        name,
        job,
        input: Vec::new(alloc),
    });
    Ok(())
}

// Something was read in the last session of this name that a job took.
fn read(taken: &mut Vec<Taken>, job: u32, name: &Text, reply: &Reply) -> Result<(), AllocError> {
    let Some(at) = last_of(taken, job, name) else {
        return Ok(());
    };
    let input = &mut taken[at].input;
    match reply {
        Reply::Line(text) => {
            input.extend_from_slice(text.bytes(&mut Digits::new()))?;
            input.push(b'\n')?;
        }
        Reply::Byte(code) => input.push(*code)?,
        _ => (),
    }
    Ok(())
}

// Where the last session of this name is that a job took.
fn last_of(taken: &[Taken], job: u32, name: &Text) -> Option<usize>
    ensures { IfSome result (λ at. at < length taken.now) }
{
    for before in 0..taken.len() {
        let at = taken.len() - 1 - before;
        if taken[at].job == job && taken[at].name == *name {
            return Some(at);
        }
    }
    None
}

// How often a job is stepped at most until it asks: as often as the events of a trace are followed (`mj_replica`).
const RUNS: usize = 1_000_000;

/// Makes a step for each event of a trace, and notes it. The first event that isn't made, or that comes from another place than the trace says, ends it. Where
/// the record isn't that of the trace then, from 0: none, where it is.
pub fn follow<D: Device, O: Opening>(
    debugger: &mut Debugger<D, Sessions<D>, O>,
    notes: &mut Notes,
    trace: &Trace,
) -> Result<Option<usize>, AllocError>
    ensures { IfOk result
        (λ apart. Compares trace.now.form (program_of debugger.new.core.image) O.opening trace.now.events debugger.new.core.history apart) }
{
    make_events(debugger, notes, trace.form(), trace.events())?;
    let core = debugger.core();
    let form = trace.form();
    let events = trace.events();
    let apart = first_apart(core, form, events);
    Ok(apart)
}

// Makes a step for each event, up to the first that comes out otherwise.
fn make_events<D: Device, O: Opening>(
    debugger: &mut Debugger<D, Sessions<D>, O>,
    notes: &mut Notes,
    form: Form,
    events: &[Noted],
) -> Result<(), AllocError> {
    for at in 0..events.len() {
        let event = &events[at];
        let step = step_of(event);
        if !make(debugger, notes, step)? || !is_as_noted(debugger.core(), form, at, event) {
            break;
        }
    }
    Ok(())
}

// The step that makes an event: a late one, where a job had to be late to be told what it was told.
fn step_of(event: &Noted) -> Step {
    let way = match &event.reply {
        Reply::Late if event.ask.timeout().is_some() => Way::Late,
        _ => Way::Go,
    };
    Step {
        job: event.job,
        way,
    }
}

// Makes a step up to its event, and says whether there is one.
fn make<D: Device, O: Opening>(
    debugger: &mut Debugger<D, Sessions<D>, O>,
    notes: &mut Notes,
    step: Step,
) -> Result<bool, AllocError> {
    for _ in 0..RUNS {
        notes.steps.reserve(1)?;
        match debugger.step(step) {
            Ok(Seen::Event(_)) => {
                let _ = notes.steps.push(step);
                return Ok(true);
            }
            Ok(Seen::Ran) => {
                let _ = notes.steps.push(step);
            }
            Err(WalkRefusal::Step(Refusal::Memory)) => return Err(AllocError),
            _ => return Ok(false),
        }
    }
    Ok(false)
}

/// The number of the line of an event in its trace: the lines that tell its form come first, as many as its version, then one for each device and each start.
pub fn line_of_event(trace: &Trace, at: usize) -> usize {
    trace
        .pool()
        .len()
        .saturating_add(trace.starts().len())
        .saturating_add(trace.version() as usize)
        .saturating_add(at)
        .saturating_add(1)
}
