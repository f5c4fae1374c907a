// What helps where a run went wrong: behind its lines, where hints are wanted.

ghost use Rattle.std.specs.Prelude.{◌≡◌, ◌++◌, IfOk, OnOk};
ghost use Rattle.std.specs.String.{string_bytes};
ghost use Rattle.mj_finish.specs.Printed.{early_line, events_line, stuck_line, turns_line, why_line};

use crate::wait::{put_last, put_numbered};
use mj_ask::{Ask, SharedAsk};
use mj_begin::put_devices;
use mj_command_line::Run;
use mj_core::{Core, Refusal};
use mj_dev::Device;
use mj_jobs::ROWS_LIMIT;
use mj_jobvm::Places;
use mj_report::Events;
use mj_sessions::Sessions;
use mj_steps::Ending;
use mj_sys::Opening;
use mj_text::{Fault, Text};
use std::alloc::{AllocError, Global};
use std::io::Write;
use std::rt::Files;

// A flag for each job that there may be, by its number, which counts from 1.
const FLAGS: usize = ROWS_LIMIT + 1;

/// Tells more of jobs that were stepped: which limit was reached, and where jobs are that haven't ended; what to do where all wait; why a step can't be made;
/// and that a file of steps ended before the jobs had. Where memory is refused, or this can't be written, nothing more is told.
pub fn tell_end<R: Files + AllocGlobal, E: Write, D: Device, G: Opening>(
    rt: &R,
    core: &Core<D, Sessions<D>, G>,
    ending: Ending,
    order: &Run<'_>,
    err: &mut E,
) {
    let mut bytes = Vec::new(rt.alloc());
    if put_end(&mut bytes, core, ending, order).is_ok() {
        let _ = err.write_all(&bytes);
    }
    drop(bytes);
}

/// Tells so of jobs that workers ran up to as many events as there may be. These are the places of each job's asks.
pub fn tell_full<R: Files + AllocGlobal, E: Write, H: Events>(
    rt: &R,
    told: &H,
    places: &[Option<&Places>],
    order: &Run<'_>,
    err: &mut E,
) {
    let mut bytes = Vec::new(rt.alloc());
    if put_full(&mut bytes, told, places, order).is_ok() {
        let _ = err.write_all(&bytes);
    }
    drop(bytes);
}

/// Tells what the system says of the files of devices, where hints are wanted and a job ended since a device failed.
pub fn tell_devices<R, E, H>(rt: &R, told: &H, order: &Run<'_>, err: &mut E)
where
    R: Files + AllocGlobal,
    E: Write,
    H: Events,
{
    if !order.hints || !has_failed(told) {
        return;
    }
    let mut bytes = Vec::new(rt.alloc());
    if put_devices(rt, &mut bytes, &order.devices).is_ok() {
        let _ = err.write_all(&bytes);
    }
    drop(bytes);
}

// Puts what is told of the end of jobs that were stepped to the end of some bytes.
fn put_end<D: Device, G: Opening>(
    bytes: &mut Vec<u8>,
    core: &Core<D, Sessions<D>, G>,
    ending: Ending,
    order: &Run<'_>,
) -> Result<(), AllocError> {
    match ending {
        Ending::Stuck if !order.why => put_stuck(bytes),
        Ending::Full => {
            put_turns(bytes)?;
            put_lasts(bytes, core, &core.all_places()?)
        }
        Ending::Refused {
            why: Refusal::Full,
            ..
        } => put_full(bytes, core, &core.all_places()?, order),
        Ending::Refused { why, .. } => put_why(bytes, why),
        Ending::Over if order.steps.is_some() => put_early(bytes, core),
        _ => Ok(()),
    }
}

// Puts what is told of jobs of which there are as many events as there may be to the end of some bytes.
fn put_full<H: Events>(
    bytes: &mut Vec<u8>,
    told: &H,
    places: &[Option<&Places>],
    order: &Run<'_>,
) -> Result<(), AllocError> {
    put_events(bytes, order.events)?;
    put_lasts(bytes, told, places)
}

// Puts that a file of steps ends before the jobs have to the end of some bytes, if it does.
fn put_early<D: Device, G: Opening>(
    bytes: &mut Vec<u8>,
    core: &Core<D, Sessions<D>, G>,
) -> Result<(), AllocError> {
    let jobs = core.jobs();
    let left = jobs.saturating_sub(halts(core));
    if left == 0 {
        return Ok(());
    }
    let line = early_line(*bytes.allocator(), left, jobs)?;
    bytes.extend_from_slice(line.as_bytes())
}

// The line on a file of steps that ends before so many of the jobs have.
fn early_line(alloc: Global, left: usize, jobs: usize) -> Result<String, AllocError>
    ensures { IfOk result (λ line. string_bytes line ≡ early_line left jobs) }
{
    let line = format!(in alloc;
        "    the steps end before the jobs do: of {jobs} jobs {left} haven't ended\n"
    )?;
    Ok(line)
}

// How many jobs have ended.
fn halts<H: Events>(told: &H) -> usize {
    let mut count: usize = 0;
    for at in 0..told.count() {
        if let Some((_, ask, _)) = told.event_at(at)
            && is_halt(ask)
        {
            count = count.saturating_add(1);
        }
    }
    count
}

// Puts why a step can't be made to the end of some bytes.
fn put_why(bytes: &mut Vec<u8>, why: Refusal) -> Result<(), AllocError>
    ensures { OnOk result (bytes.new.items ≡ bytes.old.items ++ why_line why) }
{
    bytes.extend_from_slice(why_line(why))
}

// Why a step can't be made.
fn why_line(why: Refusal) -> &'static [u8]
    ensures { result.now ≡ why_line why }
{
    match why {
        Refusal::NoJob => {
            b"    there is no job of this number: jobs count from 1, in the order in which they start\n"
        }
        Refusal::NotTimed => {
            b"    the step is late, and what the job asks has no timeout that could be over\n"
        }
        Refusal::Ended => {
            b"    the job has ended, as an earlier step of it found: are these the steps of other routines?\n"
        }
        Refusal::Full | Refusal::Memory => b"",
    }
}

// Puts what to do where all jobs wait to the end of some bytes.
fn put_stuck(bytes: &mut Vec<u8>) -> Result<(), AllocError>
    ensures { OnOk result (bytes.new.items ≡ bytes.old.items ++ stuck_line) }
{
    bytes.extend_from_slice(
        b"    `mj step --why` tells what each job waits for, and `mj explain` of a `--trace` since when\n",
    )
}

// Puts that as many steps were made in turn as may be to the end of some bytes.
fn put_turns(bytes: &mut Vec<u8>) -> Result<(), AllocError>
    ensures { OnOk result (bytes.new.items ≡ bytes.old.items ++ turns_line) }
{
    bytes.extend_from_slice(
        b"    1000000 steps were made in turn, as many as there may be; these jobs haven't ended:\n",
    )
}

// Puts that there are as many events as there may be to the end of some bytes.
fn put_events(bytes: &mut Vec<u8>, most: u32) -> Result<(), AllocError>
    ensures { OnOk result (bytes.new.items ≡ bytes.old.items ++ events_line most) }
{
    put_numbered(bytes, b"    there are ", most)?;
    bytes.extend_from_slice(
        b" events, as many as there may be; `--events` allows more; these jobs haven't ended:\n",
    )?;
    Ok(())
}

// Puts where each job asked last that hasn't ended to the end of some bytes.
fn put_lasts<H: Events>(
    bytes: &mut Vec<u8>,
    told: &H,
    places: &[Option<&Places>],
) -> Result<(), AllocError> {
    let ended = ended(told);
    let mut job = 0;
    for own in places {
        if job >= ROWS_LIMIT as u32 {
            break;
        }
        job += 1;
        if !is_set(&ended, job) {
            put_own(bytes, job, own)?;
        }
    }
    Ok(())
}

// Puts where a job asked last to the end of some bytes, if it asked.
fn put_own(bytes: &mut Vec<u8>, job: u32, own: &Option<&Places>) -> Result<(), AllocError> {
    match own {
        None => Ok(()),
        Some(places) => put_last(bytes, job, last_of(*places)),
    }
}

// Where a job asked last.
fn last_of(places: &Places) -> Option<(&Text, u32)> {
    let at = places.len().checked_sub(1)?;
    places.place(at)
}

// Which jobs have ended, by their numbers.
fn ended<H: Events>(told: &H) -> [bool; FLAGS] {
    let mut ended = [false; FLAGS];
    for at in 0..told.count() {
        if let Some((job, ask, _)) = told.event_at(at)
            && is_halt(ask)
        {
            set(&mut ended, job);
        }
    }
    ended
}

// Whether it ends a job.
fn is_halt(ask: &Ask) -> bool {
    matches!(ask, Ask::Shared(SharedAsk::Halt(_)))
}

// Notes it of a job.
fn set(flags: &mut [bool], job: u32) {
    if let Some(flag) = flags.get_mut(job as usize) {
        *flag = true;
    }
}

// Whether it is noted of a job.
fn is_set(flags: &[bool], job: u32) -> bool {
    match flags.get(job as usize) {
        Some(flag) => *flag,
        None => false,
    }
}

// Whether a job ended since a device failed.
fn has_failed<H: Events>(told: &H) -> bool {
    for at in 0..told.count() {
        if let Some((_, ask, _)) = told.event_at(at)
            && is_failed(ask)
        {
            return true;
        }
    }
    false
}

// Whether it ends a job since a device failed.
fn is_failed(ask: &Ask) -> bool {
    matches!(ask, Ask::Shared(SharedAsk::Halt(Some(Fault::Device))))
}
