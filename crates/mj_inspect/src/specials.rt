// Special variables of jobs.

ghost use Rattle.std.specs.Prelude.{◌≡◌, ◌+◌, ◌∷◌, [], take, slice_get, decimal, Some, IfOk, IfSome, IfNone, if◌then◌else◌};
ghost use Rattle.mj_ask.specs.Started.{Started};
ghost use Rattle.mj_core.specs.Runs.{start_in};
ghost use Rattle.mj_dialogue.specs.Lines.{lined};
ghost use Rattle.mj_inspect.specs.Specials.{IsAmong, IsLast, IsNowhere, ShowsAt, ShowsSpecial, jobs_at, special_of};
ghost use Rattle.mj_inspect.specs.Stands.{IsBehind, IsStarted};
ghost use Rattle.mj_inspect.specs.Waits.{numbered, started_at, started_in};

use crate::own::{is_same, own_event};
use crate::special::Special;
use crate::telling::said;
use crate::waiting::{TURNS, follows, goes_on, job_started, started};
use itoa::Buffer;
use mj_ask::Start;
use mj_core::Core;
use mj_debug::Debugger;
use mj_dev::Device;
use mj_jobvm::Job;
use mj_sessions::Sessions;
use mj_sys::Opening;
use std::alloc::{AllocError, Global};

/// Shows a special variable of a job as it stood at the ask of its last event before the place; before that it is as at its start. The first jobs started so.
pub fn special_line<D: Device, O: Opening>(
    alloc: Global,
    debugger: &Debugger<D, Sessions<D>, O>,
    starts: &[Start],
    number: u32,
    special: Special,
) -> Result<Vec<u8>, AllocError>
    ensures { IfOk result
        (λ bytes. ShowsSpecial debugger.now.core.image starts.now debugger.now.core.history debugger.now.place number special bytes.items) }
{
    line_at(
        alloc,
        debugger.core(),
        debugger.place(),
        starts,
        number,
        special,
    )
}

// Shows it at a place.
fn line_at<D: Device, O: Opening>(
    alloc: Global,
    core: &Core<D, Sessions<D>, O>,
    place: usize,
    starts: &[Start],
    number: u32,
    special: Special,
) -> Result<Vec<u8>, AllocError>
    ensures { IfOk result (λ bytes. ShowsSpecial core.now.image starts.now core.now.history place number special bytes.items) }
{
    match start_of(core, place, starts, number) {
        Some(start) => {
            let last = last_event(core, place, number);
            line_of(alloc, core, last, number, start, special)
        }
        None => said(alloc, b"C1"),
    }
}

// How the job of a number started, if it did before a place.
fn start_of<'a, D: Device, O: Opening>(
    core: &'a Core<D, Sessions<D>, O>,
    place: usize,
    starts: &'a [Start],
    number: u32,
) -> Option<&'a Start>
    ensures some { IfSome result (λ start. IsAmong (start_in number start.now) (jobs_at starts.now core.now.history place)) }
    ensures none { IfNone result (IsNowhere number (jobs_at starts.now core.now.history place)) }
{
    match first_start(starts, number) {
        Some(start) => Some(start),
        None => later_start(core, place, number),
    }
}

// How the job of a number started, if it is one of the first.
fn first_start(starts: &[Start], number: u32) -> Option<&Start>
    ensures some { IfSome result (λ start. IsAmong (start_in number start.now) (numbered 1 starts.now)) }
    ensures none { IfNone result (IsNowhere number (numbered 1 starts.now)) }
{
    if number == 0 {
        return None;
    }
    let at = number as usize - 1;
    if at >= starts.len() {
        return None;
    }
    Some(&starts[at])
}

// How the job of a number started, if another job started it before a place.
fn later_start<D: Device, O: Opening>(
    core: &Core<D, Sessions<D>, O>,
    place: usize,
    number: u32,
) -> Option<&Start>
    ensures some { IfSome result (λ start. IsAmong (start_in number start.now) (started_in (take place core.now.history))) }
    ensures none { IfNone result (IsNowhere number (started_in (take place core.now.history))) }
{
    for at in 0..place {
        match start_at(core, at, number) {
            Some(start) => return Some(start),
            None => (),
        }
    }
    None
}

// How the job of a number started, if the event at a place started it.
fn start_at<D: Device, O: Opening>(
    core: &Core<D, Sessions<D>, O>,
    at: usize,
    number: u32,
) -> Option<&Start>
    ensures some { IfSome result (λ start. started_at (slice_get core.now.history at) ≡ start_in number start.now ∷ []) }
    ensures none { IfNone result (IsNowhere number (started_at (slice_get core.now.history at))) }
{
    match job_started(core, at) {
        Some((job, start)) => {
            if is_same(job, number) {
                Some(start)
            } else {
                None
            }
        }
        None => None,
    }
}

// The place of the last event of a job before a place, if it has one.
fn last_event<D: Device, O: Opening>(
    core: &Core<D, Sessions<D>, O>,
    place: usize,
    number: u32,
) -> Option<usize>
    ensures { IsLast number core.now.history place result }
{
    let mut last = None;
    for at in 0..place {
        last = last_at(core, at, number, last);
    }
    last
}

// The last event with one place more.
fn last_at<D: Device, O: Opening>(
    core: &Core<D, Sessions<D>, O>,
    at: usize,
    number: u32,
    last: Option<usize>,
) -> Option<usize>
    requires { IsLast number core.now.history at last }
    ensures { IsLast number core.now.history (at + 1) result }
{
    match own_event(core, at, number) {
        Some(_) => Some(at),
        None => last,
    }
}

// Shows it of a job that started so, at the ask of this event; before its first event it is as at its start.
fn line_of<D: Device, O: Opening>(
    alloc: Global,
    core: &Core<D, Sessions<D>, O>,
    last: Option<usize>,
    number: u32,
    start: &Start,
    special: Special,
) -> Result<Vec<u8>, AllocError>
    ensures { IfOk result (λ bytes. ShowsAt core.now.image core.now.history (start_in number start.now) special last bytes.items) }
{
    match last {
        None => number_line(alloc, 0),
        Some(last) => value_line(alloc, core, last, number, start, special),
    }
}

// Shows it of a job that started so, at the ask that it comes to behind its replies before a place.
fn value_line<D: Device, O: Opening>(
    alloc: Global,
    core: &Core<D, Sessions<D>, O>,
    place: usize,
    number: u32,
    start: &Start,
    special: Special,
) -> Result<Vec<u8>, AllocError>
    ensures { IfOk result (λ bytes. ShowsAt core.now.image core.now.history (start_in number start.now) special (Some place) bytes.items) }
{
    let mut job = started(alloc, core, number, start)?;
    let shown = value_followed(alloc, core, place, number, &mut job, special);
    drop(job);
    shown
}

// Shows it of a job that was told nothing yet.
fn value_followed<D: Device, O: Opening>(
    alloc: Global,
    core: &Core<D, Sessions<D>, O>,
    place: usize,
    number: u32,
    job: &mut Job,
    special: Special,
) -> Result<Vec<u8>, AllocError>
    requires { IsStarted core.now.image number job.old }
    ensures { (start : Started) → IsBehind core.now.image (start_in number start) [] job.old
        → IfOk result (λ bytes. ShowsAt core.now.image core.now.history (start_in number start) special (Some place) bytes.items) }
{
    if !follows(core, place, number, job)? {
        return said(alloc, b"C1");
    }
    let turn = goes_on(core, job, TURNS)?;
    let _ = turn; // for the proof
    number_line(alloc, value_of(job, special))
}

// The value of a special variable where a job stands.
fn value_of(job: &Job, special: Special) -> u8
    ensures { result ≡ special_of special job.now.run.at.state }
{
    match special {
        Special::Level => job.level(),
        Special::Test => bit(job.test()),
    }
}

// 1 or 0.
fn bit(on: bool) -> u8
    ensures { result ≡ (if on then 1 else 0) }
{
    if on { 1 } else { 0 }
}

// The line of a number.
fn number_line(alloc: Global, number: u8) -> Result<Vec<u8>, AllocError>
    ensures { IfOk result (λ bytes. bytes.items ≡ lined (decimal number)) }
{
    let mut bytes = Vec::new(alloc);
    bytes.extend_from_slice(Buffer::new().format(number).as_bytes())?;
    bytes.push(b'\n')?;
    Ok(bytes)
}
