// Traces that are replayed.

ghost use Rattle.std.specs.Prelude.{◌≡◌, ◌≤◌, IfOk, length, true};
ghost use Rattle.std.specs.String.{string_bytes};
ghost use Rattle.mj_globs.specs.Within.{is_content_within};
ghost use Rattle.mj_sys.specs.Shared.{are_global};
ghost use Rattle.mj_trace.specs.Lines.{IsTrace};
ghost use Rattle.mj_trace.specs.Trace.{limit_of};
ghost use Rattle.mj_recall.specs.Printed.{verdict_text};
ghost use Rattle.mj_recall.specs.Statuses.{verdict_status};

use crate::causes::tell_difference;
use mj_begin::{file_bytes, listed, loaded};
use mj_command_line::Replay;
use mj_drafts::{DIFFERS, ProgramError, print};
use mj_globs::Globals;
use mj_load::Image;
use mj_replay::replay_trace;
use mj_replica::Verdict;
use mj_trace::{Form, Trace, TraceError, read_trace};
use std::alloc::{AllocError, Global};
use std::io::Write;
use std::mem::forget;
use std::rt::Files;

/// Replays a trace, and says whether it is that of a run.
pub fn replay<'a, R: Files + AllocGlobal, O: Write, E: Write>(
    rt: &R,
    order: &Replay<'a>,
    out: &mut O,
    err: &mut E,
) -> Result<u8, ProgramError<'a>>
    ensures { IfOk result (λ status. status ≤ 1) }
{
    let trace = recorded(rt, order.trace, order.events)?;
    let done = replay_over(rt, order, &trace, out, err);
    forget(trace);
    done
}

// Replays a trace over the routines and then the globals that are read for it, and says whether it is that of a run.
fn replay_over<'a, R: Files + AllocGlobal, O: Write, E: Write>(
    rt: &R,
    order: &Replay<'a>,
    trace: &Trace,
    out: &mut O,
    err: &mut E,
) -> Result<u8, ProgramError<'a>>
    requires written { IsTrace trace.now }
    requires few { length trace.now.events ≤ order.now.events }
    ensures { IfOk result (λ status. status ≤ 1) }
{
    let verdict = verdict(rt, order, trace)?;
    let (told, status) = verdict_text(rt.alloc(), trace, verdict)?;
    print(told.as_bytes(), out)?;
    if let Verdict::Differs(at) = verdict {
        tell_difference(rt, order, trace, at, err);
    }
    Ok(status)
}

/// Reads the trace in a file, where it may have so many events.
pub fn recorded<'a, R: Files + AllocGlobal>(
    rt: &R,
    file: &'a str,
    events: u32,
) -> Result<Trace, ProgramError<'a>>
    ensures is { IfOk result IsTrace }
    ensures few { IfOk result (λ trace. length trace.events ≤ events) }
{
    let bytes = file_bytes(rt, file)?;
    match read_trace(rt.alloc(), &bytes, events) {
        Ok(trace) => Ok(trace),
        Err(TraceError::Memory) => Err(ProgramError::Memory),
        Err(refusal) => Err(ProgramError::Trace(refusal)),
    }
}

// Replays it, where texts have its limit.
fn verdict<'a, R: Files + AllocGlobal>(
    rt: &R,
    order: &Replay<'a>,
    trace: &Trace,
) -> Result<Verdict, ProgramError<'a>>
    requires { IsTrace trace.now }
{
    let limit = trace.limit();
    let image = loaded(rt, &order.files, limit, order.events)?;
    let verdict = match listed(rt, order.globals, limit) {
        Ok(globals) => replay_verdict(rt.alloc(), &image, globals, trace),
        Err(stop) => Err(stop),
    };
    forget(image);
    verdict
}

// Replays it over these routines and globals.
fn replay_verdict<'a>(
    alloc: Global,
    image: &Image,
    globals: Globals,
    trace: &Trace,
) -> Result<Verdict, ProgramError<'a>>
    requires global { are_global globals.content ≡ true }
    requires written { IsTrace trace.now }
    requires limit { image.now.bounds.limit ≡ limit_of trace.now.form }
    requires within { is_content_within image.now.bounds.limit globals.content ≡ true }
{
    Ok(replay_trace(alloc, image, globals, trace)?)
}

/// What is printed of a verdict, and the exit status. Lines count from 1: before the events stand those that tell the form, and one for each device
/// and each start.
pub fn verdict_text(
    alloc: Global,
    trace: &Trace,
    verdict: Verdict,
) -> Result<(String, u8), AllocError>
    ensures text { IfOk result (λ told. string_bytes told.0 ≡ verdict_text trace.now verdict) }
    ensures which { IfOk result (λ told. told.1 ≡ verdict_status verdict) }
    ensures bound { IfOk result (λ told. told.1 ≤ 1) }
{
    match verdict {
        Verdict::Same => Ok((format!(in alloc; "same\n")?, 0)),
        Verdict::Differs(at) => {
            let first = match trace.form() {
                Form::First => 2,
                Form::Second(_) => 3,
            };
            let before = trace.pool().len().saturating_add(trace.starts().len());
            let line = before.saturating_add(at).saturating_add(first);
            Ok((format!(in alloc; "differs at line {line}\n")?, DIFFERS))
        }
    }
}
