// Traces are read.

ghost use Rattle.std.specs.Prelude.{◌≡◌, ◌+◌, ◌<◌, ◌≤◌, ◌^◌, ◌⊎◌, length, IfOk, IfErr, OnOk, Ok, Err};
ghost use Rattle.mj_gfile.specs.Listing.{lines_of};
ghost use Rattle.mj_trace.specs.declared.refusal.TraceError.TheVariants as error;
ghost use Rattle.mj_trace.specs.Lines.{no_lines, unfinished, lined, lines_from, limited, reading_of, IsTrace};
ghost use Rattle.mj_trace.specs.Trace.{Traced, trace_text};
ghost use Rattle.mj_trace.specs.Sized.{IsSized};
ghost use Rattle.mj_trace.specs.Refused.{IsTraceRefused};

use crate::form::{FIRST, Form, SECOND, limit_line};
use crate::piece::read_piece;
use crate::refusal::TraceError;
use crate::trace::Trace;
use mj_gfile::split_line;
use mj_text::Limit;
use std::alloc::Global;

/// Reads the trace that some bytes are, where there may be so many events. Such a trace is refused for want of memory alone, and anything else by the first
/// line that is none: one more than there may be before one that isn't spelled so. The line where the first start should stand is refused where there is none.
/// Up to the refused line the bytes are a trace as far as it goes.
pub fn read_trace(alloc: Global, bytes: &[u8], events: u32) -> Result<Trace, TraceError>
    ensures ok { IfOk result (λ trace. reading_of events bytes.now ≡ Ok trace) }
    ensures err { IfErr result (λ e. (e ≡ error.Memory) ⊎ (reading_of events bytes.now ≡ Err e)) }
    ensures refused { IfErr result (λ e. IsTraceRefused events bytes.now e) }
    ensures spelled { IfOk result (λ trace. (bytes.now ≡ trace_text trace) × IsTrace trace) }
    ensures few { IfOk result (λ trace. length trace.events ≤ events) }
    ensures same { (t : Traced) → bytes.now ≡ trace_text t → IsTrace t → IsSized t → length t.events ≤ events → IfOk result (λ trace. trace ≡ t) }
    ensures all { (t : Traced) → bytes.now ≡ trace_text t → IsTrace t → IsSized t → length t.events ≤ events → IfErr result (λ e. e ≡ error.Memory) }
{
    read(alloc, bytes, events)
}

// Reads the header, and then the lines behind it.
fn read(alloc: Global, bytes: &[u8], events: u32) -> Result<Trace, TraceError>
    ensures ok { IfOk result (λ trace. reading_of events bytes.now ≡ Ok trace) }
    ensures err { IfErr result (λ e. (e ≡ error.Memory) ⊎ (reading_of events bytes.now ≡ Err e)) }
{
    let Some((first, rest)) = split_line(bytes) else {
        return Err(TraceError::Header);
    };
    if first == SECOND {
        read_limited(alloc, rest, events)
    } else if first == FIRST {
        read_lines(alloc, Form::First, 2, rest, events)
    } else {
        Err(TraceError::Header)
    }
}

// Reads the limit of texts, and then the lines behind it.
fn read_limited(alloc: Global, bytes: &[u8], events: u32) -> Result<Trace, TraceError>
    requires { length bytes.now + 2 < 2 ^ 64 }
    ensures ok { IfOk result (λ trace. limited events (lines_of bytes.now) ≡ Ok trace) }
    ensures err { IfErr result (λ e. (e ≡ error.Memory) ⊎ (limited events (lines_of bytes.now) ≡ Err e)) }
{
    let Some((first, rest)) = split_line(bytes) else {
        return Err(TraceError::Line(2));
    };
    if first == limit_line(Limit::V2) {
        read_lines(alloc, Form::Second(Limit::V2), 3, rest, events)
    } else if first == limit_line(Limit::V1) {
        read_lines(alloc, Form::Second(Limit::V1), 3, rest, events)
    } else {
        Err(TraceError::Line(2))
    }
}

// Reads the trace that the lines from this number on are, behind those that tell its form. What owns it does nothing else that can fail, since each way out of
// such a function drops it.
fn read_lines(
    alloc: Global,
    form: Form,
    number: usize,
    bytes: &[u8],
    events: u32,
) -> Result<Trace, TraceError>
    requires { length bytes.now + number < 2 ^ 64 }
    ensures ok { IfOk result (λ trace. lines_from events (no_lines form) number (lines_of bytes.now) ≡ Ok trace) }
    ensures err { IfErr result (λ e. (e ≡ error.Memory) ⊎ (lines_from events (no_lines form) number (lines_of bytes.now) ≡ Err e)) }
{
    let mut trace = Trace::empty(alloc, form);
    match add_lines(alloc, &mut trace, number, bytes, events) {
        Ok(()) => Ok(trace),
        Err(error) => {
            drop(trace);
            Err(error)
        }
    }
}

// Puts these lines into a trace without a line.
fn add_lines(
    alloc: Global,
    trace: &mut Trace,
    first: usize,
    bytes: &[u8],
    events: u32,
) -> Result<(), TraceError>
    requires few { length bytes.now + first < 2 ^ 64 }
    ensures ok { OnOk result (lines_from events trace.old first (lines_of bytes.now) ≡ Ok trace.new) }
    ensures err { IfErr result (λ e. (e ≡ error.Memory) ⊎ (lines_from events trace.old first (lines_of bytes.now) ≡ Err e)) }
{
    let mut number = first;
    let mut rest = bytes;
    while let Some((line, behind)) = split_line(rest) {
        add_line(alloc, trace, number, line, events)?;
        number += 1;
        rest = behind;
    }
    if !rest.is_empty() {
        Err(unfinished(trace, number, events))
    } else if trace.starts().is_empty() {
        Err(TraceError::Line(number))
    } else {
        Ok(())
    }
}

// Tells why the line of this number is refused that no byte 10 ends.
fn unfinished(trace: &Trace, number: usize, events: u32) -> TraceError
    ensures { result ≡ unfinished events trace.now number }
{
    if trace.is_full(events) {
        TraceError::Long(number)
    } else {
        TraceError::Line(number)
    }
}

// Puts the line of this number behind the others.
fn add_line(
    alloc: Global,
    trace: &mut Trace,
    number: usize,
    line: &[u8],
    events: u32,
) -> Result<(), TraceError>
    ensures ok { OnOk result (lined events trace.old number line.now ≡ Ok trace.new) }
    ensures err { IfErr result (λ e. (e ≡ error.Memory) ⊎ (lined events trace.old number line.now ≡ Err e)) }
{
    if trace.is_full(events) {
        return Err(TraceError::Long(number));
    }
    let Some(piece) = read_piece(alloc, trace.form(), line)? else {
        return Err(TraceError::Line(number));
    };
    if trace.may_follow(&piece, events) {
        trace.add(piece)?;
        Ok(())
    } else {
        drop(piece);
        Err(TraceError::Line(number))
    }
}
