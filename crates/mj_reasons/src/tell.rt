// What is told of a file that is refused.

ghost use Rattle.std.specs.Prelude.{◌≡◌, ◌++◌, ◌-◌, OnOk};
ghost use Rattle.std.specs.Option.{option_copied};
ghost use Rattle.mj_hints.specs.Refusals.{line_at as the_line};
ghost use Rattle.mj_reasons.specs.Reasons.{byte_text, caret_at, caret_lines, file_line, listing_told, mark, reason_lines, said_behind, steps_told};
ghost use Rattle.mj_reasons.specs.Reasons.{there_text, trace_told, whole_lines};

use crate::reason::{
    Reason, listing_header, node_reason, over_limit, plain, steps_reason, trace_header,
    trace_reason,
};
use crate::words::Said;
use itoa::Buffer;
use mj_gfile::ReadError;
use mj_hints::{line_at, put_front, put_source};
use mj_steps::StepsError;
use mj_trace::TraceError;
use std::alloc::AllocError;

/// How many bytes a column is away from the front of what is shown, at most.
const NEAR: usize = 100;

/// Puts why this text of a file isn't a listing of globals to the end of some bytes. Where memory is refused a part of it may stand there.
pub fn put_listing(
    bytes: &mut Vec<u8>,
    file: &str,
    text: &[u8],
    refusal: &ReadError,
) -> Result<(), AllocError>
    ensures { OnOk result (bytes.new.items ≡ bytes.old.items ++ listing_told file.now text.now refusal.now) }
{
    match refusal {
        ReadError::Header => {
            let line = line_of(text, 1);
            put_reason(bytes, file, 1, line, listing_header(line))
        }
        ReadError::Line(number) => {
            let line = line_of(text, *number);
            put_reason(bytes, file, *number, line, node_reason(text, *number, line))
        }
        ReadError::Order(number) => {
            put_reason(
                bytes,
                file,
                *number,
                line_of(text, *number),
                plain(Said::Rises),
            )
        }
        ReadError::Limit(number) => {
            let line = line_of(text, *number);
            put_reason(bytes, file, *number, line, over_limit(line))
        }
        ReadError::Memory => Ok(()),
    }
}

/// Puts why this text of a file isn't a trace to the end of some bytes. Where memory is refused a part of it may stand there.
pub fn put_trace(
    bytes: &mut Vec<u8>,
    file: &str,
    text: &[u8],
    refusal: &TraceError,
) -> Result<(), AllocError>
    ensures { OnOk result (bytes.new.items ≡ bytes.old.items ++ trace_told file.now text.now refusal.now) }
{
    match refusal {
        TraceError::Header => {
            let line = line_of(text, 1);
            put_reason(bytes, file, 1, line, trace_header(line))
        }
        TraceError::Line(number) => {
            let line = line_of(text, *number);
            put_reason(
                bytes,
                file,
                *number,
                line,
                trace_reason(text, *number, line),
            )
        }
        TraceError::Long(number) => {
            put_reason(
                bytes,
                file,
                *number,
                line_of(text, *number),
                plain(Said::Many),
            )
        }
        TraceError::Memory => Ok(()),
    }
}

/// Puts why this text of a file has no steps to the end of some bytes. Where memory is refused a part of it may stand there.
pub fn put_steps(
    bytes: &mut Vec<u8>,
    file: &str,
    text: &[u8],
    refusal: &StepsError,
) -> Result<(), AllocError>
    ensures { OnOk result (bytes.new.items ≡ bytes.old.items ++ steps_told file.now text.now refusal.now) }
{
    match refusal {
        StepsError::Line { line: number } => {
            let line = line_of(text, *number);
            put_reason(bytes, file, *number, line, steps_reason(line))
        }
        StepsError::Memory => Ok(()),
    }
}

// The line of this number, which counts from 1.
fn line_of(text: &[u8], number: usize) -> &[u8]
    ensures { result.now ≡ the_line (number - 1) text.now }
{
    line_at(text, number.saturating_sub(1))
}

// Puts the file and the line, and the reason below.
fn put_reason(
    bytes: &mut Vec<u8>,
    file: &str,
    number: usize,
    line: &[u8],
    reason: Reason,
) -> Result<(), AllocError>
    ensures { OnOk result (bytes.new.items ≡ bytes.old.items ++ (file_line file.now number ++ reason_lines line.now reason)) }
{
    put_file(bytes, file, number)?;
    match reason.at {
        None => put_whole(bytes, line, reason.said),
        Some(at) => put_caret(bytes, line, at, reason.said),
    }
}

// Puts the file and the number of the line.
fn put_file(bytes: &mut Vec<u8>, file: &str, number: usize) -> Result<(), AllocError>
    ensures { OnOk result (bytes.new.items ≡ bytes.old.items ++ file_line file.now number) }
{
    bytes.extend_from_slice(b"    ")?;
    bytes.extend_from_slice(file.as_bytes())?;
    bytes.extend_from_slice(b", line ")?;
    bytes.extend_from_slice(Buffer::new().format(number).as_bytes())?;
    bytes.extend_from_slice(b":\n")?;
    Ok(())
}

// Puts a line of the file, and what is said of it as a whole.
fn put_whole(bytes: &mut Vec<u8>, line: &[u8], said: Said) -> Result<(), AllocError>
    ensures { OnOk result (bytes.new.items ≡ bytes.old.items ++ whole_lines line.now said) }
{
    put_source(bytes, line, 0)?;
    bytes.extend_from_slice(b"    ")?;
    bytes.extend_from_slice(said.words().as_bytes())?;
    bytes.push(b'\n')?;
    Ok(())
}

// Puts a line of the file, and what is said of it where the caret stands.
fn put_caret(bytes: &mut Vec<u8>, line: &[u8], at: usize, said: Said) -> Result<(), AllocError>
    ensures { OnOk result (bytes.new.items ≡ bytes.old.items ++ caret_lines line.now at said) }
{
    put_under(bytes, line, at.saturating_add(1), line.get(at), said)
}

// Puts a line of the file, and what is said of it under this column, where this byte stands.
fn put_under(
    bytes: &mut Vec<u8>,
    line: &[u8],
    column: usize,
    there: Option<&u8>,
    said: Said,
) -> Result<(), AllocError>
    ensures { OnOk result (bytes.new.items ≡ bytes.old.items ++ caret_at line.now column (option_copied there.entry) said) }
{
    put_source(bytes, line, column.saturating_sub(NEAR))?;
    put_mark(bytes, line, column, there)?;
    put_said(bytes, said)
}

// Puts the caret, and what stands there.
fn put_mark(
    bytes: &mut Vec<u8>,
    line: &[u8],
    column: usize,
    there: Option<&u8>,
) -> Result<(), AllocError>
    ensures { OnOk result (bytes.new.items ≡ bytes.old.items ++ mark line.now column (option_copied there.entry)) }
{
    put_front(bytes, line, column)?;
    bytes.extend_from_slice(b"^ ")?;
    put_there(bytes, there)
}

// Puts what is said behind that.
fn put_said(bytes: &mut Vec<u8>, said: Said) -> Result<(), AllocError>
    ensures { OnOk result (bytes.new.items ≡ bytes.old.items ++ said_behind said) }
{
    bytes.extend_from_slice(b": ")?;
    bytes.extend_from_slice(said.words().as_bytes())?;
    bytes.push(b'\n')?;
    Ok(())
}

// Puts what stands there: a byte, or its number where it can't be shown.
fn put_there(bytes: &mut Vec<u8>, there: Option<&u8>) -> Result<(), AllocError>
    ensures { OnOk result (bytes.new.items ≡ bytes.old.items ++ there_text (option_copied there.entry)) }
{
    match there {
        None => bytes.extend_from_slice(b"the line's end"),
        Some(byte) => put_byte(bytes, *byte),
    }
}

// Puts a byte, or its number where it can't be shown.
fn put_byte(bytes: &mut Vec<u8>, byte: u8) -> Result<(), AllocError>
    ensures { OnOk result (bytes.new.items ≡ bytes.old.items ++ byte_text byte) }
{
    if byte == b' ' {
        return bytes.extend_from_slice(b"a blank");
    }
    if byte > 32 && byte < 127 {
        bytes.push(byte)?;
        return Ok(());
    }
    bytes.extend_from_slice(b"byte ")?;
    bytes.extend_from_slice(Buffer::new().format(byte).as_bytes())
}
