// Tables of rows, and one walk for all of them. A row is a line: a text, ` => `, and what is wanted. A table is one text, since a list of as many pairs
// takes the prover far longer. One function has a value, and those that may fail borrow it: all that a function has is dropped anew at each of
// its ends, and each drop is proved.

use crate::traces::trace_told;
use mj_rou::read;
use std::alloc::{AllocError, Global};
use std::test::Fail;

/// How the text of a row is read. `~` in it stands for the end of a line.
#[derive(Clone, Copy)]
pub enum Reading {
    /// as a file's text: `ok`, or the refusal
    File,
    /// the same, where `<X*N>` stands for N times X
    Repeated,
    /// as a file's text, of which the level of the first line is told, and how many formals it has
    Head,
    /// as a trace: `same`, or the refusal
    Trace,
    /// the same, behind a device and a start of the older form
    Events,
    /// the same, behind those of today's form
    Placed,
    /// as a trace of so many events at most, behind a device and a start of the older form
    Bounded(u32),
}

/// Fails with the rows of a table whose texts aren't read as they want, each with what it gives.
pub fn judge(rt: &HostRuntime, reading: Reading, rows: &str) -> Result<(), Fail> {
    let wrong = wrong_rows(rt.alloc(), reading, rows)?;
    if wrong.is_empty() {
        Ok(())
    } else {
        Err(Fail::new(wrong))
    }
}

fn wrong_rows(alloc: Global, reading: Reading, rows: &str) -> Result<String, AllocError> {
    let mut wrong = String::new(alloc);
    for row in rows.lines() {
        put_wrong(alloc, reading, row, &mut wrong)?;
    }
    Ok(wrong)
}

fn put_wrong(
    alloc: Global,
    reading: Reading,
    row: &str,
    wrong: &mut String,
) -> Result<(), AllocError> {
    let (text, wanted) = row.split_once(" => ").unwrap_or((row, "no row"));
    let given = answer_text(alloc, reading, text)?;
    let put = put_other(row, wanted, given.as_str(), wrong);
    drop(given);
    put
}

// Puts a row with what it gives to the end, where it wants another thing.
fn put_other(row: &str, wanted: &str, given: &str, wrong: &mut String) -> Result<(), AllocError> {
    if given == wanted {
        return Ok(());
    }
    wrong.push_str(row)?;
    wrong.push_str(" (")?;
    wrong.push_str(given)?;
    wrong.push_str(") ")
}

// What reading gives.
fn answer_text(alloc: Global, reading: Reading, text: &str) -> Result<String, AllocError> {
    let mut bytes = Vec::new(alloc);
    let given = match put_text(reading, text, &mut bytes) {
        Ok(()) => given_of(alloc, reading, &bytes),
        Err(error) => Err(error),
    };
    drop(bytes);
    given
}

fn put_text(reading: Reading, text: &str, bytes: &mut Vec<u8>) -> Result<(), AllocError> {
    match reading {
        Reading::Repeated => put_repeated(text, bytes),
        Reading::Events | Reading::Bounded(_) => {
            bytes.extend_from_slice(b"mj-trace 1\npool \"0\" 2\nstart ^R\n")?;
            put_lines(text, bytes)
        }
        Reading::Placed => {
            bytes.extend_from_slice(b"mj-trace 2\nlimit 32767\npool \"0\" 2\nstart ^R\n")?;
            put_lines(text, bytes)
        }
        Reading::File | Reading::Head | Reading::Trace => put_lines(text, bytes),
    }
}

fn given_of(alloc: Global, reading: Reading, bytes: &[u8]) -> Result<String, AllocError> {
    match reading {
        Reading::File | Reading::Repeated => outcome(alloc, bytes),
        Reading::Head => head(alloc, bytes),
        Reading::Trace | Reading::Events | Reading::Placed => trace_told(alloc, bytes, 1_000_000),
        Reading::Bounded(events) => trace_told(alloc, bytes, events),
    }
}

// Puts a text to the end, with a line's end for each `~`.
fn put_lines(text: &str, bytes: &mut Vec<u8>) -> Result<(), AllocError> {
    for byte in text.bytes() {
        bytes.push(if byte == b'~' { b'\n' } else { byte })?;
    }
    Ok(())
}

// Puts a text to the end, with N times X for `<X*N>`.
fn put_repeated(text: &str, bytes: &mut Vec<u8>) -> Result<(), AllocError> {
    let (front, rest) = text.split_once("<").unwrap_or((text, ""));
    let (middle, rest) = rest.split_once("*").unwrap_or((rest, ""));
    let (times, back) = rest.split_once(">").unwrap_or((rest, ""));
    let times: usize = times.parse().unwrap_or(0);
    put_lines(front, bytes)?;
    for _ in 0..times {
        put_lines(middle, bytes)?;
    }
    put_lines(back, bytes)
}

// `ok`, or the refusal's text.
fn outcome(alloc: Global, bytes: &[u8]) -> Result<String, AllocError> {
    match read(alloc, b"R", bytes) {
        Ok(routine) => {
            drop(routine);
            String::from_str(alloc, "ok")
        }
        Err(refusal) => {
            let text = format!(in alloc; "{refusal}");
            drop(refusal);
            text
        }
    }
}

// The level of the first line, and how many formals it has.
fn head(alloc: Global, bytes: &[u8]) -> Result<String, AllocError> {
    match read(alloc, b"R", bytes) {
        Ok(routine) => {
            let (level, formals) = match routine.lines.first() {
                None => (0, 0),
                Some(line) => (line.level, line.formals.len()),
            };
            drop(routine);
            format!(in alloc; "{level} {formals}")
        }
        Err(refusal) => {
            drop(refusal);
            String::from_str(alloc, "refused")
        }
    }
}
