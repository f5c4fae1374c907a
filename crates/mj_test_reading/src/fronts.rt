// Fronts of a text, and texts with one byte replaced: each is read, and where there is a writer written as it is, or refused by its name.

use crate::traces::is_written;
use mj_gfile::{ReadError, read, write};
use mj_rou::LoadError;
use mj_text::Limit;
use mj_trace::{TraceError, read_trace};
use std::alloc::{AllocError, Global};

/// What the bytes are read as.
#[derive(Clone, Copy)]
pub enum Form {
    Routine,
    Listing,
    Trace,
}

/// The length of the first front that is neither read nor refused by a name.
pub fn wrong_front(alloc: Global, form: Form, bytes: &[u8]) -> Result<Option<usize>, AllocError> {
    for length in 0..bytes.len() {
        if !is_judged(alloc, form, &bytes[..length])? {
            return Ok(Some(length));
        }
    }
    Ok(None)
}

/// The first place in this part of as many parts of the text, and the first code there, with which the text is neither. A text is tried in parts, so that no
/// test takes long.
pub fn wrong_code(
    alloc: Global,
    form: Form,
    text: &str,
    part: usize,
    parts: usize,
) -> Result<Option<(usize, u32)>, AllocError> {
    let mut bytes = Vec::from_slice(alloc, text.as_bytes())?;
    let found = replaced(alloc, form, &mut bytes, part, parts);
    drop(bytes);
    found
}

// A part has every place that leaves its number as the rest by the number of parts.
fn replaced(
    alloc: Global,
    form: Form,
    bytes: &mut Vec<u8>,
    part: usize,
    parts: usize,
) -> Result<Option<(usize, u32)>, AllocError> {
    for place in 0..bytes.len() {
        if place.checked_rem(parts) != Some(part) {
            continue;
        }
        let before = bytes[place];
        for code in 0..256u32 {
            bytes[place] = code as u8;
            if !is_judged(alloc, form, bytes)? {
                return Ok(Some((place, code)));
            }
        }
        bytes[place] = before;
    }
    Ok(None)
}

// Whether the bytes are read, and written as they are, or refused as no such text.
fn is_judged(alloc: Global, form: Form, bytes: &[u8]) -> Result<bool, AllocError> {
    match form {
        Form::Routine => Ok(is_judged_routine(alloc, bytes)),
        Form::Listing => is_judged_listing(alloc, bytes),
        Form::Trace => is_judged_trace(alloc, bytes),
    }
}

// A routine isn't written. Its name is none that is refused.
fn is_judged_routine(alloc: Global, bytes: &[u8]) -> bool {
    match mj_rou::read(alloc, b"R", bytes) {
        Ok(routine) => {
            drop(routine);
            true
        }
        Err(LoadError::Memory | LoadError::Name) => false,
        Err(_) => true,
    }
}

fn is_judged_listing(alloc: Global, bytes: &[u8]) -> Result<bool, AllocError> {
    match read(alloc, bytes, Limit::V2) {
        Ok(globals) => {
            let written = write(alloc, &globals);
            drop(globals);
            Ok(is_rewritten(written?.as_slice(), bytes))
        }
        Err(ReadError::Memory) => Ok(false),
        Err(_) => Ok(true),
    }
}

// Whether a listing was written as it was read. One of version 1 is written as one of version 2, which has another first line.
fn is_rewritten(written: &[u8], bytes: &[u8]) -> bool {
    if !bytes.starts_with(b"mj-globals 1\n") {
        return written == bytes;
    }
    written.len() == bytes.len() && written.ends_with(&bytes[13..])
}

fn is_judged_trace(alloc: Global, bytes: &[u8]) -> Result<bool, AllocError> {
    match read_trace(alloc, bytes, 1_000_000) {
        Ok(trace) => {
            let same = is_written(alloc, &trace, bytes);
            drop(trace);
            same
        }
        Err(TraceError::Header | TraceError::Line(_)) => Ok(true),
        Err(_) => Ok(false),
    }
}
