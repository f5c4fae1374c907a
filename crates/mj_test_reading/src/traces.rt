// What is said of a trace's bytes.

use mj_trace::{Trace, read_trace, write_trace};
use std::alloc::{AllocError, Global};

/// `same` where the bytes are a trace of so many events at most, which is written as they are, else how they are refused.
pub fn trace_told(alloc: Global, bytes: &[u8], events: u32) -> Result<String, AllocError> {
    match read_trace(alloc, bytes, events) {
        Ok(trace) => {
            let said = compared(alloc, &trace, bytes);
            drop(trace);
            said
        }
        Err(error) => format!(in alloc; "{error}"),
    }
}

fn compared(alloc: Global, trace: &Trace, bytes: &[u8]) -> Result<String, AllocError> {
    if is_written(alloc, trace, bytes)? {
        String::from_str(alloc, "same")
    } else {
        String::from_str(alloc, "other bytes")
    }
}

/// Whether the trace is written as these bytes.
pub fn is_written(alloc: Global, trace: &Trace, bytes: &[u8]) -> Result<bool, AllocError> {
    let written = write_trace(alloc, trace)?;
    Ok(written.as_slice() == bytes)
}
