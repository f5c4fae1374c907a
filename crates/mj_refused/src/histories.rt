// Histories, logs and counts, as texts.

use mj_ask::{Ask, Reply};
use mj_sys::Event;
use mj_trace::{Form, put_event};
use std::alloc::{AllocError, Global};

/// Puts a line for each event to the end.
pub fn put_history(alloc: Global, text: &mut Vec<u8>, history: &[Event]) -> Result<(), AllocError> {
    for event in history {
        put_event(
            alloc,
            text,
            Form::First,
            event.job,
            None,
            &event.ask,
            &event.reply,
        )?;
    }
    Ok(())
}

/// Puts a line for each entry of a job's log to the end.
pub fn put_log(
    alloc: Global,
    text: &mut Vec<u8>,
    job: u32,
    log: &[(Ask, Reply)],
) -> Result<(), AllocError> {
    for (ask, reply) in log {
        put_event(alloc, text, Form::First, job, None, ask, reply)?;
    }
    Ok(())
}

/// Puts a count to the end, and a space.
pub fn put_count(alloc: Global, text: &mut Vec<u8>, count: u64) -> Result<(), AllocError> {
    let digits = format!(in alloc; "{count} ")?;
    let put = text.extend_from_slice(digits.as_bytes());
    drop(digits);
    put
}

/// The text, where the rest of it was put to its end.
pub fn if_put(text: Vec<u8>, put: Result<(), AllocError>) -> Result<Vec<u8>, AllocError> {
    match put {
        Ok(()) => Ok(text),
        Err(refused) => {
            drop(text);
            Err(refused)
        }
    }
}
