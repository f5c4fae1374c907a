// What jobs ask and are told, written down as the events of a trace.

use mj_ask::{Ask, EVENTS_LIMIT, Noted, Reply};
use mj_text::Failure;
use mj_trace::{Form, Trace, event_line, read_trace};
use std::alloc::{AllocError, Global};

/// The trace of two jobs with these events.
pub fn script(alloc: Global, events: &str) -> Result<Trace, Failure> {
    let text = format!(in alloc; "mj-trace 1\npool \"0\" 3\nstart ^R\nstart ^R\n{events}")?;
    let read = read_trace(alloc, text.as_bytes(), EVENTS_LIMIT);
    drop(text);
    match read {
        Ok(trace) => Ok(trace),
        Err(refused) => {
            drop(refused);
            Err(Failure::Memory)
        }
    }
}

/// Whether an event is spelled as this one is.
pub fn is_event(
    alloc: Global,
    job: u32,
    ask: &Ask,
    reply: &Reply,
    event: &Noted,
) -> Result<bool, AllocError> {
    let line = event_line(alloc, Form::First, job, None, ask, reply)?;
    let wanted = noted_line(alloc, event);
    let same = match &wanted {
        Ok(wanted) => Ok(line.as_slice() == wanted.as_slice()),
        Err(_) => Err(AllocError),
    };
    drop(wanted);
    drop(line);
    same
}

/// The line of an event, without where its ask came from.
pub fn noted_line(alloc: Global, event: &Noted) -> Result<Vec<u8>, AllocError> {
    event_line(
        alloc,
        Form::First,
        event.job,
        None,
        &event.ask,
        &event.reply,
    )
}
