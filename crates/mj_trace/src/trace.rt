// Traces.

ghost use Rattle.std.specs.Prelude.{◌≡◌, ◌++◌, true, codes, IfOk, OnOk};
ghost use Rattle.std.specs.List.{list_all};
ghost use Rattle.std.specs.Str.{bytes_eq};
ghost use Rattle.std.specs.Option.{option_copied};
ghost use Rattle.mj_trace.specs.Trace.{trace_text, event_lines, version_of, limit_of};
ghost use Rattle.mj_trace.specs.Sized.{device_count_fits, event_fits};
ghost use Rattle.mj_trace.specs.Lines.{no_lines, is_full, stands_behind, principal, may_start, may_follow, with_piece};

use crate::form::Form;
use crate::head::{put_event, put_opening};
use crate::piece::Piece;
use mj_ask::{Entry, Noted};
use mj_text::{Digits, Limit, Text};
use std::alloc::{AllocError, Global};
use std::marker::Model;

/// The most first jobs of a run.
const STARTS_LIMIT: usize = 255;

/// A run as it is written down: the devices that there are, where the first jobs start, and what each job asked and was told.
#[derive(Drop)]
pub struct Trace {
    form: Form,
    pool: Vec<(Text, u32)>,
    starts: Vec<Entry>,
    events: Vec<Noted>,
}

impl Model for Trace {
    ghost use Rattle.mj_trace.specs.Trace.{Traced};

    ghost Value = { Traced };

    ghost view = { λ t. record { form = t.form; pool = t.pool.items; starts = t.starts.items; events = t.events.items } };
}

impl Trace {
    /// Makes the trace of these: its form, each device by its name with the number of its sessions, the starts, and the events with their jobs and places.
    pub fn new(form: Form, pool: Vec<(Text, u32)>, starts: Vec<Entry>, events: Vec<Noted>) -> Trace
        ensures { result ≡ record { form = form; pool = pool.items; starts = starts.items; events = events.items } }
    {
        Trace {
            form,
            pool,
            starts,
            events,
        }
    }

    /// How it is written.
    pub fn form(&self) -> Form
        ensures { result ≡ self.now.form }
    {
        self.form
    }

    /// 1 or 2, by how it is written.
    pub fn version(&self) -> u32
        ensures { result ≡ version_of self.now.form }
    {
        self.form.version()
    }

    /// How long the texts of the run may be.
    pub fn limit(&self) -> Limit
        ensures { result ≡ limit_of self.now.form }
    {
        self.form.limit()
    }

    /// Gives the devices, each with the number of its sessions.
    pub fn pool(&self) -> &[(Text, u32)]
        ensures { result.now ≡ self.now.pool }
    {
        &self.pool
    }

    /// Tells where the first jobs start.
    pub fn starts(&self) -> &[Entry]
        ensures { result.now ≡ self.now.starts }
    {
        &self.starts
    }

    /// Gives what each job asked and was told, in order.
    pub fn events(&self) -> &[Noted]
        ensures { result.now ≡ self.now.events }
    {
        &self.events
    }

    /// Makes a trace without a line behind those that tell its form.
    pub(crate) fn empty(alloc: Global, form: Form) -> Trace
        ensures { result ≡ no_lines form }
    {
        Trace {
            form,
            pool: Vec::new(alloc),
            starts: Vec::new(alloc),
            events: Vec::new(alloc),
        }
    }

    /// Whether there are events, and no more than these may be there.
    pub(crate) fn is_full(&self, events: u32) -> bool
        ensures { result ≡ is_full events self.now }
    {
        !self.events.is_empty() && self.events.len() == events as usize
    }

    /// Whether a line may follow that says this, where there may be so many events.
    pub(crate) fn may_follow(&self, piece: &Piece, events: u32) -> bool
        ensures { result ≡ may_follow events self.now piece.now }
    {
        match piece {
            Piece::Device(name, _) => {
                self.starts.is_empty()
                    && self.events.is_empty()
                    && stands_behind(self.pool.last(), name)
            }
            Piece::Start(_) => self.events.is_empty() && may_start(&self.pool, self.starts.len()),
            Piece::Event(_) => !self.starts.is_empty() && self.events.len() < events as usize,
        }
    }

    /// Adds a line.
    pub(crate) fn add(&mut self, piece: Piece) -> Result<(), AllocError>
        ensures { OnOk result (self.new ≡ with_piece self.old piece) }
    {
        match piece {
            Piece::Device(name, count) => self.pool.push((name, count))?,
            Piece::Start(entry) => self.starts.push(entry)?,
            Piece::Event(event) => self.events.push(event)?,
        }
        Ok(())
    }
}

// Whether a name stands behind that of a device, if there is one.
fn stands_behind(last: Option<&(Text, u32)>, name: &Text) -> bool
    ensures { result ≡ stands_behind (option_copied last.entry) name.now }
{
    match last {
        None => true,
        Some(device) => device.0.cmp_bytes(name).is_lt(),
    }
}

// Whether one start more may stand behind so many.
fn may_start(pool: &[(Text, u32)], count: usize) -> bool
    ensures { result ≡ may_start pool.now count }
{
    count < STARTS_LIMIT && count < principal(pool) as usize
}

// Gives the sessions of the principal device.
fn principal(pool: &[(Text, u32)]) -> u32
    ensures { result ≡ principal pool.now }
{
    for (name, count) in pool {
        if is_principal(name) {
            return *count;
        }
    }
    0
}

// Whether this is the name of the principal device.
fn is_principal(name: &Text) -> bool
    ensures { result ≡ bytes_eq name.now (codes "0") }
{
    let mut digits = Digits::new();
    name.bytes(&mut digits) == b"0".as_slice()
}

/// Writes a trace in its form. What is written is within the sizes of its values, so it is read back if it can be written.
pub fn write_trace(alloc: Global, trace: &Trace) -> Result<Vec<u8>, AllocError>
    ensures text { IfOk result (λ bytes. bytes.items ≡ trace_text trace.now) }
    ensures devices { IfOk result (λ bytes. list_all device_count_fits trace.now.pool ≡ true) }
    ensures events { IfOk result (λ bytes. list_all event_fits trace.now.events ≡ true) }
{
    let mut bytes = Vec::new(alloc);
    put_opening(alloc, &mut bytes, trace.form, &trace.pool, &trace.starts)?;
    put_events(alloc, &mut bytes, trace.form, &trace.events)?;
    Ok(bytes)
}

// Puts the lines of events to the end.
fn put_events(
    alloc: Global,
    bytes: &mut Vec<u8>,
    form: Form,
    events: &[Noted],
) -> Result<(), AllocError>
    ensures text { OnOk result (bytes.new.items ≡ bytes.old.items ++ event_lines form events.now) }
    ensures fits { OnOk result (list_all event_fits events.now ≡ true) }
{
    for event in events {
        put_event(
            alloc,
            bytes,
            form,
            event.job,
            event.spot.as_ref(),
            &event.ask,
            &event.reply,
        )?;
    }
    Ok(())
}
