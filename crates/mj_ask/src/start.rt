// What a job starts with.

ghost use Rattle.std.specs.Prelude.{◌≡◌, IfOk};

use crate::entry::Entry;
use mj_text::Text;
use std::alloc::{AllocError, Global};
use std::marker::Model;

/// Where a job starts, and the values that it is given: one for each actual, none where that was left out.
#[derive(Drop)]
pub struct Start {
    entry: Entry,
    values: Vec<Option<Text>>,
}

impl Model for Start {
    ghost use Rattle.mj_ask.specs.Started.{Started};

    ghost Value = { Started };

    ghost view = { λ s. record { entry = s.entry; values = s.values.items } };
}

impl Start {
    /// A start of these.
    pub fn new(entry: Entry, values: Vec<Option<Text>>) -> Start
        ensures { result ≡ record { entry = entry; values = values.items } }
    {
        Start { entry, values }
    }

    /// Where it starts.
    pub fn entry(&self) -> &Entry
        ensures { result.now ≡ self.now.entry }
    {
        &self.entry
    }

    /// The values, in order.
    pub fn values(&self) -> &[Option<Text>]
        ensures { result.now ≡ self.now.values }
    {
        &self.values
    }

    /// Both, for keeps.
    pub fn into_parts(self) -> (Entry, Vec<Option<Text>>)
        ensures entry { result.0 ≡ self.entry }
        ensures values { result.1.items ≡ self.values }
    {
        let Start { entry, values } = self;
        (entry, values)
    }

    /// A copy of it.
    pub fn try_clone(&self) -> Result<Start, AllocError>
        ensures { IfOk result (λ start. start ≡ self.now) }
    {
        Ok(Start {
            entry: self.entry.try_clone()?,
            values: self.values.clone()?,
        })
    }
}

/// A start behind a pointer, so that an ask is small. A contract sees the start.
#[derive(Drop)]
pub struct BoxedStart {
    kept: Box<Start>,
}

impl Model for BoxedStart {
    ghost use Rattle.mj_ask.specs.Started.{Started};

    ghost Value = { Started };

    ghost view = { λ b. b.kept.value };
}

impl BoxedStart {
    /// The start behind a pointer.
    pub fn new(alloc: Global, start: Start) -> Result<BoxedStart, AllocError>
        ensures { IfOk result (λ boxed. boxed ≡ start) }
    {
        Ok(BoxedStart {
            kept: Box::new(alloc, start)?,
        })
    }

    /// The start.
    pub fn get(&self) -> &Start
        ensures { result.now ≡ self.now }
    {
        &self.kept
    }

    /// A copy of it.
    pub fn try_clone(&self) -> Result<BoxedStart, AllocError>
        ensures { IfOk result (λ boxed. boxed ≡ self.now) }
    {
        let alloc = *Box::allocator(&self.kept);
        BoxedStart::new(alloc, self.kept.try_clone()?)
    }
}
