// What is told of the calls.

use std::alloc::{AllocError, Global};

/// What came of the calls, line by line, and how many were refused memory.
#[derive(Drop)]
pub struct Told {
    /// the lines
    pub lines: Vec<u8>,
    /// how many calls were refused memory
    pub refusals: u64,
}

impl Told {
    /// Nothing yet.
    pub fn new(alloc: Global) -> Told {
        Told {
            lines: Vec::new(alloc),
            refusals: 0,
        }
    }

    /// Puts a line to the end.
    pub fn put(&mut self, line: &[u8]) -> Result<(), AllocError> {
        self.lines.extend_from_slice(line)?;
        self.lines.push(b'\n')?;
        Ok(())
    }

    /// Counts a call that was refused memory, and says so where something isn't as before.
    pub fn refused(&mut self, what: &[u8], same: bool) -> Result<(), AllocError> {
        self.refusals = self.refusals.saturating_add(1);
        self.hold(what, b"after a refusal it isn't as before", same)
    }

    /// Puts a line to the end where something isn't so.
    pub fn hold(&mut self, what: &[u8], wrong: &[u8], is: bool) -> Result<(), AllocError> {
        if is {
            return Ok(());
        }
        self.lines.extend_from_slice(what)?;
        self.lines.extend_from_slice(b": ")?;
        self.put(wrong)
    }
}
