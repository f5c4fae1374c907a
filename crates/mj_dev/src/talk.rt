// What a session says, beside its device.

ghost use Rattle.std.specs.Prelude.{◌≡◌, ◌+◌, ◌≤◌, ◌<◌, ◌^◌, length};

/// Whether a session may be used.
#[derive(Clone, Copy, PartialEq, Eq, Debug)]
pub enum State {
    /// it may
    Open,
    /// its device failed: only its end may follow
    Failed,
    /// it was ended, and nothing may follow: no session is in this state, as its end takes it
    Ended,
}

/// What the reading of one byte gives.
#[derive(Clone, Copy, PartialEq, Eq, Debug)]
pub enum Code {
    /// a byte's code, or 10 at the end of a line
    Byte(u8),
    /// there is no further line
    End,
    /// no line is there yet
    NotYet,
    /// the device failed
    Failed,
    /// memory was refused
    Memory,
}

/// Where the next byte that is written stands: how many stand before it in its row, and how many rows are above it.
#[derive(Clone, Copy, PartialEq, Eq, Debug)]
pub struct Cursor {
    pub column: u64,
    pub row: u64,
}

impl Cursor {
    ghost use Rattle.mj_dev.specs.Cursor.{cursor_after, cursor_behind};

    // The place after some more bytes.
    pub(crate) fn behind(self, bytes: &[u8]) -> Cursor
        requires columns { self.column + length bytes.now < 2 ^ 64 }
        requires rows { self.row + length bytes.now < 2 ^ 64 }
        ensures place { result ≡ cursor_behind self bytes.now }
        ensures column { result.column ≤ self.column + length bytes.now }
        ensures row { result.row ≤ self.row + length bytes.now }
    {
        let mut at = self;
        for &byte in bytes {
            at = at.after(byte);
        }
        at
    }

    // The place after one more byte.
    fn after(self, byte: u8) -> Cursor
        requires columns { self.column + 1 < 2 ^ 64 }
        requires rows { self.row + 1 < 2 ^ 64 }
        ensures place { result ≡ cursor_after self byte }
        ensures column { result.column ≤ self.column + 1 }
        ensures row { result.row ≤ self.row + 1 }
    {
        match byte {
            10 => Cursor {
                column: 0,
                row: self.row + 1,
            },
            12 => Cursor { column: 0, row: 0 },
            13 => Cursor {
                column: 0,
                row: self.row,
            },
            _ => Cursor {
                column: self.column + 1,
                row: self.row,
            },
        }
    }
}
