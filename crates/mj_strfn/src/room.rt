// Room for a few bytes that are put together, which takes no memory.

ghost use Rattle.std.specs.Prelude.{◌≡◌, ◌≤◌, ◌+◌, [], ◌++◌, length};

use std::marker::Model;

/// The greatest number of bytes that a room holds.
pub(crate) const ROOM: usize = 256;

/// At most [`ROOM`] bytes, which grow at their end. The room is cleared where a function begins that has it, so such a function lies
/// apart from those that need none.
#[derive(Drop)]
pub(crate) struct Room {
    bytes: [u8; ROOM],
    len: usize,
}

impl Model for Room {
    ghost use Rattle.std.specs.Prelude.{List, ℕ, ◌≤◌, take};

    ghost Value = { List ℕ };

    ghost view = { λ r. take r.len r.bytes };

    ghost invariant = { λ r. r.len ≤ 256 };
}

impl Room {
    /// Room without a byte.
    pub(crate) fn new() -> Room
        ensures { result ≡ [] }
    {
        Room {
            bytes: [0; ROOM],
            len: 0,
        }
    }

    /// Puts these bytes behind the others.
    pub(crate) fn put(&mut self, bytes: &[u8])
        requires { length self.old + length bytes.now ≤ ROOM }
        ensures { self.new ≡ self.old ++ bytes.now }
    {
        let end = self.len + bytes.len();
        self.bytes[self.len..end].copy_from_slice(bytes);
        self.len = end;
    }

    /// The bytes, in order.
    pub(crate) fn bytes(&self) -> &[u8]
        ensures { result.now ≡ self.now }
    {
        &self.bytes[..self.len]
    }
}
