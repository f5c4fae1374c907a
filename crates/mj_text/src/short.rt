//! A few bytes, kept in the value itself.

ghost use Rattle.std.specs.Prelude.{◌≡◌, ◌≤◌, ◌+◌, ◌++◌, length, IsTrue};
ghost use Rattle.std.specs.Str.{bytes_eq};
ghost use Rattle.mj_text.specs.declared.short.TheConstants.{SHORT_LIMIT};

/// The greatest number of bytes that take no memory: with their number they are two words.
pub(crate) const SHORT_LIMIT: usize = 15;

/// At most [`SHORT_LIMIT`] bytes, from the start of a word, so that they are moved by words.
#[derive(Clone, Copy)]
pub(crate) struct Short {
    _start: [u64; 0],
    len: u8,
    room: [u8; SHORT_LIMIT],
    ghost fits: { len ≤ SHORT_LIMIT },
}

impl Short {
    ghost use Rattle.mj_text.specs.Short.{short_bytes};

    /// Two lists of bytes, one after the other.
    pub(crate) fn of(front: &[u8], back: &[u8]) -> Short
        requires { length front.now + length back.now ≤ SHORT_LIMIT }
        ensures { short_bytes result ≡ front.now ++ back.now }
    {
        let len = front.len() + back.len();
        let mut room = [0; SHORT_LIMIT];
        room[..front.len()].copy_from_slice(front);
        room[front.len()..len].copy_from_slice(back);
        Short {
            _start: [],
            len: len as u8,
            room,
        }
    }

    /// Puts bytes to its end.
    pub(crate) fn append(&mut self, back: &[u8])
        requires { self.old.len + length back.now ≤ SHORT_LIMIT }
        ensures { short_bytes self.new ≡ short_bytes self.old ++ back.now }
    {
        let len = self.len as usize;
        let all = len + back.len();
        self.room[len..all].copy_from_slice(back);
        self.len = all as u8;
    }

    /// How many bytes they are.
    pub(crate) fn len(&self) -> usize
        ensures { result ≡ self.now.len }
    {
        self.len as usize
    }

    /// Whether they are the same bytes. Numbers and rooms are compared at once, which needs no jump; where they differ, what lies behind the bytes may.
    #[inline(always)]
    pub(crate) fn is_same(&self, other: &Short) -> bool
        ensures { result ≡ bytes_eq (short_bytes self.now) (short_bytes other.now) }
    {
        self.is_alike(other) || self.has_bytes_of(other)
    }

    // Whether they lie alike. It looks at all places, so that they can be compared at once.
    #[inline(always)]
    fn is_alike(&self, other: &Short) -> bool
        ensures { IsTrue result → short_bytes self.now ≡ short_bytes other.now }
    {
        let mut alike = self.len == other.len;
        for place in 0..SHORT_LIMIT {
            alike &= self.room[place] == other.room[place];
        }
        alike
    }

    // Whether they are the same bytes, looked at one by one.
    #[inline(never)]
    fn has_bytes_of(&self, other: &Short) -> bool
        ensures { result ≡ bytes_eq (short_bytes self.now) (short_bytes other.now) }
    {
        self.bytes() == other.bytes()
    }

    /// The bytes, in order.
    pub(crate) fn bytes(&self) -> &[u8]
        ensures { result.now ≡ short_bytes self.now }
    {
        &self.room[..self.len as usize]
    }
}
