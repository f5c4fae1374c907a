//! A text, and the room in which one that is kept as a number is spelled.

ghost use Rattle.std.specs.Prelude.{◌≡◌, ◌≤◌, ◌<◌, ◌+◌, ◌-◌, ◌↔◌, ◌++◌, [], length, take, drop, IsTrue, IfOk, IfSome, OnOk, OnErr, IsOkUnless};
ghost use Rattle.std.specs.Fmt.{signed_decimal};
ghost use Rattle.std.specs.Str.{bytes_eq};
ghost use Rattle.std.specs.Arc.{arc_value};
ghost use Rattle.std.specs.Ordering.{nat_cmp};
ghost use Rattle.std.specs.Cmp.Lexicographic.{slice_cmp};
ghost use Rattle.memchr.specs.Find.{FindsNeedle};
ghost use Rattle.mj_text.specs.declared.fault.Failure.TheVariants as failure;
ghost use Rattle.mj_text.specs.declared.fault.Fault.TheVariants as fault;
ghost use Rattle.mj_text.specs.Kept.{IsWhole};
ghost use Rattle.mj_text.specs.Find.{find_from};
ghost use Rattle.mj_text.specs.Limit.{most_bytes, is_within};

use crate::fault::{Failure, Fault};
use crate::limit::Limit;
use crate::short::{SHORT_LIMIT, Short};
use itoa::Buffer;
use memchr::memmem;
use std::alloc::{AllocError, Global};
use std::cmp::Ordering;
use std::fmt;
use std::marker::Model;
use std::sync::Arc;

/// The greatest number of bytes of any text.
pub const TEXT_LIMIT: usize = 1_048_576;

/// Room for the spelling of a text that is kept as a number. One serves any number of texts, one after the other.
#[derive(Default, Drop)]
pub struct Digits {
    room: Buffer,
}

impl Digits {
    /// Room, which holds nothing yet.
    pub fn new() -> Digits {
        Digits {
            room: Buffer::new(),
        }
    }
}

/// A list of at most [`TEXT_LIMIT`] bytes.
#[derive(Drop)]
pub struct Text {
    alloc: Global,
    kept: Kept,
}

#[derive(Drop)]
enum Kept {
    // A whole number, not spelled yet.
    Number(i64),
    // Few bytes, which may spell a number too.
    Short(Short),
    // More bytes, which every clone shares.
    Long(Arc<Vec<u8>>),
}

impl Model for Text {
    ghost use Rattle.std.specs.Prelude.{List, ℕ};

    ghost Value = { List ℕ };

    ghost use Rattle.mj_text.specs.Kept.{bytes_of, IsTextWithin};

    ghost view = { λ t. bytes_of t.kept };

    ghost invariant = { λ t. IsTextWithin t.kept };
}

impl Text {
    /// The text without a byte.
    pub fn new(alloc: Global) -> Text
        ensures { result ≡ [] }
    {
        Text {
            alloc,
            kept: Kept::Short(Short::of(&[], &[])),
        }
    }

    /// A text of these bytes. More than the limit are `Length`.
    pub fn from(alloc: Global, bytes: &[u8]) -> Result<Text, Failure>
        ensures ok { IfOk result (λ t. t ≡ bytes.now) }
        ensures long { (result ≡ Err (failure.Fault fault.Length)) ↔ (TEXT_LIMIT < length bytes.now) }
        ensures within { length bytes.now ≤ TEXT_LIMIT → IsOkUnless result failure.Memory }
    {
        if bytes.len() > TEXT_LIMIT {
            return Err(Failure::Fault(Fault::Length));
        }
        Ok(Text::joined(alloc, bytes, &[])?)
    }

    /// The decimal spelling of a whole number: `-` before a negative one, no leading zeros. It takes no memory.
    pub fn from_number(alloc: Global, number: i64) -> Text
        requires { IsWhole number }
        ensures { result ≡ signed_decimal number }
    {
        Text {
            alloc,
            kept: Kept::Number(number),
        }
    }

    /// How many bytes it has.
    pub fn len(&self) -> usize
        ensures value { result ≡ length self.now }
        ensures limit { result ≤ TEXT_LIMIT }
    {
        match &self.kept {
            Kept::Number(_) => self.spelled_len(),
            Kept::Short(short) => short.bytes().len(),
            Kept::Long(bytes) => bytes.as_slice().len(),
        }
    }

    // How many bytes it has, where it may have to be spelled. The room of a spelling is cleared where a function begins that has it, so
    // this lies apart.
    #[inline(never)]
    fn spelled_len(&self) -> usize
        ensures value { result ≡ length self.now }
        ensures limit { result ≤ TEXT_LIMIT }
    {
        self.bytes(&mut Digits::new()).len()
    }

    /// Whether it has no byte.
    pub fn is_empty(&self) -> bool
        ensures { IsTrue result ↔ (self.now ≡ []) }
    {
        match &self.kept {
            // it has a digit at least
            Kept::Number(_) => false,
            Kept::Short(short) => short.bytes().is_empty(),
            Kept::Long(bytes) => bytes.as_slice().is_empty(),
        }
    }

    /// Whether it is a text of this limit. No text is above the greater one.
    pub fn is_within(&self, limit: Limit) -> bool
        ensures { result ≡ is_within limit self.now }
    {
        match limit {
            Limit::V1 => self.len() <= limit.bytes(),
            Limit::V2 => true,
        }
    }

    /// Its bytes, in order. Those of a number are spelled into `digits`.
    pub fn bytes<'a>(&'a self, digits: &'a mut Digits) -> &'a [u8]
        ensures value { result.now ≡ self.now }
        ensures limit { length result.now ≤ TEXT_LIMIT }
    {
        match &self.kept {
            Kept::Number(number) => digits.room.format(*number).as_bytes(),
            Kept::Short(short) => short.bytes(),
            Kept::Long(bytes) => bytes.as_slice(),
        }
    }

    /// Its bytes, where they lie there spelled. `None` says nothing of them: [`Text::bytes`] spells them.
    pub fn spelled(&self) -> Option<&[u8]>
        ensures { IfSome result (λ bytes. bytes.now ≡ self.now) }
    {
        match &self.kept {
            Kept::Number(_) => None,
            Kept::Short(short) => Some(short.bytes()),
            Kept::Long(bytes) => Some(bytes.as_slice()),
        }
    }

    /// The number that it spells, where that is at hand. `None` says nothing: the text may spell a number or not.
    pub fn number(&self) -> Option<i64>
        ensures { IfSome result (λ n. IsWhole n × (self.now ≡ signed_decimal n)) }
    {
        match &self.kept {
            Kept::Number(number) => Some(*number),
            Kept::Short(_) | Kept::Long(_) => None,
        }
    }

    /// Its bytes and then those of `other`. More than the limit are `Length`.
    pub fn join(&self, other: &Text, limit: Limit) -> Result<Text, Failure>
        ensures ok { IfOk result (λ t. t ≡ self.now ++ other.now) }
        ensures long { (result ≡ Err (failure.Fault fault.Length)) ↔ (most_bytes limit < length self.now + length other.now) }
        ensures within { length self.now + length other.now ≤ most_bytes limit → IsOkUnless result failure.Memory }
    {
        let mut digits = Digits::new();
        let mut other_digits = Digits::new();
        let front = self.bytes(&mut digits);
        let back = other.bytes(&mut other_digits);
        if front.len() + back.len() > limit.bytes() {
            return Err(Failure::Fault(Fault::Length));
        }
        if back.is_empty() {
            return Ok(self.try_clone()?);
        }
        if front.is_empty() {
            return Ok(other.try_clone()?);
        }
        Ok(Text::joined(self.alloc, front, back)?)
    }

    /// Puts the bytes of `other` to its end. More than the limit are `Length`; then, as with want of memory, it stays as it was. Bytes that no other
    /// text shares stay where they lie as long as there is room behind them, and the room doubles, so a text that grows piece by piece is copied
    /// a few times at most.
    pub fn append(&mut self, other: &Text, limit: Limit) -> Result<(), Failure>
        ensures ok { OnOk result (self.new ≡ self.old ++ other.now) }
        ensures long { (result ≡ Err (failure.Fault fault.Length)) ↔ (most_bytes limit < length self.old + length other.now) }
        ensures within { length self.old + length other.now ≤ most_bytes limit → IsOkUnless result failure.Memory }
        ensures err { OnErr result (self.new ≡ self.old) }
    {
        match &mut self.kept {
            Kept::Number(_) => {}
            Kept::Short(short) => {
                let mut digits = Digits::new();
                let back = other.bytes(&mut digits);
                // (few bytes are within each limit)
                if short.len() + back.len() <= SHORT_LIMIT {
                    short.append(back);
                    return Ok(());
                }
            }
            Kept::Long(shared) => {
                if let Some(bytes) = Arc::get_mut(shared) {
                    return extend(bytes, other, limit);
                }
            }
        }
        self.append_anew(other, limit)
    }

    // Puts the bytes of `other` behind few bytes, or behind bytes that others share, which are copied. There is room behind the copy then, since what was
    // put to a text once often is again.
    fn append_anew(&mut self, other: &Text, limit: Limit) -> Result<(), Failure>
        ensures ok { OnOk result (self.new ≡ self.old ++ other.now) }
        ensures long { (result ≡ Err (failure.Fault fault.Length)) ↔ (most_bytes limit < length self.old + length other.now) }
        ensures within { length self.old + length other.now ≤ most_bytes limit → IsOkUnless result failure.Memory }
        ensures err { OnErr result (self.new ≡ self.old) }
    {
        let mut digits = Digits::new();
        let mut other_digits = Digits::new();
        let front = self.bytes(&mut digits);
        let back = other.bytes(&mut other_digits);
        let len = front.len() + back.len();
        if len > limit.bytes() {
            return Err(Failure::Fault(Fault::Length));
        }
        if back.is_empty() {
            return Ok(());
        }
        self.kept = if front.is_empty() {
            other.try_clone()?.kept
        } else if len <= SHORT_LIMIT {
            Kept::Short(Short::of(front, back))
        } else {
            Kept::Long(put_together(self.alloc, front, back, len + len / 8 + 8)?)
        };
        Ok(())
    }

    /// It is another text from now on. Where a number takes the place of a number, nothing is dropped.
    #[inline(always)]
    pub fn become_text(&mut self, text: Text)
        ensures { self.new ≡ text }
    {
        if let Some(number) = text.number() {
            if let Kept::Number(old) = &mut self.kept {
                *old = number;
                return;
            }
        }
        self.kept = text.kept;
    }

    /// Its bytes from place `start` up to place `end`, which isn't in it. Places count from 0. Those past its end hold nothing.
    pub fn cut(&self, start: usize, end: usize) -> Result<Text, AllocError>
        ensures { IfOk result (λ t. t ≡ take (end - start) (drop start self.now)) }
    {
        let mut digits = Digits::new();
        let bytes = self.bytes(&mut digits);
        let end = end.min(bytes.len());
        let start = start.min(end);
        if end - start == bytes.len() {
            return self.try_clone();
        }
        Text::joined(self.alloc, &bytes[start..end], &[])
    }

    /// The least place from `start` on at which `part` stands. An empty part stands at each place, also at the text's end.
    pub fn find(&self, part: &Text, start: usize) -> Option<usize>
        ensures value { result ≡ find_from self.now part.now start }
        ensures place { FindsNeedle self.now part.now start result }
    {
        let mut digits = Digits::new();
        let mut part_digits = Digits::new();
        let bytes = self.bytes(&mut digits);
        let part = part.bytes(&mut part_digits);
        if start > bytes.len() {
            return None;
        }
        match memmem::find(&bytes[start..], part) {
            Some(place) => Some(place + start),
            None => None,
        }
    }

    /// A copy.
    pub fn try_clone(&self) -> Result<Text, AllocError>
        ensures { IfOk result (λ t. t ≡ self.now) }
    {
        let kept = match &self.kept {
            Kept::Number(number) => Kept::Number(*number),
            Kept::Short(short) => Kept::Short(*short),
            Kept::Long(bytes) => Kept::Long(bytes.clone()?),
        };
        Ok(Text {
            alloc: self.alloc,
            kept,
        })
    }

    /// How it compares with `other` byte by byte, a proper front first.
    pub fn cmp_bytes(&self, other: &Text) -> Ordering
        ensures { result ≡ slice_cmp nat_cmp self.now other.now }
    {
        match (&self.kept, &other.kept) {
            (Kept::Short(short), Kept::Short(other)) => short.bytes().cmp(other.bytes()),
            _ => self.cmp_spelled(other),
        }
    }

    // How it compares with `other` byte by byte, where one of them may have to be spelled.
    #[inline(never)]
    fn cmp_spelled(&self, other: &Text) -> Ordering
        ensures { result ≡ slice_cmp nat_cmp self.now other.now }
    {
        let mut digits = Digits::new();
        let mut other_digits = Digits::new();
        self.bytes(&mut digits).cmp(other.bytes(&mut other_digits))
    }

    // Whether two texts have the same bytes, of which one may have to be spelled.
    #[inline(never)]
    fn is_spelled_alike(&self, other: &Text) -> bool
        ensures same { IsTrue result ↔ (self.now ≡ other.now) }
        ensures value { result ≡ bytes_eq self.now other.now }
    {
        self.bytes(&mut Digits::new()) == other.bytes(&mut Digits::new())
    }

    // A text of two lists of bytes, which together are within the limit.
    fn joined(alloc: Global, front: &[u8], back: &[u8]) -> Result<Text, AllocError>
        requires { length front.now + length back.now ≤ TEXT_LIMIT }
        ensures { IfOk result (λ t. t ≡ front.now ++ back.now) }
    {
        let len = front.len() + back.len();
        if len <= SHORT_LIMIT {
            return Ok(Text {
                alloc,
                kept: Kept::Short(Short::of(front, back)),
            });
        }
        Ok(Text {
            alloc,
            kept: Kept::Long(put_together(alloc, front, back, len)?),
        })
    }
}

// Two lists of bytes, one after the other, in memory of their own that holds so many.
fn put_together(
    alloc: Global,
    front: &[u8],
    back: &[u8],
    room: usize,
) -> Result<Arc<Vec<u8>>, AllocError>
    ensures { IfOk result (λ shared. (arc_value shared).items ≡ front.now ++ back.now) }
{
    let mut bytes = Vec::with_capacity(alloc, room)?;
    bytes.extend_from_slice(front)?;
    bytes.extend_from_slice(back)?;
    Ok(Arc::new(alloc, bytes)?)
}

// Puts the bytes of a text behind others.
fn extend(bytes: &mut Vec<u8>, other: &Text, limit: Limit) -> Result<(), Failure>
    ensures ok { OnOk result (bytes.new.items ≡ bytes.old.items ++ other.now) }
    ensures long { (result ≡ Err (failure.Fault fault.Length)) ↔ (most_bytes limit < length bytes.old.items + length other.now) }
    ensures within { length bytes.old.items + length other.now ≤ most_bytes limit → IsOkUnless result failure.Memory }
    ensures limit { length bytes.old.items ≤ TEXT_LIMIT → length bytes.new.items ≤ TEXT_LIMIT }
    ensures err { OnErr result (bytes.new.items ≡ bytes.old.items) }
{
    let mut digits = Digits::new();
    let back = other.bytes(&mut digits);
    if bytes.len() + back.len() > limit.bytes() {
        return Err(Failure::Fault(Fault::Length));
    }
    bytes.extend_from_slice(back)?;
    Ok(())
}

impl Clone for Text {
    ghost is_clone = { λ t copy. copy ≡ t };

    fn clone(&self) -> Result<Text, AllocError> {
        self.try_clone()
    }
}

impl PartialEq for Text {
    ghost use Rattle.std.specs.Prelude.{◌≡◌, ◌↔◌, IsTrue};
    ghost use Rattle.std.specs.Str.{bytes_eq};
    ghost use Rattle.std.specs.Cmp.{partial_equiv_from_equiv};
    ghost use Rattle.std.specs.Cmp.Lexicographic.{nat_list_eq_equiv};

    ghost eq = { bytes_eq };

    ghost laws = { partial_equiv_from_equiv nat_list_eq_equiv };

    #[inline(always)]
    fn eq(&self, other: &Text) -> bool
        ensures same { IsTrue result ↔ (self.now ≡ other.now) }
        ensures value { result ≡ bytes_eq self.now other.now }
    {
        match (&self.kept, &other.kept) {
            (Kept::Number(number), Kept::Number(other)) => *number == *other,
            (Kept::Short(short), Kept::Short(other)) => short.is_same(other),
            _ => self.is_spelled_alike(other),
        }
    }
}

impl Eq for Text {
    ghost use Rattle.std.specs.Cmp.Lexicographic.{nat_list_eq_equiv};

    ghost laws = { nat_list_eq_equiv };
}

impl fmt::Debug for Text {
    fn fmt<W: fmt::Write>(&self, f: &mut fmt::Formatter<W>) -> fmt::Result {
        f.write_str("\"")?;
        for &byte in self.bytes(&mut Digits::new()) {
            write!(f, "{}", byte.escape_ascii())?;
        }
        f.write_str("\"")
    }
}
