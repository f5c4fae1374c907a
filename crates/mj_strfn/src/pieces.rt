// The functions on the pieces of a text, and the new text of a SET of `$PIECE`.

ghost use Rattle.std.specs.Prelude.{◌≡◌, ◌≤◌, ◌<◌, ◌++◌, ◌^◌, ◌+◌, ◌*◌, ◌↔◌, IsTrue, Ok, length as length_of};
ghost use Rattle.std.specs.Option.{option_copied};
ghost use Rattle.std.specs.List.{repeat};
ghost use Rattle.mj_strfn.specs.Pieces.{pieces, joined};
ghost use Rattle.mj_text.specs.Failing.{failing, Answers};
ghost use Rattle.mj_strfn.specs.Functions.{length_value, piece_value, some_pieces, assigned_pieces as pieces_assigned, set_piece_value, with_pieces};
ghost use Rattle.mj_text.specs.Limit.{most_bytes, within_limit};
ghost use Rattle.mj_strfn.specs.Parts.{pieces_between};

use crate::arguments::{count_text, first_and_last, place};
use crate::room::{ROOM, Room};
use crate::search::{behind, count, front};
use mj_text::{Digits, Failure, Fault, Limit, TEXT_LIMIT, Text};
use std::alloc::Global;
use std::marker::Model;

/// `$LENGTH`: how many bytes a text has, or how many pieces where a separator is given. It takes no memory.
pub fn length(alloc: Global, text: &Text, separator: Option<&Text>) -> Text
    ensures { result ≡ length_value text.now (option_copied separator.entry) }
{
    let Some(separator) = separator else {
        return count_text(alloc, text.len() as u64);
    };
    let mut digits = Digits::new();
    let mut separator_digits = Digits::new();
    let bytes = text.bytes(&mut digits);
    let separator = separator.bytes(&mut separator_digits);
    if separator.is_empty() {
        return count_text(alloc, 0);
    }
    count_text(alloc, count(bytes, separator) as u64)
}

/// `$PIECE`: the pieces from a first to a last one. The first is 1 where it isn't given, the last is the first.
pub fn piece(
    alloc: Global,
    text: &Text,
    separator: &Text,
    first: Option<&Text>,
    last: Option<&Text>,
) -> Result<Text, Failure>
    ensures { Answers (piece_value text.now separator.now (option_copied first.entry) (option_copied last.entry)) result }
{
    let (first, last) = first_and_last(first, last)?;
    let mut digits = Digits::new();
    let mut separator_digits = Digits::new();
    let bytes = text.bytes(&mut digits);
    let separator = separator.bytes(&mut separator_digits);
    if separator.is_empty() {
        return Ok(Text::new(alloc));
    }
    Text::from(
        alloc,
        part(bytes, separator, place(first).max(1), place(last)),
    )
}

/// The pieces from `first` to `last`.
fn part<'a>(bytes: &'a [u8], separator: &[u8], first: u64, last: u64) -> &'a [u8]
    requires some { 0 < length_of separator.now }
    requires from_one { 0 < first }
    requires limit { last < 10 ^ 18 }
    ensures value { result.now ≡ pieces_between separator.now bytes.now first last }
    ensures limit { length_of result.now ≤ length_of bytes.now }
{
    if last < first {
        return &[];
    }
    match behind(bytes, separator, first - 1) {
        Some(rest) => front(rest, separator, last + 1 - first),
        None => &[],
    }
}

/// The pieces that a SET of `$PIECE` assigns: from a first to a last one, of which the first has number 1.
#[derive(Clone, Copy, PartialEq, Eq, Debug)]
pub struct PieceRange {
    first: u64,
    last: u64,
}

impl Model for PieceRange {
    ghost use Rattle.std.specs.Prelude.{ℕ, ◌<◌, ◌≤◌, ◌^◌};

    ghost Value = { ℕ × ℕ };

    ghost view = { λ r. (r.first, r.last) };

    ghost invariant = { λ r. (0 < r.first) × (r.first ≤ r.last) × (r.last < 10 ^ 18) };

    ghost inverse = { λ v. record { first = v.0; last = v.1 } };
}

/// Which pieces a SET of `$PIECE` assigns, if any: none by an empty separator, where the last is below 1, or below the first. Where
/// none is assigned, the variable is neither read nor set. It takes no memory.
pub fn assigned_pieces(
    separator: &Text,
    first: Option<&Text>,
    last: Option<&Text>,
) -> Result<Option<PieceRange>, Failure>
    ensures { result ≡ failing (pieces_assigned separator.now (option_copied first.entry) (option_copied last.entry)) }
{
    let (first, last) = first_and_last(first, last)?;
    if separator.is_empty() || last.value() < 1 || last.value() < first.value() {
        return Ok(None);
    }
    Ok(Some(PieceRange {
        first: place(first).max(1),
        last: place(last),
    }))
}

/// The new value where the pieces of a range give way to `value`. Where there are too few before it, empty ones are put in. One above the limit is
/// `Length`, and no memory is asked for then.
pub fn set_piece(
    alloc: Global,
    old: &Text,
    separator: &Text,
    range: PieceRange,
    value: &Text,
    limit: Limit,
) -> Result<Text, Failure>
    ensures { Answers (set_piece_value limit old.now separator.now range value.now) result }
{
    if separator.is_empty() {
        return Ok(old.try_clone()?);
    }
    let mut old_digits = Digits::new();
    let mut separator_digits = Digits::new();
    let mut value_digits = Digits::new();
    let old = old.bytes(&mut old_digits);
    let separator = separator.bytes(&mut separator_digits);
    let value = value.bytes(&mut value_digits);
    replaced(alloc, old, separator, range.first, range.last, value, limit)
}

/// The text where the pieces from `first` to `last` give way to `value`.
fn replaced(
    alloc: Global,
    old: &[u8],
    separator: &[u8],
    first: u64,
    last: u64,
    value: &[u8],
    limit: Limit,
) -> Result<Text, Failure>
    requires some { 0 < length_of separator.now }
    requires from_one { 0 < first }
    requires in_order { first ≤ last }
    requires old_limit { length_of old.now ≤ TEXT_LIMIT }
    requires separator_limit { length_of separator.now ≤ TEXT_LIMIT }
    requires value_limit { length_of value.now ≤ TEXT_LIMIT }
    ensures { Answers (within_limit limit (with_pieces old.now separator.now (first, last) value.now)) result }
{
    let Some(rest) = behind(old, separator, first - 1) else {
        let missing = first - count(old, separator) as u64;
        return assembled(alloc, old, separator, missing, value, &[], limit);
    };
    let kept = &old[..old.len() - rest.len()];
    match behind(rest, separator, last - (first - 1)) {
        Some(more) => {
            let back = &rest[rest.len() - more.len() - separator.len()..];
            assembled(alloc, kept, separator, 0, value, back, limit)
        }
        None => assembled(alloc, kept, separator, 0, value, &[], limit),
    }
}

/// One text of these parts: `filling` stands as many times as is said.
fn assembled(
    alloc: Global,
    front: &[u8],
    filling: &[u8],
    times: u64,
    middle: &[u8],
    back: &[u8],
    limit: Limit,
) -> Result<Text, Failure>
    requires some { 0 < length_of filling.now }
    requires front_limit { length_of front.now ≤ TEXT_LIMIT }
    requires filling_limit { length_of filling.now ≤ TEXT_LIMIT }
    requires middle_limit { length_of middle.now ≤ TEXT_LIMIT }
    requires back_limit { length_of back.now ≤ TEXT_LIMIT }
    ensures { Answers (within_limit limit (front.now ++ repeat times filling.now ++ middle.now ++ back.now)) result }
{
    let others = front.len() + middle.len() + back.len();
    if !has_room(others, filling.len(), times, limit) {
        return Err(Failure::Fault(Fault::Length));
    }
    let len = others + times as usize * filling.len();
    if len <= ROOM {
        return assembled_short(alloc, front, filling, times, middle, back);
    }
    assembled_long(alloc, len, front, filling, times, middle, back)
}

/// Puts few bytes in all together, without taking memory for it.
#[inline(never)]
fn assembled_short(
    alloc: Global,
    front: &[u8],
    filling: &[u8],
    times: u64,
    middle: &[u8],
    back: &[u8],
) -> Result<Text, Failure>
    requires { length_of front.now + length_of middle.now + length_of back.now + times * length_of filling.now ≤ ROOM }
    ensures { Answers (Ok (front.now ++ repeat times filling.now ++ middle.now ++ back.now)) result }
{
    let mut room = Room::new();
    room.put(front);
    for _time in 0..times {
        room.put(filling);
    }
    room.put(middle);
    room.put(back);
    Text::from(alloc, room.bytes())
}

/// Puts more bytes together, `len` in all, in memory that holds so many.
#[inline(never)]
fn assembled_long(
    alloc: Global,
    len: usize,
    front: &[u8],
    filling: &[u8],
    times: u64,
    middle: &[u8],
    back: &[u8],
) -> Result<Text, Failure>
    requires { length_of front.now + length_of middle.now + length_of back.now + times * length_of filling.now ≤ TEXT_LIMIT }
    ensures { Answers (Ok (front.now ++ repeat times filling.now ++ middle.now ++ back.now)) result }
{
    let mut bytes = Vec::with_capacity(alloc, len)?;
    bytes.extend_from_slice(front)?;
    for _time in 0..times {
        bytes.extend_from_slice(filling)?;
    }
    bytes.extend_from_slice(middle)?;
    bytes.extend_from_slice(back)?;
    Text::from(alloc, bytes.as_slice())
}

/// Whether a text has room for so many bytes and a filling of so many more, so many times.
fn has_room(others: usize, filling: usize, times: u64, limit: Limit) -> bool
    requires some { 0 < filling }
    requires others_limit { others ≤ 3 * TEXT_LIMIT }
    requires filling_limit { filling ≤ TEXT_LIMIT }
    ensures fits { IsTrue result ↔ (others + times * filling ≤ most_bytes limit) }
    ensures within { IsTrue result → others + times * filling ≤ TEXT_LIMIT }
{
    let most = limit.bytes();
    times <= most as u64 && others + times as usize * filling <= most
}
