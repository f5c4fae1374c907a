// `$TRANSLATE`, by a table of what becomes of each byte.

ghost use Rattle.std.specs.Prelude.{◌≡◌, ◌≤◌, [], ◌∷◌, Ok, Some, length, take};
ghost use Rattle.std.specs.Option.{option_copied};
ghost use Rattle.std.specs.List.{flat_map};
ghost use Rattle.mj_text.specs.Failing.{Answers};
ghost use Rattle.mj_strfn.specs.Functions.{becomes, translate_value};
ghost use Rattle.mj_strfn.specs.Table.{bytes_of, IsTable, translated_by};

use crate::room::ROOM;
use mj_text::{Digits, Failure, TEXT_LIMIT, Text};
use std::alloc::Global;

/// What becomes of a byte.
#[derive(Clone, Copy)]
enum Becomes {
    Itself,
    Byte(u8),
    Nothing,
}

impl Becomes {
    /// What is written for this byte, and how many bytes of it count: one or none. Nothing depends on a byte's value but what is
    /// written, so that no jump has to be guessed.
    fn written(self, byte: u8) -> (u8, usize)
        ensures value { take result.1 (result.0 ∷ []) ≡ bytes_of self byte }
        ensures limit { result.1 ≤ 1 }
    {
        let written = match self {
            Becomes::Byte(other) => other,
            Becomes::Itself | Becomes::Nothing => byte,
        };
        let count = match self {
            Becomes::Nothing => 0,
            Becomes::Itself | Becomes::Byte(_) => 1,
        };
        (written, count)
    }
}

/// `$TRANSLATE`: each byte that stands in `from` becomes the byte of `to` at its first place there, or nothing where `to` has none.
pub fn translate(
    alloc: Global,
    text: &Text,
    from: &Text,
    to: Option<&Text>,
) -> Result<Text, Failure>
    ensures { Answers (Ok (translate_value text.now from.now (option_copied to.entry))) result }
{
    match to {
        Some(to) => translated(alloc, text, from, to),
        None => translated(alloc, text, from, &Text::new(alloc)),
    }
}

fn translated(alloc: Global, text: &Text, from: &Text, to: &Text) -> Result<Text, Failure>
    ensures { Answers (Ok (translate_value text.now from.now (Some to.now))) result }
{
    let mut digits = Digits::new();
    let mut from_digits = Digits::new();
    let mut to_digits = Digits::new();
    let from = from.bytes(&mut from_digits);
    translated_bytes(
        alloc,
        text.bytes(&mut digits),
        from,
        to.bytes(&mut to_digits),
    )
}

/// The text of what becomes of the bytes, where each of `from` becomes what stands at its place in `to`.
fn translated_bytes(alloc: Global, bytes: &[u8], from: &[u8], to: &[u8]) -> Result<Text, Failure>
    requires { length bytes.now ≤ TEXT_LIMIT }
    ensures { Answers (Ok (flat_map (becomes from.now to.now) bytes.now)) result }
{
    let table = table(from, to);
    if bytes.len() <= ROOM {
        return short(alloc, bytes, &table);
    }
    long(alloc, bytes, &table)
}

/// The text of what becomes of few bytes, which is put together without taking memory for it.
#[inline(never)]
fn short(alloc: Global, bytes: &[u8], table: &[Becomes; 256]) -> Result<Text, Failure>
    requires { length bytes.now ≤ ROOM }
    ensures { Answers (Ok (translated_by table.now bytes.now)) result }
{
    let mut made = [0; ROOM];
    let kept = write(bytes, table, &mut made);
    Text::from(alloc, &made[..kept])
}

/// The text of what becomes of more bytes, which is put together in memory of its own.
#[inline(never)]
fn long(alloc: Global, bytes: &[u8], table: &[Becomes; 256]) -> Result<Text, Failure>
    requires { length bytes.now ≤ TEXT_LIMIT }
    ensures { Answers (Ok (translated_by table.now bytes.now)) result }
{
    let mut made = Vec::from_slice(alloc, bytes)?;
    let room = made.as_mut_slice();
    let kept = write(bytes, table, room);
    Text::from(alloc, &room[..kept])
}

/// Writes what becomes of the bytes to the front of `made`. How many bytes that is.
fn write(bytes: &[u8], table: &[Becomes; 256], made: &mut [u8]) -> usize
    requires { length bytes.now ≤ length made.old }
    ensures limit { result ≤ length bytes.now }
    ensures value { take result made.new ≡ translated_by table.now bytes.now }
{
    let mut kept = 0;
    for byte in bytes {
        let (written, count) = table[*byte as usize].written(*byte);
        made[kept] = written;
        kept += count;
    }
    kept
}

/// What becomes of each byte. The first place counts, so that it is written last.
fn table(from: &[u8], to: &[u8]) -> [Becomes; 256]
    ensures { IsTable from.now to.now result }
{
    let mut table = [Becomes::Itself; 256];
    for place in (0..from.len()).rev() {
        table[from[place] as usize] = match to.get(place) {
            Some(byte) => Becomes::Byte(*byte),
            None => Becomes::Nothing,
        };
    }
    table
}
