// Numbers, texts and subscripts at the front of some bytes, with what follows them.

ghost use Rattle.std.specs.Prelude.{◌≡◌, ◌<◌, ◌^◌, IfOk, IfSome};
ghost use Rattle.std.specs.Option.{option_map};
ghost use Rattle.mj_trace.specs.Reading.{number_in, count_in, code_in, spot_in, text_in, subscript_in};

use crate::run::{Run, begins_with, skip, split};
use mj_ask::Spot;
use mj_gfile::{Field, read_subscript, read_text};
use mj_num::Num;
use mj_subs::{Sub, is_word};
use mj_text::{Limit, Text};
use std::alloc::{AllocError, Global};

/// What stands at the front of some bytes, and what follows it, or none where none stands there.
pub(crate) type Found<'a, T> = Option<(T, &'a [u8])>;

/// Reads the number at the front.
pub(crate) fn read_number(bytes: &[u8]) -> Found<'_, Num>
    ensures { option_map (λ p. (p.0, p.1.now)) result ≡ number_in bytes.now }
{
    let (digits, rest) = split(bytes, Run::Number);
    match Num::read_bytes(digits) {
        Ok(number) => Some((number, rest)),
        Err(_) => None,
    }
}

/// Reads the count at the front.
pub(crate) fn read_count(bytes: &[u8]) -> Found<'_, u32>
    ensures { option_map (λ p. (p.0, p.1.now)) result ≡ count_in bytes.now }
{
    let Some((number, rest)) = read_number(bytes) else {
        return None;
    };
    match u32::try_from(number.value()) {
        Ok(count) => Some((count, rest)),
        Err(_) => None,
    }
}

/// Finds where an ask came from at the front: nothing, or a line of a routine.
pub(crate) fn find_spot<'a>(
    alloc: Global,
    bytes: &'a [u8],
) -> Result<Found<'a, Option<Spot>>, AllocError>
    ensures { IfOk result (λ r. option_map (λ p. (p.0, p.1.now)) r ≡ spot_in bytes.now) }
{
    if begins_with(b'-', bytes) {
        return Ok(Some((None, skip(bytes))));
    }
    let (word, rest) = split(bytes, Run::Word);
    if !is_word(word) {
        return Ok(None);
    }
    let Some((line, rest)) = read_count(skip(rest)) else {
        return Ok(None);
    };
    // a word is no longer than a text may be
    let Ok(routine) = Text::from(alloc, word) else {
        return Err(AllocError);
    };
    Ok(Some((Some(Spot { routine, line }), rest)))
}

/// Reads the code of a byte at the front.
pub(crate) fn read_code(bytes: &[u8]) -> Found<'_, u8>
    ensures { option_map (λ p. (p.0, p.1.now)) result ≡ code_in bytes.now }
{
    let Some((number, rest)) = read_number(bytes) else {
        return None;
    };
    match u8::try_from(number.value()) {
        Ok(code) => Some((code, rest)),
        Err(_) => None,
    }
}

/// Finds the text in listing quotes at the front.
pub(crate) fn find_text<'a>(alloc: Global, bytes: &'a [u8]) -> Result<Found<'a, Text>, AllocError>
    ensures { IfOk result (λ r. option_map (λ p. (p.0, p.1.now)) r ≡ text_in bytes.now) }
{
    let Some((field, rest)) = read_text(alloc, bytes, Limit::V2)? else {
        return Ok(None);
    };
    match field {
        Field::Within(text) => Ok(Some((text, rest))),
        Field::Over => Ok(None),
    }
}

/// Finds the subscript at the front: a text in listing quotes, the empty one too, or a number.
pub(crate) fn find_subscript<'a>(
    alloc: Global,
    bytes: &'a [u8],
) -> Result<Found<'a, Sub>, AllocError>
    ensures { IfOk result (λ r. option_map (λ p. (p.0, p.1.now)) r ≡ subscript_in bytes.now) }
{
    if begins_with(b'"', bytes) {
        return match find_text(alloc, bytes)? {
            Some((text, rest)) => Ok(Some((Sub::from_text(text), rest))),
            None => Ok(None),
        };
    }
    let Some((field, rest)) = read_subscript(alloc, bytes, Limit::V2)? else {
        return Ok(None);
    };
    match field {
        Field::Within(sub) => Ok(Some((sub, rest))),
        Field::Over => Ok(None),
    }
}
