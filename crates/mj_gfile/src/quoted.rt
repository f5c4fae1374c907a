// Texts in listing quotes are read.

ghost use Rattle.std.specs.Prelude.{◌≡◌, ℕ, ◌<◌, if◌then◌else◌, length, true, false, None, Some, IfOk, IfSome};
ghost use Rattle.std.specs.Option.{option_map};
ghost use Rattle.mj_gfile.specs.Spelling.{is_shown};
ghost use Rattle.mj_gfile.specs.Reading.{Whole, Quote, Slash, Digit, digit_value, is_digit_byte, quoted_at, text_at};
ghost use Rattle.mj_gfile.specs.Listing.{limited, is_short, text_field};
ghost use Rattle.mj_gfile.specs.Units.{IsUnit, unit_of, IsUnitOf};

use crate::field::Field;
use mj_text::{Limit, Text};
use std::alloc::{AllocError, Global};

/// The text in listing quotes at the front of some bytes, and what follows it, or none where none stands there.
pub fn read_text<'a>(
    alloc: Global,
    bytes: &'a [u8],
    limit: Limit,
) -> Result<Option<(Field<Text>, &'a [u8])>, AllocError>
    ensures { IfOk result (λ r. option_map (λ p. (p.0, p.1.now)) r ≡ text_field limit (text_at bytes.now)) }
{
    let [b'"', inner @ ..] = bytes else {
        return Ok(None);
    };
    let Some((text, rest)) = read_quoted(alloc, inner)? else {
        return Ok(None);
    };
    let text = short_text(alloc, text.as_slice(), limit)?;
    Ok(Some((text, rest)))
}

/// The text up to the closing quote, and what follows that.
pub(crate) fn read_quoted<'a>(
    alloc: Global,
    bytes: &'a [u8],
) -> Result<Option<(Vec<u8>, &'a [u8])>, AllocError>
    ensures { IfOk result (λ r. option_map (λ p. (p.0.items, p.1.now)) r ≡ quoted_at Whole bytes.now) }
{
    let mut text = Vec::new(alloc);
    let mut rest = bytes;
    while let Some((unit, behind)) = read_unit(rest) {
        let Some(byte) = unit else {
            return Ok(Some((text, behind)));
        };
        text.push(byte)?;
        rest = behind;
    }
    Ok(None)
}

// The byte of a text that is spelled at the front, or none where the closing quote stands there, and what follows it.
fn read_unit(bytes: &[u8]) -> Option<(Option<u8>, &[u8])>
    ensures { IsUnitOf (quoted_at Whole bytes.now) bytes.now (option_map (λ p. (p.0, p.1.now)) result) }
{
    let [first, rest @ ..] = bytes else {
        return None;
    };
    match *first {
        b'"' => Some(read_behind_quote(rest)),
        b'\\' => read_behind_slash(rest),
        b' '..=b'~' => Some((Some(*first), rest)),
        _ => None,
    }
}

// What a quote begins, by what stands behind it: a second one spells a quote, and else it closes the text.
fn read_behind_quote(bytes: &[u8]) -> (Option<u8>, &[u8])
    ensures { IsUnit (quoted_at Quote bytes.now) bytes.now (result.0, result.1.now) }
{
    match bytes {
        [b'"', rest @ ..] => (Some(b'"'), rest),
        _ => (None, bytes),
    }
}

// What a backslash begins, by what stands behind it: a second one spells a backslash, and two digits a byte without a sign.
fn read_behind_slash(bytes: &[u8]) -> Option<(Option<u8>, &[u8])>
    ensures { IsUnitOf (quoted_at Slash bytes.now) bytes.now (option_map (λ p. (p.0, p.1.now)) result) }
{
    let [first, rest @ ..] = bytes else {
        return None;
    };
    if *first == b'\\' {
        return Some((Some(b'\\'), rest));
    }
    read_behind_digit(digit_value(*first)?, rest)
}

// What a backslash and a digit of this value begin: with a second digit they spell a byte without a sign.
fn read_behind_digit(high: u8, bytes: &[u8]) -> Option<(Option<u8>, &[u8])>
    requires { high < 16 }
    ensures { (digit : ℕ) → high ≡ digit_value digit
        → IsUnitOf (quoted_at (Digit digit) bytes.now) bytes.now (option_map (λ p. (p.0, p.1.now)) result) }
{
    let [low, rest @ ..] = bytes else {
        return None;
    };
    match 16 * high + digit_value(*low)? {
        b' '..=b'~' => None,
        byte => Some((Some(byte), rest)),
    }
}

// The value of a hexadecimal digit in lower case.
fn digit_value(byte: u8) -> Option<u8>
    ensures value { result ≡ (if is_digit_byte byte then Some (digit_value byte) else None) }
    ensures limit { IfSome result (λ value. value < 16) }
{
    match byte {
        b'0'..=b'9' => Some(byte - b'0'),
        b'a'..=b'f' => Some(byte - (b'a' - 10)),
        _ => None,
    }
}

/// A text of these bytes, if it is within this limit.
pub(crate) fn short_text(
    alloc: Global,
    bytes: &[u8],
    limit: Limit,
) -> Result<Field<Text>, AllocError>
    ensures { IfOk result (λ text. text ≡ limited (is_short limit bytes.now) bytes.now) }
{
    if bytes.len() > limit.bytes() {
        return Ok(Field::Over);
    }
    Ok(Field::Within(text_of(alloc, bytes)?))
}

/// A text of bytes that are within the limit of one.
pub(crate) fn text_of(alloc: Global, bytes: &[u8]) -> Result<Text, AllocError>
    ensures { IfOk result (λ text. text ≡ bytes.now) }
{
    match Text::from(alloc, bytes) {
        Ok(text) => Ok(text),
        Err(_) => Err(AllocError),
    }
}
