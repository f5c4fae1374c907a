// The digits of a text, and which texts are canonic.

ghost use Rattle.std.specs.Prelude.{◌≡◌, ◌<◌, ◌^◌, SomeIff};
ghost use Rattle.std.specs.List.{list_all};
ghost use Rattle.std.specs.Char.{is_ascii_digit};
ghost use Rattle.mj_num.specs.Number.{is_magnitude, is_canonic as canonic_test, number_with_digits};

use mj_text::{Digits, Text};

/// The greatest number of digits of a number.
const DIGITS_LIMIT: usize = 18;

/// The least number above the range.
const PAST_RANGE: u64 = 1_000_000_000_000_000_000;

/// The number of the digits at the front, where it is in range. Leading zeros don't count, and a long text is read to its
/// last digit at most.
pub(crate) fn magnitude(bytes: &[u8]) -> Option<u64>
    ensures { SomeIff result (number_with_digits 0 bytes.now < 10 ^ 18) (number_with_digits 0 bytes.now) }
{
    let mut number: u64 = 0;
    for byte in bytes {
        if !byte.is_ascii_digit() {
            return Some(number);
        }
        number = 10 * number + u64::from(*byte - b'0');
        if number >= PAST_RANGE {
            return None;
        }
    }
    Some(number)
}

/// Whether each byte is a digit.
fn are_digits(bytes: &[u8]) -> bool
    ensures { result ≡ list_all is_ascii_digit bytes.now }
{
    bytes.iter().all(|b| b.is_ascii_digit())
}

/// Whether these are one to eighteen digits without a leading zero.
fn is_magnitude(bytes: &[u8]) -> bool
    ensures { result ≡ is_magnitude bytes.now }
{
    match bytes {
        [] | [b'0', ..] => false,
        _ => bytes.len() <= DIGITS_LIMIT && are_digits(bytes),
    }
}

/// Whether the bytes are the spelling of a number.
pub fn is_canonic_bytes(bytes: &[u8]) -> bool
    ensures { result ≡ canonic_test bytes.now }
{
    match bytes {
        [b'0'] => true,
        [b'-', digits @ ..] => is_magnitude(digits),
        _ => is_magnitude(bytes),
    }
}

/// Whether the text is the spelling of a number.
pub fn is_canonic(text: &Text) -> bool
    ensures { result ≡ canonic_test text.now }
{
    match text.number() {
        Some(_) => true,
        None => is_canonic_spelled(text),
    }
}

/// Whether a text that isn't kept as a number is the spelling of one. It lies apart, so that the room of a spelling isn't cleared where none is needed.
#[inline(never)]
fn is_canonic_spelled(text: &Text) -> bool
    ensures { result ≡ canonic_test text.now }
{
    is_canonic_bytes(text.bytes(&mut Digits::new()))
}
