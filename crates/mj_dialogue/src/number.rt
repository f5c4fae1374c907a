// Numbers, which are spelled in one way.

ghost use Rattle.std.specs.Prelude.{◌≡◌, ◌<◌, ◌↔◌, ◌^◌, ℕ, Some, IsTrue, decimal, IfSome, IfNone};

use itoa::Buffer;
use std::str;

/// Reads a number in decimal without leading zeros, up to 4,294,967,295.
pub fn count_of(digits: &[u8]) -> Option<u32>
    ensures some { IfSome result (λ count. digits.now ≡ decimal count) }
    ensures none { IfNone result ((count : ℕ) → count < 2 ^ 32 → ¬ (digits.now ≡ decimal count)) }
{
    let Some(count) = number(digits) else {
        return None;
    };
    if !is_spelled(count, digits) {
        return None;
    }
    Some(count)
}

// What some bytes are read as.
fn number(digits: &[u8]) -> Option<u32>
    ensures { (count : ℕ) → count < 2 ^ 32 → digits.now ≡ decimal count → result ≡ Some count }
{
    let Ok(text) = str::from_utf8(digits) else {
        return None;
    };
    match text.parse() {
        Ok(count) => Some(count),
        Err(_) => None,
    }
}

// Whether the number is spelled so.
fn is_spelled(count: u32, digits: &[u8]) -> bool
    ensures { IsTrue result ↔ (digits.now ≡ decimal count) }
{
    let mut buffer = Buffer::new();
    buffer.format(count).as_bytes() == digits
}
