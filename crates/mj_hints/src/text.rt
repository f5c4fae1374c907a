// The lines of a text.

ghost use Rattle.std.specs.Prelude.{◌≡◌, ◌∷◌, ◌++◌, ◌≤◌, ◌<◌, [], IfNone, IfOk, IfSome, MatchOption, drop, length, position};
ghost use Rattle.mj_ast.specs.Routines.{lines_of};
ghost use Rattle.mj_hints.specs.Refusals.{IsCutBehind, IsEmptied, IsOneLine, line_at as the_line, only_line};

use mj_rou::{newline, stripped};
use std::alloc::{AllocError, Global};

/// The text in which the line at this place, which counts from 0, is empty.
pub fn with_empty(alloc: Global, bytes: &[u8], place: usize) -> Result<Vec<u8>, AllocError>
    ensures { IfOk result (λ text. IsEmptied place bytes.now text.items) }
{
    let Some((front, rest)) = cut_behind(bytes, place) else {
        let text = Vec::from_slice(alloc, bytes)?;
        return Ok(text);
    };
    let (_line, behind) = first_line(rest);
    let text = joined(alloc, front, behind)?;
    Ok(text)
}

// The first of these bytes, a byte 10, and the others.
fn joined(alloc: Global, front: &[u8], behind: &[u8]) -> Result<Vec<u8>, AllocError>
    ensures { IfOk result (λ text. text.items ≡ (front.now ++ 10 ∷ []) ++ behind.now) }
{
    let mut text = Vec::new(alloc);
    text.extend_from_slice(front)?;
    text.push(b'\n')?;
    text.extend_from_slice(behind)?;
    Ok(text)
}

/// The line at this place, which counts from 0, without its end, or nothing where there are fewer.
pub fn line_at(bytes: &[u8], place: usize) -> &[u8]
    ensures { result.now ≡ the_line place bytes.now }
{
    match cut_behind(bytes, place) {
        Some((_front, rest)) => {
            let (line, _behind) = first_line(rest);
            line
        }
        None => &bytes[bytes.len()..],
    }
}

// The bytes of so many lines, and those behind them, where there are some.
fn cut_behind(bytes: &[u8], place: usize) -> Option<(&[u8], &[u8])>
    ensures cut { MatchOption result (length (lines_of bytes.now) ≤ place) (λ x. IsCutBehind place bytes.now x.0.now x.1.now) }
    ensures some { IfSome result (λ x. 0 < length x.1.now) }
{
    let mut rest = bytes;
    let mut count = 0;
    'lines: while count < place {
        let Some((_line, behind)) = cut(rest) else {
            return None;
        };
        rest = behind;
        count += 1;
    }
    if rest.is_empty() {
        return None;
    }
    Some((&bytes[..bytes.len() - rest.len()], rest))
}

// The first line, without its end, and what stands behind it.
fn first_line(bytes: &[u8]) -> (&[u8], &[u8])
    requires { 0 < length bytes.now }
    ensures { lines_of bytes.now ≡ result.0.now ∷ lines_of result.1.now }
{
    match cut(bytes) {
        Some((line, behind)) => (stripped(line), behind),
        None => (bytes, &bytes[bytes.len()..]),
    }
}

// The bytes before the first byte 10, and those behind it.
fn cut(bytes: &[u8]) -> Option<(&[u8], &[u8])>
    ensures last { IfNone result (lines_of bytes.now ≡ only_line bytes.now) }
    ensures one { IfSome result (λ x. IsOneLine x.0.now) }
    ensures all { IfSome result (λ x. bytes.now ≡ (x.0.now ++ 10 ∷ []) ++ x.1.now) }
    ensures shorter { IfSome result (λ x. length x.1.now < length bytes.now) }
{
    match newline(bytes) {
        None => None,
        Some(end) => Some((&bytes[..end], &bytes[end + 1..])),
    }
}

/// The bytes behind the first, so many of them as there are.
pub fn from(bytes: &[u8], count: usize) -> &[u8]
    ensures { result.now ≡ drop count bytes.now }
{
    if count < bytes.len() {
        &bytes[count..]
    } else {
        &bytes[bytes.len()..]
    }
}
