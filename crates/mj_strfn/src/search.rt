// The pieces of a text, found by searches for the separator.

ghost use Rattle.std.specs.Prelude.{◌≡◌, ◌≤◌, ◌<◌, ◌+◌, [], ◌∷◌, length, take, MatchOption};
ghost use Rattle.mj_strfn.specs.Pieces.{pieces, joined, IsBehind, IsBehindFirst};

use memchr::memchr;
use memchr::memmem::Finder;
use mj_text::TEXT_LIMIT;

// As many bytes as take less time one by one than a search of them begins with.
const NEAR: usize = 16;

/// How many pieces there are.
pub(crate) fn count(bytes: &[u8], separator: &[u8]) -> usize
    requires some { 0 < length separator.now }
    requires limit { length bytes.now ≤ TEXT_LIMIT }
    ensures value { result ≡ length (pieces separator.now bytes.now) }
    ensures limit { result ≤ length bytes.now + 1 }
{
    match separator {
        [byte] => count_by_byte(bytes, *byte),
        _ => count_by_search(bytes, separator),
    }
}

/// How many pieces a separator of one byte makes.
fn count_by_byte(bytes: &[u8], separator: u8) -> usize
    requires { length bytes.now ≤ TEXT_LIMIT }
    ensures value { result ≡ length (pieces (separator ∷ []) bytes.now) }
    ensures limit { result ≤ length bytes.now + 1 }
{
    let mut rest = bytes;
    let mut found: usize = 1;
    while let Some(more) = behind_byte(rest, separator) {
        rest = more;
        found += 1;
    }
    found
}

/// How many pieces any separator makes.
#[inline(never)]
fn count_by_search(bytes: &[u8], separator: &[u8]) -> usize
    requires some { 0 < length separator.now }
    requires limit { length bytes.now ≤ TEXT_LIMIT }
    ensures value { result ≡ length (pieces separator.now bytes.now) }
    ensures limit { result ≤ length bytes.now + 1 }
{
    let finder = Finder::new(separator);
    let mut rest = bytes;
    let mut ended: usize = 0;
    while let Some(more) = behind_first(rest, &finder) {
        rest = more;
        ended += 1;
    }
    ended + 1
}

/// What stands behind the first `skipped` pieces and their separators, if there are more pieces.
pub(crate) fn behind<'a>(bytes: &'a [u8], separator: &[u8], skipped: u64) -> Option<&'a [u8]>
    requires { 0 < length separator.now }
    ensures { MatchOption result (length (pieces separator.now bytes.now) ≤ skipped) (λ rest. IsBehind separator.now bytes.now skipped rest.now) }
{
    match separator {
        [byte] => behind_by_byte(bytes, *byte, skipped),
        _ => behind_by_search(bytes, separator, skipped),
    }
}

/// What stands behind so many occurrences of a separator of one byte.
fn behind_by_byte(bytes: &[u8], separator: u8, skipped: u64) -> Option<&[u8]>
    ensures { MatchOption result (length (pieces (separator ∷ []) bytes.now) ≤ skipped) (λ rest. IsBehind (separator ∷ []) bytes.now skipped rest.now) }
{
    let mut rest = bytes;
    for _piece in 0..skipped {
        rest = behind_byte(rest, separator)?;
    }
    Some(rest)
}

/// What stands behind the first occurrence of a separator of one byte. It is often near: the next few bytes are looked at one by one.
fn behind_byte(bytes: &[u8], separator: u8) -> Option<&[u8]>
    ensures { MatchOption result (length (pieces (separator ∷ []) bytes.now) ≡ 1) (λ rest. IsBehindFirst (separator ∷ []) bytes.now rest.now) }
{
    let near = bytes.len().min(NEAR);
    for place in 0..near {
        if bytes[place] == separator {
            return Some(&bytes[place + 1..]);
        }
    }
    let place = near + memchr(separator, &bytes[near..])?;
    Some(&bytes[place + 1..])
}

/// What stands behind so many occurrences of any separator. A searcher has a room that is cleared where a function begins that has it, so this lies apart.
#[inline(never)]
fn behind_by_search<'a>(bytes: &'a [u8], separator: &[u8], skipped: u64) -> Option<&'a [u8]>
    requires { 0 < length separator.now }
    ensures { MatchOption result (length (pieces separator.now bytes.now) ≤ skipped) (λ rest. IsBehind separator.now bytes.now skipped rest.now) }
{
    let finder = Finder::new(separator);
    let mut rest = bytes;
    for _piece in 0..skipped {
        rest = behind_first(rest, &finder)?;
    }
    Some(rest)
}

/// What stands behind the first occurrence of the separator.
fn behind_first<'a>(bytes: &'a [u8], separator: &Finder) -> Option<&'a [u8]>
    requires { 0 < length separator.now }
    ensures { MatchOption result (length (pieces separator.now bytes.now) ≡ 1) (λ rest. IsBehindFirst separator.now bytes.now rest.now) }
{
    let place = separator.find(bytes)?;
    Some(&bytes[place + separator.needle().len()..])
}

/// The first `wanted` pieces, all where there are no more.
pub(crate) fn front<'a>(bytes: &'a [u8], separator: &[u8], wanted: u64) -> &'a [u8]
    requires some { 0 < length separator.now }
    requires wanted { 0 < wanted }
    ensures value { result.now ≡ joined separator.now (take wanted (pieces separator.now bytes.now)) }
    ensures limit { length result.now ≤ length bytes.now }
{
    match behind(bytes, separator, wanted) {
        Some(rest) => &bytes[..bytes.len() - rest.len() - separator.len()],
        None => bytes,
    }
}
