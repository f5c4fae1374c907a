// Which reason a refusal has: where the line can't go on, and what is said of it.

ghost use Rattle.std.specs.Prelude.{◌≡◌};
ghost use Rattle.mj_reasons.specs.Reasons.{at_end as the_end, is_unended as the_unended, listing_header as the_listing_header, newlines as the_newlines};
ghost use Rattle.mj_reasons.specs.Reasons.{begins_newline as the_begins_newline, is_returned as the_returned, returns_at as the_returns_at};
ghost use Rattle.mj_reasons.specs.Reasons.{limit_reason as the_limit_reason, unended_reason as the_unended_reason};
ghost use Rattle.mj_reasons.specs.Reasons.{node_reason as the_node_reason, over_limit as the_over_limit, plain as the_plain};
ghost use Rattle.mj_reasons.specs.Reasons.{steps_reason as the_steps_reason, told_at as the_told_at, trace_header as the_trace_header};
ghost use Rattle.mj_reasons.specs.Reasons.{fields_reason as the_fields_reason, has_places as the_places, trace_reason as the_trace_reason, word_end as the_word_end};

use crate::fields::{begins_run, field_wanted};
use crate::part::{Part, is_whole, reached};
use crate::words::Said;
use mj_hints::line_at;

/// Why a line is refused.
#[derive(Clone, Copy)]
pub struct Reason {
    /// how many bytes of it stand before a caret, if there is to be one
    pub at: Option<usize>,
    /// what is said of it
    pub said: Said,
}

/// The reason that is told of a whole line.
pub fn plain(said: Said) -> Reason
    ensures { result ≡ the_plain said }
{
    Reason { at: None, said }
}

// The reason that is told behind so many bytes of a line.
fn told_at(at: usize, said: Said) -> Reason
    ensures { result ≡ the_told_at at said }
{
    Reason { at: Some(at), said }
}

// What is said where a line is one but for its end.
fn at_end(line: &[u8]) -> Reason
    ensures { result ≡ the_end line.now }
{
    told_at(line.len(), Said::Ends)
}

/// Why the first line isn't the header of a listing.
pub fn listing_header(line: &[u8]) -> Reason
    ensures { result ≡ the_listing_header line.now }
{
    if line == b"mj-globals 2".as_slice() || line == b"mj-globals 1".as_slice() {
        at_end(line)
    } else {
        plain(Said::Listing)
    }
}

/// Why the first line isn't the header of a trace.
pub fn trace_header(line: &[u8]) -> Reason
    ensures { result ≡ the_trace_header line.now }
{
    if line == b"mj-trace 2".as_slice() || line == b"mj-trace 1".as_slice() {
        at_end(line)
    } else {
        plain(Said::Trace)
    }
}

/// Why the line of this number isn't one of a listing.
pub fn node_reason(text: &[u8], number: usize, line: &[u8]) -> Reason
    ensures { result ≡ the_node_reason text.now number line.now }
{
    let (at, part) = reached(Part::Caret, line);
    if at < line.len() || !is_whole(part) {
        told_at(at, Said::Wanted(part))
    } else if is_unended(text, number) {
        at_end(line)
    } else {
        plain(Said::Node)
    }
}

/// Which limit a line of a listing is over.
pub fn over_limit(line: &[u8]) -> Reason
    ensures { result ≡ the_over_limit line.now }
{
    if word_end(line) > 32 {
        told_at(32, Said::LongWord)
    } else {
        plain(Said::LongNode)
    }
}

// How many bytes stand before the subscripts and the value.
fn word_end(line: &[u8]) -> usize
    ensures { result ≡ the_word_end line.now }
{
    line.iter()
        .take_while(|byte| **byte != b'(' && **byte != b'=')
        .count()
}

/// Why a line isn't one of a file of steps.
pub fn steps_reason(line: &[u8]) -> Reason
    ensures { result ≡ the_steps_reason line.now }
{
    let (at, part) = reached(Part::Job, line);
    if at < line.len() || !is_whole(part) {
        told_at(at, Said::Wanted(part))
    } else {
        told_at(line.len(), Said::Returned)
    }
}

/// Why the line of this number isn't one of a trace.
pub fn trace_reason(text: &[u8], number: usize, line: &[u8]) -> Reason
    ensures { result ≡ the_trace_reason text.now number line.now }
{
    let placed = has_places(text);
    if placed && number == 2 {
        return limit_reason(line);
    }
    if is_unended(text, number) {
        return unended_reason(line);
    }
    if !line.is_empty() && is_returned(text, number) {
        return at_end(line);
    }
    let (at, said) = field_wanted(placed, line);
    fields_reason(text, number, at, said)
}

// Why the second line isn't that of a limit.
fn limit_reason(line: &[u8]) -> Reason
    ensures { result ≡ the_limit_reason line.now }
{
    if line == b"limit 1048576".as_slice() || line == b"limit 32767".as_slice() {
        at_end(line)
    } else {
        told_at(0, Said::Limit)
    }
}

// Why a line is refused that no byte 10 ends. Where there is none, the first start is missing.
fn unended_reason(line: &[u8]) -> Reason
    ensures { result ≡ the_unended_reason line.now }
{
    if line.is_empty() {
        told_at(0, Said::Start)
    } else {
        at_end(line)
    }
}

// Whether events have places.
fn has_places(text: &[u8]) -> bool
    ensures { result ≡ the_places text.now }
{
    line_at(text, 0) == b"mj-trace 2".as_slice()
}

// Why the line of this number isn't one, by what is wanted behind so many bytes of it. An event before which no start stands is none.
fn fields_reason(text: &[u8], number: usize, at: usize, said: Said) -> Reason
    ensures { result ≡ the_fields_reason text.now number (at, said) }
{
    if at > 0 && !begins_run(line_at(text, number.saturating_sub(2))) {
        told_at(0, Said::Start)
    } else {
        told_at(at, said)
    }
}

// Whether no byte 10 ends the line of this number.
fn is_unended(text: &[u8], number: usize) -> bool
    ensures { result ≡ the_unended text.now number }
{
    newlines(text) < number
}

// Whether a byte 13 stands before the byte 10 that ends the line of this number.
fn is_returned(text: &[u8], number: usize) -> bool
    ensures { result ≡ the_returned text.now number }
{
    returns_at(text, number.saturating_sub(1))
}

// Whether it is so of the line at this place, which counts from 0.
fn returns_at(text: &[u8], at: usize) -> bool
    ensures { result ≡ the_returns_at at text.now }
{
    let mut place = at;
    let mut rest = text;
    'bytes: while let [byte, behind @ ..] = rest {
        if *byte == b'\n' {
            if place == 0 {
                return false;
            }
            place -= 1;
        } else if place == 0 && *byte == b'\r' && begins_newline(behind) {
            return true;
        }
        rest = behind;
    }
    false
}

// Whether a byte 10 comes first.
fn begins_newline(bytes: &[u8]) -> bool
    ensures { result ≡ the_begins_newline bytes.now }
{
    match bytes {
        [] => false,
        [first, ..] => *first == b'\n',
    }
}

// How many bytes 10 there are.
fn newlines(text: &[u8]) -> usize
    ensures { result ≡ the_newlines text.now }
{
    let mut count = 0;
    let mut rest = text;
    'bytes: while let [byte, behind @ ..] = rest {
        if *byte == b'\n' {
            count += 1;
        }
        rest = behind;
    }
    count
}
