// The fields of a line of a trace.

ghost use Rattle.std.specs.Prelude.{◌≡◌, ◌≤◌, length};
ghost use Rattle.std.specs.List.{list_all};
ghost use Rattle.mj_reasons.specs.Parts.{is_digit as the_digit};
ghost use Rattle.mj_reasons.specs.Fields.{ask_wanted as the_ask_wanted, begins_run as the_begins_run, field_wanted as the_field_wanted};
ghost use Rattle.mj_reasons.specs.Fields.{is_number as the_number, is_place as the_place, is_spot as the_spot, is_spot_at as the_spot_at, is_word_byte};
ghost use Rattle.mj_reasons.specs.Fields.{is_small as the_small, is_routine as the_routine, leads as the_leads, no_colons};
ghost use Rattle.mj_reasons.specs.Fields.{place_wanted as the_place_wanted, word_length as the_word_length};

use crate::asks::ask_named;
use crate::part::{is_digit, is_letter};
use crate::words::Said;

/// How many bytes of a line stand before what is wanted otherwise, and what is wanted there, in a form whose events have places or not.
pub fn field_wanted(placed: bool, line: &[u8]) -> (usize, Said)
    ensures { result ≡ the_field_wanted placed line.now }
{
    let end = word_length(line);
    let word = &line[..end];
    if word == b"pool".as_slice() {
        (0, Said::Pool)
    } else if word == b"start".as_slice() {
        (0, Said::Start)
    } else if !is_number(word) {
        (0, Said::First)
    } else if placed {
        place_wanted(line, end)
    } else {
        ask_wanted(line, end)
    }
}

// What is wanted behind the number of a job, which ends there: where it asked from.
fn place_wanted(line: &[u8], end: usize) -> (usize, Said)
    requires { end ≤ length line.now }
    ensures { result ≡ the_place_wanted line.now end }
{
    if end == line.len() {
        return (end, Said::Place);
    }
    let rest = &line[end + 1..];
    let count = word_length(rest);
    if is_place(&rest[..count]) {
        ask_wanted(line, end + 1 + count)
    } else {
        (end + 1, Said::Place)
    }
}

// What is wanted behind the place: what was asked.
fn ask_wanted(line: &[u8], end: usize) -> (usize, Said)
    requires { end ≤ length line.now }
    ensures { result ≡ the_ask_wanted line.now end }
{
    if end == line.len() {
        return (end, Said::Asks);
    }
    let rest = &line[end + 1..];
    let count = word_length(rest);
    match ask_named(&rest[..count]) {
        Some(asked) => (end + 1, Said::Ask(asked)),
        None => (end + 1, Said::Asks),
    }
}

/// Whether a line begins as one of a start or of an event does.
pub fn begins_run(line: &[u8]) -> bool
    ensures { result ≡ the_begins_run line.now }
{
    let word = &line[..word_length(line)];
    word == b"start".as_slice() || is_number(word)
}

// How many bytes stand before the first blank.
fn word_length(line: &[u8]) -> usize
    ensures value { result ≡ the_word_length line.now }
    ensures within { result ≤ length line.now }
{
    line.iter().take_while(|byte| **byte != b' ').count()
}

// Whether a word is a decimal number, at most 4294967295.
#[tactic(auto, unfolding(crate::specs::Fields::is_number))]
fn is_number(word: &[u8]) -> bool
    ensures { result ≡ the_number word.now }
{
    word == b"0".as_slice() || (leads(word) && are_digits(word) && is_small(word))
}

// Whether the first byte may be the first of several digits.
fn leads(word: &[u8]) -> bool
    ensures { result ≡ the_leads word.now }
{
    match word {
        [] => false,
        [first, ..] => *first != b'0',
    }
}

// Whether all bytes are digits.
fn are_digits(word: &[u8]) -> bool
    ensures { result ≡ list_all the_digit word.now }
{
    word.iter().all(|byte| is_digit(*byte))
}

// Whether digits spell no number above 4294967295.
#[tactic(auto, unfolding(crate::specs::Fields::is_small))]
fn is_small(word: &[u8]) -> bool
    ensures { result ≡ the_small word.now }
{
    word.len() < 10 || (word.len() == 10 && word.cmp(b"4294967295".as_slice()).is_le())
}

// Whether a word is a place: `-`, or that of a line.
fn is_place(word: &[u8]) -> bool
    ensures { result ≡ the_place word.now }
{
    word == b"-".as_slice() || is_spot(word)
}

// Whether a word is a routine, a `:` and a number.
fn is_spot(word: &[u8]) -> bool
    ensures { result ≡ the_spot word.now }
{
    is_spot_at(word, no_colons(word))
}

// Whether it is so with a `:` behind so many bytes.
fn is_spot_at(word: &[u8], count: usize) -> bool
    ensures { result ≡ the_spot_at count word.now }
{
    count < word.len() && is_routine(&word[..count]) && is_number(&word[count + 1..])
}

// Whether a word is the name of a routine.
fn is_routine(word: &[u8]) -> bool
    ensures { result ≡ the_routine word.now }
{
    match word {
        [] => false,
        [first, rest @ ..] => {
            (is_letter(*first) || *first == b'%') && has_word_bytes(rest) && rest.len() < 31
        }
    }
}

// Whether all bytes are letters or digits.
fn has_word_bytes(bytes: &[u8]) -> bool
    ensures { result ≡ list_all is_word_byte bytes.now }
{
    bytes.iter().all(|byte| is_letter(*byte) || is_digit(*byte))
}

// How many bytes stand before the first `:`.
fn no_colons(word: &[u8]) -> usize
    ensures value { result ≡ no_colons word.now }
    ensures within { result ≤ length word.now }
{
    word.iter().take_while(|byte| **byte != b':').count()
}
