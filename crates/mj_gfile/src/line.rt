// Lines are read.

ghost use Rattle.std.specs.Prelude.{◌≡◌, ◌∷◌, ◌+◌, ◌⊎◌, true, ℕ, List, length, IfOk, IfErr, MatchOption, Ok, Err};
ghost use Rattle.std.specs.Option.{option_copied, option_map};
ghost use Rattle.mj_text.specs.declared.limit.Limit.{Limit as SeenLimit};
ghost use Rattle.mj_subs.specs.Name.{Name as SeenName};
ghost use Rattle.mj_gfile.specs.declared.error.ReadError.TheVariants as error;
ghost use Rattle.mj_gfile.specs.Reading.{past_byte, value_of, line_of};
ghost use Rattle.mj_gfile.specs.Listing.{limited, is_small, is_short, is_small_node, value_field, node_field, lines_of, unended, is_after, judged};

use crate::error::ReadError;
use crate::field::Field;
use crate::name::read_name_in;
use crate::quoted::read_text;
use memchr::memchr;
use mj_subs::Name;
use mj_text::{Limit, Text};
use std::alloc::{AllocError, Global};

/// The first line, without its byte 10, and what follows that, or none where no byte 10 ends a line.
pub fn split_line(bytes: &[u8]) -> Option<(&[u8], &[u8])>
    ensures { MatchOption result (lines_of bytes.now ≡ unended bytes.now)
        (λ p. (lines_of bytes.now ≡ (p.0.now, true) ∷ lines_of p.1.now) × (length p.0.now + length p.1.now + 1 ≡ length bytes.now)) }
{
    let Some(place) = memchr(b'\n', bytes) else {
        return None;
    };
    Some((&bytes[..place], &bytes[place + 1..]))
}

/// What the line of this number says, behind a line with the name `last`.
pub fn read_node(
    alloc: Global,
    line: &[u8],
    number: usize,
    last: Option<&Name>,
    limit: Limit,
) -> Result<(Name, Text), ReadError>
    ensures ok { IfOk result (λ node. judged limit (option_copied last.entry) number (line_of line.now) ≡ Ok node) }
    ensures err { IfErr result (λ e. (e ≡ error.Memory) ⊎ (judged limit (option_copied last.entry) number (line_of line.now) ≡ Err e)) }
{
    match read_line(alloc, line, limit)? {
        None => Err(ReadError::Line(number)),
        Some(Field::Over) => Err(ReadError::Limit(number)),
        Some(Field::Within(node)) => {
            if is_after(last, &node.0) {
                Ok(node)
            } else {
                Err(ReadError::Order(number))
            }
        }
    }
}

// Whether a name stands after that of the line before, if there is one.
fn is_after(last: Option<&Name>, name: &Name) -> bool
    ensures { result ≡ is_after (option_copied last.entry) name.now }
{
    match last {
        None => true,
        Some(last) => last.cmp(name).is_lt(),
    }
}

// The name of a global and the text that a line spells.
fn read_line(
    alloc: Global,
    line: &[u8],
    limit: Limit,
) -> Result<Option<Field<(Name, Text)>>, AllocError>
    ensures { IfOk result (λ r. r ≡ node_field limit (line_of line.now)) }
{
    let Some(rest) = behind(line, b'^') else {
        return Ok(None);
    };
    let Some((name, tail)) = read_name_in(alloc, true, rest, limit)? else {
        return Ok(None);
    };
    let Some(text) = read_value(alloc, tail, limit)? else {
        return Ok(None);
    };
    Ok(Some(node_of(name, text)))
}

// A name and its text, if both are within the limits.
fn node_of(name: Field<Name>, text: Field<Text>) -> Field<(Name, Text)>
    ensures { (limit : SeenLimit) (n : SeenName) (t : List ℕ) → name ≡ limited (is_small limit n) n → text ≡ limited (is_short limit t) t
        → result ≡ limited (is_small_node limit (n, t)) (n, t) }
{
    match (name, text) {
        (Field::Within(name), Field::Within(text)) => Field::Within((name, text)),
        _ => Field::Over,
    }
}

// The text in listing quotes that stands behind `=` and is followed by nothing.
fn read_value(alloc: Global, bytes: &[u8], limit: Limit) -> Result<Option<Field<Text>>, AllocError>
    ensures { IfOk result (λ r. r ≡ value_field limit (value_of bytes.now)) }
{
    let Some(value) = behind(bytes, b'=') else {
        return Ok(None);
    };
    let Some((text, rest)) = read_text(alloc, value, limit)? else {
        return Ok(None);
    };
    if rest.is_empty() {
        Ok(Some(text))
    } else {
        Ok(None)
    }
}

// What follows a byte at the front, if that stands there.
fn behind(bytes: &[u8], byte: u8) -> Option<&[u8]>
    ensures { option_map (λ rest. rest.now) result ≡ past_byte byte bytes.now }
{
    let [first, rest @ ..] = bytes else {
        return None;
    };
    if *first == byte { Some(rest) } else { None }
}
