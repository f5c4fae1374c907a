// Subscripts and names are read.

ghost use Rattle.std.specs.Prelude.{◌≡◌, ◌++◌, ◌∷◌, [], ℕ, List, length, IfOk};
ghost use Rattle.std.specs.Option.{option_map};
ghost use Rattle.mj_text.specs.declared.limit.Limit.{Limit as SeenLimit};
ghost use Rattle.std.specs.Char.{is_ascii_alphanumeric};
ghost use Rattle.std.specs.List.{list_all};
ghost use Rattle.mj_gfile.specs.Spelling.{is_any_word};
ghost use Rattle.mj_gfile.specs.Reading.{front_by, rest_by, is_number_byte, is_word_byte, subscript_at, mark_at, item_at, subscripts_at, name_in, name_at};
ghost use Rattle.mj_gfile.specs.Listing.{limited, is_short, are_small, is_small, text_field, item_field, subscripts_field, name_field, name};

use crate::field::Field;
use crate::quoted::{read_quoted, short_text, text_of};
use mj_num::is_canonic_bytes;
use mj_subs::{Name, SUBSCRIPTS_LIMIT, Sub, Subs, WORD_LIMIT};
use mj_text::{Limit, Text};
use std::alloc::{AllocError, Global};

/// The name at the front of some bytes, as a listing has it, and what follows it, or none where none stands there.
pub fn read_name<'a>(
    alloc: Global,
    bytes: &'a [u8],
    limit: Limit,
) -> Result<Option<(Field<Name>, &'a [u8])>, AllocError>
    ensures { IfOk result (λ r. option_map (λ p. (p.0, p.1.now)) r ≡ name_field limit (name_at bytes.now)) }
{
    match bytes {
        [b'^', rest @ ..] => read_name_in(alloc, true, rest, limit),
        _ => read_name_in(alloc, false, bytes, limit),
    }
}

/// The name of this kind at the front of some bytes, behind its `^`, and what follows it, or none where none stands there.
pub(crate) fn read_name_in<'a>(
    alloc: Global,
    global: bool,
    bytes: &'a [u8],
    limit: Limit,
) -> Result<Option<(Field<Name>, &'a [u8])>, AllocError>
    ensures { IfOk result (λ r. option_map (λ p. (p.0, p.1.now)) r ≡ name_field limit (name_in global bytes.now)) }
{
    let (word, behind) = split_word(bytes);
    if !is_any_word(word) {
        return Ok(None);
    }
    let (subs, rest) = match behind {
        [b'(', list @ ..] => match read_subscripts(alloc, list, limit)? {
            Some(read) => read,
            None => return Ok(None),
        },
        _ => (Field::Within(Subs::new(alloc)), behind),
    };
    let name = name_of(alloc, global, word, subs)?;
    Ok(Some((name, rest)))
}

// A name of this kind, if it is within the limits.
fn name_of(
    alloc: Global,
    global: bool,
    word: &[u8],
    subs: Field<Subs>,
) -> Result<Field<Name>, AllocError>
    ensures { (limit : SeenLimit) (list : List (List ℕ)) → subs ≡ limited (are_small limit list) list
        → IfOk result (λ n. n ≡ limited (is_small limit (name global word.now list)) (name global word.now list)) }
{
    let Field::Within(subs) = subs else {
        return Ok(Field::Over);
    };
    if word.len() > WORD_LIMIT {
        return Ok(Field::Over);
    }
    let word = text_of(alloc, word)?;
    Ok(Field::Within(if global {
        Name::global(word, subs)
    } else {
        Name::local(word, subs)
    }))
}

/// The subscripts behind `(`, up to the `)` that closes the list, and what follows that, or none where no list stands there.
pub fn read_subscripts<'a>(
    alloc: Global,
    list: &'a [u8],
    limit: Limit,
) -> Result<Option<(Field<Subs>, &'a [u8])>, AllocError>
    ensures { IfOk result (λ r. option_map (λ p. (p.0, p.1.now)) r ≡ subscripts_field limit (subscripts_at list.now)) }
{
    let mut subs = Field::Within(Subs::new(alloc));
    let mut rest = list;
    // Each subscript has a byte at least.
    for _place in 0..list.len() {
        let Some((sub, more, behind)) = read_item(alloc, rest, limit)? else {
            return Ok(None);
        };
        subs = with_one_more(subs, sub)?;
        if !more {
            return Ok(Some((subs, behind)));
        }
        rest = behind;
    }
    Ok(None)
}

// One subscript more at the end of a list, if it is still within the limits.
fn with_one_more(subs: Field<Subs>, sub: Field<Sub>) -> Result<Field<Subs>, AllocError>
    ensures { (limit : SeenLimit) (list : List (List ℕ)) (s : List ℕ) → subs ≡ limited (are_small limit list) list → sub ≡ limited (is_short limit s) s
        → IfOk result (λ more. more ≡ limited (are_small limit (list ++ s ∷ [])) (list ++ s ∷ [])) }
{
    let Field::Within(mut list) = subs else {
        return Ok(Field::Over);
    };
    let Field::Within(sub) = sub else {
        return Ok(Field::Over);
    };
    if list.len() == SUBSCRIPTS_LIMIT {
        return Ok(Field::Over);
    }
    match list.push(sub) {
        Ok(()) => Ok(Field::Within(list)),
        Err(_) => Err(AllocError),
    }
}

// The subscript at the front, whether more of the list follow, and what follows its comma or parenthesis.
fn read_item<'a>(
    alloc: Global,
    bytes: &'a [u8],
    limit: Limit,
) -> Result<Option<(Field<Sub>, bool, &'a [u8])>, AllocError>
    ensures { IfOk result (λ r. option_map (λ p. (p.0, p.1, p.2.now)) r ≡ item_field limit (item_at bytes.now)) }
{
    let Some((sub, tail)) = read_subscript(alloc, bytes, limit)? else {
        return Ok(None);
    };
    let Some((more, rest)) = read_mark(tail) else {
        return Ok(None);
    };
    Ok(Some((sub, more, rest)))
}

// Whether more of a list follow, and what follows the comma or the parenthesis at the front.
fn read_mark(bytes: &[u8]) -> Option<(bool, &[u8])>
    ensures { option_map (λ p. (p.0, p.1.now)) result ≡ mark_at bytes.now }
{
    let [mark, rest @ ..] = bytes else {
        return None;
    };
    match *mark {
        b',' => Some((true, rest)),
        b')' => Some((false, rest)),
        _ => None,
    }
}

/// The subscript at the front of some bytes, as a listing has it, and what follows it, or none where none stands there.
pub fn read_subscript<'a>(
    alloc: Global,
    bytes: &'a [u8],
    limit: Limit,
) -> Result<Option<(Field<Sub>, &'a [u8])>, AllocError>
    ensures { IfOk result (λ r. option_map (λ p. (p.0, p.1.now)) r ≡ text_field limit (subscript_at bytes.now)) }
{
    if let [b'"', inner @ ..] = bytes {
        let Some((text, rest)) = read_quoted(alloc, inner)? else {
            return Ok(None);
        };
        if text.is_empty() || is_canonic_bytes(text.as_slice()) {
            return Ok(None);
        }
        let sub = subscript_of(short_text(alloc, text.as_slice(), limit)?);
        return Ok(Some((sub, rest)));
    }
    let (number, rest) = split_number(bytes);
    if !is_canonic_bytes(number) {
        return Ok(None);
    }
    let sub = subscript_of(short_text(alloc, number, limit)?);
    Ok(Some((sub, rest)))
}

// The subscript of a text.
fn subscript_of(text: Field<Text>) -> Field<Sub>
    ensures { result ≡ text }
{
    match text {
        Field::Within(text) => Field::Within(Sub::from_text(text)),
        Field::Over => Field::Over,
    }
}

// The bytes at the front that can stand in a number, and what follows them.
fn split_number(bytes: &[u8]) -> (&[u8], &[u8])
    ensures front { result.0.now ≡ front_by is_number_byte bytes.now }
    ensures rest { result.1.now ≡ rest_by is_number_byte bytes.now }
{
    for (place, byte) in bytes.iter().enumerate() {
        if !(byte.is_ascii_digit() || *byte == b'-') {
            return bytes.split_at(place);
        }
    }
    bytes.split_at(bytes.len())
}

// The bytes at the front that can stand in a word, and what follows them.
fn split_word(bytes: &[u8]) -> (&[u8], &[u8])
    ensures front { result.0.now ≡ front_by is_word_byte bytes.now }
    ensures rest { result.1.now ≡ rest_by is_word_byte bytes.now }
{
    for (place, byte) in bytes.iter().enumerate() {
        if !(byte.is_ascii_alphanumeric() || *byte == b'%') {
            return bytes.split_at(place);
        }
    }
    bytes.split_at(bytes.len())
}

// Whether the bytes are a word, of any length.
fn is_any_word(bytes: &[u8]) -> bool
    ensures { result ≡ is_any_word bytes.now }
{
    match bytes {
        [] => false,
        [first, rest @ ..] => {
            (first.is_ascii_alphabetic() || *first == b'%') && are_alphanumeric(rest)
        }
    }
}

fn are_alphanumeric(bytes: &[u8]) -> bool
    ensures { result ≡ list_all is_ascii_alphanumeric bytes.now }
{
    bytes.iter().all(|byte| byte.is_ascii_alphanumeric())
}
