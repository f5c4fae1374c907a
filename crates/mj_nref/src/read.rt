// The name that a text spells.

ghost use Rattle.std.specs.Prelude.{◌≡◌, false, IfOk};
ghost use Rattle.std.specs.Option.{option_map};
ghost use Rattle.mj_nref.specs.Reading.{front_of, rest_of, quoted_at, subscript_of, item_of, subscripts_of, name_in, name_of, IsReading};

use mj_num::is_canonic_bytes;
use mj_subs::{Name, SUBSCRIPTS_LIMIT, Sub, Subs, is_word};
use mj_text::{Digits, Text};
use std::alloc::{AllocError, Global};

/// The name that the text spells, or none where it is no name text.
pub fn read_name(alloc: Global, text: &Text) -> Result<Option<Name>, AllocError>
    ensures value { IfOk result (λ r. r ≡ name_of text.now) }
    ensures spelled { IfOk result (λ r. IsReading text.now r) }
{
    let mut digits = Digits::new();
    match text.bytes(&mut digits) {
        [b'^', bytes @ ..] => read_name_in(alloc, true, bytes),
        bytes => read_name_in(alloc, false, bytes),
    }
}

// The name of this kind.
fn read_name_in(alloc: Global, global: bool, bytes: &[u8]) -> Result<Option<Name>, AllocError>
    ensures { IfOk result (λ r. r ≡ name_in global bytes.now) }
{
    let (word, rest) = split_front(bytes);
    if !is_word(word) {
        return Ok(None);
    }
    let subs = match rest {
        [] => Subs::new(alloc),
        [b'(', list @ ..] => match read_subscripts(alloc, list)? {
            Some(subs) => subs,
            None => return Ok(None),
        },
        _ => return Ok(None),
    };
    let word = text_of(alloc, word)?;
    Ok(Some(if global {
        Name::global(word, subs)
    } else {
        Name::local(word, subs)
    }))
}

// The bytes before the first mark, and those from it on.
fn split_front(bytes: &[u8]) -> (&[u8], &[u8])
    ensures front { result.0.now ≡ front_of bytes.now }
    ensures rest { result.1.now ≡ rest_of bytes.now }
{
    for (place, byte) in bytes.iter().enumerate() {
        if *byte == b'(' || *byte == b')' || *byte == b',' {
            return bytes.split_at(place);
        }
    }
    bytes.split_at(bytes.len())
}

// The subscripts up to the parenthesis that ends the text.
fn read_subscripts(alloc: Global, list: &[u8]) -> Result<Option<Subs>, AllocError>
    ensures { IfOk result (λ r. r ≡ subscripts_of SUBSCRIPTS_LIMIT list.now) }
{
    let mut subs = Subs::new(alloc);
    let mut rest = list;
    for _place in 0..SUBSCRIPTS_LIMIT {
        let Some((sub, next)) = read_item(alloc, rest)? else {
            return Ok(None);
        };
        if subs.push(sub).is_err() {
            return Err(AllocError);
        }
        match next {
            Some(list) => rest = list,
            None => return Ok(Some(subs)),
        }
    }
    Ok(None)
}

// The subscript at the front, with what follows its comma, or none where it is the last.
fn read_item<'a>(
    alloc: Global,
    bytes: &'a [u8],
) -> Result<Option<(Sub, Option<&'a [u8]>)>, AllocError>
    ensures { IfOk result
        (λ r. option_map (λ p. (p.0, option_map (λ l. l.now) p.1)) r ≡ item_of bytes.now) }
{
    let Some((sub, tail)) = read_subscript(alloc, bytes)? else {
        return Ok(None);
    };
    match tail {
        [b',', list @ ..] => Ok(Some((sub, Some(list)))),
        [b')'] => Ok(Some((sub, None))),
        _ => Ok(None),
    }
}

// The subscript at the front, and what follows it.
fn read_subscript<'a>(alloc: Global, bytes: &'a [u8]) -> Result<Option<(Sub, &'a [u8])>, AllocError>
    ensures { IfOk result (λ r. option_map (λ p. (p.0, p.1.now)) r ≡ subscript_of bytes.now) }
{
    if let [b'"', inner @ ..] = bytes {
        let Some((text, rest)) = read_quoted(alloc, inner)? else {
            return Ok(None);
        };
        if text.is_empty() || is_canonic_bytes(text.as_slice()) {
            return Ok(None);
        }
        let text = text_of(alloc, text.as_slice())?;
        return Ok(Some((Sub::from_text(text), rest)));
    }
    let (front, rest) = split_front(bytes);
    if !is_canonic_bytes(front) {
        return Ok(None);
    }
    let text = text_of(alloc, front)?;
    Ok(Some((Sub::from_text(text), rest)))
}

// The text up to the closing quote, and what follows that.
#[tactic(auto, using(crate::proofs::Joined::joined_preceded, crate::proofs::Joined::joined_none))]
fn read_quoted<'a>(
    alloc: Global,
    bytes: &'a [u8],
) -> Result<Option<(Vec<u8>, &'a [u8])>, AllocError>
    ensures { IfOk result (λ r. option_map (λ p. (p.0.items, p.1.now)) r ≡ quoted_at false bytes.now) }
{
    let mut text = Vec::new(alloc);
    let mut after_quote = false;
    for (place, byte) in bytes.iter().enumerate() {
        match (*byte == b'"', after_quote) {
            (true, false) => after_quote = true,
            (true, true) => {
                text.push(b'"')?;
                after_quote = false;
            }
            (false, true) => return Ok(Some((text, &bytes[place..]))),
            (false, false) => text.push(*byte)?,
        }
    }
    if after_quote {
        return Ok(Some((text, &bytes[bytes.len()..])));
    }
    Ok(None)
}

// A text of bytes that are part of one.
pub(crate) fn text_of(alloc: Global, bytes: &[u8]) -> Result<Text, AllocError>
    ensures { IfOk result (λ t. t ≡ bytes.now) }
{
    match Text::from(alloc, bytes) {
        Ok(text) => Ok(text),
        Err(_) => Err(AllocError),
    }
}
