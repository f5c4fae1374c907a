// The spelling of a name.

ghost use Rattle.std.specs.Prelude.{◌≡◌, ◌<◌, ◌≤◌, ◌+◌, ◌*◌, ◌++◌, ◌⊎◌, Err, length, vec_len, IfOk, OnOk, IfErr};
ghost use Rattle.mj_text.specs.declared.fault.Failure.TheVariants as failure;
ghost use Rattle.mj_text.specs.declared.fault.Fault.TheVariants as fault;
ghost use Rattle.mj_text.specs.Limit.{most_bytes};
ghost use Rattle.mj_nref.specs.Spelling.{doubled, word_text, subscript_text, rest_text, subscripts_text, name_text};
ghost use Rattle.mj_nref.specs.Lengths.{IsLengthWithin};

use mj_num::is_canonic_bytes;
use mj_subs::{Name, Sub};
use mj_text::{Digits, Failure, Fault, Limit, TEXT_LIMIT, Text};
use std::alloc::{AllocError, Global};

/// The name text of a name. One above the limit is `Length`, which is found before any of it is written and before memory is asked for. Memory is asked for
/// once, as much as the name text takes.
pub fn spell(alloc: Global, name: &Name, limit: Limit) -> Result<Text, Failure>
    ensures ok { IfOk result (λ t. t ≡ name_text name.now) }
    ensures err { IfErr result (λ e. (e ≡ failure.Memory)
        ⊎ ((e ≡ failure.Fault fault.Length) × (most_bytes limit < length (name_text name.now)))) }
    ensures long { most_bytes limit < length (name_text name.now) → result ≡ Err (failure.Fault fault.Length) }
{
    let Some(len) = spelled_len(name, limit.bytes()) else {
        return Err(Failure::Fault(Fault::Length));
    };
    let mut bytes = Vec::with_capacity(alloc, len)?;
    if name.is_global() {
        bytes.push(b'^')?;
    }
    let mut digits = Digits::new();
    bytes.extend_from_slice(name.word().bytes(&mut digits))?;
    put_subscripts(&mut bytes, name.subscripts().as_slice())?;
    Text::from(alloc, bytes.as_slice())
}

// How many bytes the name text of a name has, unless they are more than so many.
fn spelled_len(name: &Name, most: usize) -> Option<usize>
    requires { most ≤ TEXT_LIMIT }
    ensures { IsLengthWithin most (length (name_text name.now)) result }
{
    subscripts_len(word_len(name), name.subscripts().as_slice(), most)
}

// How many bytes the word of a name has there.
fn word_len(name: &Name) -> usize
    ensures value { result ≡ length (word_text name.now.global name.now.word) }
    ensures limit { result ≤ TEXT_LIMIT + 1 }
{
    if name.is_global() {
        name.word().len() + 1
    } else {
        name.word().len()
    }
}

// So many bytes and those of a list of subscripts, unless they are more than so many. What stands behind the subscript at which there are more isn't looked
// at.
fn subscripts_len(front: usize, subs: &[Sub], most: usize) -> Option<usize>
    requires few { front ≤ TEXT_LIMIT + 1 }
    requires limit { most ≤ TEXT_LIMIT }
    ensures { IsLengthWithin most (front + length (subscripts_text subs.now)) result }
{
    if subs.is_empty() {
        return within(front, most);
    }
    // one for the mark before each, and one for the closing parenthesis
    let mut len = front + 1;
    for sub in subs {
        if len > most {
            return None;
        }
        len += 1 + subscript_len(sub);
    }
    within(len, most)
}

// So many bytes, unless they are more than so many.
fn within(len: usize, most: usize) -> Option<usize>
    ensures { IsLengthWithin most len result }
{
    if len > most { None } else { Some(len) }
}

// How many bytes a subscript has in a name text.
fn subscript_len(sub: &Sub) -> usize
    ensures value { result ≡ length (subscript_text sub.now) }
    ensures limit { result ≤ 2 * TEXT_LIMIT + 2 }
{
    let mut digits = Digits::new();
    let text = sub.text().bytes(&mut digits);
    if is_canonic_bytes(text) {
        text.len()
    } else {
        doubled_len(text) + 2
    }
}

// How many bytes a text has where each quote is doubled.
fn doubled_len(text: &[u8]) -> usize
    requires { length text.now ≤ TEXT_LIMIT }
    ensures value { result ≡ length (doubled text.now) }
    ensures limit { result ≤ 2 * length text.now }
{
    let mut len = 0;
    for byte in text {
        len += if *byte == b'"' { 2 } else { 1 };
    }
    len
}

fn put_subscripts(bytes: &mut Vec<u8>, subs: &[Sub]) -> Result<(), AllocError>
    ensures { OnOk result (bytes.new.items ≡ bytes.old.items ++ subscripts_text subs.now) }
{
    let [first, rest @ ..] = subs else {
        return Ok(());
    };
    bytes.push(b'(')?;
    put_subscript(bytes, first)?;
    for sub in rest {
        bytes.push(b',')?;
        put_subscript(bytes, sub)?;
    }
    bytes.push(b')')?;
    Ok(())
}

fn put_subscript(bytes: &mut Vec<u8>, sub: &Sub) -> Result<(), AllocError>
    ensures { OnOk result (bytes.new.items ≡ bytes.old.items ++ subscript_text sub.now) }
{
    let mut digits = Digits::new();
    let text = sub.bytes(&mut digits);
    if is_canonic_bytes(text) {
        bytes.extend_from_slice(text)?;
    } else {
        bytes.push(b'"')?;
        put_doubled(bytes, text)?;
        bytes.push(b'"')?;
    }
    Ok(())
}

fn put_doubled(bytes: &mut Vec<u8>, text: &[u8]) -> Result<(), AllocError>
    ensures { OnOk result (bytes.new.items ≡ bytes.old.items ++ doubled text.now) }
{
    for byte in text {
        if *byte == b'"' {
            bytes.push(b'"')?;
        }
        bytes.push(*byte)?;
    }
    Ok(())
}
