// Lines of listings, and their fields, are put to the end of bytes.

ghost use Rattle.std.specs.Prelude.{◌≡◌, ◌<◌, ◌≤◌, ◌++◌, ◌∷◌, [], true, length, if◌then◌else◌, is_ok, IfOk, OnOk};
ghost use Rattle.std.specs.List.{list_all};
ghost use Rattle.mj_text.specs.declared.text.TheConstants.{TEXT_LIMIT};
ghost use Rattle.mj_text.specs.declared.limit.Limit.TheVariants.{V2};
ghost use Rattle.mj_gfile.specs.Begins.{HasFront};
ghost use Rattle.mj_gfile.specs.Listing.{is_text};
ghost use Rattle.mj_gfile.specs.Spelling.{digit_byte, is_shown, quoted_byte, quoted_bytes, listed_text, listed_subscript, listed_rest, listed_subscripts};
ghost use Rattle.mj_gfile.specs.Spelling.{listed_name, listed_line, listed_lines, ended_line};

use mj_num::is_canonic_bytes;
use mj_subs::{Name, Sub};
use mj_text::{Digits, Text};
use std::alloc::AllocError;

/// Puts the lines of names and their texts to the end of some bytes.
pub fn put_nodes(bytes: &mut Vec<u8>, nodes: &[(Name, Text)]) -> Result<(), AllocError>
    ensures { bytes.new.items ≡ (if is_ok result then bytes.old.items ++ listed_lines nodes.now else bytes.old.items) }
{
    let before = bytes.len();
    let added = add_nodes(bytes, nodes);
    if added.is_err() {
        bytes.truncate(before);
    }
    added
}

// Puts the lines of names and their texts to the end; after want of memory a part may stand there.
#[tactic(auto, using(crate::proofs::Longer::begins_same, crate::proofs::Longer::begins_more, crate::proofs::Longer::begins_trans))]
fn add_nodes(bytes: &mut Vec<u8>, nodes: &[(Name, Text)]) -> Result<(), AllocError>
    ensures ok { OnOk result (bytes.new.items ≡ bytes.old.items ++ listed_lines nodes.now) }
    ensures kept { HasFront bytes.old.items bytes.new.items }
{
    for (name, text) in nodes {
        add_node(bytes, name, text)?;
    }
    Ok(())
}

// Puts the line of a name and its text to the end, and byte 10.
#[tactic(auto, using(crate::proofs::Longer::begins_same, crate::proofs::Longer::begins_more, crate::proofs::Longer::begins_trans))]
fn add_node(bytes: &mut Vec<u8>, name: &Name, text: &Text) -> Result<(), AllocError>
    ensures ok { OnOk result (bytes.new.items ≡ bytes.old.items ++ (listed_line (name.now, text.now) ++ 10 ∷ [])) }
    ensures kept { HasFront bytes.old.items bytes.new.items }
{
    add_name(bytes, name)?;
    add_value(bytes, text)
}

// Puts the line of a name that is given by its parts, and of its text, to the end, and byte 10.
#[tactic(auto, using(crate::proofs::Longer::begins_same, crate::proofs::Longer::begins_more, crate::proofs::Longer::begins_trans))]
pub(crate) fn add_line(
    bytes: &mut Vec<u8>,
    global: bool,
    word: &[u8],
    subs: &[Sub],
    text: &Text,
) -> Result<(), AllocError>
    ensures ok { OnOk result (bytes.new.items ≡ bytes.old.items ++ ended_line global word.now subs.now text.now) }
    ensures kept { HasFront bytes.old.items bytes.new.items }
{
    add_parts(bytes, global, word, subs)?;
    add_value(bytes, text)
}

// Puts what stands behind the name in a line to the end, and byte 10.
#[tactic(auto, using(crate::proofs::Longer::begins_same, crate::proofs::Longer::begins_more, crate::proofs::Longer::begins_trans))]
fn add_value(bytes: &mut Vec<u8>, text: &Text) -> Result<(), AllocError>
    ensures ok { OnOk result (bytes.new.items ≡ bytes.old.items ++ (61 ∷ (listed_text text.now ++ 10 ∷ []))) }
    ensures kept { HasFront bytes.old.items bytes.new.items }
{
    bytes.push(b'=')?;
    add_text(bytes, text)?;
    bytes.push(b'\n')?;
    Ok(())
}

/// Puts a name to the end of some bytes, as a listing has it.
pub fn put_name(bytes: &mut Vec<u8>, name: &Name) -> Result<(), AllocError>
    ensures text { bytes.new.items ≡ (if is_ok result then bytes.old.items ++ listed_name name.now else bytes.old.items) }
    ensures fits { OnOk result (list_all (is_text V2) name.now.subscripts ≡ true) }
{
    let before = bytes.len();
    let added = add_name(bytes, name);
    if added.is_err() {
        bytes.truncate(before);
    }
    added
}

// Puts a name to the end; after want of memory a part may stand there.
#[tactic(auto, using(crate::proofs::Longer::begins_same, crate::proofs::Longer::begins_more, crate::proofs::Longer::begins_trans))]
fn add_name(bytes: &mut Vec<u8>, name: &Name) -> Result<(), AllocError>
    ensures ok { OnOk result (bytes.new.items ≡ bytes.old.items ++ listed_name name.now) }
    ensures kept { HasFront bytes.old.items bytes.new.items }
    ensures fits { OnOk result (list_all (is_text V2) name.now.subscripts ≡ true) }
{
    let mut digits = Digits::new();
    let word = name.word().bytes(&mut digits);
    add_parts(bytes, name.is_global(), word, name.subscripts().as_slice())
}

// Puts a name that is given by its parts to the end; after want of memory a part may stand there.
#[tactic(auto, using(crate::proofs::Longer::begins_same, crate::proofs::Longer::begins_more, crate::proofs::Longer::begins_trans))]
fn add_parts(bytes: &mut Vec<u8>, global: bool, word: &[u8], subs: &[Sub]) -> Result<(), AllocError>
    ensures ok { OnOk result (bytes.new.items ≡ bytes.old.items ++ listed_name (record { global = global; word = word.now; subscripts = subs.now })) }
    ensures kept { HasFront bytes.old.items bytes.new.items }
    ensures fits { OnOk result (list_all (is_text V2) subs.now ≡ true) }
{
    if global {
        bytes.push(b'^')?;
    }
    bytes.extend_from_slice(word)?;
    add_subscripts(bytes, subs)
}

/// Puts a list of subscripts to the end of some bytes, as a listing has it: nothing for none.
pub fn put_subscripts(bytes: &mut Vec<u8>, subs: &[Sub]) -> Result<(), AllocError>
    ensures text { bytes.new.items ≡ (if is_ok result then bytes.old.items ++ listed_subscripts subs.now else bytes.old.items) }
    ensures fits { OnOk result (list_all (is_text V2) subs.now ≡ true) }
{
    let before = bytes.len();
    let added = add_subscripts(bytes, subs);
    if added.is_err() {
        bytes.truncate(before);
    }
    added
}

// Puts a list of subscripts to the end; after want of memory a part may stand there.
#[tactic(auto, using(crate::proofs::Longer::begins_same, crate::proofs::Longer::begins_more, crate::proofs::Longer::begins_trans))]
fn add_subscripts(bytes: &mut Vec<u8>, subs: &[Sub]) -> Result<(), AllocError>
    ensures ok { OnOk result (bytes.new.items ≡ bytes.old.items ++ listed_subscripts subs.now) }
    ensures kept { HasFront bytes.old.items bytes.new.items }
    ensures fits { OnOk result (list_all (is_text V2) subs.now ≡ true) }
{
    let [first, rest @ ..] = subs else {
        return Ok(());
    };
    bytes.push(b'(')?;
    add_subscript(bytes, first)?;
    for sub in rest {
        bytes.push(b',')?;
        add_subscript(bytes, sub)?;
    }
    bytes.push(b')')?;
    Ok(())
}

/// Puts a subscript to the end of some bytes, as a listing has it.
pub fn put_subscript(bytes: &mut Vec<u8>, sub: &Sub) -> Result<(), AllocError>
    ensures text { bytes.new.items ≡ (if is_ok result then bytes.old.items ++ listed_subscript sub.now else bytes.old.items) }
    ensures fits { OnOk result (is_text V2 sub.now ≡ true) }
{
    let before = bytes.len();
    let added = add_subscript(bytes, sub);
    if added.is_err() {
        bytes.truncate(before);
    }
    added
}

// Puts a subscript to the end; after want of memory a part may stand there.
#[tactic(auto, using(crate::proofs::Longer::begins_same, crate::proofs::Longer::begins_more, crate::proofs::Longer::begins_trans))]
fn add_subscript(bytes: &mut Vec<u8>, sub: &Sub) -> Result<(), AllocError>
    ensures ok { OnOk result (bytes.new.items ≡ bytes.old.items ++ listed_subscript sub.now) }
    ensures kept { HasFront bytes.old.items bytes.new.items }
    ensures fits { OnOk result (is_text V2 sub.now ≡ true) }
{
    if sub.number().is_none() {
        return add_text(bytes, sub.text());
    }
    let mut digits = Digits::new();
    let spelled = sub.text().bytes(&mut digits);
    lie_within(spelled);
    bytes.extend_from_slice(spelled)?;
    Ok(())
}

/// Puts a text in listing quotes to the end of some bytes.
pub fn put_text(bytes: &mut Vec<u8>, text: &Text) -> Result<(), AllocError>
    ensures text { bytes.new.items ≡ (if is_ok result then bytes.old.items ++ listed_text text.now else bytes.old.items) }
    ensures fits { OnOk result (is_text V2 text.now ≡ true) }
{
    let before = bytes.len();
    let added = add_text(bytes, text);
    if added.is_err() {
        bytes.truncate(before);
    }
    added
}

// Puts a text in listing quotes to the end; after want of memory a part may stand there.
#[tactic(auto, using(crate::proofs::Longer::begins_same, crate::proofs::Longer::begins_more, crate::proofs::Longer::begins_trans))]
fn add_text(bytes: &mut Vec<u8>, text: &Text) -> Result<(), AllocError>
    ensures ok { OnOk result (bytes.new.items ≡ bytes.old.items ++ listed_text text.now) }
    ensures kept { HasFront bytes.old.items bytes.new.items }
    ensures fits { OnOk result (is_text V2 text.now ≡ true) }
{
    let mut digits = Digits::new();
    let spelled = text.bytes(&mut digits);
    lie_within(spelled);
    bytes.push(b'"')?;
    add_quoted(bytes, spelled)?;
    bytes.push(b'"')?;
    Ok(())
}

// Bytes that lie in memory are those of a text, if they aren't too many. There is nothing to do.
fn lie_within(bytes: &[u8])
    requires { length bytes.now ≤ TEXT_LIMIT }
    ensures { is_text V2 bytes.now ≡ true }
{}

#[tactic(auto, using(crate::proofs::Longer::begins_same, crate::proofs::Longer::begins_more, crate::proofs::Longer::begins_trans))]
fn add_quoted(bytes: &mut Vec<u8>, text: &[u8]) -> Result<(), AllocError>
    ensures ok { OnOk result (bytes.new.items ≡ bytes.old.items ++ quoted_bytes text.now) }
    ensures kept { HasFront bytes.old.items bytes.new.items }
{
    for byte in text {
        add_byte(bytes, *byte)?;
    }
    Ok(())
}

fn add_byte(bytes: &mut Vec<u8>, byte: u8) -> Result<(), AllocError>
    ensures { bytes.new.items ≡ (if is_ok result then bytes.old.items ++ quoted_byte byte else bytes.old.items) }
{
    match byte {
        b'"' | b'\\' => bytes.extend_from_slice(&[byte, byte]),
        b' '..=b'~' => bytes.extend_from_slice(&[byte]),
        _ => bytes.extend_from_slice(&[b'\\', digit_byte(byte / 16), digit_byte(byte % 16)]),
    }
}

// A hexadecimal digit.
fn digit_byte(digit: u8) -> u8
    requires { digit < 16 }
    ensures { result ≡ digit_byte digit }
{
    if digit < 10 {
        b'0' + digit
    } else {
        b'a' + (digit - 10)
    }
}
