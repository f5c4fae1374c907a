// The fields of events are written. After want of memory a part of one may stand at the end.
#![tactic(auto, using(mj_gfile::proofs::Longer::begins_same, mj_gfile::proofs::Longer::begins_more, mj_gfile::proofs::Longer::begins_trans))]

ghost use Rattle.std.specs.Prelude.{◌≡◌, ◌++◌, true, decimal, OnOk};
ghost use Rattle.std.specs.List.{list_all};
ghost use Rattle.std.specs.Fmt.{signed_decimal};
ghost use Rattle.mj_num.specs.Number.{is_in_range};
ghost use Rattle.mj_gfile.specs.Begins.{HasFront};
ghost use Rattle.mj_trace.specs.Spelling.{timeout_text, names_text, place_text, node_text, subtree_text, value_text, values_text, fault_text};
ghost use Rattle.mj_trace.specs.Trace.{start_line};
ghost use Rattle.mj_trace.specs.Sized.{is_count, are_texts, name_fits, node_fits, nodes_fit, timeout_fits, value_fits};

use itoa::Buffer;
use mj_ask::Entry;
use mj_gfile::{put_name, put_subscripts, put_text};
use mj_num::Num;
use mj_store::Nodes;
use mj_subs::{Name, Sub, Subs};
use mj_text::{Fault, Text};
use std::alloc::{AllocError, Global};

/// Puts a number in decimal to the end.
pub(crate) fn put_count(bytes: &mut Vec<u8>, count: u32) -> Result<(), AllocError>
    ensures ok { OnOk result (bytes.new.items ≡ bytes.old.items ++ decimal count) }
    ensures kept { HasFront bytes.old.items bytes.new.items }
    ensures fits { OnOk result (is_count count ≡ true) }
{
    let mut buffer = Buffer::new();
    bytes.extend_from_slice(buffer.format(count).as_bytes())
}

/// Puts a number to the end.
pub(crate) fn put_number(bytes: &mut Vec<u8>, number: Num) -> Result<(), AllocError>
    ensures ok { OnOk result (bytes.new.items ≡ bytes.old.items ++ signed_decimal number) }
    ensures kept { HasFront bytes.old.items bytes.new.items }
    ensures fits { OnOk result (is_in_range number ≡ true) }
{
    let mut buffer = Buffer::new();
    bytes.extend_from_slice(buffer.format(number.value()).as_bytes())
}

/// Puts a timeout to the end, where there is one.
pub(crate) fn put_timeout(bytes: &mut Vec<u8>, timeout: Option<Num>) -> Result<(), AllocError>
    ensures ok { OnOk result (bytes.new.items ≡ bytes.old.items ++ timeout_text timeout) }
    ensures kept { HasFront bytes.old.items bytes.new.items }
    ensures fits { OnOk result (timeout_fits timeout ≡ true) }
{
    let Some(number) = timeout else {
        return Ok(());
    };
    bytes.extend_from_slice(b" :")?;
    put_number(bytes, number)
}

/// Puts names to the end, with commas between them.
pub(crate) fn put_names(bytes: &mut Vec<u8>, names: &[Name]) -> Result<(), AllocError>
    ensures ok { OnOk result (bytes.new.items ≡ bytes.old.items ++ names_text names.now) }
    ensures kept { HasFront bytes.old.items bytes.new.items }
    ensures fits { OnOk result (list_all name_fits names.now ≡ true) }
{
    let [first, rest @ ..] = names else {
        return Ok(());
    };
    put_name(bytes, first)?;
    for name in rest {
        bytes.push(b',')?;
        put_name(bytes, name)?;
    }
    Ok(())
}

// Puts the place of a node below a name to the end.
fn put_place(bytes: &mut Vec<u8>, place: &[Sub]) -> Result<(), AllocError>
    ensures ok { OnOk result (bytes.new.items ≡ bytes.old.items ++ place_text place.now) }
    ensures kept { HasFront bytes.old.items bytes.new.items }
    ensures fits { OnOk result (are_texts place.now ≡ true) }
{
    if place.is_empty() {
        return bytes.extend_from_slice(b"()");
    }
    put_subscripts(bytes, place)
}

// Puts a node to the end.
fn put_node(bytes: &mut Vec<u8>, place: &Subs, text: &Text) -> Result<(), AllocError>
    ensures ok { OnOk result (bytes.new.items ≡ bytes.old.items ++ node_text (place.now, text.now)) }
    ensures kept { HasFront bytes.old.items bytes.new.items }
    ensures fits { OnOk result (node_fits (place.now, text.now) ≡ true) }
{
    put_place(bytes, place.as_slice())?;
    bytes.push(b'=')?;
    put_text(bytes, text)
}

/// Puts nodes to the end, in braces.
pub(crate) fn put_subtree(bytes: &mut Vec<u8>, nodes: &Nodes) -> Result<(), AllocError>
    ensures ok { OnOk result (bytes.new.items ≡ bytes.old.items ++ subtree_text nodes.now) }
    ensures kept { HasFront bytes.old.items bytes.new.items }
    ensures fits { OnOk result (nodes_fit nodes.now ≡ true) }
{
    bytes.push(b'{')?;
    if let [first, rest @ ..] = nodes.as_slice() {
        put_node(bytes, &first.0, &first.1)?;
        for node in rest {
            bytes.push(b',')?;
            put_node(bytes, &node.0, &node.1)?;
        }
    }
    bytes.push(b'}')?;
    Ok(())
}

// Puts a value to the end that a job starts with.
fn put_value(bytes: &mut Vec<u8>, value: &Option<Text>) -> Result<(), AllocError>
    ensures ok { OnOk result (bytes.new.items ≡ bytes.old.items ++ value_text value.now) }
    ensures kept { HasFront bytes.old.items bytes.new.items }
    ensures fits { OnOk result (value_fits value.now ≡ true) }
{
    match value {
        None => bytes.extend_from_slice(b"-"),
        Some(text) => put_text(bytes, text),
    }
}

/// Puts the values to the end that a job starts with, in parentheses.
pub(crate) fn put_values(bytes: &mut Vec<u8>, values: &[Option<Text>]) -> Result<(), AllocError>
    ensures ok { OnOk result (bytes.new.items ≡ bytes.old.items ++ values_text values.now) }
    ensures kept { HasFront bytes.old.items bytes.new.items }
    ensures fits { OnOk result (list_all value_fits values.now ≡ true) }
{
    bytes.push(b'(')?;
    if let [first, rest @ ..] = values {
        put_value(bytes, first)?;
        for value in rest {
            bytes.push(b',')?;
            put_value(bytes, value)?;
        }
    }
    bytes.push(b')')?;
    Ok(())
}

/// Puts where a job starts to the end, behind the word for it.
pub(crate) fn put_entry(alloc: Global, bytes: &mut Vec<u8>, entry: &Entry) -> Result<(), AllocError>
    ensures ok { OnOk result (bytes.new.items ≡ bytes.old.items ++ start_line entry.now) }
    ensures kept { HasFront bytes.old.items bytes.new.items }
{
    bytes.extend_from_slice(b"start ")?;
    let spelled = entry.spell(alloc)?;
    bytes.extend_from_slice(&spelled)
}

/// Puts the number of a fault to the end, where there is one.
pub(crate) fn put_fault(bytes: &mut Vec<u8>, fault: Option<Fault>) -> Result<(), AllocError>
    ensures ok { OnOk result (bytes.new.items ≡ bytes.old.items ++ fault_text fault) }
    ensures kept { HasFront bytes.old.items bytes.new.items }
{
    let Some(fault) = fault else {
        return Ok(());
    };
    bytes.extend_from_slice(b" F")?;
    put_count(bytes, fault.code())
}
