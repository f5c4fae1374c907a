// What is told of doubtful routines.

use crate::doubts::{Doubt, call_doubt, doubt_at};
use crate::locks::{Pair, pairs, turned, was_told};
use crate::reached::reached_lines;
use mj_ask::Entry;
use mj_ast::{Routine, Scope, Target as Named};
use mj_hints::{line_at, put_source};
use mj_load::Image;
use mj_pcode::{Instr, Reference, Unit, find_line};
use mj_text::{Digits, Text};
use std::alloc::{AllocError, Global};

/// Puts what is doubtful of routines to the end of some bytes, a line each: what commands name that isn't there, or has too few formals; the first line of each
/// run of lines that nothing reaches; and the names that LOCK takes in two orders. Behind what is told of a line, or of two, stands its source, by the texts of
/// the routines, which are in their order, as far as they are known. Where memory is refused a part of it may stand there.
pub fn put_warnings(
    alloc: Global,
    bytes: &mut Vec<u8>,
    image: &Image,
    texts: &[Vec<u8>],
) -> Result<(), AllocError> {
    for (at, (unit, routine)) in image
        .units()
        .iter()
        .zip(image.routines().iter())
        .enumerate()
    {
        let text = text_of(texts, at);
        put_doubts(alloc, bytes, image.units(), unit, text)?;
        put_unreached(alloc, bytes, unit, routine, text)?;
    }
    put_orders(alloc, bytes, image, texts)
}

// The text of the routine at this place, or none where it isn't known.
fn text_of(texts: &[Vec<u8>], at: usize) -> &[u8] {
    match texts.get(at) {
        None => &[],
        Some(text) => text.as_slice(),
    }
}

// Puts the line of this number of a text to the end, if it is known.
fn put_line(bytes: &mut Vec<u8>, text: &[u8], number: u32) -> Result<(), AllocError> {
    let line = line_at(text, (number as usize).saturating_sub(1));
    if line.is_empty() {
        Ok(())
    } else {
        put_source(bytes, line, 0)
    }
}

// Puts what is doubtful of the instructions of a unit to the end, and each line of which something is told behind that.
fn put_doubts(
    alloc: Global,
    bytes: &mut Vec<u8>,
    units: &[Unit],
    unit: &Unit,
    text: &[u8],
) -> Result<(), AllocError> {
    let mut number = 0;
    let mut told = false;
    for instr in unit.instrs.iter() {
        if let Instr::Line(start) = instr {
            if told {
                put_line(bytes, text, number)?;
            }
            told = false;
            number = start.line;
        }
        if let Some(doubt) = doubt_at(units, unit, instr) {
            put_place(alloc, bytes, &unit.name, number)?;
            put_doubt(alloc, bytes, units, unit, instr, doubt)?;
            told = true;
        }
    }
    if told {
        put_line(bytes, text, number)?;
    }
    Ok(())
}

// Puts a line of a routine to the end, and that a warning follows.
fn put_place(
    alloc: Global,
    bytes: &mut Vec<u8>,
    routine: &Text,
    number: u32,
) -> Result<(), AllocError> {
    put_text(bytes, routine)?;
    let place = format!(in alloc; ":{number} warning: ")?;
    let done = bytes.extend_from_slice(place.as_bytes());
    drop(place);
    done
}

fn put_text(bytes: &mut Vec<u8>, text: &Text) -> Result<(), AllocError> {
    bytes.extend_from_slice(text.bytes(&mut Digits::new()))
}

// Puts what is doubtful of an instruction to the end.
fn put_doubt(
    alloc: Global,
    bytes: &mut Vec<u8>,
    units: &[Unit],
    unit: &Unit,
    instr: &Instr,
    doubt: Doubt,
) -> Result<(), AllocError> {
    match instr {
        Instr::Do(entry, shape) => {
            put_of(alloc, bytes, "DO names ", entry)?;
            put_why(bytes, units, doubt, first_of(entry), shape.as_slice().len())
        }
        Instr::StartJob(entry, shape, _) => {
            put_of(alloc, bytes, "JOB names ", entry)?;
            put_why(bytes, units, doubt, first_of(entry), shape.as_slice().len())
        }
        Instr::Goto(entry) => {
            put_of(alloc, bytes, "GOTO names ", entry)?;
            put_why(bytes, units, doubt, None, 0)
        }
        Instr::Invoke(target, shape) => {
            put_function(bytes, unit, target)?;
            put_why(
                bytes,
                units,
                doubt,
                first_called(target),
                shape.as_slice().len(),
            )
        }
        _ => {
            bytes.push(b'\n')?;
            Ok(())
        }
    }
}

// Puts a command and the entry that it names to the end.
fn put_of(
    alloc: Global,
    bytes: &mut Vec<u8>,
    command: &str,
    entry: &Entry,
) -> Result<(), AllocError> {
    bytes.extend_from_slice(command.as_bytes())?;
    let spelled = entry.spell(alloc)?;
    let done = bytes.extend_from_slice(spelled.as_slice());
    drop(spelled);
    done
}

// Puts the function that a unit calls to the end.
fn put_function(bytes: &mut Vec<u8>, unit: &Unit, target: &Named) -> Result<(), AllocError> {
    bytes.extend_from_slice(b"a function is called as $$")?;
    put_label(bytes, &target.label)?;
    bytes.push(b'^')?;
    match &target.routine {
        None => put_text(bytes, &unit.name),
        Some(routine) => put_text(bytes, routine),
    }
}

// The routine whose first line an entry is, if it is one.
fn first_of(entry: &Entry) -> Option<&Text> {
    match &entry.label {
        None => Some(&entry.routine),
        Some(_) => None,
    }
}

// The routine at whose first line a function begins, if it begins at one.
fn first_called(target: &Named) -> Option<&Text> {
    match (&target.label, &target.routine) {
        (None, Some(routine)) => Some(routine),
        _ => None,
    }
}

fn put_label(bytes: &mut Vec<u8>, label: &Option<Text>) -> Result<(), AllocError> {
    match label {
        None => Ok(()),
        Some(label) => put_text(bytes, label),
    }
}

// Puts what is wrong to the end, and ends the line. Where it is the first line of this routine, or of none, that is called with so many values.
fn put_why(
    bytes: &mut Vec<u8>,
    units: &[Unit],
    doubt: Doubt,
    first: Option<&Text>,
    count: usize,
) -> Result<(), AllocError> {
    match (doubt, first) {
        (Doubt::NoRoutine, _) => {
            bytes.extend_from_slice(b", and none of these routines has that name\n")
        }
        (Doubt::NoLine, _) => bytes.extend_from_slice(b", and the routine has no such label\n"),
        (Doubt::Deeper, _) => bytes.extend_from_slice(b", which stands in a block\n"),
        (Doubt::Values, None) => {
            bytes.extend_from_slice(b", which has fewer formals than there are values\n")
        }
        (Doubt::Values, Some(routine)) => put_first_line(bytes, units, routine, count),
    }
}

// Puts to the end that the first line of a routine has too few formals for so many values, and what to write if its own name is a label that has enough.
fn put_first_line(
    bytes: &mut Vec<u8>,
    units: &[Unit],
    routine: &Text,
    count: usize,
) -> Result<(), AllocError> {
    bytes.extend_from_slice(b", the first line of ")?;
    put_text(bytes, routine)?;
    bytes.extend_from_slice(b", which has fewer formals than there are values")?;
    if takes(units, routine, count)? {
        bytes.extend_from_slice(b": write ")?;
        put_text(bytes, routine)?;
        bytes.push(b'^')?;
        put_text(bytes, routine)?;
    }
    bytes.push(b'\n')?;
    Ok(())
}

// Whether the label of a routine that has its own name takes so many values.
fn takes(units: &[Unit], routine: &Text, count: usize) -> Result<bool, AllocError> {
    let label = routine.try_clone()?;
    let entry = Entry {
        label: Some(label),
        routine: routine.try_clone()?,
    };
    let doubt = call_doubt(units, routine, find_line(units, &entry), count);
    drop(entry);
    Ok(doubt.is_none())
}

// Puts the first of each run of lines that nothing reaches to the end.
fn put_unreached(
    alloc: Global,
    bytes: &mut Vec<u8>,
    unit: &Unit,
    routine: &Routine,
    text: &[u8],
) -> Result<(), AllocError> {
    let reached = reached_lines(alloc, unit, &routine.lines)?;
    let done = put_firsts(alloc, bytes, unit, &reached, text);
    drop(reached);
    done
}

fn put_firsts(
    alloc: Global,
    bytes: &mut Vec<u8>,
    unit: &Unit,
    reached: &[bool],
    text: &[u8],
) -> Result<(), AllocError> {
    let mut before = true;
    let mut number = 0u32;
    for is in reached {
        number = number.saturating_add(1);
        if before && !*is {
            put_place(alloc, bytes, &unit.name, number)?;
            bytes.extend_from_slice(b"nothing reaches this line\n")?;
            put_line(bytes, text, number)?;
        }
        before = *is;
    }
    Ok(())
}

// Puts the names that are taken in two orders to the end.
fn put_orders(
    alloc: Global,
    bytes: &mut Vec<u8>,
    image: &Image,
    texts: &[Vec<u8>],
) -> Result<(), AllocError> {
    let pairs = pairs(alloc, image)?;
    let done = put_pairs(alloc, bytes, image, &pairs, texts);
    drop(pairs);
    done
}

fn put_pairs<'a>(
    alloc: Global,
    bytes: &mut Vec<u8>,
    image: &'a Image,
    pairs: &[Pair<'a>],
    texts: &[Vec<u8>],
) -> Result<(), AllocError> {
    for (at, pair) in pairs.iter().enumerate() {
        if !was_told(pairs, at, pair) {
            if let Some(other) = turned(pairs, pair) {
                put_order(alloc, bytes, image, pair, other)?;
                put_line(bytes, text_of(texts, pair.unit), pair.line)?;
                put_line(bytes, text_of(texts, other.unit), other.line)?;
            }
        }
    }
    Ok(())
}

fn put_order<'a>(
    alloc: Global,
    bytes: &mut Vec<u8>,
    image: &'a Image,
    pair: &Pair<'a>,
    other: &Pair<'a>,
) -> Result<(), AllocError> {
    let (Some(one), Some(two)) = (image.units().get(pair.unit), image.units().get(other.unit))
    else {
        return Ok(());
    };
    put_place(alloc, bytes, &one.name, pair.line)?;
    bytes.extend_from_slice(b"LOCK takes ")?;
    put_name(bytes, pair.taken)?;
    bytes.extend_from_slice(b" while ")?;
    put_name(bytes, pair.held)?;
    bytes.extend_from_slice(b" is held, and in the other order at ")?;
    put_text(bytes, &two.name)?;
    let number = other.line;
    let line = format!(in alloc; ":{number}\n")?;
    let done = bytes.extend_from_slice(line.as_bytes());
    drop(line);
    done
}

fn put_name(bytes: &mut Vec<u8>, reference: &Reference) -> Result<(), AllocError> {
    if reference.scope == Scope::Global {
        bytes.push(b'^')?;
    }
    put_text(bytes, &reference.word)
}
