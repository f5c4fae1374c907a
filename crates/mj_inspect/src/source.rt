// The source of routines.

ghost use Rattle.std.specs.Prelude.{◌≡◌, ◌++◌, IfOk, OnOk};
ghost use Rattle.mj_ast.specs.Routines.{lines_of};
ghost use Rattle.mj_inspect.specs.Source.{around_lines, is_near, near_lines, shown_around, shown_line};

use crate::telling::or_nothing;
use itoa::Buffer;
use mj_rou::first_line;
use mj_text::{Digits, Text};
use std::alloc::{AllocError, Global};

/// The file of a routine.
#[derive(Drop)]
pub struct Source {
    /// the routine's name
    pub name: Vec<u8>,
    pub bytes: Vec<u8>,
}

// How many lines are shown before a line, and behind it.
const AROUND: usize = 5;

/// The line of this number, from 1, of some bytes; none where there are fewer.
pub fn line_of(bytes: &[u8], number: u32) -> Option<&[u8]> {
    let mut rest = bytes;
    for _ in 1..number {
        let (_, behind) = first_line(rest)?;
        rest = behind;
    }
    let (line, _) = first_line(rest)?;
    Some(line)
}

/// The source round a line of a routine, which is marked; or that there is none.
pub fn around(
    alloc: Global,
    sources: &[Source],
    routine: &Text,
    number: u32,
) -> Result<Vec<u8>, AllocError>
    ensures { IfOk result (λ bytes. bytes.items ≡ shown_around sources.now routine.now number) }
{
    let found = found_around(alloc, sources, routine, number)?;
    or_nothing(alloc, found)
}

// The lines round a line of a routine, which is marked. There are none of a routine that isn't one of these.
fn found_around(
    alloc: Global,
    sources: &[Source],
    routine: &Text,
    number: u32,
) -> Result<Vec<u8>, AllocError>
    ensures { IfOk result (λ bytes. bytes.items ≡ around_lines sources.now routine.now number) }
{
    let mut digits = Digits::new();
    let name = routine.bytes(&mut digits);
    let mut bytes = Vec::new(alloc);
    for source in sources {
        if source.name.as_slice() == name {
            put_lines(&mut bytes, &source.bytes, number as usize)?;
        }
    }
    Ok(bytes)
}

// Puts the lines round one to the end.
fn put_lines(bytes: &mut Vec<u8>, source: &[u8], number: usize) -> Result<(), AllocError>
    ensures { OnOk result (bytes.new.items ≡ bytes.old.items ++ near_lines number 1 (lines_of source.now)) }
{
    let mut rest = source;
    let mut at: usize = 1;
    'lines: while let Some((line, behind)) = first_line(rest) {
        if is_near(at, number) {
            put_line(bytes, at, at == number, line)?;
        }
        rest = behind;
        at += 1;
    }
    Ok(())
}

// Whether a line is one of those round another.
fn is_near(at: usize, number: usize) -> bool
    ensures { result ≡ is_near at number }
{
    at.abs_diff(number) <= AROUND
}

// Puts a line to the end, with its mark and number.
fn put_line(bytes: &mut Vec<u8>, number: usize, marked: bool, line: &[u8]) -> Result<(), AllocError>
    ensures { OnOk result (bytes.new.items ≡ bytes.old.items ++ shown_line marked number line.now) }
{
    bytes.push(if marked { b'>' } else { b' ' })?;
    bytes.extend_from_slice(Buffer::new().format(number).as_bytes())?;
    bytes.extend_from_slice(b": ")?;
    bytes.extend_from_slice(line)?;
    bytes.push(b'\n')?;
    Ok(())
}
