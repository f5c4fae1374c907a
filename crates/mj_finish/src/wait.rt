// What a job waits for.

ghost use Rattle.std.specs.Prelude.{◌≡◌, ◌++◌, OnOk, decimal};
ghost use Rattle.std.specs.Option.{option_map};
ghost use Rattle.mj_finish.specs.Printed.{at_line, wait_line, held_by, idle_line, last_line, place_text, taken_line};

use itoa::Buffer;
use mj_text::{Digits, Text};
use std::alloc::AllocError;

/// Puts a line to the end of some bytes: what a job waits for, and who has it and stands at this place. Where memory is refused a part of it may
/// stand there.
pub fn put_wait(
    bytes: &mut Vec<u8>,
    job: u32,
    what: &[u8],
    holder: u32,
    place: Option<(&Text, u32)>,
) -> Result<(), AllocError>
    ensures { OnOk result (bytes.new.items ≡ bytes.old.items ++ wait_line job what.now holder (option_map (λ p. (p.0.now, p.1)) place.entry)) }
{
    put_numbered(bytes, b"job ", job)?;
    bytes.extend_from_slice(b" waits for ")?;
    bytes.extend_from_slice(what)?;
    put_holder(bytes, holder, place)
}

/// Puts a line to the end of some bytes: that a job waits for something to read. Where memory is refused a part of it may stand there.
pub fn put_idle(bytes: &mut Vec<u8>, job: u32) -> Result<(), AllocError>
    ensures { OnOk result (bytes.new.items ≡ bytes.old.items ++ idle_line job) }
{
    put_numbered(bytes, b"job ", job)?;
    bytes.extend_from_slice(b" waits for input\n")
}

/// Puts a line to the end of some bytes: where a job took what it has. Where memory is refused a part of it may stand there.
pub fn put_taken(
    bytes: &mut Vec<u8>,
    job: u32,
    what: &[u8],
    place: Option<(&Text, u32)>,
) -> Result<(), AllocError>
    ensures { OnOk result (bytes.new.items ≡ bytes.old.items ++ taken_line job what.now (option_map (λ p. (p.0.now, p.1)) place.entry)) }
{
    put_numbered(bytes, b"    job ", job)?;
    bytes.extend_from_slice(b" took ")?;
    bytes.extend_from_slice(what)?;
    put_at(bytes, b" at ", place)
}

/// Puts a line to the end of some bytes: where a job asked last. Where memory is refused a part of it may stand there.
pub fn put_last(
    bytes: &mut Vec<u8>,
    job: u32,
    place: Option<(&Text, u32)>,
) -> Result<(), AllocError>
    ensures { OnOk result (bytes.new.items ≡ bytes.old.items ++ last_line job (option_map (λ p. (p.0.now, p.1)) place.entry)) }
{
    put_numbered(bytes, b"    job ", job)?;
    put_at(bytes, b" asked last at ", place)?;
    Ok(())
}

// Writes some words, a place, and the end of the line.
fn put_at(bytes: &mut Vec<u8>, words: &[u8], place: Option<(&Text, u32)>) -> Result<(), AllocError>
    ensures { OnOk result (bytes.new.items ≡ bytes.old.items ++ at_line words.now (option_map (λ p. (p.0.now, p.1)) place.entry)) }
{
    bytes.extend_from_slice(words)?;
    put_place(bytes, place)?;
    bytes.push(b'\n')?;
    Ok(())
}

// Writes the rest of a line: who has it.
fn put_holder(
    bytes: &mut Vec<u8>,
    holder: u32,
    place: Option<(&Text, u32)>,
) -> Result<(), AllocError>
    ensures { OnOk result (bytes.new.items ≡ bytes.old.items ++ held_by holder (option_map (λ p. (p.0.now, p.1)) place.entry)) }
{
    put_numbered(bytes, b", held by job ", holder)?;
    bytes.extend_from_slice(b" at ")?;
    put_place(bytes, place)?;
    bytes.push(b'\n')?;
    Ok(())
}

/// Puts some words and a number to the end of some bytes.
pub fn put_numbered(bytes: &mut Vec<u8>, words: &[u8], number: u32) -> Result<(), AllocError>
    ensures { OnOk result (bytes.new.items ≡ bytes.old.items ++ (words.now ++ decimal number)) }
{
    bytes.extend_from_slice(words)?;
    bytes.extend_from_slice(Buffer::new().format(number).as_bytes())
}

// Writes a routine and a line of it, or `-` for none.
fn put_place(bytes: &mut Vec<u8>, place: Option<(&Text, u32)>) -> Result<(), AllocError>
    ensures { OnOk result (bytes.new.items ≡ bytes.old.items ++ place_text (option_map (λ p. (p.0.now, p.1)) place.entry)) }
{
    let Some((routine, line)) = place else {
        bytes.push(b'-')?;
        return Ok(());
    };
    bytes.extend_from_slice(routine.bytes(&mut Digits::new()))?;
    bytes.push(b':')?;
    bytes.extend_from_slice(Buffer::new().format(line).as_bytes())
}
