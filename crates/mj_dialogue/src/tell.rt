// Lines.

ghost use Rattle.std.specs.Prelude.{◌≡◌, ◌++◌, ◌∷◌, [], IfOk, OnOk, decimal};
ghost use Rattle.mj_dialogue.specs.Lines.{IsEventLine, held_text, busy_line, spot_line, stop_line, TellsRefusal};

use itoa::Buffer;
use mj_core::{Core, Refusal};
use mj_dev::Device;
use mj_gfile::{put_name, put_text};
use mj_replica::spot_for;
use mj_sessions::Sessions;
use mj_sys::{Held, Opening};
use mj_text::{Digits, Limit, Text};
use mj_trace::{Form, event_line};
use std::alloc::{AllocError, Global};

// Writes a line of these words.
pub fn line(alloc: Global, words: &[u8]) -> Result<Vec<u8>, AllocError>
    ensures { IfOk result (λ bytes. bytes.items ≡ words.now ++ 10 ∷ []) }
{
    let mut bytes = Vec::new(alloc);
    bytes.extend_from_slice(words)?;
    bytes.push(b'\n')?;
    Ok(bytes)
}

// Writes the line of the event at a place of the record, from 0, as a trace of today's form has it, with the place where its ask came from.
pub fn event<D: Device, O: Opening>(
    alloc: Global,
    core: &Core<D, Sessions<D>, O>,
    at: usize,
) -> Result<Vec<u8>, AllocError>
    ensures { IfOk result (λ bytes. IsEventLine O.opening core.now at bytes.items) }
{
    let spot = spot_for(core.place_of(at))?;
    let Some((job, ask, reply)) = core.event(at) else {
        return Ok(Vec::new(alloc));
    };
    let form = Form::Second(Limit::V2);
    let mut bytes = event_line(alloc, form, job, spot.as_ref(), ask, reply)?;
    bytes.push(b'\n')?;
    Ok(bytes)
}

// Writes the line on what another job has.
pub fn busy(alloc: Global, holder: u32, held: &Held) -> Result<Vec<u8>, AllocError>
    ensures { IfOk result (λ bytes. bytes.items ≡ busy_line holder held.now) }
{
    let mut bytes = Vec::new(alloc);
    bytes.extend_from_slice(b"busy ")?;
    bytes.extend_from_slice(Buffer::new().format(holder).as_bytes())?;
    bytes.push(b' ')?;
    put_held(&mut bytes, held)?;
    bytes.push(b'\n')?;
    Ok(bytes)
}

// Writes what is held, as a listing has it: a name, or a device in quotes.
fn put_held(bytes: &mut Vec<u8>, held: &Held) -> Result<(), AllocError>
    ensures { OnOk result (bytes.new.items ≡ bytes.old.items ++ held_text held.now) }
{
    match held {
        Held::Name(name) => put_name(bytes, name.get()),
        Held::Device(device) => put_text(bytes, device),
    }
}

/// Puts a line of a routine to the end: `R:L`, and a line's end.
pub fn put_spot(bytes: &mut Vec<u8>, routine: &Text, line: u32) -> Result<(), AllocError>
    ensures { OnOk result (bytes.new.items ≡ bytes.old.items ++ spot_line routine.now line) }
{
    bytes.extend_from_slice(routine.bytes(&mut Digits::new()))?;
    bytes.push(b':')?;
    bytes.extend_from_slice(Buffer::new().format(line).as_bytes())?;
    bytes.push(b'\n')?;
    Ok(())
}

// Writes the line on a job that stops at a line of a routine.
pub fn stop(alloc: Global, job: u32, routine: &Text, line: u32) -> Result<Vec<u8>, AllocError>
    ensures { IfOk result (λ bytes. bytes.items ≡ stop_line job routine.now line) }
{
    let mut bytes = Vec::new(alloc);
    bytes.extend_from_slice(b"at ")?;
    bytes.extend_from_slice(Buffer::new().format(job).as_bytes())?;
    bytes.push(b' ')?;
    put_spot(&mut bytes, routine, line)?;
    Ok(bytes)
}

// Writes the line on a step that isn't made; want of memory has none.
pub fn refusal(alloc: Global, why: Refusal) -> Result<Vec<u8>, AllocError>
    ensures { IfOk result (λ bytes. TellsRefusal why bytes.items) }
{
    match why {
        Refusal::NoJob => line(alloc, b"C1"),
        Refusal::NotTimed => line(alloc, b"C2"),
        Refusal::Ended => line(alloc, b"C3"),
        Refusal::Full => line(alloc, b"C4"),
        Refusal::Memory => Err(AllocError),
    }
}
