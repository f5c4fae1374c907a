// What is written of a fault.

ghost use Rattle.std.specs.Prelude.{◌≡◌, ◌≤◌, ◌+◌, ◌++◌, length, IfOk, OnOk};
ghost use Rattle.mj_semantics.specs.Faults.{place_text};
ghost use Rattle.mj_semantics.specs.Outcome.{fault_bytes};
ghost use Rattle.mj_frames.specs.Places.{line_at};
ghost use Rattle.mj_turn.specs.Faults.{told_bytes};
ghost use Rattle.mj_machine.specs.Kept.{state_of};

use itoa::Buffer;
use mj_frames::Place;
use mj_machine::Machine;
use mj_text::{Digits, Failure, Fault, Text};
use std::alloc::{AllocError, Global};

/// Makes the line that tells of a fault in the innermost frame, or in none; with its end, and at the beginning of a line of the
/// device.
pub fn fault_text(alloc: Global, fault: Fault, machine: &Machine) -> Result<Text, AllocError>
    ensures { IfOk result (λ t. t ≡ fault_bytes fault (state_of machine.now)) }
{
    told_text(
        alloc,
        fault,
        machine.devices.principal_column(),
        machine.frames.place(),
    )
}

// Makes that line by the column of the device and the place.
fn told_text(
    alloc: Global,
    fault: Fault,
    column: u64,
    place: Option<&Place>,
) -> Result<Text, AllocError>
    ensures { IfOk result (λ t. t ≡ told_bytes fault column (line_at place.entry)) }
{
    let mut line = Vec::new(alloc);
    if column != 0 {
        line.push(b'\n')?;
    }
    line.extend_from_slice(fault.name().as_bytes())?;
    line.push(b' ')?;
    put_line(&mut line, place)?;
    line.push(b'\n')?;
    match Text::from(alloc, &line) {
        Ok(text) => Ok(text),
        Err(Failure::Memory) => Err(AllocError),
        Err(Failure::Fault(_)) => unreachable!(),
    }
}

// Writes a place, or `-` where there is none.
fn put_line(line: &mut Vec<u8>, place: Option<&Place>) -> Result<(), AllocError>
    ensures text { OnOk result (line.new.items ≡ line.old.items ++ place_text (line_at place.entry)) }
    ensures short { OnOk result (length line.new.items ≤ length line.old.items + 72) }
{
    match place {
        None => line.push(b'-')?,
        Some(place) => {
            line.extend_from_slice(place.routine.bytes(&mut Digits::new()))?;
            line.push(b':')?;
            line.extend_from_slice(Buffer::new().format(place.line).as_bytes())?;
        }
    }
    Ok(())
}
