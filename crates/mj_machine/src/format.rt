// What a format writes.

ghost use Rattle.std.specs.Prelude.{◌≡◌, ◌+◌, ◌<◌, ◌≤◌, ◌^◌, length, map, IfOk, OnErr};
ghost use Rattle.mj_semantics.specs.Commands as commands;
ghost use Rattle.mj_pcode.specs.declared.instr.Instr.TheVariants as instrs;
ghost use Rattle.mj_machine.specs.Kept.{Does, Obeys, Stays, without, replied};

use crate::asking::put_out;
use crate::machine::{Machine, TurnOutcome};
use crate::quiet::fail;
use mj_ask::Reply;
use mj_ast::FormatMark;
use mj_pcode::Marks;
use mj_text::{Failure, Fault, Text};
use std::alloc::{AllocError, Global};

/// The byte that a mark writes.
fn mark_byte(mark: FormatMark) -> u8
    ensures { result ≡ commands.mark_byte mark }
{
    match mark {
        FormatMark::NewLine => b'\n',
        FormatMark::NewPage => 0x0c,
    }
}

/// The bytes that marks write.
pub fn spelled(alloc: Global, marks: &[FormatMark]) -> Result<Vec<u8>, AllocError>
    ensures { IfOk result (λ bytes. bytes.items ≡ map commands.mark_byte marks.now) }
{
    let mut bytes = Vec::new(alloc);
    for mark in marks {
        bytes.push(mark_byte(*mark))?;
    }
    Ok(bytes)
}

/// Marks are written.
#[inline(never)]
pub fn write_marks(
    alloc: Global,
    pc: usize,
    marks: &Marks,
    machine: &mut Machine,
    given: Option<&Reply>,
) -> Result<TurnOutcome, AllocError>
    requires { pc + 1 < 2 ^ 64 }
    ensures ok { IfOk result (λ step. Obeys (instrs.WriteFormat marks.now) pc machine.old (replied given.entry) step machine.new) }
    ensures err { OnErr result (Stays machine.old machine.new) }
{
    let bytes = spelled(alloc, marks.as_slice())?;
    put_bytes(alloc, pc, 0, &bytes, machine, given)
}

/// Writes bytes by one ask, or by none where there are none, and then takes `count` operands off and goes on. More than the limit of texts are a fault, and
/// so is it where the device failed.
pub fn put_bytes(
    alloc: Global,
    pc: usize,
    count: usize,
    bytes: &[u8],
    machine: &mut Machine,
    given: Option<&Reply>,
) -> Result<TurnOutcome, AllocError>
    requires next { pc + 1 < 2 ^ 64 }
    requires enough { count ≤ length machine.old.stack.items }
    ensures ok { IfOk result
        (λ step. Does (λ next. commands.write bytes.now (without machine.old pc count next)) machine.old (replied given.entry) step machine.new) }
    ensures err { OnErr result (Stays machine.old machine.new) }
{
    match Text::from(alloc, bytes) {
        Ok(text) => put_out(alloc, pc, count, text, machine, given),
        Err(failure) => match failure {
            Failure::Fault(_) => Ok(fail(Fault::Length, machine)),
            Failure::Memory => Err(AllocError),
        },
    }
}
