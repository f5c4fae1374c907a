// WRITE, where what it sends depends on the column, or is the byte of a code.

ghost use Rattle.std.specs.Prelude.{◌≡◌, ◌+◌, ◌-◌, ◌<◌, ◌≤◌, ◌^◌, ◌++◌, replicate, IfOk, OnErr, length, map};
ghost use Rattle.mj_strfn.specs.Functions.{place as place_of};
ghost use Rattle.mj_semantics.specs.State as states;
ghost use Rattle.mj_semantics.specs.Commands as commands;
ghost use Rattle.mj_pcode.specs.declared.instr.Instr.TheVariants as instrs;
ghost use Rattle.mj_machine.specs.Kept.{Obeys, Stays, replied};
ghost use Rattle.mj_device_ops.specs.Talked.{coded_by};

use mj_ask::Reply;
use mj_ast::FormatMark;
use mj_machine::format::{put_bytes, spelled};
use mj_machine::quiet::fail;
use mj_machine::{Machine, TurnOutcome, stack};
use mj_num::Num;
use mj_pcode::Marks;
use mj_text::Fault;
use std::alloc::{AllocError, Global};

/// Writes marks, and then spaces up to the column that the topmost operand says.
#[inline(never)]
pub fn tab(
    alloc: Global,
    pc: usize,
    marks: &Marks,
    machine: &mut Machine,
    given: Option<&Reply>,
) -> Result<TurnOutcome, AllocError>
    requires next { pc + 1 < 2 ^ 64 }
    requires enough { 1 ≤ length machine.old.stack.items }
    ensures ok { IfOk result (λ step. Obeys (instrs.WriteTab marks.now) pc machine.old (replied given.entry) step machine.new) }
    ensures err { OnErr result (Stays machine.old machine.new) }
{
    let column = match Num::read(stack::top(&machine.stack)) {
        Ok(column) => column,
        Err(fault) => return Ok(fail(fault, machine)),
    };
    let spaces = spaces(marks.as_slice(), machine.devices.column(), column);
    let most = machine.bounds.limit.bytes();
    if spaces > most as u64 {
        return Ok(fail(Fault::Length, machine));
    }
    let bytes = filled(alloc, marks.as_slice(), spaces as usize)?;
    put_bytes(alloc, pc, 1, &bytes, machine, given)
}

// Counts the spaces from where marks end, which begin at a column, to another column: none to one that lies before it.
fn spaces(marks: &[FormatMark], from: u64, to: Num) -> u64
    ensures { result ≡ place_of to - states.column_after from (map commands.mark_byte marks.now) }
{
    let to = place(to);
    if marks.is_empty() {
        to.saturating_sub(from)
    } else {
        // each mark leads to a line's start
        to
    }
}

// Takes a number for a column: 0 for one below 0.
fn place(number: Num) -> u64
    ensures { result ≡ place_of number }
{
    number.value().max(0) as u64
}

// Makes the bytes of marks, and spaces.
fn filled(alloc: Global, marks: &[FormatMark], spaces: usize) -> Result<Vec<u8>, AllocError>
    ensures { IfOk result (λ bytes. bytes.items ≡ map commands.mark_byte marks.now ++ replicate spaces 32) }
{
    let mut bytes = spelled(alloc, marks)?;
    let blanks = vec![in alloc; b' '; spaces]?;
    bytes.extend_from_slice(&blanks)?;
    Ok(bytes)
}

/// Writes the byte whose code the topmost operand says.
#[inline(never)]
pub fn write_byte(
    alloc: Global,
    pc: usize,
    machine: &mut Machine,
    given: Option<&Reply>,
) -> Result<TurnOutcome, AllocError>
    requires next { pc + 1 < 2 ^ 64 }
    requires enough { 1 ≤ length machine.old.stack.items }
    ensures ok { IfOk result (λ step. Obeys instrs.WriteByte pc machine.old (replied given.entry) step machine.new) }
    ensures err { OnErr result (Stays machine.old machine.new) }
{
    let code = match Num::read(stack::top(&machine.stack)) {
        Ok(code) => code,
        Err(fault) => return Ok(fail(fault, machine)),
    };
    match byte_of(code) {
        None => Ok(fail(Fault::Char, machine)),
        Some(byte) => put_bytes(alloc, pc, 1, &[byte], machine, given),
    }
}

// Makes the byte of a code, if it is one.
fn byte_of(code: Num) -> Option<u8>
    ensures { coded_by result ≡ commands.coded code }
{
    match u8::try_from(code.value()) {
        Ok(byte) => Some(byte),
        Err(_) => None,
    }
}
