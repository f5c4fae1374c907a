// IF, ELSE, and the lines of a frame.

ghost use Rattle.std.specs.Prelude.{◌+◌, ◌<◌, ◌^◌, ◌≤◌, ℕ, List, length, Some, None, IfOk, OnErr, if◌then◌else◌};
ghost use Rattle.mj_pcode.specs.declared.instr.Instr.TheVariants as instrs;
ghost use Rattle.mj_pcode.specs.declared.instr.Unit as pcode_units;
ghost use Rattle.mj_machine.specs.Kept.{ActsAlone, ObeysAlone, Stays};
ghost use Rattle.mj_turn.specs.Units.{IsSmall};

use crate::calling::take_tally;
use crate::leaving::leave;
use mj_machine::quiet::fail;
use mj_machine::{Control, Machine, TurnOutcome, stack};
use mj_oper::truth;
use mj_pcode::{LineStart, Unit};
use mj_text::Failure;
use std::alloc::AllocError;

/// Sets `$TEST` to the truth of the topmost operand.
#[inline(never)]
pub fn set_test(pc: usize, target: usize, machine: &mut Machine) -> Result<TurnOutcome, AllocError>
    requires next { pc + 1 < 2 ^ 64 }
    requires enough { 1 ≤ length machine.old.stack.items }
    ensures ok { IfOk result (λ step. ObeysAlone (instrs.SetTest target) pc machine.old step machine.new) }
    ensures err { OnErr result (Stays machine.old machine.new) }
{
    match truth(stack::top(&machine.stack)) {
        Ok(holds) => {
            stack::take_one(&mut machine.stack);
            machine.test = holds;
            machine.control = Control::At(if holds { pc + 1 } else { target });
            Ok(TurnOutcome::Next)
        }
        Err(Failure::Fault(fault)) => Ok(fail(fault, machine)),
        Err(Failure::Memory) => Err(AllocError),
    }
}

/// Goes on behind this instruction where `$TEST` is so, and else at another.
pub fn branch(pc: usize, wanted: bool, target: usize, machine: &mut Machine) -> TurnOutcome
    requires { pc + 1 < 2 ^ 64 }
    ensures { ObeysAlone (if wanted then instrs.JumpUnlessTest target else instrs.JumpIfTest target) pc machine.old result machine.new }
{
    machine.control = Control::At(if machine.test == wanted {
        pc + 1
    } else {
        target
    });
    TurnOutcome::Next
}

/// Enters a line that is at the frame's level, and passes over a deeper one. Where it is less deep, the frame is over. At a
/// line that a call leads to, a turn takes the tally of a formal off first, as long as there is one.
#[inline(never)]
pub fn enter_line(
    unit: &Unit,
    pc: usize,
    line: LineStart,
    machine: &mut Machine,
) -> Result<TurnOutcome, AllocError>
    requires next { pc + 1 < 2 ^ 64 }
    requires small { IsSmall unit.now }
    ensures ok { IfOk result (λ step. (all : List pcode_units.Unit) → ActsAlone all unit.now (Some (instrs.Line line)) pc machine.old step machine.new) }
    ensures err { OnErr result (Stays machine.old machine.new) }
{
    if !machine.stack.is_empty() {
        return Ok(take_tally(pc, machine));
    }
    let level = machine.frames.level();
    if line.level < level {
        return leave(unit, line.line.saturating_sub(1), machine);
    }
    if level < line.level {
        machine.control = Control::At(line.next);
        return Ok(TurnOutcome::Next);
    }
    machine.frames.enter(&unit.name, line.line)?;
    machine.control = Control::At(pc + 1);
    Ok(TurnOutcome::Next)
}

/// Ends the frame at the end of its unit.
#[inline(never)]
pub fn end_unit(unit: &Unit, machine: &mut Machine) -> Result<TurnOutcome, AllocError>
    requires { IsSmall unit.now }
    ensures ok { IfOk result (λ step. (all : List pcode_units.Unit) (pc : ℕ) → ActsAlone all unit.now None pc machine.old step machine.new) }
    ensures err { OnErr result (Stays machine.old machine.new) }
{
    leave(unit, unit.heads.len() as u32, machine)
}
