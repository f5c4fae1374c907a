// HANG, and timeouts that are looked at.

ghost use Rattle.std.specs.Prelude.{◌≡◌, ◌+◌, ◌<◌, ◌≤◌, ◌^◌, IfOk, OnErr, length};
ghost use Rattle.mj_pcode.specs.declared.instr.Instr.TheVariants as instrs;
ghost use Rattle.mj_machine.specs.Kept.{Obeys, ObeysAlone, Stays, replied};

use mj_ask::{Ask, Reply};
use mj_machine::asking::wait;
use mj_machine::quiet::fail;
use mj_machine::{Control, Machine, TurnOutcome, stack};
use mj_num::Num;
use mj_text::Fault;
use std::alloc::{AllocError, Global};

/// Goes on where the topmost operand reads as a number, and faults where it doesn't.
pub fn number(pc: usize, machine: &mut Machine) -> TurnOutcome
    requires next { pc + 1 < 2 ^ 64 }
    requires enough { 1 ≤ length machine.old.stack.items }
    ensures { ObeysAlone instrs.CheckNumber pc machine.old result machine.new }
{
    match Num::read(stack::top(&machine.stack)) {
        Ok(_) => {
            machine.control = Control::At(pc + 1);
            TurnOutcome::Next
        }
        Err(fault) => fail(fault, machine),
    }
}

/// Waits as many seconds as the topmost operand says, if there are any.
#[inline(never)]
pub fn hang(
    alloc: Global,
    pc: usize,
    machine: &mut Machine,
    given: Option<&Reply>,
) -> Result<TurnOutcome, AllocError>
    requires next { pc + 1 < 2 ^ 64 }
    requires enough { 1 ≤ length machine.old.stack.items }
    ensures ok { IfOk result (λ step. Obeys instrs.Hang pc machine.old (replied given.entry) step machine.new) }
    ensures err { OnErr result (Stays machine.old machine.new) }
{
    let time = match Num::read(stack::top(&machine.stack)) {
        Ok(time) => time,
        Err(fault) => return Ok(fail(fault, machine)),
    };
    if !Num::from_truth(false).is_less(time) {
        stack::take_one(&mut machine.stack);
        machine.control = Control::At(pc + 1);
        return Ok(TurnOutcome::Next);
    }
    if machine.replied >= machine.bounds.events as u64 {
        return Ok(fail(Fault::Steps, machine));
    }
    match given {
        None => wait(alloc, Ask::Rest(time)),
        Some(_) => {
            machine.replied += 1;
            stack::take_one(&mut machine.stack);
            machine.control = Control::At(pc + 1);
            Ok(TurnOutcome::Took)
        }
    }
}
