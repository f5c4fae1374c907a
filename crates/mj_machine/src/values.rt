// What the operators, postconditions and WRITE do with operands.

ghost use Rattle.std.specs.Prelude.{◌≡◌, ℕ, ◌+◌, ◌<◌, ◌^◌, List, Result, IfOk, OnErr, ◌≤◌, length};
ghost use Rattle.mj_text.specs.declared.fault.Fault as faults;
ghost use Rattle.mj_oper.specs.declared.op.Op.TheVariants as ops;
ghost use Rattle.mj_strfn.specs.Functions.{AnswersOrMemory};
ghost use Rattle.mj_semantics.specs.Outcome as told;
ghost use Rattle.mj_pcode.specs.declared.instr.Instr.TheVariants as instrs;
ghost use Rattle.mj_machine.specs.Kept.{DidAlone, TakesReply, Obeys, ObeysAlone, Stays, with_value, replied};

use crate::asking::put_out;
use crate::calls::value_of;
use crate::control::Control;
use crate::machine::{Machine, TurnOutcome};
use crate::quiet::fail;
use crate::stack;
use mj_ask::Reply;
use mj_ast::{FormatMark, Function};
use mj_oper::{Op, UnaryOp, binary, of_numbers, truth, unary};
use mj_pcode::Marks;
use mj_text::{Failure, Text};
use std::alloc::{AllocError, Global};

/// Puts what an operator or a function gave in the place of its `count` operands, or fails.
pub fn put_value(
    pc: usize,
    count: usize,
    value: Result<Text, Failure>,
    machine: &mut Machine,
) -> Result<(), AllocError>
    requires next { pc + 1 < 2 ^ 64 }
    requires enough { count ≤ length machine.old.stack.items }
    ensures ok { (r : Result (List ℕ) faults.Fault) → AnswersOrMemory r value
        → IfOk result (λ done. DidAlone (λ next. told.given r (with_value machine.old pc count next)) machine.old machine.new) }
    ensures err { OnErr result (Stays machine.old machine.new) }
    ensures same { (machine.new.replied ≡ machine.old.replied) × (machine.new.devices ≡ machine.old.devices) × (machine.new.restarts ≡ machine.old.restarts) }
{
    match value {
        Ok(text) => {
            stack::replace(&mut machine.stack, count, text)?;
            machine.control = Control::At(pc + 1);
            Ok(())
        }
        Err(failure) => match failure {
            Failure::Fault(fault) => {
                machine.control = Control::Faulted(fault);
                Ok(())
            }
            Failure::Memory => Err(AllocError),
        },
    }
}

/// What a reply brought is put in the place of `count` operands, or it is a fault. The reply is counted, and taken.
pub fn put_told(
    pc: usize,
    count: usize,
    value: Result<Text, Failure>,
    machine: &mut Machine,
) -> Result<TurnOutcome, AllocError>
    requires next { pc + 1 < 2 ^ 64 }
    requires enough { count ≤ length machine.old.stack.items }
    requires more { machine.old.replied < machine.old.bounds.events }
    ensures ok { (r : Result (List ℕ) faults.Fault) → AnswersOrMemory r value
        → IfOk result (λ step. TakesReply (λ next. told.given r (with_value machine.old pc count next)) machine.old step machine.new) }
    ensures err { OnErr result (Stays machine.old machine.new) }
{
    machine.replied += 1;
    match put_value(pc, count, value, machine) {
        Ok(()) => Ok(TurnOutcome::Took),
        Err(error) => {
            machine.replied -= 1;
            Err(error)
        }
    }
}

/// An operator before its operand.
#[inline(never)]
pub fn apply_unary(
    alloc: Global,
    pc: usize,
    op: UnaryOp,
    machine: &mut Machine,
) -> Result<TurnOutcome, AllocError>
    requires next { pc + 1 < 2 ^ 64 }
    requires enough { 1 ≤ length machine.old.stack.items }
    ensures ok { IfOk result (λ step. ObeysAlone (instrs.Unary op) pc machine.old step machine.new) }
    ensures err { OnErr result (Stays machine.old machine.new) }
{
    let value = unary(alloc, op, stack::top(&machine.stack));
    put_value(pc, 1, value, machine)?;
    Ok(TurnOutcome::Next)
}

/// An operator between its operands.
#[inline(never)]
pub fn apply_binary(
    alloc: Global,
    pc: usize,
    op: Op,
    machine: &mut Machine,
) -> Result<TurnOutcome, AllocError>
    requires next { pc + 1 < 2 ^ 64 }
    requires enough { 2 ≤ length machine.old.stack.items }
    ensures ok { IfOk result (λ step. ObeysAlone (instrs.Binary op) pc machine.old step machine.new) }
    ensures err { OnErr result (Stays machine.old machine.new) }
{
    if let Op::Join = op {
        return apply_join(pc, machine);
    }
    let number = of_numbers(
        op,
        stack::second(&machine.stack),
        stack::top(&machine.stack),
    );
    match number {
        Some(number) => {
            stack::fold(&mut machine.stack, number.to_text(alloc));
            machine.control = Control::At(pc + 1);
            Ok(TurnOutcome::Next)
        }
        None => apply_texts(alloc, pc, op, machine),
    }
}

// `_`, which lies apart as that does.
#[inline(never)]
fn apply_join(pc: usize, machine: &mut Machine) -> Result<TurnOutcome, AllocError>
    requires next { pc + 1 < 2 ^ 64 }
    requires enough { 2 ≤ length machine.old.stack.items }
    ensures ok { IfOk result (λ step. ObeysAlone (instrs.Binary ops.Join) pc machine.old step machine.new) }
    ensures err { OnErr result (Stays machine.old machine.new) }
{
    let limit = machine.bounds.limit;
    match stack::join(&mut machine.stack, limit) {
        Ok(()) => {
            machine.control = Control::At(pc + 1);
            Ok(TurnOutcome::Next)
        }
        Err(Failure::Fault(fault)) => {
            machine.control = Control::Faulted(fault);
            Ok(TurnOutcome::Next)
        }
        Err(Failure::Memory) => Err(AllocError),
    }
}

// An operator between operands that may be any texts. It lies apart, so that numbers don't clear its room.
#[inline(never)]
fn apply_texts(
    alloc: Global,
    pc: usize,
    op: Op,
    machine: &mut Machine,
) -> Result<TurnOutcome, AllocError>
    requires next { pc + 1 < 2 ^ 64 }
    requires enough { 2 ≤ length machine.old.stack.items }
    ensures ok { IfOk result (λ step. ObeysAlone (instrs.Binary op) pc machine.old step machine.new) }
    ensures err { OnErr result (Stays machine.old machine.new) }
{
    let value = binary(
        alloc,
        op,
        stack::second(&machine.stack),
        stack::top(&machine.stack),
        machine.bounds.limit,
    );
    put_value(pc, 2, value, machine)?;
    Ok(TurnOutcome::Next)
}

/// A function of the topmost `count` operands.
#[inline(never)]
pub fn call(
    alloc: Global,
    pc: usize,
    function: Function,
    count: usize,
    machine: &mut Machine,
) -> Result<TurnOutcome, AllocError>
    requires next { pc + 1 < 2 ^ 64 }
    requires enough { count ≤ length machine.old.stack.items }
    ensures ok { IfOk result (λ step. ObeysAlone (instrs.CallFunction function count) pc machine.old step machine.new) }
    ensures err { OnErr result (Stays machine.old machine.new) }
{
    let value = value_of(
        alloc,
        function,
        stack::topmost(&machine.stack, count),
        machine.bounds.limit,
    );
    put_value(pc, count, value, machine)?;
    Ok(TurnOutcome::Next)
}

/// A postcondition.
#[inline(never)]
pub fn test(pc: usize, target: usize, machine: &mut Machine) -> Result<TurnOutcome, AllocError>
    requires next { pc + 1 < 2 ^ 64 }
    requires enough { 1 ≤ length machine.old.stack.items }
    ensures ok { IfOk result (λ step. ObeysAlone (instrs.JumpUnless target) pc machine.old step machine.new) }
    ensures err { OnErr result (Stays machine.old machine.new) }
{
    match truth(stack::top(&machine.stack)) {
        Ok(holds) => {
            stack::take_one(&mut machine.stack);
            machine.control = Control::At(if holds { pc + 1 } else { target });
            Ok(TurnOutcome::Next)
        }
        Err(Failure::Fault(fault)) => Ok(fail(fault, machine)),
        Err(Failure::Memory) => Err(AllocError),
    }
}

/// A text is written.
#[inline(never)]
pub fn write(
    alloc: Global,
    pc: usize,
    machine: &mut Machine,
    given: Option<&Reply>,
) -> Result<TurnOutcome, AllocError>
    requires next { pc + 1 < 2 ^ 64 }
    requires enough { 1 ≤ length machine.old.stack.items }
    ensures ok { IfOk result (λ step. Obeys instrs.Write pc machine.old (replied given.entry) step machine.new) }
    ensures err { OnErr result (Stays machine.old machine.new) }
{
    let text = stack::top(&machine.stack).try_clone()?;
    put_out(alloc, pc, 1, text, machine, given)
}
