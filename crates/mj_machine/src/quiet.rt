// What the instructions do that ask nothing.

ghost use Rattle.std.specs.Prelude.{◌≡◌, ℕ, ◌+◌, ◌<◌, ◌^◌, IfOk, OnErr, ◌≤◌, length};
ghost use Rattle.mj_oper.specs.Operators.{truth_text as text_of_truth};
ghost use Rattle.mj_semantics.specs.State as states;
ghost use Rattle.mj_semantics.specs.Outcome as told;
ghost use Rattle.mj_pcode.specs.declared.instr.Instr.TheVariants as instrs;
ghost use Rattle.mj_machine.specs.Kept.{state_of, DoesAlone, ObeysAlone, Stays};

use crate::control::Control;
use crate::machine::{Machine, TurnOutcome};
use crate::stack;
use mj_ast::Special;
use mj_num::Num;
use mj_pcode::Words;
use mj_text::{Fault, Text};
use std::alloc::{AllocError, Global};

/// A fault, which is told of in the next turn.
pub fn fail(fault: Fault, machine: &mut Machine) -> TurnOutcome
    ensures { DoesAlone (λ next. told.fault fault) machine.old result machine.new }
{
    machine.control = Control::Faulted(fault);
    TurnOutcome::Next
}

/// A text is put on the stack.
#[inline(never)]
pub fn push(pc: usize, text: &Text, machine: &mut Machine) -> Result<TurnOutcome, AllocError>
    requires { pc + 1 < 2 ^ 64 }
    ensures ok { IfOk result (λ step. ObeysAlone (instrs.Push text.now) pc machine.old step machine.new) }
    ensures err { OnErr result (Stays machine.old machine.new) }
{
    let text = text.try_clone()?;
    stack::push(&mut machine.stack, text)?;
    machine.control = Control::At(pc + 1);
    Ok(TurnOutcome::Next)
}

/// The value of a special variable is put on the stack.
#[inline(never)]
pub fn special(
    alloc: Global,
    pc: usize,
    special: Special,
    machine: &mut Machine,
) -> Result<TurnOutcome, AllocError>
    requires { pc + 1 < 2 ^ 64 }
    ensures ok { IfOk result (λ step. ObeysAlone (instrs.PushSpecial special) pc machine.old step machine.new) }
    ensures err { OnErr result (Stays machine.old machine.new) }
{
    let value = special_value(alloc, special, machine)?;
    stack::push(&mut machine.stack, value)?;
    machine.control = Control::At(pc + 1);
    Ok(TurnOutcome::Next)
}

// The value of a special variable.
fn special_value(alloc: Global, special: Special, machine: &Machine) -> Result<Text, AllocError>
    ensures { IfOk result (λ value. value ≡ states.special_value special (state_of machine.now)) }
{
    let value = match special {
        Special::Io => return machine.devices.current(alloc),
        Special::Job => Text::from_number(alloc, machine.job as i64),
        Special::Test => truth_text(alloc, machine.test),
        Special::TLevel => Text::from_number(alloc, machine.level as i64),
        Special::TRestart => Text::from_number(alloc, machine.restarts as i64),
        Special::X => Text::from_number(alloc, machine.devices.column() as i64),
        Special::Y => Text::from_number(alloc, machine.devices.row() as i64),
    };
    Ok(value)
}

// A truth value as a text.
fn truth_text(alloc: Global, truth: bool) -> Text
    ensures { result ≡ text_of_truth truth }
{
    Num::from_truth(truth).to_text(alloc)
}

/// So many operands are taken off.
#[inline(never)]
pub fn discard(pc: usize, count: usize, machine: &mut Machine) -> TurnOutcome
    requires next { pc + 1 < 2 ^ 64 }
    requires enough { count ≤ length machine.old.stack.items }
    ensures { ObeysAlone (instrs.Discard count) pc machine.old result machine.new }
{
    stack::take_off(&mut machine.stack, count);
    machine.control = Control::At(pc + 1);
    TurnOutcome::Next
}

/// All locals go but those of these names.
#[inline(never)]
pub fn kill_except(pc: usize, words: &Words, machine: &mut Machine) -> TurnOutcome
    requires { pc + 1 < 2 ^ 64 }
    ensures { ObeysAlone (instrs.KillExcept words.now) pc machine.old result machine.new }
{
    machine.locals.keep_words(words.as_slice());
    machine.control = Control::At(pc + 1);
    TurnOutcome::Next
}

/// The job goes on at another instruction.
pub fn jump(target: usize, machine: &mut Machine) -> TurnOutcome
    ensures { (pc : ℕ) → ObeysAlone (instrs.Jump target) pc machine.old result machine.new }
{
    machine.control = Control::At(target);
    TurnOutcome::Next
}

/// The job ends.
pub fn halt(machine: &mut Machine) -> TurnOutcome
    ensures { (pc : ℕ) → ObeysAlone instrs.Halt pc machine.old result machine.new }
{
    machine.control = Control::Closing(0, None);
    TurnOutcome::Next
}
