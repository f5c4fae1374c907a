// NEW.

ghost use Rattle.std.specs.Prelude.{◌+◌, ◌<◌, ◌^◌, IfOk, OnErr};
ghost use Rattle.mj_pcode.specs.declared.instr.Instr.TheVariants as instrs;
ghost use Rattle.mj_machine.specs.Kept.{ObeysAlone, Stays};

use mj_machine::{Control, Machine, TurnOutcome};
use mj_pcode::Words;
use std::alloc::AllocError;

/// Saves the locals of these names, and takes their values away.
#[inline(never)]
pub fn new_words(pc: usize, words: &Words, machine: &mut Machine) -> Result<TurnOutcome, AllocError>
    requires { pc + 1 < 2 ^ 64 }
    ensures ok { IfOk result (λ step. ObeysAlone (instrs.New words.now) pc machine.old step machine.new) }
    ensures err { OnErr result (Stays machine.old machine.new) }
{
    machine.locals.new_words(words.as_slice())?;
    machine.control = Control::At(pc + 1);
    Ok(TurnOutcome::Next)
}

/// Saves all locals but those of these names, and takes their values away.
#[inline(never)]
pub fn new_except(
    pc: usize,
    words: &Words,
    machine: &mut Machine,
) -> Result<TurnOutcome, AllocError>
    requires { pc + 1 < 2 ^ 64 }
    ensures ok { IfOk result (λ step. ObeysAlone (instrs.NewExcept words.now) pc machine.old step machine.new) }
    ensures err { OnErr result (Stays machine.old machine.new) }
{
    machine.locals.new_except(words.as_slice())?;
    machine.control = Control::At(pc + 1);
    Ok(TurnOutcome::Next)
}
