// CLOSE.

ghost use Rattle.std.specs.Prelude.{ℕ, ◌+◌, ◌<◌, ◌≤◌, ◌^◌, IfOk, OnErr, length};
ghost use Rattle.mj_ask.specs.declared.ask.Ask.TheVariants as asks;
ghost use Rattle.mj_ask.specs.declared.ask.SharedAsk.TheVariants as shared_asks;
ghost use Rattle.mj_pcode.specs.Machine.{top};
ghost use Rattle.mj_pcode.specs.declared.instr.Instr.TheVariants as instrs;
ghost use Rattle.mj_machine.specs.Kept.{stack_of, IsWaiting, Obeys, Stays, replied};

use mj_ask::{Ask, DeviceAsk, Reply, SharedAsk};
use mj_machine::asking::{is_failed, wait};
use mj_machine::quiet::fail;
use mj_machine::{Control, Machine, TurnOutcome, stack};
use mj_text::Fault;
use std::alloc::{AllocError, Global};

/// Ends the session of the device that the topmost operand names; the device isn't open any more. The instruction behind goes on where the session
/// didn't end well, the next one where it did, and the one after that where the job has no such device to close.
#[inline(never)]
pub fn end_session(
    alloc: Global,
    pc: usize,
    machine: &mut Machine,
    given: Option<&Reply>,
) -> Result<TurnOutcome, AllocError>
    requires next { pc + 3 < 2 ^ 64 }
    requires enough { 1 ≤ length machine.old.stack.items }
    ensures ok { IfOk result (λ step. Obeys instrs.EndSession pc machine.old (replied given.entry) step machine.new) }
    ensures err { OnErr result (Stays machine.old machine.new) }
{
    if !machine.devices.may_close(stack::top(&machine.stack)) {
        stack::take_one(&mut machine.stack);
        machine.control = Control::At(pc + 3);
        return Ok(TurnOutcome::Next);
    }
    if machine.replied >= machine.bounds.events as u64 {
        return Ok(fail(Fault::Steps, machine));
    }
    match given {
        None => {
            let name = stack::top(&machine.stack).try_clone()?;
            wait(alloc, Ask::Device(name, DeviceAsk::End))
        }
        Some(reply) => {
            machine.replied += 1;
            machine.devices.remove(stack::top(&machine.stack));
            machine.control = Control::At(if is_failed(reply) { pc + 1 } else { pc + 2 });
            Ok(TurnOutcome::Took)
        }
    }
}

/// Gives up the name of a device whose session didn't end well, and faults.
#[inline(never)]
pub fn give_up_failed(
    alloc: Global,
    machine: &mut Machine,
    given: Option<&Reply>,
) -> Result<TurnOutcome, AllocError>
    requires { 1 ≤ length machine.old.stack.items }
    ensures ok { IfOk result (λ step. (pc : ℕ) → Obeys instrs.GiveUpFailedDevice pc machine.old (replied given.entry) step machine.new) }
    ensures err { OnErr result (Stays machine.old machine.new) }
{
    if machine.replied >= machine.bounds.events as u64 {
        return Ok(fail(Fault::Steps, machine));
    }
    match given {
        None => ask_to_give_up(alloc, machine),
        Some(_) => {
            machine.replied += 1;
            machine.control = Control::Faulted(Fault::Device);
            Ok(TurnOutcome::Took)
        }
    }
}

/// Gives up the name of a device.
#[inline(never)]
pub fn give_up(
    alloc: Global,
    pc: usize,
    machine: &mut Machine,
    given: Option<&Reply>,
) -> Result<TurnOutcome, AllocError>
    requires next { pc + 1 < 2 ^ 64 }
    requires enough { 1 ≤ length machine.old.stack.items }
    ensures ok { IfOk result (λ step. Obeys instrs.GiveUpDevice pc machine.old (replied given.entry) step machine.new) }
    ensures err { OnErr result (Stays machine.old machine.new) }
{
    if machine.replied >= machine.bounds.events as u64 {
        return Ok(fail(Fault::Steps, machine));
    }
    match given {
        None => ask_to_give_up(alloc, machine),
        Some(_) => {
            machine.replied += 1;
            stack::take_one(&mut machine.stack);
            machine.control = Control::At(pc + 1);
            Ok(TurnOutcome::Took)
        }
    }
}

// Asks that the device that the topmost operand names be given up.
fn ask_to_give_up(alloc: Global, machine: &Machine) -> Result<TurnOutcome, AllocError>
    requires { 1 ≤ length machine.now.stack.items }
    ensures { IfOk result (λ step. IsWaiting (asks.Shared (shared_asks.Close (top (stack_of machine.now)))) step) }
{
    let name = stack::top(&machine.stack).try_clone()?;
    wait(alloc, Ask::Shared(SharedAsk::Close(name)))
}
