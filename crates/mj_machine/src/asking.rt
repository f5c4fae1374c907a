// What the instructions do that ask.

ghost use Rattle.std.specs.Prelude.{◌≡◌, ◌+◌, ◌<◌, ◌≤◌, ◌^◌, length, IfOk, OnErr};
ghost use Rattle.mj_semantics.specs.Outcome as told;
ghost use Rattle.mj_semantics.specs.Commands as commands;
ghost use Rattle.mj_machine.specs.Kept.{Does, IsWaiting, Stays, without, replied};

use crate::control::Control;
use crate::machine::{Machine, TurnOutcome};
use crate::quiet::fail;
use crate::stack;
use mj_ask::{Ask, DeviceAsk, Reply};
use mj_text::{Digits, Fault, Text};
use std::alloc::{AllocError, Global};

/// The job waits for the reply to an ask.
pub fn wait(alloc: Global, ask: Ask) -> Result<TurnOutcome, AllocError>
    ensures { IfOk result (λ step. IsWaiting ask step) }
{
    Ok(TurnOutcome::Asks(Box::new(alloc, ask)?))
}

/// Whether a reply says that the device failed.
pub fn is_failed(reply: &Reply) -> bool
    ensures { result ≡ told.is_failed reply.now }
{
    match reply {
        Reply::Failed => true,
        _ => false,
    }
}

/// Writes a text by one ask, or by none where it has no bytes, and then takes `count` operands off and goes on. One above the limit of texts is a fault, and
/// so is it where the device failed.
pub(crate) fn put_out(
    alloc: Global,
    pc: usize,
    count: usize,
    text: Text,
    machine: &mut Machine,
    given: Option<&Reply>,
) -> Result<TurnOutcome, AllocError>
    requires next { pc + 1 < 2 ^ 64 }
    requires enough { count ≤ length machine.old.stack.items }
    ensures ok { IfOk result
        (λ step. Does (λ next. commands.write text (without machine.old pc count next)) machine.old (replied given.entry) step machine.new) }
    ensures err { OnErr result (Stays machine.old machine.new) }
{
    let size = text.len();
    if size == 0 {
        stack::take_off(&mut machine.stack, count);
        machine.control = Control::At(pc + 1);
        return Ok(TurnOutcome::Next);
    }
    let most = machine.bounds.limit.bytes();
    if size > most {
        return Ok(fail(Fault::Length, machine));
    }
    if machine.replied >= machine.bounds.events as u64 {
        return Ok(fail(Fault::Steps, machine));
    }
    match given {
        None => {
            let device = machine.devices.current(alloc)?;
            wait(alloc, Ask::Device(device, DeviceAsk::Write(text)))
        }
        Some(reply) => {
            machine.replied += 1;
            if is_failed(reply) {
                machine.devices.fail_current();
                machine.control = Control::Faulted(Fault::Device);
                return Ok(TurnOutcome::Took);
            }
            let mut digits = Digits::new();
            machine.devices.write(text.bytes(&mut digits));
            stack::take_off(&mut machine.stack, count);
            machine.control = Control::At(pc + 1);
            Ok(TurnOutcome::Took)
        }
    }
}
