// READ.

ghost use Rattle.std.specs.Prelude.{◌≡◌, ◌+◌, ◌<◌, ◌≤◌, ◌^◌, IfOk, OnErr, length};
ghost use Rattle.mj_semantics.specs.Devices as devices;
ghost use Rattle.mj_pcode.specs.Machine as machines;
ghost use Rattle.mj_pcode.specs.declared.instr.Instr.TheVariants as instrs;
ghost use Rattle.mj_machine.specs.Kept.{Obeys, TakesReply, Stays, with_value, replied};
ghost use Rattle.mj_device_ops.specs.Talked.{input_taken};

use crate::timed::test_in;
use mj_ask::{Ask, DeviceAsk, Reply};
use mj_ast::ReadMode;
use mj_lock_ops::timed::{timeout_of, wait_size};
use mj_machine::asking::{self, is_failed};
use mj_machine::quiet::fail;
use mj_machine::{Control, Machine, TurnOutcome, stack};
use mj_num::Num;
use mj_pcode::Wait;
use mj_text::{Fault, Text};
use std::alloc::{AllocError, Global};

/// Reads a line or a byte from the current device, and puts it on the stack in the place of the timeout.
#[inline(never)]
pub fn read(
    alloc: Global,
    pc: usize,
    mode: ReadMode,
    wait: Wait,
    machine: &mut Machine,
    given: Option<&Reply>,
) -> Result<TurnOutcome, AllocError>
    requires next { pc + 1 < 2 ^ 64 }
    requires enough { machines.wait_size wait ≤ length machine.old.stack.items }
    ensures ok { IfOk result (λ step. Obeys (instrs.Read mode wait) pc machine.old (replied given.entry) step machine.new) }
    ensures err { OnErr result (Stays machine.old machine.new) }
{
    let timeout = match timeout_of(wait, &machine.stack) {
        Ok(timeout) => timeout,
        Err(fault) => return Ok(fail(fault, machine)),
    };
    if machine.replied >= machine.bounds.events as u64 {
        return Ok(fail(Fault::Steps, machine));
    }
    match given {
        None => {
            let device = machine.devices.current(alloc)?;
            asking::wait(alloc, Ask::Device(device, input_ask(mode, timeout)))
        }
        Some(reply) => take_input(alloc, pc, mode, wait_size(wait), timeout, reply, machine),
    }
}

// Makes the ask for it.
fn input_ask(mode: ReadMode, timeout: Option<Num>) -> DeviceAsk
    ensures { result ≡ devices.input_ask mode timeout }
{
    match mode {
        ReadMode::Line => DeviceAsk::Line(timeout),
        ReadMode::Byte => DeviceAsk::Byte(timeout),
    }
}

// Takes the reply to it. That the device failed is a fault.
fn take_input(
    alloc: Global,
    pc: usize,
    mode: ReadMode,
    above: usize,
    timeout: Option<Num>,
    reply: &Reply,
    machine: &mut Machine,
) -> Result<TurnOutcome, AllocError>
    requires next { pc + 1 < 2 ^ 64 }
    requires enough { above ≤ length machine.old.stack.items }
    requires more { machine.old.replied < machine.old.bounds.events }
    ensures ok { IfOk result (λ step. TakesReply (λ next.
        input_taken machine.old.devices.current mode timeout reply.now (with_value machine.old pc above next)) machine.old step machine.new) }
    ensures err { OnErr result (Stays machine.old machine.new) }
{
    if is_failed(reply) {
        machine.replied += 1;
        machine.devices.fail_current();
        machine.control = Control::Faulted(Fault::Device);
        return Ok(TurnOutcome::Took);
    }
    let value = input_told(alloc, mode, reply)?;
    stack::replace(&mut machine.stack, above, value)?;
    machine.replied += 1;
    machine.test = test_in(timeout, is_input(reply), machine.test);
    machine.control = Control::At(pc + 1);
    Ok(TurnOutcome::Took)
}

// Tells whether a reply brings input.
fn is_input(reply: &Reply) -> bool
    ensures { result ≡ devices.is_input reply.now }
{
    match reply {
        Reply::Line(_) | Reply::Byte(_) => true,
        _ => false,
    }
}

// Makes what a reply brings: a line, the empty text where it brings none; the code of a byte, -1 where it brings none.
fn input_told(alloc: Global, mode: ReadMode, reply: &Reply) -> Result<Text, AllocError>
    ensures { IfOk result (λ value. value ≡ devices.input_told mode reply.now) }
{
    match mode {
        ReadMode::Line => match reply {
            Reply::Line(text) => text.try_clone(),
            _ => Ok(Text::new(alloc)),
        },
        ReadMode::Byte => match reply {
            Reply::Byte(code) => Ok(Text::from_number(alloc, i64::from(*code))),
            _ => Ok(Text::from_number(alloc, -1)),
        },
    }
}
