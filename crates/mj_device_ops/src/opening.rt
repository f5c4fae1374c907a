// OPEN.

ghost use Rattle.std.specs.Prelude.{◌≡◌, ◌+◌, ◌<◌, ◌≤◌, ◌^◌, IfOk, OnErr, length};
ghost use Rattle.mj_semantics.specs.Outcome as told;
ghost use Rattle.mj_semantics.specs.Sharing as sharing;
ghost use Rattle.mj_semantics.specs.Devices as devices;
ghost use Rattle.mj_pcode.specs.Machine as machines;
ghost use Rattle.mj_pcode.specs.declared.instr.Instr.TheVariants as instrs;
ghost use Rattle.mj_machine.specs.Kept.{DidAlone, Obeys, TakesReply, Stays, replied};
ghost use Rattle.mj_device_ops.specs.Talked.{past, open_taken};

use crate::timed::test_in;
use mj_ask::{Ask, DeviceAsk, Reply, SharedAsk};
use mj_lock_ops::timed::{timeout_of, wait_size};
use mj_machine::asking::{self, is_failed};
use mj_machine::quiet::fail;
use mj_machine::{Control, Machine, TurnOutcome, stack};
use mj_num::Num;
use mj_pcode::Wait;
use mj_text::Fault;
use std::alloc::{AllocError, Global};

/// How many devices a job may have open beside the principal one.
const DEVICES_LIMIT: usize = 16;

/// Asks for the device whose name lies below its timeout, unless it is open already. The next instruction begins its session where the job has got it.
#[inline(never)]
pub fn open_device(
    alloc: Global,
    pc: usize,
    wait: Wait,
    machine: &mut Machine,
    given: Option<&Reply>,
) -> Result<TurnOutcome, AllocError>
    requires next { pc + 2 < 2 ^ 64 }
    requires enough { 1 + machines.wait_size wait ≤ length machine.old.stack.items }
    ensures ok { IfOk result (λ step. Obeys (instrs.OpenDevice wait) pc machine.old (replied given.entry) step machine.new) }
    ensures err { OnErr result (Stays machine.old machine.new) }
{
    let timeout = match timeout_of(wait, &machine.stack) {
        Ok(timeout) => timeout,
        Err(fault) => return Ok(fail(fault, machine)),
    };
    let above = wait_size(wait);
    if machine.devices.has(stack::at(&machine.stack, above)) {
        go_past(pc, above, timeout, true, machine);
        return Ok(TurnOutcome::Next);
    }
    if machine.devices.len() > DEVICES_LIMIT {
        return Ok(fail(Fault::Limit, machine));
    }
    if machine.replied >= machine.bounds.events as u64 {
        return Ok(fail(Fault::Steps, machine));
    }
    match given {
        None => {
            let name = stack::at(&machine.stack, above).try_clone()?;
            asking::wait(alloc, Ask::Shared(SharedAsk::Open(name, timeout)))
        }
        Some(reply) => take_opened(pc, above, timeout, reply, machine),
    }
}

// Takes the reply to the ask for a device.
fn take_opened(
    pc: usize,
    above: usize,
    timeout: Option<Num>,
    reply: &Reply,
    machine: &mut Machine,
) -> Result<TurnOutcome, AllocError>
    requires next { pc + 2 < 2 ^ 64 }
    requires enough { above + 1 ≤ length machine.old.stack.items }
    requires more { machine.old.replied < machine.old.bounds.events }
    ensures ok { IfOk result (λ step. TakesReply (open_taken machine.old pc above timeout reply.now) machine.old step machine.new) }
    ensures err { OnErr result (Stays machine.old machine.new) }
{
    if has_no_session(reply) {
        machine.replied += 1;
        machine.control = Control::Faulted(Fault::NoDevice);
        return Ok(TurnOutcome::Took);
    }
    if !is_got(reply) {
        machine.replied += 1;
        go_past(pc, above, timeout, false, machine);
        return Ok(TurnOutcome::Took);
    }
    let name = stack::at(&machine.stack, above).try_clone()?;
    machine.devices.add(name)?;
    machine.replied += 1;
    machine.test = test_in(timeout, true, machine.test);
    stack::take_off(&mut machine.stack, above);
    machine.control = Control::At(pc + 1);
    Ok(TurnOutcome::Took)
}

// Goes on behind what begins the session. `$TEST` tells whether it was in time.
fn go_past(pc: usize, above: usize, timeout: Option<Num>, in_time: bool, machine: &mut Machine)
    requires next { pc + 2 < 2 ^ 64 }
    requires enough { above + 1 ≤ length machine.old.stack.items }
    ensures { DidAlone (λ next. told.change (sharing.in_time timeout in_time) (past machine.old pc above next)) machine.old machine.new }
{
    machine.test = test_in(timeout, in_time, machine.test);
    stack::take_off(&mut machine.stack, above + 1);
    machine.control = Control::At(pc + 2);
}

// Tells whether a reply says that the device isn't known, or has no session left.
fn has_no_session(reply: &Reply) -> bool
    ensures { result ≡ devices.has_no_session reply.now }
{
    match reply {
        Reply::NoSession => true,
        _ => false,
    }
}

// Tells whether a reply says that the job has the device now.
fn is_got(reply: &Reply) -> bool
    ensures { result ≡ devices.is_got reply.now }
{
    match reply {
        Reply::Got => true,
        _ => false,
    }
}

/// Begins the session of the device that the topmost operand names.
#[inline(never)]
pub fn begin_session(
    alloc: Global,
    pc: usize,
    machine: &mut Machine,
    given: Option<&Reply>,
) -> Result<TurnOutcome, AllocError>
    requires next { pc + 1 < 2 ^ 64 }
    requires enough { 1 ≤ length machine.old.stack.items }
    ensures ok { IfOk result (λ step. Obeys instrs.BeginSession pc machine.old (replied given.entry) step machine.new) }
    ensures err { OnErr result (Stays machine.old machine.new) }
{
    if machine.replied >= machine.bounds.events as u64 {
        return Ok(fail(Fault::Steps, machine));
    }
    match given {
        None => {
            let name = stack::top(&machine.stack).try_clone()?;
            asking::wait(alloc, Ask::Device(name, DeviceAsk::Begin))
        }
        Some(reply) => {
            machine.replied += 1;
            if is_failed(reply) {
                machine.devices.fail(stack::top(&machine.stack));
                machine.control = Control::Faulted(Fault::Device);
                return Ok(TurnOutcome::Took);
            }
            stack::take_one(&mut machine.stack);
            machine.control = Control::At(pc + 1);
            Ok(TurnOutcome::Took)
        }
    }
}
