// Asks that may have a timeout.

ghost use Rattle.std.specs.Prelude.{◌≡◌, ◌+◌, ◌<◌, ◌≤◌, ◌^◌, IfOk, OnErr, length, reverse};
ghost use Rattle.mj_ask.specs.Fits.{is_late};
ghost use Rattle.mj_semantics.specs.Outcome as told;
ghost use Rattle.mj_semantics.specs.Sharing as sharing;
ghost use Rattle.mj_pcode.specs.Machine as machines;
ghost use Rattle.mj_machine.specs.Kept.{Does, TakesReply, Stays, without, replied};
ghost use Rattle.mj_lock_ops.specs.Wanted.{timeout_in, test_after};

use mj_ask::{Ask, Reply};
use mj_machine::asking::wait;
use mj_machine::quiet::fail;
use mj_machine::{Control, Machine, TurnOutcome, stack};
use mj_num::Num;
use mj_pcode::Wait;
use mj_text::{Fault, Text};
use std::alloc::{AllocError, Global};

/// Tells how long an ask may wait: as long as the topmost operand says, where it is limited.
pub fn timeout_of(wait: Wait, stack: &[Text]) -> Result<Option<Num>, Fault>
    requires { machines.wait_size wait ≤ length stack.now }
    ensures { result ≡ timeout_in wait (reverse stack.now) }
{
    match wait {
        Wait::Ever => Ok(None),
        Wait::Timed => match Num::read(stack::top(stack)) {
            Ok(seconds) => Ok(Some(seconds)),
            Err(fault) => Err(fault),
        },
    }
}

/// Counts the operands that say so.
pub fn wait_size(wait: Wait) -> usize
    ensures { result ≡ machines.wait_size wait }
{
    match wait {
        Wait::Ever => 0,
        Wait::Timed => 1,
    }
}

/// Asks, and then takes `count` operands off and goes on. That a limit is passed is a fault; where the ask may wait only so long, `$TEST` tells whether it
/// was served before.
pub fn ask_in_time(
    alloc: Global,
    pc: usize,
    count: usize,
    ask: Ask,
    timeout: Option<Num>,
    machine: &mut Machine,
    given: Option<&Reply>,
) -> Result<TurnOutcome, AllocError>
    requires next { pc + 1 < 2 ^ 64 }
    requires enough { count ≤ length machine.old.stack.items }
    ensures ok { IfOk result (λ step. Does (λ next. told.ask ask (λ r. sharing.served timeout r (without machine.old pc count next))) machine.old
        (replied given.entry) step machine.new) }
    ensures err { OnErr result (Stays machine.old machine.new) }
{
    if machine.replied >= machine.bounds.events as u64 {
        drop(ask);
        return Ok(fail(Fault::Steps, machine));
    }
    match given {
        None => wait(alloc, ask),
        Some(reply) => {
            drop(ask);
            Ok(take(pc, count, timeout, reply, machine))
        }
    }
}

/// Counts a reply and takes it.
pub fn take(
    pc: usize,
    count: usize,
    timeout: Option<Num>,
    reply: &Reply,
    machine: &mut Machine,
) -> TurnOutcome
    requires next { pc + 1 < 2 ^ 64 }
    requires enough { count ≤ length machine.old.stack.items }
    requires more { machine.old.replied < machine.old.bounds.events }
    ensures { TakesReply (λ next. sharing.served timeout reply.now (without machine.old pc count next)) machine.old result machine.new }
{
    machine.replied += 1;
    if is_limit(reply) {
        machine.control = Control::Faulted(Fault::Limit);
        return TurnOutcome::Took;
    }
    machine.test = test_after(timeout, is_late(reply), machine.test);
    stack::take_off(&mut machine.stack, count);
    machine.control = Control::At(pc + 1);
    TurnOutcome::Took
}

// Sets `$TEST` behind a reply that came late or in time.
fn test_after(timeout: Option<Num>, late: bool, before: bool) -> bool
    ensures { result ≡ test_after timeout late before }
{
    match timeout {
        None => before,
        Some(_) => !late,
    }
}

// Tells whether a reply says that a limit would be passed.
fn is_limit(reply: &Reply) -> bool
    ensures { result ≡ sharing.is_limit reply.now }
{
    match reply {
        Reply::Limit => true,
        _ => false,
    }
}

// Tells whether a reply says that the timeout was over.
fn is_late(reply: &Reply) -> bool
    ensures { result ≡ is_late reply.now }
{
    match reply {
        Reply::Late => true,
        _ => false,
    }
}
