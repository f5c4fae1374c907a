// JOB.

ghost use Rattle.std.specs.Prelude.{◌≡◌, ◌+◌, ◌<◌, ◌≤◌, ◌^◌, IfOk, OnErr, length};
ghost use Rattle.mj_pcode.specs.Machine as machines;
ghost use Rattle.mj_pcode.specs.declared.instr.Instr.TheVariants as instrs;
ghost use Rattle.mj_machine.specs.Kept.{Obeys, Stays, replied};

use crate::actuals::{given_count, spread};
use crate::timed::{ask_in_time, timeout_of, wait_size};
use mj_ask::{Ask, BoxedStart, Entry, Reply, SharedAsk, Start};
use mj_machine::quiet::fail;
use mj_machine::{Machine, TurnOutcome, stack};
use mj_pcode::{Shape, Wait};
use mj_text::Fault;
use std::alloc::{AllocError, Global};

/// Starts another job at an entry, with the actuals that lie on top, below its timeout. In a transaction it is a fault.
#[inline(never)]
pub fn start_job(
    alloc: Global,
    pc: usize,
    entry: &Entry,
    shape: &Shape,
    wait: Wait,
    machine: &mut Machine,
    given: Option<&Reply>,
) -> Result<TurnOutcome, AllocError>
    requires next { pc + 1 < 2 ^ 64 }
    requires enough { machines.given_count shape.now + machines.wait_size wait ≤ length machine.old.stack.items }
    ensures ok { IfOk result (λ step. Obeys (instrs.StartJob entry.now shape.now wait) pc machine.old (replied given.entry) step machine.new) }
    ensures err { OnErr result (Stays machine.old machine.new) }
{
    let timeout = match timeout_of(wait, &machine.stack) {
        Ok(timeout) => timeout,
        Err(fault) => return Ok(fail(fault, machine)),
    };
    if machine.level > 0 {
        return Ok(fail(Fault::InTransaction, machine));
    }
    let above = wait_size(wait);
    let actuals = given_count(shape.as_slice());
    let operands = stack::topmost(stack::under(&machine.stack, above), actuals);
    let values = spread(alloc, shape.as_slice(), operands)?;
    let start = Start::new(entry.try_clone()?, values);
    let boxed = BoxedStart::new(alloc, start)?;
    let ask = Ask::Shared(SharedAsk::Start(boxed, timeout));
    ask_in_time(alloc, pc, actuals + above, ask, timeout, machine, given)
}
