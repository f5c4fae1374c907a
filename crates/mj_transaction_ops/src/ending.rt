// TCOMMIT, TROLLBACK, and what TRESTART gives up.

ghost use Rattle.std.specs.Prelude.{◌≡◌, ◌+◌, ◌<◌, ◌^◌, IfOk, OnErr};
ghost use Rattle.mj_semantics.specs.State as states;
ghost use Rattle.mj_semantics.specs.Transactions as transactions;
ghost use Rattle.mj_pcode.specs.declared.instr.Instr.TheVariants as instrs;
ghost use Rattle.mj_machine.specs.Kept.{state_of, Obeys, Stays, replied};

use mj_ask::{Ask, Reply, SharedAsk};
use mj_machine::asking::wait;
use mj_machine::quiet::fail;
use mj_machine::{Control, Machine, TurnOutcome};
use mj_text::Fault;
use std::alloc::{AllocError, Global};

/// Takes a level off. At the last one it commits the transaction. The next instruction is passed over, unless that clashed.
#[inline(never)]
pub fn commit(
    alloc: Global,
    pc: usize,
    machine: &mut Machine,
    given: Option<&Reply>,
) -> Result<TurnOutcome, AllocError>
    requires { pc + 2 < 2 ^ 64 }
    ensures ok { IfOk result (λ step. Obeys instrs.Commit pc machine.old (replied given.entry) step machine.new) }
    ensures err { OnErr result (Stays machine.old machine.new) }
{
    if machine.level == 0 {
        return Ok(fail(Fault::NoTransaction, machine));
    }
    if machine.level > 1 {
        machine.level -= 1;
        machine.control = Control::At(pc + 2);
        return Ok(TurnOutcome::Next);
    }
    if machine.replied >= machine.bounds.events as u64 {
        return Ok(fail(Fault::Steps, machine));
    }
    match given {
        None => wait(alloc, Ask::Shared(SharedAsk::Commit)),
        Some(reply) => {
            machine.replied += 1;
            if is_clash(reply) {
                machine.control = Control::At(pc + 1);
                return Ok(TurnOutcome::Took);
            }
            // where a restart of it would go on is kept until the next one is marked: nothing leads there
            machine.level = 0;
            machine.restarts = 0;
            machine.mark = None;
            machine.control = Control::At(pc + 2);
            Ok(TurnOutcome::Took)
        }
    }
}

/// Rolls the transaction back; it isn't open any more.
#[inline(never)]
pub fn roll_back(
    alloc: Global,
    pc: usize,
    machine: &mut Machine,
    given: Option<&Reply>,
) -> Result<TurnOutcome, AllocError>
    requires { pc + 1 < 2 ^ 64 }
    ensures ok { IfOk result (λ step. Obeys instrs.RollBack pc machine.old (replied given.entry) step machine.new) }
    ensures err { OnErr result (Stays machine.old machine.new) }
{
    if machine.level == 0 {
        return Ok(fail(Fault::NoTransaction, machine));
    }
    if machine.replied >= machine.bounds.events as u64 {
        return Ok(fail(Fault::Steps, machine));
    }
    let Some(_) = given else {
        return wait(alloc, Ask::Shared(SharedAsk::Rollback));
    };
    machine.replied += 1;
    // where a restart of it would go on is kept until the next one is marked: nothing leads there
    machine.level = 0;
    machine.restarts = 0;
    machine.mark = None;
    machine.control = Control::At(pc + 1);
    Ok(TurnOutcome::Took)
}

/// Rolls the transaction back, if it can be restarted; the next instruction begins it once more.
#[inline(never)]
pub fn roll_back_for_restart(
    alloc: Global,
    pc: usize,
    machine: &mut Machine,
    given: Option<&Reply>,
) -> Result<TurnOutcome, AllocError>
    requires { pc + 1 < 2 ^ 64 }
    ensures ok { IfOk result (λ step. Obeys instrs.RollBackForRestart pc machine.old (replied given.entry) step machine.new) }
    ensures err { OnErr result (Stays machine.old machine.new) }
{
    if machine.level == 0 {
        return Ok(fail(Fault::NoTransaction, machine));
    }
    if !can_restart(machine) {
        return Ok(fail(Fault::NoRestart, machine));
    }
    if machine.replied >= machine.bounds.events as u64 {
        return Ok(fail(Fault::Steps, machine));
    }
    match given {
        None => wait(alloc, Ask::Shared(SharedAsk::Rollback)),
        Some(_) => {
            machine.replied += 1;
            machine.control = Control::At(pc + 1);
            Ok(TurnOutcome::Took)
        }
    }
}

// Tells whether a reply says that the commit clashed.
fn is_clash(reply: &Reply) -> bool
    ensures { result ≡ transactions.is_clash reply.now }
{
    match reply {
        Reply::Clash(_) => true,
        _ => false,
    }
}

// Tells whether the open transaction can be restarted.
fn can_restart(machine: &Machine) -> bool
    ensures { result ≡ states.can_restart (state_of machine.now) }
{
    match &machine.mark {
        None => false,
        Some(mark) => mark.snapshot.is_some(),
    }
}
