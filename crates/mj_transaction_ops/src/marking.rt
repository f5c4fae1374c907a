// Where a restart goes on.

ghost use Rattle.std.specs.Prelude.{◌≡◌, ◌+◌, ◌-◌, ◌<◌, ◌≤◌, ◌^◌, [], IfOk, OnErr, length, map};
ghost use Rattle.mj_pcode.specs.declared.instr.Instr.TheVariants as instrs;
ghost use Rattle.mj_machine.specs.Kept.{Stays};
ghost use Rattle.mj_machine.specs.Contexts.{loop_of, call_of};
ghost use Rattle.mj_transaction_ops.specs.Restarts.{ObeysAmongAlone, IsMarked};

use mj_frames::{Call, Loop};
use mj_machine::{Control, Machine, Return, TurnOutcome};
use mj_text::Text;
use std::alloc::{AllocError, Global};

/// Marks where a restart of the transaction goes on: here.
#[inline(never)]
pub fn mark_restart(
    alloc: Global,
    pc: usize,
    machine: &mut Machine,
) -> Result<TurnOutcome, AllocError>
    requires { pc + 1 < 2 ^ 64 }
    ensures ok { IfOk result (λ step. ObeysAmongAlone instrs.MarkRestart pc machine.old step machine.new) }
    ensures goes { IfOk result (λ step. IsMarked pc machine.old step machine.new) }
    ensures err { OnErr result (Stays machine.old machine.new) }
{
    let loops = copied_loops(alloc, &machine.loops)?;
    let calls = copied_calls(alloc, &machine.calls)?;
    machine.restart = Some(Return {
        unit: machine.unit,
        pc,
        loops,
        calls,
    });
    machine.control = Control::At(pc + 1);
    Ok(TurnOutcome::Next)
}

// Copies FORs.
fn copied_loops(alloc: Global, loops: &[Loop]) -> Result<Vec<Loop>, AllocError>
    ensures { IfOk result (λ list. map loop_of list.items ≡ map loop_of loops.now) }
{
    let mut copy = Vec::with_capacity(alloc, loops.len())?;
    for l in loops {
        copy.push(Loop {
            name: l.name.try_clone()?,
            passes: l.passes,
            body: l.body,
            resume: l.resume,
        })?;
    }
    Ok(copy)
}

// Copies where frames go on.
fn copied_calls(alloc: Global, calls: &[Call]) -> Result<Vec<Call>, AllocError>
    ensures { IfOk result (λ list. map call_of list.items ≡ map call_of calls.now) }
{
    let mut copy = Vec::with_capacity(alloc, calls.len())?;
    for call in calls {
        let loops = copied_loops(alloc, &call.loops)?;
        let operands = copied_operands(alloc, &call.operands)?;
        copy.push(Call {
            unit: call.unit,
            pc: call.pc,
            loops,
            operands,
            function: call.function,
        })?;
    }
    Ok(copy)
}

// Copies operands, with room for one more where there are some. None are kept while a transaction begins, so that nothing is copied here then.
fn copied_operands(alloc: Global, operands: &[Text]) -> Result<Vec<Text>, AllocError>
    ensures same { IfOk result (λ list. list.items ≡ operands.now) }
    ensures room { IfOk result (λ list. list.len ≤ list.cap - 1) }
{
    let mut copy = room_for(alloc, operands)?;
    for text in operands {
        copy.push_reserved(text.try_clone()?);
    }
    Ok(copy)
}

// A list with room for operands, and for one more where there are some.
fn room_for(alloc: Global, operands: &[Text]) -> Result<Vec<Text>, AllocError>
    ensures none { IfOk result (λ list. list.items ≡ []) }
    ensures len { IfOk result (λ list. list.len ≡ 0) }
    ensures room { IfOk result (λ list. length operands.now ≤ list.cap - 1) }
{
    if operands.is_empty() {
        return Ok(Vec::new(alloc));
    }
    Ok(Vec::with_capacity(alloc, operands.len() + 1)?)
}
