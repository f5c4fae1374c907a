// A restart.

ghost use Rattle.std.specs.Prelude.{◌≡◌, ℕ, IfOk, OnOk, OnErr, None, option_map};
ghost use Rattle.mj_frames.specs.Frames.{place_of};
ghost use Rattle.mj_semantics.specs.State as states;
ghost use Rattle.mj_pcode.specs.declared.instr.Instr.TheVariants as instrs;
ghost use Rattle.mj_machine.specs.Kept.{state_of, mark_of, standing, Stays, replied};
ghost use Rattle.mj_transaction_ops.specs.Restarts.{ObeysAmong, back_in, frames_back, gone_back, GoesBack};

use crate::starting::kind;
use mj_ask::{Ask, Reply, SharedAsk};
use mj_frames::{Frames, Place};
use mj_locals::Locals;
use mj_machine::asking::wait;
use mj_machine::{Control, Machine, TransactionMark, TurnOutcome};
use mj_text::Fault;
use std::alloc::{AllocError, Global};

/// Begins the transaction once more, as all stood at its mark, and goes on behind it.
#[inline(never)]
pub fn begin_restart(
    alloc: Global,
    machine: &mut Machine,
    given: Option<&Reply>,
) -> Result<TurnOutcome, AllocError>
    ensures ok { IfOk result (λ step. (pc : ℕ) → ObeysAmong instrs.BeginRestart pc machine.old (replied given.entry) step machine.new) }
    ensures goes { IfOk result (λ step. GoesBack machine.old (replied given.entry) step machine.new) }
    ensures err { OnErr result (Stays machine.old machine.new) }
{
    if machine.replied >= machine.bounds.events as u64 {
        machine.control = Control::Faulted(Fault::Steps);
        return Ok(TurnOutcome::Next);
    }
    match given {
        None => wait(
            alloc,
            Ask::Shared(SharedAsk::Begin(kind(is_serial(machine)))),
        ),
        Some(_) => {
            if let Some(mark) = &machine.mark {
                restore(mark, &mut machine.locals, &mut machine.frames)?;
                machine.test = mark.test;
                machine.level = 1;
                machine.restarts += 1;
            }
            machine.replied += 1;
            go_on(machine);
            Ok(TurnOutcome::Took)
        }
    }
}

// Tells whether the open transaction is SERIAL.
fn is_serial(machine: &Machine) -> bool
    ensures { result ≡ states.is_serial (state_of machine.now) }
{
    match &machine.mark {
        None => false,
        Some(mark) => mark.serial,
    }
}

// Restores locals and frames as they were at the mark, but for the locals that a restart doesn't restore.
fn restore(
    mark: &TransactionMark,
    locals: &mut Locals,
    frames: &mut Frames,
) -> Result<(), AllocError>
    ensures locals { OnOk result (locals.new ≡ back_in (mark_of mark.now) locals.old) }
    ensures frames { OnOk result (frames.new ≡ frames_back (mark_of mark.now) frames.old) }
    ensures locals_err { OnErr result (locals.new ≡ locals.old) }
    ensures frames_err { OnErr result (frames.new ≡ frames.old) }
{
    let place = copied(&mark.place)?;
    match &mark.snapshot {
        None => locals.unwind(mark.height),
        Some(snapshot) => locals.go_back(mark.height, snapshot)?,
    }
    frames.truncate(mark.depth);
    frames.stand_at(place);
    Ok(())
}

// Copies a place.
fn copied(place: &Option<Place>) -> Result<Option<Place>, AllocError>
    ensures { IfOk result (λ p. option_map place_of p ≡ option_map place_of place.now) }
{
    match place {
        None => Ok(None),
        Some(place) => Ok(Some(place.try_clone()?)),
    }
}

// Goes on where a restart does. Without such a place nothing is left to do.
fn go_on(machine: &mut Machine)
    ensures { standing machine.new None ≡ gone_back (standing machine.old None) }
{
    match machine.restart.take() {
        None => machine.control = Control::Over,
        Some(to) => {
            machine.unit = to.unit;
            machine.loops = to.loops;
            machine.calls = to.calls;
            machine.stack.truncate(0);
            machine.control = Control::At(to.pc);
        }
    }
}
