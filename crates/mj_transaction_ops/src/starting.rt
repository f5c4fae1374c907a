// TSTART.

ghost use Rattle.std.specs.Prelude.{◌≡◌, ◌+◌, ◌<◌, ◌^◌, IfOk, OnErr, Some, option_map};
ghost use Rattle.mj_semantics.specs.State as states;
ghost use Rattle.mj_semantics.specs.Transactions as transactions;
ghost use Rattle.mj_pcode.specs.Machine as machines;
ghost use Rattle.mj_pcode.specs.declared.instr.Instr.TheVariants as instrs;
ghost use Rattle.mj_frames.specs.Frames.{place_of};
ghost use Rattle.mj_frames.specs.Places.{place_in};
ghost use Rattle.mj_machine.specs.Kept.{state_of, mark_of, Obeys, Stays, replied};
ghost use Rattle.mj_transaction_ops.specs.Restarts.{AreCopies};

use mj_ask::{Ask, Kind, Reply, SharedAsk};
use mj_frames::{Frames, Place};
use mj_locals::{Locals, Snapshot};
use mj_machine::asking::wait;
use mj_machine::quiet::fail;
use mj_machine::{Control, Machine, TransactionMark, TurnOutcome};
use mj_pcode::Restores;
use mj_text::Fault;
use std::alloc::{AllocError, Global};

/// How many TSTARTs may be open.
const LEVELS_LIMIT: u8 = 255;

/// Begins a transaction, or adds a level where one is open. There the next instruction is passed over. None begins while a function's
/// frame stands, as no restart could go on with the half-done expression.
#[inline(never)]
pub fn start_transaction(
    alloc: Global,
    pc: usize,
    restores: &Restores,
    serial: bool,
    machine: &mut Machine,
    given: Option<&Reply>,
) -> Result<TurnOutcome, AllocError>
    requires { pc + 2 < 2 ^ 64 }
    ensures ok { IfOk result (λ step. Obeys (instrs.StartTransaction restores.now serial) pc machine.old (replied given.entry) step machine.new) }
    ensures err { OnErr result (Stays machine.old machine.new) }
{
    if machine.level != 0 {
        if machine.level >= LEVELS_LIMIT {
            return Ok(fail(Fault::Limit, machine));
        }
        machine.level += 1;
        machine.control = Control::At(pc + 2);
        return Ok(TurnOutcome::Next);
    }
    if machine.frames.any_function() {
        return Ok(fail(Fault::InTransaction, machine));
    }
    if machine.replied >= machine.bounds.events as u64 {
        return Ok(fail(Fault::Steps, machine));
    }
    match given {
        None => wait(alloc, Ask::Shared(SharedAsk::Begin(kind(serial)))),
        Some(_) => {
            let mark = marked(restores, serial, machine)?;
            machine.mark = Some(mark);
            machine.level = 1;
            machine.replied += 1;
            machine.control = Control::At(pc + 1);
            Ok(TurnOutcome::Took)
        }
    }
}

/// Gives the kind of a transaction that is SERIAL, or isn't.
pub(crate) fn kind(serial: bool) -> Kind
    ensures { result ≡ transactions.kind_of serial }
{
    if serial { Kind::Serial } else { Kind::Plain }
}

// Makes the mark of where the machine stands.
fn marked(
    restores: &Restores,
    serial: bool,
    machine: &Machine,
) -> Result<TransactionMark, AllocError>
    ensures { IfOk result (λ m. Some (mark_of m) ≡ (states.marked (machines.restored_of restores.now) serial (state_of machine.now)).mark) }
{
    let snapshot = copied(restores, &machine.locals)?;
    let place = copied_place(&machine.frames)?;
    Ok(TransactionMark {
        snapshot,
        serial,
        test: machine.test,
        height: machine.locals.height(),
        depth: machine.frames.len(),
        place,
    })
}

// Copies the locals that a restart restores, if there can be one.
fn copied(restores: &Restores, locals: &Locals) -> Result<Option<Snapshot>, AllocError>
    ensures { IfOk result (λ s. AreCopies (machines.restored_of restores.now) locals.now.now s) }
{
    match restores {
        Restores::Never => Ok(None),
        Restores::Only(words) => Ok(Some(locals.snapshot_of(words.as_slice())?)),
        Restores::All => Ok(Some(locals.snapshot()?)),
    }
}

// Copies where the innermost frame stands.
pub(crate) fn copied_place(frames: &Frames) -> Result<Option<Place>, AllocError>
    ensures { IfOk result (λ p. option_map place_of p ≡ place_in frames.now) }
{
    match frames.place() {
        None => Ok(None),
        Some(place) => Ok(Some(place.try_clone()?)),
    }
}
