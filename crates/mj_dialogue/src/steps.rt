// Steps, and what is answered of them.

ghost use Rattle.std.specs.Prelude.{◌≡◌, Result, Ok, Err, IfOk, IfErr, OnErr, false};
ghost use Rattle.mj_core.specs.declared.seen.Seen.{Seen as SeenOf};
ghost use Rattle.mj_debug.specs.declared.debugger.WalkRefusal.{WalkRefusal as RefusedOf};
ghost use Rattle.mj_debug.specs.declared.debugger.WalkRefusal.TheVariants as refused;
ghost use Rattle.mj_debug.specs.declared.debugger.Gone.{Gone as GoneOf};
ghost use Rattle.mj_debug.specs.Walks.{StepGives, walk_answer as as_told};
ghost use Rattle.mj_dialogue.specs.declared.command.Command.TheVariants as commands;
ghost use Rattle.mj_dialogue.specs.Fails.{unanswered_of, IsDone, IsCut};
ghost use Rattle.mj_dialogue.specs.Lines.{TellsSeen, TellsRefusal};
ghost use Rattle.mj_dialogue.specs.Says.{is_full, is_full_at, is_made, TellsStep, TellsGone, GoTells};

use crate::tell::{busy, event, line, refusal, stop};
use mj_core::{Core, Seen};
use mj_debug::{Debugger, Gone, WalkRefusal};
use mj_dev::Device;
use mj_replica::Unshown;
use mj_sessions::Sessions;
use mj_steps::{Refusal, Step};
use mj_sys::Opening;
use std::alloc::{AllocError, Global};

/// What is told of a step, and whether it isn't made since the record is full.
#[derive(Drop)]
pub struct Told {
    pub bytes: Vec<u8>,
    pub full: bool,
}

// Makes a step.
pub fn step<D: Device, O: Opening>(
    alloc: Global,
    debugger: &mut Debugger<D, Sessions<D>, O>,
    step: Step,
) -> Result<Told, AllocError>
    ensures ok { IfOk result (λ told. (answer : Result SeenOf RefusedOf) × StepGives O.opening debugger.old step answer debugger.new
        × TellsStep O.opening debugger.new.core answer told.bytes.items × (told.full ≡ is_full answer)) }
    ensures err { OnErr result (IsDone O.opening debugger.old (commands.Step step) debugger.new) }
{
    let answer = debugger.step(step);
    tell(alloc, debugger.core(), &answer)
}

/// Tells what came of a step.
pub fn tell<D: Device, O: Opening>(
    alloc: Global,
    core: &Core<D, Sessions<D>, O>,
    answer: &Result<Seen, WalkRefusal>,
) -> Result<Told, AllocError>
    ensures { IfOk result (λ told. TellsStep O.opening core.now answer.now told.bytes.items × (told.full ≡ is_full answer.now)) }
{
    match answer {
        Ok(seen) => tell_seen(alloc, core, seen),
        Err(WalkRefusal::Step(why)) => tell_refusal(alloc, *why),
        Err(WalkRefusal::NotAtEnd) => {
            let bytes = line(alloc, b"not at end")?;
            Ok(Told { bytes, full: false })
        }
    }
}

// Tells what came of a step that was made.
fn tell_seen<D: Device, O: Opening>(
    alloc: Global,
    core: &Core<D, Sessions<D>, O>,
    seen: &Seen,
) -> Result<Told, AllocError>
    ensures { IfOk result (λ told. TellsSeen O.opening core.now seen.now told.bytes.items × (told.full ≡ false)) }
{
    let bytes = match seen {
        Seen::Event(at) => event(alloc, core, *at)?,
        Seen::Busy { holder, held } => busy(alloc, *holder, held)?,
        Seen::NotYet => line(alloc, b"notyet")?,
        Seen::Unfit => line(alloc, b"unfit")?,
        Seen::Ran => line(alloc, b"ran")?,
        Seen::Ended => line(alloc, b"C3")?,
    };
    Ok(Told { bytes, full: false })
}

// Tells why a step isn't made.
fn tell_refusal(alloc: Global, why: Refusal) -> Result<Told, AllocError>
    ensures { IfOk result (λ told. TellsRefusal why told.bytes.items × (told.full ≡ is_full (Err (refused.Step why)))) }
{
    let bytes = refusal(alloc, why)?;
    Ok(Told {
        bytes,
        full: why == Refusal::Full,
    })
}

/// One step of many in turn: what is told of it, and whether others follow.
#[derive(Drop)]
pub struct Passed {
    pub told: Told,
    pub made: bool,
}

// Makes the next of many steps in turn, `first` at the first of them.
pub fn pass<D: Device, O: Opening>(
    alloc: Global,
    debugger: &mut Debugger<D, Sessions<D>, O>,
    first: bool,
) -> Result<Passed, Unshown>
    ensures ok { IfOk result (λ passed. (gone : GoneOf) × GoTells O.opening debugger.old first gone passed.told.bytes.items debugger.new
        × (passed.told.full ≡ is_full_at gone) × (passed.made ≡ is_made gone)) }
    ensures err { IfErr result (λ why. IsCut O.opening debugger.old first (unanswered_of why) debugger.new) }
{
    let gone = debugger.go(first)?;
    match tell_gone(alloc, debugger.core(), &gone) {
        Ok(passed) => Ok(passed),
        Err(_) => Err(Unshown::Memory),
    }
}

/// Tells what came of one step of many in turn.
pub fn tell_gone<D: Device, O: Opening>(
    alloc: Global,
    core: &Core<D, Sessions<D>, O>,
    gone: &Gone,
) -> Result<Passed, AllocError>
    ensures { IfOk result (λ passed. TellsGone O.opening core.now gone.now passed.told.bytes.items
        × (passed.told.full ≡ is_full_at gone.now) × (passed.made ≡ is_made gone.now)) }
{
    match gone {
        Gone::Step { answer, .. } => {
            let told = tell_made(alloc, core, answer)?;
            Ok(Passed {
                told,
                made: answer.is_ok(),
            })
        }
        Gone::At { job, routine, line } => Ok(last(stop(alloc, *job, routine, *line)?)),
        Gone::NotAtEnd => Ok(last(line(alloc, b"not at end")?)),
        Gone::Over => Ok(last(Vec::new(alloc))),
    }
}

// Tells what the job does whose turn it is.
fn tell_made<D: Device, O: Opening>(
    alloc: Global,
    core: &Core<D, Sessions<D>, O>,
    answer: &Result<Seen, Refusal>,
) -> Result<Told, AllocError>
    ensures { IfOk result (λ told. TellsStep O.opening core.now (as_told answer.now) told.bytes.items × (told.full ≡ is_full (as_told answer.now))) }
{
    match answer {
        Ok(seen) => tell_seen(alloc, core, seen),
        Err(why) => tell_refusal(alloc, *why),
    }
}

// Tells why no step is made, nor any behind it.
fn last(bytes: Vec<u8>) -> Passed
    ensures bytes { result.told.bytes ≡ bytes }
    ensures full { result.told.full ≡ false }
    ensures made { result.made ≡ false }
{
    Passed {
        told: Told { bytes, full: false },
        made: false,
    }
}
