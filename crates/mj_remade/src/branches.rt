// A record that is cut at a place, and gone on from there.
//
// The jobs begin again, over devices that begin again, and make the same steps up to that place.

ghost use Rattle.std.specs.Prelude.{◌≡◌, take, true, false, IfOk};
ghost use Rattle.mj_semantics.specs.State.{Place};
ghost use Rattle.mj_debug.specs.Breaks.{is_breakpoint};
ghost use Rattle.mj_replica.specs.Replays.{history_of};
ghost use Rattle.mj_remade.specs.Marks.{AreMarksOf, all_over};

use crate::marks::{Mark, marks_of, put_all};
use crate::records::{first_apart, noted};
use crate::said::Said;
use mj_ask::Noted;
use mj_core::Seen;
use mj_debug::{Debugger, WalkRefusal};
use mj_dev::Device;
use mj_guide::{Notes, did_something};
use mj_sessions::Sessions;
use mj_steps::{Refusal, Step};
use mj_sys::Opening;
use mj_trace::Form;
use std::alloc::{AllocError, Global};
use std::mem;

/// What goes over to the jobs that begin again.
#[derive(Drop)]
pub struct Again {
    /// what was noted so far: the steps that are made again, and the names that are watched
    pub notes: Notes,
    /// the events that are made again: those before the place
    pub told: Vec<Noted>,
    /// the lines that are breakpoints and hold no BREAK, or hold one and are none
    pub marks: Vec<Mark>,
    /// what was told so far
    pub said: Said,
}

/// What is to go over from here, where the record is cut at the place.
pub fn cut<D: Device, O: Opening>(
    alloc: Global,
    debugger: &Debugger<D, Sessions<D>, O>,
    notes: Notes,
    said: Said,
) -> Result<Again, AllocError>
    ensures told { IfOk result (λ again. history_of again.told.items ≡ take debugger.now.place debugger.now.core.history) }
    ensures marks { IfOk result (λ again. AreMarksOf debugger.now.core.image debugger.now.marks again.marks.items) }
    ensures notes { IfOk result (λ again. again.notes ≡ notes) }
    ensures said { IfOk result (λ again. again.said ≡ said) }
{
    let told = noted(alloc, debugger.core(), debugger.place())?;
    let marks = marks_of(alloc, debugger)?;
    Ok(Again {
        notes,
        told,
        marks,
        said,
    })
}

/// Makes the steps again, up to the place where the record was cut, and marks the lines. Those that did something are noted, and the names that were watched
/// stay so. Whether the record is that of before up to there.
pub fn made_again<D: Device, O: Opening>(
    debugger: &mut Debugger<D, Sessions<D>, O>,
    notes: &mut Notes,
    again: Again,
) -> Result<bool, AllocError>
    ensures same { IfOk result (λ same. same ≡ true → debugger.new.core.history ≡ history_of again.told.items) }
    ensures other { IfOk result (λ same. same ≡ false → debugger.new.core.history ≡ history_of again.told.items → ⊥) }
    ensures marks { IfOk result (λ same. (line : Place) → is_breakpoint debugger.new.core.image debugger.new.marks line
        ≡ all_over (is_breakpoint debugger.new.core.image debugger.old.marks) again.marks.items line) }
    ensures watched { IfOk result (λ same. notes.new.watched.items ≡ again.notes.watched.items) }
    ensures starts { IfOk result (λ same. notes.new.starts.items ≡ notes.old.starts.items) }
{
    let Again {
        notes: before,
        told,
        marks,
        said: _,
    } = again;
    let Notes {
        starts,
        steps,
        watched,
    } = before;
    drop(starts);
    drop(mem::replace(&mut notes.watched, watched));
    let events = told.as_slice();
    let lines = marks.as_slice();
    let same = remade(debugger, &mut notes.steps, &steps, events, lines);
    drop(steps);
    drop(told);
    drop(marks);
    same
}

// Makes steps again, up to so many events, and marks lines. Whether the record has these events, and no others.
fn remade<D: Device, O: Opening>(
    debugger: &mut Debugger<D, Sessions<D>, O>,
    kept: &mut Vec<Step>,
    steps: &[Step],
    told: &[Noted],
    marks: &[Mark],
) -> Result<bool, AllocError>
    ensures same { IfOk result (λ same. same ≡ true → debugger.new.core.history ≡ history_of told.now) }
    ensures other { IfOk result (λ same. same ≡ false → debugger.new.core.history ≡ history_of told.now → ⊥) }
    ensures marks { IfOk result (λ same. (line : Place) → is_breakpoint debugger.new.core.image debugger.new.marks line
        ≡ all_over (is_breakpoint debugger.new.core.image debugger.old.marks) marks.now line) }
{
    make_steps(debugger, kept, steps, told.len())?;
    put_all(debugger, marks)?;
    let same = has_events(debugger, told);
    Ok(same)
}

// Makes steps again, until there are so many events, and notes those that did something.
fn make_steps<D: Device, O: Opening>(
    debugger: &mut Debugger<D, Sessions<D>, O>,
    kept: &mut Vec<Step>,
    steps: &[Step],
    place: usize,
) -> Result<(), AllocError>
    ensures { debugger.new.marks ≡ debugger.old.marks }
{
    for step in steps {
        if debugger.core().len() >= place {
            break;
        }
        if make(debugger, *step)? {
            kept.push(*step)?;
        }
    }
    Ok(())
}

// Makes a step, and says whether it did something.
fn make<D: Device, O: Opening>(
    debugger: &mut Debugger<D, Sessions<D>, O>,
    step: Step,
) -> Result<bool, AllocError>
    ensures { debugger.new.marks ≡ debugger.old.marks }
{
    match stepped(debugger, step) {
        Ok(seen) => Ok(did_something(&seen)),
        Err(WalkRefusal::Step(Refusal::Memory)) => Err(AllocError),
        Err(_) => Ok(false),
    }
}

// What comes of a step, which leaves the breakpoints as they are.
fn stepped<D: Device, O: Opening>(
    debugger: &mut Debugger<D, Sessions<D>, O>,
    step: Step,
) -> Result<Seen, WalkRefusal>
    ensures { debugger.new.marks ≡ debugger.old.marks }
{
    debugger.step(step)
}

// Whether the record has these events, and no others.
fn has_events<D: Device, O: Opening>(debugger: &Debugger<D, Sessions<D>, O>, told: &[Noted]) -> bool
    ensures same { result ≡ true → debugger.now.core.history ≡ history_of told.now }
    ensures other { result ≡ false → debugger.now.core.history ≡ history_of told.now → ⊥ }
{
    match first_apart(debugger.core(), Form::First, told) {
        None => true,
        Some(_) => false,
    }
}
