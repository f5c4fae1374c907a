// Jobs that go on in turn, up to a goal, a watched name, a breakpoint, or the point where all wait.

ghost use Rattle.std.specs.Prelude.{◌≡◌, ◌<◌, ◌≤◌, ◌+◌, ◌^◌, IfOk, IfSome, IfNone, option_copied};
ghost use Rattle.mj_dialogue.specs.Says.{is_full_at};
ghost use Rattle.mj_guide.specs.Ends.{IsCounted};
ghost use Rattle.mj_guide.specs.Goes.{EndsAt, GoesOn, GoesPast, Turns};
ghost use Rattle.mj_guide.specs.Notes.{situation};

use crate::ends::ending;
use crate::notes::{Notes, note_turn};
use crate::request::Goal;
use crate::tally::{Tally, tally_behind, tally_of};
use crate::telling::put;
use mj_debug::{Debugger, Gone};
use mj_dev::Device;
use mj_dialogue::{Unanswered, tell_gone};
use mj_sessions::Sessions;
use mj_sys::Opening;
use std::alloc::Global;
use std::io::Write;

// Makes up to so many steps in turn, and writes what each comes to, as `mj_dialogue` does. They end before their count behind one that reaches the goal, or
// that writes to a watched name, and where all jobs that haven't ended waited one after the other. Whether it was answered that the record is full.
pub fn go<D: Device, O: Opening, W: Write>(
    alloc: Global,
    debugger: &mut Debugger<D, Sessions<D>, O>,
    notes: &mut Notes,
    goal: Option<&Goal>,
    steps: u32,
    out: &mut W,
) -> Result<bool, Unanswered>
    ensures { IfOk result (λ full. GoesOn O.opening (option_copied goal.entry) steps (situation debugger.old notes.old (W.contents out.old)) full
        (situation debugger.new notes.new (W.contents out.new))) }
{
    let mut tally = tally_of(debugger);
    for made in 0..steps {
        let step = goes_past(alloc, debugger, notes, goal, made == 0, tally, out)?;
        tally = step.1;
        if let Some(full) = step.0 {
            return Ok(full);
        }
    }
    Ok(false)
}

// Makes one step in turn. If it is the last, that is told behind it, and it is given whether it was told that the record is full. Also the tally behind it.
fn goes_past<D: Device, O: Opening, W: Write>(
    alloc: Global,
    debugger: &mut Debugger<D, Sessions<D>, O>,
    notes: &mut Notes,
    goal: Option<&Goal>,
    first: bool,
    tally: Tally,
    out: &mut W,
) -> Result<(Option<bool>, Tally), Unanswered>
    requires counted { IsCounted tally debugger.old.core.history }
    requires few { tally.waited + 1 < 2 ^ 32 }
    ensures counted { IfOk result (λ step. IsCounted step.1 debugger.new.core.history) }
    ensures few { IfOk result (λ step. step.1.waited ≤ tally.waited + 1) }
    ensures past { IfOk result (λ step. IfNone step.0 (GoesPast O.opening (option_copied goal.entry) first
        (situation debugger.old notes.old (W.contents out.old)) tally.waited
        (situation debugger.new notes.new (W.contents out.new)) step.1.waited)) }
    ensures end { IfOk result (λ step. IfSome step.0 (λ full. EndsAt O.opening (option_copied goal.entry) first
        (situation debugger.old notes.old (W.contents out.old)) tally.waited full (situation debugger.new notes.new (W.contents out.new)))) }
{
    let step = turn(alloc, debugger, notes, first, out)?;
    let behind = tally_behind(tally, debugger, &step.0);
    let end = ending(alloc, debugger, notes, goal, &behind, &step.0)?;
    match end {
        Some(line) => {
            put(out, &line)?;
            Ok((Some(step.1), behind))
        }
        None => Ok((None, behind)),
    }
}

// Makes one step in turn, notes it, and writes what came of it. What that was, and whether that the record is full.
fn turn<D: Device, O: Opening, W: Write>(
    alloc: Global,
    debugger: &mut Debugger<D, Sessions<D>, O>,
    notes: &mut Notes,
    first: bool,
    out: &mut W,
) -> Result<(Gone, bool), Unanswered>
    ensures { IfOk result (λ step. Turns O.opening first (situation debugger.old notes.old (W.contents out.old)) step.0
        (situation debugger.new notes.new (W.contents out.new)) × (step.1 ≡ is_full_at step.0)) }
{
    notes.steps.reserve(1)?;
    let gone = debugger.go(first)?;
    note_turn(notes, &gone);
    let passed = tell_gone(alloc, debugger.core(), &gone)?;
    put(out, &passed.told.bytes)?;
    Ok((gone, passed.told.full))
}
