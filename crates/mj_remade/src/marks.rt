// Breakpoints that go over to jobs that begin again.

ghost use Rattle.std.specs.Prelude.{◌≡◌, ◌<◌, ◌^◌, ◌++◌, length, IfOk, OnOk};
ghost use Rattle.mj_semantics.specs.State.{Place};
ghost use Rattle.mj_load.specs.Breaks.{has_break};
ghost use Rattle.mj_debug.specs.Breaks.{AreMarked, is_breakpoint};
ghost use Rattle.mj_remade.specs.Marks.{all_over, differs, mark_of, marks_from, marks_in, spot_of};

use mj_ast::Line;
use mj_debug::Debugger;
use mj_dev::Device;
use mj_sessions::Sessions;
use mj_sys::Opening;
use mj_text::Text;
use std::alloc::{AllocError, Global};

/// A line that is a breakpoint and holds no BREAK, or one that holds BREAK and is no breakpoint.
#[derive(Drop)]
pub struct Mark {
    pub routine: Text,
    pub line: u32,
    pub on: bool,
}

/// The marks of all lines that the routines have.
pub fn marks_of<D: Device, O: Opening>(
    alloc: Global,
    debugger: &Debugger<D, Sessions<D>, O>,
) -> Result<Vec<Mark>, AllocError>
    ensures { IfOk result (λ marks. marks.items ≡ marks_in debugger.now.core.image debugger.now.marks debugger.now.core.image.routines) }
{
    let image = debugger.core().image();
    let _ = image.units(); // for the proof
    let mut marks = Vec::new(alloc);
    for routine in image.routines() {
        put_marks(debugger, &mut marks, &routine.name, &routine.lines)?;
    }
    Ok(marks)
}

// Puts those of the lines of a routine to the end.
fn put_marks<D: Device, O: Opening>(
    debugger: &Debugger<D, Sessions<D>, O>,
    marks: &mut Vec<Mark>,
    routine: &Text,
    lines: &[Line],
) -> Result<(), AllocError>
    requires { length lines.now < 2 ^ 32 }
    ensures { OnOk result
        (marks.new.items ≡ marks.old.items ++ marks_from debugger.now.core.image debugger.now.marks routine.now 1 lines.now) }
{
    let mut number: u32 = 0;
    let mut rest = lines;
    'lines: while let [_, behind @ ..] = rest {
        number += 1;
        put_mark(debugger, marks, routine, number)?;
        rest = behind;
    }
    Ok(())
}

// Puts that of a line to the end, if there is one.
fn put_mark<D: Device, O: Opening>(
    debugger: &Debugger<D, Sessions<D>, O>,
    marks: &mut Vec<Mark>,
    routine: &Text,
    line: u32,
) -> Result<(), AllocError>
    ensures { OnOk result (marks.new.items
        ≡ marks.old.items ++ mark_of debugger.now.core.image debugger.now.marks (record { routine = routine.now; line = line })) }
{
    let on = debugger.is_breakpoint(routine, line);
    let holds = holds_break(debugger, routine, line);
    if differs(on, holds) {
        let routine = routine.try_clone()?;
        marks.push(Mark { routine, line, on })?;
    }
    Ok(())
}

// Whether a line holds BREAK.
fn holds_break<D: Device, O: Opening>(
    debugger: &Debugger<D, Sessions<D>, O>,
    routine: &Text,
    line: u32,
) -> bool
    ensures { result ≡ has_break debugger.now.core.image routine.now line }
{
    debugger.core().image().has_break(routine, line)
}

// Whether one is true, and the other isn't.
fn differs(one: bool, other: bool) -> bool
    ensures { result ≡ differs one other }
{
    if one { !other } else { other }
}

/// Makes lines breakpoints, or none, as marks say: one after the other.
pub fn put_all<D: Device, O: Opening>(
    debugger: &mut Debugger<D, Sessions<D>, O>,
    marks: &[Mark],
) -> Result<(), AllocError>
    ensures core { debugger.new.core ≡ debugger.old.core }
    ensures marks { OnOk result ((line : Place) → is_breakpoint debugger.old.core.image debugger.new.marks line
        ≡ all_over (is_breakpoint debugger.old.core.image debugger.old.marks) marks.now line) }
{
    for mark in marks {
        put(debugger, mark)?;
    }
    Ok(())
}

// Makes a line a breakpoint, or none.
fn put<D: Device, O: Opening>(
    debugger: &mut Debugger<D, Sessions<D>, O>,
    mark: &Mark,
) -> Result<(), AllocError>
    ensures core { debugger.new.core ≡ debugger.old.core }
    ensures marks { OnOk result (AreMarked debugger.old.core.image (spot_of mark.now) mark.now.on debugger.old.marks debugger.new.marks) }
{
    if mark.on {
        debugger.set(&mark.routine, mark.line)
    } else {
        debugger.clear(&mark.routine, mark.line)
    }
}
