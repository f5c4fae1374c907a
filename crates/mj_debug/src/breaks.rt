// Breakpoints.

ghost use Rattle.std.specs.Prelude.{◌≡◌, ◌↔◌, IsTrue, OnOk, OnErr, true, position, if◌then◌else◌};
ghost use Rattle.mj_semantics.specs.State.{Place};
ghost use Rattle.mj_load.specs.Image.{Loaded};
ghost use Rattle.mj_debug.specs.Breaks.{line_of, is_same, is_breakpoint, AreMarked};

use mj_load::Image;
use mj_text::Text;
use std::alloc::AllocError;

// That a line is a breakpoint, or none.
#[derive(Drop)]
pub struct BreakMark {
    pub routine: Text,
    pub line: u32,
    pub on: bool,
}

// Whether a line is a breakpoint.
pub fn is_breakpoint(image: &Image, marks: &[BreakMark], routine: &Text, line: u32) -> bool
    ensures { result ≡ is_breakpoint image.now marks.now (record { routine = routine.now; line = line }) }
{
    for mark in marks {
        if is_of(mark, routine, line) {
            return mark.on;
        }
    }
    image.has_break(routine, line)
}

// Says of a line whether it is a breakpoint from now on.
pub fn put_mark(
    marks: &mut Vec<BreakMark>,
    routine: &Text,
    line: u32,
    on: bool,
) -> Result<(), AllocError>
    ensures ok { OnOk result ((image : Loaded) → AreMarked image (record { routine = routine.now; line = line }) on marks.old.items marks.new.items) }
    ensures err { OnErr result (marks.new.items ≡ marks.old.items) }
{
    match place_of(marks, routine, line) {
        Some(place) => {
            marks[place].on = on;
            Ok(())
        }
        None => {
            marks.reserve(1)?;
            let routine = routine.try_clone()?;
            marks.push_reserved(BreakMark { routine, line, on });
            Ok(())
        }
    }
}

// Where the mark of a line stands.
fn place_of(marks: &[BreakMark], routine: &Text, line: u32) -> Option<usize>
    ensures { result ≡ position (λ m. is_same (line_of m) (record { routine = routine.now; line = line })) marks.now }
{
    marks.iter().position(|mark| is_of(mark, routine, line))
}

// Whether a mark is of this line.
fn is_of(mark: &BreakMark, routine: &Text, line: u32) -> bool
    ensures { result ≡ is_same (line_of mark.now) (record { routine = routine.now; line = line }) }
{
    mark.routine == *routine && mark.line == line
}
