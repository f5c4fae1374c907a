// Where a debugger stops by itself.

ghost use Rattle.std.specs.Prelude.{◌≡◌, map};
ghost use Rattle.mj_ast.specs.Trees.{line_of};
ghost use Rattle.mj_load.specs.Breaks as breaks;

use crate::image::Image;
use mj_ast::Line;
use mj_text::Text;

impl Image {
    /// Whether that line of the routine of that name, from 1 on, holds BREAK. `false` where there is no such line.
    pub fn has_break(&self, routine: &Text, line: u32) -> bool
        ensures { result ≡ breaks.has_break self.now routine.now line }
    {
        for candidate in self.routines() {
            if candidate.name == *routine {
                return holds_break_at(&candidate.lines, line);
            }
        }
        false
    }
}

// Whether the line with this number, from 1 on, is one of these and holds BREAK.
fn holds_break_at(lines: &[Line], number: u32) -> bool
    ensures { result ≡ breaks.holds_break_at (map line_of lines.now) number }
{
    if number == 0 {
        return false;
    }
    match lines.get(number as usize - 1) {
        None => false,
        Some(line) => line.holds_break(),
    }
}
