// How places are called: by the label above them, as `SUB+1^U`.

ghost use Rattle.std.specs.Prelude.{◌≡◌, ◌+◌, ◌<◌, ◌^◌, ◌++◌, ◌∷◌, length, reverse, decimal, OnOk, option_map};
ghost use Rattle.mj_frames.specs.Frames.{place_of};
ghost use Rattle.mj_faulted.specs.Stories.{first_label as the_first_label, label_above as the_label_above, line_text, lines_in as the_lines_in, spot_text};

use crate::putting::{put_number, put_text};
use mj_ast::{Line, Routine};
use mj_frames::Place;
use mj_text::Text;
use std::alloc::AllocError;

/// Puts a place, as `SUB+1^U`, to the end of some bytes.
pub fn put_spot(bytes: &mut Vec<u8>, routines: &[Routine], place: &Place) -> Result<(), AllocError>
    ensures { OnOk result (bytes.new.items ≡ bytes.old.items ++ spot_text routines.now (place_of place.now)) }
{
    let line = place.line as usize;
    let label = label_above(lines_in(routines, &place.routine), line);
    put_line(bytes, label, line)?;
    bytes.push(b'^')?;
    put_text(bytes, &place.routine)
}

// The lines of the routine of this name: none where it isn't there.
fn lines_in<'a>(routines: &'a [Routine], name: &Text) -> &'a [Line]
    ensures { result.now ≡ the_lines_in routines.now name.now }
{
    for routine in routines {
        if routine.name == *name {
            return routine.lines.as_slice();
        }
    }
    &[]
}

// The last label up to a line, and how many lines that one stands behind it.
fn label_above(lines: &[Line], line: usize) -> Option<(&Text, usize)>
    ensures { option_map (λ found. (found.0.now, found.1)) result ≡ the_label_above lines.now line }
{
    let front = if line < lines.len() {
        &lines[..line]
    } else {
        lines
    };
    last_label(front, 0)
}

// The last label of these lines, behind which so many others stand, and how many stand behind it.
fn last_label(lines: &[Line], behind: usize) -> Option<(&Text, usize)>
    requires { length lines.now + behind < 2 ^ 64 }
    ensures { option_map (λ found. (found.0.now, found.1)) result ≡ the_first_label (reverse lines.now) behind }
{
    match lines {
        [] => None,
        [front @ .., last] => match &last.label {
            Some(label) => Some((label, behind)),
            None => last_label(front, behind + 1),
        },
    }
}

// Puts a line by the label above it, or by its number where there is none.
fn put_line(
    bytes: &mut Vec<u8>,
    label: Option<(&Text, usize)>,
    line: usize,
) -> Result<(), AllocError>
    ensures { OnOk result (bytes.new.items ≡ bytes.old.items ++ line_text (option_map (λ found. (found.0.now, found.1)) label.entry) line) }
{
    match label {
        None => put_offset(bytes, line),
        Some((label, behind)) => {
            put_text(bytes, label)?;
            if behind == 0 {
                return Ok(());
            }
            put_offset(bytes, behind)
        }
    }
}

// Puts `+` and a number.
fn put_offset(bytes: &mut Vec<u8>, count: usize) -> Result<(), AllocError>
    ensures { OnOk result (bytes.new.items ≡ bytes.old.items ++ (43 ∷ decimal count)) }
{
    bytes.push(b'+')?;
    put_number(bytes, count)
}
