// Lines of routines: those of entries, those that jobs stop at, and that of the last ask.

ghost use Rattle.std.specs.Prelude.{◌≡◌, ◌++◌, ◌<◌, ◌^◌, length, position, true, IfOk, IfSome, OnOk, option_map, slice_get};
ghost use Rattle.mj_frames.specs.Frames.{place_at};
ghost use Rattle.mj_load.specs.Image.{program_of};
ghost use Rattle.mj_inspect.specs.Spots.{CameFrom, asker, entry_line, labelled_line, is_label, break_lines, break_lines_from, break_lines_in};

use crate::telling::or_nothing;
use mj_ask::Entry;
use mj_ast::Line;
use mj_core::Core;
use mj_debug::Debugger;
use mj_dev::Device;
use mj_dialogue::put_spot;
use mj_load::Image;
use mj_sessions::Sessions;
use mj_sys::Opening;
use mj_text::Text;
use std::alloc::{AllocError, Global};

/// The number of the line at which an entry enters its routine, if there is such a line.
pub fn line_of_entry(image: &Image, entry: &Entry) -> Option<u32>
    ensures { result ≡ entry_line image.now.routines entry.now }
{
    let _ = image.units(); // for the proof
    for routine in image.routines() {
        if routine.name == entry.routine {
            return labelled(&routine.lines, &entry.label);
        }
    }
    None
}

// The number of the first line with this label, or of the first line of all where none is given.
fn labelled(lines: &[Line], label: &Option<Text>) -> Option<u32>
    requires { length lines.now < 2 ^ 32 }
    ensures { result ≡ labelled_line lines.now label.now }
{
    match label {
        None => match lines {
            [] => None,
            _ => Some(1),
        },
        Some(label) => match labelled_at(lines, label) {
            None => None,
            Some(at) => Some(at as u32 + 1),
        },
    }
}

// Where the first line with this label stands, from 0.
fn labelled_at(lines: &[Line], label: &Text) -> Option<usize>
    ensures value { result ≡ position (λ line. is_label label.now line.label) lines.now }
    ensures within { IfSome result (λ at. at < length lines.now) }
{
    lines.iter().position(|line| has_label(line, label))
}

// Whether a line has this label.
fn has_label(line: &Line, label: &Text) -> bool
    ensures { result ≡ is_label label.now line.now.label }
{
    match &line.label {
        None => false,
        Some(own) => *own == *label,
    }
}

/// The lines at which jobs stop, of all that the routines have; or that there are none.
pub fn list_breaks<D: Device, O: Opening>(
    alloc: Global,
    debugger: &Debugger<D, Sessions<D>, O>,
) -> Result<Vec<u8>, AllocError>
    ensures { IfOk result (λ bytes. bytes.items ≡ break_lines debugger.now.core.image debugger.now.marks) }
{
    let found = found_breaks(alloc, debugger)?;
    or_nothing(alloc, found)
}

// The lines at which jobs stop.
fn found_breaks<D: Device, O: Opening>(
    alloc: Global,
    debugger: &Debugger<D, Sessions<D>, O>,
) -> Result<Vec<u8>, AllocError>
    ensures { IfOk result
        (λ bytes. bytes.items ≡ break_lines_in debugger.now.core.image debugger.now.marks debugger.now.core.image.routines) }
{
    let image = debugger.core().image();
    let _ = image.units(); // for the proof
    let mut bytes = Vec::new(alloc);
    for routine in image.routines() {
        put_breaks(debugger, &mut bytes, &routine.name, &routine.lines)?;
    }
    Ok(bytes)
}

// Puts those of the lines of a routine to the end at which jobs stop.
fn put_breaks<D: Device, O: Opening>(
    debugger: &Debugger<D, Sessions<D>, O>,
    bytes: &mut Vec<u8>,
    routine: &Text,
    lines: &[Line],
) -> Result<(), AllocError>
    requires { length lines.now < 2 ^ 32 }
    ensures { OnOk result
        (bytes.new.items ≡ bytes.old.items ++ break_lines_from debugger.now.core.image debugger.now.marks routine.now 1 lines.now) }
{
    let mut number: u32 = 0;
    let mut rest = lines;
    'lines: while let [_, behind @ ..] = rest {
        number += 1;
        if debugger.is_breakpoint(routine, number) {
            put_spot(bytes, routine, number)?;
        }
        rest = behind;
    }
    Ok(())
}

/// The line that the last ask before the place came from. None where there is no such ask, or where its job had no frame there.
pub fn spot_at<D: Device, O: Opening>(
    debugger: &Debugger<D, Sessions<D>, O>,
) -> Option<(&Text, u32)>
    ensures { CameFrom (program_of debugger.now.core.image) O.opening debugger.now.core.history debugger.now.place (place_at result) }
{
    let place = debugger.place();
    if place == 0 {
        return None;
    }
    debugger.core().place_of(place - 1)
}

/// The job of the last event before the place, if there is one.
pub fn last_job<D: Device, O: Opening>(debugger: &Debugger<D, Sessions<D>, O>) -> Option<u32>
    ensures { result ≡ asker debugger.now.core.history debugger.now.place }
{
    let place = debugger.place();
    if place == 0 {
        return None;
    }
    job_at(debugger.core(), place - 1)
}

// The job of the event at a place, if there is one.
fn job_at<D: Device, O: Opening>(core: &Core<D, Sessions<D>, O>, at: usize) -> Option<u32>
    ensures { result ≡ option_map (λ e. e.job) (slice_get core.now.history at) }
{
    match core.event(at) {
        Some((job, _, _)) => Some(job),
        None => None,
    }
}
