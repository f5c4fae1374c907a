// Lines of the source.

ghost use Rattle.std.specs.Prelude.{◌≡◌, ◌++◌, ◌-◌, OnOk};
ghost use Rattle.std.specs.Option.{option_map};
ghost use Rattle.mj_frames.specs.Frames.{place_of};
ghost use Rattle.mj_hints.specs.Refusals.{line_at as the_line_at};
ghost use Rattle.mj_hints.specs.Shown.{source_line};
ghost use Rattle.mj_faulted.specs.Stories.{source_in as the_source_in, shown_at};
ghost use Rattle.mj_faulted.specs.Sources.{sources_of};

use mj_frames::Place;
use mj_hints::{line_at, put_source};
use mj_text::{Digits, Text};
use std::alloc::AllocError;

/// A routine's name, and the bytes of its file.
#[derive(Drop)]
pub struct Source {
    pub name: Vec<u8>,
    pub bytes: Vec<u8>,
}

/// Puts the line at a place to the end of some bytes, as it stands in the source, where that is known.
pub fn put_shown(bytes: &mut Vec<u8>, sources: &[Source], place: &Place) -> Result<(), AllocError>
    ensures { OnOk result (bytes.new.items ≡ bytes.old.items ++ shown_at (sources_of sources.now) (place_of place.now)) }
{
    match source_in(sources, &place.routine) {
        None => Ok(()),
        Some(source) => put_line(bytes, source, place.line as usize),
    }
}

// Puts the line of this number.
fn put_line(bytes: &mut Vec<u8>, source: &[u8], line: usize) -> Result<(), AllocError>
    ensures { OnOk result (bytes.new.items ≡ bytes.old.items ++ source_line 0 (the_line_at (line - 1) source.now)) }
{
    put_source(bytes, line_at(source, line.saturating_sub(1)), 0)
}

// The bytes of the routine of this name, if they are known.
fn source_in<'a>(sources: &'a [Source], name: &Text) -> Option<&'a [u8]>
    ensures { option_map (λ bytes. bytes.now) result ≡ the_source_in (sources_of sources.now) name.now }
{
    let mut digits = Digits::new();
    let word = name.bytes(&mut digits);
    for source in sources {
        if source.name.as_slice() == word {
            return Some(source.bytes.as_slice());
        }
    }
    None
}
