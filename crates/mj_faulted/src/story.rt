// What is told of one job.

ghost use Rattle.std.specs.Prelude.{◌≡◌, ◌++◌, ◌∷◌, [], None, OnOk};
ghost use Rattle.mj_frames.specs.Frames.{place_of};
ghost use Rattle.mj_machine.specs.Kept.{standing};
ghost use Rattle.mj_faulted.specs.Meanings.{meaning_of};
ghost use Rattle.mj_faulted.specs.Sources.{sources_of};
ghost use Rattle.mj_faulted.specs.Stories as stories;
ghost use Rattle.mj_faulted.specs.Framed.{places_of};

use crate::meanings::{help, meaning};
use crate::places::put_spot;
use crate::putting::{put, put_entry, put_number};
use crate::sources::{Source, put_shown};
use crate::subject::put_subject;
use mj_ask::Entry;
use mj_ast::Routine;
use mj_frames::{Frame, Place};
use mj_load::Image;
use mj_machine::Machine;
use mj_text::Fault;
use std::alloc::{AllocError, Global};

/// The most calls that are told.
const CALLS: usize = 20;

/// Puts what is told of a job that started there, and comes to the fault from where the first machine stands to where the second does, to the end of some
/// bytes. Where memory is refused a part of it may stand there.
pub fn put_story(
    alloc: Global,
    bytes: &mut Vec<u8>,
    image: &Image,
    sources: &[Source],
    job: u32,
    fault: Fault,
    entry: &Entry,
    before: &Machine,
    fallen: &Machine,
) -> Result<(), AllocError>
    ensures { OnOk result (bytes.new.items ≡ bytes.old.items
        ++ stories.story_text image.now (sources_of sources.now) job fault entry.now (standing before.now None) (standing fallen.now None)) }
{
    let mut subject = Vec::new(alloc);
    put_subject(alloc, &mut subject, image.units(), entry, fault, before)?;
    let frames = fallen.frames.as_slice();
    put_head(bytes, image.routines(), job, fault, frames, &subject)?;
    put_rest(
        alloc,
        bytes,
        image.routines(),
        sources,
        fault,
        frames,
        entry,
    )
}

/// Puts what is told of a job whose fault isn't found again to the end of some bytes. Where memory is refused a part of it may stand there.
pub fn put_lost(bytes: &mut Vec<u8>, job: u32, fault: Fault) -> Result<(), AllocError>
    ensures { OnOk result (bytes.new.items ≡ bytes.old.items ++ stories.lost_text job fault) }
{
    put_front(bytes, job, fault)?;
    put(bytes, b", ")?;
    put(bytes, meaning(fault).as_bytes())?;
    put(bytes, b", but its place isn't found again\n")
}

// Puts which job ended by which fault.
fn put_front(bytes: &mut Vec<u8>, job: u32, fault: Fault) -> Result<(), AllocError>
    ensures { OnOk result (bytes.new.items ≡ bytes.old.items ++ stories.front_text job fault) }
{
    put(bytes, b"job ")?;
    put_number(bytes, job as usize)?;
    put(bytes, b": ")?;
    put(bytes, fault.name().as_bytes())
}

// Puts the first line.
fn put_head(
    bytes: &mut Vec<u8>,
    routines: &[Routine],
    job: u32,
    fault: Fault,
    frames: &[Frame],
    subject: &[u8],
) -> Result<(), AllocError>
    ensures { OnOk result (bytes.new.items ≡ bytes.old.items ++ stories.head_text routines.now job fault (places_of frames.now) subject.now) }
{
    put_front(bytes, job, fault)?;
    put_at(bytes, routines, frames)?;
    put(bytes, b", ")?;
    put_about(bytes, fault, subject)
}

// Puts what a fault means and what it is about, and ends the line.
fn put_about(bytes: &mut Vec<u8>, fault: Fault, subject: &[u8]) -> Result<(), AllocError>
    ensures { OnOk result (bytes.new.items ≡ bytes.old.items ++ (meaning_of fault ++ (stories.about_text subject.now ++ 10 ∷ []))) }
{
    put(bytes, meaning(fault).as_bytes())?;
    put_named(bytes, subject)?;
    put(bytes, b"\n")
}

// Puts what it is about, if that is known.
fn put_named(bytes: &mut Vec<u8>, subject: &[u8]) -> Result<(), AllocError>
    ensures { OnOk result (bytes.new.items ≡ bytes.old.items ++ stories.about_text subject.now) }
{
    if subject.is_empty() {
        return Ok(());
    }
    put(bytes, b": ")?;
    put(bytes, subject)
}

// Puts where the innermost frame stands, if there is one.
#[tactic(auto, using(crate::proofs::Framing::places_last))]
fn put_at(bytes: &mut Vec<u8>, routines: &[Routine], frames: &[Frame]) -> Result<(), AllocError>
    ensures { OnOk result (bytes.new.items ≡ bytes.old.items ++ stories.at_text routines.now (places_of frames.now)) }
{
    match frames {
        [] => Ok(()),
        [.., innermost] => {
            put(bytes, b" at ")?;
            put_spot(bytes, routines, &innermost.place)
        }
    }
}

// Puts the lines behind the first one.
fn put_rest(
    alloc: Global,
    bytes: &mut Vec<u8>,
    routines: &[Routine],
    sources: &[Source],
    fault: Fault,
    frames: &[Frame],
    entry: &Entry,
) -> Result<(), AllocError>
    ensures { OnOk result (bytes.new.items ≡ bytes.old.items
        ++ (stories.line_shown (sources_of sources.now) (places_of frames.now)
        ++ (stories.help_text fault ++ (stories.calls_below routines.now (sources_of sources.now) (places_of frames.now) ++ stories.start_text entry.now)))) }
{
    put_line(bytes, sources, frames)?;
    put_help(bytes, fault)?;
    put_below(bytes, routines, sources, frames)?;
    put_start(alloc, bytes, entry)
}

// Puts the line of the innermost frame, if there is one.
#[tactic(auto, using(crate::proofs::Framing::places_last))]
fn put_line(bytes: &mut Vec<u8>, sources: &[Source], frames: &[Frame]) -> Result<(), AllocError>
    ensures { OnOk result (bytes.new.items ≡ bytes.old.items ++ stories.line_shown (sources_of sources.now) (places_of frames.now)) }
{
    match frames {
        [] => Ok(()),
        [.., innermost] => put_shown(bytes, sources, &innermost.place),
    }
}

// Puts what helps.
fn put_help(bytes: &mut Vec<u8>, fault: Fault) -> Result<(), AllocError>
    ensures { OnOk result (bytes.new.items ≡ bytes.old.items ++ stories.help_text fault) }
{
    put(bytes, b"    ")?;
    put(bytes, help(fault).as_bytes())?;
    put(bytes, b"\n")
}

// Puts the frames below the innermost one.
fn put_below(
    bytes: &mut Vec<u8>,
    routines: &[Routine],
    sources: &[Source],
    frames: &[Frame],
) -> Result<(), AllocError>
    ensures { OnOk result (bytes.new.items ≡ bytes.old.items ++ stories.calls_below routines.now (sources_of sources.now) (places_of frames.now)) }
{
    match frames {
        [] => Ok(()),
        [below @ .., _] => put_calls(bytes, routines, sources, below, CALLS),
    }
}

// Puts frames, of which the innermost lies last and comes first, at most so many.
fn put_calls(
    bytes: &mut Vec<u8>,
    routines: &[Routine],
    sources: &[Source],
    frames: &[Frame],
    most: usize,
) -> Result<(), AllocError>
    ensures { OnOk result (bytes.new.items ≡ bytes.old.items ++ stories.calls_text routines.now (sources_of sources.now) most (places_of frames.now)) }
{
    match frames {
        [] => Ok(()),
        [below @ .., innermost] => {
            if most == 0 {
                return put_more(bytes, frames.len());
            }
            put_call(bytes, routines, sources, &innermost.place)?;
            put_calls(bytes, routines, sources, below, most - 1)
        }
    }
}

// Puts how many calls aren't told.
fn put_more(bytes: &mut Vec<u8>, count: usize) -> Result<(), AllocError>
    ensures { OnOk result (bytes.new.items ≡ bytes.old.items ++ stories.more_text count) }
{
    put(bytes, b"  and ")?;
    put_number(bytes, count)?;
    put(bytes, b" more\n")
}

// Puts where a frame goes on once the one above it is over.
fn put_call(
    bytes: &mut Vec<u8>,
    routines: &[Routine],
    sources: &[Source],
    place: &Place,
) -> Result<(), AllocError>
    ensures { OnOk result (bytes.new.items ≡ bytes.old.items ++ stories.call_text routines.now (sources_of sources.now) (place_of place.now)) }
{
    put(bytes, b"  called at ")?;
    put_spot(bytes, routines, place)?;
    put(bytes, b"\n")?;
    put_shown(bytes, sources, place)
}

// Puts where the job started.
fn put_start(alloc: Global, bytes: &mut Vec<u8>, entry: &Entry) -> Result<(), AllocError>
    ensures { OnOk result (bytes.new.items ≡ bytes.old.items ++ stories.start_text entry.now) }
{
    put(bytes, b"  started at ")?;
    put_entry(alloc, bytes, entry)?;
    put(bytes, b"\n")
}
