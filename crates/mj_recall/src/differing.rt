// What a job does in the place of the first event of a trace that isn't made.

ghost use Rattle.std.specs.Prelude.{◌≡◌, ◌≤◌, length, true, IfSome, IsSomeAnd};
ghost use Rattle.mj_text.specs.declared.limit.Limit.TheVariants.{V2};
ghost use Rattle.mj_sys.specs.Shared.{are_global};
ghost use Rattle.mj_load.specs.Image.{program_of};
ghost use Rattle.mj_replica.specs.Replays.{history_of};
ghost use Rattle.mj_replay.specs.Traces.{opening_in};
ghost use Rattle.mj_trace.specs.Lines.{IsTrace};
ghost use Rattle.mj_describe.specs.Words.{instead_text};
ghost use Rattle.mj_recall.specs.Instead.{TellsOver, TellsInstead};

use mj_begin::{listed, loaded};
use mj_command_line::Replay;
use mj_describe::instead_words;
use mj_drafts::{Place, place_of};
use mj_globs::Globals;
use mj_load::Image;
use mj_retrace::{Instead, does_instead};
use mj_text::Limit;
use mj_trace::Trace;
use std::alloc::Global;
use std::mem::forget;
use std::rt::Files;

/// The line on what a job does in the place of an event, where that can be told. The routines and the globals are read once more, so all of them have to be
/// files, which a pipe isn't. Of a trace with the smaller limit for texts it isn't told.
#[tactic(auto, using(crate::proofs::Replacing::told_instead))]
pub fn instead_of<'a, R: Files + AllocGlobal>(
    rt: &R,
    order: &Replay<'a>,
    trace: &Trace,
    at: usize,
) -> Option<Vec<u8>>
    requires written { IsTrace trace.now }
    requires few { length trace.now.events ≤ order.now.events }
    ensures { IfSome result (λ words. TellsInstead order.now.files.items order.now.globals trace.now at words.items) }
{
    if trace.limit() != Limit::V2 || !are_files(rt, &order.files, order.globals) {
        return None;
    }
    let Ok(image) = loaded(rt, &order.files, Limit::V2, order.events) else {
        return None;
    };
    match listed(rt, order.globals, Limit::V2) {
        Ok(globals) => instead_over(rt.alloc(), image, globals, trace, at),
        Err(_) => {
            forget(image);
            None
        }
    }
}

// Whether routines and globals, if there are any, lie in files.
fn are_files<R: Files + AllocGlobal>(rt: &R, routines: &[&str], globals: Option<&str>) -> bool {
    for routine in routines {
        if !is_file(rt, *routine) {
            return false;
        }
    }
    match globals {
        Some(listing) => is_file(rt, listing),
        None => true,
    }
}

// Whether a file has this name, which can be read again and again.
fn is_file<R: Files + AllocGlobal>(rt: &R, name: &str) -> bool {
    match place_of(rt, name) {
        Ok(Place::Own(_, found)) => found.is_some(),
        Ok(Place::Straight) => false,
        Err(_) => false,
    }
}

// That line over these routines and globals.
#[tactic(auto, using(crate::proofs::Replacing::told_over))]
fn instead_over(
    alloc: Global,
    image: Image,
    globals: Globals,
    trace: &Trace,
    at: usize,
) -> Option<Vec<u8>>
    requires global { are_global globals.content ≡ true }
    requires written { IsTrace trace.now }
    requires long { image.bounds.limit ≡ V2 }
    requires room { length trace.now.events ≤ image.bounds.events }
    ensures { IfSome result (λ words.
        TellsOver (program_of image) (opening_in globals.content trace.now) (history_of trace.now.events) at words.items) }
{
    match does_instead(alloc, image, globals, trace, at) {
        Ok(found) => words_of(alloc, found),
        Err(_) => None,
    }
}

// That line of what was found.
fn words_of(alloc: Global, found: Option<Instead>) -> Option<Vec<u8>>
    ensures { IfSome result (λ words. IsSomeAnd found (λ it. words.items ≡ instead_text it.job it.ask it.spot it.told)) }
{
    let Some(found) = found else {
        return None;
    };
    let told = instead_words(
        alloc,
        found.job,
        &found.ask,
        &found.spot,
        found.told.as_ref(),
    );
    forget(found);
    match told {
        Ok(words) => Some(words),
        Err(_) => None,
    }
}
