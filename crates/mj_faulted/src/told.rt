// What is told of one job.

ghost use Rattle.std.specs.Prelude.{◌≡◌, ◌++◌, IfOk, OnOk};
ghost use Rattle.mj_faulted.specs.Sources.{sources_of};
ghost use Rattle.mj_faulted.specs.Told.{AddsStory, found_text};
ghost use Rattle.mj_faulted.specs.Walks.{lent};

use crate::fault::{Fall, find_fall};
use crate::sources::Source;
use crate::story::{put_lost, put_story};
use mj_ask::{Entry, Reply, Start};
use mj_load::Image;
use mj_text::Fault;
use mj_turn::Start as Opening;
use std::alloc::{AllocError, Global};

/// Puts what is told of a job that starts so, got these replies, and ended by this fault, to the end of some bytes. Where memory is refused a part of it may
/// stand there.
pub fn put_fault(
    alloc: Global,
    bytes: &mut Vec<u8>,
    image: &Image,
    sources: &[Source],
    start: &Start,
    replies: &[&Reply],
    job: u32,
    fault: Fault,
) -> Result<(), AllocError>
    ensures { OnOk result (AddsStory image.now (sources_of sources.now) start.now (lent replies.now) job fault bytes.old.items bytes.new.items) }
{
    let begun = opening_of(start, job)?;
    let found = find_fall(alloc, image, &begun, replies, fault)?;
    put_found(
        alloc,
        bytes,
        image,
        sources,
        &found,
        start.entry(),
        job,
        fault,
    )
}

// How a job of this number starts.
fn opening_of(start: &Start, job: u32) -> Result<Opening, AllocError>
    ensures job { IfOk result (λ o. o.job ≡ job) }
    ensures entry { IfOk result (λ o. o.entry ≡ start.now.entry) }
    ensures values { IfOk result (λ o. o.values.items ≡ start.now.values) }
{
    let (entry, values) = start.try_clone()?.into_parts();
    Ok(Opening { job, entry, values })
}

// Puts what is told by the machines that were found, if they were.
fn put_found(
    alloc: Global,
    bytes: &mut Vec<u8>,
    image: &Image,
    sources: &[Source],
    found: &Option<Fall>,
    entry: &Entry,
    job: u32,
    fault: Fault,
) -> Result<(), AllocError>
    ensures { OnOk result (bytes.new.items ≡ bytes.old.items ++ found_text image.now (sources_of sources.now) job fault entry.now found.now) }
{
    match found {
        None => put_lost(bytes, job, fault),
        Some(Fall { before, fallen }) => {
            put_story(
                alloc, bytes, image, sources, job, fault, entry, before, fallen,
            )
        }
    }
}
