// What is told of all jobs of a history.

ghost use Rattle.std.specs.Prelude.{◌≡◌, OnOk, slice_get};
ghost use Rattle.mj_faulted.specs.Sources.{sources_of};
ghost use Rattle.mj_faults.specs.Told.{AddsAll, AddsEvent, AddsJob, fault_by as the_fault_by, start_told};

use crate::history::{replies_of, start_of};
use mj_ask::{Ask, SharedAsk, Start};
use mj_faulted::{Source, put_fault, put_lost};
use mj_load::Image;
use mj_report::Events;
use mj_text::Fault;
use std::alloc::{AllocError, Global};

/// Puts what is told of each job that ended by a fault to the end of some bytes, in the order in which they ended. These are the starts with which the run
/// began. Where memory is refused a part of it may stand there.
pub fn put_faults<H: Events>(
    alloc: Global,
    bytes: &mut Vec<u8>,
    image: &Image,
    sources: &[Source],
    starts: &[Start],
    told: &H,
) -> Result<(), AllocError>
    ensures { OnOk result (AddsAll image.now (sources_of sources.now) starts.now (H.history told.now) bytes.old.items bytes.new.items) }
{
    'events: for at in 0..told.count() {
        put_event(alloc, bytes, image, sources, starts, told, at)?;
    }
    Ok(())
}

// Puts what an event tells, which ends a job by a fault, or nothing.
fn put_event<H: Events>(
    alloc: Global,
    bytes: &mut Vec<u8>,
    image: &Image,
    sources: &[Source],
    starts: &[Start],
    told: &H,
    at: usize,
) -> Result<(), AllocError>
    ensures { OnOk result
        (AddsEvent image.now (sources_of sources.now) starts.now (H.history told.now) (slice_get (H.history told.now) at) bytes.old.items bytes.new.items) }
{
    match told.event_at(at) {
        None => Ok(()),
        Some((job, ask, _)) => match fault_by(ask) {
            None => Ok(()),
            Some(fault) => put_job(alloc, bytes, image, sources, starts, told, job, fault),
        },
    }
}

// The fault by which a job ended that asks this.
fn fault_by(ask: &Ask) -> Option<Fault>
    ensures { result ≡ the_fault_by ask.now }
{
    match ask {
        Ask::Shared(SharedAsk::Halt(fault)) => *fault,
        _ => None,
    }
}

// Puts what is told of a job that ended by this fault.
fn put_job<H: Events>(
    alloc: Global,
    bytes: &mut Vec<u8>,
    image: &Image,
    sources: &[Source],
    starts: &[Start],
    told: &H,
    job: u32,
    fault: Fault,
) -> Result<(), AllocError>
    ensures { OnOk result (AddsJob image.now (sources_of sources.now) (start_told starts.now (H.history told.now) job) (H.history told.now) job fault
        bytes.old.items bytes.new.items) }
{
    match start_of(starts, told, job) {
        None => put_lost(bytes, job, fault),
        Some(start) => {
            let replies = replies_of(alloc, told, job)?;
            put_fault(alloc, bytes, image, sources, start, &replies, job, fault)
        }
    }
}
