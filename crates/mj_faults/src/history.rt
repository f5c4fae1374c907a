// What a history has of a job: how it starts, and the replies that it got.

ghost use Rattle.std.specs.Prelude.{◌≡◌, ◌++◌, IfOk, OnOk, option_copied, slice_get};
ghost use Rattle.mj_sys.specs.History.{log_of};
ghost use Rattle.mj_jobvm.specs.Run.{replies_of as the_replies_of};
ghost use Rattle.mj_faults.specs.Told.{reply_in, started_by as the_started_by, started_in as the_started_in, started_there, start_told};
ghost use Rattle.mj_faulted.specs.Walks.{lent};

use mj_ask::{Ask, Reply, SharedAsk, Start};
use mj_report::Events;
use std::alloc::{AllocError, Global};

/// The replies that a job got, in order.
pub fn replies_of<'a, H: Events>(
    alloc: Global,
    told: &'a H,
    job: u32,
) -> Result<Vec<&'a Reply>, AllocError>
    ensures { IfOk result (λ list. lent list.items ≡ the_replies_of (log_of job (H.history told.now))) }
{
    let mut list = Vec::new(alloc);
    'events: for at in 0..told.count() {
        add_reply(&mut list, told, job, at)?;
    }
    Ok(list)
}

// Adds the reply of the event at a place, from 0, if it is one of this job.
fn add_reply<'a, H: Events>(
    list: &mut Vec<&'a Reply>,
    told: &'a H,
    job: u32,
    at: usize,
) -> Result<(), AllocError>
    ensures { OnOk result (lent list.new.items ≡ lent list.old.items ++ reply_in job (slice_get (H.history told.now) at)) }
{
    match told.event_at(at) {
        Some((of, _, reply)) if of == job => {
            list.push(reply)?;
            Ok(())
        }
        _ => Ok(()),
    }
}

/// How a job starts: it is one of those that the run began with, or another job started it.
pub fn start_of<'a, H: Events>(starts: &'a [Start], told: &'a H, job: u32) -> Option<&'a Start>
    ensures { option_copied result ≡ start_told starts.now (H.history told.now) job }
{
    let at = (job as usize).checked_sub(1)?;
    match starts.get(at) {
        Some(start) => Some(start),
        None => started_in(told, job),
    }
}

// How a job starts that another job started.
fn started_in<'a, H: Events>(told: &'a H, job: u32) -> Option<&'a Start>
    ensures { option_copied result ≡ the_started_in job (H.history told.now) }
{
    'events: for at in 0..told.count() {
        if let Some(start) = started_at(told, job, at) {
            return Some(start);
        }
    }
    None
}

// How the job of this number starts, if the event at a place, from 0, started it.
fn started_at<'a, H: Events>(told: &'a H, job: u32, at: usize) -> Option<&'a Start>
    ensures { option_copied result ≡ started_there job (slice_get (H.history told.now) at) }
{
    match told.event_at(at) {
        None => None,
        Some((_, ask, reply)) => started_by(job, ask, reply),
    }
}

// How the job of this number starts that an ask started which was told this.
fn started_by<'a>(job: u32, ask: &'a Ask, reply: &Reply) -> Option<&'a Start>
    ensures { option_copied result ≡ the_started_by job ask.now reply.now }
{
    match (ask, reply) {
        (Ask::Shared(SharedAsk::Start(start, _)), Reply::Job(made)) if *made == job => {
            Some(start.get())
        }
        _ => None,
    }
}
