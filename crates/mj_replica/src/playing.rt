// One job of a replay.

ghost use Rattle.std.specs.Prelude.{◌≡◌, ◌<◌, ◌↔◌, ◌&&◌, length, true, Some, IsTrue, IfOk, OnErr, option_copied};
ghost use Rattle.mj_ask.specs.Fits.{fits};
ghost use Rattle.mj_ask.specs.Within.{is_reply_within};
ghost use Rattle.mj_ask.specs.declared.ask.Ask.TheVariants as asks;
ghost use Rattle.mj_jobs.specs.Rows.{IsLive};
ghost use Rattle.mj_semantics.specs.Job.{Start as Starts};
ghost use Rattle.mj_jobvm.specs.Jobs.{IsRunOf, IsIn};
ghost use Rattle.mj_sys.specs.History.{state_of};
ghost use Rattle.mj_sys.specs.System.{history_limit};
ghost use Rattle.mj_sys.specs.Told.{IsTurn};
ghost use Rattle.mj_replica.specs.Playing.{IsPlaying, AsksIt, ServesIt, IsToldOn, Plays};

use mj_ask::{Ask, Reply, SharedAsk, is_same_ask, is_same_reply};
use mj_dev::Device;
use mj_expect::Heeds;
use mj_jobvm::{Job, Turn};
use mj_load::Image;
use mj_sys::{Claim, Opening, Refused, Served, System};
use std::alloc::AllocError;
use std::marker::Model;

// The turns that a job is let go on for behind a reply.
const TURNS: u64 = 10_000_000_000;

// A job with its claim, and what is known of its talks with devices.
#[derive(Drop)]
pub struct Played {
    pub claim: Claim,
    pub job: Job,
    pub heeds: Heeds,
}

impl Model for Played {
    ghost use Rattle.mj_replica.specs.Playing.{Playing};

    ghost Value = { Playing };

    ghost view = { λ p. record { claim = p.claim; job = p.job; heeds = p.heeds } };
}

// Makes an event of a job again, if it is the next.
pub fn play<D: Device, O: Opening>(
    image: &Image,
    system: &mut System<D, O>,
    claim: &mut Claim,
    job: &mut Job,
    heeds: &mut Heeds,
    ask: &Ask,
    reply: &Reply,
) -> Result<bool, AllocError>
    requires tied { IsPlaying image.now O.opening system.old claim.old job.old heeds.old }
    requires live { IsLive (state_of O.opening system.old.history).rows claim.old.job }
    requires room { length system.old.history < history_limit }
    ensures { IfOk result
        (λ made. Plays image.now O.opening system.old claim.old job.old heeds.old ask.now reply.now made system.new claim.new job.new heeds.new) }
{
    if !asks_it(image, job, ask, reply)? {
        return Ok(false);
    }
    match ask {
        Ask::Shared(shared) => {
            if !serves_it(system, claim, shared, reply)? {
                return Ok(false);
            }
            tell(job, ask, reply)
        }
        Ask::Device(_, _) | Ask::Rest(_) => {
            if !heeds.hear(ask, reply)? {
                return Ok(false);
            }
            tell(job, ask, reply)
        }
    }
}

// Tells a job the reply to what it asks.
fn tell(job: &mut Job, ask: &Ask, reply: &Reply) -> Result<bool, AllocError>
    requires { (job.old.run.pending ≡ Some ask.now) × (fits ask.now reply.now ≡ true) }
    ensures { IfOk result (λ made. (made ≡ true) × IsToldOn job.old ask.now reply.now job.new) }
{
    let told = reply.try_clone()?;
    job.answer(told);
    Ok(true)
}

// Brings a job to its next ask, and says whether that is this, and the reply one that it may be told.
fn asks_it(image: &Image, job: &mut Job, ask: &Ask, reply: &Reply) -> Result<bool, AllocError>
    requires { IsIn image.now job.old }
    ensures run { (start : Starts) → IsRunOf image.now start job.old → IsRunOf image.now start job.new }
    ensures log { job.new.run.log ≡ job.old.run.log }
    ensures asks { IfOk result
        (λ made. (start : Starts) → IsRunOf image.now start job.old → AsksIt image.now start job.old ask.now reply.now made job.new) }
{
    match job.advance(image, TURNS)? {
        Turn::Ran => Ok(false),
        Turn::Ended => Ok(false),
        Turn::Asks => Ok(is_it(job.ask(), ask) && may_be_told(image, ask, reply)),
    }
}

// Whether a job of an image may be told this reply to this ask: it fits, and its texts are within the image's limit.
fn may_be_told(image: &Image, ask: &Ask, reply: &Reply) -> bool
    ensures { result ≡ (fits ask.now reply.now && is_reply_within image.now.bounds.limit reply.now) }
{
    let bounds = image.bounds();
    ask.fits(reply) && reply.is_within(bounds.limit)
}

// Whether what a job asks is this.
fn is_it(asked: Option<&Ask>, ask: &Ask) -> bool
    ensures { IsTrue result ↔ (option_copied asked.entry ≡ Some ask.now) }
{
    match asked {
        None => false,
        Some(asked) => is_same_ask(asked, ask),
    }
}

// Lets the system serve an ask, and says whether it tells this reply. One that is busy and has a timeout is late.
fn serves_it<D: Device, O: Opening>(
    system: &mut System<D, O>,
    claim: &mut Claim,
    ask: &SharedAsk,
    reply: &Reply,
) -> Result<bool, AllocError>
    requires turn { IsTurn O.opening system.old claim.old }
    requires room { length system.old.history < history_limit }
    ensures { IfOk result (λ made. ServesIt O.opening system.old claim.old (asks.Shared ask.now) reply.now made system.new claim.new) }
{
    match system.serve_shared(claim, ask, true) {
        Ok(Served::Reply(told)) => Ok(is_same_reply(&told, reply)),
        Ok(Served::Opened(_)) => Ok(is_same_reply(&Reply::Got, reply)),
        Ok(Served::Busy { .. }) => Ok(false),
        Err(Refused::Memory) => Err(AllocError),
        Err(Refused::Full) | Err(Refused::Turn { .. }) => unreachable!(),
    }
}
