// One job among many.

ghost use Rattle.std.specs.Prelude.{◌≡◌, ◌<◌, length, Bool, true, Some, IsSome, IfOk, IfErr, OnErr, option_copied};
ghost use Rattle.mj_ask.specs.Fits.{is_shared};
ghost use Rattle.mj_ask.specs.declared.ask.Ask.{Ask};
ghost use Rattle.mj_ask.specs.declared.ask.Ask.TheVariants as asks;
ghost use Rattle.mj_ask.specs.declared.ask.SharedAsk.TheVariants as shared_asks;
ghost use Rattle.mj_jobs.specs.Rows.{IsLive};
ghost use Rattle.mj_load.specs.Image.{program_of};
ghost use Rattle.mj_sys.specs.History.{state_of};
ghost use Rattle.mj_sys.specs.Shared.{moves_none};
ghost use Rattle.mj_sys.specs.System.{history_limit};
ghost use Rattle.mj_sys.specs.Told.{IsTurn};
ghost use Rattle.mj_core.specs.Answering.{Stays};
ghost use Rattle.mj_core.specs.Gives.{IsStepRefused};
ghost use Rattle.mj_core.specs.Ties.{IsPlaced, IsStanding, start_of, stand_of, Steps, IsStill, JobIsTold, Shares, IsMuted};

use crate::answerer::{Answerer, Fresh};
use crate::parts::{Made, make_place, serve_at, take_reply, take_up, talk};
use mj_ask::{Ask, Reply, SharedAsk};
use mj_dev::Device;
use mj_jobvm::{Job, Turn};
use mj_load::Image;
use mj_steps::Refusal;
use mj_store::Access;
use mj_sys::{Claim, Opening, Refused, System, Told};
use std::marker::Model;

/// The turns that a step lets a job go on for.
pub const FUEL: u64 = 10_000;

/// One job of many: the claim of its row, how it goes, who answers what it asks devices, and whether it stands at an ask.
#[derive(Drop)]
pub struct Slot<A> {
    /// the claim of its row
    pub claim: Claim,
    /// the job
    pub job: Job,
    /// who answers for it
    pub answerer: A,
    /// whether the job stands at an ask: it waits for the reply, or has it, and hasn't gone on
    pub at_ask: bool,
}

impl<A> Model for Slot<A> {
    ghost use Rattle.mj_core.specs.Ties.{Placed};

    ghost Value = { Placed A };

    ghost view = { λ s. record { claim = s.claim; job = s.job; answerer = s.answerer; at_ask = s.at_ask } };
}

/// Makes a step of one job: it goes on to its next ask, which is served. A reply of a device is given with it, or none.
pub fn step_slot<D: Device, A: Answerer<Fresh<D>>, O: Opening>(
    image: &Image,
    system: &mut System<D, O>,
    slot: &mut Slot<A>,
    late: bool,
    given: Option<&Reply>,
) -> Result<Made, Refusal>
    requires tied { IsPlaced A.answering image.now O.opening system.old slot.old }
    requires live { IsLive (state_of O.opening system.old.history).rows slot.old.claim.job }
    requires room { length system.old.history < history_limit }
    ensures gives { IfOk result
        (λ made. Steps A.answering (program_of image.now) O.opening late (option_copied given.entry) system.old slot.old made system.new slot.new) }
    ensures refused { IfErr result
        (λ why. IsStepRefused (program_of image.now) (start_of slot.old) slot.old.job.run.log (stand_of slot.old) late why (stand_of slot.new)) }
    ensures kept { OnErr result ((system.new ≡ system.old) × IsStill A.answering slot.old slot.new) }
    ensures tied { IsPlaced A.answering image.now O.opening system.new slot.new }
    ensures stands { IsStanding image.now slot.new }
    ensures claim { (slot.new.claim.job ≡ slot.old.claim.job) × (slot.new.claim.start ≡ slot.old.claim.start) }
{
    slot.at_ask = false;
    match slot.job.advance(image, FUEL) {
        Err(_) => Err(Refusal::Memory),
        Ok(Turn::Ran) => Ok(Made::Ran),
        Ok(Turn::Ended) => Ok(Made::Ended),
        Ok(Turn::Asks) => {
            slot.at_ask = true;
            ask(
                system,
                &mut slot.claim,
                &mut slot.job,
                &mut slot.answerer,
                late,
                given,
            )
        }
    }
}

// Has what a job asks served, and tells it.
fn ask<D: Device, A: Answerer<Fresh<D>>, O: Opening>(
    system: &mut System<D, O>,
    claim: &mut Claim,
    job: &mut Job,
    answerer: &mut A,
    late: bool,
    given: Option<&Reply>,
) -> Result<Made, Refusal>
    requires asks { IsSome job.old.run.pending }
    requires turn { IsTurn O.opening system.old claim.old }
    requires room { length system.old.history < history_limit }
    ensures ok { IfOk result (λ made. JobIsTold A.answering O.opening system.old claim.old job.old answerer.old late (option_copied given.entry) made
        system.new claim.new job.new answerer.new) }
    ensures refused { IfErr result (λ why. IsMuted job.old late why) }
    ensures kept { OnErr result
        ((system.new ≡ system.old) × (claim.new ≡ claim.old) × (job.new ≡ job.old) × Stays A.answering answerer.old answerer.new) }
{
    let Some(ask) = job.ask() else {
        unreachable!();
    };
    if late && ask.timeout().is_none() {
        return Err(Refusal::NotTimed);
    }
    match ask {
        Ask::Shared(SharedAsk::Open(_, _)) => share(system, claim, job, answerer, late),
        Ask::Shared(SharedAsk::Access(of)) => {
            let Ok(copy) = of.try_clone() else {
                return Err(Refusal::Memory);
            };
            access(system, claim, job, answerer, copy)
        }
        Ask::Shared(of) => {
            let Ok(copy) = of.try_clone() else {
                return Err(Refusal::Memory);
            };
            tell(system, claim, job, answerer, copy, late)
        }
        Ask::Device(_, _) | Ask::Rest(_) => talk::<D, A>(job, answerer, late, given),
    }
}

// Lets the system serve the access that a job asks for, and tells it.
fn access<D: Device, A: Answerer<Fresh<D>>, O: Opening>(
    system: &mut System<D, O>,
    claim: &mut Claim,
    job: &mut Job,
    answerer: &A,
    access: Access,
) -> Result<Made, Refusal>
    requires asks { job.old.run.pending ≡ Some (asks.Shared (shared_asks.Access access)) }
    requires turn { IsTurn O.opening system.old claim.old }
    requires room { length system.old.history < history_limit }
    ensures ok { IfOk result (λ made. (late : Bool) → Shares A.answering O.opening system.old claim.old job.old answerer.now
        (asks.Shared (shared_asks.Access access)) late made system.new claim.new job.new answerer.now) }
    ensures err { IfErr result (λ why. (why ≡ Refusal.Memory) × (system.new ≡ system.old) × (claim.new ≡ claim.old) × (job.new ≡ job.old)) }
{
    match system.access(claim, access) {
        Ok(reply) => {
            take_reply::<D, A>(job, answerer, reply);
            Ok(Made::Event)
        }
        Err(Refused::Memory) => Err(Refusal::Memory),
        Err(Refused::Full) | Err(Refused::Turn { .. }) => unreachable!(),
    }
}

// Lets the system serve what a job asks by which no session goes to it, and tells it.
#[inline(never)]
fn tell<D: Device, A: Answerer<Fresh<D>>, O: Opening>(
    system: &mut System<D, O>,
    claim: &mut Claim,
    job: &mut Job,
    answerer: &A,
    ask: SharedAsk,
    late: bool,
) -> Result<Made, Refusal>
    requires asks { job.old.run.pending ≡ Some (asks.Shared ask) }
    requires moves { moves_none ask ≡ true }
    requires turn { IsTurn O.opening system.old claim.old }
    requires room { length system.old.history < history_limit }
    ensures ok { IfOk result (λ made. Shares A.answering O.opening system.old claim.old job.old answerer.now
        (asks.Shared ask) late made system.new claim.new job.new answerer.now) }
    ensures err { IfErr result (λ why. (why ≡ Refusal.Memory) × (system.new ≡ system.old) × (claim.new ≡ claim.old) × (job.new ≡ job.old)) }
{
    match system.tell(claim, ask, late) {
        Ok(Told::Reply(reply)) => {
            take_reply::<D, A>(job, answerer, reply);
            Ok(Made::Event)
        }
        Ok(Told::Busy { holder, held }) => Ok(Made::Busy(holder, held)),
        Err(Refused::Memory) => Err(Refusal::Memory),
        Err(Refused::Full) | Err(Refused::Turn { .. }) => unreachable!(),
    }
}

// Lets the system serve what a job asks, and tells it. What would give the job a session with a device with which it has one isn't served.
#[inline(never)]
fn share<D: Device, A: Answerer<Fresh<D>>, O: Opening>(
    system: &mut System<D, O>,
    claim: &mut Claim,
    job: &mut Job,
    answerer: &mut A,
    late: bool,
) -> Result<Made, Refusal>
    requires asks { (a : Ask) × (job.old.run.pending ≡ Some a) × (is_shared a ≡ true) }
    requires turn { IsTurn O.opening system.old claim.old }
    requires room { length system.old.history < history_limit }
    ensures ok { IfOk result (λ made. (a : Ask) × (job.old.run.pending ≡ Some a)
        × Shares A.answering O.opening system.old claim.old job.old answerer.old a late made system.new claim.new job.new answerer.new) }
    ensures err { IfErr result (λ why. (why ≡ Refusal.Memory) × (system.new ≡ system.old) × (claim.new ≡ claim.old) × (job.new ≡ job.old)
        × Stays A.answering answerer.old answerer.new) }
{
    let Some(ask) = job.ask() else {
        unreachable!();
    };
    let Ok(place) = make_place::<D, A>(answerer, ask) else {
        return Err(Refusal::Memory);
    };
    match serve_at(system, claim, ask, &place, late) {
        Ok(Some(served)) => Ok(take_up::<D, A>(job, answerer, place, served)),
        Ok(None) => Ok(Made::Unfit),
        Err(Refused::Memory) => Err(Refusal::Memory),
        Err(Refused::Full) | Err(Refused::Turn { .. }) => unreachable!(),
    }
}
