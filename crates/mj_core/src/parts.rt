// The parts of a step behind the ask, each by itself: who has the system for one call alone needs no more.
//
// What a device or the clock is asked needs no system at all (`talk`). What all jobs share is asked in three calls: `make_place` before, `serve_at` with
// the system, and `take_up` behind. So where the system is under a lock, neither a job's own code nor a call of a session is made under it.
// By all asks but OPEN no session goes to a job: these need no place. They are asked in `access` or `tell` of the system, and a reply is told in
// `take_reply`.

ghost use Rattle.std.specs.Prelude.{◌≡◌, true, false, Some, IfOk, IfErr, OnErr, option_copied};
ghost use Rattle.mj_ask.specs.Fits.{fits, is_shared};
ghost use Rattle.mj_ask.specs.declared.ask.Ask as asks;
ghost use Rattle.mj_load.specs.Image.{Loaded};
ghost use Rattle.mj_sys.specs.declared.served.Served.TheVariants as serveds;
ghost use Rattle.mj_sys.specs.System.{Claimed};
ghost use Rattle.mj_sys.specs.Told.{IsServiceRefused};
ghost use Rattle.mj_core.specs.Answering.{Stays, IsPlaceFor};
ghost use Rattle.mj_core.specs.Meaning.{IsOfDevice};
ghost use Rattle.mj_core.specs.Ties.{Talks, IsServedAt, CanBeTold, TakesUp, IsJobOf, claim_behind, made_of};

use crate::answerer::{Answerer, Fresh, Unplaced};
use mj_ask::{Ask, Reply, SharedAsk};
use mj_dev::{Device, Session};
use mj_jobvm::Job;
use mj_sessions::Answer;
use mj_steps::Refusal;
use mj_sys::{Claim, Held, Opening, Refused, Served, System};
use mj_text::Text;
use std::alloc::AllocError;

/// What comes of a step of one job.
#[derive(Drop)]
pub enum Made {
    /// the job asked and was told
    Event,
    /// another job has what is asked for: that job, and what it has
    Busy(u32, Held),
    /// there is nothing to read yet
    NotYet,
    /// nobody can answer what the job asks
    Unfit,
    /// the job asked nothing
    Ran,
    /// the job has ended
    Ended,
}

/// What is ready for a session that may go to a job by its ask.
#[derive(Drop)]
pub enum Place {
    /// nothing: none can
    Unneeded,
    /// nothing: the job has one with that device
    Taken,
    /// room for one, and the name for it
    Ready(Text),
}

/// Tells a job what comes of its ask of a device or of the clock: who answers for the job answers for the device, and a rest is over at once. It needs no
/// system. What isn't told leaves the job as it was.
pub fn talk<D: Device, A: Answerer<Fresh<D>>>(
    job: &mut Job,
    answerer: &mut A,
    late: bool,
    given: Option<&Reply>,
) -> Result<Made, Refusal>
    requires asks { (a : asks.Ask) × (job.old.run.pending ≡ Some a) × (is_shared a ≡ false) }
    ensures ok { IfOk result (λ made. (a : asks.Ask) × (job.old.run.pending ≡ Some a)
        × Talks A.answering job.old answerer.old a late (option_copied given.entry) made job.new answerer.new) }
    ensures err { IfErr result (λ why. (why ≡ Refusal.Memory) × (job.new ≡ job.old) × Stays A.answering answerer.old answerer.new) }
    ensures own { (image : Loaded) (claim : Claimed) → IsJobOf A.answering image claim job.old answerer.old
        → IsJobOf A.answering image claim job.new answerer.new }
{
    let Some(ask) = job.ask() else {
        unreachable!();
    };
    match ask {
        Ask::Device(_, _) => call_device::<D, A>(job, answerer, late, given),
        Ask::Rest(_) => {
            job.answer(Reply::Done);
            Ok(Made::Event)
        }
        Ask::Shared(_) => unreachable!(),
    }
}

// Lets who answers for a job answer what it asks a device, and tells it.
fn call_device<D: Device, A: Answerer<Fresh<D>>>(
    job: &mut Job,
    answerer: &mut A,
    late: bool,
    given: Option<&Reply>,
) -> Result<Made, Refusal>
    requires asks { (a : asks.Ask) × (job.old.run.pending ≡ Some a) × IsOfDevice a }
    ensures ok { IfOk result (λ made. (a : asks.Ask) × (job.old.run.pending ≡ Some a)
        × Talks A.answering job.old answerer.old a late (option_copied given.entry) made job.new answerer.new) }
    ensures err { IfErr result (λ why. (why ≡ Refusal.Memory) × (job.new ≡ job.old) × Stays A.answering answerer.old answerer.new) }
{
    let Some(ask) = job.ask() else {
        unreachable!();
    };
    match answerer.answer(ask, late, given) {
        Answer::Told(reply) => {
            job.answer(reply);
            Ok(Made::Event)
        }
        Answer::NotYet => Ok(Made::NotYet),
        Answer::Unfit => Ok(Made::Unfit),
        Answer::Memory => Err(Refusal::Memory),
    }
}

/// Makes ready, before the system is asked, what a session needs that may go to the job by this ask: room for it, and a copy of its device's name.
pub fn make_place<D: Device, A: Answerer<Fresh<D>>>(
    answerer: &mut A,
    ask: &Ask,
) -> Result<Place, AllocError>
    ensures stays { Stays A.answering answerer.old answerer.new }
    ensures place { IfOk result (λ place. IsPlaceFor A.answering answerer.old ask.now place answerer.new) }
{
    let Ask::Shared(SharedAsk::Open(name, _)) = ask else {
        return Ok(Place::Unneeded);
    };
    match answerer.make_room(name) {
        Ok(()) => Ok(Place::Ready(name.try_clone()?)),
        Err(Unplaced::Taken) => Ok(Place::Taken),
        Err(Unplaced::Memory) => Err(AllocError),
    }
}

/// Lets the system serve what a claim's job asks of what all jobs share, for which this place is ready. Of all parts it alone needs the system, and it
/// calls nobody else. Where a session would go to a job that has one with that device, nothing is served, and nothing comes of it.
pub fn serve_at<D: Device, O: Opening>(
    system: &mut System<D, O>,
    claim: &mut Claim,
    ask: &Ask,
    place: &Place,
    late: bool,
) -> Result<Option<Served<Session<D>>>, Refused>
    requires shared { is_shared ask.now ≡ true }
    ensures ok { IfOk result (λ served. IsServedAt O.opening system.old claim.old ask.now place.now late served system.new claim.new) }
    ensures refused { IfErr result (λ why. IsServiceRefused O.opening system.old claim.old why) }
    ensures kept { OnErr result ((system.new ≡ system.old) × (claim.new ≡ claim.old)) }
{
    if let Place::Taken = place {
        if system.takes_session(ask) {
            return Ok(None);
        }
    }
    match system.serve(claim, ask, late) {
        Ok(served) => Ok(Some(served)),
        Err(why) => Err(why),
    }
}

/// Tells a job what the system served it: a session that goes to it goes to its place. It needs no system, and no memory. Where the ask is busy, nothing
/// is told.
pub fn take_up<D: Device, A: Answerer<Fresh<D>>>(
    job: &mut Job,
    answerer: &mut A,
    place: Place,
    served: Served<Session<D>>,
) -> Made
    requires told { (a : asks.Ask) × (job.old.run.pending ≡ Some a) × (is_shared a ≡ true) × CanBeTold A.answering answerer.old a place served }
    ensures made { result ≡ made_of served }
    ensures told { (a : asks.Ask) → job.old.run.pending ≡ Some a → TakesUp A.answering job.old answerer.old a served job.new answerer.new }
    ensures own { (image : Loaded) (claim : Claimed) → IsJobOf A.answering image claim job.old answerer.old
        → IsJobOf A.answering image (claim_behind claim served) job.new answerer.new }
{
    match served {
        Served::Reply(reply) => {
            take_reply::<D, A>(job, answerer, reply);
            Made::Event
        }
        Served::Opened(session) => {
            let Place::Ready(name) = place else {
                unreachable!();
            };
            answerer.open(name, Fresh::new(session));
            job.answer(Reply::Got);
            Made::Event
        }
        Served::Busy { holder, held } => Made::Busy(holder, held),
    }
}

/// Tells a job a reply of the system, by which no session goes to it: who answers for it has nothing to take. It needs no system, and no memory.
pub fn take_reply<D: Device, A: Answerer<Fresh<D>>>(job: &mut Job, answerer: &A, reply: Reply)
    requires told { (a : asks.Ask) × (job.old.run.pending ≡ Some a) × (is_shared a ≡ true) × (fits a reply ≡ true) }
    ensures told { (a : asks.Ask) → job.old.run.pending ≡ Some a
        → TakesUp A.answering job.old answerer.now a (serveds.Reply reply) job.new answerer.now }
    ensures own { (image : Loaded) (claim : Claimed) → IsJobOf A.answering image claim job.old answerer.now
        → IsJobOf A.answering image (claim_behind claim (serveds.Reply reply)) job.new answerer.now }
{
    job.answer(reply);
}
