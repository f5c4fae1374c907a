// What a worker does for one job.

ghost use Rattle.std.specs.Prelude.{◌≡◌, true, false, Bool, Some, IsSome, IfOk, IfErr, OnErr};
ghost use Rattle.mj_text.specs.declared.limit.Limit.TheVariants.{V2};
ghost use Rattle.mj_ask.specs.Fits.{is_shared};
ghost use Rattle.mj_ask.specs.declared.ask.Ask as asks;
ghost use Rattle.mj_ask.specs.declared.ask.Ask.TheVariants as ask_kinds;
ghost use Rattle.mj_sys.specs.declared.served.Served.TheVariants as serveds;
ghost use Rattle.mj_sys.specs.System.{Claimed};
ghost use Rattle.mj_gather.specs.Rans.{is_halt, IsRan, ArePlacesIn};
ghost use Rattle.mj_work.specs.Working.{stop_by, needs_no_place, reply_in, WasServed, WasToldAt, WasServedAt, is_told, IsAnswered, IsAt};
ghost use Rattle.mj_work.specs.Working.{WasRefused, StopsUntold, StopsUnserved, StopsRefused};

use crate::gate::{Clock, Gate};
use crate::locked::{Locked, Work};
use crossbeam_utils::CachePadded;
use mj_ask::{Ask, Reply, SharedAsk};
use mj_core::{Answerer, FUEL, Fresh, Made, Place, make_place, take_reply, take_up, talk};
use mj_dev::{Device, Session};
use mj_gather::{Ran, Stop};
use mj_jobvm::{Job, Places, Turn};
use mj_load::Image;
use mj_sys::{Claim, Opening, Refused, Served, Told};
use mj_text::Text;
use std::alloc::{AllocError, Global};
use std::sync::{Mutex, Wait};

// What each worker has: the runtime, the lock with what lies under it, the image that all jobs run in, and what it calls while they run.
#[derive(Drop)]
pub struct Worker<'m, 'a, J: Work, D: Device, O: Opening, G, C, R> {
    pub rt: &'m R,
    pub alloc: Global,
    pub shared: &'m Mutex<CachePadded<Locked<'a, J, D, O>>>,
    pub image: &'a Image,
    pub gate: &'m G,
    pub clock: &'m C,
}

impl<'m, 'a, J: Work, D: Device, O: Opening, G: Gate, C: Clock, R: Wait> Worker<
    'm,
    'a,
    J,
    D,
    O,
    G,
    C,
    R,
> {
    // Tries an ask once under the lock, by which a session may go to its job.
    fn try_once(
        &self,
        claim: &mut Claim,
        ask: &Ask,
        place: &Place,
        late: bool,
    ) -> Result<Option<Served<Session<D>>>, Refused>
        requires { is_shared ask.now ≡ true }
        ensures ok { IfOk result (λ served. WasServedAt O.opening claim.old ask.now place.now late served claim.new) }
        ensures err { OnErr result (claim.new ≡ claim.old) }
        ensures refused { IfErr result (λ why. WasRefused J.events O.opening claim.old why) }
    {
        self.shared.lock(self.rt).serve(claim, ask, place, late)
    }

    // Tries an ask once under the lock, by which no session goes to its job. The copy of it that the system keeps is made before.
    fn tell_once(&self, claim: &mut Claim, ask: &Ask, late: bool) -> Result<Option<Reply>, Refused>
        requires { needs_no_place ask.now ≡ true }
        ensures ok { IfOk result (λ told. WasToldAt O.opening claim.old ask.now late told claim.new) }
        ensures err { OnErr result (claim.new ≡ claim.old) }
        ensures refused { IfErr result (λ why. WasRefused J.events O.opening claim.old why) }
    {
        let Ok(copy) = copy_of(ask) else {
            return Err(Refused::Memory);
        };
        let told = self.shared.lock(self.rt).tell(claim, copy, late)?;
        Ok(reply_in(told))
    }

    // Has an ask served by which no session goes to its job, however often it is busy.
    fn tell(&self, claim: &mut Claim, ask: &Ask) -> Result<Reply, Stop>
        requires { needs_no_place ask.now ≡ true }
        ensures ok { IfOk result (λ reply. (late : Bool) × WasServed O.opening claim.old ask.now late (serveds.Reply reply) claim.new) }
        ensures err { OnErr result (claim.new ≡ claim.old) }
        ensures stop { IfErr result (λ stop. StopsUntold O.opening claim.old stop) }
    {
        let job = claim.job();
        let mut tries = 0u64;
        for _ in self.rt.forever() {
            let late = is_late(self.clock, job, ask, tries);
            match self.tell_once(claim, ask, late) {
                Ok(Some(reply)) => return Ok(reply),
                Ok(None) => {}
                Err(why) => return Err(stop_by(why)),
            }
            self.clock.pause(tries);
            tries = tries.saturating_add(1);
        }
        unreachable!()
    }

    // Has an ask served by which a session may go to its job, however often it is busy.
    fn serve(&self, claim: &mut Claim, ask: &Ask, place: &Place) -> Result<Served<Session<D>>, Stop>
        requires { is_shared ask.now ≡ true }
        ensures ok { IfOk result (λ served. (late : Bool) × WasServedAt O.opening claim.old ask.now place.now late (Some served) claim.new) }
        ensures told { IfOk result (λ served. is_told served ≡ true) }
        ensures err { OnErr result (claim.new ≡ claim.old) }
        ensures stop { IfErr result (λ stop. StopsUnserved O.opening claim.old ask.now place.now stop) }
    {
        let job = claim.job();
        let mut tries = 0u64;
        for _ in self.rt.forever() {
            let late = is_late(self.clock, job, ask, tries);
            match self.try_once(claim, ask, place, late) {
                Ok(Some(served)) => {
                    if is_told(&served) {
                        return Ok(served);
                    }
                }
                Ok(None) => return Err(Stop::Refused),
                Err(why) => return Err(stop_by(why)),
            }
            self.clock.pause(tries);
            tries = tries.saturating_add(1);
        }
        unreachable!()
    }

    // Has what a job asks served by which no session goes to it, and tells it.
    fn hear<A: Answerer<Fresh<D>>>(
        &self,
        claim: &mut Claim,
        job: &mut Job,
        answerer: &A,
    ) -> Result<(), Stop>
        requires asks { (a : asks.Ask) × (job.old.run.pending ≡ Some a) × (needs_no_place a ≡ true) }
        ensures { (a : asks.Ask) → job.old.run.pending ≡ Some a
            → IsAnswered A.answering O.opening a claim.old job.old answerer.now result claim.new job.new answerer.now }
    {
        let Some(ask) = job.ask() else {
            unreachable!();
        };
        let reply = self.tell(claim, ask)?;
        take_reply::<D, A>(job, answerer, reply);
        Ok(())
    }

    // Has what a job asks served by which a session may go to it, and tells it.
    fn share<A: Answerer<Fresh<D>>>(
        &self,
        claim: &mut Claim,
        job: &mut Job,
        answerer: &mut A,
    ) -> Result<(), Stop>
        requires asks { (a : asks.Ask) × (job.old.run.pending ≡ Some a) × (is_shared a ≡ true) }
        ensures { (a : asks.Ask) → job.old.run.pending ≡ Some a
            → IsAnswered A.answering O.opening a claim.old job.old answerer.old result claim.new job.new answerer.new }
    {
        let Some(ask) = job.ask() else {
            unreachable!();
        };
        let Ok(place) = make_place::<D, A>(answerer, ask) else {
            return Err(Stop::Memory);
        };
        let served = self.serve(claim, ask, &place)?;
        take_up::<D, A>(job, answerer, place, served);
        Ok(())
    }

    // Lets who answers for a job, or the clock, answer what it asks, however long nothing is there to read, and tells it.
    fn answer_own<A: Answerer<Fresh<D>>>(
        &self,
        number: u32,
        job: &mut Job,
        answerer: &mut A,
    ) -> Result<(), Stop>
        requires asks { (a : asks.Ask) × (job.old.run.pending ≡ Some a) × (is_shared a ≡ false) }
        ensures { (a : asks.Ask) (claim : Claimed) → job.old.run.pending ≡ Some a
            → IsAnswered A.answering O.opening a claim job.old answerer.old result claim job.new answerer.new }
    {
        rest(self.clock, number, job);
        let mut tries = 0u64;
        for _ in self.rt.forever() {
            let late = is_job_late(self.clock, number, job, tries);
            let Ok(made) = talk::<D, A>(job, answerer, late, None) else {
                return Err(Stop::Memory);
            };
            match made {
                Made::Event => return Ok(()),
                Made::NotYet => {}
                _ => return Err(Stop::Refused),
            }
            self.clock.pause(tries);
            tries = tries.saturating_add(1);
        }
        unreachable!()
    }

    // Has what a job asks answered: by the system, or by who answers for the job, or by the clock.
    fn answer_ask<A: Answerer<Fresh<D>>>(
        &self,
        claim: &mut Claim,
        job: &mut Job,
        answerer: &mut A,
    ) -> Result<(), Stop>
        requires { IsSome job.old.run.pending }
        ensures { (a : asks.Ask) → job.old.run.pending ≡ Some a
            → IsAnswered A.answering O.opening a claim.old job.old answerer.old result claim.new job.new answerer.new }
    {
        let Some(ask) = job.ask() else {
            unreachable!();
        };
        if needs_no_place(ask) {
            self.hear(claim, job, answerer)
        } else if ask.is_shared() {
            self.share(claim, job, answerer)
        } else {
            self.answer_own(claim.job(), job, answerer)
        }
    }

    // Has what a job asks answered, and says whether that was its halt.
    fn answer<A: Answerer<Fresh<D>>>(
        &self,
        claim: &mut Claim,
        job: &mut Job,
        answerer: &mut A,
    ) -> Result<bool, Stop>
        requires { IsSome job.old.run.pending }
        ensures answered { (a : asks.Ask) → job.old.run.pending ≡ Some a
            → IsAnswered A.answering O.opening a claim.old job.old answerer.old result claim.new job.new answerer.new }
        ensures halts { (a : asks.Ask) → job.old.run.pending ≡ Some a → IfOk result (λ halts. halts ≡ is_halt a) }
    {
        let Some(ask) = job.ask() else {
            unreachable!();
        };
        let number = claim.job();
        let halts = is_halt(ask);
        self.gate.before(number, ask);
        self.answer_ask(claim, job, answerer)?;
        tell_gate(self.gate, number, job);
        Ok(halts)
    }

    // Lets a job go on, that was told of its halt or not: it runs; or it is told what it asks, and it says whether that was its halt; or it stops. Behind its
    // halt it is told nothing more.
    fn go_once<A: Answerer<Fresh<D>>>(
        &self,
        halted: bool,
        claim: &mut Claim,
        job: &mut Job,
        answerer: &mut A,
    ) -> Result<bool, Stop>
        requires { IsAt A.answering self.now.image.now claim.old halted job.old answerer.old }
        ensures on { IfOk result (λ told. IsAt A.answering self.now.image.now claim.new told job.new answerer.new) }
        ensures ran { IfErr result (λ stop. IsRan self.now.image.now claim.new job.new.run.log stop) }
        ensures places { OnErr result (ArePlacesIn self.now.image.now claim.new job.new.run.log job.new.run.places) }
        ensures why { IfErr result (λ stop. stop ≡ Stop.Refused → StopsRefused A.answering O.opening self.now.image.now claim.new job.new answerer.new) }
    {
        match job.advance(self.image, FUEL) {
            Err(_) => Err(Stop::Memory),
            Ok(Turn::Ended) => Err(Stop::Ended),
            Ok(Turn::Ran) => {
                self.gate.between(claim.job());
                Ok(halted)
            }
            Ok(Turn::Asks) => {
                if halted {
                    return Err(Stop::Refused);
                }
                self.answer(claim, job, answerer)
            }
        }
    }

    // Runs a job that was started until it stops, and says how.
    fn go_on<A: Answerer<Fresh<D>>>(
        &self,
        claim: &mut Claim,
        job: &mut Job,
        answerer: &mut A,
    ) -> Stop
        requires { IsAt A.answering self.now.image.now claim.old false job.old answerer.old }
        ensures ran { IsRan self.now.image.now claim.new job.new.run.log result }
        ensures places { ArePlacesIn self.now.image.now claim.new job.new.run.log job.new.run.places }
        ensures why { result ≡ Stop.Refused → StopsRefused A.answering O.opening self.now.image.now claim.new job.new answerer.new }
    {
        let mut halted = false;
        for _ in self.rt.forever() {
            match self.go_once(halted, claim, job, answerer) {
                Ok(told) => halted = told,
                Err(stop) => return stop,
            }
        }
        unreachable!()
    }

    // Runs the job of a claim until it stops.
    pub fn run_job<A: Answerer<Fresh<D>>>(&self, claim: Claim, session: Fresh<D>) -> Ran<'a>
        requires none { claim.events ≡ 0 }
        requires long { self.now.image.now.bounds.limit ≡ V2 }
        ensures { result.image ≡ self.now.image.now }
    {
        let mut claim = claim;
        let Ok((mut job, mut answerer)) = start_job::<D, A>(self.alloc, self.image, &claim, session)
        else {
            let none = Places::new(self.alloc);
            return Ran::new(claim, self.image, Vec::new(self.alloc), none, Stop::Memory);
        };
        let stop = self.go_on(&mut claim, &mut job, &mut answerer);
        let (log, places) = job.into_log();
        Ran::new(claim, self.image, log, places, stop)
    }
}

// Whether what a job asks is late, which was tried so often: without a timeout never.
fn is_late<C: Clock>(clock: &C, job: u32, ask: &Ask, tries: u64) -> bool {
    match ask.timeout() {
        Some(timeout) => clock.late(job, timeout, tries),
        None => false,
    }
}

// Whether what this job asks is.
fn is_job_late<C: Clock>(clock: &C, number: u32, job: &Job, tries: u64) -> bool {
    match job.ask() {
        Some(ask) => is_late(clock, number, ask, tries),
        None => false,
    }
}

// A job rests, where it asks that.
fn rest<C: Clock>(clock: &C, number: u32, job: &Job) {
    if let Some(Ask::Rest(seconds)) = job.ask() {
        clock.rest(number, *seconds);
    }
}

// Whether what was served tells a job something.
fn is_told<D: Device>(served: &Served<Session<D>>) -> bool
    ensures { result ≡ is_told served.now }
{
    match served {
        Served::Busy { .. } => false,
        _ => true,
    }
}

// How a job stops whose ask was refused.
fn stop_by(why: Refused) -> Stop
    ensures { result ≡ stop_by why }
{
    match why {
        Refused::Full => Stop::Full,
        Refused::Memory => Stop::Memory,
        Refused::Turn { .. } => Stop::Refused,
    }
}

// What a job is told, if it is told something.
fn reply_in(told: Told) -> Option<Reply>
    ensures { result ≡ reply_in told }
{
    match told {
        Told::Reply(reply) => Some(reply),
        Told::Busy { .. } => None,
    }
}

// Copies an ask that goes to what all jobs share.
fn copy_of(ask: &Ask) -> Result<SharedAsk, AllocError>
    requires { needs_no_place ask.now ≡ true }
    ensures { IfOk result (λ copy. ask_kinds.Shared copy ≡ ask.now) }
{
    match ask {
        Ask::Shared(of) => Ok(of.try_clone()?),
        Ask::Device(_, _) | Ask::Rest(_) => unreachable!(),
    }
}

// Whether an ask goes to what all jobs share, and no session goes to its job by it.
fn needs_no_place(ask: &Ask) -> bool
    ensures { result ≡ needs_no_place ask.now }
{
    match ask {
        Ask::Shared(SharedAsk::Open(_, _)) => false,
        Ask::Shared(_) => true,
        Ask::Device(_, _) | Ask::Rest(_) => false,
    }
}

// Tells the gate what a job was told last.
fn tell_gate<G: Gate>(gate: &G, number: u32, job: &Job) {
    if let Some((_, reply)) = job.log().last() {
        gate.after(number, reply);
    }
}

// Whether what is asked is the job's end.
fn is_halt(ask: &Ask) -> bool
    ensures { result ≡ is_halt ask.now }
{
    matches!(ask, Ask::Shared(SharedAsk::Halt(_)))
}

// Starts the job of a claim, with its principal session.
fn start_job<D: Device, A: Answerer<Fresh<D>>>(
    alloc: Global,
    image: &Image,
    claim: &Claim,
    session: Fresh<D>,
) -> Result<(Job, A), AllocError>
    requires none { claim.now.events ≡ 0 }
    requires long { image.now.bounds.limit ≡ V2 }
    ensures { IfOk result (λ started. IsAt A.answering image.now claim.now false started.0 started.1) }
{
    let principal = Text::from_number(alloc, 0);
    let mut answerer = A::new(alloc);
    // it has no session yet, so memory alone can be wanting
    if answerer.make_room(&principal).is_err() {
        return Err(AllocError);
    }
    let (entry, values) = claim.start().try_clone()?.into_parts();
    answerer.open(principal, session);
    let job = Job::start(alloc, image, claim.job(), entry, values);
    Ok((job, answerer))
}
