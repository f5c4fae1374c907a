// The system: what is shared, beside the history that left it so.

ghost use Rattle.std.specs.Prelude.{◌≡◌, ℕ, true, false, ◌+◌, ◌<◌, ◌≤◌, ◌↔◌, ◌-◌, ◌^◌, ◌∷◌, ◌++◌, [], length};
ghost use Rattle.std.specs.Prelude.{slice_set, slice_index_or, vec_len, vec_capacity, Some};
ghost use Rattle.std.specs.Prelude.{IfOk, IfErr, OnOk, OnErr, IfSome, IfNone, IsTrue, option_copied};
ghost use Rattle.mj_ask.specs.Fits.{is_shared};
ghost use Rattle.mj_ask.specs.declared.ask.Ask.TheVariants as asks;
ghost use Rattle.mj_ask.specs.declared.ask.SharedAsk.TheVariants as shared_asks;
ghost use Rattle.mj_dev.specs.Heard.{IsNew};
ghost use Rattle.mj_dev.specs.Shelves.{principal, left_of};
ghost use Rattle.mj_jobs.specs.Rows.{start_at, HasStart, IsLive, rows_limit};
ghost use Rattle.mj_locktab.specs.Locks.{LocksApart};
ghost use Rattle.mj_sys.specs.Opening.{opening_of, are_bare, NoneIsOpen, NoneHasEnded};
ghost use Rattle.mj_sys.specs.Shared.{are_global, takes_session, moves_none};
ghost use Rattle.mj_sys.specs.History.{state_of, AreServed, events_of, log_of};
ghost use Rattle.mj_sys.specs.System.{history_limit, KeepsRows};
ghost use Rattle.mj_sys.specs.Told.{Serves, IsServiceRefused, IsTurn, served_as};
ghost use Rattle.mj_sys.specs.Kept.{ServesAndRecords, IsWrittenDown, kept_reply, told_of};
ghost use Rattle.mj_sys.specs.declared.served.Refused.TheVariants as refusals;
ghost use Rattle.mj_sys.specs.declared.served.Served.TheVariants as serveds;

use crate::claim::Claim;
use crate::event::Event;
use crate::opening::{Opening, Unmade};
use crate::served::{Refused, Served, Told};
use crate::shared::{Answered, Outcome, Shared};
use mj_ask::{Ask, Reply, SharedAsk, Start};
use mj_dev::{Device, Pool, Session};
use mj_globs::Globals;
use mj_locktab::LockTable;
use mj_store::Access;
use std::alloc::{AllocError, Global};
use std::marker::{Model, PhantomData};

/// How many events any history may have. A run's own limit, which its program's bounds say, is for those to keep to who have it make events.
pub const HISTORY_LIMIT: usize = 4_294_967_295;

/// What all jobs share, with the history that left it so from the opening.
#[derive(Drop)]
pub struct System<D: Device, O: Opening> {
    shared: Shared<D>,
    history: Vec<Event>,
    // how many events each claimed job has, so that nothing is counted anew
    counts: Vec<u64>,
    of: PhantomData<O>,
}

impl<D: Device, O: Opening> Model for System<D, O> {
    ghost use Rattle.mj_sys.specs.System.{Recorded, MatchesHistory, AreCounts};

    ghost Value = { Recorded };

    ghost view = { λ s. record { history = s.history.items; claimed = s.shared.claimed } };

    ghost invariant = { λ s.
        MatchesHistory O.opening s.shared.state (record { history = s.history.items; claimed = s.shared.claimed })
        × AreCounts s.counts.items (record { history = s.history.items; claimed = s.shared.claimed }) };
}

impl<D: Device, O: Opening> System<D, O> {
    /// A system with no events yet, and a row for each of the starts, which give no values: a trace couldn't tell them. Only names of globals may have
    /// texts in its globals, as in those that a listing of globals gives. At want of memory all comes back that it was to be made of.
    pub fn new(
        alloc: Global,
        globals: Globals,
        pool: Pool<D>,
        starts: Vec<Start>,
    ) -> Result<System<D, O>, Unmade<D>>
        requires opening { opening_of globals.content pool starts.items ≡ O.opening }
        requires global { are_global globals.content ≡ true }
        requires some { 1 ≤ length starts.items }
        requires few { length starts.items ≤ rows_limit }
        requires fits { length starts.items ≤ left_of principal pool }
        requires bare { are_bare starts.items ≡ true }
        ensures ok { IfOk result (λ s. s ≡ record { history = []; claimed = 0 }) }
        ensures globals { IfErr result (λ back. back.globals ≡ globals) }
        ensures pool { IfErr result (λ back. back.pool ≡ pool) }
        ensures starts { IfErr result (λ back. back.starts.items ≡ starts.items) }
    {
        Ok(System {
            shared: Shared::new(alloc, globals, pool, starts)?,
            history: Vec::new(alloc),
            counts: Vec::new(alloc),
            of: PhantomData,
        })
    }

    /// The lowest row that isn't claimed, which is claimed now, with its job's principal session; none where all are claimed.
    pub fn claim(&mut self) -> Result<Option<(Claim, Session<D>)>, AllocError>
        ensures history { self.new.history ≡ self.old.history }
        ensures some { IfOk result (λ r. IfSome r (λ c. (c.0.job ≡ self.old.claimed + 1) × (self.new.claimed ≡ self.old.claimed + 1))) }
        ensures start { IfOk result (λ r. IfSome r (λ c. HasStart (state_of O.opening self.old.history).rows c.0.job c.0.start)) }
        ensures fresh { IfOk result (λ r. IfSome r (λ c. (c.0.events ≡ 0) × (log_of c.0.job self.old.history ≡ []))) }
        ensures session { IfOk result (λ r. IfSome r (λ c. IsNew c.1)) }
        ensures none { IfOk result (λ r. IfNone r ((self.new ≡ self.old) × (self.old.claimed ≡ length (state_of O.opening self.old.history).rows))) }
        ensures err { OnErr result (self.new ≡ self.old) }
    {
        self.counts.reserve(1)?;
        let Some((claimed, session)) = self.shared.claim()? else {
            return Ok(None);
        };
        self.counts.push_reserved(0);
        Ok(Some((Claim::new(claimed.job, claimed.start), session)))
    }

    /// Whether a session would go to the job whose ask this is, if it were served now. One that has the device already gets it without one.
    pub fn takes_session(&self, ask: &Ask) -> bool
        ensures { result ≡ takes_session (state_of O.opening self.now.history) ask.now }
    {
        match ask {
            Ask::Shared(ask) => self.shared.takes_session(ask),
            Ask::Device(_, _) | Ask::Rest(_) => false,
        }
    }

    /// Serves an ask of a claim's job to what all jobs share. Where it is busy for another job, and has a timeout that is over, or is said to be
    /// `late`, it is told that it is late. What can be refused is refused in this order: a claim whose row wasn't claimed here, whose job has ended
    /// or has another number of events, a history that is full, and memory; then nothing changes. A claim doesn't know whose it is: one of another
    /// system is refused only where it is told apart by these.
    pub fn serve_shared(
        &mut self,
        claim: &mut Claim,
        ask: &SharedAsk,
        late: bool,
    ) -> Result<Served<Session<D>>, Refused>
        ensures ok { IfOk result (λ told. Serves O.opening self.old claim.old (asks.Shared ask.now) late told self.new claim.new) }
        ensures refused { IfErr result (λ why. IsServiceRefused O.opening self.old claim.old why) }
        ensures kept { OnErr result ((self.new ≡ self.old) × (claim.new ≡ claim.old)) }
    {
        self.may_follow(claim)?;
        serve_next(
            &mut self.shared,
            &mut self.history,
            &mut self.counts,
            claim,
            ask,
            late,
        )
    }

    /// Serves an ask of a claim's job that goes to what all jobs share, as `serve_shared` does.
    pub fn serve(
        &mut self,
        claim: &mut Claim,
        ask: &Ask,
        late: bool,
    ) -> Result<Served<Session<D>>, Refused>
        requires { is_shared ask.now ≡ true }
        ensures ok { IfOk result (λ told. Serves O.opening self.old claim.old ask.now late told self.new claim.new) }
        ensures refused { IfErr result (λ why. IsServiceRefused O.opening self.old claim.old why) }
        ensures kept { OnErr result ((self.new ≡ self.old) × (claim.new ≡ claim.old)) }
    {
        match ask {
            Ask::Shared(ask) => self.serve_shared(claim, ask, late),
            Ask::Device(_, _) | Ask::Rest(_) => unreachable!(),
        }
    }

    /// Serves an access of a claim's job, as `serve_shared` does. The history keeps the access itself: who has the system under a lock makes a copy
    /// of what is asked before.
    pub fn access(&mut self, claim: &mut Claim, access: Access) -> Result<Reply, Refused>
        ensures ok { IfOk result (λ reply.
            Serves O.opening self.old claim.old (asks.Shared (shared_asks.Access access)) false (serveds.Reply reply) self.new claim.new) }
        ensures refused { IfErr result (λ why. IsServiceRefused O.opening self.old claim.old why) }
        ensures kept { OnErr result ((self.new ≡ self.old) × (claim.new ≡ claim.old)) }
    {
        self.may_follow(claim)?;
        access_next(
            &mut self.shared,
            &mut self.history,
            &mut self.counts,
            claim,
            access,
        )
    }

    /// Serves an ask of a claim's job by which no session goes to it, as `serve_shared` does. The history keeps the ask itself, as in `access`.
    pub fn tell(&mut self, claim: &mut Claim, ask: SharedAsk, late: bool) -> Result<Told, Refused>
        requires { moves_none ask ≡ true }
        ensures ok { IfOk result (λ told. Serves O.opening self.old claim.old (asks.Shared ask) late (served_as told) self.new claim.new) }
        ensures refused { IfErr result (λ why. IsServiceRefused O.opening self.old claim.old why) }
        ensures kept { OnErr result ((self.new ≡ self.old) × (claim.new ≡ claim.old)) }
    {
        self.may_follow(claim)?;
        tell_next(
            &mut self.shared,
            &mut self.history,
            &mut self.counts,
            claim,
            ask,
            late,
        )
    }

    // Whether an event of the claim's job may follow: it is its turn, and the history isn't full.
    fn may_follow(&self, claim: &Claim) -> Result<(), Refused>
        ensures ok { OnOk result (IsTurn O.opening self.now claim.now × (length self.now.history < history_limit)) }
        ensures refused { IfErr result (λ why. IsServiceRefused O.opening self.now claim.now why) }
    {
        if !self.is_turn(claim) {
            return Err(Refused::Turn {
                expected: self.events(claim.job()),
            });
        }
        if self.history.len() >= HISTORY_LIMIT {
            return Err(Refused::Full);
        }
        Ok(())
    }

    // Whether it is the claim's turn.
    fn is_turn(&self, claim: &Claim) -> bool
        ensures { IsTrue result ↔ IsTurn O.opening self.now claim.now }
    {
        let job = claim.job();
        job as usize <= self.shared.claimed()
            && self.shared.is_live(job)
            && claim.events() == self.events(job)
    }

    /// The events, in order. Each was served on what those before it had left.
    pub fn history(&self) -> &[Event]
        ensures which { result.now ≡ self.now.history }
        ensures served { AreServed O.opening result.now }
        ensures within { length result.now ≤ history_limit }
    {
        &self.history
    }

    /// The globals: those that the history leaves. Only names of globals have texts there, so that a question on a local name is answered as
    /// on one without a text.
    pub fn globals(&self) -> &Globals
        ensures which { result.now.content ≡ (state_of O.opening self.now.history).globals }
        ensures global { are_global result.now.content ≡ true }
    {
        self.shared.globals()
    }

    /// Who holds which names: as the history leaves it. No name of one job overlaps a name of another.
    pub fn locks(&self) -> &LockTable
        ensures replay { result.now.holds ≡ (state_of O.opening self.now.history).locks }
        ensures apart { LocksApart result.now.holds }
    {
        self.shared.locks()
    }

    /// How many rows there are, ended ones among them. The rows of the opening are there still, each with its start; none had a transaction open
    /// then, and none had ended.
    pub fn rows(&self) -> usize
        ensures value { result ≡ length (state_of O.opening self.now.history).rows }
        ensures bound { result ≤ rows_limit }
        ensures kept { KeepsRows O.opening.rows (state_of O.opening self.now.history).rows }
        ensures none_open { NoneIsOpen O.opening }
        ensures none_ended { NoneHasEnded O.opening.rows }
    {
        self.shared.rows()
    }

    /// How many rows were claimed: the lowest. A row that wasn't has no events.
    pub fn claimed(&self) -> usize
        ensures value { result ≡ self.now.claimed }
        ensures bound { result ≤ length (state_of O.opening self.now.history).rows }
        ensures unclaimed { (job : ℕ) → result < job → log_of job self.now.history ≡ [] }
    {
        self.shared.claimed()
    }

    /// How the job starts, if it has a row.
    pub fn start(&self, job: u32) -> Option<&Start>
        ensures { option_copied result ≡ start_at (state_of O.opening self.now.history).rows job }
    {
        self.shared.start_of(job)
    }

    /// Whether the job has a row and hasn't ended.
    pub fn is_live(&self, job: u32) -> bool
        ensures { IsTrue result ↔ IsLive (state_of O.opening self.now.history).rows job }
    {
        self.shared.is_live(job)
    }

    /// How many events the job has.
    pub fn events(&self, job: u32) -> u64
        ensures { result ≡ events_of job self.now.history }
    {
        match job.checked_sub(1) {
            None => 0,
            Some(at) => match self.counts.get(at as usize) {
                None => 0,
                Some(count) => *count,
            },
        }
    }
}

// Serves the ask, and writes down what comes of it.
fn serve_next<D: Device>(
    shared: &mut Shared<D>,
    history: &mut Vec<Event>,
    counts: &mut Vec<u64>,
    claim: &mut Claim,
    ask: &SharedAsk,
    late: bool,
) -> Result<Served<Session<D>>, Refused>
    requires place { claim.old.job ≤ length counts.old.items }
    requires few { slice_index_or counts.old.items (claim.old.job - 1) 0 < 2 ^ 64 - 1 }
    requires few_claimed { claim.old.events < 2 ^ 64 - 1 }
    ensures ok { IfOk result (λ told.
        ServesAndRecords shared.old history.old.items counts.old.items claim.old ask.now late told shared.new history.new.items counts.new.items claim.new) }
    ensures apart { LocksApart shared.new.state.locks }
    ensures err { IfErr result (λ why. why ≡ refusals.Memory) }
    ensures kept { OnErr result
        ((shared.new ≡ shared.old) × (history.new.items ≡ history.old.items) × (counts.new.items ≡ counts.old.items) × (claim.new ≡ claim.old)) }
{
    let copy = match room_and_copy(history, ask) {
        Ok(copy) => copy,
        Err(_) => {
            shared.locks();
            return Err(Refused::Memory);
        }
    };
    match shared.serve(claim.job(), ask, late) {
        Ok(outcome) => Ok(tell(history, counts, claim, copy, outcome)),
        Err(_) => {
            drop(copy);
            Err(Refused::Memory)
        }
    }
}

// Serves the access, and writes down what comes of it.
fn access_next<D: Device>(
    shared: &mut Shared<D>,
    history: &mut Vec<Event>,
    counts: &mut Vec<u64>,
    claim: &mut Claim,
    access: Access,
) -> Result<Reply, Refused>
    requires place { claim.old.job ≤ length counts.old.items }
    requires few { slice_index_or counts.old.items (claim.old.job - 1) 0 < 2 ^ 64 - 1 }
    requires few_claimed { claim.old.events < 2 ^ 64 - 1 }
    ensures ok { IfOk result (λ reply. ServesAndRecords shared.old history.old.items counts.old.items claim.old (shared_asks.Access access) false
        (serveds.Reply reply) shared.new history.new.items counts.new.items claim.new) }
    ensures apart { LocksApart shared.new.state.locks }
    ensures err { IfErr result (λ why. why ≡ refusals.Memory) }
    ensures kept { OnErr result
        ((shared.new ≡ shared.old) × (history.new.items ≡ history.old.items) × (counts.new.items ≡ counts.old.items) × (claim.new ≡ claim.old)) }
{
    let Ok(()) = history.reserve(1) else {
        shared.locks();
        return Err(Refused::Memory);
    };
    match shared.access(claim.job(), &access) {
        Ok((reply, again)) => {
            let ask = Ask::Shared(SharedAsk::Access(access));
            write_down(history, counts, claim, ask, again);
            Ok(reply)
        }
        Err(_) => {
            drop(access);
            Err(Refused::Memory)
        }
    }
}

// Serves the ask, by which no session goes to its job, and writes down what comes of it.
fn tell_next<D: Device>(
    shared: &mut Shared<D>,
    history: &mut Vec<Event>,
    counts: &mut Vec<u64>,
    claim: &mut Claim,
    ask: SharedAsk,
    late: bool,
) -> Result<Told, Refused>
    requires moves { moves_none ask ≡ true }
    requires place { claim.old.job ≤ length counts.old.items }
    requires few { slice_index_or counts.old.items (claim.old.job - 1) 0 < 2 ^ 64 - 1 }
    requires few_claimed { claim.old.events < 2 ^ 64 - 1 }
    ensures ok { IfOk result (λ told. ServesAndRecords shared.old history.old.items counts.old.items claim.old ask late (served_as told)
        shared.new history.new.items counts.new.items claim.new) }
    ensures apart { LocksApart shared.new.state.locks }
    ensures err { IfErr result (λ why. why ≡ refusals.Memory) }
    ensures kept { OnErr result
        ((shared.new ≡ shared.old) × (history.new.items ≡ history.old.items) × (counts.new.items ≡ counts.old.items) × (claim.new ≡ claim.old)) }
{
    let Ok(()) = history.reserve(1) else {
        shared.locks();
        return Err(Refused::Memory);
    };
    match shared.tell(claim.job(), &ask, late) {
        Ok(Answered::Told(reply, again)) => {
            write_down(history, counts, claim, Ask::Shared(ask), again);
            Ok(Told::Reply(reply))
        }
        Ok(Answered::Busy(holder, held)) => {
            drop(ask);
            Ok(Told::Busy { holder, held })
        }
        Err(_) => {
            drop(ask);
            Err(Refused::Memory)
        }
    }
}

// Makes room for an event of this ask, and copies it.
fn room_and_copy(history: &mut Vec<Event>, ask: &SharedAsk) -> Result<Ask, AllocError>
    ensures same { history.new.items ≡ history.old.items }
    ensures room { OnOk result (vec_len history.new < vec_capacity history.new) }
    ensures copy { IfOk result (λ copy. copy ≡ asks.Shared ask.now) }
{
    history.reserve(1)?;
    Ok(Ask::Shared(ask.try_clone()?))
}

// Tells what came of an ask, and writes it down.
fn tell<S>(
    history: &mut Vec<Event>,
    counts: &mut Vec<u64>,
    claim: &mut Claim,
    ask: Ask,
    outcome: Outcome<S>,
) -> Served<S>
    requires room { vec_len history.old < vec_capacity history.old }
    requires place { claim.old.job ≤ length counts.old.items }
    requires few { slice_index_or counts.old.items (claim.old.job - 1) 0 < 2 ^ 64 - 1 }
    requires few_claimed { claim.old.events < 2 ^ 64 - 1 }
    ensures told { result ≡ told_of outcome }
    ensures written { IsWrittenDown (kept_reply outcome) ask history.old.items counts.old.items claim.old history.new.items counts.new.items claim.new }
{
    match outcome {
        Outcome::Told(reply, again) => {
            write_down(history, counts, claim, ask, again);
            Served::Reply(reply)
        }
        Outcome::Opened(session) => {
            write_down(history, counts, claim, ask, Reply::Got);
            Served::Opened(session)
        }
        Outcome::Busy(holder, held) => {
            drop(ask);
            Served::Busy { holder, held }
        }
    }
}

// Writes an event of the claim's job down, and counts it.
#[inline(always)]
fn write_down(
    history: &mut Vec<Event>,
    counts: &mut Vec<u64>,
    claim: &mut Claim,
    ask: Ask,
    reply: Reply,
)
    requires room { vec_len history.old < vec_capacity history.old }
    requires place { claim.old.job ≤ length counts.old.items }
    requires few { slice_index_or counts.old.items (claim.old.job - 1) 0 < 2 ^ 64 - 1 }
    requires few_claimed { claim.old.events < 2 ^ 64 - 1 }
    ensures history { history.new.items ≡ history.old.items ++ record { job = claim.old.job; ask = ask; reply = reply } ∷ [] }
    ensures counts { counts.new.items ≡ slice_set counts.old.items (claim.old.job - 1) (slice_index_or counts.old.items (claim.old.job - 1) 0 + 1) }
    ensures claim { claim.new ≡ record claim.old { events = claim.old.events + 1 } }
{
    let job = claim.job();
    history.push_reserved(Event { job, ask, reply });
    counts[job as usize - 1] += 1;
    claim.count();
}
