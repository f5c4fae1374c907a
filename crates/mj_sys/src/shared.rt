// What all jobs share.

ghost use Rattle.std.specs.Prelude.{◌≡◌, ◌+◌, ◌≤◌, ◌↔◌, ℤ, length, map, replicate, false, true, None, Some, if◌then◌else◌, IfOk, IfErr, OnErr, IfSome, IfNone};
ghost use Rattle.std.specs.Prelude.{IsTrue, option_copied};
ghost use Rattle.std.specs.Str.{bytes_eq};
ghost use Rattle.mj_ask.specs.Late.{is_timed_out};
ghost use Rattle.mj_ask.specs.declared.ask.SharedAsk.TheVariants as shared_asks;
ghost use Rattle.mj_dev.specs.Heard.{IsNew};
ghost use Rattle.mj_dev.specs.Shelves.{principal, left_of};
ghost use Rattle.mj_jobs.specs.Rows.{start_at, HasStart, IsLive, rows_limit};
ghost use Rattle.mj_locktab.specs.Locks.{LocksApart};
ghost use Rattle.mj_ask.specs.declared.ask.Reply.TheVariants as replies;
ghost use Rattle.mj_sys.specs.Shared.{transaction_begun as begun_in, undone, halted, device_closed, moves_session, moves_none};
ghost use Rattle.mj_txlog.specs.declared.entry.Unlock.TheVariants as unlocks;
ghost use Rattle.mj_sys.specs.declared.shared.Answered.TheVariants as answereds;
ghost use Rattle.mj_sys.specs.declared.shared.Outcome.TheVariants as outcomes;
ghost use Rattle.mj_sys.specs.Opening.{opening_of};
ghost use Rattle.mj_sys.specs.Kept.{ComesOfAsk, outcome_as, without};

use crate::opening::Unmade;
use crate::served::Held;
use crate::transacted::Transacted;
use crate::transactions::none_open;
use mj_ask::{Kind, Names, Reply, SharedAsk, Start, is_timed_out};
use mj_dev::{Device, Pool, Session};
use mj_globs::Globals;
use mj_jobs::{Claimed, Jobs, ROWS_LIMIT};
use mj_locktab::{LockTable, Taken};
use mj_num::Num;
use mj_store::Access;
use mj_text::Text;
use std::alloc::{AllocError, Global};
use std::marker::Model;

// What comes of an ask by which no session goes to a job. A reply is there twice, for the job and for the history.
#[derive(Drop)]
pub enum Answered {
    Told(Reply, Reply),
    Busy(u32, Held),
}

// What comes of an ask. A reply is there twice, for the job and for the history.
#[derive(Drop)]
pub enum Outcome<S> {
    Told(Reply, Reply),
    Opened(S),
    Busy(u32, Held),
}

// The globals, which job holds which names and which devices, the rows of the jobs, with the sessions that no job has yet, and the transactions
// that are open.
#[derive(Drop)]
pub struct Shared<D: Device> {
    alloc: Global,
    // the globals, and the transactions that are open on them
    transacted: Transacted,
    locks: LockTable,
    pool: Pool<D>,
    // the job that holds the name, for each name of the pool in their order
    holders: Vec<Option<u32>>,
    // how many principal sessions there are, those among them that jobs have
    principals: u32,
    jobs: Jobs,
}

impl<D: Device> Model for Shared<D> {
    ghost use Rattle.mj_sys.specs.Kept.{Service, devices_of, AreTogether};

    ghost Value = { Service };

    ghost view = { λ s. record {
      state = record {
        globals = s.transacted.globals;
        locks = s.locks.holds;
        devices = devices_of s.principals s.pool s.holders.items;
        rows = s.jobs.rows;
        transactions = s.transacted.transactions;
      };
      claimed = s.jobs.claimed;
    } };

    ghost invariant = { λ s. AreTogether s.principals s.pool s.holders.items s.jobs };
}

impl<D: Device> Shared<D> {
    // What is shared at the beginning, with a row for each of the starts.
    pub fn new(
        alloc: Global,
        globals: Globals,
        pool: Pool<D>,
        starts: Vec<Start>,
    ) -> Result<Shared<D>, Unmade<D>>
        requires few { length starts.items ≤ rows_limit }
        requires fits { length starts.items ≤ left_of principal pool }
        ensures ok { IfOk result (λ s. s ≡ record { state = opening_of globals.content pool starts.items; claimed = 0 }) }
        ensures globals { IfErr result (λ back. back.globals ≡ globals) }
        ensures pool { IfErr result (λ back. back.pool ≡ pool) }
        ensures starts { IfErr result (λ back. back.starts.items ≡ starts.items) }
    {
        let Ok(holders) = nobody(alloc, pool.len()) else {
            return Err(Unmade {
                globals,
                pool,
                starts,
            });
        };
        let Ok(logs) = none_open(alloc, starts.len()) else {
            return Err(Unmade {
                globals,
                pool,
                starts,
            });
        };
        let jobs = match Jobs::of(alloc, starts) {
            Ok(jobs) => jobs,
            Err(starts) => {
                return Err(Unmade {
                    globals,
                    pool,
                    starts,
                });
            }
        };
        let principals = pool.left(&principal(alloc));
        Ok(Shared {
            alloc,
            transacted: Transacted::new(alloc, globals, logs),
            locks: LockTable::new(alloc),
            pool,
            holders,
            principals,
            jobs,
        })
    }

    // The globals.
    pub fn globals(&self) -> &Globals
        ensures { result.now.content ≡ self.now.state.globals }
    {
        self.transacted.globals()
    }

    // Who holds which names.
    pub fn locks(&self) -> &LockTable
        ensures value { result.now.holds ≡ self.now.state.locks }
        ensures apart { LocksApart self.now.state.locks }
    {
        self.locks.keeps();
        &self.locks
    }

    // How many rows there are.
    pub fn rows(&self) -> usize
        ensures value { result ≡ length self.now.state.rows }
        ensures bound { result ≤ rows_limit }
    {
        self.jobs.len()
    }

    // How many rows were claimed.
    pub fn claimed(&self) -> usize
        ensures value { result ≡ self.now.claimed }
        ensures bound { result ≤ length self.now.state.rows }
    {
        self.jobs.claimed()
    }

    // How the job starts, if it has a row.
    pub fn start_of(&self, job: u32) -> Option<&Start>
        ensures { option_copied result ≡ start_at self.now.state.rows job }
    {
        self.jobs.start(job)
    }

    // Whether the job has a row and hasn't ended.
    pub fn is_live(&self, job: u32) -> bool
        ensures { IsTrue result ↔ IsLive self.now.state.rows job }
    {
        self.jobs.is_live(job)
    }

    // Whether a session goes to a job by this ask: it is to open a device that nobody holds, and of which a session is left.
    pub fn takes_session(&self, ask: &SharedAsk) -> bool
        ensures { result ≡ moves_session self.now.state ask.now }
    {
        let SharedAsk::Open(name, _) = ask else {
            return false;
        };
        if is_principal(self.alloc, name) {
            return false;
        }
        let Some(place) = self.pool.place(name) else {
            return false;
        };
        match self.holders[place] {
            None => self.pool.left(name) > 0,
            Some(_) => false,
        }
    }

    // The lowest row that isn't claimed, which is claimed now, with its job's principal session; none where all are.
    pub fn claim(&mut self) -> Result<Option<(Claimed, Session<D>)>, AllocError>
        ensures state { self.new.state ≡ self.old.state }
        ensures some { IfOk result (λ r. IfSome r (λ c. (c.0.job ≡ self.old.claimed + 1) × (self.new.claimed ≡ self.old.claimed + 1))) }
        ensures start { IfOk result (λ r. IfSome r (λ c. HasStart self.old.state.rows c.0.job c.0.start)) }
        ensures session { IfOk result (λ r. IfSome r (λ c. IsNew c.1)) }
        ensures none { IfOk result (λ r. IfNone r ((self.new ≡ self.old) × (self.old.claimed ≡ length self.old.state.rows))) }
        ensures err { OnErr result (self.new ≡ self.old) }
    {
        let Some(claimed) = self.jobs.claim()? else {
            return Ok(None);
        };
        match self.pool.take(&principal(self.alloc)) {
            Some(session) => Ok(Some((claimed, session))),
            // there is a principal session for each row
            None => unreachable!(),
        }
    }

    // Serves an ask of a job. Names of different jobs don't overlap then either.
    pub fn serve(
        &mut self,
        job: u32,
        ask: &SharedAsk,
        late: bool,
    ) -> Result<Outcome<Session<D>>, AllocError>
        ensures ok { IfOk result (λ outcome. ComesOfAsk self.old job ask.now late outcome self.new) }
        ensures apart { LocksApart self.new.state.locks }
        ensures err { OnErr result (self.new ≡ self.old) }
    {
        match ask {
            SharedAsk::Open(name, timeout) => {
                let outcome = self.open(job, name, *timeout, late);
                self.locks.keeps();
                outcome
            }
            _ => Ok(widened(self.tell(job, ask, late)?)),
        }
    }

    // Serves an ask of a job by which no session goes to it. Names of different jobs don't overlap then either.
    pub fn tell(&mut self, job: u32, ask: &SharedAsk, late: bool) -> Result<Answered, AllocError>
        requires { moves_none ask.now ≡ true }
        ensures ok { IfOk result (λ answered. ComesOfAsk self.old job ask.now late (outcome_as answered) self.new) }
        ensures apart { LocksApart self.new.state.locks }
        ensures err { OnErr result (self.new ≡ self.old) }
    {
        let answered = self.answer(job, ask, late);
        self.locks.keeps();
        answered
    }

    // Answers it by its kind.
    fn answer(&mut self, job: u32, ask: &SharedAsk, late: bool) -> Result<Answered, AllocError>
        requires { moves_none ask.now ≡ true }
        ensures ok { IfOk result (λ answered. ComesOfAsk self.old job ask.now late (outcome_as answered) self.new) }
        ensures err { OnErr result (self.new ≡ self.old) }
    {
        match ask {
            SharedAsk::Access(access) => {
                let (reply, again) = self.access(job, access)?;
                Ok(Answered::Told(reply, again))
            }
            SharedAsk::Try(names, timeout) => self.try_take(job, names, *timeout, late),
            SharedAsk::Unlock(names) => self.unlock(job, names),
            SharedAsk::UnlockAll => self.unlock_all(job),
            SharedAsk::Open(_, _) => unreachable!(),
            SharedAsk::Close(name) => {
                self.close(job, name);
                Ok(Answered::Told(Reply::Done, Reply::Done))
            }
            SharedAsk::Start(start, timeout) => self.start(job, start.get(), *timeout, late),
            SharedAsk::Halt(_) => {
                self.roll_back(job);
                self.halt(job);
                Ok(Answered::Told(Reply::Done, Reply::Done))
            }
            SharedAsk::Begin(kind) => {
                self.begin(job, *kind);
                Ok(Answered::Told(Reply::Done, Reply::Done))
            }
            SharedAsk::Commit => self.commit(job),
            SharedAsk::Rollback => {
                self.roll_back(job);
                Ok(Answered::Told(Reply::Done, Reply::Done))
            }
        }
    }

    // An access, in the job's transaction if it has one open: what it is told, once for the job and once for the history.
    pub fn access(&mut self, job: u32, of: &Access) -> Result<(Reply, Reply), AllocError>
        ensures ok { IfOk result (λ told. ComesOfAsk self.old job (shared_asks.Access of.now) false (outcomes.Told told.0 told.1) self.new) }
        ensures apart { LocksApart self.new.state.locks }
        ensures err { OnErr result (self.new ≡ self.old) }
    {
        self.locks.keeps();
        self.transacted.access(job, of)
    }

    // LOCK of names.
    fn try_take(
        &mut self,
        job: u32,
        names: &Names,
        timeout: Option<Num>,
        late: bool,
    ) -> Result<Answered, AllocError>
        ensures ok { IfOk result (λ answered. ComesOfAsk self.old job (shared_asks.Try names.now timeout) late (outcome_as answered) self.new) }
        ensures err { OnErr result (self.new ≡ self.old) }
    {
        let taken = self
            .transacted
            .try_take(&mut self.locks, job, names.as_slice());
        Ok(match taken? {
            Taken::Got => Answered::Told(Reply::Got, Reply::Got),
            Taken::Limit => Answered::Told(Reply::Limit, Reply::Limit),
            Taken::Busy { holder, name } => busy(timeout, late, holder, Held::Name(name)),
        })
    }

    // An unlock of names.
    fn unlock(&mut self, job: u32, names: &Names) -> Result<Answered, AllocError>
        ensures ok { IfOk result (λ answered. ComesOfAsk self.old job (shared_asks.Unlock names.now) false (outcome_as answered) self.new) }
        ensures err { OnErr result (self.new ≡ self.old) }
    {
        let (reply, again) = self
            .transacted
            .unlock(&mut self.locks, job, names.as_slice())?;
        Ok(Answered::Told(reply, again))
    }

    // An unlock of all names.
    fn unlock_all(&mut self, job: u32) -> Result<Answered, AllocError>
        ensures ok { IfOk result (λ answered. ComesOfAsk self.old job shared_asks.UnlockAll false (outcome_as answered) self.new) }
        ensures err { OnErr result (self.new ≡ self.old) }
    {
        let (reply, again) = self.transacted.unlock_all(&mut self.locks, job)?;
        Ok(Answered::Told(reply, again))
    }

    // TSTART: a transaction begins, unless one is open.
    fn begin(&mut self, job: u32, kind: Kind)
        ensures { self.new ≡ record { state = begun_in self.old.state job kind; claimed = self.old.claimed } }
    {
        self.transacted.begin(job, kind);
    }

    // TCOMMIT: a transaction isn't open any more, and its changes are made where it doesn't clash.
    fn commit(&mut self, job: u32) -> Result<Answered, AllocError>
        ensures ok { IfOk result (λ answered. ComesOfAsk self.old job shared_asks.Commit false (outcome_as answered) self.new) }
        ensures err { OnErr result (self.new ≡ self.old) }
    {
        let (reply, again) = self.transacted.commit(&mut self.locks, job)?;
        Ok(Answered::Told(reply, again))
    }

    // TROLLBACK: a transaction isn't open any more, and what it gained goes back.
    fn roll_back(&mut self, job: u32)
        ensures { self.new ≡ record { state = undone self.old.state job; claimed = self.old.claimed } }
    {
        self.transacted.roll_back(&mut self.locks, job);
    }

    // OPEN of a name.
    fn open(
        &mut self,
        job: u32,
        name: &Text,
        timeout: Option<Num>,
        late: bool,
    ) -> Result<Outcome<Session<D>>, AllocError>
        ensures ok { IfOk result (λ outcome. ComesOfAsk self.old job (shared_asks.Open name.now timeout) late outcome self.new) }
        ensures err { OnErr result (self.new ≡ self.old) }
    {
        if is_principal(self.alloc, name) {
            return Ok(Outcome::Told(Reply::Got, Reply::Got));
        }
        let Some(place) = self.pool.place(name) else {
            return Ok(Outcome::Told(Reply::NoSession, Reply::NoSession));
        };
        match self.holders[place] {
            None => match self.pool.take(name) {
                None => Ok(Outcome::Told(Reply::NoSession, Reply::NoSession)),
                Some(session) => {
                    self.holders[place] = Some(job);
                    Ok(Outcome::Opened(session))
                }
            },
            Some(holder) if holder == job => Ok(Outcome::Told(Reply::Got, Reply::Got)),
            Some(holder) => Ok(widened(busy(
                timeout,
                late,
                holder,
                Held::Device(name.try_clone()?),
            ))),
        }
    }

    // CLOSE of a name.
    fn close(&mut self, job: u32, name: &Text)
        ensures { self.new ≡ record { state = device_closed self.old.state job name.now; claimed = self.old.claimed } }
    {
        if let Some(place) = self.pool.place(name) {
            release(&mut self.holders[place], job);
        }
    }

    // JOB: one more row, where there is room for it and a principal session is left.
    #[tactic(auto, using(crate::proofs::Places::taken_back))]
    fn start(
        &mut self,
        job: u32,
        start: &Start,
        timeout: Option<Num>,
        late: bool,
    ) -> Result<Answered, AllocError>
        ensures ok { IfOk result (λ answered. ComesOfAsk self.old job (shared_asks.Start start.now timeout) late (outcome_as answered) self.new) }
        ensures err { OnErr result (self.new ≡ self.old) }
    {
        let rows = self.jobs.len();
        if rows >= ROWS_LIMIT || rows >= self.principals as usize {
            return Ok(Answered::Told(Reply::Limit, Reply::Limit));
        }
        let start = start.try_clone()?;
        self.transacted.add_row()?;
        match self.jobs.add(start) {
            Ok(number) => Ok(Answered::Told(Reply::Job(number), Reply::Job(number))),
            Err((error, _)) => {
                self.transacted.drop_row();
                Err(error)
            }
        }
    }

    // A job is over.
    fn halt(&mut self, job: u32)
        ensures { self.new ≡ record { state = halted self.old.state job; claimed = self.old.claimed } }
    {
        self.locks.give_all(job);
        release_all(&mut self.holders, job);
        self.jobs.end(job);
    }
}

// An ask that another job is in the way of. Where its timeout is over it is told so.
fn busy(timeout: Option<Num>, late: bool, holder: u32, held: Held) -> Answered
    ensures { result ≡ (if is_timed_out timeout late then answereds.Told replies.Late replies.Late else answereds.Busy holder held) }
{
    if is_timed_out(timeout, late) {
        Answered::Told(Reply::Late, Reply::Late)
    } else {
        Answered::Busy(holder, held)
    }
}

// It as what comes of any ask.
fn widened<S>(answered: Answered) -> Outcome<S>
    ensures { result ≡ outcome_as answered }
{
    match answered {
        Answered::Told(reply, again) => Outcome::Told(reply, again),
        Answered::Busy(holder, held) => Outcome::Busy(holder, held),
    }
}

// So many names that nobody holds.
fn nobody(alloc: Global, names: usize) -> Result<Vec<Option<u32>>, AllocError>
    ensures { IfOk result (λ holders. holders.items ≡ replicate names None) }
{
    let mut holders = Vec::new(alloc);
    holders.resize(names, None)?;
    Ok(holders)
}

// The name of each job's principal device.
fn principal(alloc: Global) -> Text
    ensures { result ≡ principal }
{
    Text::from_number(alloc, 0)
}

// Whether it is that name.
fn is_principal(alloc: Global, name: &Text) -> bool
    ensures { result ≡ bytes_eq name.now principal }
{
    *name == principal(alloc)
}

// Ends the job's hold, if it is the holder.
fn release(holder: &mut Option<u32>, job: u32)
    ensures { holder.new ≡ without job holder.old }
{
    if *holder == Some(job) {
        *holder = None;
    }
}

// Ends all holds of the job.
fn release_all(holders: &mut [Option<u32>], job: u32)
    ensures { holders.new ≡ map (without job) holders.old }
{
    for holder in holders {
        release(holder, job);
    }
}
