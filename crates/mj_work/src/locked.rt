// What lies under the lock.

ghost use Rattle.std.specs.Prelude.{◌≡◌, ◌+◌, ◌<◌, ◌≤◌, ℕ, nat_le, [], length, true, vec_len, vec_capacity, ◌||◌, IfOk, IfErr, OnErr, IsTrue};
ghost use Rattle.std.specs.List.{All};
ghost use Rattle.mj_ask.specs.Fits.{is_shared};
ghost use Rattle.mj_ask.specs.declared.ask.Ask.TheVariants as asks;
ghost use Rattle.mj_text.specs.declared.limit.Limit.TheVariants.{V2};
ghost use Rattle.mj_jobs.specs.Rows.{rows_limit};
ghost use Rattle.std.proofs.Props.{props};
ghost use Rattle.mj_load.specs.Image as images;
ghost use Rattle.mj_load.specs.contracts.image.Image as loaded;
ghost use Rattle.mj_sys.specs.Shared.{moves_none};
ghost use Rattle.mj_sys.specs.System.{history_limit};
ghost use Rattle.mj_sys.specs.Told.{served_as};
ghost use Rattle.mj_work.specs.Working.{is_cut, was_cut, AreClaimed, WasServedAt, WasServed, IsRefusedIn, WasRefused, Gives};

use mj_ask::{Ask, SharedAsk};
use mj_core::{Fresh, Place, serve_at};
use mj_dev::{Device, Session};
use mj_gather::{Ran, Stop};
use mj_jobs::ROWS_LIMIT;
use mj_sys::{Claim, Opening, Refused, Served, System, Told};
use std::marker::Brand;
use std::sync::ledger::{Book, Ledger, Share};

/// The image that all jobs run in, and how many rows were claimed before. Each call of `run_workers` picks it.
pub trait Work: Ledger {
    ghost image: { images.Loaded };

    ghost before: { ℕ };

    // how many events a run of that image may have
    ghost events: { ℕ };
}

impl Work for Brand {
    ghost image = { record { routines = []; units = []; bounds = record { limit = V2; events = 0 } } };

    ghost before = { 0 };

    ghost events = { 0 };
}

// What a worker gets that has no job, where a claimed row with its job's principal session is a `C`.
#[derive(Drop)]
pub enum Next<C> {
    /// a row that was claimed
    Claim(C),
    /// none is left, and another worker has a job, which may start more
    Wait,
    /// no more comes
    Leave,
}

// The system, with the jobs that were run, and a book of those that are: its total is the number of claims that were made and not handed in.
#[derive(Drop)]
pub struct Locked<'a, J: Work, D: Device, O: Opening> {
    pub system: System<D, O>,
    pub rans: Vec<Ran<'a>>,
    // how many rows were claimed before
    pub before: usize,
    // how many events all jobs together may make of what they share
    pub events: usize,
    // a claim was refused for want of memory
    pub short: bool,
    // a job stopped for want of memory, or since the history was full
    pub stopped: bool,
    // a job stopped for want of memory, and so keeps what it holds
    pub out_of_memory: bool,
    pub book: Book<J>,
    ghost from: { before ≡ J.before },
    ghost bound: { events ≡ J.events },
    ghost most: { events ≤ history_limit },
    ghost within: { length system.history ≤ events },
    ghost counted: { vec_len rans + book.total + J.before ≡ system.claimed },
    ghost room: { rows_limit ≤ vec_capacity rans },
    ghost few: { system.claimed ≤ rows_limit },
    ghost images: { All (λ r. r.image ≡ J.image) rans.items } by { Prim.hlevel (props, loaded.the_row.coded) },
    ghost cut: { stopped ≡ was_cut rans.items },
}

impl<'a, J: Work, D: Device, O: Opening> Locked<'a, J, D, O> {
    // Claims a row, where one is left.
    pub fn next(&mut self, mine: &mut Share<J>) -> Next<(Claim, Fresh<D>)>
        requires parts { 0 < mine.old.parts }
        ensures parts { mine.new.parts ≡ mine.old.parts }
        ensures gives { Gives result mine.old.amount mine.new.amount }
    {
        if self.short || self.stopped {
            return Next::Leave;
        }
        let Locked {
            system,
            rans,
            before,
            short,
            book,
            ..
        } = self;
        match system.claim() {
            Err(_) => {
                *short = true;
                Next::Leave
            }
            Ok(Some((claim, session))) => {
                // that there are no more rows than may be comes with their number
                let _few = system.claimed(); // for the proof
                let _rows = system.rows(); // for the proof
                book.add(mine, 1);
                Next::Claim((claim, Fresh::new(session)))
            }
            Ok(None) => {
                if rans.len() + *before < system.claimed() {
                    Next::Wait
                } else {
                    Next::Leave
                }
            }
        }
    }

    // Whether all jobs together made as many events as they may.
    pub fn is_full(&self) -> bool
        ensures { result ≡ nat_le J.events (length self.now.system.history) }
    {
        let history = self.system.history();
        history.len() >= self.events
    }

    // Serves an ask of a claim's job by which no session goes to it, as long as there is room for its event. Once a job stopped for want of memory nothing is
    // served any more, so that all stop: else who waits for what it holds would wait for ever.
    pub fn tell(&mut self, claim: &mut Claim, ask: SharedAsk, late: bool) -> Result<Told, Refused>
        requires { moves_none ask ≡ true }
        ensures room { IfOk result (λ told. length self.old.system.history < J.events) }
        ensures ok { IfOk result (λ told. WasServed O.opening claim.old (asks.Shared ask) late (served_as told) claim.new) }
        ensures err { OnErr result (claim.new ≡ claim.old) }
        ensures refused { IfErr result (λ why. IsRefusedIn J.events O.opening self.old.system claim.old why) }
        ensures was_refused { IfErr result (λ why. WasRefused J.events O.opening claim.old why) }
    {
        if self.out_of_memory {
            drop(ask);
            return Err(Refused::Memory);
        }
        if self.is_full() {
            drop(ask);
            return Err(Refused::Full);
        }
        self.system.tell(claim, ask, late)
    }

    // Serves an ask of a claim's job by which a session may go to it, for which this place is ready, as `tell` does.
    pub fn serve(
        &mut self,
        claim: &mut Claim,
        ask: &Ask,
        place: &Place,
        late: bool,
    ) -> Result<Option<Served<Session<D>>>, Refused>
        requires { is_shared ask.now ≡ true }
        ensures room { IfOk result (λ served. length self.old.system.history < J.events) }
        ensures ok { IfOk result (λ served. WasServedAt O.opening claim.old ask.now place.now late served claim.new) }
        ensures err { OnErr result (claim.new ≡ claim.old) }
        ensures refused { IfErr result (λ why. IsRefusedIn J.events O.opening self.old.system claim.old why) }
        ensures was_refused { IfErr result (λ why. WasRefused J.events O.opening claim.old why) }
    {
        if self.out_of_memory {
            return Err(Refused::Memory);
        }
        if self.is_full() {
            return Err(Refused::Full);
        }
        serve_at(&mut self.system, claim, ask, place, late)
    }

    // Whether each row was claimed that has to be.
    pub fn is_settled(&self) -> bool
        ensures { IsTrue result → AreClaimed O.opening self.now.system self.now.rans.items self.now.short }
    {
        self.short || self.stopped || self.system.rows() <= self.system.claimed()
    }

    // Takes what a job left that stopped.
    pub fn hand_in(&mut self, ran: Ran<'a>, mine: &mut Share<J>)
        requires one { mine.old.amount ≡ 1 }
        requires image { ran.image ≡ J.image }
        ensures parts { mine.new.parts ≡ mine.old.parts }
        ensures none { mine.new.amount ≡ 0 }
    {
        let Locked {
            rans,
            stopped,
            out_of_memory,
            book,
            ..
        } = self;
        let cut = is_cut(ran.stop());
        let out = is_out(*out_of_memory, ran.stop());
        book.audit(mine);
        if let Err(_) = rans.push(ran) {
            unreachable!();
        }
        book.sub(mine, 1);
        *stopped = either(*stopped, cut);
        *out_of_memory = out;
    }
}

// Whether one of them is so.
fn either(one: bool, two: bool) -> bool
    ensures { result ≡ (one || two) }
{
    one || two
}

// Whether a job stopped for want of memory, this one or one before.
fn is_out(before: bool, stop: Stop) -> bool {
    before || matches!(stop, Stop::Memory)
}

// Whether a job stopped for want of memory, or since the history was full.
fn is_cut(stop: Stop) -> bool
    ensures { result ≡ is_cut stop }
{
    matches!(stop, Stop::Full | Stop::Memory)
}
