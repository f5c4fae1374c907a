// Workers over one system.

ghost use Rattle.std.specs.Prelude.{◌≡◌, ◌+◌, ◌<◌, ◌≤◌, [], length, vec_capacity, IfOk, IfErr};
ghost use Rattle.std.specs.List.{All};
ghost use Rattle.std.specs.Thread.{IsSync};
ghost use Rattle.mj_text.specs.declared.limit.Limit.TheVariants.{V2};
ghost use Rattle.mj_jobs.specs.Rows.{rows_limit};
ghost use Rattle.mj_work.specs.Working.{AreClaimed, workers_limit};

use crate::gate::{Clock, Gate};
use crate::job::Worker;
use crate::locked::{Locked, Next, Work};
use crossbeam_utils::CachePadded;
use mj_core::most_events;
use mj_dev::Device;
use mj_gather::Ran;
use mj_jobs::ROWS_LIMIT;
use mj_load::Image;
use mj_sessions::Sessions;
use mj_sys::{Opening, System};
use std::alloc::Global;
use std::marker::Brand;
use std::sync::ledger::{Blank, Share};
use std::sync::{Mutex, Wait};
use std::thread::{Threads, join};

/// The most workers that there may be.
pub const WORKERS_LIMIT: u32 = 64;

/// What workers leave: the system, the jobs that they ran, and whether a claim was refused for want of memory.
#[derive(Drop)]
pub struct Ended<'a, D: Device, O: Opening> {
    pub system: System<D, O>,
    pub rans: Vec<Ran<'a>>,
    pub short: bool,
}

impl<'m, 'a, J: Work, D: Device, O: Opening, G: Gate, C: Clock, R: Wait> Worker<
    'm,
    'a,
    J,
    D,
    O,
    G,
    C,
    R,
> {
    // What a worker without a job does once: it claims a row and runs its job, or waits. Whether it goes on.
    fn work_once(&self, tries: u64, mine: &mut Share<J>) -> bool
        requires parts { 0 < mine.old.parts }
        requires none { mine.old.amount ≡ 0 }
        requires image { self.now.image.now ≡ J.image }
        requires long { self.now.image.now.bounds.limit ≡ V2 }
        ensures parts { mine.new.parts ≡ mine.old.parts }
        ensures none { mine.new.amount ≡ 0 }
    {
        let next = self.shared.lock(self.rt).next(mine);
        match next {
            Next::Claim((claim, session)) => {
                let ran = self.run_job::<Sessions<D>>(claim, session);
                self.shared.lock(self.rt).hand_in(ran, mine);
                true
            }
            Next::Wait => {
                self.clock.pause(tries);
                true
            }
            Next::Leave => false,
        }
    }

    // Runs jobs until no row is left, and no other worker has a job.
    fn work(&self, mine: &mut Share<J>)
        requires parts { 0 < mine.old.parts }
        requires none { mine.old.amount ≡ 0 }
        requires image { self.now.image.now ≡ J.image }
        requires long { self.now.image.now.bounds.limit ≡ V2 }
        ensures parts { mine.new.parts ≡ mine.old.parts }
        ensures none { mine.new.amount ≡ 0 }
    {
        let mut tries = 0u64;
        for _ in self.rt.forever() {
            if !self.work_once(tries, mine) {
                return;
            }
            tries = tries.saturating_add(1);
        }
    }
}

// Runs so many workers, this thread one of them, with a part of the ledger for each. Gives the parts back.
fn start<
    'a,
    J: Work + Send + Sync,
    D: Device + Send,
    O: Opening + Send,
    G: Gate + Sync,
    C: Clock + Sync,
    R: Threads + Wait + Sync,
>(
    rt: &R,
    alloc: Global,
    shared: &Mutex<CachePadded<Locked<'a, J, D, O>>>,
    image: &'a Image,
    gate: &G,
    clock: &C,
    n: u32,
    mine: Share<J>,
) -> Share<J>
    requires some { 0 < n }
    requires parts { mine.parts ≡ n }
    requires none { mine.amount ≡ 0 }
    requires image { image.now ≡ J.image }
    requires long { image.now.bounds.limit ≡ V2 }
    ensures parts { result.parts ≡ n }
    ensures none { result.amount ≡ 0 }
{
    let mut mine = mine;
    if n == 1 {
        let worker = Worker {
            rt,
            alloc,
            shared,
            image,
            gate,
            clock,
        };
        worker.work(&mut mine);
        return mine;
    }
    let half = n / 2;
    let rest = n - half;
    let theirs = mine.split_off(half as u64, 0);
    let (one, two) = join(
        rt,
        move || -> Share<J>
            requires { IsSync R.row × (0 < half) × (theirs.parts ≡ half) × (theirs.amount ≡ 0) × (image.now ≡ J.image) × (image.now.bounds.limit ≡ V2) }
            ensures { (result.parts ≡ half) × (result.amount ≡ 0) }
        { start(rt, alloc, shared, image, gate, clock, half, theirs) },
        move || -> Share<J>
            requires { IsSync R.row × (0 < rest) × (mine.parts ≡ rest) × (mine.amount ≡ 0) × (image.now ≡ J.image) × (image.now.bounds.limit ≡ V2) }
            ensures { (result.parts ≡ rest) × (result.amount ≡ 0) }
        { start(rt, alloc, shared, image, gate, clock, rest, mine) },
    );
    let mut all = one;
    all.merge(two);
    all
}

// Goes on, on this thread, while a row isn't claimed that has to be.
fn finish<'a, J: Work, D: Device, O: Opening, G: Gate, C: Clock, R: Wait>(
    rt: &R,
    alloc: Global,
    locked: Locked<'a, J, D, O>,
    image: &'a Image,
    gate: &G,
    clock: &C,
    mine: Share<J>,
) -> Ended<'a, D, O>
    requires whole { mine.parts ≡ J.parts }
    requires some { 0 < mine.parts }
    requires none { mine.amount ≡ 0 }
    requires image { image.now ≡ J.image }
    requires long { image.now.bounds.limit ≡ V2 }
    ensures rans { length result.rans.items + J.before ≡ result.system.claimed }
    ensures within { length result.system.history ≤ J.events }
    ensures images { All (λ r. r.image ≡ image.now) result.rans.items }
    ensures claimed { AreClaimed O.opening result.system result.rans.items result.short }
{
    let (mut locked, mut mine) = (locked, mine);
    for _ in rt.forever() {
        if locked.is_settled() {
            return close(locked, mine);
        }
        let shared = Mutex::new(CachePadded::new(locked));
        let worker = Worker {
            rt,
            alloc,
            shared: &shared,
            image,
            gate,
            clock,
        };
        worker.work(&mut mine);
        locked = shared.into_inner().into_inner();
    }
    unreachable!()
}

// What lay under the lock, where nobody has a job any more.
fn close<'a, J: Work, D: Device, O: Opening>(
    locked: Locked<'a, J, D, O>,
    mine: Share<J>,
) -> Ended<'a, D, O>
    requires whole { mine.parts ≡ J.parts }
    requires none { mine.amount ≡ 0 }
    requires settled { AreClaimed O.opening locked.system locked.rans.items locked.short }
    ensures rans { length result.rans.items + J.before ≡ result.system.claimed }
    ensures within { length result.system.history ≤ J.events }
    ensures images { All (λ r. r.image ≡ J.image) result.rans.items }
    ensures claimed { AreClaimed O.opening result.system result.rans.items result.short }
{
    let Locked {
        system,
        rans,
        short,
        book,
        ..
    } = locked;
    let (mut book, mut mine) = (book, mine);
    book.audit(&mut mine);
    Ended {
        system,
        rans,
        short,
    }
}

// Does what `run_workers` does, in the terms of a ledger.
fn together<
    'a,
    J: Work + Send + Sync,
    D: Device + Send,
    O: Opening + Send,
    G: Gate + Sync,
    C: Clock + Sync,
    R: Threads + Wait + Sync,
>(
    rt: &R,
    alloc: Global,
    blank: Blank,
    n: u32,
    system: System<D, O>,
    rans: Vec<Ran<'a>>,
    image: &'a Image,
    gate: &G,
    clock: &C,
) -> Ended<'a, D, O>
    requires some { 0 < n }
    requires name { blank.name ≡ J.name }
    requires parts { blank.parts ≡ J.parts }
    requires one_each { blank.parts ≡ n }
    requires room { rows_limit ≤ vec_capacity rans }
    requires empty { rans.items ≡ [] }
    requires image { image.now ≡ J.image }
    requires long { image.now.bounds.limit ≡ V2 }
    requires before { system.claimed ≡ J.before }
    requires events { image.now.bounds.events ≡ J.events }
    requires within { length system.history ≤ J.events }
    ensures rans { length result.rans.items + system.claimed ≡ result.system.claimed }
    ensures within { length result.system.history ≤ J.events }
    ensures images { All (λ r. r.image ≡ image.now) result.rans.items }
    ensures claimed { AreClaimed O.opening result.system result.rans.items result.short }
{
    let (book, all) = blank.open::<J>();
    let before = system.claimed();
    let events = most_events(image);
    // there are no more rows than may be
    let _rows = system.rows(); // for the proof
    let locked = CachePadded::new(Locked {
        system,
        rans,
        before,
        events,
        short: false,
        stopped: false,
        out_of_memory: false,
        book,
    });
    // who waits for the lock takes no line of cache from who has it
    let shared = CachePadded::new(Mutex::new(locked));
    let all = start(rt, alloc, &*shared, image, gate, clock, n, all);
    let locked = shared.into_inner().into_inner().into_inner();
    finish(rt, alloc, locked, image, gate, clock, all)
}

/// Runs the jobs of a system by so many workers, this thread one of them, until all have stopped. Room for what they leave is taken first: where it is refused,
/// the system comes back. A thread that can't be started is done without. With fewer workers than jobs a run may stand still.
///
/// Each row that is claimed comes back as one `Ran`, which ran in this image, whose limit is the greater one. A row isn't claimed only where a job stopped for
/// want of memory or since the history was full, as the image's bounds say, or where a claim was refused for want of memory, which `short` says.
pub fn run_workers<
    'a,
    D: Device + Send,
    O: Opening + Send,
    G: Gate + Sync,
    C: Clock + Sync,
    R: Threads + Wait + Sync,
>(
    rt: &R,
    alloc: Global,
    n: u32,
    system: System<D, O>,
    image: &'a Image,
    gate: &G,
    clock: &C,
) -> Result<Ended<'a, D, O>, System<D, O>>
    requires workers { (1 ≤ n) × (n ≤ workers_limit) }
    requires long { image.now.bounds.limit ≡ V2 }
    requires within { length system.history ≤ image.now.bounds.events }
    ensures rans { IfOk result (λ e. length e.rans.items + system.claimed ≡ e.system.claimed) }
    ensures within { IfOk result (λ e. length e.system.history ≤ image.now.bounds.events) }
    ensures images { IfOk result (λ e. All (λ r. r.image ≡ image.now) e.rans.items) }
    ensures claimed { IfOk result (λ e. AreClaimed O.opening e.system e.rans.items e.short) }
    ensures err { IfErr result (λ back. back ≡ system) }
{
    let Ok(rans) = Vec::with_capacity(alloc, ROWS_LIMIT) else {
        return Err(system);
    };
    let blank = Blank::new(n as u64);
    Ok(together::<Brand, D, O, G, C, R>(rt, alloc, blank, n, system, rans, image, gate, clock))
}
