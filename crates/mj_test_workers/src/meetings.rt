// Two workers run two jobs, each of which goes on only once the other has come to its hold. So one thread can't pass, whichever job it runs first, nor can
// several where the lock isn't free at the hold.

ghost use Rattle.std.specs.Prelude.{◌≡◌, ◌≤◌, [], length, true};
ghost use Rattle.mj_dev.specs.Heard.{IsFresh};
ghost use Rattle.mj_text.specs.declared.limit.Limit.TheVariants.{V2};
ghost use Rattle.mj_dev.specs.Shelves.{principal, left_of};
ghost use Rattle.mj_jobs.specs.Rows.{rows_limit};
ghost use Rattle.mj_sys.specs.Opening.{opening_of, are_bare};

use crate::gates::{Hold, Meeting, Tries};
use crate::holders::{Holder, Refuser};
use mj_ask::{Ask, SharedAsk, Start};
use mj_dev::{Device, Memory, Pool, Watched};
use mj_globs::Globals;
use mj_load::Image;
use mj_sys::{Opening, System};
use mj_test_core::begins::{image, starts};
use mj_text::{Failure, Text};
use mj_work::{Ended, Run, Stop, gather, run_workers};
use std::alloc::{AllocError, Global};
use std::marker::Brand;
use std::rt::Clock;
use std::sync::Wait;
use std::test::Fail;
use std::thread::Threads;

// Each sets a global, counts for longer than it goes on between two looks at the gate, gives up all locks, and writes.
const BYTES: &str = " SET ^A($JOB)=1 FOR I=1:1:20000 SET X=I\n LOCK  WRITE \"x\"\n";

#[test]
fn two_jobs_meet_before_an_ask(rt: HostRuntime) -> Result<(), Fail> {
    meet(&rt, Hold::Before)
}

#[test]
fn two_jobs_meet_between_private_turns(rt: HostRuntime) -> Result<(), Fail> {
    meet(&rt, Hold::Between)
}

#[test]
fn two_jobs_meet_in_a_write(rt: HostRuntime) -> Result<(), Fail> {
    meet(&rt, Hold::Write)
}

// What came of two jobs: how many events there are, how many jobs ended, and how many of them by a fault.
type Found = Option<(usize, usize, usize)>;

// Over devices that take what is written, and over such as fail at each write. Of both jobs there are six events: the beginning, the change, the locks given
// up, the write, the end of the session, and the halt.
fn meet<R: AllocGlobal + Clock + Threads + Wait + Sync>(rt: &R, hold: Hold) -> Result<(), Fail> {
    let alloc = rt.alloc();
    let one = Memory::new(alloc, Vec::new(alloc));
    let two = Memory::new(alloc, Vec::new(alloc));
    judge(rt, hold, one, two, Some((12, 2, 0)))?;
    judge(
        rt,
        hold,
        Refuser { failures: 0 },
        Refuser { failures: 0 },
        Some((12, 2, 2)),
    )
}

// Fails where two jobs over these devices don't meet so, or come to something else.
fn judge<D: Device + Send, R: AllocGlobal + Clock + Threads + Wait + Sync>(
    rt: &R,
    hold: Hold,
    one: D,
    two: D,
    wanted: Found,
) -> Result<(), Fail>
    requires one { IsFresh (D.failures one) (D.taken one) (D.given one) }
    requires two { IsFresh (D.failures two) (D.taken two) (D.given two) }
{
    let meeting = Meeting::new(rt, hold);
    let found = run_two(rt, &meeting, one, two);
    let met = meeting.have_met();
    drop(meeting);
    let found = found?;
    if met && found == wanted {
        return Ok(());
    }
    Err(Fail::new(format_args!("{hold:?}: met {met}, {found:?}")))
}

fn run_two<D: Device + Send, R: AllocGlobal + Clock + Threads + Wait + Sync>(
    rt: &R,
    meeting: &Meeting<'_, R>,
    one: D,
    two: D,
) -> Result<Found, Failure>
    requires one { IsFresh (D.failures one) (D.taken one) (D.given one) }
    requires two { IsFresh (D.failures two) (D.taken two) (D.given two) }
{
    let image = match image(rt.alloc(), BYTES) {
        Ok(image) => image,
        Err(failure) => {
            drop(one);
            drop(two);
            return Err(failure);
        }
    };
    let found = match starts(rt.alloc(), 2) {
        Ok(starts) => over_two(rt, meeting, &image, one, two, starts),
        Err(failure) => {
            drop(one);
            drop(two);
            Err(failure)
        }
    };
    drop(image);
    found
}

fn over_two<D: Device + Send, R: AllocGlobal + Clock + Threads + Wait + Sync>(
    rt: &R,
    meeting: &Meeting<'_, R>,
    image: &Image,
    one: D,
    two: D,
    starts: Vec<Start>,
) -> Result<Found, Failure>
    requires one { IsFresh (D.failures one) (D.taken one) (D.given one) }
    requires two { IsFresh (D.failures two) (D.taken two) (D.given two) }
    requires bare { are_bare starts.items ≡ true }
    requires long { image.now.bounds.limit ≡ V2 }
{
    match pool(rt.alloc(), meeting, one, two) {
        Ok(pool) => begun(rt, meeting, image, pool, starts),
        Err(failure) => {
            drop(starts);
            Err(failure)
        }
    }
}

// A pool with these two principal devices. The first goes to the job whose row is claimed first.
fn pool<'a, D: Device, R: Clock>(
    alloc: Global,
    meeting: &'a Meeting<'a, R>,
    one: D,
    two: D,
) -> Result<Pool<Watched<D, Holder<'a, R>>>, Failure>
    requires one { IsFresh (D.failures one) (D.taken one) (D.given one) }
    requires two { IsFresh (D.failures two) (D.taken two) (D.given two) }
{
    let first = Watched {
        device: one,
        watch: Holder { meeting, job: 1 },
    };
    let second = Watched {
        device: two,
        watch: Holder { meeting, job: 2 },
    };
    filled(alloc, first, second)
}

// A pool with two principal devices.
fn filled<D: Device>(alloc: Global, first: D, second: D) -> Result<Pool<D>, Failure>
    requires first { IsFresh (D.failures first) (D.taken first) (D.given first) }
    requires second { IsFresh (D.failures second) (D.taken second) (D.given second) }
{
    let mut pool = Pool::new(alloc);
    let name = Text::from_number(alloc, 0);
    if add(&mut pool, &name, first).is_err() {
        drop(second);
        drop(pool);
        return Err(Failure::Memory);
    }
    let added = add(&mut pool, &name, second);
    drop(name);
    match added {
        Ok(()) => Ok(pool),
        Err(_) => {
            drop(pool);
            Err(Failure::Memory)
        }
    }
}

fn add<D: Device>(pool: &mut Pool<D>, name: &Text, device: D) -> Result<(), AllocError>
    requires { IsFresh (D.failures device) (D.taken device) (D.given device) }
{
    match pool.add(name, device) {
        Ok(()) => Ok(()),
        Err(device) => {
            drop(device);
            Err(AllocError)
        }
    }
}

fn begun<D: Device + Send, R: AllocGlobal + Clock + Threads + Wait + Sync>(
    rt: &R,
    meeting: &Meeting<'_, R>,
    image: &Image,
    pool: Pool<D>,
    starts: Vec<Start>,
) -> Result<Found, Failure>
    requires long { image.now.bounds.limit ≡ V2 }
    requires bare { are_bare starts.items ≡ true }
{
    if starts.len() != 2 || !pool.fits(2) {
        drop(pool);
        drop(starts);
        return Err(Failure::Memory);
    }
    run::<D, Brand, R>(rt, meeting, image, pool, starts)
}

fn run<D: Device + Send, O: Opening + Send, R: AllocGlobal + Clock + Threads + Wait + Sync>(
    rt: &R,
    meeting: &Meeting<'_, R>,
    image: &Image,
    pool: Pool<D>,
    starts: Vec<Start>,
) -> Result<Found, Failure>
    requires long { image.now.bounds.limit ≡ V2 }
    requires opening { opening_of [] pool starts.items ≡ O.opening }
    requires some { 1 ≤ length starts.items }
    requires few { length starts.items ≤ rows_limit }
    requires fits { length starts.items ≤ left_of principal pool }
    requires bare { are_bare starts.items ≡ true }
{
    let alloc = rt.alloc();
    match System::<D, O>::new(alloc, Globals::new(alloc), pool, starts) {
        Ok(system) => work(rt, meeting, image, system),
        Err(back) => {
            drop(back);
            Err(Failure::Memory)
        }
    }
}

fn work<D: Device + Send, O: Opening + Send, R: AllocGlobal + Clock + Threads + Wait + Sync>(
    rt: &R,
    meeting: &Meeting<'_, R>,
    image: &Image,
    system: System<D, O>,
) -> Result<Found, Failure>
    requires long { image.now.bounds.limit ≡ V2 }
    requires empty { length system.history ≡ 0 }
{
    let clock = Tries { rt };
    let ran = run_workers(rt, rt.alloc(), 2, system, image, meeting, &clock);
    drop(clock);
    match ran {
        Ok(ended) => {
            let found = found_of(rt.alloc(), &ended);
            drop(ended);
            Ok(found)
        }
        Err(back) => {
            drop(back);
            Err(Failure::Memory)
        }
    }
}

fn found_of<D: Device, O: Opening>(alloc: Global, ended: &Ended<'_, D, O>) -> Found {
    let mut over = 0usize;
    for ran in &ended.rans {
        if ran.stop() == Stop::Ended {
            over = over.saturating_add(1);
        }
    }
    match gather(alloc, &ended.system, &ended.rans) {
        Ok(run) => {
            let found = Some((run.len(), over, faults(&run)));
            drop(run);
            found
        }
        Err(_) => None,
    }
}

// How many jobs ended by a fault.
fn faults(run: &Run<'_>) -> usize {
    let mut faults = 0usize;
    for at in 0..run.len() {
        if let Some((_, ask, _)) = run.event(at) {
            if is_fault(ask) {
                faults = faults.saturating_add(1);
            }
        }
    }
    faults
}

// Whether a job ends by a fault.
fn is_fault(ask: &Ask) -> bool {
    matches!(ask, Ask::Shared(SharedAsk::Halt(Some(_))))
}
