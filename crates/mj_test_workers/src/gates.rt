// Gates at which jobs hold, and a clock that counts tries.

use mj_ask::{Ask, Reply, SharedAsk};
use mj_num::Num;
use mj_work::{Clock, Gate};
use std::sync::atomic::{AtomicU64, Ordering};
use std::time::Duration;
use std::{rt, thread};

// How often a job that holds looks whether it may go on, a millisecond apart.
const TRIES: u32 = 10_000;

/// Where a job holds.
#[derive(Clone, Copy, PartialEq, Eq, Debug)]
pub enum Hold {
    /// before it gives up all locks
    Before,
    /// between private turns
    Between,
    /// in a write to its device
    Write,
}

/// Two jobs, each of which goes on only once the other has come to its hold.
#[derive(Drop)]
pub struct Meeting<'a, R> {
    rt: &'a R,
    hold: Hold,
    first: AtomicU64,
    second: AtomicU64,
    lonely: AtomicU64,
}

impl<'a, R: rt::Clock> Meeting<'a, R> {
    /// Two jobs that hold so.
    pub fn new(rt: &'a R, hold: Hold) -> Meeting<'a, R> {
        Meeting {
            rt,
            hold,
            first: AtomicU64::new(0),
            second: AtomicU64::new(0),
            lonely: AtomicU64::new(0),
        }
    }

    /// A job, of which the first is 1, has come here. Where this is its hold it waits for the other, but not for longer than ten seconds.
    pub fn come(&self, job: u32, here: Hold) {
        if self.hold == here {
            self.wait(job);
        }
    }

    fn wait(&self, job: u32) {
        let (own, other) = if job == 1 {
            (&self.first, &self.second)
        } else {
            (&self.second, &self.first)
        };
        own.store(1, Ordering::SeqCst);
        for _ in 0..TRIES {
            if other.load(Ordering::SeqCst) == 1 {
                return;
            }
            thread::sleep(self.rt, Duration::from_millis(1));
        }
        self.lonely.store(1, Ordering::SeqCst);
    }

    /// Whether both came to their hold, and neither waited for too long.
    pub fn have_met(&self) -> bool {
        let came = self.first.load(Ordering::SeqCst) == 1
            && self.second.load(Ordering::SeqCst) == 1;
        came && self.lonely.load(Ordering::SeqCst) == 0
    }
}

impl<'a, R: rt::Clock> Gate for Meeting<'a, R> {
    fn before(&self, job: u32, ask: &Ask) {
        if matches!(ask, Ask::Shared(SharedAsk::UnlockAll)) {
            self.come(job, Hold::Before);
        }
    }

    fn after(&self, _job: u32, _reply: &Reply) {}

    fn between(&self, job: u32) {
        self.come(job, Hold::Between);
    }
}

/// Two jobs, of which the second takes no device before the first has ended.
#[derive(Drop)]
pub struct Behind<'a, R> {
    rt: &'a R,
    halting: AtomicU64,
    halted: AtomicU64,
}

impl<'a, R: rt::Clock> Behind<'a, R> {
    pub fn new(rt: &'a R) -> Behind<'a, R> {
        Behind {
            rt,
            halting: AtomicU64::new(0),
            halted: AtomicU64::new(0),
        }
    }

    fn wait(&self) {
        for _ in 0..TRIES {
            if self.halted.load(Ordering::SeqCst) == 1 {
                return;
            }
            thread::sleep(self.rt, Duration::from_millis(1));
        }
    }
}

impl<'a, R: rt::Clock> Gate for Behind<'a, R> {
    fn before(&self, job: u32, ask: &Ask) {
        match ask {
            Ask::Shared(SharedAsk::Halt(_)) if job == 1 => {
                self.halting.store(1, Ordering::SeqCst);
            }
            Ask::Shared(SharedAsk::Open(_, _)) if job == 2 => self.wait(),
            _ => {}
        }
    }

    fn after(&self, job: u32, _reply: &Reply) {
        if job == 1 && self.halting.load(Ordering::SeqCst) == 1 {
            self.halted.store(1, Ordering::SeqCst);
        }
    }

    fn between(&self, _job: u32) {}
}

/// A clock by which a timeout is over when an ask was tried as often as it has seconds, and no rest takes time.
#[derive(Drop)]
pub struct Tries<'a, R> {
    pub rt: &'a R,
}

impl<'a, R: rt::Clock> Clock for Tries<'a, R> {
    fn late(&self, _job: u32, timeout: Num, tries: u64) -> bool {
        match u64::try_from(timeout.value()) {
            Ok(most) => tries >= most,
            Err(_) => true,
        }
    }

    fn rest(&self, _job: u32, _seconds: Num) {}

    fn pause(&self, _tries: u64) {
        thread::sleep(self.rt, Duration::from_millis(1));
    }
}
