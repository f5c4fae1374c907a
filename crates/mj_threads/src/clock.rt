// What workers call in the program: a gate that holds nothing, and a clock that counts seconds.

use mj_ask::{Ask, Reply};
use mj_jobs::ROWS_LIMIT;
use mj_num::Num;
use mj_work::{Clock, Gate};
use std::alloc::{AllocError, Global};
use std::sync::atomic::{AtomicU64, Ordering};
use std::time::Duration;
use std::{rt, thread};

/// A gate that does nothing.
#[derive(Clone, Copy)]
pub struct Idle;

impl Gate for Idle {
    fn before(&self, _job: u32, _ask: &Ask) {}

    fn after(&self, _job: u32, _reply: &Reply) {}

    fn between(&self, _job: u32) {}
}

/// A clock that counts seconds of the runtime's. Between the tries of an ask it sleeps a millisecond.
#[derive(Drop)]
pub struct Seconds<'a, R> {
    rt: &'a R,
    // when each job began to ask, in milliseconds
    begun: Vec<AtomicU64>,
}

impl<'a, R: rt::Clock> Seconds<'a, R> {
    /// A clock for as many jobs as there may be.
    pub fn new(rt: &'a R, alloc: Global) -> Result<Seconds<'a, R>, AllocError> {
        Ok(Seconds {
            rt,
            begun: begun(alloc)?,
        })
    }

    // The time, in milliseconds, where the clock can be read.
    fn now(&self) -> Option<u64> {
        match self.rt.monotonic() {
            Ok(time) => {
                let seconds = time.as_secs().saturating_mul(1000);
                Some(seconds.saturating_add(u64::from(time.subsec_millis())))
            }
            Err(_) => None,
        }
    }
}

fn begun(alloc: Global) -> Result<Vec<AtomicU64>, AllocError> {
    let mut begun = Vec::new(alloc);
    for _ in 0..ROWS_LIMIT {
        begun.push(AtomicU64::new(0))?;
    }
    Ok(begun)
}

// The whole seconds of a number: none, where it is below 0.
fn seconds_of(number: Num) -> u64 {
    let value = number.value();
    if value < 0 { 0 } else { value as u64 }
}

impl<'a, R: rt::Clock> Clock for Seconds<'a, R> {
    // The time counts from before the ask is tried first. Where the clock can't be read, the pauses count.
    fn late(&self, job: u32, timeout: Num, tries: u64) -> bool {
        let most = seconds_of(timeout).saturating_mul(1000);
        let place = (job as usize).saturating_sub(1);
        match (self.now(), self.begun.get(place)) {
            (Some(now), Some(begun)) => {
                if tries == 0 {
                    begun.store(now, Ordering::SeqCst);
                }
                now.saturating_sub(begun.load(Ordering::SeqCst)) >= most
            }
            _ => tries >= most,
        }
    }

    fn rest(&self, _job: u32, seconds: Num) {
        thread::sleep(self.rt, Duration::from_secs(seconds_of(seconds)));
    }

    fn pause(&self, _tries: u64) {
        thread::sleep(self.rt, Duration::from_millis(1));
    }
}
