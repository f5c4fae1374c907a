// What workers call while jobs run.

use mj_ask::{Ask, Reply};
use mj_num::Num;

/// What is called with the lock free while jobs run.
pub trait Gate {
    /// before an ask is served
    fn before(&self, job: u32, ask: &Ask);

    /// behind its reply
    fn after(&self, job: u32, reply: &Reply);

    /// between private turns
    fn between(&self, job: u32);
}

/// What tells how time goes.
pub trait Clock {
    /// Whether the timeout, in seconds, of what a job asks is over, which it tried so often. It is called before each try, the first among them: so a
    /// clock learns when the job began to ask.
    fn late(&self, job: u32, timeout: Num, tries: u64) -> bool;

    /// A job rests for so many seconds.
    fn rest(&self, job: u32, seconds: Num);

    /// Waits a little before what couldn't be had yet is tried again, which was tried so often.
    fn pause(&self, tries: u64);
}
