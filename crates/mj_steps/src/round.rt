// Steps in turn, where no file says them.

ghost use Rattle.std.specs.Prelude.{◌≡◌, ◌≤◌, ◌<◌, length, position, IfSome};
ghost use Rattle.mj_steps.specs.Rounds.{is_live, is_timed, live_behind, first_timed, go_step, late_step, next_round, next_step, waits_still, after_step};

use crate::step::{JOBS_LIMIT, Step, Way};

/// Where a job stands behind its last step.
#[derive(Clone, Copy, PartialEq, Eq, Debug)]
pub enum Standing {
    /// it had none yet, or that step did something
    Goes,
    /// it waited, for what it asks without a timeout
    Waits,
    /// it waited, for what it asks with a timeout
    WaitsTimed,
    /// it is over
    Ended,
}

/// What comes next.
#[derive(Clone, Copy, PartialEq, Eq, Debug)]
pub enum Next {
    /// this step
    Step(Step),
    /// nothing: all jobs have ended
    Over,
    /// nothing: all jobs wait, and none for what it asks with a timeout
    Stuck,
}

/// A round, in which each job that hasn't ended has a step: the number of the last that had its own, 0 where it just began, and
/// whether all steps of it waited.
#[derive(Clone, Copy, PartialEq, Eq, Debug)]
pub struct Round {
    pub done: u32,
    pub waits: bool,
}

impl Standing {
    // Whether the job hasn't ended.
    fn is_live(self) -> bool
        ensures { result ≡ is_live self }
    {
        !matches!(self, Standing::Ended)
    }

    // Whether it waits for what it asks with a timeout.
    fn is_timed(self) -> bool
        ensures { result ≡ is_timed self }
    {
        matches!(self, Standing::WaitsTimed)
    }

    // Whether its last step waited.
    fn waits(self) -> bool
        ensures { result ≡ waits_still self }
    {
        matches!(self, Standing::Waits | Standing::WaitsTimed)
    }
}

impl Round {
    /// What comes next, of jobs that stand so. The first one is job 1.
    pub fn next(self, jobs: &[Standing]) -> Next
        requires { length jobs.now ≤ JOBS_LIMIT }
        ensures { result ≡ next_step self jobs.now }
    {
        match live_behind(self.done, jobs) {
            Some(job) => go(job),
            None => next_round(self.waits, jobs),
        }
    }

    /// The round behind a step, by where its job then stands. A step that is late begins a new one.
    pub fn after(self, step: Step, standing: Standing) -> Round
        ensures { result ≡ after_step self step standing }
    {
        match step.way {
            Way::Go => Round {
                done: step.job,
                waits: (step.job <= self.done || self.waits) && standing.waits(),
            },
            Way::Late => Round {
                done: 0,
                waits: true,
            },
        }
    }
}

// What comes at the end of a round, of which all steps waited or not.
fn next_round(waits: bool, jobs: &[Standing]) -> Next
    requires { length jobs.now ≤ JOBS_LIMIT }
    ensures { result ≡ next_round waits jobs.now }
{
    match live_behind(0, jobs) {
        None => Next::Over,
        Some(_) if waits => late_step(jobs),
        Some(job) => go(job),
    }
}

// What comes where all jobs wait.
fn late_step(jobs: &[Standing]) -> Next
    requires { length jobs.now ≤ JOBS_LIMIT }
    ensures { result ≡ late_step jobs.now }
{
    match first_timed(jobs) {
        None => Next::Stuck,
        Some(job) => Next::Step(Step {
            job,
            way: Way::Late,
        }),
    }
}

// The first job behind this one that hasn't ended.
fn live_behind(done: u32, jobs: &[Standing]) -> Option<u32>
    requires { length jobs.now ≤ JOBS_LIMIT }
    ensures { result ≡ live_behind done jobs.now }
{
    let done = done as usize;
    if done >= jobs.len() {
        return None;
    }
    match live_place(&jobs[done..]) {
        Some(place) => Some((done + place + 1) as u32),
        None => None,
    }
}

// The first job that waits for what it asks with a timeout.
fn first_timed(jobs: &[Standing]) -> Option<u32>
    requires { length jobs.now ≤ JOBS_LIMIT }
    ensures { result ≡ first_timed jobs.now }
{
    match timed_place(jobs) {
        Some(place) => Some((place + 1) as u32),
        None => None,
    }
}

// The place of the first that hasn't ended.
fn live_place(jobs: &[Standing]) -> Option<usize>
    ensures place { result ≡ position is_live jobs.now }
    ensures bound { IfSome result (λ place. place < length jobs.now) }
{
    jobs.iter().position(|standing| standing.is_live())
}

// The place of the first that waits for what it asks with a timeout.
fn timed_place(jobs: &[Standing]) -> Option<usize>
    ensures place { result ≡ position is_timed jobs.now }
    ensures bound { IfSome result (λ place. place < length jobs.now) }
{
    jobs.iter().position(|standing| standing.is_timed())
}

// A step of this job, which goes on.
fn go(job: u32) -> Next
    ensures { result ≡ go_step job }
{
    Next::Step(Step { job, way: Way::Go })
}
