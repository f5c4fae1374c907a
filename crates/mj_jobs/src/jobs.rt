// Rows of jobs.

ghost use Rattle.std.specs.Prelude.{◌≡◌, ◌+◌, ◌<◌, ◌≤◌, ◌↔◌, ◌++◌, ◌∷◌, [], length, map, Some, IfOk, IfErr, OnOk, OnErr, IfSome, IfNone, IsTrue, option_copied};
ghost use Rattle.mj_jobs.specs.Rows.{Rows, rows_limit, opened, start_at, with_ended, HasStart, IsLive};
ghost use Rattle.mj_jobs.specs.Kept.{row_of};

use mj_ask::Start;
use std::alloc::{AllocError, Global};
use std::marker::Model;

/// How many rows there may be, ended ones among them.
pub const ROWS_LIMIT: usize = 255;

// A row: how its job starts, and whether it has ended.
#[derive(Drop)]
struct Kept {
    start: Start,
    ended: bool,
}

/// The rows of all jobs.
#[derive(Drop)]
pub struct Jobs {
    rows: Vec<Kept>,
    claimed: usize,
}

/// A row that was claimed: its job's number, and how the job starts.
#[derive(Drop)]
pub struct Claimed {
    pub job: u32,
    pub start: Start,
}

impl Model for Jobs {
    ghost use Rattle.mj_jobs.specs.Rows.{Rows, AreKept};
    ghost use Rattle.mj_jobs.specs.Kept.{rows_of};

    ghost Value = { Rows };

    ghost view = { λ j. record { rows = rows_of j.rows.items; claimed = j.claimed } };

    ghost invariant = { λ j. AreKept (record { rows = rows_of j.rows.items; claimed = j.claimed }) };
}

impl Jobs {
    /// No rows.
    pub fn new(alloc: Global) -> Jobs
        ensures { result ≡ record { rows = []; claimed = 0 } }
    {
        Jobs {
            rows: Vec::new(alloc),
            claimed: 0,
        }
    }

    /// A row for each of the starts, in order. They come back where memory is refused.
    pub fn of(alloc: Global, starts: Vec<Start>) -> Result<Jobs, Vec<Start>>
        requires { length starts.items ≤ rows_limit }
        ensures ok { IfOk result (λ jobs. jobs ≡ record { rows = map opened starts.items; claimed = 0 }) }
        ensures err { IfErr result (λ back. back.items ≡ starts.items) }
    {
        let Ok(mut rows) = Vec::with_capacity(alloc, starts.len()) else {
            return Err(starts);
        };
        for start in starts {
            rows.push_reserved(open(start));
        }
        Ok(Jobs { rows, claimed: 0 })
    }

    /// How many rows there are.
    pub fn len(&self) -> usize
        ensures value { result ≡ length self.now.rows }
        ensures bound { result ≤ rows_limit }
    {
        self.rows.len()
    }

    /// How many rows were claimed.
    pub fn claimed(&self) -> usize
        ensures value { result ≡ self.now.claimed }
        ensures bound { result ≤ length self.now.rows }
    {
        self.claimed
    }

    /// How the job starts, if it has a row.
    pub fn start(&self, job: u32) -> Option<&Start>
        ensures { option_copied result ≡ start_at self.now.rows job }
    {
        match job.checked_sub(1) {
            None => None,
            Some(at) => match self.rows.get(at as usize) {
                None => None,
                Some(row) => Some(&row.start),
            },
        }
    }

    /// Whether the job has a row and hasn't ended.
    pub fn is_live(&self, job: u32) -> bool
        ensures { IsTrue result ↔ IsLive self.now.rows job }
    {
        match job.checked_sub(1) {
            None => false,
            Some(at) => match self.rows.get(at as usize) {
                None => false,
                Some(row) => !row.ended,
            },
        }
    }

    /// One more row, for a job that starts so. The start comes back where memory is refused.
    pub fn add(&mut self, start: Start) -> Result<u32, (AllocError, Start)>
        requires { length self.old.rows < rows_limit }
        ensures ok { IfOk result
            (λ job. (job ≡ length self.old.rows + 1) × (self.new ≡ record { rows = self.old.rows ++ opened start ∷ []; claimed = self.old.claimed })) }
        ensures err { IfErr result (λ back. (back.1 ≡ start) × (self.new ≡ self.old)) }
    {
        if let Err(error) = self.rows.reserve(1) {
            return Err((error, start));
        }
        self.rows.push_reserved(open(start));
        Ok(self.rows.len() as u32)
    }

    /// The lowest row that isn't claimed, which is claimed now; none where all are. It copies how the job starts; where memory is refused
    /// for that, no row is claimed.
    pub fn claim(&mut self) -> Result<Option<Claimed>, AllocError>
        ensures rows { self.new.rows ≡ self.old.rows }
        ensures some { IfOk result
            (λ r. IfSome r (λ c. (c.job ≡ self.old.claimed + 1) × (self.new.claimed ≡ self.old.claimed + 1) × HasStart self.old.rows c.job c.start)) }
        ensures none { IfOk result (λ r. IfNone r ((self.new ≡ self.old) × (self.old.claimed ≡ length self.old.rows))) }
        ensures err { OnErr result (self.new ≡ self.old) }
    {
        let Some(row) = self.rows.get(self.claimed) else {
            return Ok(None);
        };
        let start = row.start.try_clone()?;
        self.claimed += 1;
        Ok(Some(Claimed {
            job: self.claimed as u32,
            start,
        }))
    }

    /// The job has ended, if it has a row.
    pub fn end(&mut self, job: u32)
        ensures { self.new ≡ record { rows = with_ended self.old.rows job; claimed = self.old.claimed } }
    {
        let Some(at) = job.checked_sub(1) else {
            return;
        };
        if let Some(row) = self.rows.get_mut(at as usize) {
            row.ended = true;
        }
    }
}

// The row of a job that begins.
fn open(start: Start) -> Kept
    ensures { row_of result ≡ opened start }
{
    Kept {
        start,
        ended: false,
    }
}
