// What is measured.

use mj_locktab::{LockTable, Taken};
use mj_subs::{Name, Sub, Subs};
use mj_text::{Failure, Text};
use std::alloc::Global;

/// A work that is measured.
#[derive(Clone, Copy, PartialEq, Eq, Debug)]
pub enum Work {
    Hold,
    Free,
    Busy,
    Siblings,
    List,
    GiveAll,
    Ten,
    BesideTen,
    Many,
    BesideMany,
}

/// All of them, each on what those before it leave.
pub const WORKS: [Work; 10] = [
    Work::Hold,
    Work::Free,
    Work::Siblings,
    Work::Busy,
    Work::List,
    Work::GiveAll,
    Work::Ten,
    Work::BesideTen,
    Work::Many,
    Work::BesideMany,
];

impl Work {
    /// What is printed of it.
    pub fn name(self) -> &'static str {
        match self {
            Work::Hold => "hold",
            Work::Free => "free",
            Work::Busy => "busy",
            Work::Siblings => "siblings",
            Work::List => "list",
            Work::GiveAll => "give all",
            Work::Ten => "hold ten",
            Work::BesideTen => "beside ten",
            Work::Many => "hold many",
            Work::BesideMany => "beside many",
        }
    }
}

// the job that holds the names, and the one that tries others
const HOLDER: u32 = 2;

const ASKER: u32 = 1;

// how many names are held, and how many tries are made
const HELD: u32 = 1_000;

const TRIES: u32 = 10_000;

// how many jobs hold as many each, where names are held by many
const HOLDERS: u32 = 100;

/// Does a work, and gives the number of names that it met.
pub fn perform(alloc: Global, work: Work, locks: &mut LockTable) -> Result<u64, Failure> {
    match work {
        Work::Hold => hold(alloc, locks),
        Work::Free => free(alloc, locks),
        Work::Busy => busy(alloc, locks),
        Work::Siblings => siblings(alloc, locks),
        Work::List => list(alloc, locks),
        Work::GiveAll => give_all(locks),
        Work::Ten => hold_of(alloc, locks, HOLDER, b"C", 10),
        Work::BesideTen => beside(alloc, locks, b"C"),
        Work::Many => hold_many(alloc, locks),
        Work::BesideMany => beside(alloc, locks, b"D"),
    }
}

// One job takes names one by one.
fn hold(alloc: Global, locks: &mut LockTable) -> Result<u64, Failure> {
    hold_of(alloc, locks, HOLDER, b"A", HELD)
}

// A job takes so many names of a word one by one, and says how many it got.
fn hold_of(
    alloc: Global,
    locks: &mut LockTable,
    job: u32,
    word: &[u8],
    names: u32,
) -> Result<u64, Failure> {
    let word = Text::from(alloc, word)?;
    let mut done = 0_u64;
    for i in 0..names {
        done = done.saturating_add(got(&locks.try_take(job, &[held_node(alloc, &word, job, i)?])?));
    }
    Ok(done)
}

// Many jobs take names of one word, each as many as before.
fn hold_many(alloc: Global, locks: &mut LockTable) -> Result<u64, Failure> {
    let mut done = 0_u64;
    for job in 0..HOLDERS {
        let held = hold_of(alloc, locks, job.saturating_add(HOLDER), b"D", HELD)?;
        done = done.saturating_add(held);
    }
    Ok(done)
}

// Another takes a name beside those of a word that others hold, and gives it up.
fn beside(alloc: Global, locks: &mut LockTable, word: &[u8]) -> Result<u64, Failure> {
    let word = Text::from(alloc, word)?;
    taken_and_given(locks, &[node(alloc, &word, u32::MAX)?])
}

// The node of a word that a job holds: no other job's.
fn held_node(alloc: Global, word: &Text, job: u32, i: u32) -> Result<Name, Failure> {
    node(
        alloc,
        word,
        job.saturating_sub(HOLDER)
            .saturating_mul(HELD)
            .saturating_add(i),
    )
}

// Another takes a name of another word and gives it up.
fn free(alloc: Global, locks: &mut LockTable) -> Result<u64, Failure> {
    let word = Text::from(alloc, b"B")?;
    taken_and_given(locks, &[node(alloc, &word, 7)?])
}

// Another takes a name of the same word and gives it up.
fn siblings(alloc: Global, locks: &mut LockTable) -> Result<u64, Failure> {
    let word = Text::from(alloc, b"A")?;
    taken_and_given(locks, &[node(alloc, &word, HELD)?])
}

// Another asks for the last of the names that are held.
fn busy(alloc: Global, locks: &mut LockTable) -> Result<u64, Failure> {
    let word = Text::from(alloc, b"A")?;
    taken_and_given(locks, &[node(alloc, &word, HELD - 1)?])
}

// Another asks for a list of names.
fn list(alloc: Global, locks: &mut LockTable) -> Result<u64, Failure> {
    let word = Text::from(alloc, b"B")?;
    let mut names = Vec::new(alloc);
    for i in 0..HELD {
        names.push(node(alloc, &word, i)?)?;
    }
    let _taken = locks.try_take(ASKER, &names)?;
    Ok(u64::from(HELD))
}

fn give_all(locks: &mut LockTable) -> Result<u64, Failure> {
    locks.give_all(HOLDER);
    locks.give_all(ASKER);
    Ok(u64::from(HELD))
}

fn taken_and_given(locks: &mut LockTable, names: &[Name]) -> Result<u64, Failure> {
    let mut done = 0_u64;
    for _ in 0..TRIES {
        if got(&locks.try_take(ASKER, names)?) == 1 {
            locks.give(ASKER, names);
        }
        done = done.saturating_add(1);
    }
    Ok(done)
}

// How many names were got.
fn got(taken: &Taken) -> u64 {
    match taken {
        Taken::Got => 1,
        Taken::Busy { holder: _, name: _ } | Taken::Limit => 0,
    }
}

fn node(alloc: Global, word: &Text, i: u32) -> Result<Name, Failure> {
    let mut subs = Subs::new(alloc);
    subs.push(Sub::from_text(Text::from_number(alloc, i64::from(i))))?;
    Ok(Name::global(word.try_clone()?, subs))
}
