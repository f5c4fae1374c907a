// What is measured.

use mj_globs::Globals;
use mj_store::{Direction, Store};
use mj_subs::{Name, Sub, Subs};
use mj_text::{Failure, Text};
use std::alloc::Global;

/// A work that is measured.
#[derive(Clone, Copy, PartialEq, Eq, Debug)]
pub enum Work {
    Set,
    Get,
    Siblings,
    Order,
    Query,
    Kill,
}

/// All of them, each on what those before it leave.
pub const WORKS: [Work; 6] = [
    Work::Set,
    Work::Get,
    Work::Query,
    Work::Kill,
    Work::Siblings,
    Work::Order,
];

impl Work {
    /// What is printed of it.
    pub fn name(self) -> &'static str {
        match self {
            Work::Set => "set",
            Work::Get => "get",
            Work::Siblings => "siblings",
            Work::Order => "order",
            Work::Query => "query",
            Work::Kill => "kill",
        }
    }
}

// nodes of two subscripts, and siblings of one level
const FIRST: u32 = 400;

const SECOND: u32 = 500;

const SIBLINGS: u32 = 200_000;

/// Does a work, and gives the number of nodes that it met.
pub fn perform(alloc: Global, work: Work, globals: &mut Globals) -> Result<u64, Failure> {
    match work {
        Work::Set => set(alloc, globals),
        Work::Get => get(alloc, globals),
        Work::Siblings => siblings(alloc, globals),
        Work::Order => order(alloc, globals),
        Work::Query => query(alloc, globals),
        Work::Kill => kill(alloc, globals),
    }
}

fn set(alloc: Global, globals: &mut Globals) -> Result<u64, Failure> {
    let word = Text::from(alloc, b"A")?;
    let mut done = 0_u64;
    for i in 0..FIRST {
        for j in 0..SECOND {
            let name = node(alloc, &word, i, j)?;
            globals.set(&name, &Text::from_number(alloc, i64::from(j)))?;
            done = done.saturating_add(1);
        }
    }
    Ok(done)
}

fn get(alloc: Global, globals: &Globals) -> Result<u64, Failure> {
    let word = Text::from(alloc, b"A")?;
    let mut done = 0_u64;
    for i in 0..FIRST {
        for j in 0..SECOND {
            if globals.value(&node(alloc, &word, i, j)?).is_some() {
                done = done.saturating_add(1);
            }
        }
    }
    Ok(done)
}

fn siblings(alloc: Global, globals: &mut Globals) -> Result<u64, Failure> {
    let word = Text::from(alloc, b"B")?;
    let mut done = 0_u64;
    for i in 0..SIBLINGS {
        let name = sibling(alloc, &word, number(alloc, i))?;
        globals.set(&name, &Text::from_number(alloc, 1))?;
        done = done.saturating_add(1);
    }
    Ok(done)
}

fn order(alloc: Global, globals: &Globals) -> Result<u64, Failure> {
    let word = Text::from(alloc, b"B")?;
    let mut last = Sub::from_text(Text::new(alloc));
    let mut done = 0_u64;
    for _ in 0..=SIBLINGS {
        let name = sibling(alloc, &word, last)?;
        last = match globals.order(&name, Direction::Forward) {
            None => return Ok(done),
            Some(next) => next.try_clone()?,
        };
        done = done.saturating_add(1);
    }
    Ok(done)
}

fn query(alloc: Global, globals: &Globals) -> Result<u64, Failure> {
    let mut name = Name::global(Text::from(alloc, b"A")?, Subs::new(alloc));
    let mut done = 0_u64;
    for _ in 0..=SIBLINGS {
        name = match globals.query(&name)? {
            None => return Ok(done),
            Some(next) => next,
        };
        done = done.saturating_add(1);
    }
    Ok(done)
}

fn kill(alloc: Global, globals: &mut Globals) -> Result<u64, Failure> {
    let word = Text::from(alloc, b"A")?;
    let mut done = 0_u64;
    for i in 0..FIRST / 2 {
        globals.kill(&sibling(alloc, &word, number(alloc, i))?);
        done = done.saturating_add(u64::from(SECOND));
    }
    Ok(done)
}

fn number(alloc: Global, i: u32) -> Sub {
    Sub::from_text(Text::from_number(alloc, i64::from(i)))
}

fn sibling(alloc: Global, word: &Text, sub: Sub) -> Result<Name, Failure> {
    let mut subs = Subs::new(alloc);
    subs.push(sub)?;
    Ok(Name::global(word.try_clone()?, subs))
}

fn node(alloc: Global, word: &Text, i: u32, j: u32) -> Result<Name, Failure> {
    let mut subs = Subs::new(alloc);
    subs.push(number(alloc, i))?;
    subs.push(number(alloc, j))?;
    Ok(Name::global(word.try_clone()?, subs))
}
