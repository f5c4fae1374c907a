// The table of locks: a try looks at the nodes along its names alone, however many names others hold, and some thousand accesses by chance are
// answered as a plain list of holds that is searched from its start answers them.

use crate::chance::Chance;
use mj_locktab::{LockTable, Taken};
use mj_subs::{Name, Sub, Subs};
use mj_text::{Failure, Text};
use std::alloc::Global;
use std::test::Fail;

const SUBSCRIPTS: [&str; 4] = ["1", "2", "10", "x"];

const STEPS: u64 = 3_000;

// The holds in no order, each a job with a name and how often it holds it.
#[derive(Drop)]
struct Plain {
    held: Vec<(u32, Name, u32)>,
}

#[test]
fn a_try_looks_along_its_names_alone(rt: HostRuntime) -> Result<(), Fail> {
    assert_eq!(rt; beside_a_thousand(rt.alloc())?, (true, true));
    Ok(())
}

#[test]
fn a_try_counts_each_node_once(rt: HostRuntime) -> Result<(), Fail> {
    assert_eq!(rt; counted(rt.alloc())?, [1, 1, 2, 2, 3, 3, 2, 3, 1]);
    Ok(())
}

#[test]
fn locks_answer_as_the_plain_list(rt: HostRuntime) -> Result<(), Fail> {
    assert_eq!(rt; first_difference(rt.alloc())?, None);
    Ok(())
}

// Beside ^A(1) to ^A(1000) of job 1: whether job 2 gets ^B(7) and looks for its word alone, and whether its try of ^A meets one of these.
fn beside_a_thousand(alloc: Global) -> Result<(bool, bool), Failure> {
    let mut table = LockTable::new(alloc);
    let found = both_tries(alloc, &mut table);
    drop(table);
    found
}

fn both_tries(alloc: Global, table: &mut LockTable) -> Result<(bool, bool), Failure> {
    for number in 1..1_001 {
        let name = numbered(alloc, b"A", number)?;
        let _taken = table.try_take(1, &[name])?;
    }
    let apart = numbered(alloc, b"B", 7)?;
    let got = is_got(&table.try_take(2, &[apart])?) && table.visits() == 1;
    let above = Name::global(Text::from(alloc, b"A")?, Subs::new(alloc));
    let met = is_met(&above, &table.try_take(2, &[above.try_clone()?])?);
    Ok((got, met))
}

// How many nodes are looked at by one try after the other, first by ^A(1) of job 1. A node that is looked for and isn't there is counted too.
fn counted(alloc: Global) -> Result<[u64; 9], Failure> {
    let mut table = LockTable::new(alloc);
    let found = all_counted(alloc, &mut table);
    drop(table);
    found
}

fn all_counted(alloc: Global, table: &mut LockTable) -> Result<[u64; 9], Failure> {
    let held = numbered(alloc, b"A", 1)?;
    let other = numbered(alloc, b"A", 2)?;
    let apart = numbered(alloc, b"B", 7)?;
    let mut list = Subs::new(alloc);
    list.push(Sub::from_text(Text::from_number(alloc, 7)))?;
    list.push(Sub::from_text(Text::from_number(alloc, 1)))?;
    let below = Name::global(Text::from(alloc, b"B")?, list);
    let first = visits(table, 1, &[held.try_clone()?])?; // no word yet
    let word = visits(table, 2, &[apart.try_clone()?])?; // another word
    let again = visits(table, 2, &[apart.try_clone()?])?; // the word and 7
    let beside = visits(table, 2, &[other.try_clone()?])?; // the word, and 2 that isn't there
    let deep = visits(table, 2, &[below.try_clone()?])?; // the word, 7, and 1 that isn't there
    let busy = visits(table, 3, &[below.try_clone()?])?; // the word, 7 and 1
    table.give_all(2);
    let gone = visits(table, 3, &[below])?; // the word, which stayed, and 7 that isn't there any more
    table.give_all(3);
    let two = visits(table, 3, &[apart, numbered(alloc, b"C", 7)?])?; // the word, which stayed, and 7 that isn't there; another word
    let met = visits(
        table,
        3,
        &[Name::global(Text::from(alloc, b"A")?, Subs::new(alloc))],
    )?; // the word, below which job 1 is in the way
    Ok([first, word, again, beside, deep, busy, gone, two, met])
}

fn visits(table: &mut LockTable, job: u32, names: &[Name]) -> Result<u64, Failure> {
    let _taken = table.try_take(job, names)?;
    Ok(table.visits())
}

fn numbered(alloc: Global, word: &[u8], number: u16) -> Result<Name, Failure> {
    let mut list = Subs::new(alloc);
    list.push(Sub::from_text(Text::from_number(alloc, i64::from(number))))?;
    Ok(Name::global(Text::from(alloc, word)?, list))
}

fn is_got(taken: &Taken) -> bool {
    match taken {
        Taken::Got => true,
        _ => false,
    }
}

// Whether job 1 was in the way, with a name below this one.
fn is_met(above: &Name, taken: &Taken) -> bool {
    match taken {
        Taken::Busy { holder, name } => *holder == 1 && above.above(name.get()),
        _ => false,
    }
}

// The first step at which the answers differ.
fn first_difference(alloc: Global) -> Result<Option<u64>, Failure> {
    let mut table = LockTable::new(alloc);
    let mut plain = Plain {
        held: Vec::new(alloc),
    };
    let step = difference(alloc, &mut table, &mut plain);
    drop(table);
    drop(plain);
    step
}

fn difference(
    alloc: Global,
    table: &mut LockTable,
    plain: &mut Plain,
) -> Result<Option<u64>, Failure> {
    let mut chance = Chance::new(1);
    for step in 0..STEPS {
        if !is_alike(alloc, table, plain, &mut chance)? {
            return Ok(Some(step));
        }
    }
    Ok(None)
}

// Whether both answer one access alike, and then how often the job holds the name.
fn is_alike(
    alloc: Global,
    table: &mut LockTable,
    plain: &mut Plain,
    chance: &mut Chance,
) -> Result<bool, Failure> {
    let job = chance.below(4) as u32;
    let name = name(alloc, chance)?;
    let alike = match chance.below(16) {
        0 => {
            table.give_all(job);
            give_all(plain, job);
            true
        }
        1 | 2 | 3 | 4 => {
            table.give(job, &[name.try_clone()?]);
            give(plain, job, &name);
            true
        }
        _ => {
            let taken = table.try_take(job, &[name.try_clone()?])?;
            is_answer(plain, job, &name, &taken)?
        }
    };
    Ok(alike && table.count(job, &name) == count(plain, job, &name))
}

// Whether the plain list answers a try so. It takes the name where none is in the way.
fn is_answer(plain: &mut Plain, job: u32, name: &Name, taken: &Taken) -> Result<bool, Failure> {
    if let Some(first) = first_in_way(plain, job, name) {
        return Ok(is_busy(plain.held.get(first), taken));
    }
    take(plain, job, name)?;
    Ok(is_got(taken))
}

// Whether this hold is told to be in the way.
fn is_busy(hold: Option<&(u32, Name, u32)>, taken: &Taken) -> bool {
    match (hold, taken) {
        (Some(hold), Taken::Busy { holder, name }) => *holder == hold.0 && *name.get() == hold.1,
        _ => false,
    }
}

// The hold of another job that overlaps the name: the lowest job's, and of its names the least.
fn first_in_way(plain: &Plain, job: u32, name: &Name) -> Option<usize> {
    let mut first: Option<usize> = None;
    for (i, hold) in plain.held.iter().enumerate() {
        if hold.0 != job && hold.1.overlap(name) && is_before(plain, i, first) {
            first = Some(i);
        }
    }
    first
}

fn is_before(plain: &Plain, i: usize, first: Option<usize>) -> bool {
    let Some(first) = first else {
        return true;
    };
    let (Some(hold), Some(other)) = (plain.held.get(i), plain.held.get(first)) else {
        return false;
    };
    hold.0 < other.0 || (hold.0 == other.0 && hold.1.cmp(&other.1).is_lt())
}

fn take(plain: &mut Plain, job: u32, name: &Name) -> Result<(), Failure> {
    for hold in plain.held.iter_mut() {
        if hold.0 == job && hold.1 == *name {
            hold.2 = hold.2.saturating_add(1);
            return Ok(());
        }
    }
    plain.held.push((job, name.try_clone()?, 1))?;
    Ok(())
}

fn give(plain: &mut Plain, job: u32, name: &Name) {
    for hold in plain.held.iter_mut() {
        if hold.0 == job && hold.1 == *name {
            hold.2 = hold.2.saturating_sub(1);
        }
    }
    plain.held.retain(|hold| hold.2 != 0);
}

fn give_all(plain: &mut Plain, job: u32) {
    plain.held.retain(|hold| hold.0 != job);
}

fn count(plain: &Plain, job: u32, name: &Name) -> u32 {
    for hold in plain.held.iter() {
        if hold.0 == job && hold.1 == *name {
            return hold.2;
        }
    }
    0
}

fn name(alloc: Global, chance: &mut Chance) -> Result<Name, Failure> {
    let bytes: &[u8] = if chance.below(3) == 0 { b"A" } else { b"%B" };
    let word = Text::from(alloc, bytes)?;
    let mut list = Subs::new(alloc);
    for _ in 0..chance.below(4) {
        let text = SUBSCRIPTS[chance.below(4) as usize];
        list.push(Sub::from_text(Text::from(alloc, text.as_bytes())?))?;
    }
    Ok(if chance.below(3) == 0 {
        Name::local(word, list)
    } else {
        Name::global(word, list)
    })
}
