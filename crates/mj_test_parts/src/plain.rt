// Transactions beside the plain measure: reads on a copy of the globals on which all own writes are made, and a commit that asks every read again. Some
// thousand accesses by chance, with changes of another job among them, are answered alike by both.

ghost use Rattle.std.specs.Prelude.{◌<◌};

use crate::chance::Chance;
use mj_globs::Globals;
use mj_store::{Access, Answer, Direction, Nodes, Store, ask, is_same_answer, perform};
use mj_subs::{Name, SharedName, Sub, Subs};
use mj_text::{Failure, Text};
use mj_txlog::{Entry, Skips, TxLog, Unlock, is_write};
use mj_txn::{Outcome, commit};
use std::alloc::{AllocError, Global};
use std::test::Fail;

const SUBSCRIPTS: [&str; 5] = ["", "1", "2", "10", "x"];

const WORDS: [&str; 2] = ["A", "B"];

const STEPS: u64 = 3_800;

#[test]
fn transactions_are_as_the_plain_measure(rt: HostRuntime) -> Result<(), Fail> {
    assert_eq!(rt; first_difference(rt.alloc())?, None);
    Ok(())
}

// The first step at which they differ.
fn first_difference(alloc: Global) -> Result<Option<u64>, Failure> {
    let mut globals = Globals::new(alloc);
    let mut log = TxLog::new(alloc, true);
    let step = difference(alloc, &mut globals, &mut log);
    drop(log);
    drop(globals);
    step
}

fn difference(
    alloc: Global,
    globals: &mut Globals,
    log: &mut TxLog,
) -> Result<Option<u64>, Failure> {
    let mut chance = Chance::new(1);
    for step in 0..STEPS {
        if !is_alike(alloc, globals, log, &mut chance)? {
            return Ok(Some(step));
        }
    }
    Ok(None)
}

// Whether both do one thing alike: an access of the transaction, an unlock, a change by another job, or a commit, after which another transaction begins, in
// three of four SERIAL.
fn is_alike(
    alloc: Global,
    globals: &mut Globals,
    log: &mut TxLog,
    chance: &mut Chance,
) -> Result<bool, Failure> {
    match chance.below(24) {
        0 => {
            let alike = is_commit_alike(globals, log);
            *log = TxLog::new(alloc, chance.below(4) != 0);
            alike
        }
        1 | 2 => {
            change(alloc, globals, chance)?;
            Ok(true)
        }
        3 => is_unlock_alike(log),
        _ => {
            let access = access(alloc, chance)?;
            is_access_alike(alloc, globals, log, access)
        }
    }
}

// ---- one access

#[tactic(auto, using(mj_txlog::proofs::Goes::none_skips))]
fn is_access_alike(
    alloc: Global,
    globals: &Globals,
    log: &mut TxLog,
    access: Access,
) -> Result<bool, Failure> {
    let expected = match plain_answer(globals, log.entries(), &access) {
        Ok(answer) => answer,
        Err(refused) => {
            drop(access); // for the proof
            return Err(Failure::from(refused));
        }
    };
    let mut skips = Skips::new(alloc);
    let told = log.see(globals, &mut skips, access);
    drop(skips);
    let alike = match &told {
        Ok(told) => is_same_answer(&told.0, &expected) && is_same_answer(&told.1, &expected),
        Err(_) => false,
    };
    drop(told);
    drop(expected);
    Ok(alike)
}

// What an access after these is answered, on a copy on which their writes are made.
fn plain_answer(
    globals: &Globals,
    earlier: &[Entry],
    access: &Access,
) -> Result<Answer, AllocError> {
    let copy = plain_seen(globals, earlier)?;
    let answer = ask(&copy, access);
    drop(copy);
    answer
}

fn plain_seen(globals: &Globals, entries: &[Entry]) -> Result<Globals, AllocError> {
    let mut copy = globals.try_clone()?;
    let made = make_writes(&mut copy, entries);
    match made {
        Ok(()) => Ok(copy),
        Err(refused) => {
            drop(copy); // for the proof
            Err(refused)
        }
    }
}

fn make_writes(globals: &mut Globals, entries: &[Entry]) -> Result<(), AllocError> {
    for entry in entries {
        if let Entry::Access(access, _) = entry {
            if is_write(access) {
                drop(perform(globals, access)?);
            }
        }
    }
    Ok(())
}

// An unlock changes nothing that reads see, and waits for the commit.
fn is_unlock_alike(log: &mut TxLog) -> Result<bool, Failure> {
    let told = log.unlock(Unlock::All);
    let alike = matches!(&told, Ok(Answer::Done));
    drop(told);
    Ok(alike)
}

// ---- a commit

fn is_commit_alike(globals: &mut Globals, log: &TxLog) -> Result<bool, Failure> {
    let place = if log.is_serial() {
        plain_place(globals, log.entries())?
    } else {
        None
    };
    let left = match place {
        None => plain_seen(globals, log.entries())?,
        Some(_) => globals.try_clone()?,
    };
    let alike = is_committed_so(globals, log, place, &left);
    drop(left);
    Ok(alike?)
}

// The place from 0 on of the first read that is answered otherwise now.
fn plain_place(globals: &Globals, entries: &[Entry]) -> Result<Option<usize>, AllocError> {
    for (i, entry) in entries.iter().enumerate() {
        if !holds(globals, &entries[..i], entry)? {
            return Ok(Some(i));
        }
    }
    Ok(None)
}

fn holds(globals: &Globals, earlier: &[Entry], entry: &Entry) -> Result<bool, AllocError> {
    let Entry::Access(access, then) = entry else {
        return Ok(true);
    };
    if is_write(access) {
        return Ok(true);
    }
    let now = plain_answer(globals, earlier, access)?;
    let holds = is_same_answer(&now, then);
    drop(now);
    Ok(holds)
}

// Whether the commit is done or names this place, as the plain one does, and leaves the same.
fn is_committed_so(
    globals: &mut Globals,
    log: &TxLog,
    place: Option<usize>,
    left: &Globals,
) -> Result<bool, AllocError> {
    if !log.follows(globals)? || (log.stale(globals) == 0 && place.is_some()) {
        return Ok(false);
    }
    let outcome = commit(log, globals)?;
    let named = match &outcome {
        Outcome::Done => None,
        Outcome::Clash(changed) => Some(changed.place as usize),
    };
    drop(outcome);
    let is_place = match (place, named) {
        (None, None) => true,
        (Some(at), Some(named)) => at < named && named - at == 1,
        _ => false,
    };
    Ok(is_place && have_same(globals, left)?)
}

fn have_same(one: &Globals, other: &Globals) -> Result<bool, AllocError> {
    let nodes = one.nodes()?;
    let same = match other.nodes() {
        Ok(others) => {
            let same = are_same(&nodes, &others);
            drop(others);
            Ok(same)
        }
        Err(refused) => Err(refused),
    };
    drop(nodes);
    same
}

fn are_same(nodes: &[(Name, Text)], others: &[(Name, Text)]) -> bool {
    if nodes.len() != others.len() {
        return false;
    }
    for (i, node) in nodes.iter().enumerate() {
        if node.0 != others[i].0 || node.1 != others[i].1 {
            return false;
        }
    }
    true
}

// ---- what is done by chance

// Another job gives a name a text, or takes one.
fn change(alloc: Global, globals: &mut Globals, chance: &mut Chance) -> Result<(), Failure> {
    let name = name(alloc, chance)?;
    let done = match chance.below(4) {
        0 => {
            globals.kill(&name);
            Ok(())
        }
        value => give(alloc, globals, &name, value),
    };
    drop(name);
    done
}

fn give(alloc: Global, globals: &mut Globals, name: &Name, value: u64) -> Result<(), Failure>
    requires { value < 4 }
{
    let text = Text::from_number(alloc, value as i64);
    let done = globals.set(name, &text);
    drop(text);
    Ok(done?)
}

fn access(alloc: Global, chance: &mut Chance) -> Result<Access, Failure> {
    let name = SharedName::new(alloc, name(alloc, chance)?)?;
    Ok(match chance.below(11) {
        0 => Access::Value(name),
        1 => Access::Data(name),
        2 | 3 => Access::Order(name, Direction::Forward),
        4 => Access::Order(name, Direction::Backward),
        5 => Access::Query(name),
        6 => Access::Subtree(name),
        7 => Access::Kill(name),
        8 => Access::Put(name, nodes(alloc, chance)?),
        value => Access::Set(name, Text::from_number(alloc, value as i64)),
    })
}

// At most three texts, at names below the one that they are put to, and at itself.
fn nodes(alloc: Global, chance: &mut Chance) -> Result<Nodes, Failure> {
    let mut nodes = Nodes::new(alloc);
    for value in 0..chance.below(4) {
        nodes.push(
            subscripts(alloc, chance)?,
            Text::from_number(alloc, value as i64),
        )?;
    }
    Ok(nodes)
}

// At most two subscripts of a few.
fn subscripts(alloc: Global, chance: &mut Chance) -> Result<Subs, Failure> {
    let mut list = Subs::new(alloc);
    for _ in 0..chance.below(3) {
        let sub = SUBSCRIPTS[chance.below(5) as usize];
        list.push(Sub::from_text(Text::from(alloc, sub.as_bytes())?))?;
    }
    Ok(list)
}

// One of two words, with at most two subscripts.
fn name(alloc: Global, chance: &mut Chance) -> Result<Name, Failure> {
    let list = subscripts(alloc, chance)?;
    let word = WORDS[chance.below(2) as usize];
    Ok(Name::global(Text::from(alloc, word.as_bytes())?, list))
}
