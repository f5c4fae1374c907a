// The blocks of a history of two jobs.

use mj_ask::{Ask, BoxedClash, Clash, Kept, Kind, Reply, SharedAsk};
use mj_serial::{Block, serial_blocks};
use mj_store::{Access, Answer};
use mj_subs::{Name, SharedName, Subs};
use mj_sys::Event;
use mj_text::{Failure, Text};
use std::alloc::Global;
use std::test::Fail;

// The first four blocks, as far as there are as many.
pub type First = [Option<(u32, bool, usize, usize)>; 4];

// A single access, the transaction of job 1, and the second of job 2; what clashed and what was rolled back isn't there.
#[test]
fn blocks_come_in_the_order_of_their_commits(rt: HostRuntime) -> Result<(), Fail> {
    assert_eq!(rt;
        blocks(rt.alloc())?,
        [
            Some((2, false, 3, 1)),
            Some((1, true, 1, 2)),
            Some((2, false, 9, 2)),
            None
        ]
    );
    Ok(())
}

fn blocks(alloc: Global) -> Result<First, Failure> {
    let mut history = Vec::new(alloc);
    let blocks = blocks_in(alloc, &mut history);
    drop(history);
    blocks
}

fn blocks_in(alloc: Global, history: &mut Vec<Event>) -> Result<First, Failure> {
    first(alloc, history)?;
    second(alloc, history)?;
    let blocks = serial_blocks(alloc, history)?;
    let first = first_four(&blocks);
    drop(blocks);
    Ok(first)
}

// The first four blocks: the job, whether it is SERIAL, where it begins, and how many accesses it has.
pub fn first_four(blocks: &[Block]) -> First {
    [
        shown(blocks, 0),
        shown(blocks, 1),
        shown(blocks, 2),
        shown(blocks, 3),
    ]
}

fn shown(blocks: &[Block], at: usize) -> Option<(u32, bool, usize, usize)> {
    let block = blocks.get(at)?;
    Some((block.job, block.serial, block.place, block.accesses.len()))
}

// Job 1 reads and sets ^A in a transaction, while job 2 sets ^B outside one.
fn first(alloc: Global, history: &mut Vec<Event>) -> Result<(), Failure> {
    add(
        history,
        1,
        Ask::Shared(SharedAsk::Begin(Kind::Serial)),
        Reply::Done,
    )?;
    read(alloc, history, 1)?;
    set(alloc, history, 2, "B")?;
    set(alloc, history, 1, "A")?;
    add(
        history,
        2,
        Ask::Shared(SharedAsk::Begin(Kind::Serial)),
        Reply::Done,
    )?;
    add(history, 1, Ask::Shared(SharedAsk::Commit), Reply::Done)
}

// Job 2 clashes, and begins again; job 1 rolls back.
fn second(alloc: Global, history: &mut Vec<Event>) -> Result<(), Failure> {
    read(alloc, history, 2)?;
    let clash = clash(alloc)?;
    add(
        history,
        2,
        Ask::Shared(SharedAsk::Commit),
        Reply::Clash(clash),
    )?;
    add(
        history,
        2,
        Ask::Shared(SharedAsk::Begin(Kind::Plain)),
        Reply::Done,
    )?;
    set(alloc, history, 2, "A")?;
    add(history, 2, Ask::Shared(SharedAsk::UnlockAll), Reply::Done)?;
    add(history, 2, Ask::Shared(SharedAsk::Commit), Reply::Done)?;
    add(
        history,
        1,
        Ask::Shared(SharedAsk::Begin(Kind::Serial)),
        Reply::Done,
    )?;
    set(alloc, history, 1, "A")?;
    add(history, 1, Ask::Shared(SharedAsk::Rollback), Reply::Done)
}

fn clash(alloc: Global) -> Result<BoxedClash, Failure> {
    let now = Text::from(alloc, b"1")?;
    let clash = Clash {
        place: 1,
        then: Kept::Nothing,
        now: Kept::Text(now),
    };
    Ok(BoxedClash::new(alloc, clash)?)
}

fn read(alloc: Global, history: &mut Vec<Event>, job: u32) -> Result<(), Failure> {
    let name = SharedName::new(alloc, name(alloc, "A")?)?;
    let ask = Ask::Shared(SharedAsk::Access(Access::Value(name)));
    add(history, job, ask, Reply::Answer(Answer::Value(None)))
}

fn set(alloc: Global, history: &mut Vec<Event>, job: u32, word: &str) -> Result<(), Failure> {
    let access = set_to_1(alloc, word)?;
    add(
        history,
        job,
        Ask::Shared(SharedAsk::Access(access)),
        Reply::Answer(Answer::Done),
    )
}

fn set_to_1(alloc: Global, word: &str) -> Result<Access, Failure> {
    let name = SharedName::new(alloc, name(alloc, word)?)?;
    match Text::from(alloc, b"1") {
        Ok(text) => Ok(Access::Set(name, text)),
        Err(failure) => {
            drop(name);
            Err(failure)
        }
    }
}

fn name(alloc: Global, word: &str) -> Result<Name, Failure> {
    let word = Text::from(alloc, word.as_bytes())?;
    Ok(Name::global(word, Subs::new(alloc)))
}

fn add(history: &mut Vec<Event>, job: u32, ask: Ask, reply: Reply) -> Result<(), Failure> {
    history.push(Event { job, ask, reply })?;
    Ok(())
}
