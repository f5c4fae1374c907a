// Trees beside the plain list: some thousand accesses by chance, each of which both stores answer alike. And that calls that allocate
// can succeed.

use crate::chance::Chance;
use mj_globs::{Change, Globals};
use mj_store::{Access, Answer, Direction, Flat, Nodes, Store, is_same_answer, perform};
use mj_subs::{Name, SharedName, Sub, Subs};
use mj_text::{Failure, Fault, Text};
use std::alloc::Global;
use std::test::Fail;

const SUBSCRIPTS: [&str; 10] = ["", "0", "1", "-1", "10", "2", "01", "a", "b", "1.5"];

const STEPS: u64 = 3_000;

// What the next access is made from. Where it is of rows, most subscripts are numbers that lie close together, and go up with each step.
#[derive(Drop)]
struct Chosen {
    chance: Chance,
    of_rows: bool,
    step: u64,
}

#[test]
fn trees_answer_as_the_plain_list(rt: HostRuntime) -> Result<(), Fail> {
    assert_eq!(rt; first_difference(rt.alloc(), false)?, None);
    Ok(())
}

// Rows that grow at both ends, with holes, from negative numbers on, whose ends and middles go.
#[test]
fn rows_answer_as_the_plain_list(rt: HostRuntime) -> Result<(), Fail> {
    assert_eq!(rt; first_difference(rt.alloc(), true)?, None);
    Ok(())
}

#[test]
fn changes_are_made_whole(rt: HostRuntime) -> Result<(), Fail> {
    assert_eq!(rt; data_after(rt.alloc(), 30)?, (None, 10));
    assert_eq!(rt;
        data_after(rt.alloc(), 31)?,
        (Some(Failure::Fault(Fault::Limit)), 1)
    );
    Ok(())
}

// The first step at which the answers differ. One function has the stores, and those that may fail borrow them: all that a function has is
// dropped anew at each of its ends, and each drop is proved.
fn first_difference(alloc: Global, of_rows: bool) -> Result<Option<u64>, Failure> {
    let mut trees = Globals::new(alloc);
    let mut list = Flat::new(alloc);
    let step = difference(alloc, &mut trees, &mut list, of_rows);
    drop(trees);
    drop(list);
    step
}

fn difference(
    alloc: Global,
    trees: &mut Globals,
    list: &mut Flat,
    of_rows: bool,
) -> Result<Option<u64>, Failure> {
    let mut chosen = Chosen {
        chance: Chance::new(1),
        of_rows,
        step: 0,
    };
    for step in 0..STEPS {
        chosen.step = step;
        if !is_alike(alloc, trees, list, &mut chosen)? {
            return Ok(Some(step));
        }
    }
    Ok(None)
}

// Whether both stores answer one access alike.
fn is_alike(
    alloc: Global,
    trees: &mut Globals,
    list: &mut Flat,
    chosen: &mut Chosen,
) -> Result<bool, Failure> {
    let access = access(alloc, chosen)?;
    let answer = perform(trees, &access)?;
    let alike = is_answer(list, &access, &answer);
    drop(answer);
    drop(access);
    alike
}

fn is_answer(list: &mut Flat, access: &Access, answer: &Answer) -> Result<bool, Failure> {
    let plain = perform(list, access)?;
    let alike = is_same_answer(answer, &plain);
    drop(plain);
    Ok(alike)
}

// What `$DATA` of a name with a text is after two changes: it goes, and lists of so many subscripts follow one below it.
fn data_after(alloc: Global, count: u64) -> Result<(Option<Failure>, u8), Failure> {
    let mut store = Globals::new(alloc);
    let found = data_in(alloc, &mut store, count);
    drop(store);
    found
}

fn data_in(
    alloc: Global,
    store: &mut Globals,
    count: u64,
) -> Result<(Option<Failure>, u8), Failure> {
    let above = Name::global(Text::from(alloc, b"A")?, Subs::new(alloc));
    set_7(alloc, store, &above)?;
    let failed = apply_both(alloc, store, &above, count)?;
    let data = store.data(&above);
    Ok((failed, data))
}

fn set_7(alloc: Global, store: &mut Globals, name: &Name) -> Result<(), Failure> {
    let text = Text::from_number(alloc, 7);
    store.set(name, &text)?;
    Ok(())
}

fn apply_both(
    alloc: Global,
    store: &mut Globals,
    above: &Name,
    count: u64,
) -> Result<Option<Failure>, Failure> {
    let changes = changes(alloc, above, count)?;
    let failed = store.apply(&changes).err();
    drop(changes);
    Ok(failed)
}

fn changes(alloc: Global, above: &Name, count: u64) -> Result<[Change; 2], Failure> {
    let above = above.try_clone()?;
    Ok([Change::Kill(above), put(alloc, count)?])
}

fn put(alloc: Global, count: u64) -> Result<Change, Failure> {
    let mut chosen = Chosen {
        chance: Chance::new(2),
        of_rows: false,
        step: 0,
    };
    let first = subscripts(alloc, &mut chosen, 1)?;
    let below = Name::global(Text::from(alloc, b"A")?, first);
    Ok(Change::Put(below, one_node(alloc, &mut chosen, count)?))
}

fn one_node(alloc: Global, chosen: &mut Chosen, count: u64) -> Result<Nodes, Failure> {
    let list = subscripts(alloc, chosen, count)?;
    let mut nodes = Nodes::new(alloc);
    nodes.push(list, Text::from_number(alloc, 7))?;
    Ok(nodes)
}

fn access(alloc: Global, chosen: &mut Chosen) -> Result<Access, Failure> {
    if chosen.of_rows && chosen.step % 256 < 24 {
        return Ok(Access::Kill(SharedName::new(alloc, in_the_middle(alloc, chosen.step)?)?));
    }
    let name = SharedName::new(alloc, name(alloc, chosen)?)?;
    Ok(match chosen.chance.below(14) {
        0 => Access::Kill(name),
        1 => Access::Put(name, nodes(alloc, chosen)?),
        2 => Access::Value(name),
        3 => Access::Data(name),
        4 | 5 => Access::Order(name, Direction::Forward),
        6 | 7 => Access::Order(name, Direction::Backward),
        8 => Access::Query(name),
        9 => Access::Subtree(name),
        10 | 11 if chosen.of_rows => Access::Kill(name),
        _ => Access::Set(name, number(alloc, chosen)),
    })
}

// A name of a row, of which each step takes the next, so that so many side by side go that they part the row.
fn in_the_middle(alloc: Global, step: u64) -> Result<Name, Failure> {
    let mut list = Subs::new(alloc);
    let number = (step / 32) as i64 + (step % 256) as i64 - 20;
    list.push(Sub::from_text(Text::from_number(alloc, number)))?;
    Ok(Name::global(Text::from(alloc, b"%B")?, list))
}

fn name(alloc: Global, chosen: &mut Chosen) -> Result<Name, Failure> {
    let bytes: &[u8] = if chosen.chance.below(3) == 0 {
        b"A"
    } else {
        b"%B"
    };
    let word = Text::from(alloc, bytes)?;
    let count = if chosen.of_rows {
        1 + chosen.chance.below(2)
    } else {
        chosen.chance.below(4)
    };
    let list = subscripts(alloc, chosen, count)?;
    Ok(if chosen.chance.below(3) == 0 {
        Name::local(word, list)
    } else {
        Name::global(word, list)
    })
}

fn subscripts(alloc: Global, chosen: &mut Chosen, count: u64) -> Result<Subs, Failure> {
    let mut list = Subs::new(alloc);
    for _ in 0..count {
        list.push(Sub::from_text(subscript(alloc, chosen)?))?;
    }
    Ok(list)
}

fn subscript(alloc: Global, chosen: &mut Chosen) -> Result<Text, Failure> {
    if chosen.of_rows && chosen.chance.below(12) > 0 {
        let number = (chosen.step / 32) as i64 + chosen.chance.below(40) as i64 - 30;
        return Ok(Text::from_number(alloc, number));
    }
    let text = SUBSCRIPTS[chosen.chance.below(10) as usize];
    Text::from(alloc, text.as_bytes())
}

fn nodes(alloc: Global, chosen: &mut Chosen) -> Result<Nodes, Failure> {
    let mut nodes = Nodes::new(alloc);
    for _ in 0..chosen.chance.below(4) {
        let count = if chosen.chance.below(8) == 0 {
            30
        } else {
            chosen.chance.below(3)
        };
        let list = subscripts(alloc, chosen, count)?;
        nodes.push(list, number(alloc, chosen))?;
    }
    Ok(nodes)
}

fn number(alloc: Global, chosen: &mut Chosen) -> Text {
    Text::from_number(alloc, chosen.chance.below(100) as i64)
}
