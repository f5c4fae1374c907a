// NEW, formals and what undoing them gives, on the values that the words of the language lead one to expect. One function has a job's locals; the rows
// borrow them, since all that a function has is dropped anew at each of its ends, and each drop is proved.

ghost use Rattle.std.specs.Prelude.{◌≡◌, false, IfOk};
ghost use Rattle.mj_store.specs.Runs.{name_of};

use mj_locals::{Locals, perform};
use mj_store::{Access, Direction, Nodes};
use mj_subs::{Name, SharedName, Sub, Subs};
use mj_text::{Failure, Text};
use std::alloc::Global;
use std::test::Fail;

// What is done with X=1 and Y=2, to see numbers of variables behind it.
#[derive(Clone, Copy)]
enum Row {
    // X before, behind NEW X, after a new value, after that is undone; and Y
    Hidden,
    // X and Y behind NEW (Y); X after that is undone, Y as it was changed since, and Z, which was new since
    Spared,
    // X, Y and Z as formals with the actuals 7 and none; X and Y after that
    Passed,
}

// What is asked where X(1) and X(5) stand beside them, and `Yes` is 1.
#[derive(Clone, Copy)]
enum Question {
    // `$DATA` of X
    Data,
    // whether the last of these subscripts is next to the first one below X
    Next(&'static str, Direction, &'static str),
    // how many nodes X has
    Nodes,
    // whether X(1) is the next name of X
    Behind,
    // whether X(5) has a text when X is killed
    Without5,
    // `$DATA` of X when all goes but Y
    WithoutX,
}

#[test]
fn new_hides_and_undoing_shows_again(rt: HostRuntime) -> Result<(), Fail> {
    let numbers = seen(rt.alloc(), Row::Hidden)?;
    assert_eq!(rt; numbers, [Some(1), None, Some(3), Some(1), Some(2)]);
    Ok(())
}

#[test]
fn new_of_all_but_some_keeps_those(rt: HostRuntime) -> Result<(), Fail> {
    let numbers = seen(rt.alloc(), Row::Spared)?;
    assert_eq!(rt; numbers, [None, Some(2), Some(1), Some(4), None]);
    Ok(())
}

#[test]
fn formals_have_their_values(rt: HostRuntime) -> Result<(), Fail> {
    let numbers = seen(rt.alloc(), Row::Passed)?;
    assert_eq!(rt; numbers, [Some(7), None, None, Some(1), Some(2)]);
    Ok(())
}

#[test]
fn each_question_is_answered(rt: HostRuntime) -> Result<(), Fail> {
    for (question, answer) in [
        (Question::Data, 11),
        (Question::Next("1", Direction::Forward, "5"), 1),
        (Question::Next("", Direction::Backward, "5"), 1),
        (Question::Nodes, 3),
        (Question::Behind, 1),
    ] {
        assert_eq!(rt; asked(rt.alloc(), question)?, answer);
    }
    Ok(())
}

#[test]
fn what_goes_is_gone(rt: HostRuntime) -> Result<(), Fail> {
    for question in [Question::Without5, Question::WithoutX] {
        assert_eq!(rt; asked(rt.alloc(), question)?, 0);
    }
    Ok(())
}

fn seen(alloc: Global, row: Row) -> Result<[Option<i64>; 5], Failure> {
    let mut locals = Locals::new(alloc);
    let numbers = run(alloc, &mut locals, row);
    drop(locals);
    numbers
}

fn asked(alloc: Global, question: Question) -> Result<usize, Failure> {
    let mut locals = Locals::new(alloc);
    let answer = answer(alloc, &mut locals, question);
    drop(locals);
    answer
}

fn run(alloc: Global, locals: &mut Locals, row: Row) -> Result<[Option<i64>; 5], Failure> {
    give_both(alloc, locals)?;
    match row {
        Row::Hidden => hidden_and_shown(alloc, locals),
        Row::Spared => spared_and_shown(alloc, locals),
        Row::Passed => passed(alloc, locals),
    }
}

fn hidden_and_shown(alloc: Global, locals: &mut Locals) -> Result<[Option<i64>; 5], Failure> {
    let before = number(alloc, locals, "X")?;
    hide(alloc, locals, &["X", "X"])?;
    let hidden = number(alloc, locals, "X")?;
    give(alloc, locals, "X", 3)?;
    let renewed = number(alloc, locals, "X")?;
    locals.unwind(0);
    let [x, y] = both(alloc, locals)?;
    Ok([before, hidden, renewed, x, y])
}

fn spared_and_shown(alloc: Global, locals: &mut Locals) -> Result<[Option<i64>; 5], Failure> {
    let height = locals.height();
    spare(alloc, locals, &["Y"])?;
    let [hidden, spared] = both(alloc, locals)?;
    give(alloc, locals, "Y", 4)?;
    give(alloc, locals, "Z", 5)?;
    locals.unwind(height);
    let [x, y] = both(alloc, locals)?;
    Ok([hidden, spared, x, y, number(alloc, locals, "Z")?])
}

fn passed(alloc: Global, locals: &mut Locals) -> Result<[Option<i64>; 5], Failure> {
    pass(alloc, locals, &["X", "Y", "Z"], 7)?;
    let [x, y] = both(alloc, locals)?;
    let z = number(alloc, locals, "Z")?;
    locals.unwind(0);
    let [old_x, old_y] = both(alloc, locals)?;
    Ok([x, y, z, old_x, old_y])
}

fn answer(alloc: Global, locals: &mut Locals, question: Question) -> Result<usize, Failure> {
    give_both(alloc, locals)?;
    put(alloc, locals)?;
    match question {
        Question::Data => data_of_x(alloc, locals),
        Question::Next(first, way, last) => next_of_x(alloc, locals, first, way, last),
        Question::Nodes => nodes_of_x(alloc, locals),
        Question::Behind => behind_x(alloc, locals),
        Question::Without5 => without_5(alloc, locals),
        Question::WithoutX => without_x(alloc, locals),
    }
}

fn data_of_x(alloc: Global, locals: &Locals) -> Result<usize, Failure> {
    let name = name(alloc, "X")?;
    Ok(usize::from(locals.data(&name)))
}

fn next_of_x(
    alloc: Global,
    locals: &Locals,
    first: &str,
    way: Direction,
    last: &str,
) -> Result<usize, Failure> {
    let name = below(alloc, "X", first)?;
    match locals.order(&name, way) {
        None => Ok(0),
        Some(next) => is_text(alloc, next, last),
    }
}

fn is_text(alloc: Global, sub: &Sub, text: &str) -> Result<usize, Failure> {
    let expected = Sub::from_text(Text::from(alloc, text.as_bytes())?);
    Ok(usize::from(*sub == expected))
}

fn nodes_of_x(alloc: Global, locals: &Locals) -> Result<usize, Failure> {
    let name = name(alloc, "X")?;
    let nodes = locals.subtree(&name)?;
    Ok(nodes.as_slice().len())
}

fn behind_x(alloc: Global, locals: &Locals) -> Result<usize, Failure> {
    let name = name(alloc, "X")?;
    let next = locals.query(&name)?;
    drop(name);
    match &next {
        None => Ok(0),
        Some(next) => is_x_1(alloc, next),
    }
}

fn is_x_1(alloc: Global, name: &Name) -> Result<usize, Failure> {
    let expected = below(alloc, "X", "1")?;
    Ok(usize::from(*name == expected))
}

fn without_5(alloc: Global, locals: &mut Locals) -> Result<usize, Failure> {
    kill(alloc, locals)?;
    let name = below(alloc, "X", "5")?;
    Ok(usize::from(locals.value(&name).is_some()))
}

fn without_x(alloc: Global, locals: &mut Locals) -> Result<usize, Failure> {
    let words = words(alloc, &["Y"])?;
    locals.keep_words(words.as_slice());
    drop(words);
    data_of_x(alloc, locals)
}

// X=1 and Y=2.
fn give_both(alloc: Global, locals: &mut Locals) -> Result<(), Failure> {
    give(alloc, locals, "X", 1)?;
    give(alloc, locals, "Y", 2)
}

// X(1) and X(5).
fn put(alloc: Global, locals: &mut Locals) -> Result<(), Failure> {
    let mut nodes = Nodes::new(alloc);
    let done = put_nodes(alloc, locals, &mut nodes);
    drop(nodes);
    done
}

fn put_nodes(alloc: Global, locals: &mut Locals, nodes: &mut Nodes) -> Result<(), Failure> {
    push(alloc, nodes, "1", 8)?;
    push(alloc, nodes, "5", 9)?;
    let name = name(alloc, "X")?;
    locals.put(&name, nodes)
}

fn push(alloc: Global, nodes: &mut Nodes, subscript: &str, value: u8) -> Result<(), Failure> {
    let list = list(alloc, subscript)?;
    nodes.push(list, Text::from_number(alloc, i64::from(value)))?;
    Ok(())
}

fn kill(alloc: Global, locals: &mut Locals) -> Result<(), Failure> {
    let name = name(alloc, "X")?;
    locals.kill(&name);
    Ok(())
}

fn hide(alloc: Global, locals: &mut Locals, list: &[&str]) -> Result<(), Failure> {
    let words = words(alloc, list)?;
    locals.new_words(words.as_slice())?;
    Ok(())
}

fn spare(alloc: Global, locals: &mut Locals, list: &[&str]) -> Result<(), Failure> {
    let words = words(alloc, list)?;
    locals.new_except(words.as_slice())?;
    Ok(())
}

// Formals of these words, with a number and an actual that was omitted.
fn pass(alloc: Global, locals: &mut Locals, list: &[&str], first: u8) -> Result<(), Failure> {
    let mut values = Vec::new(alloc);
    values.push(Some(Text::from_number(alloc, i64::from(first))))?;
    values.push(None)?;
    let words = words(alloc, list)?;
    locals.pass(words.as_slice(), values)?;
    Ok(())
}

fn give(alloc: Global, locals: &mut Locals, word: &str, value: u8) -> Result<(), Failure> {
    let name = SharedName::new(alloc, name(alloc, word)?)?;
    set(
        locals,
        Access::Set(name, Text::from_number(alloc, i64::from(value))),
    )
}

fn set(locals: &mut Locals, access: Access) -> Result<(), Failure>
    requires { (name_of access).global ≡ false }
{
    let done = perform(locals, &access);
    drop(access);
    drop(done?);
    Ok(())
}

fn number(alloc: Global, locals: &Locals, word: &str) -> Result<Option<i64>, Failure> {
    let name = name(alloc, word)?;
    Ok(match locals.value(&name) {
        None => None,
        Some(text) => text.number(),
    })
}

fn both(alloc: Global, locals: &Locals) -> Result<[Option<i64>; 2], Failure> {
    Ok([number(alloc, locals, "X")?, number(alloc, locals, "Y")?])
}

fn words(alloc: Global, list: &[&str]) -> Result<Vec<Text>, Failure> {
    let mut words = Vec::new(alloc);
    for word in list {
        words.push(Text::from(alloc, word.as_bytes())?)?;
    }
    Ok(words)
}

fn list(alloc: Global, text: &str) -> Result<Subs, Failure> {
    let mut list = Subs::new(alloc);
    list.push(Sub::from_text(Text::from(alloc, text.as_bytes())?))?;
    Ok(list)
}

fn name(alloc: Global, word: &str) -> Result<Name, Failure>
    ensures { IfOk result (λ n. n.global ≡ false) }
{
    let word = Text::from(alloc, word.as_bytes())?;
    Ok(Name::local(word, Subs::new(alloc)))
}

fn below(alloc: Global, word: &str, subscript: &str) -> Result<Name, Failure>
    ensures { IfOk result (λ n. n.global ≡ false) }
{
    let list = list(alloc, subscript)?;
    let word = Text::from(alloc, word.as_bytes())?;
    Ok(Name::local(word, list))
}
