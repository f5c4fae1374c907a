// Lists of changes, each made whole or not at all.
//
// The texts that the changes give are given first, in place, and what was there is logged: where memory is wanting the log is undone. Then
// the names that they take go, for which no memory is wanted. That is the same as making them in order, unless a text is given at a name that
// goes before, or below one. Then the names to be taken are listed first, which are those that aren't given again, and go one by one.

ghost use Rattle.std.specs.Prelude.{◌≡◌, [], IfOk, OnOk, OnErr};
ghost use Rattle.std.specs.List.{list_any};
ghost use Rattle.mj_subs.specs.Collation.{name_cmp};
ghost use Rattle.mj_store.specs.Questions.{value_at, same_word};
ghost use Rattle.mj_store.specs.Changes.{after_set, after_put, followed_by};
ghost use Rattle.mj_tree.specs.Undo.{undone};
ghost use Rattle.mj_globs.specs.Changes.{after_changes, is_to, are_to};
ghost use Rattle.mj_globs.specs.Stamps.{Rises, KeepsStamps};
ghost use Rattle.mj_globs.specs.Parts.{changed_without_name, all_given, all_taken, is_kill, is_rewritten};
ghost use Rattle.mj_globs.specs.Parts.{all_kills, with_ungiven, with_below, with_all_below, without_each, are_of, taken_but_given};

use crate::change::Change;
use crate::globals::Globals;
use crate::texts::{Texts, with};
use mj_store::Store;
use mj_subs::{Name, Subs};
use mj_text::Text;
use std::alloc::{AllocError, Global};

// Names that were written, in order, each with its text of before.
type Log = Vec<(Name, Option<Text>)>;

/// Makes the changes in order, all of them or none.
pub fn make_all(globals: &mut Globals, changes: &[Change]) -> Result<(), AllocError>
    ensures ok { OnOk result (globals.new.content ≡ after_changes globals.old.content changes.now) }
    ensures err { OnErr result (globals.new.content ≡ globals.old.content) }
    ensures stamps { Rises globals.old globals.new }
    ensures others { OnOk result (KeepsStamps (are_to changes.now) globals.old.stamps globals.new.stamps) }
{
    let mut log = Vec::new(globals.allocator());
    match make_logged(globals, changes, &mut log) {
        Ok(()) => Ok(()),
        Err(_) => {
            undo(globals, log);
            Err(AllocError)
        }
    }
}

// Makes the changes in order. After want of memory some texts are given, no name is taken, and the log says what was there.
fn make_logged(globals: &mut Globals, changes: &[Change], log: &mut Log) -> Result<(), AllocError>
    ensures ok { OnOk result (globals.new.content ≡ after_changes globals.old.content changes.now) }
    ensures before { OnErr result (undone name_cmp log.new.items globals.new.content ≡ undone name_cmp log.old.items globals.old.content) }
    ensures stamps { Rises globals.old globals.new }
    ensures others { OnOk result (KeepsStamps (are_to changes.now) globals.old.stamps globals.new.stamps) }
{
    if is_any_kill(changes) {
        give_and_take(globals, changes, log)?;
        return Ok(());
    }
    give_all(globals, changes, log)?;
    Ok(())
}

// Whether one of the changes takes names.
fn is_any_kill(changes: &[Change]) -> bool
    ensures { result ≡ list_any is_kill changes.now }
{
    changes.iter().any(|change| is_kill(change))
}

fn is_kill(change: &Change) -> bool
    ensures { result ≡ is_kill change.now }
{
    match change {
        Change::Kill(_) => true,
        Change::Set(_, _) | Change::Put(_, _) => false,
    }
}

// Gives the texts that the changes give, logs what was there, and takes the names that they take and don't give again.
fn give_and_take(globals: &mut Globals, changes: &[Change], log: &mut Log) -> Result<(), AllocError>
    ensures ok { OnOk result (globals.new.content ≡ after_changes globals.old.content changes.now) }
    ensures before { OnErr result (undone name_cmp log.new.items globals.new.content ≡ undone name_cmp log.old.items globals.old.content) }
    ensures stamps { Rises globals.old globals.new }
    ensures others { OnOk result (KeepsStamps (are_to changes.now) globals.old.stamps globals.new.stamps) }
{
    globals.rises();
    let alone = alone(globals.allocator(), changes)?;
    give_all(globals, changes, log)?;
    take_ungiven(globals, &alone, changes)?;
    Ok(())
}

// What the changes leave where there was no name.
fn alone(alloc: Global, changes: &[Change]) -> Result<Globals, AllocError>
    ensures { IfOk result (λ alone. alone.content ≡ after_changes [] changes.now) }
{
    let mut alone = Globals::new(alloc);
    make_each(&mut alone, changes)?;
    Ok(alone)
}

// Makes the changes in order. After an error some are made.
fn make_each(globals: &mut Globals, changes: &[Change]) -> Result<(), AllocError>
    ensures { OnOk result (globals.new.content ≡ after_changes globals.old.content changes.now) }
{
    for change in changes {
        if globals.make(change).is_err() {
            return Err(AllocError);
        }
    }
    Ok(())
}

// Whether something stands at a name that goes, or below it, where the changes have been made without what was there before.
fn is_any_rewritten(alone: &Globals, changes: &[Change]) -> bool
    ensures { result ≡ list_any (is_rewritten alone.now.content) changes.now }
{
    changes.iter().any(|change| is_rewritten(alone, change))
}

fn is_rewritten(alone: &Globals, change: &Change) -> bool
    ensures { result ≡ is_rewritten alone.now.content change.now }
{
    match change {
        Change::Kill(name) => alone.data(name) != 0,
        Change::Set(_, _) | Change::Put(_, _) => false,
    }
}

// Gives the texts that the changes give, and logs what was there. After want of memory some are given.
fn give_all(globals: &mut Globals, changes: &[Change], log: &mut Log) -> Result<(), AllocError>
    ensures ok { OnOk result (globals.new.content ≡ all_given globals.old.content changes.now) }
    ensures before { undone name_cmp log.new.items globals.new.content ≡ undone name_cmp log.old.items globals.old.content }
    ensures stamps { Rises globals.old globals.new }
    ensures others { KeepsStamps (are_to changes.now) globals.old.stamps globals.new.stamps }
{
    for change in changes {
        give(globals, change, log)?;
    }
    Ok(())
}

// Gives the texts that a change gives, and logs what was there.
fn give(globals: &mut Globals, change: &Change, log: &mut Log) -> Result<(), AllocError>
    ensures ok { OnOk result (globals.new.content ≡ changed_without_name globals.old.content change.now) }
    ensures before { undone name_cmp log.new.items globals.new.content ≡ undone name_cmp log.old.items globals.old.content }
    ensures stamps { Rises globals.old globals.new }
    ensures others { KeepsStamps (is_to change.now) globals.old.stamps globals.new.stamps }
{
    match change {
        Change::Set(name, text) => exchange(globals, name.try_clone()?, text, log),
        Change::Kill(_) => Ok(()),
        Change::Put(name, nodes) => give_nodes(globals, name, nodes.as_slice(), log),
    }
}

// Gives texts to lists of subscripts behind a name, and logs what was there.
fn give_nodes(
    globals: &mut Globals,
    name: &Name,
    nodes: &[(Subs, Text)],
    log: &mut Log,
) -> Result<(), AllocError>
    ensures ok { OnOk result (globals.new.content ≡ after_put globals.old.content name.now nodes.now) }
    ensures before { undone name_cmp log.new.items globals.new.content ≡ undone name_cmp log.old.items globals.old.content }
    ensures stamps { Rises globals.old globals.new }
    ensures others { KeepsStamps (same_word name.now) globals.old.stamps globals.new.stamps }
{
    for node in nodes {
        let place = followed_by(name, &node.0)?;
        exchange(globals, place, &node.1, log)?;
    }
    Ok(())
}

// Gives a text to a name, and logs what was there.
fn exchange(globals: &mut Globals, name: Name, text: &Text, log: &mut Log) -> Result<(), AllocError>
    ensures ok { OnOk result (globals.new.content ≡ after_set globals.old.content name text.now) }
    ensures before { undone name_cmp log.new.items globals.new.content ≡ undone name_cmp log.old.items globals.old.content }
    ensures stamps { Rises globals.old globals.new }
    ensures others { KeepsStamps (same_word name) globals.old.stamps globals.new.stamps }
{
    globals.rises();
    let before = text_of(globals, &name)?;
    globals.set(&name, text)?;
    match log.push((name, before)) {
        Ok(()) => Ok(()),
        Err(refused) => {
            let (name, before) = refused.value;
            globals.restore(&name, before);
            Err(AllocError)
        }
    }
}

// The text of a name, for keeps.
fn text_of(globals: &Globals, name: &Name) -> Result<Option<Text>, AllocError>
    ensures { IfOk result (λ text. text ≡ value_at globals.now.content name.now) }
{
    Ok(match globals.value(name) {
        None => None,
        Some(text) => Some(text.try_clone()?),
    })
}

// Takes back what a log says.
fn undo(globals: &mut Globals, log: Log)
    ensures content { globals.new.content ≡ undone name_cmp log.items globals.old.content }
    ensures stamps { Rises globals.old globals.new }
{
    let mut left = log;
    while let Some((name, before)) = left.pop() {
        globals.restore(&name, before);
    }
}

// Takes the names that the changes take, but those that they give a text again. Where memory is wanting none is taken.
fn take_ungiven(
    globals: &mut Globals,
    alone: &Globals,
    changes: &[Change],
) -> Result<(), AllocError>
    ensures ok { OnOk result (globals.new.content ≡ taken_but_given alone.now.content globals.old.content changes.now) }
    ensures err { OnErr result (globals.new.content ≡ globals.old.content) }
    ensures stamps { Rises globals.old globals.new }
    ensures others { KeepsStamps (are_to changes.now) globals.old.stamps globals.new.stamps }
{
    if is_any_rewritten(alone, changes) {
        let names = ungiven(globals, alone, changes)?;
        take_each(globals, names.as_slice());
        return Ok(());
    }
    take_all(globals, changes);
    Ok(())
}

// The names that the changes take and don't give again.
fn ungiven(globals: &Globals, alone: &Globals, changes: &[Change]) -> Result<Vec<Name>, AllocError>
    ensures { IfOk result (λ names. names.items ≡ with_all_below alone.now.content globals.now.content [] (all_kills changes.now)) }
{
    let kills = kills(globals.allocator(), changes)?;
    let killed = kills.nodes()?;
    let mut names = Vec::new(globals.allocator());
    add_all_below(globals, alone, killed.as_slice(), &mut names)?;
    Ok(names)
}

// The names that KILLs name, each once.
fn kills(alloc: Global, changes: &[Change]) -> Result<Texts, AllocError>
    ensures { IfOk result (λ kills. kills ≡ all_kills changes.now) }
{
    let none = Text::new(alloc);
    let mut kills = Texts::new(alloc);
    for change in changes {
        if let Change::Kill(name) = change {
            kills.set(name, &none)?;
        }
    }
    Ok(kills)
}

// Puts the names at and below each of these, but those that are given again, to the end of a list.
fn add_all_below(
    globals: &Globals,
    alone: &Globals,
    killed: &[(Name, Text)],
    names: &mut Vec<Name>,
) -> Result<(), AllocError>
    ensures { OnOk result (names.new.items ≡ with_all_below alone.now.content globals.now.content names.old.items killed.now) }
{
    for kill in killed {
        let below = globals.subtree(&kill.0)?;
        add_each(alone, &kill.0, below.as_slice(), names)?;
    }
    Ok(())
}

// Puts the names of these nodes behind a name, but those that are given again, to the end of a list.
fn add_each(
    alone: &Globals,
    name: &Name,
    nodes: &[(Subs, Text)],
    names: &mut Vec<Name>,
) -> Result<(), AllocError>
    ensures { OnOk result (names.new.items ≡ with_below alone.now.content name.now names.old.items nodes.now) }
{
    for node in nodes {
        let place = followed_by(name, &node.0)?;
        add_ungiven(alone, place, names)?;
    }
    Ok(())
}

// Puts a name to the end of a list, but one that is given again.
fn add_ungiven(alone: &Globals, name: Name, names: &mut Vec<Name>) -> Result<(), AllocError>
    ensures { OnOk result (names.new.items ≡ with_ungiven alone.now.content names.old.items name) }
{
    if alone.value(&name).is_none() {
        names.push(name)?;
    }
    Ok(())
}

// Takes these names alone.
fn take_each(globals: &mut Globals, names: &[Name])
    ensures content { globals.new.content ≡ without_each globals.old.content names.now }
    ensures stamps { Rises globals.old globals.new }
    ensures others { KeepsStamps (are_of names.now) globals.old.stamps globals.new.stamps }
{
    for name in names {
        globals.restore(name, None);
    }
}

// Takes the names that the changes take.
fn take_all(globals: &mut Globals, changes: &[Change])
    ensures content { globals.new.content ≡ all_taken globals.old.content changes.now }
    ensures stamps { Rises globals.old globals.new }
    ensures others { KeepsStamps (are_to changes.now) globals.old.stamps globals.new.stamps }
{
    for change in changes {
        if let Change::Kill(name) = change {
            globals.kill(name);
        }
    }
}

// The name followed by more subscripts, for which there is room.
fn followed_by(name: &Name, list: &Subs) -> Result<Name, AllocError>
    ensures { IfOk result (λ n. n ≡ followed_by name.now list.now) }
{
    let mut subscripts = name.subscripts().try_clone()?;
    for sub in list.as_slice() {
        if subscripts.push(sub.try_clone()?).is_err() {
            return Err(AllocError);
        }
    }
    with(name, subscripts)
}
