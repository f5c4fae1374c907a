// What NEW hides, and what undoing it shows again.

ghost use Rattle.std.specs.Prelude.{◌≡◌, ◌<◌, ℕ, [], None, Some, OnOk, OnErr, IfOk, List, length, map, take};
ghost use Rattle.std.specs.Option.{option_map};
ghost use Rattle.mj_semantics.specs.State.{bound};
ghost use Rattle.mj_locals.specs.Groups.{newest, spared_by, rest, with_new_group, saved};
ghost use Rattle.mj_locals.specs.Held.{after_unwind};
ghost use Rattle.mj_locals.specs.Kept.{named, held_of, HavePlaces, CanBeUndone};
ghost use Rattle.mj_locals.specs.Trees.{at, placed, word_at, content};
ghost use Rattle.mj_locals.specs.Hiding.{Grows, Hides, HidesOnly, HidesOthers, all_put, kept_of};

use crate::table::{Table, is_among};
use crate::trail::Trail;
use mj_text::Text;
use mj_tree::Tree;
use std::alloc::{AllocError, Global};

/// The trees of these words go into a new group. After an `Err` the trees are as they were.
pub fn hide(
    table: &mut Table,
    trail: &mut Trail,
    alloc: Global,
    words: &[Text],
) -> Result<(), AllocError>
    ensures ok { OnOk result (HidesOnly words.now table.old table.new trail.old trail.new) }
    ensures trail { OnErr result (trail.new ≡ trail.old) }
    ensures grows { Grows table.old table.new }
    ensures err { OnErr result ((v : List ℕ) → at table.new v ≡ at table.old v) }
{
    trail.begin(None)?;
    match hide_words(table, trail, alloc, words) {
        Ok(()) => Ok(()),
        Err(_) => {
            put_back(table, trail);
            Err(AllocError)
        }
    }
}

// The trees of these words go into the newest group, which is empty. After an `Err` those of some have gone.
fn hide_words(
    table: &mut Table,
    trail: &mut Trail,
    alloc: Global,
    words: &[Text],
) -> Result<(), AllocError>
    requires { trail.old ≡ with_new_group None (rest trail.old) }
    ensures ok { OnOk result (HidesOnly words.now table.old table.new (rest trail.old) trail.new) }
    ensures err { OnErr result (Hides None table.old table.new (rest trail.old) trail.new) }
{
    for word in words {
        let place = table.make_room(word)?;
        trail.hide(table, alloc, place)?;
    }
    Ok(())
}

/// The trees of all words but these go into a new group. After an `Err` the trees are as they were.
pub fn hide_others(
    table: &mut Table,
    trail: &mut Trail,
    alloc: Global,
    words: &[Text],
) -> Result<(), AllocError>
    ensures ok { OnOk result (HidesOthers words.now table.old table.new trail.old trail.new) }
    ensures trail { OnErr result (trail.new ≡ trail.old) }
    ensures grows { Grows table.old table.new }
    ensures err { OnErr result ((v : List ℕ) → at table.new v ≡ at table.old v) }
{
    let kept = copied(alloc, words)?;
    trail.begin(Some(kept))?;
    match hide_all_but(table, trail, alloc, words) {
        Ok(()) => Ok(()),
        Err(_) => {
            put_back(table, trail);
            Err(AllocError)
        }
    }
}

// The trees of all words but these go into the newest group, which is empty. After an `Err` those of some have gone.
fn hide_all_but(
    table: &mut Table,
    trail: &mut Trail,
    alloc: Global,
    words: &[Text],
) -> Result<(), AllocError>
    requires { trail.old ≡ with_new_group (Some words.now) (rest trail.old) }
    ensures ok { OnOk result (HidesOthers words.now table.old table.new (rest trail.old) trail.new) }
    ensures err { OnErr result (Hides (Some words.now) table.old table.new (rest trail.old) trail.new) }
{
    for place in 0..table.len() {
        if !is_among(table.word(place), words) {
            trail.hide(table, alloc, place)?;
        }
    }
    Ok(())
}

/// The words of the newest group get these values, one by one.
pub fn give(table: &mut Table, trail: &Trail, values: &mut [Option<Text>])
    requires { HavePlaces (length table.old) (newest trail.now) }
    ensures content { content table.new ≡ bound (map (λ k. k.0) (named table.old (newest trail.now))) values.old (content table.old) }
    ensures grows { Grows table.old table.new }
{
    for index in 0..trail.len().min(values.len()) {
        table.rises();
        if let Some(value) = values[index].take() {
            table.give(trail.place(index), value);
        }
    }
}

/// The newest group is undone. It takes no memory.
pub fn show(table: &mut Table, trail: &mut Trail)
    requires { HavePlaces (length table.old) (newest trail.old) }
    ensures table { table.new ≡ all_put (named table.old (newest trail.old)) (kept_of (spared_by trail.old) table.old) }
    ensures trail { trail.new ≡ rest trail.old }
{
    // words that came since have no tree any more
    if let Some(words) = trail.kept() {
        table.spare(words);
    }
    put_back(table, trail);
}

/// What was saved above a height is put back, the newest first. It takes no memory.
pub fn unwind(table: &mut Table, trail: &mut Trail, height: usize)
    requires { CanBeUndone table.old trail.old }
    ensures held { held_of table.new trail.new ≡ after_unwind height (held_of table.old trail.old) }
    ensures kept { CanBeUndone table.new trail.new }
    ensures grows { Grows table.old table.new }
{
    while trail.height() > height {
        table.rises();
        trail.rises();
        show(table, trail);
        table.rises();
    }
}

// The trees of the newest group go back to their places, the newest first, and the group ends.
fn put_back(table: &mut Table, trail: &mut Trail)
    requires { HavePlaces (length table.old) (newest trail.old) }
    ensures table { table.new ≡ all_put (named table.old (newest trail.old)) table.old }
    ensures trail { trail.new ≡ rest trail.old }
{
    while let Some((place, tree)) = trail.pop() {
        drop(table.exchange(place, tree));
    }
    trail.end();
}

// A copy of the words.
fn copied(alloc: Global, words: &[Text]) -> Result<Vec<Text>, AllocError>
    ensures { IfOk result (λ list. list.items ≡ words.now) }
{
    let mut list = Vec::with_capacity(alloc, words.len())?;
    for word in words {
        list.push(word.try_clone()?)?;
    }
    Ok(list)
}
