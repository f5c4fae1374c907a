// The words of one kind, each with its tree.

ghost use Rattle.std.specs.Prelude.{◌≡◌, ◌↔◌, ◌++◌, if◌then◌else◌, Bool, option_copied, IsTrue, IfOk, IfErr, OnOk, OnErr, T};
ghost use Rattle.std.specs.FinMap.{put, is_sorted};
ghost use Rattle.std.specs.List.{list_all};
ghost use Rattle.std.specs.Map.{lookup, remove_entry};
ghost use Rattle.std.specs.BTreeMap.{is_at, insert_entry};
ghost use Rattle.std.specs.Ordering.{nat_cmp};
ghost use Rattle.std.specs.Cmp.Lexicographic.{slice_cmp};
ghost use Rattle.mj_subs.specs.Collation.{subscript_cmp, name_cmp};
ghost use Rattle.mj_store.specs.Changes.{after_set, after_kill, after_put};
ghost use Rattle.mj_tree.specs.Nest.{nodes_of, is_too_long};
ghost use Rattle.mj_tree.specs.Undo.{restored};
ghost use Rattle.mj_tree.specs.Walks.{StopsSo};
ghost use Rattle.mj_globs.specs.Within.{is_entry_within};
ghost use Rattle.mj_globs.specs.Words.{spelled, spelled_of, name, of_kind, of_word};
ghost use Rattle.mj_text.specs.declared.fault.Failure.TheVariants as failure;
ghost use Rattle.mj_text.specs.declared.fault.Fault.TheVariants as fault;

use mj_store::Nodes;
use mj_subs::{Name, Subs};
use mj_text::{Digits, Failure, Limit, Text};
use mj_tree::{Sink, SinkStop, Tree};
use std::alloc::{AllocError, Global};
use std::collections::BTreeMap;

/// Words by their bytes.
pub type Words = BTreeMap<Vec<u8>, Tree>;

/// The tree of a word.
pub fn find<'a>(words: &'a Words, word: &Text) -> Option<&'a Tree>
    ensures { option_copied result ≡ lookup (is_at (slice_cmp nat_cmp word.now)) (spelled words.now.entries) }
{
    let mut digits = Digits::new();
    words.get(word.bytes(&mut digits))
}

/// Gives a text to a list of subscripts of a word.
pub fn set(
    words: &mut Words,
    alloc: Global,
    word: &Text,
    path: &Subs,
    text: &Text,
) -> Result<(), AllocError>
    requires { T (is_sorted (slice_cmp nat_cmp) (spelled words.now.entries)) }
    ensures rises { T (is_sorted (slice_cmp nat_cmp) (spelled words.new.entries)) }
    ensures ok { OnOk result ((g : Bool) → spelled_of g words.new.entries ≡ after_set (spelled_of g words.old.entries) (name g word.now path.now) text.now) }
    ensures err { OnErr result (spelled words.new.entries ≡ spelled words.old.entries) }
{
    let mut digits = Digits::new();
    let key = word.bytes(&mut digits);
    match words.get_mut(key) {
        Some(tree) => tree.set(path, text),
        None => {
            let mut tree = Tree::new(alloc);
            tree.set(path, text)?;
            add(words, alloc, key, tree)
        }
    }
}

/// Takes a list of subscripts of a word and what stands below it out.
pub fn kill(words: &mut Words, word: &Text, path: &Subs)
    requires { T (is_sorted (slice_cmp nat_cmp) (spelled words.now.entries)) }
    ensures rises { T (is_sorted (slice_cmp nat_cmp) (spelled words.new.entries)) }
    ensures content { (g : Bool) → spelled_of g words.new.entries ≡ after_kill (spelled_of g words.old.entries) (name g word.now path.now) }
{
    let mut digits = Digits::new();
    let key = word.bytes(&mut digits);
    let Some(tree) = words.get_mut(key) else {
        return;
    };
    tree.kill(path);
    if tree.is_empty() {
        remove(words, key);
    }
}

/// Gives texts to lists of subscripts of a word that follow one. `Limit` where one would be too long.
pub fn put(
    words: &mut Words,
    alloc: Global,
    word: &Text,
    path: &Subs,
    nodes: &Nodes,
) -> Result<(), Failure>
    requires { T (is_sorted (slice_cmp nat_cmp) (spelled words.now.entries)) }
    ensures rises { T (is_sorted (slice_cmp nat_cmp) (spelled words.new.entries)) }
    ensures ok { OnOk result ((g : Bool) → spelled_of g words.new.entries ≡ after_put (spelled_of g words.old.entries) (name g word.now path.now) nodes.now) }
    ensures limit { (result ≡ Err (failure.Fault fault.Limit)) ↔ IsTrue (is_too_long path.now nodes.now) }
    ensures error { IfErr result (λ e. e ≡ (if is_too_long path.now nodes.now then failure.Fault fault.Limit else failure.Memory)) }
    ensures err { OnErr result (spelled words.new.entries ≡ spelled words.old.entries) }
{
    let mut digits = Digits::new();
    let key = word.bytes(&mut digits);
    match words.get_mut(key) {
        Some(tree) => tree.put(path, nodes),
        None => {
            let mut tree = Tree::new(alloc);
            tree.put(path, nodes)?;
            match add(words, alloc, key, tree) {
                Ok(()) => Ok(()),
                Err(_) => Err(Failure::Memory),
            }
        }
    }
}

/// Gives a text in place of its own to a list of subscripts of a word that has one, or takes it.
pub fn restore(words: &mut Words, word: &Text, path: &Subs, text: Option<Text>)
    requires { T (is_sorted (slice_cmp nat_cmp) (spelled words.now.entries)) }
    ensures rises { T (is_sorted (slice_cmp nat_cmp) (spelled words.new.entries)) }
    ensures content { (g : Bool) → spelled_of g words.new.entries ≡ restored name_cmp (name g word.now path.now) text (spelled_of g words.old.entries) }
{
    let mut digits = Digits::new();
    let key = word.bytes(&mut digits);
    let Some(found) = words.get_mut(key) else {
        return;
    };
    found.restore(path, text);
    if found.is_empty() {
        remove(words, key);
    }
}

/// A copy.
pub fn copy(words: &Words) -> Result<Words, AllocError>
    ensures { IfOk result (λ w. spelled w.entries ≡ spelled words.now.entries) }
{
    let copy = words.clone()?;
    Ok(copy)
}

/// Puts the names of a kind with these words to the end of a list, in order, each with its text.
pub fn gather(
    words: &Words,
    alloc: Global,
    global: bool,
    nodes: &mut Vec<(Name, Text)>,
) -> Result<(), AllocError>
    ensures { OnOk result (nodes.new.items ≡ nodes.old.items ++ of_kind global (spelled words.now.entries)) }
{
    for (word, tree) in words {
        gather_word(word.as_slice(), tree, alloc, global, nodes)?;
    }
    Ok(())
}

// Puts the names of one word to the end of a list.
fn gather_word(
    word: &[u8],
    tree: &Tree,
    alloc: Global,
    global: bool,
    nodes: &mut Vec<(Name, Text)>,
) -> Result<(), AllocError>
    ensures { OnOk result (nodes.new.items ≡ nodes.old.items ++ of_word global word.now tree.now) }
{
    let below = tree.subtree(&Subs::new(alloc))?;
    for node in below.as_slice() {
        let subscripts = node.0.try_clone()?;
        let name = name_of(word, alloc, global, subscripts)?;
        nodes.push((name, node.1.try_clone()?))?;
    }
    Ok(())
}

// The name of this kind with this word, which is a text.
fn name_of(word: &[u8], alloc: Global, global: bool, subscripts: Subs) -> Result<Name, AllocError>
    ensures { IfOk result (λ n. n ≡ name global word.now subscripts) }
{
    let Ok(word) = Text::from(alloc, word) else {
        return Err(AllocError);
    };
    Ok(if global {
        Name::global(word, subscripts)
    } else {
        Name::local(word, subscripts)
    })
}

/// Has a sink take the names of a kind with these words, in order, each with its text. It is told that the sink closed only where that did, behind what
/// was walked until then.
pub fn walk<S: Sink>(words: &Words, global: bool, sink: &mut S) -> Result<(), SinkStop>
    ensures taken { OnOk result (S.takes sink.old (of_kind global (spelled words.now.entries)) sink.new) }
    ensures closed { IfErr result (StopsSo S.closes sink.old (of_kind global (spelled words.now.entries)) sink.new) }
{
    for (word, tree) in words {
        tree.walk(global, word.as_slice(), sink)?;
    }
    Ok(())
}

/// Whether each subscript and each text of these words is one of this limit.
pub fn are_within(words: &Words, limit: Limit) -> bool
    ensures { (g : Bool) → result ≡ list_all (is_entry_within limit) (of_kind g (spelled words.now.entries)) }
{
    for (_, tree) in words {
        if !tree.is_within(limit) {
            return false;
        }
    }
    true
}

/// Adds a word, or puts another tree in place of that of the word.
pub fn add(words: &mut Words, alloc: Global, word: &[u8], tree: Tree) -> Result<(), AllocError>
    ensures ok { OnOk result (spelled words.new.entries ≡ insert_entry (slice_cmp nat_cmp) (spelled words.old.entries) word.now tree) }
    ensures err { OnErr result (spelled words.new.entries ≡ spelled words.old.entries) }
{
    words.insert(Vec::from_slice(alloc, word)?, tree)?;
    Ok(())
}

// Takes the word out, if it is there.
fn remove(words: &mut Words, word: &[u8])
    ensures { spelled words.new.entries ≡ remove_entry (is_at (slice_cmp nat_cmp word.now)) (spelled words.old.entries) }
{
    let _gone = words.remove(word);
}
