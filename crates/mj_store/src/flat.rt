// A store that is kept as a plain list.

ghost use Rattle.std.specs.Prelude.{◌≡◌, ◌||◌, ◌++◌, [], IfOk, IfErr, OnOk, OnErr, option_copied, T};
ghost use Rattle.std.specs.Cmp.Lexicographic.{slice_cmp};
ghost use Rattle.mj_store.specs.Changes.{after_set, after_kill, after_put, followed_by, IsPlaceOf, IsGapFor};
ghost use Rattle.std.specs.Ordering.{is_lt};
ghost use Rattle.std.specs.FinMap.{is_sorted, put};
ghost use Rattle.mj_subs.specs.Collation.{name_cmp, subscript_cmp};
ghost use Rattle.mj_store.specs.Nodes.{after_front, first_of, along, is_empty, next_after};
ghost use Rattle.mj_store.specs.Questions.{with_subscripts, rest_of, next_from, value_at, data_at, order_at, query_at, subtree_at};

use crate::nodes::Nodes;
use crate::store::{Direction, Store, is_too_deep};
use mj_subs::{Name, Sub, Subs};
use mj_text::{Failure, Fault, Text};
use std::alloc::{AllocError, Global};
use std::cmp::Ordering;
use std::marker::Model;

/// A store that keeps its names in a list and looks at each for every question: small, plain, and the measure for others.
#[derive(Drop)]
pub struct Flat {
    alloc: Global,
    entries: Vec<(Name, Text)>,
}

impl Model for Flat {
    ghost use Rattle.std.specs.Prelude.{T};
    ghost use Rattle.std.specs.FinMap.{is_sorted};
    ghost use Rattle.mj_subs.specs.Collation.{name_cmp};
    ghost use Rattle.mj_store.specs.Questions.{Content};

    ghost Value = { Content };

    ghost view = { λ f. f.entries.items };

    ghost invariant = { λ f. T (is_sorted name_cmp f.entries.items) };
}

impl Flat {
    /// A store without a name.
    pub fn new(alloc: Global) -> Flat
        ensures { result ≡ [] }
    {
        Flat {
            alloc,
            entries: Vec::new(alloc),
        }
    }

    /// Where its memory comes from.
    pub fn allocator(&self) -> Global {
        self.alloc
    }

    // A copy.
    fn try_clone(&self) -> Result<Flat, AllocError>
        ensures { IfOk result (λ f. f ≡ self.now) }
    {
        Ok(Flat {
            alloc: self.alloc,
            entries: self.entries.clone()?,
        })
    }
}

impl Store for Flat {
    ghost contents = { λ f. f };

    fn rises(&self) {
        let _entries = &self.entries; // for the proof
    }

    fn value(&self, name: &Name) -> Option<&Text> {
        value(&self.entries, name)
    }

    fn data(&self, name: &Name) -> u8 {
        data(&self.entries, name)
    }

    fn order(&self, name: &Name, direction: Direction) -> Option<&Sub> {
        let (last, front) = name.subscripts().as_slice().split_last()?;
        order(&self.entries, name, front, last, direction)
    }

    fn query(&self, name: &Name) -> Result<Option<Name>, AllocError> {
        match query(&self.entries, name) {
            None => Ok(None),
            Some(next) => Ok(Some(renamed(self.alloc, name, next)?)),
        }
    }

    fn subtree(&self, name: &Name) -> Result<Nodes, AllocError> {
        subtree(self.alloc, &self.entries, name)
    }

    fn set(&mut self, name: &Name, text: &Text) -> Result<(), AllocError> {
        set(&mut self.entries, name, text)
    }

    fn kill(&mut self, name: &Name) {
        kill(&mut self.entries, name);
    }

    fn put(&mut self, name: &Name, nodes: &Nodes) -> Result<(), Failure> {
        if is_too_deep(name, nodes.as_slice()) {
            return Err(Failure::Fault(Fault::Limit));
        }
        let mut changed = self.try_clone()?;
        for node in nodes.as_slice() {
            let name = followed(name, node.0.as_slice())?;
            changed.set(&name, &node.1)?;
        }
        *self = changed;
        Ok(())
    }
}

// The text of a name.
fn value<'a>(entries: &'a [(Name, Text)], name: &Name) -> Option<&'a Text>
    ensures { option_copied result ≡ value_at entries.now name.now }
{
    for entry in entries {
        if name.cmp(&entry.0).is_eq() {
            return Some(&entry.1);
        }
    }
    None
}

// Whether a text stands at the name, and whether one stands below it.
fn data(entries: &[(Name, Text)], name: &Name) -> u8
    ensures { result ≡ data_at entries.now name.now }
{
    let mut own = false;
    let mut below = false;
    for entry in entries {
        match after(name, name.subscripts().as_slice(), &entry.0) {
            None => {}
            Some([]) => own = true,
            Some([_, ..]) => below = true,
        }
    }
    match (own, below) {
        (false, false) => 0,
        (true, false) => 1,
        (false, true) => 10,
        (true, true) => 11,
    }
}

// The next subscript after the last of the name's, in a direction.
fn order<'a>(
    entries: &'a [(Name, Text)],
    name: &Name,
    front: &[Sub],
    last: &Sub,
    direction: Direction,
) -> Option<&'a Sub>
    ensures { option_copied result ≡ next_from direction last.now (subtree_at entries.now (with_subscripts name.now front.now)) }
{
    let mut best = None;
    for entry in entries {
        if let Some([next, ..]) = after(name, front, &entry.0) {
            if is_past(direction, last, next) {
                best = Some(nearer(direction, best, next));
            }
        }
    }
    best
}

// Whether a subscript stands past another in a direction. Past the empty one stands each.
fn is_past(direction: Direction, last: &Sub, next: &Sub) -> bool
    ensures { result ≡ (is_empty last.now || is_lt (along direction subscript_cmp last.now next.now)) }
{
    last.is_empty()
        || match direction {
            Direction::Forward => last.cmp(next).is_lt(),
            Direction::Backward => next.cmp(last).is_lt(),
        }
}

// Which of two subscripts comes first in a direction.
fn nearer<'a>(direction: Direction, best: Option<&'a Sub>, next: &'a Sub) -> &'a Sub
    ensures { Some result.now ≡ first_of (along direction subscript_cmp) (option_copied best.entry) next.now }
{
    match best {
        None => next,
        Some(best) => {
            let closer = match direction {
                Direction::Forward => next.cmp(best).is_lt(),
                Direction::Backward => best.cmp(next).is_lt(),
            };
            if closer { next } else { best }
        }
    }
}

// The least list of subscripts after the name's, of its kind and word.
fn query<'a>(entries: &'a [(Name, Text)], name: &Name) -> Option<&'a [Sub]>
    ensures { option_copied result ≡ next_after subscript_cmp name.now.subscripts (subtree_at entries.now (with_subscripts name.now [])) }
{
    let mut best: Option<&'a [Sub]> = None;
    for entry in entries {
        if let Some(next) = after(name, &[], &entry.0) {
            if compare(name.subscripts().as_slice(), next).is_lt() {
                best = Some(lesser(best, next));
            }
        }
    }
    best
}

// Which of two lists of subscripts comes first.
fn lesser<'a>(best: Option<&'a [Sub]>, next: &'a [Sub]) -> &'a [Sub]
    ensures { Some result.now ≡ first_of (slice_cmp subscript_cmp) (option_copied best.entry) next.now }
{
    match best {
        None => next,
        Some(best) => {
            if compare(next, best).is_lt() {
                next
            } else {
                best
            }
        }
    }
}

// How a list of subscripts stands to another, place by place.
fn compare(a: &[Sub], b: &[Sub]) -> Ordering
    ensures { result ≡ slice_cmp subscript_cmp a.now b.now }
{
    a.cmp(b)
}

// What stands at the name and below it.
fn subtree(alloc: Global, entries: &[(Name, Text)], name: &Name) -> Result<Nodes, AllocError>
    ensures { IfOk result (λ nodes. nodes ≡ subtree_at entries.now name.now) }
{
    let mut nodes = Nodes::new(alloc);
    for entry in entries {
        if let Some(rest) = after(name, name.subscripts().as_slice(), &entry.0) {
            nodes.push(subs_of(alloc, rest)?, entry.1.try_clone()?)?;
        }
    }
    Ok(nodes)
}

// Where the name stands, or else where it would go.
fn place(entries: &[(Name, Text)], name: &Name) -> Result<usize, usize>
    ensures found { IfOk result (IsPlaceOf name.now entries.now) }
    ensures absent { IfErr result (IsGapFor name.now entries.now) }
{
    for (i, entry) in entries.iter().enumerate() {
        match name.cmp(&entry.0) {
            Ordering::Less => return Err(i),
            Ordering::Equal => return Ok(i),
            Ordering::Greater => {}
        }
    }
    Err(entries.len())
}

// Gives the name a text.
fn set(entries: &mut Vec<(Name, Text)>, name: &Name, text: &Text) -> Result<(), AllocError>
    ensures ok { OnOk result (entries.new.items ≡ after_set entries.old.items name.now text.now) }
    ensures err { OnErr result (entries.new.items ≡ entries.old.items) }
{
    let text = text.try_clone()?;
    match place(entries, name) {
        Ok(at) => {
            let entry = &mut entries[at];
            entry.1 = text;
        }
        Err(at) => entries.insert(at, (name.try_clone()?, text))?,
    }
    Ok(())
}

// Takes the name and every name below it out.
fn kill(entries: &mut Vec<(Name, Text)>, name: &Name)
    ensures { entries.new.items ≡ after_kill entries.old.items name.now }
{
    entries.retain(|entry| after(name, name.subscripts().as_slice(), &entry.0).is_none());
}

// The name with these subscripts in place of its own.
fn renamed(alloc: Global, name: &Name, list: &[Sub]) -> Result<Name, AllocError>
    ensures { IfOk result (λ n. n ≡ with_subscripts name.now list.now) }
{
    like(name, subs_of(alloc, list)?)
}

// The name followed by more subscripts.
fn followed(name: &Name, more: &[Sub]) -> Result<Name, AllocError>
    ensures { IfOk result (λ n. n ≡ followed_by name.now more.now) }
{
    let mut list = name.subscripts().try_clone()?;
    extend(&mut list, more)?;
    like(name, list)
}

// A name of the kind and the word of another.
fn like(name: &Name, list: Subs) -> Result<Name, AllocError>
    ensures { IfOk result (λ n. n ≡ with_subscripts name.now list) }
{
    let word = name.word().try_clone()?;
    Ok(if name.is_global() {
        Name::global(word, list)
    } else {
        Name::local(word, list)
    })
}

// A list of these subscripts, of which there are no more than a list can have.
fn subs_of(alloc: Global, list: &[Sub]) -> Result<Subs, AllocError>
    ensures { IfOk result (λ s. s ≡ list.now) }
{
    let mut subs = Subs::new(alloc);
    extend(&mut subs, list)?;
    Ok(subs)
}

// Puts the subscripts at the end of a list in which there is room for them.
fn extend(list: &mut Subs, more: &[Sub]) -> Result<(), AllocError>
    ensures { OnOk result (list.new ≡ list.old ++ more.now) }
{
    for sub in more {
        if list.push(sub.try_clone()?).is_err() {
            return Err(AllocError);
        }
    }
    Ok(())
}

// The subscripts that a key has after those of `front`, where it is of the name's kind and word and begins with them.
fn after<'a>(name: &Name, front: &[Sub], key: &'a Name) -> Option<&'a [Sub]>
    ensures { option_copied result ≡ rest_of (with_subscripts name.now front.now) key.now }
{
    if name.is_global() != key.is_global() || name.word() != key.word() {
        return None;
    }
    strip(front, key.subscripts().as_slice())
}

/// What a list has behind a front, where it begins with it.
pub fn strip<'a>(front: &[Sub], list: &'a [Sub]) -> Option<&'a [Sub]>
    ensures { option_copied result ≡ after_front subscript_cmp front.now list.now }
{
    match front {
        [] => Some(list),
        [s, front @ ..] => match list {
            [] => None,
            [t, list @ ..] => match s.cmp(t) {
                Ordering::Equal => strip(front, list),
                _ => None,
            },
        },
    }
}
