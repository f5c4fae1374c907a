// What stands in the lists of a line: subscripts, names, nodes, values.

ghost use Rattle.std.specs.Prelude.{◌≡◌, true, IfOk};
ghost use Rattle.std.specs.Option.{option_map};
ghost use Rattle.mj_subs.specs.Name.{is_word};
ghost use Rattle.mj_trace.specs.Reading.{subscript_more, subscripts_in, name_on, name_in, name_more, names_in, node_in, node_more, subtree_in, value_in};
ghost use Rattle.mj_trace.specs.Reading.{value_more, values_in};

use crate::found::{Found, find_subscript, find_text};
use crate::lists::{List, read_all, read_closed};
use crate::run::{Run, begins_with, skip, split};
use mj_ask::Names;
use mj_store::Nodes;
use mj_subs::{Name, SUBSCRIPTS_LIMIT, SharedName, Sub, Subs, is_word};
use mj_text::Text;
use std::alloc::{AllocError, Global};
use std::marker::Model;

impl List for Subs {
    ghost one = { subscript_more };

    fn more<'a>(&mut self, alloc: Global, bytes: &'a [u8]) -> Result<Option<&'a [u8]>, AllocError> {
        let Some((sub, rest)) = find_subscript(alloc, bytes)? else {
            return Ok(None);
        };
        if self.len() >= SUBSCRIPTS_LIMIT {
            drop(sub);
            return Ok(None);
        }
        match self.push(sub) {
            Ok(()) => Ok(Some(rest)),
            Err(_) => Err(AllocError),
        }
    }
}

/// Finds the subscripts behind `(`.
pub(crate) fn find_subscripts<'a>(
    alloc: Global,
    bytes: &'a [u8],
) -> Result<Found<'a, Subs>, AllocError>
    ensures { IfOk result (λ r. option_map (λ p. (p.0, p.1.now)) r ≡ subscripts_in bytes.now) }
{
    read_closed(alloc, Subs::new(alloc), b')', bytes)
}

/// Finds the name at the front.
pub(crate) fn find_name<'a>(alloc: Global, bytes: &'a [u8]) -> Result<Found<'a, Name>, AllocError>
    ensures { IfOk result (λ r. option_map (λ p. (p.0, p.1.now)) r ≡ name_in bytes.now) }
{
    if begins_with(b'^', bytes) {
        find_name_of(alloc, true, skip(bytes))
    } else {
        find_name_of(alloc, false, bytes)
    }
}

/// Finds the name at the front, for what shares it.
pub(crate) fn find_shared_name<'a>(
    alloc: Global,
    bytes: &'a [u8],
) -> Result<Found<'a, SharedName>, AllocError>
    ensures { IfOk result (λ r. option_map (λ p. (p.0, p.1.now)) r ≡ name_in bytes.now) }
{
    match find_name(alloc, bytes)? {
        Some((name, rest)) => Ok(Some((SharedName::new(alloc, name)?, rest))),
        None => Ok(None),
    }
}

// Finds a name of this kind, behind its `^`.
fn find_name_of<'a>(
    alloc: Global,
    global: bool,
    bytes: &'a [u8],
) -> Result<Found<'a, Name>, AllocError>
    ensures { IfOk result (λ r. option_map (λ p. (p.0, p.1.now)) r ≡ name_on global bytes.now) }
{
    let (word, behind) = split(bytes, Run::Word);
    if !is_word(word) {
        return Ok(None);
    }
    let (subs, rest) = if begins_with(b'(', behind) {
        match find_subscripts(alloc, skip(behind))? {
            Some(read) => read,
            None => return Ok(None),
        }
    } else {
        (Subs::new(alloc), behind)
    };
    let name = name_of(alloc, global, word, subs)?;
    Ok(Some((name, rest)))
}

// Makes the name of this kind with this word.
fn name_of(alloc: Global, global: bool, word: &[u8], subs: Subs) -> Result<Name, AllocError>
    requires { is_word word.now ≡ true }
    ensures { IfOk result (λ name. name ≡ record { global = global; word = word.now; subscripts = subs }) }
{
    let word = match Text::from(alloc, word) {
        Ok(word) => word,
        Err(_) => return Err(AllocError),
    };
    Ok(if global {
        Name::global(word, subs)
    } else {
        Name::local(word, subs)
    })
}

impl List for Names {
    ghost one = { name_more };

    fn more<'a>(&mut self, alloc: Global, bytes: &'a [u8]) -> Result<Option<&'a [u8]>, AllocError> {
        let Some((name, rest)) = find_name(alloc, bytes)? else {
            return Ok(None);
        };
        self.push(name)?;
        Ok(Some(rest))
    }
}

/// Finds the names at the front.
pub(crate) fn find_names<'a>(alloc: Global, bytes: &'a [u8]) -> Result<Found<'a, Names>, AllocError>
    ensures { IfOk result (λ r. option_map (λ p. (p.0, p.1.now)) r ≡ names_in bytes.now) }
{
    let Some((name, behind)) = find_name(alloc, bytes)? else {
        return Ok(None);
    };
    let mut names = Names::one(alloc, name)?;
    if !begins_with(b',', behind) {
        return Ok(Some((names, behind)));
    }
    match read_all(alloc, &mut names, skip(behind)) {
        Ok(Some(rest)) => Ok(Some((names, rest))),
        Ok(None) => {
            drop(names);
            Ok(None)
        }
        Err(refused) => {
            drop(names);
            Err(refused)
        }
    }
}

// Finds the node at the front: its subscripts, and its text.
fn find_node<'a>(alloc: Global, bytes: &'a [u8]) -> Result<Found<'a, (Subs, Text)>, AllocError>
    ensures { IfOk result (λ r. option_map (λ p. (p.0, p.1.now)) r ≡ node_in bytes.now) }
{
    let Some((place, behind)) = find_subscripts(alloc, skip(bytes))? else {
        return Ok(None);
    };
    match find_text(alloc, skip(behind)) {
        Ok(Some((text, rest))) => Ok(Some(((place, text), rest))),
        Ok(None) => {
            drop(place);
            Ok(None)
        }
        Err(refused) => {
            drop(place);
            Err(refused)
        }
    }
}

impl List for Nodes {
    ghost one = { node_more };

    fn more<'a>(&mut self, alloc: Global, bytes: &'a [u8]) -> Result<Option<&'a [u8]>, AllocError> {
        let Some((node, rest)) = find_node(alloc, bytes)? else {
            return Ok(None);
        };
        let (place, text) = node;
        self.push(place, text)?;
        Ok(Some(rest))
    }
}

/// Finds the nodes in braces at the front.
pub(crate) fn find_subtree<'a>(
    alloc: Global,
    bytes: &'a [u8],
) -> Result<Found<'a, Nodes>, AllocError>
    ensures { IfOk result (λ r. option_map (λ p. (p.0, p.1.now)) r ≡ subtree_in bytes.now) }
{
    read_closed(alloc, Nodes::new(alloc), b'}', skip(bytes))
}

// Finds the value at the front.
fn find_value<'a>(alloc: Global, bytes: &'a [u8]) -> Result<Found<'a, Option<Text>>, AllocError>
    ensures { IfOk result (λ r. option_map (λ p. (p.0, p.1.now)) r ≡ value_in bytes.now) }
{
    if begins_with(b'-', bytes) {
        return Ok(Some((None, skip(bytes))));
    }
    match find_text(alloc, bytes)? {
        Some((text, rest)) => Ok(Some((Some(text), rest))),
        None => Ok(None),
    }
}

/// The values that a job starts with.
#[derive(Drop)]
pub(crate) struct Values {
    pub(crate) list: Vec<Option<Text>>,
}

impl Model for Values {
    ghost use Rattle.std.specs.Prelude.{List, ℕ, Option};

    ghost Value = { List (Option (List ℕ)) };

    ghost view = { λ v. v.list.items };
}

impl List for Values {
    ghost one = { value_more };

    fn more<'a>(&mut self, alloc: Global, bytes: &'a [u8]) -> Result<Option<&'a [u8]>, AllocError> {
        let Some((value, rest)) = find_value(alloc, bytes)? else {
            return Ok(None);
        };
        self.list.push(value)?;
        Ok(Some(rest))
    }
}

impl Values {
    /// Gives the values for keeps.
    pub(crate) fn into_list(self) -> Vec<Option<Text>>
        ensures { result.items ≡ self }
    {
        self.list
    }
}

/// Finds the values in parentheses at the front.
pub(crate) fn find_values<'a>(
    alloc: Global,
    bytes: &'a [u8],
) -> Result<Found<'a, Values>, AllocError>
    ensures { IfOk result (λ r. option_map (λ p. (p.0, p.1.now)) r ≡ values_in bytes.now) }
{
    let none = Values {
        list: Vec::new(alloc),
    };
    read_closed(alloc, none, b')', skip(bytes))
}
