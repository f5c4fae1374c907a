// What asks and replies hold, compared: accesses, clashes, starts, names.

ghost use Rattle.std.specs.Prelude.{◌≡◌, ◌↔◌, IsTrue};

use crate::clash::{Clash, Kept};
use crate::entry::Entry;
use crate::start::Start;
use mj_store::{Access, are_same_nodes};
use mj_subs::Name;
use mj_text::Text;

// Whether the accesses are the same.
pub(crate) fn is_same_access(one: &Access, other: &Access) -> bool
    ensures { IsTrue result ↔ (one.now ≡ other.now) }
{
    match (one, other) {
        (Access::Value(a), Access::Value(b)) => is_same_name(a.get(), b.get()),
        (Access::Data(a), Access::Data(b)) => is_same_name(a.get(), b.get()),
        (Access::Order(a, c), Access::Order(b, d)) => is_same_name(a.get(), b.get()) && c == d,
        (Access::Query(a), Access::Query(b)) => is_same_name(a.get(), b.get()),
        (Access::Subtree(a), Access::Subtree(b)) => is_same_name(a.get(), b.get()),
        (Access::Set(a, c), Access::Set(b, d)) => is_same_name(a.get(), b.get()) && c == d,
        (Access::Kill(a), Access::Kill(b)) => is_same_name(a.get(), b.get()),
        (Access::Put(a, c), Access::Put(b, d)) => {
            is_same_name(a.get(), b.get()) && are_same_nodes(c.as_slice(), d.as_slice())
        }
        _ => false,
    }
}

// Whether the clashes are the same.
pub(crate) fn is_same_clash(one: &Clash, other: &Clash) -> bool
    ensures { IsTrue result ↔ (one.entry.now ≡ other.entry.now) }
{
    one.place == other.place
        && is_same_kept(&one.then, &other.then)
        && is_same_kept(&one.now, &other.now)
}

// Whether the same is kept.
fn is_same_kept(one: &Kept, other: &Kept) -> bool
    ensures { IsTrue result ↔ (one.now ≡ other.now) }
{
    match (one, other) {
        (Kept::Nothing, Kept::Nothing) => true,
        (Kept::Text(a), Kept::Text(b)) => a == b,
        (Kept::Number(a), Kept::Number(b)) => a == b,
        (Kept::Name(a), Kept::Name(b)) => is_same_name(a.get(), b.get()),
        (Kept::Subtree(a), Kept::Subtree(b)) => are_same_nodes(a.as_slice(), b.as_slice()),
        _ => false,
    }
}

/// Whether the starts are the same.
pub fn is_same_start(one: &Start, other: &Start) -> bool
    ensures { IsTrue result ↔ (one.now ≡ other.now) }
{
    is_same_entry(one.entry(), other.entry()) && are_same_values(one.values(), other.values())
}

// Whether the entries are the same.
fn is_same_entry(one: &Entry, other: &Entry) -> bool
    ensures { IsTrue result ↔ (one.now ≡ other.now) }
{
    one.label == other.label && one.routine == other.routine
}

// Whether the values are the same.
fn are_same_values(one: &[Option<Text>], other: &[Option<Text>]) -> bool
    ensures { IsTrue result ↔ (one.now ≡ other.now) }
{
    if one.len() != other.len() {
        return false;
    }
    for (i, value) in one.iter().enumerate() {
        if !is_same_value(value, &other[i]) {
            return false;
        }
    }
    true
}

// Whether the two values are the same, if they are there.
fn is_same_value(one: &Option<Text>, other: &Option<Text>) -> bool
    ensures { IsTrue result ↔ (one.now ≡ other.now) }
{
    match (one, other) {
        (None, None) => true,
        (Some(a), Some(b)) => a == b,
        _ => false,
    }
}

// Whether the names are the same.
pub(crate) fn are_same_names(one: &[Name], other: &[Name]) -> bool
    ensures { IsTrue result ↔ (one.now ≡ other.now) }
{
    if one.len() != other.len() {
        return false;
    }
    for (i, name) in one.iter().enumerate() {
        if !is_same_name(name, &other[i]) {
            return false;
        }
    }
    true
}

// Whether the names are the same.
fn is_same_name(one: &Name, other: &Name) -> bool
    ensures { IsTrue result ↔ (one.now ≡ other.now) }
{
    one == other
}
