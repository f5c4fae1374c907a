// What a transaction sees.
//
// A read depends on what stands at one name and below it: at the name itself for a text, `$DATA` and a subtree, one level above it for
// `$ORDER`, and on the whole word for `$QUERY`.

ghost use Rattle.std.specs.Prelude.{◌≡◌, ◌+◌, false, cond, IfOk};
ghost use Rattle.mj_store.specs.Questions.{with_subscripts, value_at, data_at, order_at, query_at};
ghost use Rattle.mj_store.specs.Runs.{answer_of};
ghost use Rattle.mj_txlog.specs.Accesses.{Accesses, is_write, seen, front_of};
ghost use Rattle.mj_txlog.specs.Sight.{reach_of};
ghost use Rattle.mj_txlog.specs.Laid.{IsLaid, went, data_either};
ghost use Rattle.mj_txlog.specs.Skips.{AreSkips, KeepSkips};

use crate::below::seen_below;
use crate::entry::Entry;
use crate::names::cut_to;
use crate::next::{first_sub, next_below};
use crate::overlay::{Overlay, data_either};
use crate::query::query;
use crate::skips::Skips;
use mj_globs::Texts;
use mj_store::{Access, Answer, Direction, Store};
use mj_subs::{Name, SharedName, Sub};
use mj_text::Text;
use std::alloc::{AllocError, Global};

/// The answer to a read on the globals as they are, with the writes among these accesses made on them. The overlay has these writes.
pub fn answer(
    alloc: Global,
    globals: &Texts,
    earlier: &[Entry],
    own: &Overlay,
    skips: &mut Skips,
    read: &Access,
) -> Result<Answer, AllocError>
    requires read { is_write read.now ≡ false }
    requires own { IsLaid own.now earlier.now }
    requires skips { AreSkips globals.now own.now.gone skips.old }
    ensures answer { IfOk result (λ a. a ≡ answer_of read.now (seen globals.now earlier.now)) }
    ensures skips { AreSkips globals.now own.now.gone skips.new }
{
    match read {
        Access::Value(name) => {
            let text = own.text(globals, name.get())?;
            Ok(Answer::Value(text))
        }
        _ => seen_answer(alloc, globals, own, skips, read),
    }
}

// The answer to a read, by what stands at the name on which it depends and below it.
fn seen_answer(
    alloc: Global,
    globals: &Texts,
    own: &Overlay,
    skips: &mut Skips,
    read: &Access,
) -> Result<Answer, AllocError>
    requires read { is_write read.now ≡ false }
    requires skips { KeepSkips globals.now own.now skips.old }
    ensures skips { KeepSkips globals.now own.now skips.new }
    ensures answer { IfOk result (λ a. (es : Accesses) → IsLaid own.now es → a ≡ answer_of read.now (seen globals.now es)) }
{
    let reach = reach_of(alloc, read)?;
    let answer = answer_at(globals, own, skips, read, &reach);
    drop(reach); // for the proof
    answer
}

// The answer to a read, where the name on which it depends is at hand.
fn answer_at(
    globals: &Texts,
    own: &Overlay,
    skips: &mut Skips,
    read: &Access,
    reach: &Name,
) -> Result<Answer, AllocError>
    requires read { is_write read.now ≡ false }
    requires reach { reach.now ≡ reach_of read.now }
    requires skips { KeepSkips globals.now own.now skips.old }
    ensures skips { KeepSkips globals.now own.now skips.new }
    ensures answer { IfOk result (λ a. (es : Accesses) → IsLaid own.now es → a ≡ answer_of read.now (seen globals.now es)) }
{
    globals.rises();
    if own.went(reach)? {
        return look(own.over(), read);
    }
    if own.is_clear(reach) {
        return look(globals, read);
    }
    match read {
        Access::Data(shared) => {
            let name = shared.get();
            Ok(Answer::Data(data_seen(globals, own, skips, name)?))
        }
        Access::Order(name, way) => Ok(Answer::Order(order(
            globals,
            own,
            skips,
            name.get(),
            *way,
            reach,
        )?)),
        Access::Query(name) => match query(globals, own, skips, name.get())? {
            Some(next) => Ok(Answer::Query(SharedName::if_some(globals.allocator(), next)?)),
            None => answer_among(globals, own, read, reach),
        },
        _ => answer_among(globals, own, read, reach),
    }
}

// What `$DATA` says of a name that didn't go, and none above it.
fn data_seen(
    globals: &Texts,
    own: &Overlay,
    skips: &mut Skips,
    name: &Name,
) -> Result<u8, AllocError>
    requires stays { went own.now.gone name.now ≡ false }
    requires skips { KeepSkips globals.now own.now skips.old }
    ensures skips { KeepSkips globals.now own.now skips.new }
    ensures data { IfOk result (λ d. (es : Accesses) → IsLaid own.now es → d ≡ data_at (seen globals.now es) name.now) }
{
    if own.is_any_gone(name) {
        return data(globals, own, skips, name);
    }
    Ok(data_of_both(globals, own, name))
}

// What `$DATA` says of a name by what was given and by the globals.
fn data_of_both(globals: &Texts, own: &Overlay, name: &Name) -> u8
    ensures { result ≡ data_either (data_at own.now.over name.now) (data_at globals.now name.now) }
{
    data_either(own.over().data(name), globals.data(name))
}

// Whether a text stands at the name, and whether one stands below it.
fn data(globals: &Texts, own: &Overlay, skips: &mut Skips, name: &Name) -> Result<u8, AllocError>
    requires { KeepSkips globals.now own.now skips.old }
    ensures skips { KeepSkips globals.now own.now skips.new }
    ensures data { IfOk result (λ d. (es : Accesses) → IsLaid own.now es → d ≡ data_at (seen globals.now es) name.now) }
{
    let here = own.is_text(globals, name)?;
    let below = first_sub(globals, own, skips, name)?;
    let digits = digits_of(here, below.is_some());
    Ok(digits)
}

// `$DATA` of a name with a text there, and with one below it.
fn digits_of(here: bool, below: bool) -> u8
    ensures { result ≡ cond here 1 0 + cond below 10 0 }
{
    match (here, below) {
        (false, false) => 0,
        (true, false) => 1,
        (false, true) => 10,
        (true, true) => 11,
    }
}

// The next subscript in place of the name's last one.
fn order(
    globals: &Texts,
    own: &Overlay,
    skips: &mut Skips,
    name: &Name,
    way: Direction,
    front: &Name,
) -> Result<Option<Sub>, AllocError>
    requires front { front.now ≡ with_subscripts name.now (front_of name.now.subscripts) }
    requires skips { KeepSkips globals.now own.now skips.old }
    ensures skips { KeepSkips globals.now own.now skips.new }
    ensures next { IfOk result (λ next. (es : Accesses) → IsLaid own.now es → next ≡ order_at (seen globals.now es) name.now way) }
{
    match name.subscripts().as_slice() {
        [] => Ok(None),
        [.., last] => next_below(globals, own, skips, front, last, way),
    }
}

// The answer to a read where own writes are among what it depends on.
fn answer_among(
    globals: &Texts,
    own: &Overlay,
    read: &Access,
    reach: &Name,
) -> Result<Answer, AllocError>
    requires read { is_write read.now ≡ false }
    requires reach { reach.now ≡ reach_of read.now }
    ensures { IfOk result (λ a. (es : Accesses) → IsLaid own.now es → a ≡ answer_of read.now (seen globals.now es)) }
{
    globals.rises();
    let below = seen_below(globals, own, reach)?;
    below.rises();
    let found = look(&below, read);
    drop(below); // for the proof
    found
}

// The answer to a read.
fn look(globals: &Texts, read: &Access) -> Result<Answer, AllocError>
    requires { is_write read.now ≡ false }
    ensures { IfOk result (λ a. a ≡ answer_of read.now globals.now) }
{
    Ok(match read {
        Access::Value(name) => Answer::Value(text_of(globals, name.get())?),
        Access::Data(name) => Answer::Data(globals.data(name.get())),
        Access::Order(name, direction) => match globals.order(name.get(), *direction) {
            None => Answer::Order(None),
            Some(next) => Answer::Order(Some(next.try_clone()?)),
        },
        Access::Query(name) => Answer::Query(next_name(globals, name.get())?),
        Access::Subtree(name) => Answer::Subtree(globals.subtree(name.get())?),
        Access::Set(_, _) | Access::Kill(_) | Access::Put(_, _) => unreachable!(),
    })
}

// The next name with a text.
fn next_name(globals: &Texts, name: &Name) -> Result<Option<SharedName>, AllocError>
    ensures { IfOk result (λ next. next ≡ query_at globals.now name.now) }
{
    SharedName::if_some(globals.allocator(), globals.query(name)?)
}

// The name on which, and on what stands below which, a read depends.
fn reach_of(alloc: Global, read: &Access) -> Result<Name, AllocError>
    ensures { IfOk result (λ n. n ≡ reach_of read.now) }
{
    match read {
        Access::Order(name, _) => {
            let name = name.get();
            cut_to(alloc, name, front_of(name.subscripts().as_slice()))
        }
        Access::Query(name) => cut_to(alloc, name.get(), &[]),
        _ => read.name().try_clone(),
    }
}

// All subscripts but the last.
fn front_of<'a>(list: &'a [Sub]) -> &'a [Sub]
    ensures { result.now ≡ front_of list.now }
{
    match list {
        [] => list,
        [front @ .., _] => front,
    }
}

// The text of a name, for keeps.
fn text_of(globals: &Texts, name: &Name) -> Result<Option<Text>, AllocError>
    ensures { IfOk result (λ text. text ≡ value_at globals.now name.now) }
{
    Ok(match globals.value(name) {
        None => None,
        Some(text) => Some(text.try_clone()?),
    })
}
