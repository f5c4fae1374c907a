// What stands next among what a transaction sees.
//
// The own texts are all seen. So of two subscripts, the next one among them and the next one in the globals below which something is left of the
// own kills, the first is the answer. One of the globals below which nothing is left is passed over, whatever stood below it, and with it all that
// reads before it passed over on from there (`skips.rt`).

ghost use Rattle.std.specs.Prelude.{◌≡◌, Some, ◌∷◌, [], true, false, not, nat_eq, nat_lt, length, ◌<◌, IfOk, IfNone};
ghost use Rattle.std.specs.Option.{IfSome};
ghost use Rattle.mj_subs.specs.Collation.{subscript_cmp};
ghost use Rattle.mj_store.specs.declared.store.Direction.TheVariants as way;
ghost use Rattle.mj_store.specs.Nodes.{along};
ghost use Rattle.mj_store.specs.Questions.{Content, order_at, data_at};
ghost use Rattle.mj_store.specs.Changes.{followed_by};
ghost use Rattle.mj_txlog.specs.Accesses.{Accesses, seen};
ghost use Rattle.mj_txlog.specs.Laid.{IsLaid, IsSeen, IsSeenNext, is_before};
ghost use Rattle.mj_txlog.specs.Skips.{IsBare, AreAllBare, AreSkips, IsJump, KeepSkips, KeepsAlong, KeepsPassed};
ghost use Rattle.mj_txlog.specs.Steps.{IsStep, IsFound, IsMove, IsNextBefore, IsNoneBefore};

use crate::below::seen_below;
use crate::log::ACCESSES_LIMIT;
use crate::names::{cut_to, with_one};
use crate::overlay::Overlay;
use crate::skips::Skips;
use mj_globs::Texts;
use mj_store::{Direction, Store};
use mj_subs::{Name, SUBSCRIPTS_LIMIT, Sub};
use mj_text::Text;
use std::alloc::{AllocError, Global};

// What a step over the globals comes to.
#[derive(Drop)]
enum StepOutcome {
    // the own text at hand stands next
    Own,
    // this subscript of the globals does
    Other(Sub),
    // all that the step went over is passed over
    Passed,
    // it can't go on: the subscript that it would go to is blank, which stands for the first one
    Unclear,
}

// The next subscript below a name, in a direction; the first one, from the empty subscript. Each that is passed over was killed, or what stood below it was, by
// kills of its own, of which there are no more than accesses: what is copied, where steps find nothing, is for none that the language can make.
#[cycle(ahead)]
pub(crate) fn next_below(
    globals: &Texts,
    own: &Overlay,
    skips: &mut Skips,
    front: &Name,
    from: &Sub,
    way: Direction,
) -> Result<Option<Sub>, AllocError>
    requires { KeepSkips globals.now own.now skips.old }
    ensures next { IfOk result (λ next. IsSeenNext globals.now own.now front.now from.now way next) }
    ensures skips { KeepSkips globals.now own.now skips.new }
{
    if front.subscripts().len() < SUBSCRIPTS_LIMIT {
        let mine = next_in(own.over(), front, from, way)?;
        return match next_of_both(globals, own, skips, front, from, &mine, way) {
            Ok(StepOutcome::Own) => Ok(mine),
            Ok(StepOutcome::Other(next)) => {
                drop(mine); // for the proof
                Ok(Some(next))
            }
            Ok(StepOutcome::Passed | StepOutcome::Unclear) => {
                drop(mine); // for the proof
                next_copied(globals, own, front, from, way)
            }
            Err(refused) => {
                drop(mine); // for the proof
                Err(refused)
            }
        };
    }
    if is_leaf(own.over(), front) && is_leaf(globals, front) {
        return Ok(None);
    }
    next_copied(globals, own, front, from, way)
}

// Which of two stands next: the own text at hand, or one of the globals.
#[cycle(ahead)]
fn next_of_both(
    globals: &Texts,
    own: &Overlay,
    skips: &mut Skips,
    front: &Name,
    from: &Sub,
    mine: &Option<Sub>,
    way: Direction,
) -> Result<StepOutcome, AllocError>
    requires skips { KeepSkips globals.now own.now skips.old }
    requires room { length front.now.subscripts < SUBSCRIPTS_LIMIT }
    requires mine { mine.now ≡ order_at own.now.over (followed_by front.now (from.now ∷ [])) way }
    ensures found { IfOk result (λ found. IsFound globals.now own.now front.now from.now way mine.now found) }
    ensures skips { KeepSkips globals.now own.now skips.new }
{
    if own.went(front)? || is_covered(globals.allocator(), skips, front)? {
        return Ok(StepOutcome::Own);
    }
    let mut at = from.try_clone()?;
    let found = pass_over(globals, own, skips, front, &mut at, mine, way);
    drop(at); // for the proof
    found
}

// Which of two stands next, in steps over the globals that begin where nothing was passed over yet.
#[cycle(ahead)]
fn pass_over(
    globals: &Texts,
    own: &Overlay,
    skips: &mut Skips,
    front: &Name,
    at: &mut Sub,
    mine: &Option<Sub>,
    way: Direction,
) -> Result<StepOutcome, AllocError>
    requires skips { KeepSkips globals.now own.now skips.old }
    requires room { length front.now.subscripts < SUBSCRIPTS_LIMIT }
    requires mine { mine.now ≡ order_at own.now.over (followed_by front.now (at.old ∷ [])) way }
    ensures found { IfOk result (λ found. IsFound globals.now own.now front.now at.old way mine.now found) }
    ensures skips { KeepSkips globals.now own.now skips.new }
{
    let mut is_passed = false;
    for _ in 0..ACCESSES_LIMIT {
        match take_step(globals, own, skips, front, at, is_passed, mine, way)? {
            StepOutcome::Passed => is_passed = true,
            found => return Ok(found),
        }
    }
    Ok(StepOutcome::Passed)
}

// Takes one step from a subscript, up to which all was passed over: what comes next is seen, or it and what follows it is passed over too.
#[cycle(ahead)]
fn take_step(
    globals: &Texts,
    own: &Overlay,
    skips: &mut Skips,
    front: &Name,
    at: &mut Sub,
    is_passed: bool,
    mine: &Option<Sub>,
    way: Direction,
) -> Result<StepOutcome, AllocError>
    requires skips { KeepSkips globals.now own.now skips.old }
    requires room { length front.now.subscripts < SUBSCRIPTS_LIMIT }
    requires bare { (es : Accesses) → IsLaid own.now es → is_passed ≡ true → IsBare globals.now own.now.gone front.now at.old }
    ensures step { IfOk result (λ step. IsStep globals.now own.now front.now way mine.now at.old step at.new) }
    ensures skips { KeepSkips globals.now own.now skips.new }
{
    let next = match next_before(globals, front, at, mine, way)? {
        None => return Ok(StepOutcome::Own),
        Some(next) => next,
    };
    match far_from(globals, own, skips, front, &next, way) {
        Ok(None) => Ok(StepOutcome::Other(next)),
        Ok(Some(far)) => {
            let step = pass_on(skips, front, at, is_passed, &next, far, way);
            drop(next); // for the proof
            step
        }
        Err(refused) => {
            drop(next); // for the proof
            Err(refused)
        }
    }
}

// Whether the name, or one above it, lies in a run that was passed over, so that below it only own texts are seen. Then none is passed over there
// once more: a run below a name would stand between a run and what lies in it.
fn is_covered(alloc: Global, skips: &Skips, name: &Name) -> Result<bool, AllocError>
    ensures { IfOk result (λ b. b ≡ true → (globals gone : Content) → AreSkips globals gone skips.now → AreAllBare globals gone name.now) }
{
    let list = name.subscripts().as_slice();
    for count in 0..list.len() {
        let above = cut_to(alloc, name, &list[..count])?;
        let found = skips.end_of(&above, &list[count], Direction::Forward);
        drop(above); // for the proof
        if let Some(far) = found? {
            drop(far); // for the proof
            return Ok(true);
        }
    }
    Ok(false)
}

// How far nothing is left from a subscript on that stands in the globals: as far as was passed over before, or no further than that. None, where
// something is seen at it or below it.
#[cycle(ahead)]
fn far_from(
    globals: &Texts,
    own: &Overlay,
    skips: &mut Skips,
    front: &Name,
    next: &Sub,
    way: Direction,
) -> Result<Option<Sub>, AllocError>
    requires skips { KeepSkips globals.now own.now skips.old }
    requires room { length front.now.subscripts < SUBSCRIPTS_LIMIT }
    ensures passed { IfOk result (λ r. IfSome r (λ far. (es : Accesses) → IsLaid own.now es → IsJump globals.now own.now.gone front.now way next.now far)) }
    ensures stands { IfOk result (λ r. IfNone r (IsSeen globals.now own.now (followed_by front.now (next.now ∷ [])))) }
    ensures skips { KeepSkips globals.now own.now skips.new }
{
    if let Some(far) = skips.end_of(front, next, way)? {
        return Ok(Some(far));
    }
    let child = with_one(globals.allocator(), front, next)?;
    match stands(globals, own, skips, &child) {
        Ok(true) => {
            drop(child); // for the proof
            Ok(None)
        }
        Ok(false) => {
            // What was passed over below it isn't looked at any more, and would stand between a run and what lies in it.
            skips.forget(&child);
            drop(child); // for the proof
            Ok(Some(next.try_clone()?))
        }
        Err(refused) => {
            drop(child); // for the proof
            Err(refused)
        }
    }
}

// Goes on to the far one, if that isn't blank, and keeps what lies up to it as passed over.
fn pass_on(
    skips: &mut Skips,
    front: &Name,
    at: &mut Sub,
    is_passed: bool,
    next: &Sub,
    far: Sub,
    way: Direction,
) -> Result<StepOutcome, AllocError>
    ensures step { IfOk result (λ step. IsMove step far at.new) }
    ensures skips { KeepsPassed skips.old front.now way is_passed at.old next.now far skips.new }
{
    if far.is_empty() {
        drop(far); // for the proof
        return Ok(StepOutcome::Unclear);
    }
    match keep(skips, front, at, is_passed, next, &far, way) {
        Ok(()) => {
            *at = far;
            Ok(StepOutcome::Passed)
        }
        Err(refused) => {
            drop(far); // for the proof
            Err(refused)
        }
    }
}

// Keeps what lies from a subscript to the far one, in a direction, as passed over, with what lies between it and the last that was passed before, if one was.
fn keep(
    skips: &mut Skips,
    front: &Name,
    at: &Sub,
    is_passed: bool,
    next: &Sub,
    far: &Sub,
    way: Direction,
) -> Result<(), AllocError>
    ensures { KeepsPassed skips.old front.now way is_passed at.now next.now far.now skips.new }
{
    if is_passed {
        keep_from(skips, front, at, far, way)
    } else {
        keep_from(skips, front, next, far, way)
    }
}

// Keeps what lies from the one subscript to the other, in a direction, as passed over.
fn keep_from(
    skips: &mut Skips,
    front: &Name,
    from: &Sub,
    far: &Sub,
    way: Direction,
) -> Result<(), AllocError>
    ensures { KeepsAlong skips.old front.now way from.now far.now skips.new }
{
    match way {
        Direction::Forward => skips.join(front, from, far),
        Direction::Backward => skips.join(front, far, from),
    }
}

// Whether nothing stands below a name.
fn is_leaf(store: &Texts, name: &Name) -> bool
    ensures { result ≡ nat_lt (data_at store.now name.now) 10 }
{
    store.data(name) < 10
}

// Whether a text stands at the name or below it.
#[cycle(ahead)]
pub(crate) fn stands(
    globals: &Texts,
    own: &Overlay,
    skips: &mut Skips,
    name: &Name,
) -> Result<bool, AllocError>
    requires { KeepSkips globals.now own.now skips.old }
    ensures there { IfOk result (λ b. (es : Accesses) → IsLaid own.now es → b ≡ not (nat_eq (data_at (seen globals.now es) name.now) 0)) }
    ensures skips { KeepSkips globals.now own.now skips.new }
{
    if is_any(own.over(), name) {
        return Ok(true);
    }
    if own.went(name)? {
        return Ok(false);
    }
    if !own.is_any_gone(name) {
        return Ok(is_any(globals, name));
    }
    if globals.value(name).is_some() {
        return Ok(true);
    }
    let blank = Sub::from_text(Text::new(globals.allocator()));
    let next = next_below(globals, own, skips, name, &blank, Direction::Forward)?;
    Ok(next.is_some())
}

// Whether a text stands at a name of one store, or below it.
fn is_any(store: &Texts, name: &Name) -> bool
    ensures { result ≡ not (nat_eq (data_at store.now name.now) 0) }
{
    store.data(name) != 0
}

// The first subscript below a name.
pub(crate) fn first_sub(
    globals: &Texts,
    own: &Overlay,
    skips: &mut Skips,
    name: &Name,
) -> Result<Option<Sub>, AllocError>
    requires { KeepSkips globals.now own.now skips.old }
    ensures next { IfOk result (λ next. IsSeenNext globals.now own.now name.now [] way.Forward next) }
    ensures skips { KeepSkips globals.now own.now skips.new }
{
    let blank = Sub::from_text(Text::new(globals.allocator()));
    next_below(globals, own, skips, name, &blank, Direction::Forward)
}

// The next subscript below a name, in a direction, where what stands below the name is copied.
fn next_copied(
    globals: &Texts,
    own: &Overlay,
    front: &Name,
    from: &Sub,
    way: Direction,
) -> Result<Option<Sub>, AllocError>
    ensures { IfOk result (λ next. IsSeenNext globals.now own.now front.now from.now way next) }
{
    globals.rises();
    let below = seen_below(globals, own, front)?;
    below.rises();
    let next = next_in(&below, front, from, way);
    drop(below); // for the proof
    next
}

// The next subscript in one store.
fn next_in(
    store: &Texts,
    front: &Name,
    from: &Sub,
    way: Direction,
) -> Result<Option<Sub>, AllocError>
    ensures { IfOk result (λ next. next ≡ order_at store.now (followed_by front.now (from.now ∷ [])) way) }
{
    let at = with_one(store.allocator(), front, from)?;
    let next = match store.order(&at, way) {
        None => Ok(None),
        Some(next) => kept(next),
    };
    drop(at); // for the proof
    next
}

// The next subscript in one store, if it stands before another in the direction, where that is there.
fn next_before(
    store: &Texts,
    front: &Name,
    from: &Sub,
    other: &Option<Sub>,
    way: Direction,
) -> Result<Option<Sub>, AllocError>
    ensures before { IfOk result (λ next. IfSome next (IsNextBefore store.now front.now from.now way other.now)) }
    ensures none { IfOk result (λ next. IfNone next (IsNoneBefore store.now front.now from.now way other.now)) }
{
    let at = with_one(store.allocator(), front, from)?;
    let next = match store.order(&at, way) {
        Some(next) if is_before(next, other, way) => kept(next),
        _ => Ok(None),
    };
    drop(at); // for the proof
    next
}

// A subscript for keeps.
fn kept(sub: &Sub) -> Result<Option<Sub>, AllocError>
    ensures { IfOk result (λ s. s ≡ Some sub.now) }
{
    Ok(Some(sub.try_clone()?))
}

// Whether a subscript stands before another in a direction, if that is there.
fn is_before(one: &Sub, other: &Option<Sub>, way: Direction) -> bool
    ensures { result ≡ is_before (along way subscript_cmp) one.now other.now }
{
    match (other, way) {
        (None, _) => true,
        (Some(other), Direction::Forward) => one < other,
        (Some(other), Direction::Backward) => other < one,
    }
}
