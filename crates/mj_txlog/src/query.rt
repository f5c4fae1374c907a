// The next name with a text among what a transaction sees.
//
// It is the first one below a name. Where there is none, it is the first one at or below the next subscript in place of the name's last one, or
// else likewise one level above. So it is found by what stands next on some levels.

ghost use Rattle.std.specs.Prelude.{◌≡◌, ◌++◌, ◌∷◌, [], IfOk};
ghost use Rattle.std.specs.Option.{IfSome};
ghost use Rattle.mj_store.specs.Questions.{query_at};
ghost use Rattle.mj_txlog.specs.Accesses.{Accesses, seen};
ghost use Rattle.mj_txlog.specs.Laid.{IsLaid};
ghost use Rattle.mj_txlog.specs.Skips.{KeepSkips};
ghost use Rattle.mj_txlog.specs.Walks.{IsSeenFirst, is_within, is_below, is_beyond};

use crate::names::{cut_to, with_one};
use crate::next::{first_sub, next_below};
use crate::overlay::Overlay;
use crate::skips::Skips;
use mj_globs::Texts;
use mj_store::Direction;
use mj_subs::{Name, Sub};
use std::alloc::AllocError;

// The next name. It is told if no text stands at or below a blank subscript of the name, as none does for all that the language can make.
pub(crate) fn query(
    globals: &Texts,
    own: &Overlay,
    skips: &mut Skips,
    name: &Name,
) -> Result<Option<Option<Name>>, AllocError>
    requires { KeepSkips globals.now own.now skips.old }
    ensures next { IfOk result (λ x. IfSome x (λ next. (es : Accesses) → IsLaid own.now es → next ≡ query_at (seen globals.now es) name.now)) }
    ensures skips { KeepSkips globals.now own.now skips.new }
{
    match first_below(globals, own, skips, name)? {
        Some(next) => Ok(Some(Some(next))),
        None => first_past(globals, own, skips, name),
    }
}

// The first name with a text at the name or below it.
#[cycle(down)]
fn first_within(
    globals: &Texts,
    own: &Overlay,
    skips: &mut Skips,
    name: &Name,
) -> Result<Option<Name>, AllocError>
    requires { KeepSkips globals.now own.now skips.old }
    ensures next { IfOk result (λ next. IsSeenFirst globals.now own.now name.now (is_within name.now.subscripts) next) }
    ensures skips { KeepSkips globals.now own.now skips.new }
{
    if own.is_text(globals, name)? {
        return Ok(Some(name.try_clone()?));
    }
    first_below(globals, own, skips, name)
}

// The first one below it.
#[cycle(down)]
fn first_below(
    globals: &Texts,
    own: &Overlay,
    skips: &mut Skips,
    name: &Name,
) -> Result<Option<Name>, AllocError>
    requires { KeepSkips globals.now own.now skips.old }
    ensures next { IfOk result (λ next. IsSeenFirst globals.now own.now name.now (is_below name.now.subscripts) next) }
    ensures skips { KeepSkips globals.now own.now skips.new }
{
    match first_sub(globals, own, skips, name)? {
        None => Ok(None),
        Some(sub) => {
            let child = with_one(globals.allocator(), name, &sub)?;
            let found = first_within(globals, own, skips, &child);
            drop(child); // for the proof
            found
        }
    }
}

// The first one past it and all below it.
#[cycle(up)]
fn first_past(
    globals: &Texts,
    own: &Overlay,
    skips: &mut Skips,
    name: &Name,
) -> Result<Option<Option<Name>>, AllocError>
    requires { KeepSkips globals.now own.now skips.old }
    ensures next { IfOk result (λ x. IfSome x (λ next. IsSeenFirst globals.now own.now name.now (is_beyond name.now.subscripts) next)) }
    ensures skips { KeepSkips globals.now own.now skips.new }
{
    match name.subscripts().as_slice() {
        [] => Ok(Some(None)),
        [above @ .., last] => {
            let front = cut_to(globals.allocator(), name, above)?;
            let found = first_beside(globals, own, skips, &front, last);
            drop(front); // for the proof
            found
        }
    }
}

// The first one past a name with this front and this last subscript. From the blank subscript the first one is told: where that is blank itself, the
// one past it can't be told.
#[cycle(up)]
fn first_beside(
    globals: &Texts,
    own: &Overlay,
    skips: &mut Skips,
    front: &Name,
    last: &Sub,
) -> Result<Option<Option<Name>>, AllocError>
    requires { KeepSkips globals.now own.now skips.old }
    ensures next { IfOk result (λ x. IfSome x (λ next. IsSeenFirst globals.now own.now front.now (is_beyond (front.now.subscripts ++ last.now ∷ [])) next)) }
    ensures skips { KeepSkips globals.now own.now skips.new }
{
    match next_below(globals, own, skips, front, last, Direction::Forward)? {
        None => first_past(globals, own, skips, front),
        Some(sub) => {
            if sub.is_empty() {
                return Ok(None);
            }
            let beside = with_one(globals.allocator(), front, &sub)?;
            let found = first_within(globals, own, skips, &beside);
            drop(beside); // for the proof
            Ok(Some(found?))
        }
    }
}
