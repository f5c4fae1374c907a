// A small store of what a transaction sees at a name and below it.

ghost use Rattle.std.specs.Prelude.{◌≡◌, IfOk, OnOk};
ghost use Rattle.mj_store.specs.Changes.{followed_by};
ghost use Rattle.mj_txlog.specs.Accesses.{Accesses, seen};
ghost use Rattle.mj_txlog.specs.Sight.{AreAlike};
ghost use Rattle.mj_txlog.specs.Laid.{with_kept, IsLaid};

use crate::names::followed;
use crate::overlay::Overlay;
use mj_globs::Texts;
use mj_store::Store;
use mj_subs::{Name, Subs};
use mj_text::Text;
use std::alloc::AllocError;

// A store that is as the globals with the own writes made on them, at the name and below it: what didn't go of what stands there in the globals, and the
// own texts over it.
pub(crate) fn seen_below(globals: &Texts, own: &Overlay, name: &Name) -> Result<Texts, AllocError>
    ensures { IfOk result (λ below. (es : Accesses) → IsLaid own.now es → AreAlike name.now below (seen globals.now es)) }
{
    globals.rises();
    let mut below = Texts::new(globals.allocator());
    let nodes = globals.subtree(name)?;
    for node in nodes.as_slice() {
        add_kept(&mut below, own, name, &node.0, &node.1)?;
    }
    drop(nodes); // for the proof
    let texts = own.over().subtree(name)?;
    let added = below.put(name, &texts);
    drop(texts); // for the proof
    match added {
        Ok(()) => Ok(below),
        Err(_) => Err(AllocError),
    }
}

// Puts a node of the globals to the store, if it didn't go.
fn add_kept(
    below: &mut Texts,
    own: &Overlay,
    name: &Name,
    more: &Subs,
    text: &Text,
) -> Result<(), AllocError>
    ensures { OnOk result (below.new ≡ with_kept own.now below.old (followed_by name.now more.now) text.now) }
{
    let at = followed(below.allocator(), name, more)?;
    let added = match own.went(&at) {
        Ok(true) => Ok(()),
        Ok(false) => below.set(&at, text),
        Err(refused) => Err(refused),
    };
    drop(at); // for the proof
    added
}
