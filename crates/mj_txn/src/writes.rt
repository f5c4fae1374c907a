// The writes of a transaction, as a list of changes.

ghost use Rattle.std.specs.Prelude.{◌≡◌, ◌++◌, ◌∷◌, [], true, false, IfOk, OnOk, IfSome};
ghost use Rattle.mj_globs.specs.declared.change.Change.TheVariants as change;
ghost use Rattle.mj_txn.specs.Commits.{change_of, changes_of};

use mj_globs::Change;
use mj_store::Access;
use mj_subs::Name;
use mj_text::Text;
use mj_txlog::{Entry, is_refused, is_write};
use std::alloc::{AllocError, Global};

/// The changes that the accesses make, in order.
pub fn changes_of(alloc: Global, entries: &[Entry]) -> Result<Vec<Change>, AllocError>
    ensures { IfOk result (λ cs. cs.items ≡ changes_of entries.now) }
{
    let mut changes = Vec::new(alloc);
    for entry in entries {
        add_change(alloc, &mut changes, entry)?;
    }
    Ok(changes)
}

/// The name and the text of a `SET`, where it is the last of the accesses and no other one is a write.
#[tactic(auto, using(crate::proofs::Replies::changes_last))]
pub fn only_set(entries: &[Entry]) -> Option<(&Name, &Text)>
    ensures { IfSome result (λ set. changes_of entries.now ≡ change.Set set.0.now set.1.now ∷ []) }
{
    let [earlier @ .., last] = entries else {
        return None;
    };
    let Entry::Access(Access::Set(name, text), _) = last else {
        return None;
    };
    if !change_nothing(earlier) {
        return None;
    }
    Some((name.get(), text))
}

// Whether none of the accesses is a write.
fn change_nothing(entries: &[Entry]) -> bool
    ensures { result ≡ true → changes_of entries.now ≡ [] }
{
    for entry in entries {
        if may_change(entry) {
            return false;
        }
    }
    true
}

// Whether an access is a write.
fn may_change(entry: &Entry) -> bool
    ensures { result ≡ false → changes_of (entry.now ∷ []) ≡ [] }
{
    match entry {
        Entry::Access(access, _) => is_write(access),
        Entry::Unlock(_) => false,
    }
}

// Adds the change that an access makes, if it makes one.
fn add_change(alloc: Global, changes: &mut Vec<Change>, entry: &Entry) -> Result<(), AllocError>
    ensures { OnOk result (changes.new.items ≡ changes.old.items ++ changes_of (entry.now ∷ [])) }
{
    if let Entry::Access(access, _) = entry {
        let change = change_of(alloc, access)?;
        match change {
            Some(change) => changes.push(change)?,
            None => {}
        }
    }
    Ok(())
}

// The change that an access makes, if it makes one.
fn change_of(alloc: Global, access: &Access) -> Result<Option<Change>, AllocError>
    ensures { IfOk result (λ c. c ≡ change_of access.now) }
{
    Ok(match access {
        Access::Set(name, text) => Some(Change::Set(name.get().try_clone()?, text.try_clone()?)),
        Access::Kill(name) => Some(Change::Kill(name.get().try_clone()?)),
        Access::Put(name, nodes) => {
            if is_refused(access) {
                None
            } else {
                Some(Change::Put(name.get().try_clone()?, nodes.try_clone()?))
            }
        }
        _ => None,
    })
}
