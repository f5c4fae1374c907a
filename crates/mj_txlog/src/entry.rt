// What stands in the list of a transaction's accesses.

ghost use Rattle.std.specs.Prelude.{◌≡◌};
ghost use Rattle.mj_txlog.specs.Accesses.{is_refused, is_write};

use crate::names::NameList;
use mj_store::{Access, Answer, is_too_deep};

/// An unlock that waits for the commit.
#[derive(Drop)]
pub enum Unlock {
    /// one less for each place of the list
    Names(NameList),
    /// all names are free
    All,
}

/// An access of a transaction.
#[derive(Drop)]
pub enum Entry {
    /// a read or a write of globals, with its answer
    Access(Access, Answer),
    /// an unlock
    Unlock(Unlock),
}

/// Whether it is a change.
pub fn is_write(access: &Access) -> bool
    ensures { result ≡ is_write access.now }
{
    matches!(
        access,
        Access::Set(_, _) | Access::Kill(_) | Access::Put(_, _)
    )
}

/// Whether it would give a name more subscripts than it can have, and so is done nowhere.
pub fn is_refused(access: &Access) -> bool
    ensures { result ≡ is_refused access.now }
{
    match access {
        Access::Put(name, nodes) => is_too_deep(name.get(), nodes.as_slice()),
        _ => false,
    }
}
