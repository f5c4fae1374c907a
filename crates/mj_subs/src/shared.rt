// A name that many can have.

ghost use Rattle.std.specs.Prelude.{◌≡◌, IfOk};

use crate::name::Name;
use std::alloc::{AllocError, Global};
use std::marker::Model;
use std::sync::Arc;

/// A name behind a pointer, which every copy shares, so that what holds it is small and a copy takes no memory. A contract sees the name.
#[derive(Drop)]
pub struct SharedName {
    alloc: Global,
    kept: Arc<Name>,
}

impl Model for SharedName {
    ghost use Rattle.std.specs.Arc.{arc_value};
    ghost use Rattle.mj_subs.specs.Name.{Name as Seen};

    ghost Value = { Seen };

    ghost view = { λ n. arc_value n.kept };
}

impl SharedName {
    /// The name behind a pointer.
    pub fn new(alloc: Global, name: Name) -> Result<SharedName, AllocError>
        ensures { IfOk result (λ shared. shared ≡ name) }
    {
        Ok(SharedName {
            alloc,
            kept: Arc::new(alloc, name)?,
        })
    }

    /// The name behind a pointer, if there is one.
    pub fn if_some(alloc: Global, name: Option<Name>) -> Result<Option<SharedName>, AllocError>
        ensures { IfOk result (λ shared. shared ≡ name) }
    {
        match name {
            Some(name) => Ok(Some(SharedName::new(alloc, name)?)),
            None => Ok(None),
        }
    }

    /// The name.
    pub fn get(&self) -> &Name
        ensures { result.now ≡ self.now }
    {
        &self.kept
    }

    /// Where its memory comes from.
    pub fn allocator(&self) -> Global {
        self.alloc
    }

    /// A copy.
    pub fn try_clone(&self) -> Result<SharedName, AllocError>
        ensures { IfOk result (λ shared. shared ≡ self.now) }
    {
        Ok(SharedName {
            alloc: self.alloc,
            kept: self.kept.clone()?,
        })
    }
}

impl Clone for SharedName {
    ghost is_clone = { λ n copy. copy ≡ n };

    fn clone(&self) -> Result<SharedName, AllocError> {
        self.try_clone()
    }
}
