// The names of a lock.

ghost use Rattle.std.specs.Prelude.{◌≡◌, ◌<◌, ◌≤◌, ◌++◌, ◌∷◌, [], length, if◌then◌else◌, is_ok, IfOk};

use mj_subs::Name;
use smallvec::SmallVec;
use std::alloc::{AllocError, Global};
use std::marker::Model;
use std::sync::Arc;

/// The names that a lock takes or gives up together, one at least. One that stands twice counts twice. Every copy shares them.
#[derive(Drop)]
pub struct Names {
    alloc: Global,
    list: Arc<SmallVec<Name, 1>>,
}

impl Model for Names {
    ghost use Rattle.std.specs.Prelude.{List, ◌<◌, length};
    ghost use Rattle.std.specs.Arc.{arc_value};
    ghost use Rattle.mj_subs.specs.Name.{Name as Seen};

    ghost Value = { List Seen };

    ghost view = { λ n. (arc_value n.list).items };

    ghost invariant = { λ n. 0 < length (arc_value n.list).items };
}

impl Names {
    /// One name.
    pub fn one(alloc: Global, name: Name) -> Result<Names, AllocError>
        ensures { IfOk result (λ names. names ≡ name ∷ []) }
    {
        let mut list = SmallVec::new(alloc);
        list.push(name)?;
        Ok(Names {
            alloc,
            list: Arc::new(alloc, list)?,
        })
    }

    /// One more, at the end. Names that a copy shares are copied first.
    pub fn push(&mut self, name: Name) -> Result<(), AllocError>
        ensures { self.new ≡ (if is_ok result then self.old ++ name ∷ [] else self.old) }
    {
        if let Some(list) = Arc::get_mut(&mut self.list) {
            return put_behind(list, name);
        }
        self.push_anew(name)
    }

    // One more, behind names of its own.
    fn push_anew(&mut self, name: Name) -> Result<(), AllocError>
        ensures { self.new ≡ (if is_ok result then self.old ++ name ∷ [] else self.old) }
    {
        let mut list = copies_of(self.alloc, self.as_slice())?;
        put_behind(&mut list, name)?;
        self.list = Arc::new(self.alloc, list)?;
        Ok(())
    }

    /// The names, in order.
    pub fn as_slice(&self) -> &[Name]
        ensures value { result.now ≡ self.now }
        ensures some { 0 < length result.now }
    {
        self.list.as_slice()
    }

    /// A copy of them.
    pub fn try_clone(&self) -> Result<Names, AllocError>
        ensures { IfOk result (λ names. names ≡ self.now) }
    {
        Ok(Names {
            alloc: self.alloc,
            list: self.list.clone()?,
        })
    }
}

// Puts a name behind others.
fn put_behind(list: &mut SmallVec<Name, 1>, name: Name) -> Result<(), AllocError>
    ensures items { list.new.items ≡ (if is_ok result then list.old.items ++ name ∷ [] else list.old.items) }
    ensures more { length list.old.items ≤ length list.new.items }
{
    list.push(name)?;
    Ok(())
}

// The names, in memory of their own.
fn copies_of(alloc: Global, names: &[Name]) -> Result<SmallVec<Name, 1>, AllocError>
    ensures { IfOk result (λ copies. copies.items ≡ names.now) }
{
    let mut copies = SmallVec::with_capacity(alloc, names.len())?;
    for name in names {
        copies.push(name.try_clone()?)?;
    }
    Ok(copies)
}
