// Lists of names, and names with other subscripts.

ghost use Rattle.std.specs.Prelude.{◌≡◌, ◌<◌, ◌++◌, ◌∷◌, [], if◌then◌else◌, is_ok, length, IfOk, OnOk};
ghost use Rattle.mj_store.specs.Questions.{with_subscripts};
ghost use Rattle.mj_store.specs.Changes.{followed_by};

use mj_subs::{Name, SUBSCRIPTS_LIMIT, Sub, Subs};
use std::alloc::{AllocError, Global};
use std::marker::Model;

/// Names in order, in which one may stand more than once.
#[derive(Drop)]
pub struct NameList {
    list: Vec<Name>,
}

impl Model for NameList {
    ghost use Rattle.std.specs.Prelude.{List};
    ghost use Rattle.mj_subs.specs.Name.{Name as Seen};

    ghost Value = { List Seen };

    ghost view = { λ n. n.list.items };
}

impl NameList {
    /// No names.
    pub fn new(alloc: Global) -> NameList
        ensures { result ≡ [] }
    {
        NameList {
            list: Vec::new(alloc),
        }
    }

    /// These names.
    pub fn of(alloc: Global, names: &[Name]) -> Result<NameList, AllocError>
        ensures { IfOk result (λ list. list ≡ names.now) }
    {
        Ok(NameList {
            list: copies_of(alloc, names)?,
        })
    }

    /// The names, in order.
    pub fn as_slice(&self) -> &[Name]
        ensures { result.now ≡ self.now }
    {
        &self.list
    }

    /// Puts one more at the end.
    pub fn push(&mut self, name: Name) -> Result<(), AllocError>
        ensures { self.new ≡ (if is_ok result then self.old ++ name ∷ [] else self.old) }
    {
        self.list.push(name)?;
        Ok(())
    }
}

// Copies of names.
pub(crate) fn copies_of(alloc: Global, names: &[Name]) -> Result<Vec<Name>, AllocError>
    ensures { IfOk result (λ copies. copies.items ≡ names.now) }
{
    let mut copies = Vec::with_capacity(alloc, names.len())?;
    for name in names {
        copies.push(name.try_clone()?)?;
    }
    Ok(copies)
}

// The name with these subscripts, of which there are no more than a name can have, in place of its own.
pub(crate) fn cut_to(alloc: Global, name: &Name, list: &[Sub]) -> Result<Name, AllocError>
    ensures { IfOk result (λ n. n ≡ with_subscripts name.now list.now) }
{
    let word = name.word().try_clone()?;
    let subscripts = subs_of(alloc, list)?;
    Ok(if name.is_global() {
        Name::global(word, subscripts)
    } else {
        Name::local(word, subscripts)
    })
}

// A list of these subscripts, of which there are no more than a list can have.
fn subs_of(alloc: Global, list: &[Sub]) -> Result<Subs, AllocError>
    ensures { IfOk result (λ s. s ≡ list.now) }
{
    let mut subs = Subs::new(alloc);
    for sub in list {
        if subs.push(sub.try_clone()?).is_err() {
            return Err(AllocError);
        }
    }
    Ok(subs)
}

// The name with one subscript more, for which there is room.
pub(crate) fn with_one(alloc: Global, name: &Name, sub: &Sub) -> Result<Name, AllocError>
    ensures value { IfOk result (λ n. n ≡ followed_by name.now (sub.now ∷ [])) }
    ensures room { IfOk result (λ n. length name.now.subscripts < SUBSCRIPTS_LIMIT) }
{
    if SUBSCRIPTS_LIMIT <= name.subscripts().len() {
        return Err(AllocError);
    }
    let word = name.word().try_clone()?;
    let mut subscripts = subs_of(alloc, name.subscripts().as_slice())?;
    add_one(&mut subscripts, sub)?;
    Ok(if name.is_global() {
        Name::global(word, subscripts)
    } else {
        Name::local(word, subscripts)
    })
}

// The name with more subscripts, for which there is room.
pub(crate) fn followed(alloc: Global, name: &Name, more: &Subs) -> Result<Name, AllocError>
    ensures { IfOk result (λ n. n ≡ followed_by name.now more.now) }
{
    let word = name.word().try_clone()?;
    let mut subscripts = subs_of(alloc, name.subscripts().as_slice())?;
    for sub in more.as_slice() {
        add_one(&mut subscripts, sub)?;
    }
    Ok(if name.is_global() {
        Name::global(word, subscripts)
    } else {
        Name::local(word, subscripts)
    })
}

// Puts one more subscript at the end.
fn add_one(subs: &mut Subs, sub: &Sub) -> Result<(), AllocError>
    ensures { OnOk result (subs.new ≡ subs.old ++ sub.now ∷ []) }
{
    match subs.push(sub.try_clone()?) {
        Ok(()) => Ok(()),
        Err(_) => Err(AllocError),
    }
}
