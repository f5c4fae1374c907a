// Lists of accesses to a store.

ghost use Rattle.std.specs.Prelude.{◌≡◌, ℕ, take, IfOk, OnOk, OnErr};
ghost use Rattle.mj_store.specs.Runs.{name_of, answer_of, after_access, answers_of, after_accesses};

use crate::nodes::Nodes;
use crate::store::{Direction, Store, is_too_deep};
use mj_subs::{Name, SharedName, Sub};
use mj_text::{Failure, Fault, Text};
use std::alloc::{AllocError, Global};

/// A question to a store, or a change of it.
#[derive(Drop)]
pub enum Access {
    /// the text of a name
    Value(SharedName),
    /// whether a text stands at a name, and whether one stands below it
    Data(SharedName),
    /// the next subscript in a direction
    Order(SharedName, Direction),
    /// the next name with a text
    Query(SharedName),
    /// what stands at a name and below it
    Subtree(SharedName),
    /// a name gets a text
    Set(SharedName, Text),
    /// a name goes, with all below it
    Kill(SharedName),
    /// names below a name get texts
    Put(SharedName, Nodes),
}

impl Access {
    /// The name that it is to.
    pub fn name(&self) -> &Name
        ensures { result.now ≡ name_of self.now }
    {
        match self {
            Access::Value(name)
            | Access::Data(name)
            | Access::Order(name, _)
            | Access::Query(name)
            | Access::Subtree(name)
            | Access::Set(name, _)
            | Access::Kill(name)
            | Access::Put(name, _) => name.get(),
        }
    }

    /// A copy.
    pub fn try_clone(&self) -> Result<Access, AllocError>
        ensures { IfOk result (λ access. access ≡ self.now) }
    {
        Ok(match self {
            Access::Value(name) => Access::Value(name.try_clone()?),
            Access::Data(name) => Access::Data(name.try_clone()?),
            Access::Order(name, direction) => Access::Order(name.try_clone()?, *direction),
            Access::Query(name) => Access::Query(name.try_clone()?),
            Access::Subtree(name) => Access::Subtree(name.try_clone()?),
            Access::Set(name, text) => Access::Set(name.try_clone()?, text.try_clone()?),
            Access::Kill(name) => Access::Kill(name.try_clone()?),
            Access::Put(name, nodes) => Access::Put(name.try_clone()?, nodes.try_clone()?),
        })
    }
}

/// What an access is answered.
#[derive(Drop)]
pub enum Answer {
    /// the text, if there is one
    Value(Option<Text>),
    /// 0, 1, 10 or 11
    Data(u8),
    /// the subscript, if there is one
    Order(Option<Sub>),
    /// the name, if there is one
    Query(Option<SharedName>),
    /// the nodes
    Subtree(Nodes),
    /// a change is done
    Done,
    /// a change would give a name too many subscripts, and isn't done
    Limit,
}

impl Answer {
    /// A copy.
    pub fn try_clone(&self) -> Result<Answer, AllocError>
        ensures { IfOk result (λ answer. answer ≡ self.now) }
    {
        Ok(match self {
            Answer::Value(text) => Answer::Value(text.clone()?),
            Answer::Data(data) => Answer::Data(*data),
            Answer::Order(next) => Answer::Order(next.clone()?),
            Answer::Query(next) => Answer::Query(next.clone()?),
            Answer::Subtree(nodes) => Answer::Subtree(nodes.try_clone()?),
            Answer::Done => Answer::Done,
            Answer::Limit => Answer::Limit,
        })
    }
}

/// Makes the accesses in order, and gives the answer to each. After want of memory a front of them has been made.
pub fn run<S: Store>(
    alloc: Global,
    store: &mut S,
    accesses: &[Access],
) -> Result<Vec<Answer>, AllocError>
    ensures answers { IfOk result (λ answers. answers.items ≡ answers_of accesses.now (S.contents store.old)) }
    ensures content { OnOk result (S.contents store.new ≡ after_accesses accesses.now (S.contents store.old)) }
    ensures front { OnErr result ((k : ℕ) × (S.contents store.new ≡ after_accesses (take k accesses.now) (S.contents store.old))) }
{
    let mut answers = Vec::with_capacity(alloc, accesses.len())?;
    for access in accesses {
        let answer = perform(store, access)?;
        answers.push(answer)?;
    }
    Ok(answers)
}

/// Makes one access. After want of memory the store is as it was.
pub fn perform<S: Store>(store: &mut S, access: &Access) -> Result<Answer, AllocError>
    ensures answer { IfOk result (λ a. a ≡ answer_of access.now (S.contents store.old)) }
    ensures content { OnOk result (S.contents store.new ≡ after_access access.now (S.contents store.old)) }
    ensures unchanged { OnErr result (S.contents store.new ≡ S.contents store.old) }
{
    Ok(match access {
        Access::Set(name, text) => {
            store.set(name.get(), text)?;
            Answer::Done
        }
        Access::Kill(name) => {
            store.kill(name.get());
            Answer::Done
        }
        Access::Put(name, nodes) => {
            match store.put(name.get(), nodes) {
                Ok(()) => Answer::Done,
                Err(Failure::Fault(Fault::Limit)) => Answer::Limit,
                Err(_) => return Err(AllocError),
            }
        }
        Access::Value(_)
        | Access::Data(_)
        | Access::Order(_, _)
        | Access::Query(_)
        | Access::Subtree(_) => ask(store, access)?,
    })
}

/// The answer to an access, which isn't made.
pub fn ask<S: Store>(store: &S, access: &Access) -> Result<Answer, AllocError>
    ensures { IfOk result (λ a. a ≡ answer_of access.now (S.contents store.now)) }
{
    Ok(match access {
        Access::Value(name) => match store.value(name.get()) {
            None => Answer::Value(None),
            Some(text) => Answer::Value(Some(text.try_clone()?)),
        },
        Access::Data(name) => Answer::Data(store.data(name.get())),
        Access::Order(name, direction) => match store.order(name.get(), *direction) {
            None => Answer::Order(None),
            Some(next) => Answer::Order(Some(next.try_clone()?)),
        },
        Access::Query(name) => Answer::Query(SharedName::if_some(
            name.allocator(),
            store.query(name.get())?,
        )?),
        Access::Subtree(name) => Answer::Subtree(store.subtree(name.get())?),
        Access::Set(_, _) | Access::Kill(_) => Answer::Done,
        Access::Put(name, nodes) => {
            if is_too_deep(name.get(), nodes.as_slice()) {
                Answer::Limit
            } else {
                Answer::Done
            }
        }
    })
}
