// Accesses to locals, as data.

ghost use Rattle.std.specs.Prelude.{◌≡◌, false, IfOk, OnOk, OnErr};
ghost use Rattle.mj_store.specs.Runs.{name_of, answer_of, after_access};
ghost use Rattle.mj_locals.specs.Held.{with_now};

use crate::locals::Locals;
use mj_store::{Access, Answer};
use mj_subs::SharedName;
use mj_text::{Failure, Fault};
use std::alloc::AllocError;

/// Makes one access to locals. After want of memory they are as they were.
pub fn perform(locals: &mut Locals, access: &Access) -> Result<Answer, AllocError>
    requires { (name_of access.now).global ≡ false }
    ensures answer { IfOk result (λ a. a ≡ answer_of access.now locals.old.now) }
    ensures content { OnOk result (locals.new ≡ with_now (after_access access.now locals.old.now) locals.old) }
    ensures unchanged { OnErr result (locals.new ≡ locals.old) }
{
    Ok(match access {
        Access::Value(name) => match locals.value(name.get()) {
            None => Answer::Value(None),
            Some(text) => Answer::Value(Some(text.try_clone()?)),
        },
        Access::Data(name) => Answer::Data(locals.data(name.get())),
        Access::Order(name, direction) => match locals.order(name.get(), *direction) {
            None => Answer::Order(None),
            Some(next) => Answer::Order(Some(next.try_clone()?)),
        },
        Access::Query(name) => Answer::Query(SharedName::if_some(
            name.allocator(),
            locals.query(name.get())?,
        )?),
        Access::Subtree(name) => Answer::Subtree(locals.subtree(name.get())?),
        Access::Set(name, text) => {
            locals.set(name.get(), text)?;
            Answer::Done
        }
        Access::Kill(name) => {
            locals.kill(name.get());
            Answer::Done
        }
        Access::Put(name, nodes) => match locals.put(name.get(), nodes) {
            Ok(()) => Answer::Done,
            Err(Failure::Fault(Fault::Limit)) => Answer::Limit,
            Err(_) => return Err(AllocError),
        },
    })
}
