// Accesses to globals.

ghost use Rattle.std.specs.Prelude.{◌≡◌, not, IfOk, OnOk, OnErr};
ghost use Rattle.mj_store.specs.Runs.{answer_of};
ghost use Rattle.mj_store.specs.Changes.{is_too_deep};
ghost use Rattle.mj_store.specs.declared.access.Access.TheVariants as accesses;
ghost use Rattle.mj_ask.specs.declared.ask.Reply.TheVariants as replies;
ghost use Rattle.mj_globs.specs.Stamps.{Rises};
ghost use Rattle.mj_sys.specs.Shared.{changed};
ghost use Rattle.mj_sys.specs.Transactions.{twice};

use mj_ask::Reply;
use mj_globs::Globals;
use mj_store::{Access, Answer, Nodes, Store, ask, is_too_deep};
use mj_subs::Name;
use mj_text::{Failure, Fault};
use std::alloc::AllocError;

// What an access is told, once for the job and once for the history. A local name has no place in what is shared, and to change it is done
// without a change.
#[tactic(auto, using(crate::proofs::Passing::rises_self))]
pub fn answer(globals: &mut Globals, access: &Access) -> Result<(Reply, Reply), AllocError>
    ensures told { IfOk result (λ told. told ≡ twice (replies.Answer (answer_of access.now globals.old.content))) }
    ensures after { OnOk result (globals.new.content ≡ changed access.now globals.old.content) }
    ensures err { OnErr result (globals.new.content ≡ globals.old.content) }
    ensures stamps { Rises globals.old globals.new }
{
    match access {
        Access::Set(name, text) => {
            let name = name.get();
            if name.is_global() {
                globals.set(name, text)?;
            }
            Ok((Reply::Answer(Answer::Done), Reply::Answer(Answer::Done)))
        }
        Access::Kill(name) => {
            let name = name.get();
            if name.is_global() {
                globals.kill(name);
            }
            Ok((Reply::Answer(Answer::Done), Reply::Answer(Answer::Done)))
        }
        Access::Put(name, nodes) => {
            if put(globals, name.get(), nodes)? {
                Ok((Reply::Answer(Answer::Done), Reply::Answer(Answer::Done)))
            } else {
                Ok((Reply::Answer(Answer::Limit), Reply::Answer(Answer::Limit)))
            }
        }
        Access::Value(_)
        | Access::Data(_)
        | Access::Order(_, _)
        | Access::Query(_)
        | Access::Subtree(_) => {
            let answer = ask(globals, access)?;
            let copy = answer.try_clone()?;
            Ok((Reply::Answer(answer), Reply::Answer(copy)))
        }
    }
}

// Puts nodes below a name, unless that gives one too many subscripts, and says which.
#[tactic(auto, using(crate::proofs::Passing::rises_self))]
fn put(globals: &mut Globals, name: &Name, nodes: &Nodes) -> Result<bool, AllocError>
    ensures told { IfOk result (λ done. done ≡ not (is_too_deep name.now nodes.now)) }
    ensures after { OnOk result (globals.new.content ≡ changed (accesses.Put name.now nodes.now) globals.old.content) }
    ensures err { OnErr result (globals.new.content ≡ globals.old.content) }
    ensures stamps { Rises globals.old globals.new }
{
    if !name.is_global() {
        return Ok(!is_too_deep(name, nodes.as_slice()));
    }
    match globals.put(name, nodes) {
        Ok(()) => Ok(true),
        Err(Failure::Fault(Fault::Limit)) => Ok(false),
        Err(_) => Err(AllocError),
    }
}
