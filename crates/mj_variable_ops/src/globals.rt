// What is asked of the globals.

ghost use Rattle.std.specs.Prelude.{◌≡◌, ◌<◌, ◌≤◌, ◌⊎◌, Option, None, Some, true, IfOk, IfSome, IfNone, OnErr};
ghost use Rattle.mj_ask.specs.declared.ask.Reply.{Reply as ReplyOf};
ghost use Rattle.mj_store.specs.declared.access.Answer.{Answer as AnswerOf};
ghost use Rattle.mj_store.specs.Runs.{name_of};
ghost use Rattle.mj_semantics.specs.Accesses as accesses;
ghost use Rattle.mj_semantics.specs.Outcome.{Timed};
ghost use Rattle.mj_pcode.specs.Machine.{Next};
ghost use Rattle.mj_machine.specs.Kept.{Does, Stays, replied};

use mj_ask::{Ask, Reply, SharedAsk};
use mj_machine::asking::wait;
use mj_machine::quiet::fail;
use mj_machine::{Machine, TurnOutcome};
use mj_store::Access;
use mj_text::Fault;
use std::alloc::{AllocError, Global};

/// Gives the reply to an ask, where one is given and the ask may be made.
pub(crate) fn at_hand<'a>(machine: &Machine, given: Option<&'a Reply>) -> Option<&'a Reply>
    ensures some { IfSome result (λ r. (replied given.entry ≡ Some r.now) × (machine.now.replied < machine.now.bounds.events)) }
    ensures none { IfNone result ((replied given.entry ≡ None) ⊎ (machine.now.bounds.events ≤ machine.now.replied)) }
{
    if machine.replied >= machine.bounds.events as u64 {
        return None;
    }
    given
}

/// Ends a turn for which no reply is at hand: the job waits for the reply to an access, or faults where no more asks may be made.
/// An access that is answered is given to `drop`, here as elsewhere: a function at whose end one is dropped by itself takes a long proof.
pub(crate) fn ask(
    alloc: Global,
    access: Access,
    machine: &mut Machine,
) -> Result<TurnOutcome, AllocError>
    requires global { (name_of access).global ≡ true }
    ensures ok { IfOk result (λ step. (given : Option ReplyOf) → (given ≡ None) ⊎ (machine.old.bounds.events ≤ machine.old.replied)
        → (rest : Next → AnswerOf → Timed) → Does (λ next. accesses.access access (rest next)) machine.old given step machine.new) }
    ensures err { OnErr result (Stays machine.old machine.new) }
{
    if machine.replied >= machine.bounds.events as u64 {
        drop(access);
        return Ok(fail(Fault::Steps, machine));
    }
    wait(alloc, Ask::Shared(SharedAsk::Access(access)))
}
