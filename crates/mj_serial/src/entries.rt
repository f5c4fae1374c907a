// What an event is among the accesses of a transaction.

ghost use Rattle.std.specs.Prelude.{◌≡◌, IfOk, option_map};
ghost use Rattle.mj_ask.specs.Fits.{given_seen};
ghost use Rattle.mj_ask.specs.declared.ask.Reply.TheVariants as replies;
ghost use Rattle.mj_txn.specs.Closing.{is_local_write};
ghost use Rattle.mj_sys.specs.Transactions.{unlock_as};
ghost use Rattle.mj_serial.specs.Blocks.{is_taken, taken, unlock_entry, entry_of};

use mj_ask::{Ask, GivenUp, Reply, SharedAsk};
use mj_store::{Access, Answer};
use mj_txlog::{Entry, NameList, Unlock, is_write};
use std::alloc::{AllocError, Global};

// The read, the write or the unlock that the ask was, if it was one and was taken.
pub fn entry_of(alloc: Global, ask: &Ask, reply: &Reply) -> Result<Option<Entry>, AllocError>
    ensures { IfOk result (λ entry. entry ≡ entry_of ask.now reply.now) }
{
    match (ask, reply) {
        (Ask::Shared(SharedAsk::Access(access)), Reply::Answer(answer)) => taken(access, answer),
        (_, Reply::Done) => unlock_entry(alloc, ask.gives_up()),
        _ => Ok(None),
    }
}

// The unlock by which this was given up, if it was one. It was done.
fn unlock_entry(alloc: Global, given: Option<GivenUp<'_>>) -> Result<Option<Entry>, AllocError>
    ensures { IfOk result (λ entry. entry ≡ unlock_entry (option_map unlock_as (given_seen given.entry)) replies.Done) }
{
    match given {
        Some(GivenUp::Names(names)) => {
            let list = NameList::of(alloc, names.as_slice())?;
            Ok(Some(Entry::Unlock(Unlock::Names(list))))
        }
        Some(GivenUp::All) => Ok(Some(Entry::Unlock(Unlock::All))),
        None => Ok(None),
    }
}

// The access with its answer, if it was taken.
fn taken(access: &Access, answer: &Answer) -> Result<Option<Entry>, AllocError>
    ensures { IfOk result (λ entry. entry ≡ taken access.now answer.now) }
{
    if !is_taken(access, answer) {
        return Ok(None);
    }
    let own = access.try_clone()?;
    match answer.try_clone() {
        Ok(answer) => Ok(Some(Entry::Access(own, answer))),
        Err(refused) => {
            drop(own);
            Err(refused)
        }
    }
}

// Whether it was taken: it passed no limit, and isn't a change of a local name.
fn is_taken(access: &Access, answer: &Answer) -> bool
    ensures { result ≡ is_taken access.now answer.now }
{
    !(matches!(answer, Answer::Limit) || is_local_write(access))
}

// Whether it is a change of a local name.
fn is_local_write(access: &Access) -> bool
    ensures { result ≡ is_local_write access.now }
{
    is_write(access) && !access.name().is_global()
}
