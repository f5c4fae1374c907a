// What the events of a trace are.

ghost use Rattle.std.specs.Prelude.{◌≡◌, option_copied};
ghost use Rattle.mj_ask.specs.Keeping.{is_limit};
ghost use Rattle.mj_explain.specs.Events.{began_after, is_change, access_in, change_in, is_counted_access, is_unlock, is_counted, is_commit};
ghost use Rattle.mj_explain.specs.Events.{sets, touches, asks_of};
ghost use Rattle.mj_explain.specs.Events.{change_at, is_change_of, is_counted_of, is_set_of, is_touch_of};
ghost use Rattle.mj_explain.specs.Clashes.{is_clash, IsClashOf};

use crate::looks::{is_same_word, rest_of, stands_along};
use mj_ask::{Ask, Clash, Noted, Reply, SharedAsk};
use mj_store::{Access, Answer};
use mj_subs::Name;
use mj_txlog::is_write;

/// Where the transaction began that a job has open behind an ask of its at a place, by what it had open before.
pub fn began_after(place: usize, began: Option<usize>, ask: &Ask) -> Option<usize>
    ensures { result ≡ began_after place began ask.now }
{
    match began {
        None => match ask {
            Ask::Shared(SharedAsk::Begin(_)) => Some(place),
            _ => None,
        },
        Some(begin) => match ask {
            Ask::Shared(SharedAsk::Commit)
            | Ask::Shared(SharedAsk::Rollback)
            | Ask::Shared(SharedAsk::Halt(_)) => None,
            _ => Some(begin),
        },
    }
}

// Whether it is a change of a global.
fn is_change(access: &Access) -> bool
    ensures { result ≡ is_change access.now }
{
    is_write(access) && access.name().is_global()
}

// Whether the answer is that a limit is passed.
fn is_limit(answer: &Answer) -> bool
    ensures { result ≡ is_limit answer.now }
{
    matches!(answer, Answer::Limit)
}

// The access that an event is, if it is one that passed no limit.
fn access_in<'a>(ask: &'a Ask, reply: &Reply) -> Option<&'a Access>
    ensures { option_copied result ≡ access_in ask.now reply.now }
{
    match (ask, reply) {
        (Ask::Shared(SharedAsk::Access(access)), Reply::Answer(answer)) => {
            if is_limit(answer) { None } else { Some(access) }
        }
        _ => None,
    }
}

// The change of a global that an event is, if it is one.
fn change_in<'a>(ask: &'a Ask, reply: &Reply) -> Option<&'a Access>
    ensures { option_copied result ≡ change_in ask.now reply.now }
{
    let access = access_in(ask, reply)?;
    if is_change(access) {
        Some(access)
    } else {
        None
    }
}

// Whether an event is one of the accesses that a transaction counts.
fn is_counted(ask: &Ask, reply: &Reply) -> bool
    ensures { result ≡ is_counted ask.now reply.now }
{
    is_counted_access(access_in(ask, reply)) || is_unlock(ask, reply)
}

// Whether there is an access, and it is a read or a change of a global.
fn is_counted_access(access: Option<&Access>) -> bool
    ensures { result ≡ is_counted_access (option_copied access.entry) }
{
    match access {
        None => false,
        Some(access) => is_change(access) || !is_write(access),
    }
}

// Whether an unlock was done.
fn is_unlock(ask: &Ask, reply: &Reply) -> bool
    ensures { result ≡ is_unlock ask.now reply.now }
{
    ask.gives_up().is_some() && matches!(reply, Reply::Done)
}

/// Whether a commit was done.
pub fn is_commit(ask: &Ask, reply: &Reply) -> bool
    ensures { result ≡ is_commit ask.now reply.now }
{
    match (ask, reply) {
        (Ask::Shared(SharedAsk::Commit), Reply::Done) => true,
        _ => false,
    }
}

/// The clash by which a commit wasn't done, if it is one that clashed.
pub fn clash_of<'a>(ask: &Ask, reply: &'a Reply) -> Option<&'a Clash>
    ensures { IsClashOf ask.now reply.now (option_copied result) }
{
    match (ask, reply) {
        (Ask::Shared(SharedAsk::Commit), Reply::Clash(clash)) => Some(clash.get()),
        _ => None,
    }
}

// Whether an access, if there is one, gives a name a text.
fn sets(name: &Name, access: Option<&Access>) -> bool
    ensures { result ≡ sets name.now (option_copied access.entry) }
{
    match access {
        Some(Access::Set(other, _)) => other.get() == name,
        _ => false,
    }
}

/// Whether an access may tell of the text that a name has, or change it.
pub fn touches(name: &Name, access: &Access) -> bool
    ensures { result ≡ touches name.now access.now }
{
    match access {
        Access::Value(other) | Access::Set(other, _) => other.get() == name,
        Access::Order(other, _) => stands_along(name, other.get()),
        Access::Query(other) => is_same_word(other.get(), name),
        Access::Data(other)
        | Access::Subtree(other)
        | Access::Kill(other)
        | Access::Put(other, _) => {
            let other = other.get();
            rest_of(other, other.subscripts().as_slice(), name).is_some()
        }
    }
}

// Whether what is asked is such an access.
fn asks_of(name: &Name, ask: &Ask) -> bool
    ensures { result ≡ asks_of name.now ask.now }
{
    match ask {
        Ask::Shared(SharedAsk::Access(access)) => touches(name, access),
        _ => false,
    }
}

/// The change of a global that the event at a place is, if it is one.
pub fn change_at(events: &[Noted], place: usize) -> Option<&Access>
    ensures { option_copied result ≡ change_at events.now place }
{
    let event = events.get(place)?;
    change_in(&event.ask, &event.reply)
}

/// Whether it is one of a job.
pub fn is_change_of(job: u32, event: Option<&Noted>) -> bool
    ensures { result ≡ is_change_of job (option_copied event.entry) }
{
    match event {
        None => false,
        Some(event) => event.job == job && change_in(&event.ask, &event.reply).is_some(),
    }
}

/// Whether it is one of the accesses that a transaction of a job counts.
pub fn is_counted_of(job: u32, event: Option<&Noted>) -> bool
    ensures { result ≡ is_counted_of job (option_copied event.entry) }
{
    match event {
        None => false,
        Some(event) => event.job == job && is_counted(&event.ask, &event.reply),
    }
}

/// Whether a job gives a name a text there.
pub fn is_set_of(job: u32, name: &Name, event: Option<&Noted>) -> bool
    ensures { result ≡ is_set_of job name.now (option_copied event.entry) }
{
    match event {
        None => false,
        Some(event) => event.job == job && sets(name, change_in(&event.ask, &event.reply)),
    }
}

/// Whether a job has an access there that may tell of the text of a name, or change it.
pub fn is_touch_of(job: u32, name: &Name, event: Option<&Noted>) -> bool
    ensures { result ≡ is_touch_of job name.now (option_copied event.entry) }
{
    match event {
        None => false,
        Some(event) => event.job == job && asks_of(name, &event.ask),
    }
}
