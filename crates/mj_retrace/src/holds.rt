// Which event made a job hold each name.

ghost use Rattle.std.specs.Prelude.{◌≡◌, ◌++◌, [], OnOk, if◌then◌else◌};
ghost use Rattle.mj_retrace.specs.Retraced.{locked_by};
ghost use Rattle.mj_retrace.specs.Noted.{changes_locks, is_noted, with_names, noted, gone};

use mj_ask::{Ask, Reply, SharedAsk};
use mj_locktab::LockTable;
use mj_subs::Name;
use std::alloc::AllocError;

/// A name that a job holds, and the place of the event by which it came to hold it.
pub type Hold = (u32, Name, usize);

/// A name that a job held, the place of the event by which it came to hold it, and that of the event by which it gave it up.
pub type Held = (u32, Name, usize, usize);

/// Notes what an event of a job changed of what jobs hold, where the locks are so behind it: what they hold, and what they held.
pub fn note_holds(
    holds: &mut Vec<Hold>,
    past: &mut Vec<Held>,
    locks: &LockTable,
    job: u32,
    ask: &Ask,
    reply: &Reply,
    place: usize,
) -> Result<(), AllocError>
    ensures holds { OnOk result (holds.new.items ≡ noted locks.now.holds job ask.now reply.now place holds.old.items) }
    ensures past { OnOk result (past.new.items
        ≡ past.old.items ++ (if changes_locks ask.now then gone locks.now.holds place holds.old.items else [])) }
{
    if !changes_locks(ask) {
        return Ok(());
    }
    note_gone(past, locks, holds, place)?;
    holds.retain(|hold| locks.count(hold.0, &hold.1) > 0);
    note_names(holds, locks, job, locked_by(ask, reply), place)
}

// The names that are locked by an ask which is told this.
fn locked_by<'a>(ask: &'a Ask, reply: &Reply) -> &'a [Name]
    ensures { result.now ≡ locked_by ask.now reply.now }
{
    match (ask, reply) {
        (Ask::Shared(SharedAsk::Try(names, _)), Reply::Got) => names.as_slice(),
        _ => &[],
    }
}

// Whether an ask may change who holds what.
fn changes_locks(ask: &Ask) -> bool
    ensures { result ≡ changes_locks ask.now }
{
    match ask {
        Ask::Shared(SharedAsk::Access(_))
        | Ask::Shared(SharedAsk::Begin(_))
        | Ask::Shared(SharedAsk::Open(_, _))
        | Ask::Shared(SharedAsk::Close(_))
        | Ask::Shared(SharedAsk::Start(_, _)) => false,
        Ask::Shared(_) => true,
        _ => false,
    }
}

// Notes of each name that isn't held any more that a job held it up to the event at a place.
fn note_gone(
    past: &mut Vec<Held>,
    locks: &LockTable,
    holds: &[Hold],
    place: usize,
) -> Result<(), AllocError>
    ensures { OnOk result (past.new.items ≡ past.old.items ++ gone locks.now.holds place holds.now) }
{
    for (job, name, since) in holds {
        if locks.count(*job, name) == 0 {
            past.push((*job, name.try_clone()?, *since, place))?;
        }
    }
    Ok(())
}

// Notes names that a job took by the event at a place, if it holds them, and hasn't held them before.
fn note_names(
    holds: &mut Vec<Hold>,
    locks: &LockTable,
    job: u32,
    names: &[Name],
    place: usize,
) -> Result<(), AllocError>
    ensures { OnOk result (holds.new.items ≡ with_names locks.now.holds job place names.now holds.old.items) }
{
    for name in names {
        if locks.count(job, name) > 0 && !is_noted(holds, job, name) {
            holds.push((job, name.try_clone()?, place))?;
        }
    }
    Ok(())
}

// Whether it is noted that a job holds a name.
fn is_noted(holds: &[Hold], job: u32, name: &Name) -> bool
    ensures { result ≡ is_noted holds.now job name.now }
{
    holds.iter().any(|hold| hold.0 == job && hold.1 == *name)
}
