// Jobs that wait for each other.

ghost use Rattle.std.specs.Prelude.{◌≡◌, option_copied};
ghost use Rattle.mj_explain.specs.Waiting.{wanted, wanted_by, is_held, is_kept_by, is_wait, asker, holder, is_same_job};
ghost use Rattle.mj_explain.specs.Waiting.{are_round, is_among, are_apart, is_deadlock};

use mj_ask::{Ask, SharedAsk};
use mj_subs::Name;

/// What a job asks for that goes on, and has no reply yet.
pub type Asked = (u32, Ask);

/// A name that a job holds, and the place of the event by which it came to hold it.
pub type Hold = (u32, Name, usize);

/// A job waits for a name that another holds.
#[derive(Clone, Copy, PartialEq, Eq, Debug)]
pub struct Wait {
    /// the number of the ask among those that jobs make, from 0
    pub ask: usize,
    /// the number of the name among those that it wants
    pub name: usize,
    /// the number of what is held among all that is
    pub hold: usize,
}

// The name of this number among those that an ask wants to lock, where it waits for ever.
fn wanted(ask: &Ask, number: usize) -> Option<&Name>
    ensures { option_copied result ≡ wanted ask.now number }
{
    match ask {
        Ask::Shared(SharedAsk::Try(names, None)) => names.as_slice().get(number),
        _ => None,
    }
}

/// How many names an ask wants to lock, where it waits for ever.
pub fn wants(asked: Option<&Asked>) -> usize {
    match asked {
        Some((_, Ask::Shared(SharedAsk::Try(names, None)))) => names.as_slice().len(),
        _ => 0,
    }
}

/// The name of this number among those that an ask wants to lock, where it waits for ever, if there is the ask.
pub fn wanted_by(asked: Option<&Asked>, number: usize) -> Option<&Name>
    ensures { option_copied result ≡ wanted_by (option_copied asked.entry) number }
{
    match asked {
        None => None,
        Some((_, ask)) => wanted(ask, number),
    }
}

// Whether a name overlaps one that another job holds.
fn is_held(job: u32, name: Option<&Name>, hold: Option<&Hold>) -> bool
    ensures { result ≡ is_held job (option_copied name.entry) (option_copied hold.entry) }
{
    match (name, hold) {
        (Some(name), Some((holder, held, _))) => !(*holder == job) && held.overlap(name),
        _ => false,
    }
}

// Whether the job of an ask waits for a name that another holds.
fn is_kept_by(asked: Option<&Asked>, name: usize, hold: Option<&Hold>) -> bool
    ensures { result ≡ is_kept_by (option_copied asked.entry) name (option_copied hold.entry) }
{
    match asked {
        None => false,
        Some((job, ask)) => is_held(*job, wanted(ask, name), hold),
    }
}

/// Whether it is so that a job waits.
pub fn is_wait(asked: &[Asked], holds: &[Hold], wait: Wait) -> bool
    ensures { result ≡ is_wait asked.now holds.now wait }
{
    is_kept_by(asked.get(wait.ask), wait.name, holds.get(wait.hold))
}

// The job that asks.
fn asker(asked: &[Asked], wait: Wait) -> Option<u32>
    ensures { result ≡ asker asked.now wait }
{
    match asked.get(wait.ask) {
        None => None,
        Some((job, _)) => Some(*job),
    }
}

// The job that holds.
fn holder(holds: &[Hold], wait: Wait) -> Option<u32>
    ensures { result ≡ holder holds.now wait }
{
    match holds.get(wait.hold) {
        None => None,
        Some((job, _, _)) => Some(*job),
    }
}

// Whether two are there and are the same job.
fn is_same_job(one: Option<u32>, other: Option<u32>) -> bool
    ensures { result ≡ is_same_job one other }
{
    match (one, other) {
        (Some(one), Some(other)) => one == other,
        _ => false,
    }
}

// Whether each waits, the first for the second and so on, and the last for the job of this wait.
fn are_round(asked: &[Asked], holds: &[Hold], first: Wait, waits: &[Wait]) -> bool
    ensures { result ≡ are_round asked.now holds.now first waits.now }
{
    match waits {
        [] => false,
        [wait] => {
            is_wait(asked, holds, *wait) && is_same_job(holder(holds, *wait), asker(asked, first))
        }
        [wait, rest @ ..] => {
            is_wait(asked, holds, *wait)
                && is_same_job(holder(holds, *wait), asker(asked, rest[0]))
                && are_round(asked, holds, first, rest)
        }
    }
}

// Whether the job of a wait is one of those of others.
fn is_among(asked: &[Asked], wait: Wait, waits: &[Wait]) -> bool
    ensures { result ≡ is_among asked.now wait waits.now }
{
    waits.iter().any(|other| is_same_job(asker(asked, *other), asker(asked, wait)))
}

// Whether no job waits twice.
fn are_apart(asked: &[Asked], waits: &[Wait]) -> bool
    ensures { result ≡ are_apart asked.now waits.now }
{
    match waits {
        [] => true,
        [wait, rest @ ..] => !is_among(asked, *wait, rest) && are_apart(asked, rest),
    }
}

/// Whether these waits are a deadlock: each job waits for the next, and the last for the first, and no job is in it twice.
pub fn is_deadlock(asked: &[Asked], holds: &[Hold], waits: &[Wait]) -> bool
    ensures { result ≡ is_deadlock asked.now holds.now waits.now }
{
    match waits {
        [] => false,
        [first, ..] => are_round(asked, holds, *first, waits) && are_apart(asked, waits),
    }
}
