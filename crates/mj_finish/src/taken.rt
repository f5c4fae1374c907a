// Where a job took what it holds.

ghost use Rattle.std.specs.Prelude.{◌≡◌, length, slice_get};
ghost use Rattle.std.specs.List.{list_any};
ghost use Rattle.mj_subs.specs.Name.{names_eq};
ghost use Rattle.mj_finish.specs.Taken.{is_taken_at, is_taking, last_taking, takes as the_takes};

use mj_ask::{Ask, Reply, SharedAsk};
use mj_core::{Answerer, Core, Fresh};
use mj_dev::Device;
use mj_subs::Name;
use mj_sys::{Held, Opening};

/// The place of the last event by which a job took what it holds, from 0: of a name by a LOCK that got it, of a device by an OPEN.
#[tactic(auto, using(crate::proofs::Latest::taken_there, crate::proofs::Latest::taken_before))]
pub fn last_taking<D: Device, A: Answerer<Fresh<D>>, O: Opening>(
    core: &Core<D, A, O>,
    job: u32,
    held: &Held,
) -> Option<usize>
    ensures { result ≡ last_taking (is_taking job held.now) core.now.history (length core.now.history) }
{
    let mut end = core.len();
    'events: while end > 0 {
        let at = end - 1;
        if takes_at(core, at, job, held) {
            return Some(at);
        }
        end = at;
    }
    None
}

// Whether the event at a place is one by which a job took what it holds.
fn takes_at<D: Device, A: Answerer<Fresh<D>>, O: Opening>(
    core: &Core<D, A, O>,
    at: usize,
    job: u32,
    held: &Held,
) -> bool
    ensures { result ≡ is_taken_at (is_taking job held.now) (slice_get core.now.history at) }
{
    match core.event(at) {
        None => false,
        Some((who, ask, reply)) => who == job && takes(ask, reply, held),
    }
}

// Whether an ask that is told this takes what is held.
fn takes(ask: &Ask, reply: &Reply, held: &Held) -> bool
    ensures { result ≡ the_takes ask.now reply.now held.now }
{
    match (ask, reply, held) {
        (Ask::Shared(SharedAsk::Try(names, _)), Reply::Got, Held::Name(name)) => is_among(
            names.as_slice(),
            name.get(),
        ),
        (Ask::Shared(SharedAsk::Open(device, _)), Reply::Got, Held::Device(name)) => *device
            == *name,
        _ => false,
    }
}

// Whether a name is one of these.
fn is_among(names: &[Name], name: &Name) -> bool
    ensures { result ≡ list_any (λ n. names_eq n name.now) names.now }
{
    names.iter().any(|one| *one == *name)
}
