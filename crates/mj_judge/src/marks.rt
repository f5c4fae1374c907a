// Events of a kind.

ghost use Rattle.std.specs.Prelude.{◌≡◌, cond, nat_lt, slice_get};
ghost use Rattle.std.specs.List.{count_by};
ghost use Rattle.mj_judge.specs.Marks.{bears, bears_at, bears_by, fault_at, fault_in, fault_of, is_over};

use mj_ask::{Ask, Reply, SharedAsk};
use mj_core::Core;
use mj_dev::Memory;
use mj_sessions::Sessions;
use mj_sys::Opening;
use mj_text::Fault;

/// A kind of events.
#[derive(Clone, Copy, PartialEq, Eq, Debug)]
pub enum Mark {
    /// a job ends by a fault
    Fault,
    /// a commit clashes
    Clash,
    /// a job ends
    End,
}

/// How many events of a kind there are.
pub fn count<O: Opening>(core: &Core<Memory, Sessions<Memory>, O>, mark: Mark) -> usize
    ensures { result ≡ count_by (bears mark) core.now.history }
{
    let mut count = 0;
    'events: for at in 0..core.len() {
        count += share(core, at, mark);
    }
    count
}

/// Whether there is an event of a kind.
pub fn has<O: Opening>(core: &Core<Memory, Sessions<Memory>, O>, mark: Mark) -> bool
    ensures { result ≡ nat_lt 0 (count_by (bears mark) core.now.history) }
{
    count(core, mark) > 0
}

/// Whether all jobs have ended.
pub fn is_over<O: Opening>(core: &Core<Memory, Sessions<Memory>, O>) -> bool
    ensures { result ≡ is_over O.opening core.now.history }
{
    count(core, Mark::End) == core.jobs()
}

// How many events of a kind there are at a place, from 0.
fn share<O: Opening>(core: &Core<Memory, Sessions<Memory>, O>, at: usize, mark: Mark) -> usize
    ensures { result ≡ cond (bears_at mark (slice_get core.now.history at)) 1 0 }
{
    match core.event(at) {
        Some((_, ask, reply)) if bears(mark, ask, reply) => 1,
        _ => 0,
    }
}

// Whether an event with this ask and this reply is of a kind.
fn bears(mark: Mark, ask: &Ask, reply: &Reply) -> bool
    ensures { result ≡ bears_by mark ask.now reply.now }
{
    match mark {
        Mark::Fault => matches!(ask, Ask::Shared(SharedAsk::Halt(Some(_)))),
        Mark::Clash => matches!(reply, Reply::Clash(_)),
        Mark::End => matches!(ask, Ask::Shared(SharedAsk::Halt(_))),
    }
}

/// The first fault by which a job ended, if one did.
pub fn fault_in<O: Opening>(core: &Core<Memory, Sessions<Memory>, O>) -> Option<Fault>
    ensures { result ≡ fault_in core.now.history }
{
    'events: for at in 0..core.len() {
        match fault_at(core, at) {
            Some(fault) => return Some(fault),
            None => {}
        }
    }
    None
}

// The fault by which a job ended at a place, from 0, if one did.
fn fault_at<O: Opening>(core: &Core<Memory, Sessions<Memory>, O>, at: usize) -> Option<Fault>
    ensures { result ≡ fault_at (slice_get core.now.history at) }
{
    match core.event(at) {
        Some((_, ask, _)) => fault_of(ask),
        None => None,
    }
}

// The fault by which a job ends with this ask, if it ends by one.
fn fault_of(ask: &Ask) -> Option<Fault>
    ensures { result ≡ fault_of ask.now }
{
    match ask {
        Ask::Shared(SharedAsk::Halt(fault)) => *fault,
        _ => None,
    }
}
