// How many jobs have ended, and how many of the last steps in turn waited.

ghost use Rattle.std.specs.Prelude.{◌≡◌, ◌<◌, ◌≤◌, ◌+◌, ◌^◌, length, take, slice_get};
ghost use Rattle.mj_guide.specs.Ends.{IsCounted, ended_in, is_end, is_waiting, waited_behind};

use crate::ends::seen_of;
use mj_core::{Core, Seen};
use mj_debug::{Debugger, Gone};
use mj_dev::Device;
use mj_inspect::is_over;
use mj_sessions::Sessions;
use mj_sys::Opening;

/// How many of the last steps in turn waited, one after the other; and how many jobs have ended by so many events.
#[derive(Clone, Copy)]
pub struct Tally {
    pub waited: u32,
    pub ended: usize,
    pub counted: usize,
}

// The tally before the first step.
pub fn tally_of<D: Device, O: Opening>(debugger: &Debugger<D, Sessions<D>, O>) -> Tally
    ensures counted { IsCounted result debugger.now.core.history }
    ensures waited { result.waited ≡ 0 }
{
    Tally {
        waited: 0,
        ended: ended_from(debugger, 0, 0),
        counted: events(debugger),
    }
}

// The tally with one step more.
pub fn tally_behind<D: Device, O: Opening>(
    tally: Tally,
    debugger: &Debugger<D, Sessions<D>, O>,
    gone: &Gone,
) -> Tally
    requires few { tally.waited + 1 < 2 ^ 32 }
    requires ended { tally.ended ≡ ended_in (take tally.counted debugger.now.core.history) }
    ensures counted { IsCounted result debugger.now.core.history }
    ensures waited { result.waited ≡ waited_behind tally.waited gone.now }
    ensures few { result.waited ≤ tally.waited + 1 }
{
    Tally {
        waited: waited_behind(tally.waited, gone),
        ended: ended_from(debugger, tally.counted, tally.ended),
        counted: events(debugger),
    }
}

// How many events there are.
fn events<D: Device, O: Opening>(debugger: &Debugger<D, Sessions<D>, O>) -> usize
    ensures { result ≡ length debugger.now.core.history }
{
    debugger.core().len()
}

// How many jobs have ended, where so many have by the events before a place.
fn ended_from<D: Device, O: Opening>(
    debugger: &Debugger<D, Sessions<D>, O>,
    from: usize,
    before: usize,
) -> usize
    requires { before ≡ ended_in (take from debugger.now.core.history) }
    ensures { result ≡ ended_in debugger.now.core.history }
{
    count_ended(debugger.core(), from, before)
}

// How many of the last steps in turn waited, one after the other, with one more.
fn waited_behind(waited: u32, gone: &Gone) -> u32
    requires { waited + 1 < 2 ^ 32 }
    ensures value { result ≡ waited_behind waited gone.now }
    ensures few { result ≤ waited + 1 }
{
    match seen_of(gone) {
        Some(seen) => { if is_waiting(seen) { waited + 1 } else { 0 } }
        None => 0,
    }
}

// Whether a step waited.
fn is_waiting(seen: &Seen) -> bool
    ensures { result ≡ is_waiting seen.now }
{
    match seen {
        Seen::Busy { .. } | Seen::NotYet => true,
        Seen::Event(_) | Seen::Unfit | Seen::Ran | Seen::Ended => false,
    }
}

// How many jobs have ended by all events, where so many have by those before a place.
fn count_ended<D: Device, O: Opening>(
    core: &Core<D, Sessions<D>, O>,
    from: usize,
    before: usize,
) -> usize
    requires { before ≡ ended_in (take from core.now.history) }
    ensures { result ≡ ended_in core.now.history }
{
    let mut ended = before;
    for at in from..core.len() {
        ended = ended_with(core, at, ended);
    }
    ended
}

// How many jobs have ended by the events before a place and the one there, where so many have by those before it.
fn ended_with<D: Device, O: Opening>(
    core: &Core<D, Sessions<D>, O>,
    at: usize,
    before: usize,
) -> usize
    requires counted { before ≡ ended_in (take at core.now.history) }
    requires within { at < length core.now.history }
    ensures { result ≡ ended_in (take (at + 1) core.now.history) }
{
    if is_end(core, at) {
        let _events = core.len(); // for the proof
        let ended = before + 1;
        return ended;
    }
    before
}

// Whether the event at a place ended its job.
fn is_end<D: Device, O: Opening>(core: &Core<D, Sessions<D>, O>, at: usize) -> bool
    ensures { result ≡ is_end (slice_get core.now.history at) }
{
    match core.event(at) {
        Some((_, ask, _)) => is_over(ask),
        None => false,
    }
}
