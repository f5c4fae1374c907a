// Whether jobs ended by a fault.

ghost use Rattle.std.specs.Prelude.{◌≡◌, slice_get};
ghost use Rattle.mj_report.specs.Faults.{has_faulted, event_faults, is_fault};

use crate::history::Events;
use mj_ask::{Ask, SharedAsk};

/// Whether a job ended by a fault.
pub fn has_faulted<H: Events>(told: &H) -> bool
    ensures { result ≡ has_faulted (H.history told.now) }
{
    'events: for at in 0..told.count() {
        if faults_at(told, at) {
            return true;
        }
    }
    false
}

// Whether the event at a place, from 0, is the end of a job by a fault.
fn faults_at<H: Events>(told: &H, at: usize) -> bool
    ensures { result ≡ event_faults (slice_get (H.history told.now) at) }
{
    match told.event_at(at) {
        None => false,
        Some((_, ask, _)) => is_fault(ask),
    }
}

// Whether the ask is that of a job which ends by a fault.
fn is_fault(ask: &Ask) -> bool
    ensures { result ≡ is_fault ask.now }
{
    matches!(ask, Ask::Shared(SharedAsk::Halt(Some(_))))
}
