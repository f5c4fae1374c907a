// Why jobs stopped before their end.

ghost use Rattle.std.specs.Prelude.{◌≡◌};
ghost use Rattle.mj_threads.specs.Cuts.{is_stop, was, first_refused, cut_of};

use mj_gather::{Ran, Stop};

/// Why jobs stopped before their end.
#[derive(Clone, Copy, PartialEq, Eq, Debug)]
pub enum Cut {
    /// memory was refused
    Memory,
    /// there are as many events as there may be
    Full,
    /// the system said that it isn't this job's turn, nobody could answer what it asked, or it asked behind its halt
    Refused { job: u32 },
}

/// Why jobs stopped before their end, if some did, or a claim was refused for want of memory.
pub fn cut_of(rans: &[Ran<'_>], short: bool) -> Option<Cut>
    ensures { result ≡ cut_of rans.now short }
{
    if short || was(rans, Stop::Memory) {
        Some(Cut::Memory)
    } else if was(rans, Stop::Full) {
        Some(Cut::Full)
    } else {
        first_refused(rans)
    }
}

// Whether a job stopped so.
fn was(rans: &[Ran<'_>], stop: Stop) -> bool
    ensures { result ≡ was rans.now stop }
{
    for ran in rans {
        if is_stop(ran.stop(), stop) {
            return true;
        }
    }
    false
}

// The first job that stopped refused, if one did.
fn first_refused(rans: &[Ran<'_>]) -> Option<Cut>
    ensures { result ≡ first_refused rans.now }
{
    for ran in rans {
        if is_stop(ran.stop(), Stop::Refused) {
            return Some(Cut::Refused {
                job: ran.claim().job(),
            });
        }
    }
    None
}

// Whether two stops are the same.
fn is_stop(one: Stop, two: Stop) -> bool
    ensures { result ≡ is_stop one two }
{
    matches!(
        (one, two),
        (Stop::Ended, Stop::Ended)
            | (Stop::Full, Stop::Full)
            | (Stop::Memory, Stop::Memory)
            | (Stop::Refused, Stop::Refused)
    )
}
