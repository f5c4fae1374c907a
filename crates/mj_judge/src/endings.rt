// How stepping ended.

ghost use Rattle.std.specs.Prelude.{◌≡◌};
ghost use Rattle.mj_judge.specs.Endings.{is_for_memory};

use mj_steps::{Ending, Refusal};

/// Whether stepping ended since memory was refused.
pub fn is_for_memory(ending: Ending) -> bool
    ensures { result ≡ is_for_memory ending }
{
    matches!(
        ending,
        Ending::Refused {
            why: Refusal::Memory,
            ..
        }
    )
}
