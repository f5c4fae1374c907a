// What was told on the way that the exit status says.

ghost use Rattle.std.specs.Prelude.{◌≡◌, ◌≤◌, false};
ghost use Rattle.mj_remade.specs.Said.{status_said};

use mj_drafts::{DIFFERS, FAILED};

/// What was told so far that the exit status says.
#[derive(Clone, Copy)]
pub struct Said {
    /// that the record isn't that of the trace that was opened
    pub differs: bool,
    /// that the record is full
    pub full: bool,
}

impl Said {
    /// Nothing of this.
    pub fn nothing() -> Said
        ensures differs { result.differs ≡ false }
        ensures full { result.full ≡ false }
    {
        Said {
            differs: false,
            full: false,
        }
    }

    /// The exit status: the greater where both were told.
    pub fn status(self) -> u8
        ensures which { result ≡ status_said self }
        ensures bound { result ≤ 4 }
    {
        if self.full {
            FAILED
        } else if self.differs {
            DIFFERS
        } else {
            0
        }
    }
}
