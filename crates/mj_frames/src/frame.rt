// Frames.

ghost use Rattle.std.specs.Prelude.{◌≡◌, ◌≤◌, length, IfOk};

use mj_text::Text;
use std::alloc::AllocError;

/// A line of a routine.
#[derive(Drop)]
pub struct Place {
    pub routine: Text,
    pub line: u32,
    ghost short: { length routine ≤ 31 },
}

impl Place {
    /// A copy of it.
    pub fn try_clone(&self) -> Result<Place, AllocError>
        ensures routine { IfOk result (λ place. place.routine ≡ self.now.routine) }
        ensures line { IfOk result (λ place. place.line ≡ self.now.line) }
    {
        let routine = self.routine.try_clone()?;
        Ok(Place {
            routine,
            line: self.line,
        })
    }
}

/// A frame: where it stands, the level of its lines, whether it is a function's, the `$TEST` that its end restores, if it restores
/// one, and how many NEWs had saved locals before it began.
#[derive(Drop)]
pub struct Frame {
    pub place: Place,
    pub level: usize,
    pub function: bool,
    pub test: Option<bool>,
    pub height: usize,
}
