// One command.

use mj_steps::Step;
use mj_text::Text;

/// What the debugger is to do.
#[derive(Drop)]
pub enum Command {
    /// to make this step
    Step(Step),
    /// to make so many steps in turn, up to a breakpoint
    Go(u32),
    /// to stop at this line from now on
    Set { routine: Text, line: u32 },
    /// not to stop at this line from now on
    Clear { routine: Text, line: u32 },
    /// to go one event back along the record
    Back,
    /// to go one event on along the record
    Forward,
    /// to show the frames of this job
    Frames(u32),
    /// to show the locals of this job
    Locals(u32),
    /// to show who holds which names
    Locks,
    /// to show the committed globals
    Globals,
    /// to end
    Quit,
}
