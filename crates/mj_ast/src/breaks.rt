// BREAK, at which a debugger stops.

ghost use Rattle.std.specs.Prelude.{◌≡◌};
ghost use Rattle.std.specs.List.{list_any};
ghost use Rattle.mj_ast.specs.Trees.{command_of, line_of};
ghost use Rattle.mj_ast.specs.Breaks as breaks;

use crate::routine::{Command, Line, LineCommand};

impl Command {
    /// Whether it is BREAK.
    pub fn is_break(&self) -> bool
        ensures { result ≡ breaks.is_break (command_of self.now) }
    {
        match self {
            Command::Set(_)
            | Command::Write(_)
            | Command::Halt
            | Command::Hang(_)
            | Command::Job(_)
            | Command::Lock(_)
            | Command::Kill(_)
            | Command::Merge(_)
            | Command::If(_)
            | Command::Else
            | Command::For(_, _)
            | Command::Forever
            | Command::Do(_)
            | Command::Goto(_)
            | Command::Quit(_)
            | Command::New(_)
            | Command::Open(_)
            | Command::Use(_)
            | Command::Close(_)
            | Command::Read(_)
            | Command::TStart(_)
            | Command::TCommit
            | Command::TRestart
            | Command::TRollback => false,
            Command::Break => true,
        }
    }
}

impl Line {
    /// Whether one of its commands is BREAK.
    #[tactic(auto, using(crate::proofs::Held::kept_alike))]
    pub fn holds_break(&self) -> bool
        ensures { result ≡ breaks.holds_break (line_of self.now) }
    {
        is_among(&self.steps)
    }
}

// Whether one of these commands is BREAK.
fn is_among(steps: &[LineCommand]) -> bool
    ensures { result ≡ list_any (λ s. breaks.is_break (command_of s.command)) steps.now }
{
    steps.iter().any(|step| step.command.is_break())
}
