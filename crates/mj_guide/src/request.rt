// One request.

use mj_ask::Entry;
use mj_dialogue::Command;
use mj_inspect::Special;
use mj_subs::Name;
use mj_text::Text;

/// What jobs go on up to.
#[derive(Drop)]
pub enum Goal {
    /// a transaction's commit that clashed
    Clash,
    /// a step that was busy
    Busy,
    /// the end of a job that faulted
    Fault,
    /// an ask from this line
    Line { routine: Text, line: u32 },
}

/// What a debugger is to do that shows a prompt.
#[derive(Drop)]
pub enum Request {
    /// a command that stands without a prompt too
    Plain(Command),
    /// to list the commands
    Help,
    /// to list the lines at which jobs stop
    Breaks,
    /// to stop at this entry's line from now on
    SetAt(Entry),
    /// not to stop at this entry's line from now on
    ClearAt(Entry),
    /// to show the source round the line of the last ask before the place
    Source,
    /// to show the source round this line
    SourceAt { routine: Text, line: u32 },
    /// to show the source round this entry's line
    SourceOf(Entry),
    /// to show a variable of the job of the last ask before the place, with all below it
    Show(Name),
    /// to show a variable of this job, with all below it
    ShowOf { job: u32, name: Name },
    /// to show a special variable of the job of the last ask before the place
    Special(Special),
    /// to show a special variable of this job
    SpecialOf { job: u32, special: Special },
    /// to show what each job asks next, and from which line
    Waits,
    /// to list the names that are watched
    Watched,
    /// to watch this name from now on
    Watch(Name),
    /// not to watch this name from now on
    Unwatch(Name),
    /// to step the jobs in turn up to this
    Until(Goal),
    /// to write the steps that were made to the file of this name
    Keep(Vec<u8>),
    /// to forget all behind the place, and to go on from there
    Branch,
}
