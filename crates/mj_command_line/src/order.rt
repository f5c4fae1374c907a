// What the words ask for, or why they ask for nothing.

ghost use Rattle.std.specs.Prelude.{◌<◌};

use std::alloc::AllocError;

/// The most workers that the words may ask for: as many as `mj_work` runs.
pub const WORKERS_LIMIT: u32 = 64;
/// How many workers there are, where the words don't say.
pub const WORKERS: u32 = 8;
/// The most runs by chance that the words may ask for.
pub const RUNS_LIMIT: u32 = 1_000_000;
/// How many there are, where the words don't say.
pub const RUNS: u32 = 1000;
/// What chance comes from, where the words don't say.
pub const SEED: u32 = 1;
/// How many events a run may have, where the words don't say.
pub const EVENTS: u32 = 1_000_000;

/// What the words ask for.
#[derive(Drop)]
pub enum Order<'a> {
    /// to run jobs at the same time, by so many workers
    Run { run: Run<'a>, workers: u32 },
    /// to run one job whose output is written as it goes, and whose input is read line by line
    Live(Run<'a>),
    /// to step jobs, as a file says or in turn
    Step(Run<'a>),
    /// to make runs by chance, and to look for one that comes to something
    Explore(Explore<'a>),
    /// to step jobs by the commands of a debugger
    Debug(Debug<'a>),
    /// to load the routines of these files, and to say how many there are
    Check { files: Vec<&'a str> },
    /// to say whether a trace is that of a run
    Replay(Replay<'a>),
    /// to bring a trace to today's form
    Migrate(Migrate<'a>),
    /// to tell what a trace shows
    Explain(Explain<'a>),
}

/// Jobs that are to run.
#[derive(Drop)]
pub struct Run<'a> {
    /// where the first jobs start, one for each; none is one at the first line of the first routine
    pub starts: Vec<&'a str>,
    /// the files of the routines
    pub files: Vec<&'a str>,
    /// the file that lists the globals that are there at first
    pub globals: Option<&'a str>,
    /// the file to which the listing of the globals that are left goes
    pub save: Option<&'a str>,
    /// the file to which the trace of the run goes
    pub trace: Option<&'a str>,
    /// whether the first job's input is standard input
    pub stdin: bool,
    /// the devices that there are beside the principal ones, each as `NAME=in:FILE` or `NAME=out:FILE`
    pub devices: Vec<&'a str>,
    /// the file of the steps; without one, jobs that are stepped are so in turn
    pub steps: Option<&'a str>,
    /// whether to say, where all jobs wait, what each waits for
    pub why: bool,
    /// whether to tell, where something is refused or a run goes wrong, more of it, and what helps
    pub hints: bool,
    /// how many events there may be, and how often a job may ask
    pub events: u32,
    pub ghost some: { 0 < events },
}

/// Jobs that are to run by chance, again and again.
#[derive(Drop)]
pub struct Explore<'a> {
    /// the jobs; no file has their steps, nothing of them is saved, and where a file is named for steps it stands for that of the trace
    pub run: Run<'a>,
    /// whether the first job's input is standard input
    pub stdin: bool,
    /// how many runs there are at most
    pub runs: u32,
    /// what chance comes from
    pub seed: u32,
    /// what is looked for: `fault`, `stuck`, `clash`, or an expression that isn't true at the end
    pub until: Option<&'a str>,
    /// the file to which the steps of the run go that shows it
    pub keep: Option<&'a str>,
}

/// Jobs that are to be stepped by the commands of a debugger.
#[derive(Drop)]
pub struct Debug<'a> {
    /// the jobs; standard input isn't theirs, and no file has their steps
    pub run: Run<'a>,
    /// whether a prompt is shown where a command is to be given
    pub prompt: bool,
    /// the file of a trace whose run is opened in the place of one that begins
    pub replay: Option<&'a str>,
}

/// A trace that is to be replayed.
#[derive(Drop)]
pub struct Replay<'a> {
    /// the file of the trace
    pub trace: &'a str,
    /// the files of the routines
    pub files: Vec<&'a str>,
    /// the file that lists the globals that were there at first
    pub globals: Option<&'a str>,
    /// whether to tell, where something is refused, more of it, and what helps
    pub hints: bool,
    /// how many events there may be, and how often a job may ask
    pub events: u32,
    pub ghost some: { 0 < events },
}

/// A trace that is to be brought to today's form.
#[derive(Drop)]
pub struct Migrate<'a> {
    /// the trace, and what it is replayed over
    pub record: Replay<'a>,
    /// the file to which the trace goes
    pub out: &'a str,
}

/// A trace of which is to be told what it shows.
#[derive(Drop)]
pub struct Explain<'a> {
    /// the trace, its routines, and the globals that were there at first
    pub record: Replay<'a>,
    /// the file to which a page goes that shows it
    pub html: Option<&'a str>,
}

/// Why words are no order.
#[derive(Drop)]
pub enum NoOrder {
    /// they ask for help or for the version, which is this text
    Help(String),
    /// they are wrong, and this text says why
    Wrong(String),
    /// an allocation was refused
    Memory,
}

impl From<AllocError> for NoOrder {
    fn from(_error: AllocError) -> NoOrder {
        NoOrder::Memory
    }
}
