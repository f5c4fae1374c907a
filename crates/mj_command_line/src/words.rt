// The commands, and what can be given to each: rows, of which the command line is built.

use crate::order::{RUNS_LIMIT, WORKERS_LIMIT};
use crate::texts::{
    CHECK_EXAMPLE, DEBUG_EXAMPLE, EXAMPLES, EXPLAIN_EXAMPLE, EXPLORE_EXAMPLE, MIGRATE_EXAMPLE,
    REPLAY_EXAMPLE, RUN_EXAMPLE, STEP_EXAMPLE, VERSION,
};
use clap::{Arg, ArgAction, Command, value_parser};
use std::alloc::{AllocError, Global};

// A command. Beside its options each has the files of the routines.
struct Row {
    name: &'static str,
    about: &'static str,
    example: &'static str,
    options: &'static [Choice],
}

// What can be given by `--NAME`.
struct Choice {
    name: &'static str,
    // what the help has in place of a value; a flag has no value
    value: Option<&'static str>,
    // what the help says of it; without that it isn't in the help, as it is refused
    help: &'static str,
    action: ArgAction,
    required: bool,
    // the greatest number that the value may be, where it is one; the least is 1
    most: Option<u32>,
}

const COMMANDS: [Row; 8] = [
    Row {
        name: "run",
        about: "Runs jobs at the same time, by threads, and prints what they write",
        example: RUN_EXAMPLE,
        options: &[
            WORKERS, LIVE, EVENTS, HINTS, START, GLOBALS, SAVE, TRACE, STDIN, DEVICE,
        ],
    },
    Row {
        name: "step",
        about: "Runs jobs by single steps, in turn or as a file says, and prints what they write",
        example: STEP_EXAMPLE,
        options: &[
            STEPS, WHY, EVENTS, HINTS, START, GLOBALS, SAVE, TRACE, STDIN, DEVICE,
        ],
    },
    Row {
        name: "explore",
        about: "Makes runs by chance, counts their different ends, and finds one that faults, gets stuck, clashes or ends in what isn't true",
        example: EXPLORE_EXAMPLE,
        options: &[
            RUNS, SEED, UNTIL, KEEP, HINTS, START, GLOBALS, STDIN, DEVICE,
        ],
    },
    Row {
        name: "debug",
        about: "Steps jobs by the commands that standard input has, and prints what is answered to them",
        example: DEBUG_EXAMPLE,
        options: &[
            PROMPT, REPLAY, EVENTS, HINTS, START, GLOBALS, SAVE, TRACE, DEVICE, NO_STEPS,
        ],
    },
    Row {
        name: "check",
        about: "Loads routines without running them, and prints how many there are, or what is refused and what helps",
        example: CHECK_EXAMPLE,
        options: &[],
    },
    Row {
        name: "replay",
        about: "Says whether a trace is that of a run of these routines, or which line isn't",
        example: REPLAY_EXAMPLE,
        options: &[RECORDED, GLOBALS, EVENTS, HINTS],
    },
    Row {
        name: "migrate",
        about: "Brings a trace to today's form, in which each event has the line of its command, if it is that of a run of these routines",
        example: MIGRATE_EXAMPLE,
        options: &[RECORDED, OUT, GLOBALS, EVENTS, HINTS],
    },
    Row {
        name: "explain",
        about: "Tells what a trace shows: clashes, deadlocks and lost updates, and where they come from",
        example: EXPLAIN_EXAMPLE,
        options: &[GLOBALS, HTML, EVENTS, HINTS, RECORD],
    },
];

const WORKERS: Choice = Choice {
    name: "workers",
    value: Some("N"),
    help: "How many threads run jobs: 1 to 64, or 8 where it isn't said; a thread keeps a job to its end",
    action: ArgAction::Set,
    required: false,
    most: Some(WORKERS_LIMIT),
};

const LIVE: Choice = Choice {
    name: "live",
    value: None,
    help: "Runs one job as at a terminal: writes what it writes at once, and reads standard input line by line, as the job asks for lines",
    action: ArgAction::SetTrue,
    required: false,
    most: None,
};

const START: Choice = Choice {
    name: "start",
    value: Some("ENTRY"),
    help: "Where a job starts: label^ROUTINE or ^ROUTINE; once for each of 1 to 255 jobs, or one at the first routine",
    action: ArgAction::Append,
    required: false,
    most: None,
};

const STEPS: Choice = Choice {
    name: "steps",
    value: Some("FILE"),
    help: "The steps, one a line: the number of a job, and `late` behind it where its timeout is over",
    action: ArgAction::Set,
    required: false,
    most: None,
};

// That a debugger doesn't take steps from a file is said where it is asked to.
const NO_STEPS: Choice = Choice {
    name: "steps",
    value: Some("FILE"),
    help: "",
    action: ArgAction::Set,
    required: false,
    most: None,
};

const WHY: Choice = Choice {
    name: "why",
    value: None,
    help: "Says, where all jobs wait, what each waits for",
    action: ArgAction::SetTrue,
    required: false,
    most: None,
};

const RUNS: Choice = Choice {
    name: "runs",
    value: Some("N"),
    help: "How many runs there are at most: 1 to 1000000, or 1000 where it isn't said",
    action: ArgAction::Set,
    required: false,
    most: Some(RUNS_LIMIT),
};

const SEED: Choice = Choice {
    name: "seed",
    value: Some("N"),
    help: "What chance comes from: 1 to 4294967295, or 1 where it isn't said; the same runs come of the same number",
    action: ArgAction::Set,
    required: false,
    most: Some(u32::MAX),
};

const EVENTS: Choice = Choice {
    name: "events",
    value: Some("N"),
    help: "How many events a run may have: 1 to 4294967295, or 1000000 where it isn't said",
    action: ArgAction::Set,
    required: false,
    most: Some(u32::MAX),
};

const UNTIL: Choice = Choice {
    name: "until",
    value: Some("fault|stuck|clash|EXPRESSION"),
    help: "What ends the runs: a job that faults, jobs that all wait, a commit that clashes, or an expression over globals that isn't true at the end of a run",
    action: ArgAction::Set,
    required: false,
    most: None,
};

const KEEP: Choice = Choice {
    name: "keep",
    value: Some("FILE"),
    help: "Where the steps of the run are written that shows it, in the form that `mj step --steps` reads",
    action: ArgAction::Set,
    required: false,
    most: None,
};

const HINTS: Choice = Choice {
    name: "hints",
    value: None,
    help: "Tells, where something is refused, a job faults or a run goes wrong, more of it and what helps; at a terminal it is told anyway",
    action: ArgAction::SetTrue,
    required: false,
    most: None,
};

const PROMPT: Choice = Choice {
    name: "prompt",
    value: None,
    help: "Shows, on standard error, where a job stands and a prompt before each command; at a terminal it is shown anyway",
    action: ArgAction::SetTrue,
    required: false,
    most: None,
};

const REPLAY: Choice = Choice {
    name: "replay",
    value: Some("FILE"),
    help: "Opens the trace in FILE: its jobs, its devices and its steps; beside it only the globals and the prompt are given; `mj step --trace` writes one",
    action: ArgAction::Set,
    required: false,
    most: None,
};

const GLOBALS: Choice = Choice {
    name: "globals",
    value: Some("FILE"),
    help: "The listing of the globals that are there at first",
    action: ArgAction::Set,
    required: false,
    most: None,
};

const SAVE: Choice = Choice {
    name: "save",
    value: Some("FILE"),
    help: "Where the listing of the globals that are left is written",
    action: ArgAction::Set,
    required: false,
    most: None,
};

const TRACE: Choice = Choice {
    name: "trace",
    value: Some("FILE"),
    help: "Where the trace of the run is written: each event, a line",
    action: ArgAction::Set,
    required: false,
    most: None,
};

const RECORDED: Choice = Choice {
    name: "trace",
    value: Some("FILE"),
    help: "The trace, as `mj run --trace` or `mj step --trace` writes it",
    action: ArgAction::Set,
    required: true,
    most: None,
};

const OUT: Choice = Choice {
    name: "out",
    value: Some("FILE"),
    help: "Where the trace is written; it may take the place of the one that is read",
    action: ArgAction::Set,
    required: true,
    most: None,
};

// It is given by its place, in front of the routines.
const RECORD: Choice = Choice {
    name: "record",
    value: Some("TRACE"),
    help: "The trace, as `mj run --trace` or `mj step --trace` writes it",
    action: ArgAction::Set,
    required: true,
    most: None,
};

const HTML: Choice = Choice {
    name: "html",
    value: Some("FILE"),
    help: "Where a page is written that shows the run",
    action: ArgAction::Set,
    required: false,
    most: None,
};

const STDIN: Choice = Choice {
    name: "stdin",
    value: None,
    help: "Lets the first job read standard input, which is read whole before it starts",
    action: ArgAction::SetTrue,
    required: false,
    most: None,
};

const DEVICE: Choice = Choice {
    name: "device",
    value: Some("NAME=in:FILE|NAME=out:FILE"),
    help: "One more session of the device NAME, which reads the lines of FILE or writes it; once for each",
    action: ArgAction::Append,
    required: false,
    most: None,
};

/// The command line. Its parts are built by functions that hand them on finished, since each way out of a function drops the commands that it has.
pub fn command<'a>(alloc: Global) -> Result<Command<'a>, AllocError> {
    let subcommands = subcommands(alloc)?;
    Command::new(alloc, "mj")
        .version(VERSION)
        .about("An M (MUMPS) system, proved")
        .after_help(EXAMPLES)
        .subcommand_required(true)
        .subcommands(subcommands)
}

fn subcommands<'a>(alloc: Global) -> Result<Vec<Command<'a>>, AllocError> {
    let mut commands = Vec::new(alloc);
    for row in &COMMANDS {
        commands.push(subcommand(alloc, row)?)?;
    }
    Ok(commands)
}

fn subcommand<'a>(alloc: Global, row: &Row) -> Result<Command<'a>, AllocError> {
    let arguments = arguments(alloc, row.options)?;
    Command::new(alloc, row.name)
        .about(row.about)
        .after_help(row.example)
        .args(arguments)
}

// These options, and behind them the files of the routines.
fn arguments<'a>(alloc: Global, options: &[Choice]) -> Result<Vec<Arg<'a>>, AllocError> {
    let mut arguments = Vec::new(alloc);
    for one in options {
        arguments.push(option(alloc, one))?;
    }
    arguments.push(routines(alloc))?;
    Ok(arguments)
}

fn option<'a>(alloc: Global, row: &Choice) -> Arg<'a> {
    let option = Arg::new(alloc, row.name)
        .help(row.help)
        .hide(row.help.is_empty())
        .action(row.action)
        .required(row.required);
    let option = if row.name == RECORD.name {
        option
    } else {
        option.long(row.name)
    };
    let option = match row.value {
        Some(value) => option.value_name(value),
        None => option,
    };
    match row.most {
        Some(most) => option.value_parser(value_parser!(u32).range(1..=i64::from(most))),
        None => option,
    }
}

fn routines<'a>(alloc: Global) -> Arg<'a> {
    Arg::new(alloc, "routines")
        .value_name("ROUTINE")
        .help("The files of the routines")
        .action(ArgAction::Append)
        .num_args(1..)
        .required(true)
}
