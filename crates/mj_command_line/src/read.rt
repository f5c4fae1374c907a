// The words of the command line.

ghost use Rattle.std.specs.Prelude.{◌<◌};

use crate::order::{
    Debug, EVENTS, Explain, Explore, Migrate, NoOrder, Order, RUNS, Replay, Run, SEED, WORKERS,
};
use crate::texts::{DEBUG_STEPS, LIVE_STARTS, LIVE_STDIN, LIVE_WORKERS};
use crate::words::command;
use clap::error::ErrorKind;
use clap::{ArgMatches, Command, Error};
use std::alloc::{AllocError, Global};
use std::convert::AsStr;

/// Reads the words, of which the first is the program's name.
pub fn read_words<'a, S: AsStr>(alloc: Global, words: &'a [S]) -> Result<Order<'a>, NoOrder> {
    match order(alloc, words) {
        Ok(order) => Ok(order),
        Err(error) => Err(refusal(alloc, &error)),
    }
}

// What the words ask for.
fn order<'a, S: AsStr>(alloc: Global, words: &'a [S]) -> Result<Order<'a>, Error> {
    let mut command = command(alloc)?;
    ordered(alloc, &mut command, words)
}

// What they ask of this command. What owns a command, or what was found, does little else, since each way out of such a function drops it.
fn ordered<'a, S: AsStr>(
    alloc: Global,
    command: &mut Command<'a>,
    words: &'a [S],
) -> Result<Order<'a>, Error> {
    let matches = command.try_get_matches_from_mut(words)?;
    order_of(alloc, command, &matches)
}

// An order is made by one function, and handed on by the others as it is.
fn order_of<'a>(
    alloc: Global,
    command: &mut Command<'a>,
    matches: &ArgMatches<'a>,
) -> Result<Order<'a>, Error> {
    let Some((name, found)) = matches.subcommand() else {
        return no_order(command);
    };
    match name {
        "run" => run_order(alloc, command, found),
        "step" => step_order(alloc, found),
        "explore" => explore_order(alloc, found),
        "debug" => debug_order(alloc, command, found),
        "check" => check_order(alloc, found),
        "replay" => replay_order(alloc, found),
        "migrate" => migrate_order(alloc, found),
        "explain" => explain_order(alloc, found),
        _ => no_order(command),
    }
}

fn no_order<'a>(command: &mut Command<'a>) -> Result<Order<'a>, Error> {
    Err(command.error(ErrorKind::MissingSubcommand, "a command is required")?)
}

// What an error says to the user. Help, which was asked for, is one that isn't for standard error.
fn refusal(alloc: Global, error: &Error) -> NoOrder {
    if error.kind() == ErrorKind::OutOfMemory {
        return NoOrder::Memory;
    }
    match format!(in alloc; "{error}") {
        Ok(text) if error.use_stderr() => NoOrder::Wrong(text),
        Ok(text) => NoOrder::Help(text),
        Err(_) => NoOrder::Memory,
    }
}

fn run_of<'a>(alloc: Global, found: &ArgMatches<'a>) -> Result<Run<'a>, AllocError> {
    Ok(Run {
        starts: value_given(alloc, found, "start")?,
        files: value_given(alloc, found, "routines")?,
        globals: found.get_str("globals"),
        save: found.get_str("save"),
        trace: found.get_str("trace"),
        stdin: found.get_flag("stdin"),
        devices: value_given(alloc, found, "device")?,
        steps: found.get_str("steps"),
        why: found.get_flag("why"),
        hints: found.get_flag("hints"),
        events: events_given(found),
    })
}

fn run_order<'a>(
    alloc: Global,
    command: &mut Command<'a>,
    found: &ArgMatches<'a>,
) -> Result<Order<'a>, Error> {
    if found.get_flag("live") {
        return live_order(alloc, command, found);
    }
    Ok(Order::Run {
        run: run_of(alloc, found)?,
        workers: number_given(found, "workers", WORKERS),
    })
}

// Standard input isn't read before such a run, and its job is stepped, so words for either are refused instead of passed over.
fn live_order<'a>(
    alloc: Global,
    command: &mut Command<'a>,
    found: &ArgMatches<'a>,
) -> Result<Order<'a>, Error> {
    let run = run_of(alloc, found)?;
    match unfit_live(&run, found) {
        None => Ok(Order::Live(run)),
        Some(why) => {
            drop(run);
            Err(command.error(ErrorKind::ArgumentConflict, why)?)
        }
    }
}

// Why the words ask for more than a live run has, if they do.
fn unfit_live(run: &Run<'_>, found: &ArgMatches<'_>) -> Option<&'static str> {
    if run.starts.len() > 1 {
        Some(LIVE_STARTS)
    } else if run.stdin {
        Some(LIVE_STDIN)
    } else if found.get_one::<u32>("workers").is_some() {
        Some(LIVE_WORKERS)
    } else {
        None
    }
}

// What may be written by a run is the file of the steps alone, where one is named, and standard input is read behind all files.
fn explore_order<'a>(alloc: Global, found: &ArgMatches<'a>) -> Result<Order<'a>, Error> {
    let keep = found.get_str("keep");
    Ok(Order::Explore(Explore {
        run: Run {
            starts: value_given(alloc, found, "start")?,
            files: value_given(alloc, found, "routines")?,
            globals: found.get_str("globals"),
            save: None,
            trace: keep,
            stdin: false,
            devices: value_given(alloc, found, "device")?,
            steps: None,
            why: false,
            hints: found.get_flag("hints"),
            events: EVENTS,
        },
        stdin: found.get_flag("stdin"),
        runs: number_given(found, "runs", RUNS),
        seed: number_given(found, "seed", SEED),
        until: found.get_str("until"),
        keep,
    }))
}

fn step_order<'a>(alloc: Global, found: &ArgMatches<'a>) -> Result<Order<'a>, Error> {
    Ok(Order::Step(run_of(alloc, found)?))
}

// A debugger's steps are made by commands, or are those of a trace.
fn debug_order<'a>(
    alloc: Global,
    command: &mut Command<'a>,
    found: &ArgMatches<'a>,
) -> Result<Order<'a>, Error> {
    if found.get_str("steps").is_some() {
        return Err(command.error(ErrorKind::ArgumentConflict, DEBUG_STEPS)?);
    }
    Ok(Order::Debug(Debug {
        run: run_of(alloc, found)?,
        prompt: found.get_flag("prompt"),
        replay: found.get_str("replay"),
    }))
}

fn check_order<'a>(alloc: Global, found: &ArgMatches<'a>) -> Result<Order<'a>, Error> {
    Ok(Order::Check {
        files: value_given(alloc, found, "routines")?,
    })
}

fn record_of<'a>(alloc: Global, found: &ArgMatches<'a>) -> Result<Replay<'a>, AllocError> {
    Ok(Replay {
        trace: required(found, "trace"),
        files: value_given(alloc, found, "routines")?,
        globals: found.get_str("globals"),
        hints: found.get_flag("hints"),
        events: events_given(found),
    })
}

fn replay_order<'a>(alloc: Global, found: &ArgMatches<'a>) -> Result<Order<'a>, Error> {
    Ok(Order::Replay(record_of(alloc, found)?))
}

fn migrate_order<'a>(alloc: Global, found: &ArgMatches<'a>) -> Result<Order<'a>, Error> {
    Ok(Order::Migrate(Migrate {
        record: record_of(alloc, found)?,
        out: required(found, "out"),
    }))
}

// What was given for an argument that is required, so that it is given.
fn required<'a>(found: &ArgMatches<'a>, name: &str) -> &'a str {
    match found.get_str(name) {
        Some(text) => text,
        None => "",
    }
}

// The number that was given for the argument of this name, or else this one.
fn number_given(found: &ArgMatches<'_>, name: &str, other: u32) -> u32 {
    match found.get_one::<u32>(name) {
        Some(number) => number,
        None => other,
    }
}

// How many events there may be. No number that is given is 0; it is looked at once more, so that it is known.
fn events_given(found: &ArgMatches<'_>) -> u32
    ensures { 0 < result }
{
    number_given(found, "events", EVENTS).max(1)
}

// The trace is required here too.
fn explain_order<'a>(alloc: Global, found: &ArgMatches<'a>) -> Result<Order<'a>, Error> {
    let trace = match found.get_str("record") {
        Some(trace) => trace,
        None => "",
    };
    Ok(Order::Explain(Explain {
        record: Replay {
            trace,
            files: value_given(alloc, found, "routines")?,
            globals: found.get_str("globals"),
            hints: found.get_flag("hints"),
            events: events_given(found),
        },
        html: found.get_str("html"),
    }))
}

// What was given for the argument of this name. One that the command hasn't counts as one that isn't given.
fn value_given<'a>(
    alloc: Global,
    found: &ArgMatches<'a>,
    name: &str,
) -> Result<Vec<&'a str>, AllocError> {
    let mut given = Vec::new(alloc);
    if let Some(texts) = found.get_strs(name) {
        given.extend_from_slice(texts)?;
    }
    Ok(given)
}
