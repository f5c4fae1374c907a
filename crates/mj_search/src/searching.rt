// Runs by chance.

ghost use Rattle.std.specs.Prelude.{◌≡◌, ◌≢◌, ◌≤◌, All, IfOk, option_map, true};
ghost use Rattle.mj_dev.specs.Shelves.{principal};
ghost use Rattle.mj_sys.specs.Shared.{are_global};
ghost use Rattle.mj_script.specs.Scripts.{opening_in, supply_names};
ghost use Rattle.mj_search.specs.Goals.{IsGoalOf};

use crate::printed::{explored_text, refusal_of, refusal_text};
use crate::told::told_ends;
use mj_begin::{Beginning, begin, file_bytes, refused, routine_bytes, routine_name};
use mj_chance::put_steps;
use mj_command_line::Explore;
use mj_drafts::{Choice, Lockable, ProgramError, Word, print, stopped, tell_trouble, write_file};
use mj_explore::{Explored, Goal, Search, Tally};
use mj_files::{BYTES_LIMIT, Side, Trouble, read_device, whole};
use mj_globs::Globals;
use mj_judge::condition;
use mj_script::{Script, Source, Supply, Unread};
use mj_sys::Opening;
use mj_text::Fault;
use std::alloc::{AllocError, Global};
use std::io::{Read, Write};
use std::marker::Brand;
use std::rt::Files;

/// Makes the runs that are ordered, tells of them, keeps the steps of one that shows what is looked for, and gives the exit status. An expression that faults
/// over what the first run left is refused: nothing is told of the run then, and no steps are kept.
pub fn explore<R: Files + AllocGlobal + Copy + Drop, I: Read, O: Write, E: Write>(
    rt: R,
    order: &Explore<'_>,
    input: &mut I,
    out: &mut O,
    err: &mut E,
) -> u8
where
    R::File: Lockable,
    ensures { result ≤ 4 }
{
    match explored(rt, order, input) {
        Ok(explored) => {
            let status = told(&rt, order, &explored, out, err);
            drop(explored);
            status
        }
        Err(stop) => {
            let stop = of_keep(stop);
            refused(&rt, &order.run, &stop, err)
        }
    }
}

// Why it stops, by the words of this command: the file that the steps go to stands for that of the trace.
fn of_keep<'a>(stop: ProgramError<'a>) -> ProgramError<'a> {
    match stop {
        ProgramError::Chosen {
            option: Choice::Trace,
            value,
        } => ProgramError::Chosen {
            option: Choice::Keep,
            value,
        },
        other => other,
    }
}

// Makes the runs.
fn explored<'a, R: Files + AllocGlobal + Copy + Drop, I: Read>(
    rt: R,
    order: &Explore<'a>,
    input: &mut I,
) -> Result<Explored, ProgramError<'a>>
where
    R::File: Lockable,
{
    let goal = goal_of(rt.alloc(), order.until)?;
    let (script, globals) = script_of(rt, order, input)?;
    let search = Search {
        seed: order.seed,
        runs: order.runs,
    };
    let explored = runs_over(rt.alloc(), &script, &globals, &goal, search);
    drop(goal);
    drop(script);
    drop(globals);
    Ok(explored?)
}

// What is looked for, by the word for it.
fn goal_of<'a>(alloc: Global, until: Option<&'a str>) -> Result<Option<Goal>, ProgramError<'a>>
    ensures { IfOk result (IsGoalOf (option_map (λ word. word.now) until.entry)) }
{
    let Some(word) = until else {
        return Ok(None);
    };
    match word {
        "fault" => Ok(Some(Goal::Fault)),
        "stuck" => Ok(Some(Goal::Stuck)),
        "clash" => Ok(Some(Goal::Clash)),
        _ => match condition(alloc, word.as_bytes())? {
            Some(script) => Ok(Some(Goal::False(script))),
            None => Err(ProgramError::Chosen {
                option: Choice::Until,
                value: word,
            }),
        },
    }
}

// What the runs begin with, read as for any run, and the globals. Standard input is read behind all files.
fn script_of<'a, R: Files + AllocGlobal + Copy + Drop, I: Read>(
    rt: R,
    order: &Explore<'a>,
    input: &mut I,
) -> Result<(Script, Globals), ProgramError<'a>>
where
    R::File: Lockable,
    ensures { IfOk result (λ r. are_global r.1.content ≡ true) }
{
    let (beginning, outlet) = begin(rt, &order.run, input)?;
    drop(outlet);
    let sources = sources(&rt, &order.run.files)?;
    let supplies = supplies(&rt, &order.run.devices)?;
    let lines = lines(rt.alloc(), order.stdin, input)?;
    let Beginning {
        steps,
        image,
        globals,
        pool,
        starts,
    } = beginning;
    // what a core would begin with besides
    drop(image);
    drop(pool);
    drop(steps);
    match Script::new(rt.alloc(), sources, starts, lines, supplies) {
        Ok(script) => Ok((script, globals)),
        Err(Unread::Memory) => Err(ProgramError::Memory),
        Err(Unread::Routine(refusal)) => Err(ProgramError::Routine(refusal)),
        Err(Unread::Twice { name }) => Err(ProgramError::Twice(Word { name })),
    }
}

// The bytes of standard input, where they are asked for.
fn lines<'a, I: Read>(
    alloc: Global,
    stdin: bool,
    input: &mut I,
) -> Result<Vec<u8>, ProgramError<'a>> {
    if !stdin {
        return Ok(Vec::new(alloc));
    }
    match whole(alloc, input, BYTES_LIMIT) {
        Ok(bytes) => Ok(bytes),
        Err(Trouble::Memory) => Err(ProgramError::Memory),
        Err(Trouble::Failed) => Err(ProgramError::File("-")),
    }
}

// The routines in these files.
fn sources<'a, R: Files + AllocGlobal>(
    rt: &R,
    files: &[&'a str],
) -> Result<Vec<Source>, ProgramError<'a>> {
    let mut sources = Vec::new(rt.alloc());
    for file in files {
        let source = Source {
            name: routine_name(rt.alloc(), *file)?,
            bytes: routine_bytes(rt, *file)?,
        };
        if sources.push(source).is_err() {
            return Err(ProgramError::Memory);
        }
    }
    Ok(sources)
}

// The devices that these words name. One that gives the lines of a file has them from now on, and what is written to another goes nowhere.
fn supplies<'a, R: Files + AllocGlobal>(
    rt: &R,
    words: &[&'a str],
) -> Result<Vec<Supply>, ProgramError<'a>>
    ensures { IfOk result (λ supplies. All (λ name. name ≢ principal) (supply_names supplies.items)) }
{
    let mut supplies = Vec::new(rt.alloc());
    for word in words {
        let Some(device) = read_device(rt.alloc(), *word)? else {
            return Err(ProgramError::Chosen {
                option: Choice::Device,
                value: *word,
            });
        };
        let bytes = match device.side {
            Side::In => file_bytes(rt, device.file)?,
            Side::Out => Vec::new(rt.alloc()),
        };
        let supply = Supply {
            name: device.name,
            bytes,
        };
        if supplies.push(supply).is_err() {
            return Err(ProgramError::Memory);
        }
    }
    Ok(supplies)
}

// Makes the runs over these globals.
fn runs_over(
    alloc: Global,
    script: &Script,
    globals: &Globals,
    goal: &Option<Goal>,
    search: Search,
) -> Result<Explored, AllocError>
    requires { are_global globals.now.content ≡ true }
{
    runs_from::<Brand>(alloc, script, globals, goal, search)
}

// Makes the runs from an opening.
fn runs_from<G: Opening>(
    alloc: Global,
    script: &Script,
    globals: &Globals,
    goal: &Option<Goal>,
    search: Search,
) -> Result<Explored, AllocError>
    requires opening { opening_in script.now globals.now.content ≡ G.opening }
    requires global { are_global globals.now.content ≡ true }
{
    mj_explore::explore::<G>(alloc, script, globals, goal.as_ref(), search)
}

// Tells of the runs, unless the expression is refused, and gives the exit status.
fn told<R, O, E>(rt: &R, order: &Explore<'_>, explored: &Explored, out: &mut O, err: &mut E) -> u8
where
    R: Files + AllocGlobal,
    R::File: Lockable,
    O: Write,
    E: Write,
    ensures { result ≤ 4 }
{
    match refusal_of(explored) {
        Some(fault) => refuse(rt.alloc(), order.until, fault, explored.tally, err),
        None => tell(rt, order, explored, out, err),
    }
}

// Refuses an expression, says by which fault and what the first run came to, and gives the exit status.
fn refuse<E: Write>(
    alloc: Global,
    until: Option<&str>,
    fault: Fault,
    tally: Tally,
    err: &mut E,
) -> u8
    ensures { result ≡ 3 }
{
    let stop = ProgramError::Chosen {
        option: Choice::Until,
        value: expression_of(until),
    };
    let status = stopped(&stop, err);
    // Where memory is refused, or this can't be written, the line alone tells.
    if let Ok(text) = refusal_text(alloc, fault, tally) {
        let _ = err.write_all(&text);
    }
    status
}

// The words of an expression that was looked for.
fn expression_of<'a>(until: Option<&'a str>) -> &'a str {
    match until {
        Some(word) => word,
        None => "",
    }
}

// Prints what is told of the runs, and then keeps the steps that were found, where a file is named for them. Where the one can't be done the other still is,
// unless memory was refused.
fn tell<R, O, E>(rt: &R, order: &Explore<'_>, explored: &Explored, out: &mut O, err: &mut E) -> u8
where
    R: Files + AllocGlobal,
    R::File: Lockable,
    O: Write,
    E: Write,
    ensures { result ≤ 4 }
{
    let Ok((text, found)) = explored_text(rt.alloc(), explored, order.until) else {
        return stopped(&ProgramError::Memory, err);
    };
    let printed = tell_trouble(print(&text, out), err);
    drop(text);
    let kept = tell_trouble(keep(rt, order, explored), err);
    if order.run.hints {
        tell_more(rt.alloc(), explored, err);
    }
    found.max(printed).max(kept)
}

// Tells more of the runs: their ends. Where memory is refused, or this can't be written, nothing more is told.
fn tell_more<E: Write>(alloc: Global, explored: &Explored, err: &mut E) {
    if let Ok(bytes) = told_ends(alloc, &explored.ends) {
        let _ = err.write_all(&bytes);
    }
}

// Writes the steps that were found to the file that is named for them.
fn keep<'a, R: Files + AllocGlobal>(
    rt: &R,
    order: &Explore<'a>,
    explored: &Explored,
) -> Result<(), ProgramError<'a>>
where
    R::File: Lockable,
{
    let (Some(file), Some(found)) = (order.keep, &explored.found) else {
        return Ok(());
    };
    let bytes = put_steps(rt.alloc(), &found.steps)?;
    let kept = write_file(rt, file, &bytes);
    drop(bytes);
    kept
}
