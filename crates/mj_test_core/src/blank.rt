// A routine, stepped without devices.

ghost use Rattle.std.specs.Prelude.{◌≡◌, ◌≤◌, [], length, true, IfOk};
ghost use Rattle.mj_dev.specs.Pools.{shelves_of};
ghost use Rattle.mj_text.specs.declared.limit.Limit.TheVariants.{V2};
ghost use Rattle.mj_dev.specs.Shelves.{principal, left_of};
ghost use Rattle.mj_jobs.specs.Rows.{rows_limit};
ghost use Rattle.mj_sys.specs.Opening.{opening_of, are_bare};

use crate::begins::{image, starts};
use mj_ask::{Reply, Start};
use mj_core::{Core, Refusal, Seen, Step, Way};
use mj_dev::{Blank, pool_of};
use mj_expect::Heeds;
use mj_globs::Globals;
use mj_load::Image;
use mj_sys::Opening;
use mj_text::{Failure, Text};
use mj_trace::{Form, event_line};
use std::alloc::{AllocError, Global};
use std::marker::Brand;
use std::str;

/// Steps the routine `R`, which begins at its first line, without devices: once for each line, `go` or `late`, with the reply that follows
/// where there is one (as it is spelled in a trace, but that a line's text has no quotes). There is a device `F` and two principal ones. It
/// gives a line for each step, and behind them what job 1 wrote to its first session with `F`. A line that is no step is a failure.
pub fn stepped(alloc: Global, bytes: &str, steps: &str) -> Result<Vec<u8>, Failure> {
    let image = image(alloc, bytes)?;
    match opened(alloc) {
        Ok((sessions, starts)) => begun(alloc, image, sessions, starts, steps.as_bytes()),
        Err(failure) => {
            drop(image);
            Err(failure)
        }
    }
}

// The devices, and a start at the first line of R.
fn opened(alloc: Global) -> Result<(Vec<(Text, u32)>, Vec<Start>), Failure>
    ensures { IfOk result (λ x. are_bare x.1.items ≡ true) }
{
    let mut sessions = Vec::new(alloc);
    sessions.push((Text::from_number(alloc, 0), 2))?;
    sessions.push((Text::from(alloc, b"F")?, 1))?;
    let starts = starts(alloc, 1)?;
    Ok((sessions, starts))
}

fn begun(
    alloc: Global,
    image: Image,
    sessions: Vec<(Text, u32)>,
    starts: Vec<Start>,
    steps: &[u8],
) -> Result<Vec<u8>, Failure>
    requires long { image.bounds.limit ≡ V2 }
    requires bare { are_bare starts.items ≡ true }
{
    let fits = match pool_of(alloc, &sessions) {
        Ok(pool) => {
            let fits = pool.fits(1);
            drop(pool);
            fits
        }
        Err(_) => false,
    };
    if starts.len() != 1 || !fits {
        drop(image);
        drop(sessions);
        drop(starts);
        return Err(Failure::Memory);
    }
    run::<Brand>(alloc, image, sessions, starts, steps)
}

// Steps the jobs of a core that begins so, and drops it.
fn run<O: Opening>(
    alloc: Global,
    image: Image,
    sessions: Vec<(Text, u32)>,
    starts: Vec<Start>,
    steps: &[u8],
) -> Result<Vec<u8>, Failure>
    requires long { image.bounds.limit ≡ V2 }
    requires opening { opening_of [] (shelves_of sessions.items) starts.items ≡ O.opening }
    requires some { 1 ≤ length starts.items }
    requires few { length starts.items ≤ rows_limit }
    requires fits { length starts.items ≤ left_of principal (shelves_of sessions.items) }
    requires bare { are_bare starts.items ≡ true }
{
    let mut core = Core::<Blank, Heeds, O>::blank(
        alloc,
        image,
        Globals::new(alloc),
        sessions,
        starts,
    )?;
    let lines = make_steps(alloc, &mut core, steps);
    drop(core);
    lines
}

fn make_steps<O: Opening>(
    alloc: Global,
    core: &mut Core<Blank, Heeds, O>,
    steps: &[u8],
) -> Result<Vec<u8>, Failure> {
    let mut lines = Vec::new(alloc);
    let Ok(steps) = str::from_utf8(steps) else {
        drop(lines);
        return Err(Failure::Memory);
    };
    for step in steps.lines() {
        make_step(alloc, core, step, &mut lines)?;
    }
    put_taken(alloc, core, &mut lines)?;
    Ok(lines)
}

fn make_step<O: Opening>(
    alloc: Global,
    core: &mut Core<Blank, Heeds, O>,
    step: &str,
    lines: &mut Vec<u8>,
) -> Result<(), Failure> {
    let (way, reply) = step.split_once(" ").unwrap_or((step, ""));
    let way = match way {
        "go" => Way::Go,
        "late" => Way::Late,
        _ => return Err(Failure::Memory),
    };
    let reply = reply_of(alloc, reply)?;
    let seen = seen_of(core, Step { job: 1, way }, &reply);
    drop(reply);
    put_seen(alloc, core, seen, lines)?;
    Ok(())
}

// What a step leads to: the place of its event, or a word.
fn seen_of<O: Opening>(
    core: &mut Core<Blank, Heeds, O>,
    step: Step,
    reply: &Option<Reply>,
) -> Result<usize, &'static str> {
    let seen = match reply {
        None => core.step(step),
        Some(reply) => core.step_with(step, reply),
    };
    match seen {
        Ok(Seen::Event(at)) => Ok(at),
        Ok(Seen::Busy { holder: _, held }) => {
            drop(held);
            Err("busy")
        }
        Ok(Seen::NotYet) => Err("not yet"),
        Ok(Seen::Unfit) => Err("unfit"),
        Ok(Seen::Ran) => Err("ran"),
        Ok(Seen::Ended) => Err("ended"),
        Err(Refusal::NotTimed) => Err("C2"),
        Err(Refusal::Ended) => Err("C3"),
        Err(_) => Err("refused"),
    }
}

// Puts what was seen of a step to the end.
fn put_seen<O: Opening>(
    alloc: Global,
    core: &Core<Blank, Heeds, O>,
    seen: Result<usize, &'static str>,
    lines: &mut Vec<u8>,
) -> Result<(), AllocError> {
    match seen {
        Ok(at) => put_event(alloc, core, at, lines)?,
        Err(word) => lines.extend_from_slice(word.as_bytes())?,
    }
    lines.push(b'\n')?;
    Ok(())
}

fn put_event<O: Opening>(
    alloc: Global,
    core: &Core<Blank, Heeds, O>,
    at: usize,
    lines: &mut Vec<u8>,
) -> Result<(), AllocError> {
    match core.event(at) {
        None => Ok(()),
        Some((job, ask, reply)) => {
            let line = event_line(alloc, Form::First, job, None, ask, reply)?;
            let put = lines.extend_from_slice(&line);
            drop(line);
            put
        }
    }
}

// Puts what job 1 wrote to its first session with F to the end.
fn put_taken<O: Opening>(
    alloc: Global,
    core: &Core<Blank, Heeds, O>,
    lines: &mut Vec<u8>,
) -> Result<(), Failure> {
    let name = Text::from(alloc, b"F")?;
    let taken = core.out(1, &name, 1);
    drop(name);
    put_bytes(&taken?, lines)?;
    Ok(())
}

fn put_bytes(bytes: &[u8], lines: &mut Vec<u8>) -> Result<(), AllocError> {
    lines.extend_from_slice(b"F took ")?;
    lines.extend_from_slice(bytes)?;
    lines.push(b'\n')?;
    Ok(())
}

// The reply of a step, if it has one. Other words are none.
fn reply_of(alloc: Global, text: &str) -> Result<Option<Reply>, Failure> {
    if let Some(line) = text.strip_prefix("line ") {
        return Ok(Some(Reply::Line(Text::from(alloc, line.as_bytes())?)));
    }
    Ok(match text {
        "done" => Some(Reply::Done),
        "late" => Some(Reply::Late),
        "failed" => Some(Reply::Failed),
        "end" => Some(Reply::End),
        "byte 97" => Some(Reply::Byte(97)),
        "" => None,
        _ => return Err(Failure::Memory),
    })
}
