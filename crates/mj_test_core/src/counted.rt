// A routine, stepped over devices that fail and count their drops: its history, and where they were dropped.

ghost use Rattle.std.specs.Prelude.{◌≡◌, ◌≤◌, length, true, IfOk};
ghost use Rattle.mj_text.specs.declared.limit.Limit.TheVariants.{V2};
ghost use Rattle.mj_dev.specs.Shelves.{principal, left_of};
ghost use Rattle.mj_sys.specs.Opening.{opening_of, are_bare};
ghost use Rattle.mj_sys.specs.Shared.{are_global};

use crate::begins::{image, starts};
use crate::boxes::{Drops, many, pool};
use crate::standing::shared;
use mj_ask::Start;
use mj_core::{Core, Seen, Step, Way};
use mj_dev::{Device, Pool};
use mj_gfile::read;
use mj_globs::Globals;
use mj_load::Image;
use mj_sessions::Sessions;
use mj_sys::Opening;
use mj_text::{Failure, Limit};
use mj_trace::{Form, event_line};
use std::alloc::{AllocError, Global};
use std::marker::Brand;

// How often every job is stepped.
const ROUNDS: usize = 64;

/// Steps the routine `R`, which begins at its first line, over the device `F` and two principal ones, and gives the lines of its events. Behind an
/// event stands `F is dropped` or `0 is dropped` where it dropped such a device, and behind `---` which ones the end of the core dropped. Which
/// call of `F` fails, and which of the first principal device, counts from 1; 0 is none.
pub fn stepped(alloc: Global, bytes: &str, named: u64, principal: u64) -> Result<Vec<u8>, Failure> {
    let drops = Drops::new(alloc)?;
    let lines = match pool(alloc, named, principal, &drops) {
        Ok(pool) => run_with_pool(alloc, None, bytes, pool, &drops),
        Err(failure) => Err(failure),
    };
    drop(drops);
    lines
}

/// Steps it so over the globals of a listing, and gives these lines behind the globals that it left, and behind a line for each name that is held.
pub fn stepped_on(
    alloc: Global,
    listing: &str,
    bytes: &str,
    named: u64,
    principal: u64,
) -> Result<Vec<u8>, Failure> {
    let drops = Drops::new(alloc)?;
    let lines = match pool(alloc, named, principal, &drops) {
        Ok(pool) => run_with_pool(alloc, Some(listing), bytes, pool, &drops),
        Err(failure) => Err(failure),
    };
    drop(drops);
    lines
}

/// Steps it so over as many devices, `D1`, `D2` and so on, of which none fails. Their drops are told as those of `F`.
pub fn stepped_over(alloc: Global, bytes: &str, devices: u32) -> Result<Vec<u8>, Failure> {
    let drops = Drops::new(alloc)?;
    let lines = match many(alloc, devices, &drops) {
        Ok(pool) => run_with_pool(alloc, None, bytes, pool, &drops),
        Err(failure) => Err(failure),
    };
    drop(drops);
    lines
}

// A listing is there where what is left is told too.
fn run_with_pool<D: Device>(
    alloc: Global,
    listing: Option<&str>,
    bytes: &str,
    pool: Pool<D>,
    drops: &Drops,
) -> Result<Vec<u8>, Failure> {
    match image(alloc, bytes) {
        Ok(image) => begun(alloc, listing, image, pool, drops),
        Err(failure) => {
            drop(pool);
            Err(failure)
        }
    }
}

fn begun<D: Device>(
    alloc: Global,
    listing: Option<&str>,
    image: Image,
    pool: Pool<D>,
    drops: &Drops,
) -> Result<Vec<u8>, Failure>
    requires long { image.bounds.limit ≡ V2 }
{
    match opened(alloc, listing) {
        Ok((globals, starts)) => {
            begun_on(
                alloc,
                listing.is_some(),
                image,
                globals,
                pool,
                starts,
                drops,
            )
        }
        Err(failure) => {
            drop(image);
            drop(pool);
            Err(failure)
        }
    }
}

// The globals of a listing, or none, and a start.
fn opened(alloc: Global, listing: Option<&str>) -> Result<(Globals, Vec<Start>), Failure>
    ensures global { IfOk result (λ x. are_global x.0.content ≡ true) }
    ensures bare { IfOk result (λ x. are_bare x.1.items ≡ true) }
{
    let globals = globals(alloc, listing)?;
    match starts(alloc, 1) {
        Ok(starts) => Ok((globals, starts)),
        Err(failure) => {
            drop(globals);
            Err(failure)
        }
    }
}

/// The globals of a listing, or none.
pub fn globals(alloc: Global, listing: Option<&str>) -> Result<Globals, Failure>
    ensures { IfOk result (λ globals. are_global globals.content ≡ true) }
{
    let Some(listing) = listing else {
        return Ok(Globals::new(alloc));
    };
    match read(alloc, listing.as_bytes(), Limit::V2) {
        Ok(globals) => Ok(globals),
        Err(refused) => {
            drop(refused);
            Err(Failure::Memory)
        }
    }
}

fn begun_on<D: Device>(
    alloc: Global,
    shows: bool,
    image: Image,
    globals: Globals,
    pool: Pool<D>,
    starts: Vec<Start>,
    drops: &Drops,
) -> Result<Vec<u8>, Failure>
    requires long { image.bounds.limit ≡ V2 }
    requires global { are_global globals.content ≡ true }
    requires bare { are_bare starts.items ≡ true }
{
    if starts.len() != 1 || !pool.fits(1) {
        drop(starts);
        drop(image);
        drop(globals);
        drop(pool);
        return Err(Failure::Memory);
    }
    run::<D, Brand>(alloc, shows, image, globals, pool, starts, drops)
}

// Steps the jobs of a core that begins so, and drops it.
fn run<D: Device, O: Opening>(
    alloc: Global,
    shows: bool,
    image: Image,
    globals: Globals,
    pool: Pool<D>,
    starts: Vec<Start>,
    drops: &Drops,
) -> Result<Vec<u8>, Failure>
    requires long { image.bounds.limit ≡ V2 }
    requires opening { opening_of globals.content pool starts.items ≡ O.opening }
    requires global { are_global globals.content ≡ true }
    requires one { length starts.items ≡ 1 }
    requires fits { length starts.items ≤ left_of principal pool }
    requires bare { are_bare starts.items ≡ true }
{
    match Core::<D, Sessions<D>, O>::new(alloc, image, globals, pool, starts) {
        Ok(core) => to_its_end(alloc, shows, core, drops),
        Err(back) => {
            drop(back);
            Err(Failure::Memory)
        }
    }
}

fn to_its_end<D: Device, O: Opening>(
    alloc: Global,
    shows: bool,
    core: Core<D, Sessions<D>, O>,
    drops: &Drops,
) -> Result<Vec<u8>, Failure> {
    let mut core = core;
    let mut lines = Vec::new(alloc);
    let mut dropped = (0, 0);
    let made = make_steps(alloc, shows, &mut core, drops, &mut dropped, &mut lines);
    drop(core);
    made?;
    lines.extend_from_slice(b"---\n")?;
    put_drops(drops, &mut dropped, &mut lines)?;
    Ok(lines)
}

// Steps all jobs in turn, and tells what they left where that is shown.
fn make_steps<D: Device, O: Opening>(
    alloc: Global,
    shows: bool,
    core: &mut Core<D, Sessions<D>, O>,
    drops: &Drops,
    dropped: &mut (u64, u64),
    lines: &mut Vec<u8>,
) -> Result<(), AllocError> {
    for _ in 0..ROUNDS {
        for done in 0..core.jobs() as u32 {
            if let Some(at) = step(core, done + 1) {
                put_event(alloc, core, at, lines)?;
            }
            put_drops(drops, dropped, lines)?;
        }
    }
    if shows {
        put_left(alloc, core, lines)?;
    }
    Ok(())
}

// Puts the globals and what is held to the end.
fn put_left<D: Device, O: Opening>(
    alloc: Global,
    core: &Core<D, Sessions<D>, O>,
    lines: &mut Vec<u8>,
) -> Result<(), AllocError> {
    let left = shared(alloc, core.globals(), core.locks())?;
    let put = lines.extend_from_slice(&left);
    drop(left);
    put
}

// A step of this job, and the place of its event.
fn step<D: Device, O: Opening>(core: &mut Core<D, Sessions<D>, O>, job: u32) -> Option<usize> {
    match core.step(Step { job, way: Way::Go }) {
        Ok(Seen::Event(at)) => Some(at),
        Ok(other) => {
            drop(other);
            None
        }
        Err(_) => None,
    }
}

// Puts the line of an event to the end.
fn put_event<D: Device, O: Opening>(
    alloc: Global,
    core: &Core<D, Sessions<D>, O>,
    at: usize,
    lines: &mut Vec<u8>,
) -> Result<(), AllocError> {
    if let Some((job, ask, reply)) = core.event(at) {
        let line = event_line(alloc, Form::First, job, None, ask, reply)?;
        lines.extend_from_slice(&line)?;
        lines.push(b'\n')?;
    }
    Ok(())
}

// Puts a line to the end for each device that was dropped since.
fn put_drops(
    drops: &Drops,
    dropped: &mut (u64, u64),
    lines: &mut Vec<u8>,
) -> Result<(), AllocError> {
    let (named, principal) = drops.counts();
    for _ in dropped.0..named {
        lines.extend_from_slice(b"F is dropped\n")?;
    }
    for _ in dropped.1..principal {
        lines.extend_from_slice(b"0 is dropped\n")?;
    }
    *dropped = (named, principal);
    Ok(())
}
