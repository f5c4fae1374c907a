// Steps of a core.

ghost use Rattle.std.specs.Prelude.{◌≡◌, ◌≤◌, length, true};
ghost use Rattle.mj_text.specs.declared.limit.Limit.TheVariants.{V2};
ghost use Rattle.mj_dev.specs.Shelves.{principal, left_of};
ghost use Rattle.mj_sys.specs.Opening.{opening_of, are_bare};
ghost use Rattle.mj_sys.specs.Shared.{are_global};

use crate::histories::{if_put, put_count};
use crate::listening::{may_not_refuse, may_refuse};
use crate::told::Told;
use mj_ask::Start;
use mj_core::{Core, Refusal, Seen, Step, Way};
use mj_dev::{Device, Pool};
use mj_gfile::read;
use mj_globs::Globals;
use mj_load::Image;
use mj_sessions::Sessions;
use mj_sys::Opening;
use mj_test_core::begins::{image, starts_at};
use mj_test_core::boxes::{Counting, Drops, pool, put_named};
use mj_test_core::standing::shared;
use mj_text::{Failure, Limit};
use mj_trace::{Form, put_event};
use std::alloc::{AllocError, Global};
use std::marker::Brand;

// Two jobs, each stepped by Go as often and in the order as the numbers say: each step is an event.
struct Row<'a> {
    routine: &'a str,
    labels: [&'a str; 2],
    globals: &'a str,
    jobs: &'a [u32],
}

/// Two jobs that add to one number in a SERIAL transaction; two that each read what the other writes; and one that ends in a transaction, with a device and a
/// lock, before another takes that device's next session.
pub fn make_all(alloc: Global, told: &mut Told) -> Result<(), Failure> {
    told.put(b"two that add to one number")?;
    make(
        alloc,
        told,
        &Row {
            routine: " TSTART ():SERIAL\n SET X=^A\n SET ^A=X+1\n TCOMMIT\n",
            labels: ["", ""],
            globals: "^A=\"5\"\n",
            jobs: &[1, 1, 1, 2, 2, 2, 1, 1, 2, 2, 2, 2, 2, 2],
        },
    )?;
    told.put(b"each reads what the other writes")?;
    make(
        alloc,
        told,
        &Row {
            routine: "A TSTART ():SERIAL SET X=^B,^A=X+1 TCOMMIT  QUIT\nB TSTART ():SERIAL SET X=^A,^B=X+1 TCOMMIT  QUIT\n",
            labels: ["A", "B"],
            globals: "^A=\"0\"\n^B=\"0\"\n",
            jobs: &[1, 1, 1, 2, 2, 2, 1, 1, 2, 2, 2, 2, 2, 2],
        },
    )?;
    told.put(b"the end of a job with all that it has")?;
    make(
        alloc,
        told,
        &Row {
            routine: "A OPEN \"F\" USE \"F\" WRITE \"x\" LOCK +^L TSTART  SET ^A=2 HALT\nB OPEN \"F\" CLOSE \"F\" OPEN \"F\"\n",
            labels: ["A", "B"],
            globals: "^A=\"1\"\n",
            jobs: &[1, 1, 1, 1, 1, 1, 1, 1, 1, 1, 2, 2, 2, 2, 2, 2, 2, 2, 2],
        },
    )
}

fn make(alloc: Global, told: &mut Told, row: &Row<'_>) -> Result<(), Failure> {
    let drops = Drops::new(alloc)?;
    let made = match boxes(alloc, &drops) {
        Ok(pool) => with_pool(alloc, told, row, pool, &drops),
        Err(failure) => Err(failure),
    };
    drop(drops);
    made
}

// Two devices `F` and two principal ones, which count their drops.
fn boxes(alloc: Global, drops: &Drops) -> Result<Pool<Counting>, Failure> {
    let mut pool = pool(alloc, 0, 0, drops)?;
    match put_named(alloc, &mut pool, 0, drops) {
        Ok(()) => Ok(pool),
        Err(failure) => {
            drop(pool);
            Err(failure)
        }
    }
}

fn with_pool<D: Device>(
    alloc: Global,
    told: &mut Told,
    row: &Row<'_>,
    pool: Pool<D>,
    drops: &Drops,
) -> Result<(), Failure> {
    match image(alloc, row.routine) {
        Ok(image) => with_image(alloc, told, row, image, pool, drops),
        Err(failure) => {
            drop(pool);
            Err(failure)
        }
    }
}

fn with_image<D: Device>(
    alloc: Global,
    told: &mut Told,
    row: &Row<'_>,
    image: Image,
    pool: Pool<D>,
    drops: &Drops,
) -> Result<(), Failure>
    requires long { image.bounds.limit ≡ V2 }
{
    let text = format!(in alloc; "mj-globals 2\n{}", row.globals)?;
    let globals = read(alloc, text.as_bytes(), Limit::V2);
    drop(text);
    let Ok(globals) = globals else {
        drop(image);
        drop(pool);
        return Err(Failure::Memory);
    };
    match starts_at(alloc, &row.labels) {
        Ok(starts) => begun(alloc, told, row, image, globals, pool, starts, drops),
        Err(failure) => {
            drop(globals);
            drop(image);
            drop(pool);
            Err(failure)
        }
    }
}

fn begun<D: Device>(
    alloc: Global,
    told: &mut Told,
    row: &Row<'_>,
    image: Image,
    globals: Globals,
    pool: Pool<D>,
    starts: Vec<Start>,
    drops: &Drops,
) -> Result<(), Failure>
    requires long { image.bounds.limit ≡ V2 }
    requires global { are_global globals.content ≡ true }
    requires bare { are_bare starts.items ≡ true }
{
    if starts.len() != 2 || !pool.fits(2) {
        drop(starts);
        drop(globals);
        drop(image);
        drop(pool);
        return Err(Failure::Memory);
    }
    run::<D, Brand>(alloc, told, row, image, globals, pool, starts, drops)
}

// Steps the jobs of a core that begins so, and drops it.
fn run<D: Device, O: Opening>(
    alloc: Global,
    told: &mut Told,
    row: &Row<'_>,
    image: Image,
    globals: Globals,
    pool: Pool<D>,
    starts: Vec<Start>,
    drops: &Drops,
) -> Result<(), Failure>
    requires long { image.bounds.limit ≡ V2 }
    requires opening { opening_of globals.content pool starts.items ≡ O.opening }
    requires global { are_global globals.content ≡ true }
    requires two { length starts.items ≡ 2 }
    requires fits { length starts.items ≤ left_of principal pool }
    requires bare { are_bare starts.items ≡ true }
{
    match Core::<D, Sessions<D>, O>::new(alloc, image, globals, pool, starts) {
        Ok(core) => Ok(to_its_end(alloc, told, row, core, drops)?),
        Err(back) => {
            drop(back);
            Err(Failure::Memory)
        }
    }
}

fn to_its_end<D: Device, O: Opening>(
    alloc: Global,
    told: &mut Told,
    row: &Row<'_>,
    mut core: Core<D, Sessions<D>, O>,
    drops: &Drops,
) -> Result<(), AllocError> {
    let made = make_steps(alloc, told, row, &mut core, drops);
    drop(core);
    made
}

// Makes all steps, and tells the history and how all stands then.
fn make_steps<D: Device, O: Opening>(
    alloc: Global,
    told: &mut Told,
    row: &Row<'_>,
    core: &mut Core<D, Sessions<D>, O>,
    drops: &Drops,
) -> Result<(), AllocError> {
    for job in row.jobs {
        make_step(alloc, told, core, *job, drops)?;
    }
    for at in 0..core.len() {
        if let Some((job, ask, reply)) = core.event(at) {
            put_event(alloc, &mut told.lines, Form::First, job, None, ask, reply)?;
        }
    }
    let text = shared(alloc, core.globals(), core.locks())?;
    let put = told.put(&text);
    drop(text);
    put
}

// Makes a step of a job, which is an event: once more where memory was refused, and all is as before.
fn make_step<D: Device, O: Opening>(
    alloc: Global,
    told: &mut Told,
    core: &mut Core<D, Sessions<D>, O>,
    job: u32,
    drops: &Drops,
) -> Result<(), AllocError> {
    let before = standing(alloc, core, drops)?;
    let step = Step { job, way: Way::Go };
    may_refuse(alloc);
    let seen = core.step(step);
    may_not_refuse(alloc);
    let refused = matches!(&seen, Err(Refusal::Memory));
    let done = matches!(&seen, Ok(Seen::Event(_)));
    drop(seen);
    let judged = judge(alloc, told, core, &before, step, drops, refused, done);
    drop(before);
    judged
}

fn judge<D: Device, O: Opening>(
    alloc: Global,
    told: &mut Told,
    core: &mut Core<D, Sessions<D>, O>,
    before: &[u8],
    step: Step,
    drops: &Drops,
    refused: bool,
    done: bool,
) -> Result<(), AllocError> {
    if !refused {
        return told.hold(b"step", b"it isn't an event", done);
    }
    let after = standing(alloc, core, drops)?;
    let put = told.refused(b"step", after.as_slice() == before);
    drop(after);
    put?;
    let again = core.step(step);
    let done = matches!(&again, Ok(Seen::Event(_)));
    drop(again);
    told.hold(b"step", b"once more, it isn't an event", done)
}

// How all stands: the globals and the locks, the history, in which the logs of all jobs lie, and how many devices were dropped.
fn standing<D: Device, O: Opening>(
    alloc: Global,
    core: &Core<D, Sessions<D>, O>,
    drops: &Drops,
) -> Result<Vec<u8>, AllocError> {
    let mut text = shared(alloc, core.globals(), core.locks())?;
    let put = put_rest(alloc, &mut text, core, drops);
    if_put(text, put)
}

fn put_rest<D: Device, O: Opening>(
    alloc: Global,
    text: &mut Vec<u8>,
    core: &Core<D, Sessions<D>, O>,
    drops: &Drops,
) -> Result<(), AllocError> {
    for at in 0..core.len() {
        if let Some((job, ask, reply)) = core.event(at) {
            put_event(alloc, text, Form::First, job, None, ask, reply)?;
        }
    }
    let (named, principal) = drops.counts();
    put_count(alloc, text, named)?;
    put_count(alloc, text, principal)
}
