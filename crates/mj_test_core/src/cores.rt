// The blocks of what two jobs of a core did, and the globals that they left.

ghost use Rattle.std.specs.Prelude.{◌≡◌, ◌≤◌, length, true, IfOk};
ghost use Rattle.mj_text.specs.declared.limit.Limit.TheVariants.{V2};
ghost use Rattle.mj_dev.specs.Shelves.{principal, left_of};
ghost use Rattle.mj_jobs.specs.Rows.{rows_limit};
ghost use Rattle.mj_sys.specs.Opening.{opening_of, are_bare};
ghost use Rattle.mj_sys.specs.Shared.{are_global};

use crate::begins::{add, image, starts};
use crate::counted::globals;
use crate::serial::{First, first_four};
use mj_ask::Start;
use mj_core::{Core, Seen, Step, Way};
use mj_dev::{Device, Memory, Pool};
use mj_gfile::write;
use mj_globs::Globals;
use mj_jobvm::Turn;
use mj_load::Image;
use mj_serial::serial_blocks;
use mj_sessions::Sessions;
use mj_sys::{Event, Opening};
use mj_text::{Failure, Text};
use std::alloc::{AllocError, Global};
use std::marker::Brand;
use std::test::Fail;

// What is left: the first blocks of what the jobs did, and the listing of the globals.
type Left = (First, Vec<u8>);

// Both read a number before either commits: so the second to commit clashes, begins again as its twelfth event, and is a block by that. In between
// stands the change that the first makes outside a transaction.
#[test]
fn blocks_of_two_jobs(rt: HostRuntime) -> Result<(), Fail> {
    let found = two_jobs(rt.alloc(), false)?;
    assert_eq!(rt; found, BLOCKS);
    Ok(())
}

// Each of the steps is an event, or the test fails. So to make the job ready before it brings it to its ask, and changes nothing else.
#[test]
fn jobs_that_were_made_ready_are_stepped_alike(rt: HostRuntime) -> Result<(), Fail> {
    let found = two_jobs(rt.alloc(), true)?;
    assert_eq!(rt; found, BLOCKS);
    Ok(())
}

const BLOCKS: First = [
    Some((1, true, 2, 2)),
    Some((1, false, 9, 1)),
    Some((2, true, 12, 2)),
    None,
];

fn two_jobs(alloc: Global, ready: bool) -> Result<First, Failure> {
    let (blocks, listing) = stepped(
        alloc,
        None,
        " TSTART ():SERIAL SET X=$GET(^A),^A=X+1 TCOMMIT  SET ^B=X\n",
        &[1, 1, 1, 2, 2, 2, 1, 1, 1, 2, 2, 2, 2, 2, 2],
        ready,
    )?;
    drop(listing);
    Ok(blocks)
}

// Both read 5 before either writes, outside a transaction: so one of the two additions is lost. Each access is a block of its own.
#[test]
fn an_update_is_lost_outside_a_transaction(rt: HostRuntime) -> Result<(), Fail> {
    let left = "mj-globals 2\n^A=\"6\"\n";
    let (found, is_left) = added(rt.alloc(), &[1, 1, 2, 2, 1, 2, 1, 1, 2, 2], left)?;
    assert_eq!(rt;
        found,
        [
            Some((1, false, 2, 1)),
            Some((2, false, 4, 1)),
            Some((1, false, 5, 1)),
            Some((2, false, 6, 1))
        ]
    );
    assert_eq!(rt; is_left, true);
    Ok(())
}

// The second reads what the first wrote: so both are there.
#[test]
fn no_update_is_lost_where_the_second_begins_late(rt: HostRuntime) -> Result<(), Fail> {
    let left = "mj-globals 2\n^A=\"7\"\n";
    let (found, is_left) = added(rt.alloc(), &[1, 1, 1, 1, 1, 2, 2, 2, 2, 2], left)?;
    assert_eq!(rt;
        found,
        [
            Some((1, false, 2, 1)),
            Some((1, false, 3, 1)),
            Some((2, false, 7, 1)),
            Some((2, false, 8, 1))
        ]
    );
    assert_eq!(rt; is_left, true);
    Ok(())
}

// The first blocks of two jobs that each add 1 to 5, and whether they leave the globals of this listing.
fn added(alloc: Global, steps: &[u32], left: &str) -> Result<(First, bool), Failure> {
    let (blocks, listing) = stepped(
        alloc,
        Some("mj-globals 2\n^A=\"5\"\n"),
        " SET ^A=^A+1\n",
        steps,
        false,
    )?;
    let is_left = listing.as_slice() == left.as_bytes();
    drop(listing);
    Ok((blocks, is_left))
}

// What two jobs of the routine `R` leave, which begins at its first line, over the globals of a listing or none, where these jobs are stepped, and made ready
// before or not.
fn stepped(
    alloc: Global,
    listing: Option<&str>,
    bytes: &str,
    steps: &[u32],
    ready: bool,
) -> Result<Left, Failure> {
    let image = image(alloc, bytes)?;
    match globals(alloc, listing) {
        Ok(globals) => with_globals(alloc, image, globals, steps, ready),
        Err(failure) => {
            drop(image);
            Err(failure)
        }
    }
}

fn with_globals(
    alloc: Global,
    image: Image,
    globals: Globals,
    steps: &[u32],
    ready: bool,
) -> Result<Left, Failure>
    requires long { image.bounds.limit ≡ V2 }
    requires global { are_global globals.content ≡ true }
{
    let mut pool = Pool::new(alloc);
    match opened(alloc, &mut pool) {
        Ok(starts) => begun(alloc, image, globals, pool, starts, steps, ready),
        Err(failure) => {
            drop(image);
            drop(globals);
            drop(pool);
            Err(failure)
        }
    }
}

// A principal device and a start for each of the two.
pub fn opened(alloc: Global, pool: &mut Pool<Memory>) -> Result<Vec<Start>, Failure>
    ensures { IfOk result (λ starts. are_bare starts.items ≡ true) }
{
    let name = Text::from_number(alloc, 0);
    let added = add_two(alloc, pool, &name);
    drop(name);
    added?;
    starts(alloc, 2)
}

fn add_two(alloc: Global, pool: &mut Pool<Memory>, name: &Text) -> Result<(), Failure> {
    add(alloc, pool, name)?;
    add(alloc, pool, name)
}

fn begun(
    alloc: Global,
    image: Image,
    globals: Globals,
    pool: Pool<Memory>,
    starts: Vec<Start>,
    steps: &[u32],
    ready: bool,
) -> Result<Left, Failure>
    requires long { image.bounds.limit ≡ V2 }
    requires global { are_global globals.content ≡ true }
    requires bare { are_bare starts.items ≡ true }
{
    if starts.len() != 2 || !pool.fits(2) {
        drop(image);
        drop(globals);
        drop(pool);
        drop(starts);
        return Err(Failure::Memory);
    }
    run::<Memory, Brand>(alloc, image, globals, pool, starts, steps, ready)
}

// Steps the jobs of a core that begins so, and drops it.
fn run<D: Device, O: Opening>(
    alloc: Global,
    image: Image,
    globals: Globals,
    pool: Pool<D>,
    starts: Vec<Start>,
    steps: &[u32],
    ready: bool,
) -> Result<Left, Failure>
    requires long { image.bounds.limit ≡ V2 }
    requires opening { opening_of globals.content pool starts.items ≡ O.opening }
    requires global { are_global globals.content ≡ true }
    requires some { 1 ≤ length starts.items }
    requires few { length starts.items ≤ rows_limit }
    requires fits { length starts.items ≤ left_of principal pool }
    requires bare { are_bare starts.items ≡ true }
{
    match Core::<D, Sessions<D>, O>::new(alloc, image, globals, pool, starts) {
        Ok(core) => Ok(to_its_end(alloc, core, steps, ready)?),
        Err(back) => {
            drop(back);
            Err(Failure::Memory)
        }
    }
}

fn to_its_end<D: Device, O: Opening>(
    alloc: Global,
    mut core: Core<D, Sessions<D>, O>,
    jobs: &[u32],
    ready: bool,
) -> Result<Left, AllocError> {
    let ran = if ready {
        step_ready(&mut core, jobs)
    } else {
        run_all(alloc, &mut core, jobs)
    };
    let left = left(alloc, &core);
    drop(core);
    match ran {
        Ok(()) => left,
        Err(refused) => {
            drop(left);
            Err(refused)
        }
    }
}

// Steps these jobs in order, each by Go.
fn run_all<D: Device, O: Opening>(
    alloc: Global,
    core: &mut Core<D, Sessions<D>, O>,
    jobs: &[u32],
) -> Result<(), AllocError> {
    let mut steps = Vec::new(alloc);
    for job in jobs {
        steps.push(Step {
            job: *job,
            way: Way::Go,
        })?;
    }
    let answers = core.run(&steps)?;
    let all = answers
        .iter()
        .all(|answer| matches!(answer, Ok(Seen::Event(_))));
    drop(answers);
    if all { Ok(()) } else { Err(AllocError) }
}

// Makes these jobs ready and steps them, one after the other.
fn step_ready<D: Device, O: Opening>(
    core: &mut Core<D, Sessions<D>, O>,
    jobs: &[u32],
) -> Result<(), AllocError> {
    for job in jobs {
        match core.ready(*job) {
            Ok(Turn::Asks) => {}
            _ => return Err(AllocError),
        }
        let seen = core.step(Step {
            job: *job,
            way: Way::Go,
        });
        let event = matches!(&seen, Ok(Seen::Event(_)));
        drop(seen);
        if !event {
            return Err(AllocError);
        }
    }
    Ok(())
}

// What the jobs of a core leave.
fn left<D: Device, O: Opening>(
    alloc: Global,
    core: &Core<D, Sessions<D>, O>,
) -> Result<Left, AllocError> {
    let blocks = blocks(alloc, core)?;
    let listing = write(alloc, core.globals())?;
    Ok((blocks, listing))
}

// The first blocks of what the jobs of a core did.
fn blocks<D: Device, O: Opening>(
    alloc: Global,
    core: &Core<D, Sessions<D>, O>,
) -> Result<First, AllocError> {
    let mut history = Vec::new(alloc);
    let copied = copy_events(core, &mut history);
    let found = serial_blocks(alloc, &history);
    drop(history);
    copied?;
    Ok(first_four(&found?))
}

fn copy_events<D: Device, O: Opening>(
    core: &Core<D, Sessions<D>, O>,
    history: &mut Vec<Event>,
) -> Result<(), AllocError> {
    for at in 0..core.len() {
        if let Some((job, ask, reply)) = core.event(at) {
            let ask = ask.try_clone()?;
            match reply.try_clone() {
                Ok(reply) => {
                    history.push(Event { job, ask, reply })?;
                }
                Err(refused) => {
                    drop(ask);
                    return Err(refused);
                }
            }
        }
    }
    Ok(())
}
