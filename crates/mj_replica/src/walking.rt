// Recorded events, made again one after the other.

ghost use Rattle.std.specs.Prelude.{◌≡◌, ◌≤◌, [], length, IfOk, true};
ghost use Rattle.mj_dev.specs.Shelves.{principal, left_of};
ghost use Rattle.mj_jobs.specs.Rows.{rows_limit};
ghost use Rattle.mj_load.specs.Image.{program_of};
ghost use Rattle.mj_sys.specs.Opening.{opening_of, are_bare};
ghost use Rattle.mj_sys.specs.Shared.{are_global};
ghost use Rattle.mj_sys.specs.System.{history_limit};
ghost use Rattle.mj_replica.specs.Playing.{AreStaged};
ghost use Rattle.mj_replica.specs.Walks.{Walks};

use crate::placing::look;
use crate::playing::Played;
use crate::replaying::{Verdict, make_event};
use mj_ask::{Noted, Start};
use mj_dev::{Device, Pool};
use mj_globs::Globals;
use mj_load::Image;
use mj_sys::{Opening, System};
use std::alloc::{AllocError, Global};

// Which of the places where events came from are sought.
#[derive(Clone, Copy)]
pub enum Sought {
    // none
    Nothing,
    // those that are recorded, and an event from another isn't made
    Recorded,
    // all
    All,
}

// Makes recorded events again, from the opening of a system of these globals, devices and starts. Where all places are sought, the events with them are
// found.
pub fn walk<D: Device, O: Opening>(
    alloc: Global,
    image: &Image,
    globals: Globals,
    pool: Pool<D>,
    starts: Vec<Start>,
    events: &[Noted],
    what: Sought,
    found: &mut Vec<Noted>,
) -> Result<Verdict, AllocError>
    requires opening { opening_of globals.content pool starts.items ≡ O.opening }
    requires global { are_global globals.content ≡ true }
    requires some { 1 ≤ length starts.items }
    requires few { length starts.items ≤ rows_limit }
    requires fits { length starts.items ≤ left_of principal pool }
    requires bare { are_bare starts.items ≡ true }
    requires short { length events.now ≤ history_limit }
    requires none { found.old.items ≡ [] }
    ensures { IfOk result (λ verdict. Walks (program_of image.now) O.opening what events.now verdict found.new.items) }
{
    let mut system = match System::<D, O>::new(alloc, globals, pool, starts) {
        Ok(system) => system,
        Err(back) => {
            drop(back);
            return Err(AllocError);
        }
    };
    let mut jobs = Vec::new(alloc);
    walk_on(alloc, image, &mut system, &mut jobs, events, what, found)
}

// Makes recorded events again, each if it is the next.
fn walk_on<D: Device, O: Opening>(
    alloc: Global,
    image: &Image,
    system: &mut System<D, O>,
    jobs: &mut Vec<Played>,
    events: &[Noted],
    what: Sought,
    found: &mut Vec<Noted>,
) -> Result<Verdict, AllocError>
    requires staged { AreStaged image.now O.opening [] system.old jobs.old.items }
    requires short { length events.now ≤ history_limit }
    requires none { found.old.items ≡ [] }
    ensures { IfOk result (λ verdict. Walks (program_of image.now) O.opening what events.now verdict found.new.items) }
{
    for at in 0..events.len() {
        let event = &events[at];
        let made = make_event(
            alloc,
            image,
            system,
            jobs,
            event.job,
            &event.ask,
            &event.reply,
        )?;
        if !made {
            return Ok(Verdict::Differs(at));
        }
        let agrees = look(what, jobs, event, found)?;
        if !agrees {
            return Ok(Verdict::Differs(at));
        }
    }
    Ok(Verdict::Same)
}
