// When changes of globals are made.

ghost use Rattle.std.specs.Prelude.{◌≡◌, ◌<◌, ◌++◌, length, suc, ◌-◌, slice_get, IfOk, OnOk, option_copied, Some};
ghost use Rattle.mj_explain.specs.Events.{AreBegins};
ghost use Rattle.mj_explain.specs.Landings.{landed, landed_in, made_by, made_at};

use crate::events::{change_at, is_change_of, is_commit};
use mj_ask::Noted;
use std::alloc::{AllocError, Global};

/// A change of a global that is made.
#[derive(Clone, Copy, PartialEq, Eq, Debug)]
pub struct Landing {
    /// the place of the event that is the change
    pub write: usize,
    /// the place of the event that makes it: the change itself, or a commit
    pub made: usize,
}

/// The changes that the event at a place makes.
pub fn made_at(
    alloc: Global,
    events: &[Noted],
    begins: &[Option<usize>],
    place: usize,
) -> Result<Vec<Landing>, AllocError>
    requires begins { AreBegins events.now begins.now }
    requires within { place < length events.now }
    ensures { IfOk result (λ made. made.items ≡ made_at events.now place) }
{
    let mut made = Vec::new(alloc);
    match add_made(&mut made, events, begins, place) {
        Ok(()) => Ok(made),
        Err(refused) => Err(refused),
    }
}

// Adds the changes that the event at a place makes.
fn add_made(
    landings: &mut Vec<Landing>,
    events: &[Noted],
    begins: &[Option<usize>],
    place: usize,
) -> Result<(), AllocError>
    requires begins { AreBegins events.now begins.now }
    requires within { place < length events.now }
    ensures { OnOk result (landings.new.items ≡ landings.old.items ++ made_at events.now place) }
{
    add_by(landings, events, place, begins[place], &events[place])
}

// Adds those of an event whose job has this transaction open, or none.
#[tactic(auto, using(crate::proofs::Counting::landed_none, crate::proofs::Begun::change_there))]
fn add_by(
    landings: &mut Vec<Landing>,
    events: &[Noted],
    place: usize,
    began: Option<usize>,
    event: &Noted,
) -> Result<(), AllocError>
    requires { slice_get events.now place ≡ Some event.now }
    ensures { OnOk result (landings.new.items ≡ landings.old.items ++ made_by events.now place began event.now) }
{
    match began {
        None => {
            if change_at(events, place).is_some() {
                landings.push(Landing {
                    write: place,
                    made: place,
                })?;
            }
            Ok(())
        }
        Some(begin) => {
            if is_commit(&event.ask, &event.reply) && begin < place {
                return add_landed(landings, events, event.job, place, begin + 1);
            }
            Ok(())
        }
    }
}

// Adds the changes of a job's events from a place on up to the one that makes them.
fn add_landed(
    landings: &mut Vec<Landing>,
    events: &[Noted],
    job: u32,
    made: usize,
    from: usize,
) -> Result<(), AllocError>
    ensures { OnOk result (landings.new.items ≡ landings.old.items ++ landed_in events.now job made from (made - from)) }
{
    for write in from..made {
        add_one(landings, events, job, made, write)?;
    }
    Ok(())
}

// Adds the change that an event of a job is, if it is one.
fn add_one(
    landings: &mut Vec<Landing>,
    events: &[Noted],
    job: u32,
    made: usize,
    write: usize,
) -> Result<(), AllocError>
    ensures { OnOk result (landings.new.items ≡ landings.old.items ++ landed events.now job made write) }
{
    if is_change_of(job, events.get(write)) {
        landings.push(Landing { write, made })?;
    }
    Ok(())
}
