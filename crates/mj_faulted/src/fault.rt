// Where a job comes to its fault.

ghost use Rattle.std.specs.Prelude.{◌≡◌, ◌+◌, None, IfOk, IfSome, IsTrue};
ghost use Rattle.mj_machine.specs.declared.control.Control.TheVariants as controls;
ghost use Rattle.mj_machine.specs.Kept.{standing};
ghost use Rattle.mj_turn.specs.Starts.{start_of};
ghost use Rattle.mj_faulted.specs.Stands.{ComesTo, FaultsAt};
ghost use Rattle.mj_faulted.specs.Walks.{lent};

use crate::walk::{Walk, run_again};
use mj_ask::Reply;
use mj_load::Image;
use mj_machine::{Control, Machine};
use mj_text::Fault;
use mj_turn::Start;
use std::alloc::{AllocError, Global};

/// The most turns of a run that are made once more.
const TURNS: u64 = 1_000_000_000;

/// The machine of a job as it stands before the turn that comes to a fault, and as it stands then.
#[derive(Drop)]
pub struct Fall {
    pub before: Machine,
    pub fallen: Machine,
}

// The machine of a job at its fault, and how many turns come before the one that comes to it.
#[derive(Drop)]
struct Ended {
    before: u64,
    machine: Machine,
}

/// Both machines of a job that starts so, gets these replies, and comes to this fault. Its run is made twice: to see which turn comes to it, and up to that.
/// None where it doesn't come there in a billion turns.
#[tactic(auto, using(crate::proofs::Faulting::faults_at))]
pub fn find_fall(
    alloc: Global,
    image: &Image,
    start: &Start,
    replies: &[&Reply],
    fault: Fault,
) -> Result<Option<Fall>, AllocError>
    ensures { IfOk result (λ found. IfSome found
        (λ f. FaultsAt image.now (start_of start.now) (lent replies.now) fault (standing f.before None) (standing f.fallen None))) }
{
    let Some(ended) = end(alloc, image, start, replies, fault)? else {
        return Ok(None);
    };
    let Ended {
        before,
        machine: fallen,
    } = ended;
    let Walk { machine, turns, .. } = run_again(alloc, image, start, replies, before)?;
    if turns == before {
        Ok(Some(Fall {
            before: machine,
            fallen,
        }))
    } else {
        Ok(None)
    }
}

// The machine where it comes to this fault.
#[tactic(auto, using(crate::proofs::Faulting::comes_to))]
fn end(
    alloc: Global,
    image: &Image,
    start: &Start,
    replies: &[&Reply],
    fault: Fault,
) -> Result<Option<Ended>, AllocError>
    ensures { IfOk result (λ found. IfSome found
        (λ e. ComesTo image.now (start_of start.now) (lent replies.now) fault (e.before + 1) (standing e.machine None))) }
{
    let Walk { machine, turns, .. } = run_again(alloc, image, start, replies, TURNS)?;
    if turns == 0 || !is_at(machine.control, fault) {
        return Ok(None);
    }
    Ok(Some(Ended {
        before: turns - 1,
        machine,
    }))
}

// Whether a machine came to this fault.
fn is_at(control: Control, fault: Fault) -> bool
    ensures { IsTrue result → control ≡ controls.Faulted fault }
{
    match control {
        Control::Faulted(found) => found == fault,
        _ => false,
    }
}
