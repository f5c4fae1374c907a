// A job's run, made once more by the replies that it got.

ghost use Rattle.std.specs.Prelude.{◌≡◌, ◌+◌, ◌<◌, ◌≤◌, ◌^◌, List, None, IfOk, OnOk, slice_get};
ghost use Rattle.mj_ask.specs.declared.ask.Reply as replies_are;
ghost use Rattle.mj_semantics.specs.Job.{Start as Starts};
ghost use Rattle.mj_machine.specs.Kept.{standing, replied};
ghost use Rattle.mj_turn.specs.Sound.{IsSound};
ghost use Rattle.mj_turn.specs.Starts.{start_of};
ghost use Rattle.mj_jobvm.specs.Jobs.{opening_at};
ghost use Rattle.mj_faulted.specs.Walks.{lent, IsWalk};

use mj_ask::{Bounds, Reply};
use mj_frames::Frames;
use mj_load::Image;
use mj_locals::Locals;
use mj_machine::{Control, Machine, TurnOutcome};
use mj_open_devices::Devices;
use mj_segment::run_segment;
use mj_store::Nodes;
use mj_text::Text;
use mj_turn::{Start, make_turn};
use std::alloc::{AllocError, Global};

/// How far a job's run was made: its machine, how many turns it made, and how many replies it took.
#[derive(Drop)]
pub struct Walk {
    pub machine: Machine,
    pub turns: u64,
    pub taken: usize,
}

/// Makes turns of the run of a job that starts so and gets these replies: up to a fault, and at most so many.
pub fn run_again(
    alloc: Global,
    image: &Image,
    start: &Start,
    replies: &[&Reply],
    most: u64,
) -> Result<Walk, AllocError>
    ensures { IfOk result (λ w. IsWalk image.now (start_of start.now) (lent replies.now) w) }
{
    let mut walk = begin(alloc, image, start);
    'turns: for _turn in 0..most {
        if !go_on(alloc, image, start, replies, most, &mut walk)? {
            return Ok(walk);
        }
    }
    Ok(walk)
}

// Before the first turn of a job that starts so.
fn begin(alloc: Global, image: &Image, start: &Start) -> Walk
    ensures { (replies : List replies_are.Reply) → IsWalk image.now (start_of start.now) replies result }
{
    let _ = image.units(); // for the proof
    Walk {
        machine: opening(alloc, image.words(), start.job, image.bounds()),
        turns: 0,
        taken: 0,
    }
}

// Makes turns, of which there are at most so many in all, and says whether more may be made.
fn go_on(
    alloc: Global,
    image: &Image,
    start: &Start,
    replies: &[&Reply],
    most: u64,
    walk: &mut Walk,
) -> Result<bool, AllocError>
    requires { IsWalk image.now (start_of start.now) (lent replies.now) walk.old }
    ensures { OnOk result (IsWalk image.now (start_of start.now) (lent replies.now) walk.new) }
{
    make_several(alloc, image, most, walk);
    if walk.turns >= most || is_faulted(&walk.machine) {
        return Ok(false);
    }
    make_one(alloc, image, start, reply_at(replies, walk.taken), walk)
}

// Makes several turns that ask nobody, up to so many in all.
fn make_several(alloc: Global, image: &Image, most: u64, walk: &mut Walk)
    requires { IsSound image.now.units (standing walk.old.machine None) }
    ensures { (start : Starts) (replies : List replies_are.Reply) → IsWalk image.now start replies walk.old → IsWalk image.now start replies walk.new }
{
    let Some(left) = most.checked_sub(walk.turns) else {
        return;
    };
    let units = image.units();
    let compacts = image.compacts();
    let made = run_segment(alloc, units, compacts, left, &mut walk.machine);
    walk.turns += made;
}

// Makes a turn, with this reply at hand, and says whether there was one: there is none where the job asks for more than it got, and where it is over.
fn make_one(
    alloc: Global,
    image: &Image,
    start: &Start,
    given: Option<&Reply>,
    walk: &mut Walk,
) -> Result<bool, AllocError>
    requires sound { IsSound image.now.units (standing walk.old.machine None) }
    requires more { walk.old.turns + 1 < 2 ^ 64 }
    requires few { walk.old.taken ≤ walk.old.turns }
    ensures { OnOk result ((replies : List replies_are.Reply) → replied given.entry ≡ slice_get replies walk.old.taken
        → IsWalk image.now (start_of start.now) replies walk.old → IsWalk image.now (start_of start.now) replies walk.new) }
{
    let units = image.units();
    match make_turn(alloc, units, start, &mut walk.machine, given) {
        Ok(TurnOutcome::Next) => {
            walk.turns += 1;
            Ok(true)
        }
        Ok(TurnOutcome::Took) => {
            walk.turns += 1;
            walk.taken += 1;
            Ok(true)
        }
        Ok(TurnOutcome::Asks(_)) | Ok(TurnOutcome::Ends) => Ok(false),
        Err(error) => Err(error),
    }
}

// Whether a machine came to a fault.
fn is_faulted(machine: &Machine) -> bool {
    matches!(machine.control, Control::Faulted(_))
}

// The reply behind so many, if there is one.
fn reply_at<'a>(replies: &[&'a Reply], taken: usize) -> Option<&'a Reply>
    ensures { replied result ≡ slice_get (lent replies.now) taken }
{
    match replies.get(taken) {
        None => None,
        Some(reply) => Some(*reply),
    }
}

// Where a job of this number stands before its first turn. Its locals lie in the order of these words.
fn opening(alloc: Global, words: &[Text], job: u32, bounds: Bounds) -> Machine
    ensures { standing result None ≡ opening_at bounds job }
{
    let _events = bounds.events; // for the proof
    let locals = Locals::with_words(alloc, words);
    let frames = Frames::new(alloc);
    let devices = Devices::new(alloc);
    Machine {
        control: Control::Begin,
        job,
        bounds,
        locals,
        frames,
        devices,
        held: Nodes::new(alloc),
        stack: Vec::new(alloc),
        loops: Vec::new(alloc),
        calls: Vec::new(alloc),
        unit: 0,
        level: 0,
        restarts: 0,
        replied: 0,
        test: false,
        mark: None,
        restart: None,
    }
}
