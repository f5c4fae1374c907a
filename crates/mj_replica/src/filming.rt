// Views of the last places before one, made while a run is played again up to it.

ghost use Rattle.std.specs.Prelude.{◌≡◌, ◌≤◌, length, IfErr, OnOk};
ghost use Rattle.mj_sys.specs.System.{history_limit};
ghost use Rattle.mj_replica.specs.Replicas.{IsReplica, IsUnshown};
ghost use Rattle.mj_replica.specs.Views.{view_of, AreViews, AreBefore, IsPutOrGone};

use crate::replica::{Replica, Unshown};
use mj_core::Core;
use mj_dev::Device;
use mj_sessions::Sessions;
use mj_subs::Subs;
use mj_sys::Opening;
use mj_text::Text;
use mj_tree::{Sink, SinkStop};
use mj_views::Views;
use std::alloc::Global;

// The most places of which views are kept: so many steps back are shown at the cost of one replay.
const MOST: usize = 1_000;

// How many nodes all views may have together beyond one for each event before the place: so those of a short run aren't few, and those of a long one take
// about the memory and time that its replay does.
const SPARE: usize = 100_000;

// As how many nodes a job counts beside its locals and frames: so much does its table of locals take, however few there are.
const JOB: usize = 4;

// Plays the events before a place, and makes views of the last places before it: of at most so many, and as long as there is room for them. Where there
// isn't, or memory is wanting for one, they all go, and some events may be left to be played.
pub fn film<D: Device, O: Opening>(
    alloc: Global,
    core: &Core<D, Sessions<D>, O>,
    views: &mut Views,
    replica: &mut Replica<O>,
    place: usize,
    most: usize,
) -> Result<(), Unshown>
    requires replica { IsReplica core.now.image O.opening core.now.history replica.old }
    requires none { replica.old.made ≡ 0 }
    requires views { AreViews core.now.image O.opening core.now.history views.old }
    requires before { AreBefore place views.old }
    requires within { place ≤ length core.now.history }
    requires short { length core.now.history ≤ history_limit }
    ensures ok { OnOk result (IsReplica core.now.image O.opening core.now.history replica.new) }
    ensures made { OnOk result (replica.new.made ≤ place) }
    ensures err { IfErr result (λ why. IsUnshown core.now.image O.opening core.now.history place why) }
    ensures views { AreViews core.now.image O.opening core.now.history views.new }
    ensures before { AreBefore place views.new }
{
    let first = place - most.min(place);
    replica.play_to(alloc, core, first)?;
    views.begin(first);
    let mut room = room_before(place);
    for _ in first..place {
        let Ok(()) = replica.fill(alloc, core.image()) else {
            return Err(Unshown::Memory);
        };
        if !keep_view(alloc, replica, views, &mut room) {
            return Ok(());
        }
        replica.play(alloc, core)?;
    }
    Ok(())
}

// Keeps a view of what stands where a run has come to, and says whether it does. Where it takes more than the room that is left, or memory is wanting, all
// views go.
fn keep_view<O: Opening>(
    alloc: Global,
    replica: &Replica<O>,
    views: &mut Views,
    room: &mut usize,
) -> bool
    ensures { IsPutOrGone (view_of O.opening replica.now) views.old result views.new }
{
    if let Some(left) = left_beside(alloc, replica, *room) {
        if let Ok(view) = replica.view() {
            if views.push(view).is_ok() {
                *room = left;
                return true;
            }
        }
    }
    views.clear();
    false
}

// How many nodes views of places before this one may have together.
fn room_before(place: usize) -> usize {
    place.saturating_add(SPARE)
}

// Of how many places before this one views may be kept, if they are as large as one of where a run beyond it has come to. Without such a run the room
// alone says how many are kept.
pub fn count_kept<O: Opening>(alloc: Global, replica: &Option<Replica<O>>, place: usize) -> usize {
    let Some(replica) = replica else {
        return MOST;
    };
    if replica.made() <= place {
        return MOST;
    }
    let room = room_before(place);
    match left_beside(alloc, replica, room) {
        Some(left) => (room / room.saturating_sub(left).max(1)).min(MOST),
        None => 0,
    }
}

// How much is left of the room for so many nodes beside a view of here, where a lock and a frame take as much as a node. None where there is too little,
// or where memory is wanting.
fn left_beside<O: Opening>(alloc: Global, replica: &Replica<O>, room: usize) -> Option<usize> {
    let mut left = Left { nodes: room };
    let Ok(()) = replica.globals().walk(&mut left) else {
        return None;
    };
    let Ok(held) = replica.locks().held(alloc) else {
        return None;
    };
    let mut left = left.nodes.checked_sub(held.len())?;
    for played in replica.jobs() {
        let Ok(nodes) = played.job.locals().nodes() else {
            return None;
        };
        left = left.checked_sub(nodes.len())?;
        left = left
            .checked_sub(played.job.frames().len())?
            .checked_sub(JOB)?;
    }
    Some(left)
}

// The room that is left for nodes, which are taken and not kept.
#[derive(Drop)]
struct Left {
    nodes: usize,
}

impl Sink for Left {
    ghost takes = { λ _ _ _. Unit {0} };

    ghost nothing = { λ _. tt };

    ghost closes = { λ _ _ _. Unit {0} };

    ghost more = { λ _ _ _ _ _ _ _. tt };

    ghost closed = { λ _ _ _ _ _ _ _. tt };

    fn take(
        &mut self,
        _global: bool,
        _word: &[u8],
        _subscripts: &Subs,
        _text: &Text,
    ) -> Result<(), SinkStop> {
        match self.nodes.checked_sub(1) {
            None => Err(SinkStop::Closed),
            Some(left) => {
                self.nodes = left;
                Ok(())
            }
        }
    }
}
