// A trace, run again.

ghost use Rattle.std.specs.Prelude.{◌≡◌, ◌≤◌, [], length, replicate, true, false, IfOk, IfErr};
ghost use Rattle.mj_dev.specs.Shelves.{principal, left_of};
ghost use Rattle.mj_jobs.specs.Rows.{rows_limit};
ghost use Rattle.mj_sys.specs.Opening.{opening_of, are_bare};
ghost use Rattle.mj_sys.specs.Shared.{are_global};
ghost use Rattle.mj_text.specs.declared.limit.Limit.TheVariants.{V2};
ghost use Rattle.mj_trace.specs.Lines.{IsTrace};
ghost use Rattle.mj_load.specs.Image.{program_of};
ghost use Rattle.mj_replica.specs.Replays.{history_of};
ghost use Rattle.mj_replay.specs.Traces.{opening_in};
ghost use Rattle.mj_retrace.specs.Retraced.{IsRetraced, IsUntraced};

use crate::again::make_again;
use crate::ends::{add_spot, next_asks};
use crate::holds::{Held, Hold, note_holds};
use mj_ask::{Ask, Noted, Start};
use mj_core::Core;
use mj_dev::{Blank, Pool};
use mj_expect::Heeds;
use mj_globs::Globals;
use mj_load::Image;
use mj_replay::opened;
use mj_sys::Opening;
use mj_text::Text;
use mj_trace::Trace;
use std::alloc::{AllocError, Global};
use std::marker::Brand;

/// What a job asks for that goes on, and has no reply yet.
pub type Asked = (u32, Ask);

/// Where a job stands in the routines: a routine and a line of it, or nowhere.
pub type Spot = Option<(Text, u32)>;

/// What is known of a trace that was run again.
#[derive(Drop)]
pub struct Retraced {
    /// where in the routines each of its events comes from
    pub spots: Vec<Spot>,
    /// what the jobs that go on ask next
    pub asked: Vec<Asked>,
    /// where in the routines each of these asks comes from
    pub stands: Vec<Spot>,
    /// what jobs hold at its end
    pub holds: Vec<Hold>,
    /// what they held before, and gave up
    pub past: Vec<Held>,
}

/// Why a trace isn't run again.
#[derive(Clone, Copy, PartialEq, Eq, Debug)]
pub enum Untraced {
    /// an allocation was refused
    Memory,
    /// the event at this place, from 0, is the first that isn't made
    Differs(usize),
}

impl From<AllocError> for Untraced {
    ghost use Rattle.mj_retrace.specs.declared.retracing.Untraced.TheVariants as untraced;
    ghost use Rattle.std.specs.Prelude.{◌≡◌};

    ghost from_gives = { λ _ why. why ≡ untraced.Memory };

    fn from(_error: AllocError) -> Untraced {
        Untraced::Memory
    }
}

/// Runs a trace again, over this image and these globals. Texts have the greater limit, as in every core, be the trace's what it may. An event may be taken
/// for one that isn't made where its job goes on for 10,000,000,000 turns behind its last reply.
pub fn retrace(
    alloc: Global,
    image: Image,
    globals: Globals,
    trace: &Trace,
) -> Result<Retraced, Untraced>
    requires global { are_global globals.content ≡ true }
    requires written { IsTrace trace.now }
    requires long { image.bounds.limit ≡ V2 }
    requires room { length trace.now.events ≤ image.bounds.events }
    ensures told { IfOk result (λ told. IsRetraced (program_of image) (opening_in globals.content trace.now) (history_of trace.now.events)
        told.spots.items told.asked.items told.stands.items told.holds.items told.past.items) }
    ensures why { IfErr result (λ why. IsUntraced (program_of image) (opening_in globals.content trace.now) (history_of trace.now.events) why) }
{
    match opened(alloc, trace) {
        Ok((pool, starts)) => retrace_over(alloc, image, globals, pool, starts, trace.events()),
        Err(_) => {
            drop(image);
            drop(globals);
            Err(Untraced::Memory)
        }
    }
}

// Runs events again over an opening.
fn retrace_over(
    alloc: Global,
    image: Image,
    globals: Globals,
    pool: Pool<Blank>,
    starts: Vec<Start>,
    events: &[Noted],
) -> Result<Retraced, Untraced>
    requires global { are_global globals.content ≡ true }
    requires some { 1 ≤ length starts.items }
    requires few { length starts.items ≤ rows_limit }
    requires fits { length starts.items ≤ left_of principal pool }
    requires bare { are_bare starts.items ≡ true }
    requires long { image.bounds.limit ≡ V2 }
    requires room { length events.now ≤ image.bounds.events }
    ensures told { IfOk result (λ told. IsRetraced (program_of image) (opening_of globals.content pool starts.items) (history_of events.now)
        told.spots.items told.asked.items told.stands.items told.holds.items told.past.items) }
    ensures why { IfErr result (λ why. IsUntraced (program_of image) (opening_of globals.content pool starts.items) (history_of events.now) why) }
{
    retrace_in::<Brand>(alloc, image, globals, pool, starts, events)
}

// Runs them again in a core of that opening.
fn retrace_in<O: Opening>(
    alloc: Global,
    image: Image,
    globals: Globals,
    pool: Pool<Blank>,
    starts: Vec<Start>,
    events: &[Noted],
) -> Result<Retraced, Untraced>
    requires opening { opening_of globals.content pool starts.items ≡ O.opening }
    requires global { are_global globals.content ≡ true }
    requires some { 1 ≤ length starts.items }
    requires few { length starts.items ≤ rows_limit }
    requires fits { length starts.items ≤ left_of principal pool }
    requires bare { are_bare starts.items ≡ true }
    requires long { image.bounds.limit ≡ V2 }
    requires room { length events.now ≤ image.bounds.events }
    ensures told { IfOk result (λ told. IsRetraced (program_of image) O.opening (history_of events.now)
        told.spots.items told.asked.items told.stands.items told.holds.items told.past.items) }
    ensures why { IfErr result (λ why. IsUntraced (program_of image) O.opening (history_of events.now) why) }
{
    match Core::<Blank, Heeds, O>::new(alloc, image, globals, pool, starts) {
        Ok(mut core) => {
            let told = through(alloc, &mut core, events);
            drop(core);
            told
        }
        Err(back) => {
            drop(back);
            Err(Untraced::Memory)
        }
    }
}

// Goes through all events, and to what the jobs ask behind them.
fn through<O: Opening>(
    alloc: Global,
    core: &mut Core<Blank, Heeds, O>,
    events: &[Noted],
) -> Result<Retraced, Untraced>
    requires none { core.old.history ≡ [] }
    requires over { core.old.over ≡ replicate rows_limit false }
    requires free { O.opening.locks ≡ [] }
    requires short { length events.now ≤ core.old.image.bounds.events }
    ensures told { IfOk result (λ told. IsRetraced (program_of core.old.image) O.opening (history_of events.now)
        told.spots.items told.asked.items told.stands.items told.holds.items told.past.items) }
    ensures why { IfErr result (λ why. IsUntraced (program_of core.old.image) O.opening (history_of events.now) why) }
{
    let mut spots = Vec::new(alloc);
    let mut holds = Vec::new(alloc);
    let mut past = Vec::new(alloc);
    for (place, event) in events.iter().enumerate() {
        if !make_again(core, event.job, &event.ask, &event.reply)? {
            return Err(Untraced::Differs(place));
        }
        add_spot(&mut spots, core, event.job)?;
        note_holds(
            &mut holds,
            &mut past,
            core.locks(),
            event.job,
            &event.ask,
            &event.reply,
            place,
        )?;
    }
    let _events = core.len(); // for the proof
    let (asked, stands) = next_asks(alloc, core)?;
    Ok(Retraced {
        spots,
        asked,
        stands,
        holds,
        past,
    })
}
