// Globals as a job sees them: with what its open transaction wrote.

ghost use Rattle.std.specs.Prelude.{◌≡◌, ◌+◌, take, drop, slice_get, ◌==◌, None, Some, true, IfOk, OnOk, option_map};
ghost use Rattle.mj_sys.specs.Shared.{changed, open_of};
ghost use Rattle.mj_sys.specs.History.{state_of};
ghost use Rattle.mj_debug.specs.Walks.{front};
ghost use Rattle.mj_inspect.specs.Own.{IsFrom, after_answer, closes, closes_at, own_event};
ghost use Rattle.mj_inspect.specs.Own.{seen_access, seen_after, seen_at, seen_behind, seen_by, seen_in, seen_or};

use mj_ask::{Ask, Reply, SharedAsk};
use mj_core::Core;
use mj_debug::Debugger;
use mj_dev::Device;
use mj_globs::Globals;
use mj_sessions::Sessions;
use mj_store::{Access, Answer, perform};
use mj_sys::Opening;
use std::alloc::AllocError;

// The globals at the place as this job sees them, where it has a transaction open there.
pub fn own_globals<D: Device, O: Opening>(
    debugger: &Debugger<D, Sessions<D>, O>,
    job: u32,
) -> Result<Option<Globals>, AllocError>
    requires { debugger.now.ready ≡ true }
    ensures { IfOk result (λ own. option_map (λ g. g.content) own ≡ seen_by (state_of O.opening (front debugger.now)) job) }
{
    own_at(debugger.core(), debugger.globals(), debugger.place(), job)
}

// These globals as a job sees them with the transaction that it has open at a place, if it has one.
fn own_at<D: Device, O: Opening>(
    core: &Core<D, Sessions<D>, O>,
    globals: &Globals,
    place: usize,
    job: u32,
) -> Result<Option<Globals>, AllocError>
    ensures { IfOk result (λ own. option_map (λ g. g.content) own
        ≡ seen_in globals.now.content (open_of (state_of O.opening (take place core.now.history)) job)) }
{
    let _ = core.len(); // for the proof
    let from = last_end(core, place, job);
    seen_from(core, globals, from, place, job)
}

// The place of the last event before a place by which a job closed its transaction, or 0 where it closed none.
fn last_end<D: Device, O: Opening>(core: &Core<D, Sessions<D>, O>, place: usize, job: u32) -> usize
    ensures { IsFrom job core.now.history place result }
{
    let mut last = 0;
    for at in 0..place {
        last = end_at(core, at, job, last);
    }
    last
}

// The last end with one place more.
fn end_at<D: Device, O: Opening>(
    core: &Core<D, Sessions<D>, O>,
    at: usize,
    job: u32,
    last: usize,
) -> usize
    requires { IsFrom job core.now.history at last }
    ensures { IsFrom job core.now.history (at + 1) result }
{
    if closes_here(core, at, job) {
        return at;
    }
    last
}

// Whether a job closed its transaction by the event at a place.
fn closes_here<D: Device, O: Opening>(core: &Core<D, Sessions<D>, O>, at: usize, job: u32) -> bool
    ensures { result ≡ closes_at job (slice_get core.now.history at) }
{
    match core.event(at) {
        Some((who, ask, _)) => who == job && closes(ask),
        None => false,
    }
}

// Whether an ask closes the transaction of its job, if one is open.
fn closes(ask: &Ask) -> bool
    ensures { result ≡ closes ask.now }
{
    matches!(
        ask,
        Ask::Shared(SharedAsk::Commit | SharedAsk::Rollback | SharedAsk::Halt(_))
    )
}

// These globals as a job sees them behind the events from one place to another, of which the first isn't in a transaction of the job.
fn seen_from<D: Device, O: Opening>(
    core: &Core<D, Sessions<D>, O>,
    globals: &Globals,
    first: usize,
    place: usize,
    job: u32,
) -> Result<Option<Globals>, AllocError>
    ensures { IfOk result
        (λ own. option_map (λ g. g.content) own ≡ seen_behind globals.now.content job None (drop first (take place core.now.history))) }
{
    let mut own: Option<Globals> = None;
    for at in first..place {
        own = seen_at(core, globals, own, at, job)?;
    }
    Ok(own)
}

// What a job sees behind the event at a place, by what it saw before.
fn seen_at<D: Device, O: Opening>(
    core: &Core<D, Sessions<D>, O>,
    globals: &Globals,
    own: Option<Globals>,
    at: usize,
    job: u32,
) -> Result<Option<Globals>, AllocError>
    ensures { IfOk result (λ seen. option_map (λ g. g.content) seen
        ≡ seen_at globals.now.content job (option_map (λ g. g.content) own) (slice_get core.now.history at)) }
{
    match own_event(core, at, job) {
        Some((ask, reply)) => seen_behind(globals, own, ask, reply),
        None => Ok(own),
    }
}

// What a job asked and was told by the event at a place, if that is one of its own.
pub fn own_event<D: Device, O: Opening>(
    core: &Core<D, Sessions<D>, O>,
    at: usize,
    job: u32,
) -> Option<(&Ask, &Reply)>
    ensures { option_map (λ own. (own.0.now, own.1.now)) result ≡ own_event job (slice_get core.now.history at) }
{
    match core.event(at) {
        Some((who, ask, reply)) => {
            if is_same(who, job) {
                Some((ask, reply))
            } else {
                None
            }
        }
        None => None,
    }
}

// Whether two jobs are one.
pub fn is_same(who: u32, job: u32) -> bool
    ensures { result ≡ (who == job) }
{
    who == job
}

// What a job sees behind an event of its own, by what it saw before.
fn seen_behind(
    globals: &Globals,
    own: Option<Globals>,
    ask: &Ask,
    reply: &Reply,
) -> Result<Option<Globals>, AllocError>
    ensures { IfOk result (λ seen. option_map (λ g. g.content) seen ≡ seen_after globals.now.content (option_map (λ g. g.content) own) ask.now reply.now) }
{
    match ask {
        Ask::Shared(SharedAsk::Begin(_)) => begun_on(globals, own),
        Ask::Shared(SharedAsk::Commit | SharedAsk::Rollback | SharedAsk::Halt(_)) => Ok(None),
        Ask::Shared(SharedAsk::Access(access)) => accessed(own, access, reply),
        _ => Ok(own),
    }
}

// What a job sees where it begins a transaction: these globals, or what it saw before.
fn begun_on(globals: &Globals, own: Option<Globals>) -> Result<Option<Globals>, AllocError>
    ensures { IfOk result (λ seen. option_map (λ g. g.content) seen ≡ Some (seen_or globals.now.content (option_map (λ g. g.content) own))) }
{
    match own {
        Some(own) => Ok(Some(own)),
        None => Ok(Some(globals.try_clone()?)),
    }
}

// What a job sees behind an access of its own, by what it saw before.
fn accessed(
    own: Option<Globals>,
    access: &Access,
    reply: &Reply,
) -> Result<Option<Globals>, AllocError>
    ensures { IfOk result (λ seen. option_map (λ g. g.content) seen ≡ seen_access (option_map (λ g. g.content) own) access.now reply.now) }
{
    match reply {
        Reply::Answer(answer) => answered(own, access, answer),
        _ => Ok(own),
    }
}

// What a job sees behind an access that was answered so, by what it saw before.
fn answered(
    own: Option<Globals>,
    access: &Access,
    answer: &Answer,
) -> Result<Option<Globals>, AllocError>
    ensures { IfOk result (λ seen. option_map (λ g. g.content) seen
        ≡ option_map (λ c. after_answer c access.now answer.now) (option_map (λ g. g.content) own)) }
{
    match own {
        None => Ok(None),
        Some(mut own) => {
            make(&mut own, access, answer)?;
            Ok(Some(own))
        }
    }
}

// Makes an access that was answered so, if it was made.
fn make(globals: &mut Globals, access: &Access, answer: &Answer) -> Result<(), AllocError>
    ensures { OnOk result (globals.new.content ≡ after_answer globals.old.content access.now answer.now) }
{
    match answer {
        Answer::Limit => Ok(()),
        _ => change(globals, access),
    }
}

// Makes an access to the name of a global.
fn change(globals: &mut Globals, access: &Access) -> Result<(), AllocError>
    ensures { OnOk result (globals.new.content ≡ changed access.now globals.old.content) }
{
    if !access.name().is_global() {
        return Ok(());
    }
    drop(perform(globals, access)?);
    Ok(())
}
