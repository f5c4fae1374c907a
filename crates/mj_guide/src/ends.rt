// Where jobs that go on in turn end before their count.

ghost use Rattle.std.specs.Prelude.{◌≡◌, ◌++◌, codes, IfOk, option_copied, option_map};
ghost use Rattle.std.specs.List.{find};
ghost use Rattle.mj_core.specs.Kept.{shown_event};
ghost use Rattle.mj_gfile.specs.Spelling.{listed_name};
ghost use Rattle.mj_dialogue.specs.Lines.{lined};
ghost use Rattle.mj_guide.specs.Ends.{touches, touched, is_reached, is_goal, is_up_to_busy, ended_in, event_end, end_at, end_behind};
ghost use Rattle.mj_guide.specs.Ends.{all_wait, ending, seen_of, waiting_end};

use crate::notes::Notes;
use crate::request::Goal;
use crate::tally::Tally;
use mj_ask::{Ask, Reply, SharedAsk};
use mj_core::{Core, Seen};
use mj_debug::{Debugger, Gone};
use mj_dev::Device;
use mj_gfile::put_name;
use mj_inspect::said;
use mj_sessions::Sessions;
use mj_store::{Access, Answer};
use mj_subs::Name;
use mj_sys::Opening;
use std::alloc::{AllocError, Global};

// What is told behind a step in turn that is the last.
pub fn ending<D: Device, O: Opening>(
    alloc: Global,
    debugger: &Debugger<D, Sessions<D>, O>,
    notes: &Notes,
    goal: Option<&Goal>,
    tally: &Tally,
    gone: &Gone,
) -> Result<Option<Vec<u8>>, AllocError>
    requires { tally.now.ended ≡ ended_in debugger.now.core.history }
    ensures { IfOk result (λ end. option_map (λ line. line.items) end
        ≡ ending O.opening notes.now.watched.items (option_copied goal.entry) tally.now.waited gone.now debugger.now.core.history) }
{
    match seen_of(gone) {
        Some(seen) => end_behind(
            alloc,
            debugger.core(),
            &notes.watched,
            goal,
            tally.waited,
            tally.ended,
            seen,
        ),
        None => Ok(Some(Vec::new(alloc))),
    }
}

// What was seen of a step in turn, if one was made.
pub fn seen_of(gone: &Gone) -> Option<&Seen>
    ensures { option_copied result ≡ seen_of gone.now }
{
    match gone {
        Gone::Step { job: _, answer } => match answer {
            Ok(seen) => Some(seen),
            Err(_) => None,
        },
        Gone::NotAtEnd | Gone::Over | Gone::At { .. } => None,
    }
}

// What is told behind a step that was made, where it is the last.
fn end_behind<D: Device, O: Opening>(
    alloc: Global,
    core: &Core<D, Sessions<D>, O>,
    watched: &[Name],
    goal: Option<&Goal>,
    waited: u32,
    ended: usize,
    seen: &Seen,
) -> Result<Option<Vec<u8>>, AllocError>
    requires { ended ≡ ended_in core.now.history }
    ensures { IfOk result (λ end. option_map (λ line. line.items) end
        ≡ end_behind O.opening watched.now (option_copied goal.entry) waited seen.now core.now.history) }
{
    match seen {
        Seen::Event(at) => end_at(alloc, watched, goal, core.event(*at)),
        Seen::Busy { .. } => {
            waiting_end(alloc, all_wait(core, waited, ended), is_up_to_busy(goal))
        }
        Seen::NotYet => waiting_end(alloc, all_wait(core, waited, ended), false),
        Seen::Unfit | Seen::Ran | Seen::Ended => Ok(None),
    }
}

// What is told behind an event, where it is the last.
fn end_at(
    alloc: Global,
    watched: &[Name],
    goal: Option<&Goal>,
    event: Option<(u32, &Ask, &Reply)>,
) -> Result<Option<Vec<u8>>, AllocError>
    ensures { IfOk result (λ end. option_map (λ line. line.items) end ≡ end_at watched.now (option_copied goal.entry) (shown_event event.entry)) }
{
    match event {
        Some((_, ask, reply)) => {
            event_end(
                alloc,
                touched(watched, ask, reply),
                is_goal(goal, ask, reply),
            )
        }
        None => Ok(None),
    }
}

// The same of one that wrote to a watched name, or reached the goal.
fn event_end(
    alloc: Global,
    name: Option<&Name>,
    reached: bool,
) -> Result<Option<Vec<u8>>, AllocError>
    ensures { IfOk result (λ end. option_map (λ line. line.items) end ≡ event_end (option_copied name.entry) reached) }
{
    if let Some(name) = name {
        let line = watch_line(alloc, name)?;
        return Ok(Some(line));
    }
    if reached {
        return Ok(Some(Vec::new(alloc)));
    }
    Ok(None)
}

// The line that tells of a watched name.
fn watch_line(alloc: Global, name: &Name) -> Result<Vec<u8>, AllocError>
    ensures { IfOk result (λ line. line.items ≡ lined (codes "watch " ++ listed_name name.now)) }
{
    let mut line = Vec::new(alloc);
    line.extend_from_slice(b"watch ")?;
    put_name(&mut line, name)?;
    line.push(b'\n')?;
    Ok(line)
}

// What is told behind a step that waited, where it is the last.
fn waiting_end(alloc: Global, all: bool, reached: bool) -> Result<Option<Vec<u8>>, AllocError>
    ensures { IfOk result (λ end. option_map (λ line. line.items) end ≡ waiting_end all reached) }
{
    if all {
        let line = said(alloc, b"stuck")?;
        return Ok(Some(line));
    }
    if reached {
        return Ok(Some(Vec::new(alloc)));
    }
    Ok(None)
}

// Whether all jobs wait that haven't ended.
fn all_wait<D: Device, O: Opening>(
    core: &Core<D, Sessions<D>, O>,
    waited: u32,
    ended: usize,
) -> bool
    requires { ended ≡ ended_in core.now.history }
    ensures { result ≡ all_wait O.opening waited core.now.history }
{
    let _events = core.len(); // for the proof
    let over = waited as usize + ended;
    over >= core.jobs()
}

// The first of these names that an event wrote to, if there is one.
fn touched<'a>(watched: &'a [Name], ask: &Ask, reply: &Reply) -> Option<&'a Name>
    ensures { option_copied result ≡ touched watched.now ask.now reply.now }
{
    let Reply::Answer(Answer::Done) = reply else {
        return None;
    };
    let Ask::Shared(SharedAsk::Access(access)) = ask else {
        return None;
    };
    first_touched(watched, access)
}

// The first of these names that a write is to, if there is one.
fn first_touched<'a>(watched: &'a [Name], access: &Access) -> Option<&'a Name>
    ensures { option_copied result ≡ find (λ name. touches access.now name) watched.now }
{
    watched.iter().find(|name| touches(access, *name))
}

// Whether an access that is done changes what stands at a name or below it, or may.
fn touches(access: &Access, name: &Name) -> bool
    ensures { result ≡ touches access.now name.now }
{
    match access {
        Access::Set(written, _) => {
            let written = written.get();
            name.overlap(written) && !written.above(name)
        }
        Access::Kill(written) | Access::Put(written, _) => name.overlap(written.get()),
        Access::Value(_)
        | Access::Data(_)
        | Access::Order(_, _)
        | Access::Query(_)
        | Access::Subtree(_) => false,
    }
}

// Whether the goal is reached by an event, if there is a goal.
fn is_goal(goal: Option<&Goal>, ask: &Ask, reply: &Reply) -> bool
    ensures { result ≡ is_goal (option_copied goal.entry) ask.now reply.now }
{
    match goal {
        Some(goal) => is_reached(goal, ask, reply),
        None => false,
    }
}

// Whether an event is what jobs went on up to.
fn is_reached(goal: &Goal, ask: &Ask, reply: &Reply) -> bool
    ensures { result ≡ is_reached goal.now ask.now reply.now }
{
    match goal {
        Goal::Clash => matches!(reply, Reply::Clash(_)),
        Goal::Fault => matches!(ask, Ask::Shared(SharedAsk::Halt(Some(_)))),
        Goal::Busy | Goal::Line { .. } => false,
    }
}

// Whether the goal is a step that is busy.
fn is_up_to_busy(goal: Option<&Goal>) -> bool
    ensures { result ≡ is_up_to_busy (option_copied goal.entry) }
{
    match goal {
        Some(Goal::Busy) => true,
        Some(Goal::Clash | Goal::Fault | Goal::Line { .. }) => false,
        None => false,
    }
}
