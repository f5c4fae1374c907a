// What each job asks next at a place in the record.

ghost use Rattle.std.specs.Prelude.{◌≡◌, ◌≤◌, ◌+◌, ◌++◌, ◌∷◌, [], List, take, slice_get, true, false, ◌⊎◌, IfOk, OnOk, option_copied};
ghost use Rattle.mj_ask.specs.Started.{Started};
ghost use Rattle.mj_ask.specs.declared.ask.Reply.{Reply as ReplyOf};
ghost use Rattle.mj_frames.specs.Frames.{place_at};
ghost use Rattle.mj_semantics.specs.Job.{Start as StartOf};
ghost use Rattle.mj_load.specs.Image.{program_of};
ghost use Rattle.mj_jobvm.specs.Jobs.{IsIn, IsRunOf};
ghost use Rattle.mj_core.specs.Runs.{start_in};
ghost use Rattle.mj_replica.specs.Replays.{turns_limit};
ghost use Rattle.mj_inspect.specs.Own.{own_event};
ghost use Rattle.mj_inspect.specs.Stands.{IsBehind, IsNext, IsStarted, Puts, starts_of, turn_line};
ghost use Rattle.mj_inspect.specs.Waits.{IsCut, IsCutBefore, IsLost, TellsWaits, asked_text, is_due, is_over, numbered, place_text};
ghost use Rattle.mj_inspect.specs.Waits.{reply_in, runs_line, started_at, started_by, started_in, told_before, waiting_line};

use crate::own::own_event;
use crate::telling::or_nothing;
use itoa::Buffer;
use mj_ask::{Ask, Reply, SharedAsk, Start};
use mj_core::Core;
use mj_debug::Debugger;
use mj_dev::Device;
use mj_jobvm::{Job, Turn};
use mj_load::Image;
use mj_sessions::Sessions;
use mj_sys::Opening;
use mj_text::{Digits, Text};
use mj_trace::put_ask;
use std::alloc::{AllocError, Global};

// The turns that a job is let go on for behind a reply of the record.
pub const TURNS: u64 = 10_000_000_000;

// The turns that a job is let go on for to see what it asks next.
const LOOKS: u64 = 1_000_000;

/// The lines of what each job asks next at the place that hasn't ended there, or that there are none: the first jobs, which started so, then those that
/// others started. Each is let go on by itself, told what the record has, and neither served nor changed.
pub fn waits<D: Device, O: Opening>(
    alloc: Global,
    debugger: &Debugger<D, Sessions<D>, O>,
    starts: &[Start],
) -> Result<Vec<u8>, AllocError>
    ensures { IfOk result
        (λ bytes. TellsWaits debugger.now.core.image starts.now debugger.now.core.history debugger.now.place bytes.items) }
{
    waits_at(alloc, debugger.core(), debugger.place(), starts)
}

// The lines of what each job asks next at a place.
fn waits_at<D: Device, O: Opening>(
    alloc: Global,
    core: &Core<D, Sessions<D>, O>,
    place: usize,
    starts: &[Start],
) -> Result<Vec<u8>, AllocError>
    ensures { IfOk result (λ bytes. TellsWaits core.now.image starts.now core.now.history place bytes.items) }
{
    let mut bytes = Vec::new(alloc);
    put_first(alloc, core, place, &mut bytes, starts)?;
    put_started(alloc, core, place, &mut bytes)?;
    or_nothing(alloc, bytes)
}

// Puts the lines of the first jobs to the end, which started so.
fn put_first<D: Device, O: Opening>(
    alloc: Global,
    core: &Core<D, Sessions<D>, O>,
    place: usize,
    bytes: &mut Vec<u8>,
    starts: &[Start],
) -> Result<(), AllocError>
    ensures { OnOk result (Puts core.now.image core.now.history place (numbered 1 starts.now) bytes.old.items bytes.new.items) }
{
    let mut job: u32 = 0;
    for start in starts {
        job = number_behind(job)?;
        put_next(alloc, core, place, bytes, job, start)?;
    }
    Ok(())
}

// The number of the next job. There is no memory for more jobs than can be numbered.
fn number_behind(job: u32) -> Result<u32, AllocError>
    ensures { IfOk result (λ number. number ≡ job + 1) }
{
    match job.checked_add(1) {
        Some(number) => Ok(number),
        None => Err(AllocError),
    }
}

// Puts the lines of the jobs to the end that others started before a place.
fn put_started<D: Device, O: Opening>(
    alloc: Global,
    core: &Core<D, Sessions<D>, O>,
    place: usize,
    bytes: &mut Vec<u8>,
) -> Result<(), AllocError>
    ensures { OnOk result (Puts core.now.image core.now.history place (started_in (take place core.now.history)) bytes.old.items bytes.new.items) }
{
    for at in 0..place {
        put_at(alloc, core, place, bytes, at)?;
    }
    Ok(())
}

// Puts the line of the job to the end that the event at a place started, if it did.
fn put_at<D: Device, O: Opening>(
    alloc: Global,
    core: &Core<D, Sessions<D>, O>,
    place: usize,
    bytes: &mut Vec<u8>,
    at: usize,
) -> Result<(), AllocError>
    ensures { OnOk result (Puts core.now.image core.now.history place (started_at (slice_get core.now.history at)) bytes.old.items bytes.new.items) }
{
    match job_started(core, at) {
        Some((job, start)) => put_next(alloc, core, place, bytes, job, start),
        None => Ok(()),
    }
}

// The job that the event at a place started, and how it starts, if it did.
pub fn job_started<D: Device, O: Opening>(
    core: &Core<D, Sessions<D>, O>,
    at: usize,
) -> Option<(u32, &Start)>
    ensures { starts_of result ≡ started_at (slice_get core.now.history at) }
{
    match core.event(at) {
        Some((_, ask, reply)) => job_of(ask, reply),
        None => None,
    }
}

// The job that is started by what is asked and told, and how it starts, if one is.
fn job_of<'a>(ask: &'a Ask, reply: &Reply) -> Option<(u32, &'a Start)>
    ensures { starts_of result ≡ started_by ask.now reply.now }
{
    match ask {
        Ask::Shared(SharedAsk::Start(start, _)) => match reply {
            Reply::Job(job) => Some((*job, start.get())),
            _ => None,
        },
        _ => None,
    }
}

// Puts the line of what a job asks next to the end, that started so: the line that the ask comes from, or `-`, and the ask as a trace has it; of one that asks
// nothing for as many turns as it is let go on for, that it runs; and nothing of one that has ended.
fn put_next<D: Device, O: Opening>(
    alloc: Global,
    core: &Core<D, Sessions<D>, O>,
    place: usize,
    bytes: &mut Vec<u8>,
    number: u32,
    start: &Start,
) -> Result<(), AllocError>
    ensures { OnOk result (Puts core.now.image core.now.history place (start_in number start.now ∷ []) bytes.old.items bytes.new.items) }
{
    let mut job = started(alloc, core, number, start)?;
    let put = put_followed(alloc, core, place, bytes, number, &mut job);
    drop(job);
    put
}

// Puts the line of a job to the end that was told nothing yet.
fn put_followed<D: Device, O: Opening>(
    alloc: Global,
    core: &Core<D, Sessions<D>, O>,
    place: usize,
    bytes: &mut Vec<u8>,
    number: u32,
    job: &mut Job,
) -> Result<(), AllocError>
    requires { IsStarted core.now.image number job.old }
    ensures { (start : Started) → IsBehind core.now.image (start_in number start) [] job.old
        → OnOk result (Puts core.now.image core.now.history place (start_in number start ∷ []) bytes.old.items bytes.new.items) }
{
    if !follows(core, place, number, job)? {
        return Ok(());
    }
    let turn = goes_on(core, job, LOOKS)?;
    put_turn(alloc, bytes, number, job, turn)
}

// Lets a job go on to its next ask, for as many turns at most.
pub fn goes_on<D: Device, O: Opening>(
    core: &Core<D, Sessions<D>, O>,
    job: &mut Job,
    turns: u64,
) -> Result<Turn, AllocError>
    requires within { IsIn core.now.image job.old }
    requires few { turns ≤ turns_limit }
    ensures on { (start : StartOf) (told : List ReplyOf) → IsBehind core.now.image start told job.old
        → IfOk result (λ turn. IsNext turns (program_of core.now.image) start told turn job.new) }
    ensures behind { (start : StartOf) (told : List ReplyOf) → IsBehind core.now.image start told job.old
        → IsBehind core.now.image start told job.new }
{
    going(core.image(), job, turns)
}

// Lets a job go on in its image to its next ask, for as many turns at most.
fn going(image: &Image, job: &mut Job, turns: u64) -> Result<Turn, AllocError>
    requires within { IsIn image.now job.old }
    requires few { turns ≤ turns_limit }
    ensures on { (start : StartOf) (told : List ReplyOf) → IsBehind image.now start told job.old
        → IfOk result (λ turn. IsNext turns (program_of image.now) start told turn job.new) }
    ensures behind { (start : StartOf) (told : List ReplyOf) → IsBehind image.now start told job.old → IsBehind image.now start told job.new }
{
    job.advance(image, turns)
}

// Puts the line of a job to the end, that was let go on.
fn put_turn(
    alloc: Global,
    bytes: &mut Vec<u8>,
    number: u32,
    job: &Job,
    turn: Turn,
) -> Result<(), AllocError>
    ensures { OnOk result (bytes.new.items ≡ bytes.old.items ++ turn_line number turn job.now) }
{
    match turn {
        Turn::Asks => put_waiting(alloc, bytes, number, job.place(), job.ask()),
        Turn::Ran => put_runs(bytes, number),
        Turn::Ended => Ok(()),
    }
}

// Puts the line of a job to the end that asks nothing.
fn put_runs(bytes: &mut Vec<u8>, number: u32) -> Result<(), AllocError>
    ensures { OnOk result (bytes.new.items ≡ bytes.old.items ++ runs_line number) }
{
    bytes.extend_from_slice(Buffer::new().format(number).as_bytes())?;
    bytes.extend_from_slice(b" runs")?;
    bytes.push(b'\n')?;
    Ok(())
}

// Tells a job, that was told nothing yet, its replies before a place; whether it hasn't ended there, and is followed so far.
pub fn follows<D: Device, O: Opening>(
    core: &Core<D, Sessions<D>, O>,
    place: usize,
    number: u32,
    job: &mut Job,
) -> Result<bool, AllocError>
    requires { IsStarted core.now.image number job.old }
    ensures on { (start : Started) → IsBehind core.now.image (start_in number start) [] job.old → IfOk result
        (λ on. on ≡ true → IsBehind core.now.image (start_in number start) (told_before number core.now.history place) job.new) }
    ensures cut { (start : Started) → IsBehind core.now.image (start_in number start) [] job.old → IfOk result
        (λ on. on ≡ false → IsCutBefore core.now.image (start_in number start) core.now.history place) }
{
    for at in 0..place {
        if !goes_past(core, at, number, job)? {
            return Ok(false);
        }
    }
    Ok(true)
}

// A job that starts so, before its first turn.
pub fn started<D: Device, O: Opening>(
    alloc: Global,
    core: &Core<D, Sessions<D>, O>,
    number: u32,
    start: &Start,
) -> Result<Job, AllocError>
    ensures { IfOk result (λ job. IsBehind core.now.image (start_in number start.now) [] job) }
{
    let (entry, values) = start.try_clone()?.into_parts();
    Ok(Job::start(alloc, core.image(), number, entry, values))
}

// Tells a job the reply of the event at a place, if that is one of its own; whether it hasn't ended there, and is followed on.
fn goes_past<D: Device, O: Opening>(
    core: &Core<D, Sessions<D>, O>,
    at: usize,
    number: u32,
    job: &mut Job,
) -> Result<bool, AllocError>
    requires { IsIn core.now.image job.old }
    ensures on { (start : StartOf) (told : List ReplyOf) → IsBehind core.now.image start told job.old → IfOk result
        (λ on. on ≡ true → IsBehind core.now.image start (told ++ reply_in (own_event number (slice_get core.now.history at))) job.new) }
    ensures cut { (start : StartOf) (told : List ReplyOf) → IsBehind core.now.image start told job.old → IfOk result
        (λ on. on ≡ false → IsCut core.now.image start told (own_event number (slice_get core.now.history at))) }
{
    match own_event(core, at, number) {
        Some((ask, reply)) => goes_behind(core.image(), ask, reply, job),
        None => Ok(true),
    }
}

// Tells a job the reply of an event of its own; whether it hasn't ended by that, and is followed on.
fn goes_behind(image: &Image, ask: &Ask, reply: &Reply, job: &mut Job) -> Result<bool, AllocError>
    requires { IsIn image.now job.old }
    ensures on { (start : StartOf) (told : List ReplyOf) → IsBehind image.now start told job.old
        → IfOk result (λ on. on ≡ true → IsBehind image.now start (told ++ reply.now ∷ []) job.new) }
    ensures cut { (start : StartOf) (told : List ReplyOf) → IsBehind image.now start told job.old
        → IfOk result (λ on. on ≡ false → (is_over ask.now ≡ true) ⊎ IsLost image.now start told reply.now) }
{
    if is_over(ask) {
        return Ok(false);
    }
    tell(image, job, reply)
}

/// Whether an event ends a job.
pub fn is_over(ask: &Ask) -> bool
    ensures { result ≡ is_over ask.now }
{
    matches!(ask, Ask::Shared(SharedAsk::Halt(_)))
}

// Lets a job go on to its next ask, and tells it a reply, if it comes to an ask that this fits; whether it does.
fn tell(image: &Image, job: &mut Job, reply: &Reply) -> Result<bool, AllocError>
    requires { IsIn image.now job.old }
    ensures on { (start : StartOf) (told : List ReplyOf) → IsBehind image.now start told job.old
        → IfOk result (λ on. on ≡ true → IsBehind image.now start (told ++ reply.now ∷ []) job.new) }
    ensures lost { (start : StartOf) (told : List ReplyOf) → IsBehind image.now start told job.old
        → IfOk result (λ on. on ≡ false → IsLost image.now start told reply.now) }
{
    if !comes_to(image, job, reply)? {
        return Ok(false);
    }
    let told = reply.try_clone()?;
    job.answer(told);
    Ok(true)
}

// Lets a job go on to its next ask, and says whether it comes to one that may be told this reply.
fn comes_to(image: &Image, job: &mut Job, reply: &Reply) -> Result<bool, AllocError>
    requires { IsIn image.now job.old }
    ensures run { (start : StartOf) → IsRunOf image.now start job.old → IsRunOf image.now start job.new }
    ensures log { job.new.run.log ≡ job.old.run.log }
    ensures due { IfOk result (λ due. due ≡ true → is_due image.now.bounds.limit job.new.run.pending reply.now ≡ true) }
    ensures lost { (start : StartOf) (told : List ReplyOf) → IsBehind image.now start told job.old
        → IfOk result (λ due. due ≡ false → IsLost image.now start told reply.now) }
{
    match job.advance(image, TURNS)? {
        Turn::Asks => Ok(is_due(image, job.ask(), reply)),
        Turn::Ran => Ok(false),
        Turn::Ended => Ok(false),
    }
}

// Whether this is asked, and may be told this reply in an image: that fits it, and its texts are within the image's limit.
fn is_due(image: &Image, asked: Option<&Ask>, reply: &Reply) -> bool
    ensures { result ≡ is_due image.now.bounds.limit (option_copied asked.entry) reply.now }
{
    let bounds = image.bounds();
    match asked {
        None => false,
        Some(ask) => ask.fits(reply) && reply.is_within(bounds.limit),
    }
}

// Puts the line of what a job asks to the end.
fn put_waiting(
    alloc: Global,
    bytes: &mut Vec<u8>,
    job: u32,
    line: Option<(&Text, u32)>,
    ask: Option<&Ask>,
) -> Result<(), AllocError>
    ensures { OnOk result (bytes.new.items ≡ bytes.old.items ++ waiting_line job (place_at line.entry) (option_copied ask.entry)) }
{
    bytes.extend_from_slice(Buffer::new().format(job).as_bytes())?;
    bytes.push(b' ')?;
    put_place(bytes, line)?;
    put_asked(alloc, bytes, ask)?;
    bytes.push(b'\n')?;
    Ok(())
}

// Puts a line of a routine to the end, if there is one.
fn put_place(bytes: &mut Vec<u8>, line: Option<(&Text, u32)>) -> Result<(), AllocError>
    ensures { OnOk result (bytes.new.items ≡ bytes.old.items ++ place_text (place_at line.entry)) }
{
    let Some((routine, line)) = line else {
        bytes.push(b'-')?;
        return Ok(());
    };
    bytes.extend_from_slice(routine.bytes(&mut Digits::new()))?;
    bytes.push(b':')?;
    bytes.extend_from_slice(Buffer::new().format(line).as_bytes())?;
    Ok(())
}

// Puts a blank and an ask to the end, if there is one.
fn put_asked(alloc: Global, bytes: &mut Vec<u8>, ask: Option<&Ask>) -> Result<(), AllocError>
    ensures { OnOk result (bytes.new.items ≡ bytes.old.items ++ asked_text (option_copied ask.entry)) }
{
    match ask {
        None => Ok(()),
        Some(ask) => {
            bytes.push(b' ')?;
            put_ask(alloc, bytes, ask)
        }
    }
}
