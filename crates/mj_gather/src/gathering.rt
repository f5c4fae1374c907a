// What workers ran, as one run.
//
// It goes once over the history of the system, with a place in the log of each job (`merge`): the event that the history has next has to be the next in its
// job's log that the system served; and behind it come that job's own entries, those of devices and of the clock.

ghost use Rattle.std.specs.Prelude.{◌≡◌, ◌<◌, ◌≤◌, ◌-◌, ◌+◌, ◌++◌, ◌∷◌, [], ℕ, List, length, drop, slice_get, true, false, Some, None};
ghost use Rattle.std.specs.Prelude.{IfOk, OnOk, IfErr, IfSome, IfNone, IsTrue, ◌↔◌};
ghost use Rattle.std.specs.List.{All};
ghost use Rattle.std.specs.Option.{option_map, unwrap_or};
ghost use Rattle.mj_jobs.specs.Rows.{rows_limit, HasStart};
ghost use Rattle.mj_jobvm.specs.Run.{Log};
ghost use Rattle.mj_load.specs.Image.{Loaded, program_of};
ghost use Rattle.mj_locktab.specs.Locks.{LocksApart};
ghost use Rattle.mj_sys.specs.History.{state_of, log_of, events_of, AreServed};
ghost use Rattle.mj_core.specs.Happen.{shared_of};
ghost use Rattle.mj_core.specs.Runs.{IsRun, ArePlacedIn, places_lent, places_at};
ghost use Rattle.mj_core.specs.Woven.{woven, AreThere};
ghost use Rattle.mj_serial.specs.Laws.{IsAsAlone, AllMustClash};
ghost use Rattle.mj_gather.specs.Rans.{IsRan, ArePlacesIn, log_in, places_in, counted};
ghost use Rattle.mj_gather.specs.Merged.{shared_log, own, onward, said, made, passed, told_with, left_behind, firsts, left_by_firsts, merged, merged_from};
ghost use Rattle.mj_gather.specs.Lent.{lent, log_at, left_at, logs_from, places_from};
ghost use Rattle.mj_gather.specs.Gathered.{HeadsDiffer, DifferAt, StartDiffers, times_run, IsUngathered};
ghost use Rattle.mj_gather.specs.Found.{IsSound, IsLeftAt, made_in, IsFirst};

use crate::ran::Ran;
use crate::run::Run;
use mj_ask::{Ask, Reply, SharedAsk, is_same_ask, is_same_reply, is_same_start};
use mj_core::Happened;
use mj_dev::Device;
use mj_jobvm::Places;
use mj_sys::{Event, Opening, System};
use std::alloc::{AllocError, Global};

/// Why nothing is gathered.
#[derive(Clone, Copy, PartialEq, Eq, Debug)]
pub enum Ungathered {
    /// a job starts otherwise than its row says, which is place 0; or what the system served by its log and by the history differ, first at this place
    Differs {
        /// the job
        job: u32,
        /// the place, from 1
        place: usize,
    },
    /// a job was run twice
    Twice {
        /// the job
        job: u32,
    },
    /// memory was refused
    Memory,
}

// The log of a job, empty where it wasn't run.
fn log_in<'b, 'a>(rans: &'b [Ran<'a>], job: u32) -> &'b [(Ask, Reply)]
    ensures { result.now ≡ log_in rans.now job }
{
    for ran in rans {
        if ran.claim().job() == job {
            return ran.log();
        }
    }
    &[]
}

// The logs of so many jobs, the first job first.
fn logs_of<'b, 'a>(
    alloc: Global,
    rans: &'b [Ran<'a>],
    jobs: usize,
) -> Result<Vec<&'b [(Ask, Reply)]>, AllocError>
    requires { jobs ≤ rows_limit }
    ensures { IfOk result (λ logs. lent logs.items ≡ logs_from rans.now 1 jobs) }
{
    let mut logs = Vec::new(alloc);
    for at in 0..jobs {
        logs.push(log_in(rans, at as u32 + 1))?;
    }
    Ok(logs)
}

// Where the asks of a job came from, if it was run.
fn places_in<'b, 'a>(rans: &'b [Ran<'a>], job: u32) -> Option<&'b Places>
    ensures { unwrap_or (option_map (λ b. b.now.places) result) [] ≡ places_in rans.now job }
{
    for ran in rans {
        if ran.claim().job() == job {
            return Some(ran.places());
        }
    }
    None
}

// Where the asks of so many jobs came from, the first job first.
fn places_of<'b, 'a>(
    alloc: Global,
    rans: &'b [Ran<'a>],
    jobs: usize,
) -> Result<Vec<Option<&'b Places>>, AllocError>
    requires { jobs ≤ rows_limit }
    ensures { IfOk result (λ places. places_lent places.items ≡ places_from rans.now 1 jobs) }
{
    let mut places = Vec::new(alloc);
    for at in 0..jobs {
        places.push(places_in(rans, at as u32 + 1))?;
    }
    Ok(places)
}

// Whether a job was run.
fn was_run(rans: &[Ran<'_>], job: u32) -> bool
    ensures { IsTrue result ↔ (1 ≤ times_run rans.now job) }
{
    for ran in rans {
        if ran.claim().job() == job {
            return true;
        }
    }
    false
}

// A job that was run twice. Where all have rows it looks at 256 of them at most, since some two of these are of one job.
fn twice(rans: &[Ran<'_>]) -> Option<u32>
    ensures some { IfSome result (λ job. 2 ≤ times_run rans.now job) }
    ensures none { IfNone result ((job : ℕ) → times_run rans.now job ≤ 1) }
{
    for at in 0..rans.len() {
        let job = rans[at].claim().job();
        if was_run(&rans[at + 1..], job) {
            return Some(job);
        }
    }
    None
}

// Whether a job starts as its row says.
fn starts_so<D: Device, O: Opening>(system: &System<D, O>, ran: &Ran<'_>) -> bool
    ensures starts { IsTrue result ↔ HasStart (state_of O.opening system.now.history).rows ran.now.claim.job ran.now.claim.start }
    ensures ran { IsRan ran.now.image ran.now.claim ran.now.log ran.now.stop }
    ensures places { ArePlacesIn ran.now.image ran.now.claim ran.now.log ran.now.places }
{
    // what is kept of it comes with its log
    let _log = ran.log(); // for the proof
    let _places = ran.places(); // for the proof
    match system.start(ran.claim().job()) {
        Some(start) => is_same_start(start, ran.claim().start()),
        None => false,
    }
}

// A job that starts otherwise than its row says.
fn start_differs<D: Device, O: Opening>(system: &System<D, O>, rans: &[Ran<'_>]) -> Option<u32>
    ensures some { IfSome result (λ job. StartDiffers (state_of O.opening system.now.history).rows rans.now job) }
    ensures none { IfNone result (All (λ r. IsSound (state_of O.opening system.now.history).rows r) rans.now) }
{
    for ran in rans {
        if !starts_so(system, ran) {
            return Some(ran.claim().job());
        }
    }
    None
}

// How many events of a history are a job's.
fn count_events(history: &[Event], job: u32) -> usize
    ensures count { result ≡ events_of job history.now }
    ensures few { result ≤ length history.now }
{
    let mut count = 0usize;
    for event in history {
        if event.job == job {
            count += 1;
        }
    }
    count
}

// The job whose row an event made.
fn made(event: &Event) -> Option<u32>
    ensures { result ≡ made event.now.ask event.now.reply }
{
    match (&event.ask, &event.reply) {
        (Ask::Shared(SharedAsk::Start(_, _)), Reply::Job(job)) => Some(*job),
        _ => None,
    }
}

// How many rows a history made.
fn count_made(history: &[Event]) -> usize
    ensures { result ≡ made_in history.now }
{
    let mut count = 0usize;
    for event in history {
        if made(event).is_some() {
            count += 1;
        }
    }
    count
}

// No entry of any log is past.
fn begin_places(alloc: Global, jobs: usize) -> Result<Vec<usize>, AllocError>
    ensures { IfOk result (λ places. (length places.items ≡ jobs) × ((logs : List Log) → left_at logs places.items ≡ log_at logs)) }
{
    let mut places = Vec::new(alloc);
    places.resize(jobs, 0)?;
    Ok(places)
}

// The entry of a log at a place, and the place behind it.
fn read_entry<'b>(log: &'b [(Ask, Reply)], place: usize) -> Option<(&'b Ask, &'b Reply, usize)>
    ensures some { IfSome result (λ e. slice_get log.now place ≡ Some (e.0.now, e.1.now)) }
    ensures next { IfSome result (λ e. (place < length log.now) × (e.2 ≡ place + 1)) }
    ensures none { IfNone result (slice_get log.now place ≡ None) }
{
    let (ask, reply) = log.get(place)?;
    Some((ask, reply, place + 1))
}

// Writes a job's own entries down, from this one on up to its next one that the system served, and gives the place of that.
fn put_own(
    order: &mut Vec<Happened>,
    logs: &[&[(Ask, Reply)]],
    job: u32,
    at: usize,
    from: usize,
) -> Result<usize, AllocError>
    requires numbered { job ≡ at + 1 }
    requires within { at < length logs.now }
    ensures written { IfOk result (λ place. woven (lent logs.now) order.new.items
        ≡ woven (lent logs.now) order.old.items ++ said job (own (drop from (log_at (lent logs.now) job)))) }
    ensures left { IfOk result (λ place. drop place (log_at (lent logs.now) job) ≡ onward (drop from (log_at (lent logs.now) job))) }
    ensures there { AreThere (lent logs.now) order.old.items → AreThere (lent logs.now) order.new.items }
{
    let log = logs[at];
    let mut place = from;
    'entries: while let Some((ask, _, next)) = read_entry(log, place) {
        if ask.is_shared() {
            return Ok(place);
        }
        order.push(Happened { job, at: place })?;
        place = next;
    }
    Ok(place)
}

// Writes a job's own entries down that stand before its next one that the system served: they are past then.
fn put(
    order: &mut Vec<Happened>,
    logs: &[&[(Ask, Reply)]],
    places: &mut [usize],
    job: u32,
) -> Result<(), AllocError>
    requires all { length places.old ≡ length logs.now }
    ensures all { length places.new ≡ length logs.now }
    ensures order { OnOk result (woven (lent logs.now) order.new.items
        ≡ woven (lent logs.now) order.old.items ++ said job (own (left_at (lent logs.now) places.old job))) }
    ensures left { OnOk result (left_at (lent logs.now) places.new ≡ passed (left_at (lent logs.now) places.old) job) }
    ensures there { AreThere (lent logs.now) order.old.items → AreThere (lent logs.now) order.new.items }
{
    let Some(at) = (job as usize).checked_sub(1) else {
        return Ok(());
    };
    if at >= logs.len() {
        return Ok(());
    }
    let place = put_own(order, logs, job, at, places[at])?;
    places[at] = place;
    Ok(())
}

// Writes the own entries of the first jobs down.
fn put_firsts(
    order: &mut Vec<Happened>,
    logs: &[&[(Ask, Reply)]],
    places: &mut [usize],
    jobs: u32,
) -> Result<(), AllocError>
    requires all { length places.old ≡ length logs.now }
    requires few { jobs < 256 }
    ensures all { length places.new ≡ length logs.now }
    ensures order { OnOk result (woven (lent logs.now) order.new.items
        ≡ woven (lent logs.now) order.old.items ++ firsts 1 jobs (left_at (lent logs.now) places.old)) }
    ensures left { OnOk result (left_at (lent logs.now) places.new ≡ left_by_firsts 1 jobs (left_at (lent logs.now) places.old)) }
    ensures there { AreThere (lent logs.now) order.old.items → AreThere (lent logs.now) order.new.items }
{
    for at in 0..jobs {
        put(order, logs, places, at + 1)?;
    }
    Ok(())
}

// Whether an entry is that of an event.
fn is_entry(ask: &Ask, reply: &Reply, event: &Event) -> bool
    ensures { IsTrue result ↔ ((ask.now ≡ event.now.ask) × (reply.now ≡ event.now.reply)) }
{
    is_same_ask(ask, &event.ask) && is_same_reply(reply, &event.reply)
}

// Whether this is the next entry of an event's job: then it is written down, and past.
fn hear(
    order: &mut Vec<Happened>,
    logs: &[&[(Ask, Reply)]],
    places: &mut [usize],
    event: &Event,
) -> Result<bool, AllocError>
    requires all { length places.old ≡ length logs.now }
    ensures all { length places.new ≡ length logs.now }
    ensures next { IfOk result (λ is. is ≡ true → IsLeftAt (lent logs.now) places.old order.old.items event.now places.new order.new.items) }
    ensures other { IfOk result (λ is. is ≡ false → (rest : Log)
        → HeadsDiffer (left_at (lent logs.now) places.old event.now.job) ((event.now.ask, event.now.reply) ∷ rest)) }
    ensures there { AreThere (lent logs.now) order.old.items → AreThere (lent logs.now) order.new.items }
{
    let Some(at) = (event.job as usize).checked_sub(1) else {
        return Ok(false);
    };
    if at >= logs.len() {
        return Ok(false);
    }
    let place = places[at];
    let Some((ask, reply, next)) = read_entry(logs[at], place) else {
        return Ok(false);
    };
    if !is_entry(ask, reply, event) {
        return Ok(false);
    }
    order.push(Happened {
        job: event.job,
        at: place,
    })?;
    places[at] = next;
    Ok(true)
}

// Writes an event down, with the own entries that stand behind it; or says that its job's log has another entry next.
fn tell(
    order: &mut Vec<Happened>,
    logs: &[&[(Ask, Reply)]],
    places: &mut [usize],
    event: &Event,
) -> Result<bool, AllocError>
    requires all { length places.old ≡ length logs.now }
    ensures all { length places.new ≡ length logs.now }
    ensures head { IfOk result (λ is. is ≡ true → IsFirst (left_at (lent logs.now) places.old event.now.job) event.now) }
    ensures order { IfOk result (λ is. is ≡ true → woven (lent logs.now) order.new.items
        ≡ woven (lent logs.now) order.old.items ++ told_with (left_at (lent logs.now) places.old) event.now) }
    ensures left { IfOk result (λ is. is ≡ true → left_at (lent logs.now) places.new ≡ left_behind (left_at (lent logs.now) places.old) event.now) }
    ensures other { IfOk result (λ is. is ≡ false → (rest : Log)
        → HeadsDiffer (left_at (lent logs.now) places.old event.now.job) ((event.now.ask, event.now.reply) ∷ rest)) }
    ensures there { AreThere (lent logs.now) order.old.items → AreThere (lent logs.now) order.new.items }
{
    let heard = hear(order, logs, places, event)?;
    if !heard {
        return Ok(false);
    }
    put(order, logs, places, event.job)?;
    match made(event) {
        None => Ok(true),
        Some(job) => {
            put(order, logs, places, job)?;
            Ok(true)
        }
    }
}

// A job of whose log something is left, if there is one.
fn left_over(logs: &[&[(Ask, Reply)]], places: &[usize]) -> Option<u32>
    requires all { length places.now ≡ length logs.now }
    requires few { length logs.now < 256 }
    ensures some { IfSome result (λ job. (job ≤ length logs.now) × (left_at (lent logs.now) places.now job ≡ [] → ⊥)) }
    ensures none { IfNone result ((job : ℕ) → left_at (lent logs.now) places.now job ≡ []) }
{
    for at in 0..logs.len() {
        if places[at] < logs[at].len() {
            return Some(at as u32 + 1);
        }
    }
    None
}

// Writes down what happened, where nothing is yet: the own entries of the first jobs, and then each event of the history with those behind it. Where a log and
// the history differ, it gives the job, and the number of its events before the first difference.
fn tell_all<O: Opening>(
    order: &mut Vec<Happened>,
    logs: &[&[(Ask, Reply)]],
    places: &mut [usize],
    history: &[Event],
    jobs: usize,
) -> Result<Result<(), (u32, usize)>, AllocError>
    requires served { AreServed O.opening history.now }
    requires first { jobs ≡ length O.opening.rows }
    requires all { length logs.now ≡ length (state_of O.opening history.now).rows }
    requires few { length logs.now ≤ rows_limit }
    requires some { jobs ≤ length logs.now }
    requires places { length places.old ≡ length logs.now }
    requires begins { left_at (lent logs.now) places.old ≡ log_at (lent logs.now) }
    requires none { order.old.items ≡ [] }
    ensures order { IfOk result (λ told. OnOk told (woven (lent logs.now) order.new.items ≡ merged_from jobs (log_at (lent logs.now)) history.now)) }
    ensures there { AreThere (lent logs.now) order.new.items }
    ensures agree { IfOk result (λ told. OnOk told ((job : ℕ) → shared_log (log_at (lent logs.now) job) ≡ log_of job history.now)) }
    ensures few { IfOk result (λ told. IfErr told (λ d. d.1 ≤ length history.now)) }
    ensures differ { IfOk result (λ told. IfErr told (λ d. DifferAt d.1 (shared_log (log_at (lent logs.now) d.0)) (log_of d.0 history.now))) }
{
    put_firsts(order, logs, places, jobs as u32)?;
    for (at, event) in history.iter().enumerate() {
        let told = tell(order, logs, places, event)?;
        if !told {
            return Ok(Err((event.job, count_events(&history[..at], event.job))));
        }
    }
    match left_over(logs, places) {
        Some(job) => Ok(Err((job, count_events(history, job)))),
        None => Ok(Ok(())),
    }
}

// What happened, as it was written down by that.
fn merge<O: Opening>(
    alloc: Global,
    history: &[Event],
    logs: &[&[(Ask, Reply)]],
    jobs: usize,
) -> Result<Result<Vec<Happened>, (u32, usize)>, AllocError>
    requires served { AreServed O.opening history.now }
    requires first { jobs ≡ length O.opening.rows }
    requires all { length logs.now ≡ length (state_of O.opening history.now).rows }
    requires few { length logs.now ≤ rows_limit }
    requires some { jobs ≤ length logs.now }
    ensures order { IfOk result (λ made. IfOk made (λ order. woven (lent logs.now) order.items ≡ merged_from jobs (log_at (lent logs.now)) history.now)) }
    ensures there { IfOk result (λ made. IfOk made (λ order. AreThere (lent logs.now) order.items)) }
    ensures agree { IfOk result (λ made. OnOk made ((job : ℕ) → shared_log (log_at (lent logs.now) job) ≡ log_of job history.now)) }
    ensures few { IfOk result (λ made. IfErr made (λ d. d.1 ≤ length history.now)) }
    ensures differ { IfOk result (λ made. IfErr made (λ d. DifferAt d.1 (shared_log (log_at (lent logs.now) d.0)) (log_of d.0 history.now))) }
{
    let mut order = Vec::new(alloc);
    let mut places = begin_places(alloc, logs.len())?;
    match tell_all::<O>(&mut order, logs, &mut places, history, jobs)? {
        Ok(()) => Ok(Ok(order)),
        Err(differs) => Ok(Err(differs)),
    }
}

/// Gathers what workers ran over a system into one run: the history of the system, with what stands in the logs alone. It leaves what the system has. A job
/// that isn't among the `rans` counts with an empty log. Each of the `rans` has a row and starts as that says, and no two of them are of one job.
///
/// Where all were run in one image, it is a run of that image's routines from the system's opening, and the places of its asks are those where they were made.
/// So it has all that every run has: no two jobs hold
/// overlapping names; what the jobs did is as their committed transactions run alone, one after the other; and each commit that clashed had to.
pub fn gather<'b, 'a, D: Device, O: Opening>(
    alloc: Global,
    system: &System<D, O>,
    rans: &'b [Ran<'a>],
) -> Result<Run<'b>, Ungathered>
    ensures merged { IfOk result (λ run. run.history ≡ merged_from (length O.opening.rows) (log_in rans.now) system.now.history) }
    ensures shared { IfOk result (λ run. shared_of run.history ≡ system.now.history) }
    ensures state { IfOk result (λ run. state_of O.opening run.history ≡ state_of O.opening system.now.history) }
    ensures logs { IfOk result (λ run. (job : ℕ) → log_of job run.history ≡ log_in rans.now job) }
    ensures once { OnOk result ((job : ℕ) → times_run rans.now job ≤ 1) }
    ensures sound { OnOk result (All (λ r. IsSound (state_of O.opening system.now.history).rows r) rans.now) }
    ensures counted { OnOk result (length system.now.history ≡ counted rans.now) }
    ensures run { (image : Loaded) → All (λ r. r.image ≡ image) rans.now → IfOk result (λ run. IsRun (program_of image) O.opening run.history) }
    ensures placed { (image : Loaded) → All (λ r. r.image ≡ image) rans.now
        → IfOk result (λ run. ArePlacedIn (program_of image) O.opening run.history (places_at run.places)) }
    ensures apart { IfOk result (λ run. LocksApart (state_of O.opening run.history).locks) }
    ensures serial { (image : Loaded) → All (λ r. r.image ≡ image) rans.now → IfOk result (λ run. IsAsAlone (program_of image) O.opening run.history) }
    ensures clashes { (image : Loaded) → All (λ r. r.image ≡ image) rans.now → IfOk result (λ run. AllMustClash (program_of image) O.opening run.history) }
    ensures err { IfErr result (λ why. IsUngathered O.opening system.now.history rans.now why) }
{
    if let Some(job) = start_differs(system, rans) {
        return Err(Ungathered::Differs { job, place: 0 });
    }
    if let Some(job) = twice(rans) {
        return Err(Ungathered::Twice { job });
    }
    let history = system.history();
    let jobs = system.rows();
    let Ok(logs) = logs_of(alloc, rans, jobs) else {
        return Err(Ungathered::Memory);
    };
    let Ok(places) = places_of(alloc, rans, jobs) else {
        return Err(Ungathered::Memory);
    };
    let first = jobs - count_made(history);
    match merge::<O>(alloc, history, &logs, first) {
        Ok(Ok(order)) => {
            // no two jobs hold overlapping names
            let _locks = system.locks(); // for the proof
            Ok(Run::new(logs, places, order))
        }
        Ok(Err((job, before))) => Err(Ungathered::Differs {
            job,
            place: before + 1,
        }),
        Err(_) => Err(Ungathered::Memory),
    }
}
