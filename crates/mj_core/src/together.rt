// Many jobs over one system.

ghost use Rattle.std.specs.Prelude.{◌≡◌, ◌<◌, ◌≤◌, ℕ, suc, List, [], length, replicate, Bool, true, false, Option, Some, None, IsSome, slice_get, vec_len};
ghost use Rattle.std.specs.Prelude.{vec_capacity, IfOk, IfErr, OnOk, OnErr, IfSome, IfNone, option_copied};
ghost use Rattle.mj_load.specs.Image.{program_of};
ghost use Rattle.mj_text.specs.declared.limit.Limit.TheVariants.{V2};
ghost use Rattle.mj_dev.specs.Shelves.{principal, left_of};
ghost use Rattle.mj_frames.specs.Frames.{place_at};
ghost use Rattle.mj_jobs.specs.Rows.{Row, row_at, rows_limit, IsLive};
ghost use Rattle.mj_jobvm.specs.Jobs.{IsRunOf};
ghost use Rattle.mj_jobvm.specs.Places.{ArePlaces};
ghost use Rattle.mj_jobvm.specs.Run.{replies_of};
ghost use Rattle.mj_locktab.specs.Locks.{LocksApart};
ghost use Rattle.mj_sys.specs.History.{state_of, log_of};
ghost use Rattle.mj_sys.specs.Opening.{opening_of, are_bare, NoneIsOpen};
ghost use Rattle.mj_sys.specs.Shared.{are_global};
ghost use Rattle.mj_sys.specs.System.{Claimed, history_limit};
ghost use Rattle.mj_core.specs.Woven.{woven};
ghost use Rattle.mj_core.specs.Runs.{IsRun, IsAskedFrom, ArePlacedIn, places_lent, places_at, start_in, out_of};
ghost use Rattle.mj_core.specs.Gives.{StepGivesBy, JobStepGives, Readies, GivesReady, StandsAt};
ghost use Rattle.mj_core.specs.Asking.{turn_of, IfAsks, IsAtAsk, IsSeenAt};
ghost use Rattle.mj_core.specs.Shown.{AtAsk, begun, stand_at};
ghost use Rattle.mj_core.specs.Kept.{AreKept, IsSeenSlot, logs_of, turns_of, stands_of, claim_of, shown, shown_event};
ghost use Rattle.std.specs.Fn.{FnOnceReturnsAt};

use crate::answerer::{Answerer, Fresh};
use crate::happened::Happened;
use crate::parts::Made;
use crate::seen::{Ready, Seen};
use crate::slot::{FUEL, Slot, step_slot};
use mj_ask::{Ask, Reply, Start};
use mj_dev::{Device, Pool};
use mj_globs::Globals;
use mj_jobs::ROWS_LIMIT;
use mj_jobvm::{Job, Places, Turn};
use mj_load::Image;
use mj_locktab::LockTable;
use mj_sessions::output;
use mj_steps::{Refusal, Step, Way};
use mj_sys::{Claim, Opening, System, Unmade};
use mj_text::Text;
use std::alloc::{AllocError, Global};
use std::marker::Model;

/// The image, the system, and the jobs, each with an answerer of what it asks devices, on one thread.
#[derive(Drop)]
pub struct Core<D: Device, A: Answerer<Fresh<D>>, O: Opening> {
    alloc: Global,
    image: Image,
    system: System<D, O>,
    // the jobs whose rows were claimed, by their numbers
    slots: Vec<Slot<A>>,
    // a row that was claimed, and whose job isn't started yet for want of memory
    waiting: Option<(Claim, Fresh<D>)>,
    // which entry of which job's log came when
    order: Vec<Happened>,
    // of each job that there may be, whether its end was seen
    over: Vec<bool>,
}

impl<D: Device, A: Answerer<Fresh<D>>, O: Opening> Model for Core<D, A, O> {
    ghost use Rattle.std.specs.Coded.{codes};
    ghost use Rattle.std.specs.Prelude.{◌≡◌, length};
    ghost use Rattle.mj_ast.specs.contracts.routine.Routine as routine;
    ghost use Rattle.mj_pcode.specs.contracts.instr.Unit as unit;
    ghost use Rattle.mj_jobs.specs.Rows.{rows_limit};
    ghost use Rattle.mj_core.specs.Woven.{woven};
    ghost use Rattle.mj_core.specs.Shown.{Shown};
    ghost use Rattle.mj_core.specs.Kept.{AreKept, logs_of, turns_of, stands_of, claim_of};

    ghost Value = { Shown };

    ghost coded = { Prim.hlevel (codes, routine.the_row.coded, unit.the_row.coded) };

    ghost view = { λ c. record {
      image = c.image;
      history = woven (logs_of c.slots.items) c.order.items;
      over = c.over.items;
      spent = turns_of rows_limit c.slots.items;
      stands = stands_of rows_limit c.slots.items;
    } };

    ghost invariant = { λ c.
        AreKept A.answering c.image O.opening c.system c.slots.items (claim_of c.waiting) c.order.items
        × (length c.over.items ≡ rows_limit) };
}

impl<D: Device, A: Answerer<Fresh<D>>, O: Opening> Core<D, A, O> {
    /// A core of a system of which nothing was asked yet, with a row for each of the starts. Only names of globals may have texts in its globals, and the
    /// image's limit is the greater one, so that a job may be told every text. At want of memory all comes back that the system was to be made of.
    pub fn new(
        alloc: Global,
        image: Image,
        globals: Globals,
        pool: Pool<D>,
        starts: Vec<Start>,
    ) -> Result<Core<D, A, O>, Unmade<D>>
        requires long { image.bounds.limit ≡ V2 }
        requires opening { opening_of globals.content pool starts.items ≡ O.opening }
        requires global { are_global globals.content ≡ true }
        requires some { 1 ≤ length starts.items }
        requires few { length starts.items ≤ rows_limit }
        requires fits { length starts.items ≤ left_of principal pool }
        requires bare { are_bare starts.items ≡ true }
        ensures ok { IfOk result (λ core. core ≡ begun image) }
        ensures globals { IfErr result (λ back. back.globals ≡ globals) }
        ensures pool { IfErr result (λ back. back.pool ≡ pool) }
        ensures starts { IfErr result (λ back. back.starts.items ≡ starts.items) }
    {
        let Ok(over) = nobody_over(alloc) else {
            return Err(Unmade {
                globals,
                pool,
                starts,
            });
        };
        let _ = most_events(&image); // for the proof
        let system = System::new(alloc, globals, pool, starts)?;
        Ok(Core {
            alloc,
            image,
            system,
            slots: Vec::new(alloc),
            waiting: None,
            order: Vec::new(alloc),
            over,
        })
    }

    // Makes a step, for which a reply of a device is given or none.
    pub(crate) fn make(&mut self, step: Step, given: Option<&Reply>) -> Result<Seen, Refusal>
        ensures { StepGivesBy A.answering.means O.opening self.old step (option_copied given.entry) result self.new }
    {
        let Some(at) = self.place(step.job) else {
            return Err(Refusal::NoJob);
        };
        if self.over[at] {
            return Err(Refusal::Ended);
        }
        let most = most_events(&self.image);
        if self.order.len() >= most {
            return Err(Refusal::Full);
        }
        if !self.system.is_live(step.job) {
            self.over[at] = true;
            return Ok(Seen::Ended);
        }
        let Ok(()) = self.order.reserve(1) else {
            return Err(Refusal::Memory);
        };
        let Ok(()) = admit(
            self.alloc,
            &self.image,
            &mut self.system,
            &mut self.slots,
            &mut self.waiting,
            &self.order,
            at,
        ) else {
            return Err(Refusal::Memory);
        };
        go(
            &self.image,
            &mut self.system,
            &mut self.slots,
            &mut self.order,
            &mut self.over,
            at,
            step.way == Way::Late,
            given,
        )
    }

    // The allocator.
    pub(crate) fn alloc(&self) -> Global {
        self.alloc
    }

    /// Lets a job go on for at most 10,000 turns to its next ask, and serves nothing.
    pub fn ready(&mut self, job: u32) -> Result<Turn, Refusal>
        ensures { GivesReady O.opening self.old job result self.new }
    {
        match self.ready_job(job, |_| ()) {
            Ok(Ready::Asks(())) => Ok(Turn::Asks),
            Ok(Ready::Ran) => Ok(Turn::Ran),
            Ok(Ready::Ended) => Ok(Turn::Ended),
            Err(why) => Err(why),
        }
    }

    /// Lets a job go on as `ready` does, and where it asks, gives what `look` sees of it as it stands at that ask.
    pub fn ready_job<R, F: FnOnce(&Job) -> R + Drop>(
        &mut self,
        job: u32,
        look: F,
    ) -> Result<Ready<R>, Refusal>
        requires { F.IsAlwaysCallable look }
        ensures gives { GivesReady O.opening self.old job (turn_of result) self.new }
        ensures looked { IfAsks result
            (λ seen. (found : _) × IsAtAsk self.old.image O.opening self.old.history job found × FnOnceReturnsAt F.FnOnce look found seen) }
    {
        let Some(at) = self.place(job) else {
            return Err(Refusal::NoJob);
        };
        if self.over[at] {
            return Err(Refusal::Ended);
        }
        if !self.system.is_live(job) {
            return Ok(Ready::Ended);
        }
        let Ok(()) = admit(
            self.alloc,
            &self.image,
            &mut self.system,
            &mut self.slots,
            &mut self.waiting,
            &self.order,
            at,
        ) else {
            return Err(Refusal::Memory);
        };
        go_ready(
            &self.image,
            &self.system,
            &mut self.slots,
            &self.order,
            at,
            look,
        )
    }

    /// The image.
    pub fn image(&self) -> &Image
        ensures { result.now ≡ self.now.image }
    {
        &self.image
    }

    /// How many events there are. The history is a run, whatever steps were made, from an opening at which no transaction is open, and no longer
    /// than the image's bounds say. What is shown of jobs is shown of each that there may be.
    pub fn len(&self) -> usize
        ensures value { result ≡ length self.now.history }
        ensures within { length self.now.history ≤ self.now.image.bounds.events }
        ensures most { self.now.image.bounds.events ≤ history_limit }
        ensures long { self.now.image.bounds.limit ≡ V2 }
        ensures run { IsRun (program_of self.now.image) O.opening self.now.history }
        ensures none_open { NoneIsOpen O.opening }
        ensures over { length self.now.over ≡ rows_limit }
        ensures spent { length self.now.spent ≡ rows_limit }
        ensures stands { length self.now.stands ≡ rows_limit }
    {
        let _rows = self.system.rows(); // for the proof
        self.order.len()
    }

    /// The event at a place of the history, from 0: its job, what that asked, and what it was told.
    pub fn event(&self, at: usize) -> Option<(u32, &Ask, &Reply)>
        ensures { shown_event result ≡ slice_get self.now.history at }
    {
        let happened = self.order.get(at)?;
        let slot = self.slots.get(happened.job as usize - 1)?;
        let (ask, reply) = slot.job.log().get(happened.at)?;
        Some((happened.job, ask, reply))
    }

    /// The globals: those that the history leaves.
    pub fn globals(&self) -> &Globals
        ensures { result.now.content ≡ (state_of O.opening self.now.history).globals }
    {
        self.system.globals()
    }

    /// Who holds which names: as the history leaves it. No name of one job overlaps a name of another.
    pub fn locks(&self) -> &LockTable
        ensures replay { result.now.holds ≡ (state_of O.opening self.now.history).locks }
        ensures apart { LocksApart result.now.holds }
    {
        self.system.locks()
    }

    /// How many jobs there are, ended ones among them.
    pub fn jobs(&self) -> usize
        ensures value { result ≡ length (state_of O.opening self.now.history).rows }
        ensures bound { result ≤ rows_limit }
    {
        self.system.rows()
    }

    /// A job that stands at an ask, as it is shown: it waits for the reply, or has it, and hasn't gone on. It runs the routines from its row's start, and
    /// its log is what the history has of it. So its locals, its frames and its place are those of its private run beside that ask. One that waits asks
    /// just that. One that has its reply asks nothing, and the ask is the last of its log. There is none for a job that stands at no ask, which doesn't wait.
    pub fn job(&self, job: u32) -> Option<&Job>
        ensures none { IfNone result (stand_at self.now.stands job ≡ None) }
        ensures shown { IfSome result (λ found. (at : AtAsk) × (stand_at self.now.stands job ≡ Some at) × IsSeenAt found.now.run at) }
        ensures beside { IfSome result (λ found. (at : AtAsk) (row : Row) → stand_at self.now.stands job ≡ Some at
            → row_at (state_of O.opening self.now.history).rows job ≡ Some row
            → StandsAt (program_of self.now.image) (start_in job row.start) (log_of job self.now.history) at) }
        ensures log { IfSome result (λ found. found.now.run.log ≡ log_of job self.now.history) }
        ensures run { IfSome result
            (λ found. (row : Row) × (row_at (state_of O.opening self.now.history).rows job ≡ Some row)
            × IsRunOf self.now.image (start_in job row.start) found.now) }
    {
        let slot = self.slot_of(job)?;
        if slot.at_ask { Some(&slot.job) } else { None }
    }

    // The slot of a job, if it has one yet.
    fn slot_of(&self, job: u32) -> Option<&Slot<A>>
        ensures none { IfNone result ((log_of job self.now.history ≡ []) × (stand_at self.now.stands job ≡ None)) }
        ensures some { IfSome result (λ slot. IsSeenSlot O.opening self.now job slot.now) }
    {
        // there are few of them
        let _rows = self.system.rows(); // for the proof
        match (job as usize).checked_sub(1) {
            None => None,
            Some(at) => match self.slots.get(at) {
                None => None,
                Some(slot) => Some(slot),
            },
        }
    }

    /// Where the ask of the event at a place of the history came from, from 0: the routine and the line of its command, if it has one.
    pub fn place_of(&self, at: usize) -> Option<(&Text, u32)>
        ensures { IsAskedFrom (program_of self.now.image) O.opening self.now.history at (place_at result) }
    {
        let happened = self.order.get(at)?;
        let slot = self.slots.get(happened.job as usize - 1)?;
        slot.job.places().place(happened.at)
    }

    /// Where what a job asked in the history came from, each of it in order: none for a job that asked nothing.
    pub fn places(&self, job: u32) -> Option<&Places>
        ensures none { IfNone result (log_of job self.now.history ≡ []) }
        ensures some { IfSome result (λ places. (row : Row) × (row_at (state_of O.opening self.now.history).rows job ≡ Some row)
            × ArePlaces (program_of self.now.image) (start_in job row.start) (replies_of (log_of job self.now.history)) places.now.places) }
    {
        let slot = self.slot_of(job)?;
        Some(slot.job.places())
    }

    /// Those of each job, the first job first.
    pub fn all_places(&self) -> Result<Vec<Option<&Places>>, AllocError>
        ensures { IfOk result
            (λ list. ArePlacedIn (program_of self.now.image) O.opening self.now.history (places_at (places_lent list.items))) }
    {
        let mut list = Vec::new(self.alloc);
        for at in 0..self.jobs() {
            list.push(self.places(at as u32 + 1))?;
        }
        Ok(list)
    }

    /// The bytes that a session of a job took which it had under this name: the first is 1.
    pub fn out(&self, job: u32, name: &Text, session: u32) -> Result<Vec<u8>, AllocError>
        ensures { IfOk result (λ bytes. bytes.items ≡ out_of self.now.history job name.now session) }
    {
        match self.slot_of(job) {
            None => Ok(Vec::new(self.alloc)),
            Some(slot) => output(self.alloc, slot.job.log(), name, session),
        }
    }

    // Where a job's slot is, or will be; none where it has no row.
    fn place(&self, job: u32) -> Option<usize>
        ensures none { IfNone result (row_at (state_of O.opening self.now.history).rows job ≡ None) }
        ensures some { IfSome result (λ at. (job ≡ suc at) × (at < rows_limit) × IsSome (row_at (state_of O.opening self.now.history).rows job)) }
    {
        let at = (job as usize).checked_sub(1)?;
        if at < self.system.rows() {
            Some(at)
        } else {
            None
        }
    }
}

// Gives each row up to this place a slot. Where memory is refused, those that have one keep it.
fn admit<D: Device, A: Answerer<Fresh<D>>, O: Opening>(
    alloc: Global,
    image: &Image,
    system: &mut System<D, O>,
    slots: &mut Vec<Slot<A>>,
    waiting: &mut Option<(Claim, Fresh<D>)>,
    order: &[Happened],
    at: usize,
) -> Result<(), AllocError>
    requires kept { AreKept A.answering image.now O.opening system.old slots.old.items (claim_of waiting.old) order.now }
    requires few { at < rows_limit }
    requires row { at < length (state_of O.opening system.old.history).rows }
    ensures kept { AreKept A.answering image.now O.opening system.new slots.new.items (claim_of waiting.new) order.now }
    ensures history { system.new.history ≡ system.old.history }
    ensures woven { woven (logs_of slots.new.items) order.now ≡ woven (logs_of slots.old.items) order.now }
    ensures turns { (n : ℕ) → turns_of n slots.new.items ≡ turns_of n slots.old.items }
    ensures stands { (n : ℕ) → stands_of n slots.new.items ≡ stands_of n slots.old.items }
    ensures there { OnOk result (at < length slots.new.items) }
{
    for _ in slots.len()..at + 1 {
        claim_next(image, system, slots, waiting, order)?;
        start_next(alloc, image, system, slots, waiting, order)?;
    }
    Ok(())
}

// Claims the next row, if none waits for its slot yet.
fn claim_next<D: Device, A: Answerer<Fresh<D>>, O: Opening>(
    image: &Image,
    system: &mut System<D, O>,
    slots: &[Slot<A>],
    waiting: &mut Option<(Claim, Fresh<D>)>,
    order: &[Happened],
) -> Result<(), AllocError>
    requires kept { AreKept A.answering image.now O.opening system.old slots.now (claim_of waiting.old) order.now }
    requires row { length slots.now < length (state_of O.opening system.old.history).rows }
    ensures kept { AreKept A.answering image.now O.opening system.new slots.now (claim_of waiting.new) order.now }
    ensures history { system.new.history ≡ system.old.history }
    ensures waits { OnOk result (IsSome waiting.new) }
{
    if waiting.is_none() {
        let Some((claim, session)) = system.claim()? else {
            unreachable!();
        };
        *waiting = Some((claim, Fresh::new(session)));
    }
    Ok(())
}

// Gives the row that waits a slot, with its principal session.
fn start_next<D: Device, A: Answerer<Fresh<D>>, O: Opening>(
    alloc: Global,
    image: &Image,
    system: &System<D, O>,
    slots: &mut Vec<Slot<A>>,
    waiting: &mut Option<(Claim, Fresh<D>)>,
    order: &[Happened],
) -> Result<(), AllocError>
    requires kept { AreKept A.answering image.now O.opening system.now slots.old.items (claim_of waiting.old) order.now }
    requires waits { IsSome waiting.old }
    ensures kept { AreKept A.answering image.now O.opening system.now slots.new.items (claim_of waiting.new) order.now }
    ensures woven { woven (logs_of slots.new.items) order.now ≡ woven (logs_of slots.old.items) order.now }
    ensures turns { (n : ℕ) → turns_of n slots.new.items ≡ turns_of n slots.old.items }
    ensures stands { (n : ℕ) → stands_of n slots.new.items ≡ stands_of n slots.old.items }
    ensures more { OnOk result (length slots.new.items ≡ suc (length slots.old.items)) }
    ensures same { OnErr result (length slots.new.items ≡ length slots.old.items) }
{
    slots.reserve(1)?;
    let principal = Text::from_number(alloc, 0);
    let mut answerer = A::new(alloc);
    // it has no session yet, so memory alone can be wanting
    if answerer.make_room(&principal).is_err() {
        return Err(AllocError);
    }
    let Some((claim, _)) = &*waiting else {
        unreachable!();
    };
    let (entry, values) = claim.start().try_clone()?.into_parts();
    let Some((claim, session)) = waiting.take() else {
        unreachable!();
    };
    answerer.open(principal, session);
    let job = Job::start(alloc, image, claim.job(), entry, values);
    slots.push_reserved(Slot {
        claim,
        job,
        answerer,
        at_ask: false,
    });
    Ok(())
}

// Makes a step of a live job that has a slot, and writes down what happened, and whose end was seen.
fn go<D: Device, A: Answerer<Fresh<D>>, O: Opening>(
    image: &Image,
    system: &mut System<D, O>,
    slots: &mut [Slot<A>],
    order: &mut Vec<Happened>,
    over: &mut [bool],
    at: usize,
    late: bool,
    given: Option<&Reply>,
) -> Result<Seen, Refusal>
    requires few { at < rows_limit }
    requires there { at < length slots.old }
    requires all { length over.old ≡ rows_limit }
    requires kept { (waiting : Option Claimed) × AreKept A.answering image.now O.opening system.old slots.old waiting order.old.items }
    requires live { IsLive (state_of O.opening system.old.history).rows (suc at) }
    requires short { length order.old.items < image.now.bounds.events }
    requires room { vec_len order.old < vec_capacity order.old }
    ensures kept { (waiting : Option Claimed) → AreKept A.answering image.now O.opening system.old slots.old waiting order.old.items
        → AreKept A.answering image.now O.opening system.new slots.new waiting order.new.items }
    ensures made { (row : Row) → row_at (state_of O.opening (woven (logs_of slots.old) order.old.items)).rows (suc at) ≡ Some row
        → JobStepGives A.answering.means O.opening (shown image.now slots.old order.old.items over.old rows_limit) (suc at) row late
        (option_copied given.entry) result (shown image.now slots.new order.new.items over.new rows_limit) }
{
    let slot = &mut slots[at];
    let happened = Happened {
        job: at as u32 + 1,
        at: slot.job.log().len(),
    };
    match step_slot(image, system, slot, late, given)? {
        Made::Event => {
            let place = order.len();
            order.push_reserved(happened);
            Ok(Seen::Event(place))
        }
        Made::Busy(holder, held) => Ok(Seen::Busy { holder, held }),
        Made::NotYet => Ok(Seen::NotYet),
        Made::Unfit => Ok(Seen::Unfit),
        Made::Ran => Ok(Seen::Ran),
        Made::Ended => {
            over[at] = true;
            Ok(Seen::Ended)
        }
    }
}

// Lets a job that has a slot go on to its next ask, and looks at it there.
fn go_ready<D: Device, A: Answerer<Fresh<D>>, O: Opening, R, F: FnOnce(&Job) -> R + Drop>(
    image: &Image,
    system: &System<D, O>,
    slots: &mut [Slot<A>],
    order: &[Happened],
    at: usize,
    look: F,
) -> Result<Ready<R>, Refusal>
    requires few { at < rows_limit }
    requires there { at < length slots.old }
    requires kept { (waiting : Option Claimed) × AreKept A.answering image.now O.opening system.now slots.old waiting order.now }
    requires live { IsLive (state_of O.opening system.now.history).rows (suc at) }
    requires callable { F.IsAlwaysCallable look }
    ensures kept { (waiting : Option Claimed) → AreKept A.answering image.now O.opening system.now slots.old waiting order.now
        → AreKept A.answering image.now O.opening system.now slots.new waiting order.now }
    ensures readies { (over : List Bool) → (row : Row) → row_at (state_of O.opening (woven (logs_of slots.old) order.now)).rows (suc at) ≡ Some row
        → Readies O.opening (shown image.now slots.old order.now over rows_limit) (suc at) row (turn_of result)
        (shown image.now slots.new order.now over rows_limit) }
    ensures looked { IfAsks result (λ seen. (found : _) × IsAtAsk image.now O.opening (woven (logs_of slots.old) order.now) (suc at) found
        × FnOnceReturnsAt F.FnOnce look found seen) }
{
    let slot = &mut slots[at];
    slot.at_ask = false;
    match slot.job.advance(image, FUEL) {
        Ok(Turn::Asks) => {
            slot.at_ask = true;
            Ok(Ready::Asks(look(&slot.job)))
        }
        Ok(Turn::Ran) => Ok(Ready::Ran),
        Ok(Turn::Ended) => Ok(Ready::Ended),
        Err(_) => Err(Refusal::Memory),
    }
}

/// How many events a run in this image may have: no more than any history.
pub fn most_events(image: &Image) -> usize
    ensures value { result ≡ image.now.bounds.events }
    ensures within { result ≤ history_limit }
{
    image.bounds().events as usize
}

// As many jobs as there may be, none of which was seen to end.
fn nobody_over(alloc: Global) -> Result<Vec<bool>, AllocError>
    ensures { IfOk result (λ over. over.items ≡ replicate rows_limit false) }
{
    let mut over = Vec::new(alloc);
    over.resize(ROWS_LIMIT, false)?;
    Ok(over)
}
