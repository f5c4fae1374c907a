// A run that is played again, over devices that nothing is asked of.

ghost use Rattle.std.specs.Prelude.{◌≡◌, ◌<◌, ◌≤◌, ◌+◌, ◌∷◌, [], length, map, All, Some, None, option_copied, option_map, IfOk, IfErr, OnOk, IfSome, IfNone};
ghost use Rattle.mj_dev.specs.Shelves.{AreRising, IsBelow};
ghost use Rattle.mj_frames.specs.Frames.{frames_of};
ghost use Rattle.mj_jobs.specs.Rows.{rows_limit};
ghost use Rattle.mj_sys.specs.History.{History, state_of};
ghost use Rattle.mj_sys.specs.System.{history_limit};
ghost use Rattle.mj_replica.specs.InTurn.{AreOver, IsLowest, IsTurnOf};
ghost use Rattle.mj_replica.specs.Replicas.{BeginsRun, counted_shelf, shelves_of, AreWhole, job_of, IsReplica, IsFull, IsUnshown};
ghost use Rattle.mj_replica.specs.Views.{view_of, AreViews};
ghost use Rattle.mj_views.specs.Views.{frames_seen, locals_seen, job_in, view_at};

use crate::filming::{count_kept, film};
use crate::playing::Played;
use crate::replaying::{admit, make_event};
use mj_ask::Start;
use mj_core::Core;
use mj_dev::{Device, Memory, Pool};
use mj_frames::Frame;
use mj_globs::Globals;
use mj_jobvm::Job;
use mj_load::Image;
use mj_locals::Locals;
use mj_locktab::LockTable;
use mj_sessions::Sessions;
use mj_sys::{Opening, System};
use mj_text::Text;
use mj_views::{View, Views};
use std::alloc::{AllocError, Global};
use std::marker::Model;

/// Why what stands at a place isn't shown.
#[derive(Clone, Copy, PartialEq, Eq, Debug)]
pub enum Unshown {
    /// an allocation was refused
    Memory,
    /// a job went on for 10,000,000,000 turns between two of its events, and isn't followed so far
    Long,
}

/// What a run can be begun with once more.
#[derive(Drop)]
pub struct KeptOpening {
    globals: Globals,
    counts: Vec<(Text, u32)>,
    starts: Vec<Start>,
}

impl Model for KeptOpening {
    ghost use Rattle.mj_replica.specs.Replicas.{Keeping};

    ghost Value = { Keeping };

    ghost view = { λ k. record { globals = k.globals.content; counts = k.counts.items; starts = k.starts.items } };
}

/// A run of which the first events were played again.
#[derive(Drop)]
pub struct Replica<O: Opening> {
    system: System<Memory, O>,
    jobs: Vec<Played>,
    made: usize,
}

impl<O: Opening> Model for Replica<O> {
    ghost use Rattle.mj_replica.specs.Replicas.{Replayed};

    ghost Value = { Replayed };

    ghost view = { λ r. record { system = r.system; jobs = r.jobs.items; made = r.made } };
}

impl<O: Opening> Replica<O> {
    // A run of which no event was played yet.
    fn begin(alloc: Global, kept: &KeptOpening) -> Result<Replica<O>, AllocError>
        requires { BeginsRun O.opening kept.now }
        ensures { IfOk result (λ replica. replica ≡ record { system = record { history = []; claimed = 0 }; jobs = []; made = 0 }) }
    {
        let globals = kept.globals.try_clone()?;
        let pool = pool_of(alloc, &kept.counts)?;
        let starts = clone_starts(alloc, &kept.starts)?;
        match System::new(alloc, globals, pool, starts) {
            Ok(system) => Ok(Replica {
                system,
                jobs: Vec::new(alloc),
                made: 0,
            }),
            Err(back) => {
                drop(back);
                Err(AllocError)
            }
        }
    }

    // Plays the next event of a record.
    pub(crate) fn play<D: Device>(
        &mut self,
        alloc: Global,
        core: &Core<D, Sessions<D>, O>,
    ) -> Result<(), Unshown>
        requires replica { IsReplica core.now.image O.opening core.now.history self.old }
        requires more { self.old.made < length core.now.history }
        requires short { length core.now.history ≤ history_limit }
        ensures ok { OnOk result (IsReplica core.now.image O.opening core.now.history self.new) }
        ensures made { OnOk result (self.new.made ≡ self.old.made + 1) }
        ensures err { IfErr result (λ why. IsUnshown core.now.image O.opening core.now.history (self.old.made + 1) why) }
    {
        let Some((job, ask, reply)) = core.event(self.made) else {
            unreachable!();
        };
        let Ok(made) = make_event(
            alloc,
            core.image(),
            &mut self.system,
            &mut self.jobs,
            job,
            ask,
            reply,
        ) else {
            return Err(Unshown::Memory);
        };
        if !made {
            // what is recorded is a run
            let _events = core.len(); // for the proof
            return Err(Unshown::Long);
        }
        self.made += 1;
        Ok(())
    }

    // Plays the next events of a record, up to a place.
    pub(crate) fn play_to<D: Device>(
        &mut self,
        alloc: Global,
        core: &Core<D, Sessions<D>, O>,
        place: usize,
    ) -> Result<(), Unshown>
        requires replica { IsReplica core.now.image O.opening core.now.history self.old }
        requires ahead { self.old.made ≤ place }
        requires within { place ≤ length core.now.history }
        requires short { length core.now.history ≤ history_limit }
        ensures ok { OnOk result (IsReplica core.now.image O.opening core.now.history self.new) }
        ensures made { OnOk result (self.new.made ≡ place) }
        ensures err { IfErr result (λ why. IsUnshown core.now.image O.opening core.now.history place why) }
    {
        for _ in self.made()..place {
            self.play(alloc, core)?;
        }
        Ok(())
    }

    // How many events were played.
    pub(crate) fn made(&self) -> usize
        ensures { result ≡ self.now.made }
    {
        self.made
    }

    // Starts each job that has a row.
    pub(crate) fn fill(&mut self, alloc: Global, image: &Image) -> Result<(), AllocError>
        requires { (history : History) × IsReplica image.now O.opening history self.old }
        ensures ok { OnOk result ((history : History) → IsReplica image.now O.opening history self.old → IsReplica image.now O.opening history self.new) }
        ensures made { self.new.made ≡ self.old.made }
        ensures full { OnOk result (IsFull O.opening self.new) }
    {
        let rows = self.system.rows();
        admit(alloc, image, &mut self.system, &mut self.jobs, rows)
    }

    /// The globals.
    pub fn globals(&self) -> &Globals
        ensures { result.now.content ≡ (state_of O.opening self.now.system.history).globals }
    {
        self.system.globals()
    }

    /// Who holds which names.
    pub fn locks(&self) -> &LockTable
        ensures { result.now.holds ≡ (state_of O.opening self.now.system.history).locks }
    {
        self.system.locks()
    }

    /// The frames of a job that was started, the outermost first.
    pub fn job_frames(&self, job: u32) -> Option<&[Frame]>
        ensures { option_map (λ frames. frames_of frames.now) result ≡ frames_seen (job_in (view_of O.opening self.now) job) }
    {
        let found = self.job(job)?;
        Some(found.frames())
    }

    /// The locals of a job that was started.
    pub fn job_locals(&self, job: u32) -> Option<&Locals>
        ensures { option_map (λ locals. locals.now.now) result ≡ locals_seen (job_in (view_of O.opening self.now) job) }
    {
        let found = self.job(job)?;
        Some(found.locals())
    }

    // A view of all that.
    pub(crate) fn view(&self) -> Result<View, AllocError>
        ensures { IfOk result (λ view. view ≡ view_of O.opening self.now) }
    {
        let mut view = View::of(self.system.globals(), self.system.locks())?;
        for played in &self.jobs {
            view.add_job(played.job.frames(), played.job.locals())?;
        }
        Ok(view)
    }

    // The jobs that were started.
    pub(crate) fn jobs(&self) -> &[Played]
        ensures { result.now ≡ self.now.jobs }
    {
        &self.jobs
    }

    /// A job that was started.
    pub fn job(&self, job: u32) -> Option<&Job>
        ensures { option_copied result ≡ job_of self.now job }
    {
        let at = (job as usize).checked_sub(1)?;
        let played = self.jobs.get(at)?;
        Some(&played.job)
    }

    /// Whose turn it is: that of the lowest job from this number on that goes on, or of the lowest of all.
    pub fn turn(&self, from: u32) -> Option<u32>
        ensures none { IfNone result (AreOver (state_of O.opening self.now.system.history).rows 0) }
        ensures some { IfSome result (λ job. IsTurnOf (state_of O.opening self.now.system.history).rows from job) }
        ensures few { IfSome result (λ job. job ≤ rows_limit) }
    {
        match self.lowest(from) {
            Some(job) => Some(job),
            None => self.lowest(0),
        }
    }

    // The lowest job from this number on that goes on.
    fn lowest(&self, from: u32) -> Option<u32>
        ensures none { IfNone result (AreOver (state_of O.opening self.now.system.history).rows from) }
        ensures some { IfSome result (λ job. IsLowest (state_of O.opening self.now.system.history).rows from job) }
        ensures few { IfSome result (λ job. job ≤ rows_limit) }
    {
        for job in from..self.system.rows() as u32 + 1 {
            if self.system.is_live(job) {
                return Some(job);
            }
        }
        None
    }
}

/// The run with as many events of a record played as there are before a place, where each job that has a row there was started. The views go where a
/// run is begun anew, and where the place isn't the record's end views are made on the way then.
pub fn bring<D: Device, O: Opening>(
    alloc: Global,
    core: &Core<D, Sessions<D>, O>,
    kept: &KeptOpening,
    views: &mut Views,
    replica: Option<Replica<O>>,
    place: usize,
) -> Result<Replica<O>, Unshown>
    requires kept { BeginsRun O.opening kept.now }
    requires views { AreViews core.now.image O.opening core.now.history views.old }
    requires unseen { view_at views.old place ≡ None }
    requires replica { IfSome replica (λ r. IsReplica core.now.image O.opening core.now.history r) }
    requires within { place ≤ length core.now.history }
    requires short { length core.now.history ≤ history_limit }
    ensures ok { IfOk result (λ r. IsReplica core.now.image O.opening core.now.history r) }
    ensures made { IfOk result (λ r. r.made ≡ place) }
    ensures full { IfOk result (λ r. IsFull O.opening r) }
    ensures err { IfErr result (λ why. IsUnshown core.now.image O.opening core.now.history place why) }
    ensures views { AreViews core.now.image O.opening core.now.history views.new }
    ensures unseen { view_at views.new place ≡ None }
{
    let most = count_kept(alloc, &replica, place);
    if let Some(replica) = behind(replica, place) {
        return finish(alloc, core, replica, place);
    }
    let replica = again(alloc, core, kept, views, place, most)?;
    finish(alloc, core, replica, place)
}

// A run that isn't beyond a place, played on up to it, where each job that has a row there was started.
fn finish<D: Device, O: Opening>(
    alloc: Global,
    core: &Core<D, Sessions<D>, O>,
    mut replica: Replica<O>,
    place: usize,
) -> Result<Replica<O>, Unshown>
    requires replica { IsReplica core.now.image O.opening core.now.history replica }
    requires ahead { replica.made ≤ place }
    requires within { place ≤ length core.now.history }
    requires short { length core.now.history ≤ history_limit }
    ensures ok { IfOk result (λ r. IsReplica core.now.image O.opening core.now.history r) }
    ensures made { IfOk result (λ r. r.made ≡ place) }
    ensures full { IfOk result (λ r. IsFull O.opening r) }
    ensures err { IfErr result (λ why. IsUnshown core.now.image O.opening core.now.history place why) }
{
    replica.play_to(alloc, core, place)?;
    match replica.fill(alloc, core.image()) {
        Ok(()) => Ok(replica),
        Err(_) => Err(Unshown::Memory),
    }
}

// The run that is at hand, if it isn't beyond a place.
fn behind<O: Opening>(replica: Option<Replica<O>>, place: usize) -> Option<Replica<O>>
    ensures same { IfSome result (λ r. replica ≡ Some r) }
    ensures made { IfSome result (λ r. r.made ≤ place) }
{
    let replica = replica?;
    if replica.made > place {
        return None;
    }
    Some(replica)
}

// A new run, with views of at most so many of the last places before a place that isn't the record's end. Where memory is wanting with them, it is a new
// run without.
fn again<D: Device, O: Opening>(
    alloc: Global,
    core: &Core<D, Sessions<D>, O>,
    kept: &KeptOpening,
    views: &mut Views,
    place: usize,
    most: usize,
) -> Result<Replica<O>, Unshown>
    requires kept { BeginsRun O.opening kept.now }
    requires within { place ≤ length core.now.history }
    requires short { length core.now.history ≤ history_limit }
    ensures ok { IfOk result (λ r. IsReplica core.now.image O.opening core.now.history r) }
    ensures made { IfOk result (λ r. r.made ≤ place) }
    ensures err { IfErr result (λ why. IsUnshown core.now.image O.opening core.now.history place why) }
    ensures views { AreViews core.now.image O.opening core.now.history views.new }
    ensures unseen { view_at views.new place ≡ None }
{
    views.begin(0);
    let Ok(mut replica) = Replica::begin(alloc, kept) else {
        return Err(Unshown::Memory);
    };
    if place >= core.len() {
        return Ok(replica);
    }
    match film(alloc, core, views, &mut replica, place, most) {
        Ok(()) => Ok(replica),
        Err(Unshown::Memory) => {
            drop(replica);
            views.begin(0);
            match Replica::begin(alloc, kept) {
                Ok(replica) => Ok(replica),
                Err(_) => Err(Unshown::Memory),
            }
        }
        Err(why) => {
            drop(replica);
            Err(why)
        }
    }
}

/// What a run is to be begun with once more.
pub fn keep<D: Device>(
    alloc: Global,
    globals: &Globals,
    pool: &Pool<D>,
    starts: &[Start],
) -> Result<KeptOpening, AllocError>
    requires { AreWhole pool.now }
    ensures globals { IfOk result (λ kept. kept.globals ≡ globals.now.content) }
    ensures pool { IfOk result (λ kept. shelves_of kept ≡ pool.now) }
    ensures starts { IfOk result (λ kept. kept.starts ≡ starts.now) }
    ensures counted { IfOk result (λ kept. All (λ count. 1 ≤ count.1) kept.counts) }
    ensures rising { AreRising pool.now }
{
    let counts = pool.counts()?;
    Ok(KeptOpening {
        globals: globals.try_clone()?,
        counts,
        starts: clone_starts(alloc, starts)?,
    })
}

// Devices of which nothing will be asked, so many of each name.
fn pool_of(alloc: Global, counts: &[(Text, u32)]) -> Result<Pool<Memory>, AllocError>
    requires rising { AreRising (map counted_shelf counts.now) }
    requires counted { All (λ count. 1 ≤ count.1) counts.now }
    ensures { IfOk result (λ pool. pool ≡ map counted_shelf counts.now) }
{
    let mut pool = Pool::new(alloc);
    // from the last name on, so that each comes before those that are there
    for left in 0..counts.len() {
        let (name, count) = &counts[counts.len() - 1 - left];
        add(alloc, &mut pool, name, *count)?;
    }
    Ok(pool)
}

// Adds so many devices of a name that comes before all that are there.
fn add(alloc: Global, pool: &mut Pool<Memory>, name: &Text, count: u32) -> Result<(), AllocError>
    requires below { IsBelow name.now pool.old }
    requires some { 1 ≤ count }
    ensures { OnOk result (pool.new ≡ counted_shelf (name.now, count) ∷ pool.old) }
{
    for _ in 0..count {
        if pool.add(name, Memory::new(alloc, Vec::new(alloc))).is_err() {
            return Err(AllocError);
        }
    }
    Ok(())
}

// Copies starts.
fn clone_starts(alloc: Global, starts: &[Start]) -> Result<Vec<Start>, AllocError>
    ensures { IfOk result (λ copies. copies.items ≡ starts.now) }
{
    let mut copies = Vec::with_capacity(alloc, starts.len())?;
    for start in starts {
        copies.push(start.try_clone()?)?;
    }
    Ok(copies)
}
