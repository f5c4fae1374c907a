// A debugger.

ghost use Rattle.std.specs.Prelude.{◌≡◌, ◌≤◌, List, [], ◌∷◌, length, map, replicate, All, true, false, Ok, OnOk, OnErr, IfOk, IfErr, IfSome, IfNone, Some};
ghost use Rattle.std.specs.Prelude.{None};
ghost use Rattle.mj_text.specs.declared.limit.Limit.TheVariants.{V2};
ghost use Rattle.mj_dev.specs.Shelves.{principal, left_of};
ghost use Rattle.mj_frames.specs.Frames.{frames_of, place_at};
ghost use Rattle.mj_jobs.specs.Rows.{row_at, rows_limit};
ghost use Rattle.mj_core.specs.Asking.{IsAtAsk, IfAsks, turn_of};
ghost use Rattle.mj_jobvm.specs.Jobs.{Running};
ghost use Rattle.mj_jobvm.specs.declared.job.Turn.TheVariants as turns;
ghost use Rattle.mj_core.specs.declared.seen.Ready.TheVariants as readies;
ghost use Rattle.mj_load.specs.Image.{program_of};
ghost use Rattle.mj_semantics.specs.State as states;
ghost use Rattle.mj_semantics.specs.State.{place_of};
ghost use Rattle.mj_sys.specs.History.{state_of};
ghost use Rattle.mj_sys.specs.Opening.{opening_of, are_bare};
ghost use Rattle.mj_sys.specs.Shared.{are_global};
ghost use Rattle.mj_sys.specs.System.{history_limit};
ghost use Rattle.mj_core.specs.Gives.{CoreStepGives, GivesReady};
ghost use Rattle.mj_core.specs.Shown.{begun};
ghost use Rattle.mj_views.specs.Views.{Window};
ghost use Rattle.mj_replica.specs.InTurn.{IsTurnOf};
ghost use Rattle.mj_replica.specs.Replicas.{AreWhole, Replayed, IsReplica, IsFull, IsUnshown};
ghost use Rattle.mj_replica.specs.Shows.{HasStood};
ghost use Rattle.mj_replica.specs.Views.{view_of, IsView, AreViews};
ghost use Rattle.mj_debug.specs.Breaks as breaks;
ghost use Rattle.mj_debug.specs.Breaks.{AreMarked, is_there};
ghost use Rattle.mj_debug.specs.Goes.{GoGives, IsStop, IsUnasked, IsPassed, IsLeftUnmade, line_in};
ghost use Rattle.mj_debug.specs.Walks.{front, StepGives, IsOn, GoesBack, GoesForth};

use crate::breaks::{BreakMark, is_breakpoint, put_mark};
use mj_ask::Start;
use mj_core::{Answerer, Core, Fresh, Ready, Refusal, Seen, Step, Way};
use mj_dev::{Device, Pool};
use mj_frames::Frame;
use mj_globs::Globals;
use mj_jobvm::Job;
use mj_load::Image;
use mj_locals::Locals;
use mj_locktab::LockTable;
use mj_replica::{KeptOpening, Replica, Unshown, bring, keep};
use mj_sessions::Sessions;
use mj_sys::{Opening, Unmade};
use mj_text::Text;
use mj_views::{View, Views};
use std::alloc::{AllocError, Global};
use std::marker::Model;

/// Why a step isn't made.
#[derive(Clone, Copy, PartialEq, Eq, Debug)]
pub enum WalkRefusal {
    /// the place isn't the record's end
    NotAtEnd,
    /// the job isn't stepped there
    Step(Refusal),
}

/// What comes of the next step of a `go`.
#[derive(Drop)]
pub enum Gone {
    /// the place isn't the record's end: there is no step
    NotAtEnd,
    /// all jobs have ended: there is no step
    Over,
    /// the next ask of this job, whose turn it is, comes from a line that is a breakpoint, from which its ask before didn't come. The job isn't
    /// stepped, and a later `go` begins with it.
    At {
        job: u32,
        routine: Text,
        line: u32,
    },
    /// this job, whose turn it was, was stepped by Go: what came of it
    Step {
        job: u32,
        answer: Result<Seen, Refusal>,
    },
}

/// Jobs that are stepped, with a place in the record of what happened, which is walked back and forth. A step is made at the record's end alone,
/// and moves the place there with it; walking changes neither the jobs nor the record. What stands at the place is shown by playing the events
/// before it again, for which no device is called. That takes as long as the run itself took for those events that weren't played yet, and begins anew
/// where the place is before what was played last. Such a replay makes views of the last places before the place, up to 1,000, as far as there is room for
/// them (`docs/DEBUGGER.md`): so many steps back, each with a show, cost one replay from the opening.
#[derive(Drop)]
pub struct Debugger<D: Device, A: Answerer<Fresh<D>>, O: Opening> {
    alloc: Global,
    core: Core<D, A, O>,
    place: usize,
    kept: KeptOpening,
    // the run played again up to a place that was shown
    replica: Option<Replica<O>>,
    // of places before one that was shown behind a step back
    views: Views,
    marks: Vec<BreakMark>,
    turn: u32,
}

impl<D: Device, A: Answerer<Fresh<D>>, O: Opening> Model for Debugger<D, A, O> {
    ghost use Rattle.std.specs.Coded.{codes};
    ghost use Rattle.std.specs.Prelude.{◌≤◌, length, IfSome};
    ghost use Rattle.mj_ast.specs.contracts.routine.Routine as routine;
    ghost use Rattle.mj_pcode.specs.contracts.instr.Unit as unit;
    ghost use Rattle.mj_sys.specs.System.{history_limit};
    ghost use Rattle.mj_replica.specs.Replicas.{BeginsRun, IsReplica, IsFull};
    ghost use Rattle.mj_replica.specs.Views.{AreViews};
    ghost use Rattle.mj_debug.specs.Walks.{Walk, is_ready};

    ghost Value = { Walk };

    ghost coded = { Prim.hlevel (codes, routine.the_row.coded, unit.the_row.coded) };

    ghost view = { λ d. record {
      core = d.core;
      place = d.place;
      ready = is_ready d.place d.views d.replica;
      marks = d.marks.items;
      turn = d.turn;
    } };

    ghost invariant = { λ d.
        BeginsRun O.opening d.kept
        × (d.place ≤ length d.core.history)
        × (length d.core.history ≤ history_limit)
        × IfSome d.replica (λ r. IsReplica d.core.image O.opening d.core.history r × IsFull O.opening r)
        × AreViews d.core.image O.opening d.core.history d.views };
}

impl<D: Device, O: Opening> Debugger<D, Sessions<D>, O> {
    /// A debugger of jobs of which nothing was asked yet, with the arguments of `Core::new`. Nothing may have been taken of the pool. A job
    /// stops at the lines that hold BREAK. At want of memory all comes back that the system was to be made of.
    pub fn new(
        alloc: Global,
        image: Image,
        globals: Globals,
        pool: Pool<D>,
        starts: Vec<Start>,
    ) -> Result<Debugger<D, Sessions<D>, O>, Unmade<D>>
        requires long { image.bounds.limit ≡ V2 }
        requires opening { opening_of globals.content pool starts.items ≡ O.opening }
        requires global { are_global globals.content ≡ true }
        requires some { 1 ≤ length starts.items }
        requires few { length starts.items ≤ rows_limit }
        requires fits { length starts.items ≤ left_of principal pool }
        requires bare { are_bare starts.items ≡ true }
        requires whole { AreWhole pool }
        ensures core { IfOk result (λ d. d.core ≡ begun image) }
        ensures image { IfOk result (λ d. d.core.image ≡ image) }
        ensures record { IfOk result (λ d. d.core.history ≡ []) }
        ensures place { IfOk result (λ d. d.place ≡ 0) }
        ensures marks { IfOk result (λ d. d.marks ≡ []) }
        ensures turn { IfOk result (λ d. d.turn ≡ 1) }
        ensures globals { IfErr result (λ back. back.globals ≡ globals) }
        ensures pool { IfErr result (λ back. back.pool ≡ pool) }
        ensures starts { IfErr result (λ back. back.starts.items ≡ starts.items) }
    {
        let Ok(kept) = keep(alloc, &globals, &pool, &starts) else {
            return Err(Unmade {
                globals,
                pool,
                starts,
            });
        };
        let core = Core::<D, Sessions<D>, O>::new(alloc, image, globals, pool, starts)?;
        Ok(Debugger {
            alloc,
            core,
            place: 0,
            kept,
            replica: None,
            views: Views::none(alloc),
            marks: Vec::new(alloc),
            turn: 1,
        })
    }

    /// The jobs as they stand at the record's end, wherever the place is: their events are the record.
    pub fn core(&self) -> &Core<D, Sessions<D>, O>
        ensures { result.now ≡ self.now.core }
    {
        &self.core
    }

    /// Its core, which is left of it.
    pub fn into_core(self) -> Core<D, Sessions<D>, O>
        ensures { result ≡ self.core }
    {
        let Debugger {
            alloc: _,
            core,
            place: _,
            kept,
            replica,
            views,
            marks,
            turn: _,
        } = self;
        drop(kept);
        drop(replica);
        drop(views);
        drop(marks);
        core
    }

    /// The place in the record: how many events are before it.
    pub fn place(&self) -> usize
        ensures value { result ≡ self.now.place }
        ensures within { result ≤ length self.now.core.history }
    {
        self.place
    }

    /// Makes a step as `Core::step` does, where the place is the record's end, and goes with it.
    pub fn step(&mut self, step: Step) -> Result<Seen, WalkRefusal>
        ensures { StepGives O.opening self.old step result self.new }
    {
        if self.place < self.core.len() {
            return Err(WalkRefusal::NotAtEnd);
        }
        match self.make(step) {
            Ok(seen) => Ok(seen),
            Err(why) => Err(WalkRefusal::Step(why)),
        }
    }

    /// Goes one event back along the record: the place in the record of the event that it went over, from 0, or none before the first.
    pub fn back(&mut self) -> Option<usize>
        ensures { GoesBack self.old result self.new }
    {
        let at = self.place.checked_sub(1)?;
        self.place = at;
        Some(at)
    }

    /// Goes one event on along the record: the place in the record of the event that it went over, from 0, or none behind the last.
    pub fn forward(&mut self) -> Option<usize>
        ensures { GoesForth self.old result self.new }
    {
        let at = self.place;
        if at >= self.core.len() {
            return None;
        }
        self.place = at + 1;
        Some(at)
    }

    /// Gets what stands at the place ready to be shown. It changes nothing. Where there is a view of the place it does nothing; else it plays the
    /// events again that it didn't play before, or all of those before the place, where that lies before what was ready last, and then makes views of
    /// the last places before it on the way, unless the place is the record's end.
    pub fn show(&mut self) -> Result<(), Unshown>
        ensures ok { OnOk result (self.new ≡ record self.old { ready = true }) }
        ensures err { OnErr result (self.new ≡ record self.old { ready = false }) }
        ensures why { IfErr result (λ why. IsUnshown self.old.core.image O.opening self.old.core.history self.old.place why) }
    {
        if self.views.at(self.place).is_some() {
            return Ok(());
        }
        let replica = self.replica.take();
        match bring(
            self.alloc,
            &self.core,
            &self.kept,
            &mut self.views,
            replica,
            self.place,
        ) {
            Ok(replica) => {
                self.replica = Some(replica);
                Ok(())
            }
            Err(why) => Err(why),
        }
    }

    /// The committed globals at the place.
    pub fn globals(&self) -> &Globals
        requires { self.now.ready ≡ true }
        ensures { result.now.content ≡ (state_of O.opening (front self.now)).globals }
    {
        match self.shown() {
            Ok(view) => view.globals(),
            Err(replica) => replica.globals(),
        }
    }

    /// Who holds which names at the place.
    pub fn locks(&self) -> &LockTable
        requires { self.now.ready ≡ true }
        ensures { result.now.holds ≡ (state_of O.opening (front self.now)).locks }
    {
        match self.shown() {
            Ok(view) => view.locks(),
            Err(replica) => replica.locks(),
        }
    }

    /// The frames of a job, the outermost first, as it stood at the ask of its last event before the place. None where it has no row there.
    pub fn frames(&self, job: u32) -> Option<&[Frame]>
        requires { self.now.ready ≡ true }
        ensures none { IfNone result (row_at (state_of O.opening (front self.now)).rows job ≡ None) }
        ensures some { IfSome result (λ frames. (locals : states.Locals)
            × HasStood (program_of self.now.core.image) O.opening (front self.now) job locals (map (λ f. f.place) (frames_of frames.now))) }
    {
        match self.shown() {
            Ok(view) => view.frames(job),
            Err(replica) => replica.job_frames(job),
        }
    }

    /// The locals of a job, as it stood at the ask of its last event before the place. None where it has no row there.
    pub fn locals(&self, job: u32) -> Option<&Locals>
        requires { self.now.ready ≡ true }
        ensures none { IfNone result (row_at (state_of O.opening (front self.now)).rows job ≡ None) }
        ensures some { IfSome result (λ locals. (places : List states.Place)
            × HasStood (program_of self.now.core.image) O.opening (front self.now) job locals.now.now places) }
    {
        match self.shown() {
            Ok(view) => view.locals(job),
            Err(replica) => replica.job_locals(job),
        }
    }

    /// Sets a breakpoint at a line. Whether there is such a line isn't asked.
    pub fn set(&mut self, routine: &Text, line: u32) -> Result<(), AllocError>
        ensures ok { OnOk result (AreMarked self.old.core.image (record { routine = routine.now; line = line }) true self.old.marks self.new.marks) }
        ensures rest { self.new ≡ record self.old { marks = self.new.marks } }
        ensures err { OnErr result (self.new.marks ≡ self.old.marks) }
    {
        put_mark(&mut self.marks, routine, line, true)
    }

    /// Clears the breakpoint of a line, even if it holds BREAK.
    pub fn clear(&mut self, routine: &Text, line: u32) -> Result<(), AllocError>
        ensures ok { OnOk result (AreMarked self.old.core.image (record { routine = routine.now; line = line }) false self.old.marks self.new.marks) }
        ensures rest { self.new ≡ record self.old { marks = self.new.marks } }
        ensures err { OnErr result (self.new.marks ≡ self.old.marks) }
    {
        put_mark(&mut self.marks, routine, line, false)
    }

    /// Whether a job stops at a line.
    pub fn is_breakpoint(&self, routine: &Text, line: u32) -> bool
        ensures { result ≡ breaks.is_breakpoint self.now.core.image self.now.marks (record { routine = routine.now; line = line }) }
    {
        is_breakpoint(self.core.image(), &self.marks, routine, line)
    }

    /// Makes the next step of a `go`, `first` at its first: the next job that hasn't ended is stepped by Go, unless it comes to a breakpoint. To find
    /// that out it is let go on as `Core::ready` does, and where it comes to no ask by that, this is its step.
    pub fn go(&mut self, first: bool) -> Result<Gone, Unshown>
        ensures ok { IfOk result (λ gone. GoGives O.opening self.old first gone self.new) }
        ensures err { IfErr result (λ why. IsLeftUnmade O.opening self.old first why self.new) }
        ensures why { IfErr result (λ why. IsUnshown self.old.core.image O.opening self.old.core.history self.old.place why) }
    {
        if self.place < self.core.len() {
            return Ok(Gone::NotAtEnd);
        }
        self.show()?;
        let Some(job) = self.played().turn(self.turn) else {
            return Ok(Gone::Over);
        };
        if first {
            return Ok(self.pass(job));
        }
        match self.go_on(job) {
            Ok(gone) => Ok(gone),
            Err(_) => Err(Unshown::Memory),
        }
    }

    // Lets the job whose turn it is go on to its next ask, and steps it, where that is none to stop at.
    fn go_on(&mut self, job: u32) -> Result<Gone, AllocError>
        requires end { self.old.place ≡ length self.old.core.history }
        requires ready { self.old.ready ≡ true }
        requires turn { IsTurnOf (state_of O.opening self.old.core.history).rows self.old.turn job }
        requires few { job ≤ rows_limit }
        ensures ok { IfOk result (λ gone. GoGives O.opening self.old false gone self.new) }
        ensures err { OnErr result
            ((self.new ≡ record self.old { core = self.new.core }) × GivesReady O.opening self.old.core job (Ok turns.Asks) self.new.core) }
    {
        let line = match asked(ready_on(&mut self.core, job)) {
            Ok(line) => line?,
            Err(answer) => {
                self.turn = job + 1;
                return Ok(Gone::Step { job, answer });
            }
        };
        if let Some((routine, line)) = self.stop(job, line) {
            self.turn = job;
            return Ok(Gone::At { job, routine, line });
        }
        Ok(self.pass(job))
    }

    // Steps a job by Go at the record's end. Then it is the next job's turn.
    fn pass(&mut self, job: u32) -> Gone
        requires end { self.old.place ≡ length self.old.core.history }
        requires few { job ≤ rows_limit }
        ensures { IsPassed O.opening self.old job result self.new }
    {
        let answer = self.make(Step { job, way: Way::Go });
        self.turn = job + 1;
        Gone::Step { job, answer }
    }

    // Makes a step at the record's end, and goes with it.
    fn make(&mut self, step: Step) -> Result<Seen, Refusal>
        requires { self.old.place ≡ length self.old.core.history }
        ensures gives { CoreStepGives O.opening self.old.core step result self.new.core }
        ensures rest { IsOn self.old self.new }
    {
        let answer = step_on(&mut self.core, step);
        let end = self.core.len();
        self.place = end;
        answer
    }

    // The line from which a job comes to its next ask, if that is one to stop at.
    fn stop(&self, job: u32, line: Option<(Text, u32)>) -> Option<(Text, u32)>
        requires end { self.now.place ≡ length self.now.core.history }
        requires ready { self.now.ready ≡ true }
        requires asks { (found : Running) × IsAtAsk self.now.core.image O.opening self.now.core.history job found
            × (line_in line ≡ place_of found.run.at.state) }
        ensures some { IfSome result
            (λ line. (outer : List states.Place) × IsStop O.opening self.now job (record { routine = line.0; line = line.1 } ∷ outer) true) }
        ensures none { IfNone result ((places : List states.Place) × IsStop O.opening self.now job places false) }
    {
        let Some(then) = self.played().job(job) else {
            unreachable!();
        };
        let Some((routine, line)) = line else {
            return None;
        };
        if !is_breakpoint(self.core.image(), &self.marks, &routine, line) {
            return None;
        }
        if is_on_line(then.place(), &routine, line) {
            return None;
        }
        Some((routine, line))
    }

    // What shows the place: a view of it, or else the run played again up to it.
    fn shown(&self) -> Result<&View, &Replica<O>>
        requires { self.now.ready ≡ true }
        ensures view { IfOk result (λ view. IsView self.now.core.image O.opening (front self.now) view.now) }
        ensures replica { IfErr result (λ replica. IsView self.now.core.image O.opening (front self.now) (view_of O.opening replica.now)) }
    {
        if let Some(view) = self.views.at(self.place) {
            return Ok(view);
        }
        Err(at_hand(&self.replica))
    }

    // The run played again up to the record's end.
    fn played(&self) -> &Replica<O>
        requires end { self.now.place ≡ length self.now.core.history }
        requires ready { self.now.ready ≡ true }
        ensures replica { IsReplica self.now.core.image O.opening self.now.core.history result.now }
        ensures full { IsFull O.opening result.now }
        ensures made { result.now.made ≡ self.now.place }
    {
        let Some(replica) = &self.replica else {
            unreachable!();
        };
        replica
    }
}

// The run that is at hand.
fn at_hand<O: Opening>(replica: &Option<Replica<O>>) -> &Replica<O>
    requires { replica.now ≡ None → ⊥ }
    ensures { replica.now ≡ Some result.now }
{
    let Some(replica) = replica else {
        unreachable!();
    };
    replica
}

// Makes a step. What was played of the record stays played, and views of it are views of it still.
fn step_on<D: Device, O: Opening>(
    core: &mut Core<D, Sessions<D>, O>,
    step: Step,
) -> Result<Seen, Refusal>
    requires { length core.old.history ≤ history_limit }
    ensures gives { CoreStepGives O.opening core.old step result core.new }
    ensures short { length core.new.history ≤ history_limit }
    ensures replica { (replica : Replayed) → IsReplica core.old.image O.opening core.old.history replica
        → IsReplica core.new.image O.opening core.new.history replica }
    ensures views { (views : Window) → AreViews core.old.image O.opening core.old.history views → AreViews core.new.image O.opening core.new.history views }
{
    let _events = core.len(); // for the proof
    core.step(step)
}

// Lets a job go on to its next ask, and copies the line at which it stands there. The record stays as it is, and so does what was played of it and what
// views show.
fn ready_on<D: Device, O: Opening>(
    core: &mut Core<D, Sessions<D>, O>,
    job: u32,
) -> Result<Ready<Result<Option<(Text, u32)>, AllocError>>, Refusal>
    ensures gives { GivesReady O.opening core.old job (turn_of result) core.new }
    ensures line { IfAsks result (λ seen. IfOk seen (λ line. (found : Running)
        × IsAtAsk core.old.image O.opening core.old.history job found × (line_in line ≡ place_of found.run.at.state))) }
    ensures image { core.new.image ≡ core.old.image }
    ensures history { core.new.history ≡ core.old.history }
    ensures replica { (replica : Replayed) → IsReplica core.old.image O.opening core.old.history replica
        → IsReplica core.new.image O.opening core.new.history replica }
    ensures views { (views : Window) → AreViews core.old.image O.opening core.old.history views → AreViews core.new.image O.opening core.new.history views }
{
    core.ready_job(job, line_of)
}

// What was seen of a job that was let go on and asks, or what the step comes to of one that doesn't.
fn asked<R>(ready: Result<Ready<R>, Refusal>) -> Result<R, Result<Seen, Refusal>>
    ensures asks { IfOk result (λ seen. ready ≡ Ok (readies.Asks seen)) }
    ensures answer { IfErr result (λ answer. IsUnasked (turn_of ready) answer) }
{
    match ready {
        Ok(Ready::Asks(seen)) => Ok(seen),
        Ok(Ready::Ran) => Err(Ok(Seen::Ran)),
        Ok(Ready::Ended) => Err(Ok(Seen::Ended)),
        Err(why) => Err(Err(why)),
    }
}

// A copy of the line where a job stands, if it has a frame.
fn line_of(job: &Job) -> Result<Option<(Text, u32)>, AllocError>
    ensures { IfOk result (λ line. line_in line ≡ place_of job.now.run.at.state) }
{
    match job.place() {
        None => Ok(None),
        Some((routine, line)) => Ok(Some((routine.try_clone()?, line))),
    }
}

// Whether a place is this line.
fn is_on_line(place: Option<(&Text, u32)>, routine: &Text, line: u32) -> bool
    ensures { result ≡ is_there (record { routine = routine.now; line = line }) (place_at place.entry) }
{
    match place {
        None => false,
        Some((name, number)) => *name == *routine && number == line,
    }
}
