// Runs by chance.

ghost use Rattle.std.specs.Prelude.{◌≡◌, ◌≤◌, ◌<◌, ◌+◌, ◌-◌, ◌^◌, cond, nat_lt, true, false, option_map, Some, IfOk, IfSome, IfNone, OnSome};
ghost use Rattle.std.specs.List.{count_by};
ghost use Rattle.mj_load.specs.Image.{program_of};
ghost use Rattle.mj_sys.specs.Shared.{are_global};
ghost use Rattle.mj_explore.specs.declared.exploring.Found.{Found as FoundOf};
ghost use Rattle.mj_judge.specs.declared.marks.Mark.TheVariants as marks;
ghost use Rattle.mj_script.specs.Scripts.{opening_in};
ghost use Rattle.mj_explore.specs.Ends.{IsNoted, end_text};
ghost use Rattle.mj_judge.specs.Marks.{bears};
ghost use Rattle.mj_judge.specs.Endings.{is_for_memory};
ghost use Rattle.mj_explore.specs.Found.{IsShownFor, IsFoundFor, IsFateOf, WereMade, IsCome, is_fate_stopped, is_fate_stuck};

use crate::ends::{End, end_text, note};
use crate::fates::{Fate, fate_of};
use crate::goals::{Finding, Goal, seen};
use crate::probes::Probe;
use mj_chance::{Chance, Made, shorten, step_by_choice};
use mj_dev::Memory;
use mj_globs::Globals;
use mj_judge::{Mark, has, is_for_memory};
use mj_run::Jobs;
use mj_script::{Script, begin};
use mj_sessions::Sessions;
use mj_steps::{Ending, Step};
use mj_sys::Opening;
use std::alloc::{AllocError, Global};
use std::marker::PhantomData;

/// The most steps of a run.
pub const RUN_LIMIT: usize = 20_000;
// How often steps are tried, to make a list shorter.
const TRIES: usize = 400;

/// How runs are made.
#[derive(Clone, Copy, PartialEq, Eq, Debug)]
pub struct Search {
    /// from which chance comes
    pub seed: u32,
    /// how many runs there are at most
    pub runs: u32,
}

/// How many runs came to what.
#[derive(Clone, Copy, PartialEq, Eq, Debug)]
pub struct Tally {
    /// in how many a job ended by a fault
    pub faulted: u32,
    /// how many got stuck: not all jobs have ended, and each that hasn't waits, without a timeout, for what nobody gives it any more
    pub stuck: u32,
    /// how many others were stopped before all jobs had ended
    pub stopped: u32,
}

/// What is found.
#[derive(Drop)]
pub struct Found {
    /// in which way the last run showed what is looked for
    pub finding: Finding,
    /// steps that show it in the same way
    pub steps: Vec<Step>,
}

/// What came of runs.
#[derive(Drop)]
pub struct Explored {
    /// how many there were
    pub runs: u32,
    /// the different ends that they had, in the order in which they came first
    pub ends: Vec<End>,
    /// how many came to what
    pub tally: Tally,
    /// what is found, where the last run showed what is looked for
    pub found: Option<Found>,
}

// What came of one run: its steps, in which way it shows what is looked for, if it does, whether a job ended by a fault, and what became of its jobs.
#[derive(Drop)]
struct Came {
    steps: Vec<Step>,
    shown: Option<Finding>,
    has_faulted: bool,
    fate: Fate,
}

/// Makes runs by chance, from a beginning over these globals, up to the first that shows what is looked for, if anything is. Its steps are made shorter, unless
/// an expression faults over what the very first run left: so it may do wherever it is judged.
pub fn explore<O: Opening>(
    alloc: Global,
    script: &Script,
    globals: &Globals,
    goal: Option<&Goal>,
    search: Search,
) -> Result<Explored, AllocError>
    requires opening { opening_in script.now globals.now.content ≡ O.opening }
    requires global { are_global globals.now.content ≡ true }
    ensures found { IfOk result (λ explored. IfSome explored.found
        (λ found. IsFoundFor script.now (option_map (λ g. g.now) goal.entry) found.finding O.opening found.steps.items)) }
    ensures counted { IfOk result (λ explored. WereMade script.now O.opening explored.runs explored.ends.items explored.tally
        (option_map (λ g. g.now) goal.entry) (option_map (λ (found : FoundOf). found.finding) explored.found)) }
    ensures within { IfOk result (λ explored. explored.runs ≤ search.runs) }
    ensures all { IfOk result (λ explored. IfNone explored.found (explored.runs ≡ search.runs)) }
{
    let mut ends = Vec::new(alloc);
    let mut tally = Tally {
        faulted: 0,
        stuck: 0,
        stopped: 0,
    };
    'runs: for done in 0..search.runs {
        let run = done + 1;
        let came = run_once::<O>(alloc, script, globals, goal, search.seed, run, &mut ends)?;
        tally = tallied(tally, came.has_faulted, came.fate);
        if let Some(finding) = came.shown {
            let tries = tries_of(run, finding);
            let steps = shortened::<O>(alloc, script, globals, goal, finding, came.steps, tries)?;
            return Ok(Explored {
                runs: run,
                ends,
                tally,
                found: Some(Found { finding, steps }),
            });
        }
    }
    Ok(Explored {
        runs: search.runs,
        ends,
        tally,
        found: None,
    })
}

// How often steps are tried, to make those of a run shorter.
fn tries_of(run: u32, finding: Finding) -> usize {
    match finding {
        Finding::Faulty(_) if run == 1 => 0,
        _ => TRIES,
    }
}

// With one run more, in which a job faulted or not, and of whose jobs this became.
fn tallied(tally: Tally, has_faulted: bool, fate: Fate) -> Tally
    requires faulted { tally.faulted < 2 ^ 32 - 1 }
    requires stuck { tally.stuck < 2 ^ 32 - 1 }
    requires stopped { tally.stopped < 2 ^ 32 - 1 }
    ensures faulted { result.faulted ≡ tally.faulted + cond has_faulted 1 0 }
    ensures stuck { result.stuck ≡ tally.stuck + cond (is_fate_stuck fate) 1 0 }
    ensures stopped { result.stopped ≡ tally.stopped + cond (is_fate_stopped fate) 1 0 }
{
    Tally {
        faulted: one_more(tally.faulted, has_faulted),
        stuck: one_more(tally.stuck, fate.is_stuck()),
        stopped: one_more(tally.stopped, fate.is_stopped()),
    }
}

// One more, if it is so.
fn one_more(count: u32, is: bool) -> u32
    requires { count < 2 ^ 32 - 1 }
    ensures { result ≡ count + cond is 1 0 }
{
    if is { count + 1 } else { count }
}

// Makes a run by chance, notes its end, and tells what came of it.
fn run_once<O: Opening>(
    alloc: Global,
    script: &Script,
    globals: &Globals,
    goal: Option<&Goal>,
    seed: u32,
    run: u32,
    ends: &mut Vec<End>,
) -> Result<Came, AllocError>
    requires opening { opening_in script.now globals.now.content ≡ O.opening }
    requires global { are_global globals.now.content ≡ true }
    ensures found { IfOk result (λ came. IfSome came.shown
        (λ finding. IsFoundFor script.now (option_map (λ g. g.now) goal.entry) finding O.opening came.steps.items)) }
    ensures noted { IfOk result (λ came. IsCome script.now O.opening (option_map (λ g. g.now) goal.entry) came.shown came.has_faulted came.fate
        ends.old.items ends.new.items) }
{
    let mut jobs = begin::<O>(alloc, script, globals)?;
    let mut chance = Chance::new(seed, run);
    let made = step_by_choice(alloc, &mut jobs, &mut chance, RUN_LIMIT)?;
    let came = told(alloc, &mut jobs, made.ending, goal, ends)?;
    let Made { steps, .. } = made;
    Ok(Came {
        steps,
        shown: came.0,
        has_faulted: came.1,
        fate: came.2,
    })
}

// Notes the end of a run whose steps ended so, and tells in which way it shows what is looked for, if it does, whether a job ended by a fault, and what became
// of its jobs.
fn told<O: Opening>(
    alloc: Global,
    jobs: &mut Jobs<Memory, Sessions<Memory>, O>,
    ending: Ending,
    goal: Option<&Goal>,
    ends: &mut Vec<End>,
) -> Result<(Option<Finding>, bool, Fate), AllocError>
    ensures shown { IfOk result (λ came. IfSome came.0
        (λ finding. IsShownFor (option_map (λ g. g.now) goal.entry) finding (program_of jobs.old.image) O.opening jobs.old.history)) }
    ensures over { IfOk result (λ came. OnSome came.0 (ending ≡ Ending.Over)) }
    ensures granted { IfOk result (λ came. is_for_memory ending ≡ false) }
    ensures faulted { IfOk result (λ came. came.1 ≡ nat_lt 0 (count_by (bears marks.Fault) jobs.old.history)) }
    ensures fate { IfOk result (λ came. IsFateOf came.2 (program_of jobs.old.image) O.opening jobs.old.history) }
    ensures noted { IfOk result (λ came. IsNoted (end_text O.opening jobs.old.history) ends.old.items ends.new.items) }
{
    note(ends, end_text(alloc, &jobs.core)?)?;
    let has_faulted = has(&jobs.core, Mark::Fault);
    let came = judged(alloc, jobs, ending, goal)?;
    Ok((came.0, has_faulted, came.1))
}

// In which way a run whose steps ended so shows what is looked for, if it does, and what became of its jobs. Where memory was refused to the run there is
// nothing to say of it.
fn judged<O: Opening>(
    alloc: Global,
    jobs: &mut Jobs<Memory, Sessions<Memory>, O>,
    ending: Ending,
    goal: Option<&Goal>,
) -> Result<(Option<Finding>, Fate), AllocError>
    ensures shown { IfOk result (λ came. IfSome came.0
        (λ finding. IsShownFor (option_map (λ g. g.now) goal.entry) finding (program_of jobs.old.image) O.opening jobs.old.history)) }
    ensures over { IfOk result (λ came. OnSome came.0 (ending ≡ Ending.Over)) }
    ensures granted { IfOk result (λ came. is_for_memory ending ≡ false) }
    ensures fate { IfOk result (λ came. IsFateOf came.1 (program_of jobs.old.image) O.opening jobs.old.history) }
{
    if is_for_memory(ending) {
        return Err(AllocError);
    }
    let Ending::Over = ending else {
        let fate = fate_of(jobs)?;
        return Ok((None, fate));
    };
    let seen = seen_for(alloc, jobs, goal)?;
    let fate = fate_of(jobs)?;
    if seen.is_some() {
        return Ok((seen, fate));
    }
    if shows_stuck(fate, goal) {
        return Ok((Some(Finding::Sought), fate));
    }
    Ok((None, fate))
}

// In which way jobs that stand so show what is looked for, if anything is, as far as that is seen without a step.
fn seen_for<O: Opening>(
    alloc: Global,
    jobs: &Jobs<Memory, Sessions<Memory>, O>,
    goal: Option<&Goal>,
) -> Result<Option<Finding>, AllocError>
    ensures { IfOk result (λ seen. IfSome seen
        (λ finding. IsShownFor (option_map (λ g. g.now) goal.entry) finding (program_of jobs.now.image) O.opening jobs.now.history)) }
{
    match goal {
        None => Ok(None),
        Some(goal) => seen(alloc, jobs, goal),
    }
}

// Whether jobs are looked for that are stuck, and these are.
fn shows_stuck(fate: Fate, goal: Option<&Goal>) -> bool
    ensures stuck { result ≡ true → fate ≡ Fate.Stuck }
    ensures wanted { result ≡ true → option_map (λ g. g.now) goal.entry ≡ Some Goal.Stuck }
{
    match (fate, goal) {
        (Fate::Stuck, Some(Goal::Stuck)) => true,
        _ => false,
    }
}

// Fewer steps that show it in the same way, by so many tries.
fn shortened<O: Opening>(
    alloc: Global,
    script: &Script,
    globals: &Globals,
    goal: Option<&Goal>,
    finding: Finding,
    steps: Vec<Step>,
    tries: usize,
) -> Result<Vec<Step>, AllocError>
    requires opening { opening_in script.now globals.now.content ≡ O.opening }
    requires global { are_global globals.now.content ≡ true }
    requires found { IsFoundFor script.now (option_map (λ g. g.now) goal) finding O.opening steps.items }
    ensures { IfOk result (λ steps. IsFoundFor script.now (option_map (λ g. g.now) goal.entry) finding O.opening steps.items) }
{
    let Some(goal) = goal else {
        return Ok(steps);
    };
    let probe = Probe::<O> {
        alloc,
        script,
        globals,
        goal,
        finding,
        opening: PhantomData,
    };
    shorten(alloc, &probe, steps, tries)
}
