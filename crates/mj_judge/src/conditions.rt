// Expressions that are judged over globals.

ghost use Rattle.std.specs.Prelude.{◌≡◌, ◌∷◌, [], true, false, codes, IfOk, IfSome};
ghost use Rattle.std.specs.Str.{bytes_eq};
ghost use Rattle.mj_ast.specs.Trees.{routine_of, line_of as tree_of, step_of, command_of};
ghost use Rattle.mj_sys.specs.Shared.{are_global};
ghost use Rattle.mj_run.specs.Stepping.{AreSteps};
ghost use Rattle.mj_script.specs.Scripts.{opening_in};
ghost use Rattle.mj_judge.specs.Conditions.{IsConditionOf, IsExpression, IsReadSo, condition_line, front_line, ends_in_blank, has_caret, judge_start};
ghost use Rattle.mj_judge.specs.Conditions.{is_plain, is_single_if, is_single_write, judges, line_judges, line_tests, step_tests, step_writes, tests};
ghost use Rattle.mj_judge.specs.Judged.{IsJudged, ShowsVerdict, by_memory, is_of_device, verdict_by};

use crate::endings::is_for_memory;
use crate::marks::{fault_in, is_over};
use mj_ask::{Entry, Start};
use mj_ast::{Command, Line, LineCommand, Routine};
use mj_dev::Memory;
use mj_globs::Globals;
use mj_rou::LoadError;
use mj_run::Jobs;
use mj_script::{Script, Source, Unread, begin};
use mj_sessions::Sessions;
use mj_sys::Opening;
use mj_text::{Failure, Fault, Text};
use std::alloc::{AllocError, Global};
use std::marker::Brand;

/// What an expression comes to over globals.
#[derive(Clone, Copy, PartialEq, Eq, Debug)]
pub enum Verdict {
    /// it is true
    Holds,
    /// it is untrue
    Untrue,
    /// it has no value, since it faults
    Faults(Fault),
}

// The name of the routine of an expression.
const NAME: &[u8] = b"UNTIL";
// The most steps of such a routine.
const STEPS: usize = 10_000;

/// The script of an expression: one job, which writes 1 where the expression is true over the globals. None where the bytes spell no expression, or one
/// without a `^`, which names no global: it comes to the same behind every run, as a word that is spelled wrongly does.
pub fn condition(alloc: Global, expression: &[u8]) -> Result<Option<Script>, AllocError>
    ensures script { IfOk result (λ found. IfSome found (IsConditionOf expression.now)) }
    ensures global { IfOk result (λ found. IfSome found (λ script. has_caret expression.now ≡ true)) }
{
    if !has_caret(expression) {
        return Ok(None);
    }
    if !is_expression(alloc, expression)? {
        return Ok(None);
    }
    let bytes = line_of(alloc, expression)?;
    let mut name = Vec::new(alloc);
    name.extend_from_slice(NAME)?;
    let mut sources = Vec::new(alloc);
    sources.reserve(1)?;
    sources.push_reserved(Source { name, bytes });
    let starts = starts(alloc)?;
    match Script::new(alloc, sources, starts, Vec::new(alloc), Vec::new(alloc)) {
        Ok(script) => Ok(Some(script)),
        Err(Unread::Memory) => Err(AllocError),
        Err(_) => Ok(None),
    }
}

// Whether a `^` is among these bytes.
fn has_caret(bytes: &[u8]) -> bool
    ensures { result ≡ has_caret bytes.now }
{
    bytes.iter().any(|byte| *byte == b'^')
}

// Whether the bytes spell one expression.
fn is_expression(alloc: Global, bytes: &[u8]) -> Result<bool, AllocError>
    ensures { IfOk result (λ is. is ≡ true → IsExpression bytes.now) }
{
    if ends_in_blank(bytes) {
        return Ok(false);
    }
    let front = front_of(alloc, bytes)?;
    if !is_alone(alloc, &front)? {
        return Ok(false);
    }
    let line = line_of(alloc, bytes)?;
    let is = is_condition(alloc, &line)?;
    Ok(is)
}

// Whether the bytes end in a blank.
fn ends_in_blank(bytes: &[u8]) -> bool
    ensures { result ≡ ends_in_blank bytes.now }
{
    match bytes.last() {
        None => false,
        Some(byte) => *byte == b' ' || *byte == b'\t',
    }
}

// The line that judges an expression, up to the end of that.
fn front_of(alloc: Global, expression: &[u8]) -> Result<Vec<u8>, AllocError>
    ensures { IfOk result (λ bytes. bytes.items ≡ front_line expression.now) }
{
    let mut bytes = Vec::new(alloc);
    bytes.extend_from_slice(b" IF ")?;
    bytes.extend_from_slice(expression)?;
    Ok(bytes)
}

// The line that judges an expression.
fn line_of(alloc: Global, expression: &[u8]) -> Result<Vec<u8>, AllocError>
    ensures { IfOk result (λ bytes. bytes.items ≡ condition_line expression.now) }
{
    let mut bytes = Vec::new(alloc);
    bytes.extend_from_slice(b" IF ")?;
    bytes.extend_from_slice(expression)?;
    bytes.extend_from_slice(b" WRITE 1")?;
    Ok(bytes)
}

// Where the job that judges starts.
fn starts(alloc: Global) -> Result<Vec<Start>, AllocError>
    ensures { IfOk result (λ starts. starts.items ≡ judge_start ∷ []) }
{
    let routine = match Text::from(alloc, NAME) {
        Ok(routine) => routine,
        Err(Failure::Memory) => return Err(AllocError),
        Err(Failure::Fault(_)) => unreachable!(),
    };
    let entry = Entry {
        label: None,
        routine,
    };
    let mut starts = Vec::new(alloc);
    starts.reserve(1)?;
    starts.push_reserved(Start::new(entry, Vec::new(alloc)));
    Ok(starts)
}

// Whether the line is read as IF with one expression alone. Blanks and a comment may end it.
fn is_alone(alloc: Global, bytes: &[u8]) -> Result<bool, AllocError>
    ensures { IfOk result (λ is. is ≡ true → IsReadSo bytes.now tests) }
{
    match mj_rou::read(alloc, NAME, bytes) {
        Ok(routine) => Ok(tests(&routine)),
        Err(LoadError::Memory) => Err(AllocError),
        Err(_) => Ok(false),
    }
}

// Whether the line is read as IF with one expression, and WRITE behind it.
fn is_condition(alloc: Global, bytes: &[u8]) -> Result<bool, AllocError>
    ensures { IfOk result (λ is. is ≡ true → IsReadSo bytes.now judges) }
{
    match mj_rou::read(alloc, NAME, bytes) {
        Ok(routine) => Ok(judges(&routine)),
        Err(LoadError::Memory) => Err(AllocError),
        Err(_) => Ok(false),
    }
}

// Whether the routine is one line that has the IF alone.
fn tests(routine: &Routine) -> bool
    ensures { result ≡ tests (routine_of routine.now) }
{
    match routine.lines.as_slice() {
        [line] => line_tests(line),
        _ => false,
    }
}

// Whether the routine is one line that judges.
fn judges(routine: &Routine) -> bool
    ensures { result ≡ judges (routine_of routine.now) }
{
    match routine.lines.as_slice() {
        [line] => line_judges(line),
        _ => false,
    }
}

// Whether the line is IF with one expression.
fn line_tests(line: &Line) -> bool
    ensures { result ≡ line_tests (tree_of line.now) }
{
    match line.steps.as_slice() {
        [step] => step_tests(step),
        _ => false,
    }
}

// Whether the line is IF with one expression, and one WRITE of one argument.
fn line_judges(line: &Line) -> bool
    ensures { result ≡ line_judges (tree_of line.now) }
{
    match line.steps.as_slice() {
        [first, second] => step_tests(first) && step_writes(second),
        _ => false,
    }
}

// Whether the command is IF with one expression, without a condition of its own.
fn step_tests(step: &LineCommand) -> bool
    ensures { result ≡ step_tests (step_of step.now) }
{
    is_plain(step) && is_single_if(&step.command)
}

// Whether the command is WRITE with one argument, without a condition of its own.
fn step_writes(step: &LineCommand) -> bool
    ensures { result ≡ step_writes (step_of step.now) }
{
    is_plain(step) && is_single_write(&step.command)
}

// Whether the command has no condition of its own.
fn is_plain(step: &LineCommand) -> bool
    ensures { result ≡ is_plain (step_of step.now) }
{
    match &step.condition {
        None => true,
        Some(_) => false,
    }
}

// Whether the command is IF with one expression.
fn is_single_if(command: &Command) -> bool
    ensures { result ≡ is_single_if (command_of command.now) }
{
    match command {
        Command::If(conditions) => conditions.len() == 1,
        _ => false,
    }
}

// Whether the command is WRITE with one argument.
fn is_single_write(command: &Command) -> bool
    ensures { result ≡ is_single_write (command_of command.now) }
{
    match command {
        Command::Write(outputs) => outputs.len() == 1,
        _ => false,
    }
}

/// What an expression comes to over the globals that a run left, by its script: by how the job that judges ends, and by what it wrote. None where that doesn't
/// end, or where it is the device that fails to which it writes: so an expression, which asks no device, comes to nothing.
pub fn verdict_over(
    alloc: Global,
    condition: &Script,
    globals: &Globals,
) -> Result<Option<Verdict>, AllocError>
    ensures { IfOk result (λ judged. IfSome judged (IsJudged condition.now (opening_in condition.now globals.now.content))) }
{
    // a run leaves no others, which is seen here once more
    if !all_global(globals)? {
        return Ok(None);
    }
    judge(alloc, condition, globals)
}

// Whether there are names of globals alone.
fn all_global(globals: &Globals) -> Result<bool, AllocError>
    ensures { IfOk result (λ are. are ≡ are_global globals.now.content) }
{
    let nodes = globals.nodes()?;
    Ok(nodes.iter().all(|node| node.0.is_global()))
}

// Runs the job that judges, over these globals.
fn judge(
    alloc: Global,
    condition: &Script,
    globals: &Globals,
) -> Result<Option<Verdict>, AllocError>
    requires { are_global globals.now.content ≡ true }
    ensures { IfOk result (λ judged. IfSome judged (IsJudged condition.now (opening_in condition.now globals.now.content))) }
{
    judged::<Brand>(alloc, condition, globals)
}

// Runs the job that judges.
fn judged<O: Opening>(
    alloc: Global,
    condition: &Script,
    globals: &Globals,
) -> Result<Option<Verdict>, AllocError>
    requires opening { opening_in condition.now globals.now.content ≡ O.opening }
    requires global { are_global globals.now.content ≡ true }
    ensures { IfOk result (λ judged. IfSome judged (IsJudged condition.now O.opening)) }
{
    let mut jobs = begin::<O>(alloc, condition, globals)?;
    judged_by(alloc, &mut jobs)
}

// Has the job that judges run to its end, and tells what the expression comes to by what that leaves.
fn judged_by<O: Opening>(
    alloc: Global,
    jobs: &mut Jobs<Memory, Sessions<Memory>, O>,
) -> Result<Option<Verdict>, AllocError>
    ensures steps { AreSteps by_memory O.opening jobs.old jobs.new }
    ensures shown { IfOk result (λ judged. IfSome judged (ShowsVerdict O.opening jobs.new)) }
{
    let ending = jobs.in_turn(STEPS);
    if is_for_memory(ending) {
        return Err(AllocError);
    }
    let _run = jobs.core.len(); // for the proof
    if !is_over(&jobs.core) {
        return Ok(None);
    }
    let fault = fault_in(&jobs.core);
    let output = jobs.core.out(1, &Text::from_number(alloc, 0), 1)?;
    let verdict = verdict_by(fault, is_one(&output));
    if is_of_device(verdict) {
        return Ok(None);
    }
    Ok(Some(verdict))
}

// Whether it comes to a fault of the device to which the job that judges writes.
fn is_of_device(verdict: Verdict) -> bool
    ensures { result ≡ is_of_device verdict }
{
    matches!(verdict, Verdict::Faults(Fault::Device))
}

// What an expression comes to, by the fault by which the job that judges ended, if there is one, and by whether it wrote 1.
fn verdict_by(fault: Option<Fault>, is: bool) -> Verdict
    ensures { result ≡ verdict_by fault is }
{
    match fault {
        Some(fault) => Verdict::Faults(fault),
        None => { if is { Verdict::Holds } else { Verdict::Untrue } }
    }
}

// Whether these bytes are the digit 1.
fn is_one(bytes: &[u8]) -> bool
    ensures { result ≡ bytes_eq bytes.now (codes "1") }
{
    bytes == b"1".as_slice()
}
