// What is printed of runs by chance.

ghost use Rattle.std.specs.Prelude.{◌≡◌, ◌≤◌, ◌++◌, IfOk, IfNone, IfSome, OnOk, length, option_map};
ghost use Rattle.std.specs.String.{string_bytes};
ghost use Rattle.mj_search.specs.Printed.{counts_lines, faulty_line, faults_line, found_line, goal_word, is_untroubled, plain_line, refusal_by};
ghost use Rattle.mj_search.specs.Printed.{refusal_line, refusal_lines, refusal_of, runs_line, tally_hint, tally_line, tally_lines};
ghost use Rattle.mj_search.specs.Statuses.{found_status};

use mj_explore::{Explored, Finding, Tally};
use mj_text::Fault;
use std::alloc::{AllocError, Global};

// The exit status where a run shows what is looked for.
const FOUND: u8 = 1;

/// What is printed of the runs, and the exit status: how many there were, how many different ends they had, and how many came to what; and behind that, where
/// one showed what is looked for, which it was, how many steps are found to show it, and the fault of the expression, if it is found by one.
pub fn explored_text(
    alloc: Global,
    explored: &Explored,
    until: Option<&str>,
) -> Result<(Vec<u8>, u8), AllocError>
    ensures none { IfOk result (λ told. IfNone explored.now.found (told.0.items
        ≡ counts_lines explored.now.runs (length explored.now.ends.items) explored.now.tally)) }
    ensures some { IfOk result (λ told. IfSome explored.now.found (λ found. told.0.items
        ≡ counts_lines explored.now.runs (length explored.now.ends.items) explored.now.tally
        ++ found_line (goal_word (option_map (λ word. word.now) until.entry)) found.finding explored.now.runs (length found.steps.items))) }
    ensures which { IfOk result (λ told. told.1 ≡ found_status explored.now.found) }
    ensures bound { IfOk result (λ told. told.1 ≤ 1) }
{
    let mut text = counts(alloc, explored)?;
    let Some(found) = &explored.found else {
        return Ok((text, 0));
    };
    let line = found_line(
        alloc,
        word_of(until),
        found.finding,
        explored.runs,
        found.steps.len(),
    )?;
    text.extend_from_slice(line.as_bytes())?;
    Ok((text, FOUND))
}

// The lines on how many runs there were, and what they came to.
fn counts(alloc: Global, explored: &Explored) -> Result<Vec<u8>, AllocError>
    ensures { IfOk result (λ text. text.items ≡ counts_lines explored.now.runs (length explored.now.ends.items) explored.now.tally) }
{
    let mut text = Vec::new(alloc);
    let line = runs_line(alloc, explored.runs, explored.ends.len())?;
    text.extend_from_slice(line.as_bytes())?;
    put_tally(alloc, &mut text, explored.tally)?;
    Ok(text)
}

// Puts how many runs came to what to the end of a text, where some came to one of these.
fn put_tally(alloc: Global, text: &mut Vec<u8>, tally: Tally) -> Result<(), AllocError>
    ensures { OnOk result (text.new.items ≡ text.old.items ++ tally_lines tally) }
{
    if is_untroubled(tally) {
        return Ok(());
    }
    let line = tally_line(alloc, tally)?;
    text.extend_from_slice(line.as_bytes())
}

// Whether in no run a job faulted, and none got stuck or was stopped.
fn is_untroubled(tally: Tally) -> bool
    ensures { result ≡ is_untroubled tally }
{
    tally.faulted == 0 && tally.stuck == 0 && tally.stopped == 0
}

// The line on how many runs there were, and how many different ends they had.
fn runs_line(alloc: Global, runs: u32, ends: usize) -> Result<String, AllocError>
    ensures { IfOk result (λ line. string_bytes line ≡ runs_line runs ends) }
{
    let line = format!(in alloc; "runs {runs}, ends {ends}\n")?;
    Ok(line)
}

// The line on how many came to what.
fn tally_line(alloc: Global, tally: Tally) -> Result<String, AllocError>
    ensures { IfOk result (λ line. string_bytes line ≡ tally_line tally) }
{
    let Tally {
        faulted,
        stuck,
        stopped,
    } = tally;
    let line = format!(in alloc; "faulted {faulted}, stuck {stuck}, stopped {stopped}\n")?;
    Ok(line)
}

// The line on what the last run showed, and how many steps show it, in this way.
fn found_line(
    alloc: Global,
    what: &str,
    finding: Finding,
    run: u32,
    steps: usize,
) -> Result<String, AllocError>
    ensures { IfOk result (λ line. string_bytes line ≡ found_line what.now finding run steps) }
{
    match finding {
        Finding::Sought => plain_line(alloc, what, run, steps),
        Finding::Faulty(fault) => faulty_line(alloc, what, fault.name(), run, steps),
    }
}

// The line on what the last run showed, and how many steps show it.
fn plain_line(alloc: Global, what: &str, run: u32, steps: usize) -> Result<String, AllocError>
    ensures { IfOk result (λ line. string_bytes line ≡ plain_line what.now run steps) }
{
    let line = format!(in alloc; "{what} in run {run}, steps {steps}\n")?;
    Ok(line)
}

// The same, with the name of the fault of an expression.
fn faulty_line(
    alloc: Global,
    what: &str,
    name: &str,
    run: u32,
    steps: usize,
) -> Result<String, AllocError>
    ensures { IfOk result (λ line. string_bytes line ≡ faulty_line what.now name.now run steps) }
{
    let line = format!(in alloc; "{what} in run {run}, steps {steps}, by {name}\n")?;
    Ok(line)
}

// The word for what was found.
fn word_of<'a>(until: Option<&'a str>) -> &'a str
    ensures { result.now ≡ goal_word (option_map (λ word. word.now) until.entry) }
{
    match until {
        Some(word) if matches!(word, "fault" | "stuck" | "clash") => word,
        _ => "untrue",
    }
}

/// The fault for which the expression is refused, if it is: over the globals that the first run left it faults.
pub fn refusal_of(explored: &Explored) -> Option<Fault>
    ensures { result ≡ refusal_of explored.now.runs explored.now.found }
{
    match &explored.found {
        Some(found) => refusal_by(explored.runs, found.finding),
        None => None,
    }
}

// The one for which it is refused that is found so.
fn refusal_by(runs: u32, finding: Finding) -> Option<Fault>
    ensures { result ≡ refusal_by runs finding }
{
    match finding {
        Finding::Faulty(fault) if runs == 1 => Some(fault),
        _ => None,
    }
}

/// What stands behind the line that refuses an expression: by which fault it is, and what the first run came to, where a job's own fault may be the cause.
pub fn refusal_text(alloc: Global, fault: Fault, tally: Tally) -> Result<Vec<u8>, AllocError>
    ensures { IfOk result (λ text. text.items ≡ refusal_lines fault tally) }
{
    let mut text = Vec::new(alloc);
    let line = refusal_line(alloc, fault)?;
    text.extend_from_slice(line.as_bytes())?;
    put_hint(alloc, &mut text, tally)?;
    Ok(text)
}

// Puts what the first run came to behind four blanks to the end of a text, where a job faulted in it, or it got stuck or was stopped.
fn put_hint(alloc: Global, text: &mut Vec<u8>, tally: Tally) -> Result<(), AllocError>
    ensures { OnOk result (text.new.items ≡ text.old.items ++ tally_hint tally) }
{
    if is_untroubled(tally) {
        return Ok(());
    }
    text.extend_from_slice(b"    ")?;
    put_tally(alloc, text, tally)
}

// The line on the fault by which an expression is refused.
fn refusal_line(alloc: Global, fault: Fault) -> Result<String, AllocError>
    ensures { IfOk result (λ line. string_bytes line ≡ refusal_line fault) }
{
    faults_line(alloc, fault.name())
}

// The same, with the name of the fault.
fn faults_line(alloc: Global, name: &str) -> Result<String, AllocError>
    ensures { IfOk result (λ line. string_bytes line ≡ faults_line name.now) }
{
    let line = format!(in alloc;
        "    the expression faults over the globals that the first run left: {name}\n"
    )?;
    Ok(line)
}
