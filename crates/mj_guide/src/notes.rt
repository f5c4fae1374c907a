// What a debugger keeps between its requests.

ghost use Rattle.std.specs.Prelude.{◌≡◌, ◌<◌, ◌++◌, ◌∷◌, [], IfOk, OnOk, vec_capacity, vec_len};
ghost use Rattle.std.specs.List.{list_any};
ghost use Rattle.mj_subs.specs.Name.{names_eq};
ghost use Rattle.mj_steps.specs.Steps.{line_of};
ghost use Rattle.mj_inspect.specs.Listed.{or_nothing};
ghost use Rattle.mj_guide.specs.Notes.{kept, kept_of, kept_in_turn, is_kept, steps_bytes, watched_lines, with_name, without_name};

use itoa::Buffer;
use mj_ask::Start;
use mj_core::Seen;
use mj_debug::{Gone, WalkRefusal};
use mj_gfile::put_name;
use mj_inspect::or_nothing;
use mj_steps::{Step, Way};
use mj_subs::Name;
use std::alloc::{AllocError, Global};

/// How the first jobs start; the steps that did something, in order; and the names that are watched. A step that waited, or that found its job ended, did
/// nothing.
#[derive(Drop)]
pub struct Notes {
    pub starts: Vec<Start>,
    pub steps: Vec<Step>,
    pub watched: Vec<Name>,
}

impl Notes {
    /// Notes of jobs that start so, of which nothing was asked yet.
    pub fn new(alloc: Global, starts: Vec<Start>) -> Notes
        ensures starts { result.starts ≡ starts }
        ensures steps { result.steps.items ≡ [] }
        ensures watched { result.watched.items ≡ [] }
    {
        Notes {
            starts,
            steps: Vec::new(alloc),
            watched: Vec::new(alloc),
        }
    }
}

/// Whether a step did something: it made an event, or its job went on for all turns of a step.
pub fn did_something(seen: &Seen) -> bool
    ensures { result ≡ is_kept seen.now }
{
    matches!(seen, Seen::Event(_) | Seen::Ran)
}

// Notes a step, if it did something. There is room for it.
fn note(notes: &mut Notes, step: Step, seen: &Seen)
    requires { vec_len notes.old.steps < vec_capacity notes.old.steps }
    ensures steps { notes.new.steps.items ≡ notes.old.steps.items ++ kept step seen.now }
    ensures watched { notes.new.watched.items ≡ notes.old.watched.items }
    ensures starts { notes.new.starts.items ≡ notes.old.starts.items }
{
    if did_something(seen) {
        notes.steps.push_reserved(step);
    }
}

// Notes a step of which this came, if it did something. There is room for it.
pub fn note_step(notes: &mut Notes, step: Step, answer: &Result<Seen, WalkRefusal>)
    requires { vec_len notes.old.steps < vec_capacity notes.old.steps }
    ensures steps { notes.new.steps.items ≡ notes.old.steps.items ++ kept_of step answer.now }
    ensures watched { notes.new.watched.items ≡ notes.old.watched.items }
    ensures starts { notes.new.starts.items ≡ notes.old.starts.items }
{
    match answer {
        Ok(seen) => note(notes, step, seen),
        Err(_) => (),
    }
}

// Notes a step in turn, if one was made that did something. There is room for it.
pub fn note_turn(notes: &mut Notes, gone: &Gone)
    requires { vec_len notes.old.steps < vec_capacity notes.old.steps }
    ensures steps { notes.new.steps.items ≡ notes.old.steps.items ++ kept_in_turn gone.now }
    ensures watched { notes.new.watched.items ≡ notes.old.watched.items }
    ensures starts { notes.new.starts.items ≡ notes.old.starts.items }
{
    match gone {
        Gone::Step { job, answer } => match answer {
            Ok(seen) => {
                note(
                    notes,
                    Step {
                        job: *job,
                        way: Way::Go,
                    },
                    seen,
                );
            }
            Err(_) => (),
        },
        Gone::NotAtEnd | Gone::Over | Gone::At { .. } => (),
    }
}

/// Steps as the lines of a file of steps.
pub fn steps_text(alloc: Global, steps: &[Step]) -> Result<Vec<u8>, AllocError>
    ensures { IfOk result (λ bytes. bytes.items ≡ steps_bytes steps.now) }
{
    let mut bytes = Vec::new(alloc);
    for step in steps {
        put_step(&mut bytes, *step)?;
    }
    Ok(bytes)
}

// Puts the line of a step to the end.
fn put_step(bytes: &mut Vec<u8>, step: Step) -> Result<(), AllocError>
    ensures { OnOk result (bytes.new.items ≡ bytes.old.items ++ (line_of step ++ 10 ∷ [])) }
{
    bytes.extend_from_slice(Buffer::new().format(step.job).as_bytes())?;
    if step.way == Way::Late {
        bytes.extend_from_slice(b" late")?;
    }
    bytes.push(b'\n')?;
    Ok(())
}

// The names that are watched, a line each, or that there are none.
pub fn watched_text(alloc: Global, notes: &Notes) -> Result<Vec<u8>, AllocError>
    ensures { IfOk result (λ bytes. bytes.items ≡ or_nothing (watched_lines notes.now.watched.items)) }
{
    let lines = watched_lines(alloc, notes)?;
    or_nothing(alloc, lines)
}

// Their lines.
fn watched_lines(alloc: Global, notes: &Notes) -> Result<Vec<u8>, AllocError>
    ensures { IfOk result (λ bytes. bytes.items ≡ watched_lines notes.now.watched.items) }
{
    let mut bytes = Vec::new(alloc);
    for name in &notes.watched {
        put_name(&mut bytes, name)?;
        bytes.push(b'\n')?;
    }
    Ok(bytes)
}

// Puts a name to those that are watched, unless it is one of them.
pub fn add_name(watched: &mut Vec<Name>, name: &Name) -> Result<(), AllocError>
    ensures { OnOk result (watched.new.items ≡ with_name watched.old.items name.now) }
{
    if is_among(watched, name) {
        return Ok(());
    }
    let copy = name.try_clone()?;
    watched.push(copy)?;
    Ok(())
}

// Whether a name is one of these.
fn is_among(names: &[Name], name: &Name) -> bool
    ensures { result ≡ list_any (λ own. names_eq own name.now) names.now }
{
    names.iter().any(|own| *own == *name)
}

// Takes a name out of those that are watched.
pub fn take_name(watched: &mut Vec<Name>, name: &Name)
    ensures { watched.new.items ≡ without_name watched.old.items name.now }
{
    watched.retain(|own| *own != *name);
}
