// What jobs of the tests begin with: the image of a single routine, `R`, and starts at its first line.

ghost use Rattle.std.specs.Prelude.{◌≡◌, [], true, IfOk, OnOk};
ghost use Rattle.mj_text.specs.declared.limit.Limit.TheVariants.{V2};
ghost use Rattle.mj_load.specs.Image.{IsWithinLimits};
ghost use Rattle.mj_sys.specs.Opening.{are_bare};

use mj_ask::{Entry, Start};
use mj_ast::Routine;
use mj_dev::{Memory, Pool};
use mj_load::{Image, load};
use mj_text::{Failure, Limit, Text};
use std::alloc::Global;

/// The image of the routine `R` alone, with the greater limit of texts.
pub fn image(alloc: Global, bytes: &str) -> Result<Image, Failure>
    ensures { IfOk result (λ image. image.bounds.limit ≡ V2) }
{
    let routine = routine(alloc, b"R", bytes)?;
    let mut routines = Vec::new(alloc);
    if let Err(failed) = routines.push(routine) {
        drop(failed);
        drop(routines);
        return Err(Failure::Memory);
    }
    match load(alloc, routines, Limit::V2) {
        Ok(image) => Ok(image),
        Err(refused) => {
            drop(refused);
            Err(Failure::Memory)
        }
    }
}

/// The routine of this name.
pub fn routine(alloc: Global, name: &[u8], bytes: &str) -> Result<Routine, Failure>
    ensures { IfOk result IsWithinLimits }
{
    match mj_rou::read(alloc, name, bytes.as_bytes()) {
        Ok(routine) => Ok(routine),
        Err(refused) => {
            drop(refused);
            Err(Failure::Memory)
        }
    }
}

/// As many starts at the first line of `R`.
pub fn starts(alloc: Global, count: usize) -> Result<Vec<Start>, Failure>
    ensures { IfOk result (λ starts. are_bare starts.items ≡ true) }
{
    let mut starts = Vec::new(alloc);
    match put_starts(alloc, &mut starts, count) {
        Ok(()) => Ok(starts),
        Err(failure) => {
            drop(starts);
            Err(failure)
        }
    }
}

#[tactic(auto, using(mj_sys::proofs::Bare::bare_more))]
fn put_starts(alloc: Global, starts: &mut Vec<Start>, count: usize) -> Result<(), Failure>
    requires { are_bare starts.old.items ≡ true }
    ensures { OnOk result (are_bare starts.new.items ≡ true) }
{
    for _ in 0..count {
        starts.push(start(alloc)?)?;
    }
    Ok(())
}

/// A start at the first line of `R`.
pub fn start(alloc: Global) -> Result<Start, Failure>
    ensures { IfOk result (λ start. start.values ≡ []) }
{
    start_at(alloc, "")
}

/// A start at each of these labels of `R`.
pub fn starts_at(alloc: Global, labels: &[&str]) -> Result<Vec<Start>, Failure>
    ensures { IfOk result (λ starts. are_bare starts.items ≡ true) }
{
    let mut starts = Vec::new(alloc);
    match put_starts_at(alloc, &mut starts, labels) {
        Ok(()) => Ok(starts),
        Err(failure) => {
            drop(starts);
            Err(failure)
        }
    }
}

#[tactic(auto, using(mj_sys::proofs::Bare::bare_more))]
fn put_starts_at(alloc: Global, starts: &mut Vec<Start>, labels: &[&str]) -> Result<(), Failure>
    requires { are_bare starts.old.items ≡ true }
    ensures { OnOk result (are_bare starts.new.items ≡ true) }
{
    for label in labels {
        starts.push(start_at(alloc, label)?)?;
    }
    Ok(())
}

// A start at a label of `R`, or at its first line where the label has no letter.
fn start_at(alloc: Global, label: &str) -> Result<Start, Failure>
    ensures { IfOk result (λ start. start.values ≡ []) }
{
    let routine = Text::from(alloc, b"R")?;
    match label_of(alloc, label) {
        Ok(label) => Ok(Start::new(Entry { label, routine }, Vec::new(alloc))),
        Err(failure) => {
            drop(routine);
            Err(failure)
        }
    }
}

fn label_of(alloc: Global, label: &str) -> Result<Option<Text>, Failure> {
    if label.is_empty() {
        return Ok(None);
    }
    Ok(Some(Text::from(alloc, label.as_bytes())?))
}

/// Adds a device in memory to a pool, without lines to read.
pub fn add(alloc: Global, pool: &mut Pool<Memory>, name: &Text) -> Result<(), Failure> {
    match pool.add(name, Memory::new(alloc, Vec::new(alloc))) {
        Ok(()) => Ok(()),
        Err(device) => {
            drop(device);
            Err(Failure::Memory)
        }
    }
}
