// The routines of the command line.

ghost use Rattle.std.specs.Prelude.{◌≡◌, ◌<◌, IfOk};
ghost use Rattle.mj_rou.specs.Words.{Each, IsRoutineWorded};
ghost use Rattle.mj_load.specs.Image.{IsWithinLimits, routines_of};
ghost use Rattle.mj_begin.specs.Names.{name_at};
ghost use Rattle.mj_begin.specs.Words.{WasRead, WereRead};

use crate::files::{routine_bytes, routine_name};
use mj_ast::Routine;
use mj_drafts::{ProgramError, Word};
use mj_load::{Image, load};
use mj_rou::has_words;
use mj_text::Limit;
use std::rt::Files;

/// Reads the routines of these files in order, and loads them, where texts have this limit, and runs so many events at most. The first that is refused ends it.
pub fn loaded<'a, R: Files + AllocGlobal>(
    rt: &R,
    files: &[&'a str],
    limit: Limit,
    events: u32,
) -> Result<Image, ProgramError<'a>>
    requires some { 0 < events }
    ensures read { IfOk result (λ image. WereRead files.now image.routines) }
    ensures worded { IfOk result (λ image. Each IsRoutineWorded (routines_of image)) }
    ensures limit { IfOk result (λ image. image.bounds.limit ≡ limit) }
    ensures events { IfOk result (λ image. image.bounds.events ≡ events) }
{
    has_words();
    let mut routines = Vec::new(rt.alloc());
    for file in files {
        let routine = routine_of(rt, *file)?;
        if routines.push(routine).is_err() {
            return Err(ProgramError::Memory);
        }
    }
    match load(rt.alloc(), routines, limit) {
        Ok(image) => Ok(image.with_events(events)),
        Err(mj_load::LoadError::Memory { .. }) => Err(ProgramError::Memory),
        Err(mj_load::LoadError::Twice { name }) => Err(ProgramError::Twice(Word { name })),
    }
}

// The routine of a file. That the file can be read comes before what its name is.
fn routine_of<'a, R: Files + AllocGlobal>(
    rt: &R,
    file: &'a str,
) -> Result<Routine, ProgramError<'a>>
    ensures within { IfOk result IsWithinLimits }
    ensures read { IfOk result WasRead }
    ensures named { IfOk result (λ routine. routine.name ≡ name_at file.now) }
{
    let bytes = routine_bytes(rt, file)?;
    let name = routine_name(rt.alloc(), file)?;
    match mj_rou::read(rt.alloc(), &name, &bytes) {
        Ok(routine) => Ok(routine),
        Err(mj_rou::LoadError::Name) => Err(ProgramError::Name(file)),
        Err(mj_rou::LoadError::Memory) => Err(ProgramError::Memory),
        Err(refusal) => Err(ProgramError::Routine(refusal)),
    }
}
