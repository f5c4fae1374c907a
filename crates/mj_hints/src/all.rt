// All that is refused of a text.

ghost use Rattle.std.specs.Prelude.{◌≡◌, IfOk};
ghost use Rattle.mj_hints.specs.Refusals.{AreRefusals, IsRefusedFirst, line_emptied as the_line_emptied};

use crate::text::with_empty;
use mj_ast::ROUTINE_LIMIT;
use mj_rou::{LoadError, read};
use std::alloc::{AllocError, Global};

/// What is refused of the bytes of a routine's file, at most so many of its lines. Each is what is refused first of the bytes in which the lines that were
/// refused before are empty.
pub fn refusals(
    alloc: Global,
    name: &[u8],
    bytes: &[u8],
    most: usize,
) -> Result<Vec<LoadError>, AllocError>
    ensures { IfOk result (λ es. AreRefusals most name.now bytes.now es.items) }
{
    let mut refusals = Vec::new(alloc);
    let mut text = Vec::from_slice(alloc, bytes)?;
    let mut left = most;
    'lines: while left > 0 {
        let Some(refusal) = refused(alloc, name, &text)? else {
            return Ok(refusals);
        };
        let emptied = line_emptied(&refusal);
        refusals.push(refusal)?;
        let Some(line) = emptied else {
            return Ok(refusals);
        };
        text = with_empty(alloc, &text, line.saturating_sub(1))?;
        left -= 1;
    }
    Ok(refusals)
}

// What is refused first, if the bytes aren't a routine's.
fn refused(alloc: Global, name: &[u8], bytes: &[u8]) -> Result<Option<LoadError>, AllocError>
    ensures { IfOk result (λ e. IsRefusedFirst name.now bytes.now e) }
{
    match read(alloc, name, bytes) {
        Ok(routine) => {
            drop(routine);
            Ok(None)
        }
        Err(LoadError::Memory) => Err(AllocError),
        Err(refusal) => Ok(Some(refusal)),
    }
}

// The number of the line that is made empty behind a refusal.
fn line_emptied(refusal: &LoadError) -> Option<usize>
    ensures { result ≡ the_line_emptied refusal.now }
{
    match refusal {
        LoadError::Stuck { line, .. }
        | LoadError::Twice { line, .. }
        | LoadError::Long { line, .. }
        | LoadError::Deep { line, .. }
        | LoadError::LeftOut { line, .. } => {
            if *line <= ROUTINE_LIMIT {
                Some(*line)
            } else {
                None
            }
        }
        LoadError::Name | LoadError::Memory => None,
    }
}
