// A file of steps.

ghost use Rattle.std.specs.Prelude.{IfOk, IfErr};
ghost use Rattle.mj_steps.specs.Steps.{AreSpelled, IsStepsFileRefused};

use crate::line::{first_line, step_of};
use crate::step::Step;
use std::alloc::{AllocError, Global};
use thiserror::Error;

/// Why a file gives no steps.
#[derive(Debug, Drop, Error)]
pub enum StepsError {
    /// the first line that spells no step; lines count from 1
    #[error("S1 line {line}")]
    Line { line: usize },
    /// an allocation was refused
    #[error("memory")]
    Memory,
}

impl From<AllocError> for StepsError {
    fn from(_error: AllocError) -> StepsError {
        StepsError::Memory
    }
}

/// Reads the steps of a file.
pub fn read(alloc: Global, bytes: &[u8]) -> Result<Vec<Step>, StepsError>
    ensures read { IfOk result (λ steps. AreSpelled bytes.now steps.items) }
    ensures refused { IfErr result (λ error. IsStepsFileRefused bytes.now error) }
{
    let mut steps = Vec::new(alloc);
    let mut rest = bytes;
    'lines: while let Some((line, behind)) = first_line(rest) {
        let Some(step) = step_of(line) else {
            return Err(StepsError::Line {
                line: steps.len() + 1,
            });
        };
        if steps.push(step).is_err() {
            return Err(StepsError::Memory);
        }
        rest = behind;
    }
    Ok(steps)
}
