// The lines of a file of steps.

ghost use Rattle.std.specs.Prelude.{◌≡◌, ◌<◌, ◌∷◌, ◌↔◌, [], ℕ, Some, IsTrue, decimal, length, position, IfSome, IfNone, MatchOption};
ghost use Rattle.mj_steps.specs.Steps.{is_line_end, lines_of, line_of, IsJob, IsStep};
ghost use Rattle.mj_steps.specs.declared.step.Step.{Step as StepOf};

use crate::step::{Step, Way};
use itoa::Buffer;
use std::str;

/// The first line of what is left of a file, without its end, and what follows it.
pub fn first_line(bytes: &[u8]) -> Option<(&[u8], &[u8])>
    ensures lines { MatchOption result (bytes.now ≡ []) (λ x. lines_of bytes.now ≡ x.0.now ∷ lines_of x.1.now) }
    ensures shorter { IfSome result (λ x. length x.1.now < length bytes.now) }
{
    if bytes.is_empty() {
        return None;
    }
    match line_end(bytes) {
        None => Some((bytes, &bytes[bytes.len()..])),
        Some(end) => Some((&bytes[..end], &bytes[end + 1..])),
    }
}

// Where the first byte is that ends a line.
fn line_end(bytes: &[u8]) -> Option<usize>
    ensures { result ≡ position is_line_end bytes.now }
{
    bytes.iter().position(|byte| *byte == b'\n')
}

/// The step that a line spells.
pub fn step_of(line: &[u8]) -> Option<Step>
    ensures some { IfSome result (λ step. IsStep step × (line.now ≡ line_of step)) }
    ensures none { IfNone result ((step : StepOf) → IsStep step → ¬ (line.now ≡ line_of step)) }
{
    match line.strip_suffix(b" late") {
        Some(number) => {
            let Some(job) = job_of(number) else {
                return None;
            };
            Some(Step {
                job,
                way: Way::Late,
            })
        }
        None => {
            let Some(job) = job_of(line) else {
                return None;
            };
            Some(Step { job, way: Way::Go })
        }
    }
}

/// The number of a job, from 1 to [`JOBS_LIMIT`](crate::JOBS_LIMIT), that is spelled so: what it is read as must be spelled so again.
pub fn job_of(digits: &[u8]) -> Option<u32>
    ensures some { IfSome result (λ job. IsJob job × (digits.now ≡ decimal job)) }
    ensures none { IfNone result ((job : ℕ) → IsJob job → ¬ (digits.now ≡ decimal job)) }
{
    let Some(job) = number(digits) else {
        return None;
    };
    if job == 0 || !is_spelled(job, digits) {
        return None;
    }
    Some(u32::from(job))
}

// What some bytes are read as.
fn number(digits: &[u8]) -> Option<u8>
    ensures { (job : ℕ) → job < 256 → digits.now ≡ decimal job → result ≡ Some job }
{
    let Ok(text) = str::from_utf8(digits) else {
        return None;
    };
    match text.parse() {
        Ok(job) => Some(job),
        Err(_) => None,
    }
}

// Whether the number is spelled so.
fn is_spelled(job: u8, digits: &[u8]) -> bool
    ensures { IsTrue result ↔ (digits.now ≡ decimal job) }
{
    let mut buffer = Buffer::new();
    buffer.format(job).as_bytes() == digits
}
