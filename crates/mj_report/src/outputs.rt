// What is printed of jobs.

ghost use Rattle.std.specs.Prelude.{◌≡◌, IfOk};
ghost use Rattle.mj_dev.specs.Shelves.{principal};
ghost use Rattle.mj_core.specs.Runs.{out_of};
ghost use Rattle.mj_report.specs.Printed.{printed, parts};

use crate::history::Events;
use crate::part::put_part;
use mj_text::Text;
use std::alloc::{AllocError, Global};

/// What the principal sessions of so many jobs took, as it is printed.
pub fn printed<H: Events>(alloc: Global, told: &H, jobs: u32) -> Result<Vec<u8>, AllocError>
    ensures { IfOk result (λ bytes. bytes.items ≡ printed (λ job. out_of (H.history told.now) job principal 1) jobs) }
{
    if jobs == 1 {
        taken(alloc, told, 1)
    } else {
        parts(alloc, told, jobs)
    }
}

// What several jobs wrote, each behind its number.
fn parts<H: Events>(alloc: Global, told: &H, jobs: u32) -> Result<Vec<u8>, AllocError>
    ensures { IfOk result (λ bytes. bytes.items ≡ parts (λ job. out_of (H.history told.now) job principal 1) jobs) }
{
    let mut bytes = Vec::new(alloc);
    'jobs: for done in 0..jobs {
        let output = taken(alloc, told, done + 1)?;
        put_part(&mut bytes, done + 1, &output)?;
    }
    Ok(bytes)
}

// What the principal session of a job took.
fn taken<H: Events>(alloc: Global, told: &H, job: u32) -> Result<Vec<u8>, AllocError>
    ensures { IfOk result (λ bytes. bytes.items ≡ out_of (H.history told.now) job principal 1) }
{
    told.taken_by(alloc, job, &Text::from_number(alloc, 0), 1)
}
