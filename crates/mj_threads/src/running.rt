// Jobs run from their beginning by workers.

ghost use Rattle.std.specs.Prelude.{◌≡◌, ◌≤◌, true, length, IfOk};
ghost use Rattle.std.specs.List.{All};
ghost use Rattle.mj_text.specs.declared.limit.Limit.TheVariants.{V2};
ghost use Rattle.mj_dev.specs.Shelves.{principal, left_of};
ghost use Rattle.mj_jobs.specs.Rows.{rows_limit};
ghost use Rattle.mj_sys.specs.Opening.{opening_of, are_bare};
ghost use Rattle.mj_sys.specs.Shared.{are_global};
ghost use Rattle.mj_work.specs.Working.{AreClaimed, workers_limit};

use crate::clock::{Idle, Seconds};
use mj_ask::Start;
use mj_dev::{Device, Pool};
use mj_globs::Globals;
use mj_load::Image;
use mj_sys::{Opening, System};
use mj_work::{Ended, run_workers};
use std::alloc::{AllocError, Global};
use std::rt::Clock;
use std::sync::Wait;
use std::thread::Threads;

/// Runs jobs from their beginning by so many workers, this thread one of them, until all have stopped, and gives what they leave. The other arguments are
/// those of `System::new`. Where memory is refused before a job runs, all is dropped.
///
/// Each row that is claimed comes back as one `Ran`, which ran in this image, whose limit is the greater one; and each row is claimed, unless a job stopped
/// for want of memory or since the history was full, or a claim was refused for want of memory.
pub fn run_together<'a, D: Device + Send, O: Opening + Send, R: Threads + Wait + Clock + Sync>(
    rt: &R,
    alloc: Global,
    n: u32,
    image: &'a Image,
    globals: Globals,
    pool: Pool<D>,
    starts: Vec<Start>,
) -> Result<Ended<'a, D, O>, AllocError>
    requires workers { (1 ≤ n) × (n ≤ workers_limit) }
    requires long { image.now.bounds.limit ≡ V2 }
    requires opening { opening_of globals.content pool starts.items ≡ O.opening }
    requires global { are_global globals.content ≡ true }
    requires some { 1 ≤ length starts.items }
    requires few { length starts.items ≤ rows_limit }
    requires fits { length starts.items ≤ left_of principal pool }
    requires bare { are_bare starts.items ≡ true }
    ensures rans { IfOk result (λ e. length e.rans.items ≡ e.system.claimed) }
    ensures within { IfOk result (λ e. length e.system.history ≤ image.now.bounds.events) }
    ensures images { IfOk result (λ e. All (λ r. r.image ≡ image.now) e.rans.items) }
    ensures claimed { IfOk result (λ e. AreClaimed O.opening e.system e.rans.items e.short) }
{
    match System::<D, O>::new(alloc, globals, pool, starts) {
        Ok(system) => run_all(rt, alloc, n, image, system),
        Err(back) => {
            drop(back);
            Err(AllocError)
        }
    }
}

// Runs the jobs of a system.
fn run_all<'a, D: Device + Send, O: Opening + Send, R: Threads + Wait + Clock + Sync>(
    rt: &R,
    alloc: Global,
    n: u32,
    image: &'a Image,
    system: System<D, O>,
) -> Result<Ended<'a, D, O>, AllocError>
    requires workers { (1 ≤ n) × (n ≤ workers_limit) }
    requires long { image.now.bounds.limit ≡ V2 }
    requires first { system.claimed ≡ 0 }
    requires empty { length system.history ≡ 0 }
    ensures rans { IfOk result (λ e. length e.rans.items ≡ e.system.claimed) }
    ensures within { IfOk result (λ e. length e.system.history ≤ image.now.bounds.events) }
    ensures images { IfOk result (λ e. All (λ r. r.image ≡ image.now) e.rans.items) }
    ensures claimed { IfOk result (λ e. AreClaimed O.opening e.system e.rans.items e.short) }
{
    let Ok(clock) = Seconds::new(rt, alloc) else {
        drop(system);
        return Err(AllocError);
    };
    let ran = run_workers(rt, alloc, n, system, image, &Idle, &clock);
    drop(clock);
    match ran {
        Ok(ended) => Ok(ended),
        Err(back) => {
            drop(back);
            Err(AllocError)
        }
    }
}
