// A view.

ghost use Rattle.std.specs.Prelude.{◌≡◌, ◌++◌, ◌∷◌, [], option_map, IfOk, OnOk, OnErr};
ghost use Rattle.mj_frames.specs.Frames.{frames_of};
ghost use Rattle.mj_views.specs.Parts.{stand_of};
ghost use Rattle.mj_views.specs.Views.{job_in, frames_seen, locals_seen};

use crate::copies::{copy_frames, copy_locals};
use mj_frames::Frame;
use mj_globs::Globals;
use mj_locals::Locals;
use mj_locktab::LockTable;
use std::alloc::{AllocError, Global};
use std::marker::Model;

/// What stands at a place: the committed globals, the table of locks, and of each job its frames and its locals.
#[derive(Drop)]
pub struct View {
    globals: Globals,
    locks: LockTable,
    // by their numbers, from 1
    jobs: Vec<Standing>,
}

// A job as it stands.
#[derive(Drop)]
struct Standing {
    frames: Vec<Frame>,
    locals: Locals,
}

impl Model for View {
    ghost use Rattle.mj_views.specs.Views.{Viewed};

    ghost Value = { Viewed };

    ghost use Rattle.mj_views.specs.Parts.{viewed};

    ghost view = { viewed };
}

impl View {
    /// A view with these globals and locks, and no job.
    pub fn of(globals: &Globals, locks: &LockTable) -> Result<View, AllocError>
        ensures { IfOk result (λ view. view ≡ record { globals = globals.now.content; locks = locks.now.holds; jobs = [] }) }
    {
        let jobs = Vec::new(globals.allocator());
        let globals = globals.try_clone()?;
        let locks = locks.try_clone()?;
        Ok(View {
            globals,
            locks,
            jobs,
        })
    }

    /// Adds the next job, with these frames and locals.
    pub fn add_job(&mut self, frames: &[Frame], locals: &Locals) -> Result<(), AllocError>
        ensures ok { OnOk result
            (self.new ≡ record self.old { jobs = self.old.jobs ++ record { frames = frames_of frames.now; locals = locals.now.now } ∷ [] }) }
        ensures err { OnErr result (self.new ≡ self.old) }
    {
        self.jobs.reserve(1)?;
        let standing = copy_job(*self.jobs.allocator(), frames, locals)?;
        self.jobs.push_reserved(standing);
        Ok(())
    }

    /// The committed globals.
    pub fn globals(&self) -> &Globals
        ensures { result.now.content ≡ self.now.globals }
    {
        &self.globals
    }

    /// Who holds which names.
    pub fn locks(&self) -> &LockTable
        ensures { result.now.holds ≡ self.now.locks }
    {
        &self.locks
    }

    /// The frames of the job of this number, the outermost first. None where there is no such job.
    pub fn frames(&self, job: u32) -> Option<&[Frame]>
        ensures { option_map (λ frames. frames_of frames.now) result ≡ frames_seen (job_in self.now job) }
    {
        let standing = self.standing(job)?;
        Some(&standing.frames)
    }

    /// The locals of the job of this number. None where there is no such job.
    pub fn locals(&self, job: u32) -> Option<&Locals>
        ensures { option_map (λ locals. locals.now.now) result ≡ locals_seen (job_in self.now job) }
    {
        let standing = self.standing(job)?;
        Some(&standing.locals)
    }

    // The job of this number.
    fn standing(&self, job: u32) -> Option<&Standing>
        ensures { option_map (λ standing. stand_of standing.now) result ≡ job_in self.now job }
    {
        let at = (job as usize).checked_sub(1)?;
        let standing = self.jobs.get(at)?;
        Some(standing)
    }
}

// Copies a job's frames and locals.
fn copy_job(alloc: Global, frames: &[Frame], locals: &Locals) -> Result<Standing, AllocError>
    ensures frames { IfOk result (λ job. frames_of job.frames.items ≡ frames_of frames.now) }
    ensures locals { IfOk result (λ job. job.locals.now ≡ locals.now.now) }
{
    let frames = copy_frames(alloc, frames)?;
    let locals = copy_locals(alloc, locals)?;
    Ok(Standing { frames, locals })
}
