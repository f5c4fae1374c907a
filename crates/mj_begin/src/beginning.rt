// What a run begins with: the starts, the devices, the steps, the routines and the globals.

ghost use Rattle.std.specs.Prelude.{◌≡◌, ◌≤◌, ◌∷◌, [], true, length, map, None, option_map, IfOk, IfSome};
ghost use Rattle.std.specs.List.{list_all};
ghost use Rattle.mj_text.specs.declared.limit.Limit.TheVariants.{V2};
ghost use Rattle.mj_ask.specs.Fitting.{is_content};
ghost use Rattle.mj_rou.specs.Words.{Each, IsRoutineWorded};
ghost use Rattle.mj_load.specs.Image.{routines_of};
ghost use Rattle.mj_dev.specs.Shelves.{AreRising, count_of, principal, left_of};
ghost use Rattle.mj_trace.specs.declared.form.Form.TheVariants.{Second};
ghost use Rattle.mj_trace.specs.Trace.{opening_text};
ghost use Rattle.mj_trace.specs.Sized.{device_count_fits};
ghost use Rattle.mj_recorded.specs.Traces.{entries_of};
ghost use Rattle.mj_files.specs.Named.{names_of, with_principals, with_devices};
ghost use Rattle.mj_jobs.specs.Rows.{rows_limit};
ghost use Rattle.mj_sys.specs.Opening.{are_bare};
ghost use Rattle.mj_sys.specs.Shared.{are_global};
ghost use Rattle.mj_replica.specs.Replicas.{AreWhole};
ghost use Rattle.mj_subs.specs.Name.{is_word};
ghost use Rattle.mj_replay.specs.Traces.{bare_start};
ghost use Rattle.mj_begin.specs.Names.{name_at};
ghost use Rattle.mj_begin.specs.Words.{WereRead, WereListed, WereStarts, WereBegun, WereSteps, WereGiven, AreDevices, IsPoolOf};

use crate::apart::written_apart;
use crate::files::{file_bytes, routine_name, whole};
use crate::listings::listed;
use crate::routines::loaded;
use mj_ask::{Entry, Start};
use mj_command_line::Run;
use mj_dev::{Device, Pool};
use mj_drafts::{Choice, Lockable, LockedFile, ProgramError, locked};
use mj_files::{Named, Port, pool_of, read_device};
use mj_globs::Globals;
use mj_jobs::ROWS_LIMIT;
use mj_load::Image;
use mj_report::{Trace, trace_of};
use mj_steps::{Step, StepsError};
use mj_text::{Limit, Text};
use std::alloc::Global;
use std::io::Read;
use std::rt::Files;

/// What a run begins with. Its texts have the greater limit.
#[derive(Drop)]
pub struct Beginning<D: Device> {
    pub steps: Option<Vec<Step>>,
    pub image: Image,
    pub globals: Globals,
    pub pool: Pool<D>,
    pub starts: Vec<Start>,
    ghost long: { image.bounds.limit ≡ V2 },
    ghost global: { are_global globals.content ≡ true },
    ghost content: { is_content globals.content ≡ true },
    ghost bare: { are_bare starts.items ≡ true },
    ghost some: { 1 ≤ length starts.items },
    ghost few: { length starts.items ≤ rows_limit },
    ghost fits: { length starts.items ≤ left_of principal pool },
}

/// What was readied for what a run leaves.
#[derive(Drop)]
pub struct Outlet<'a, F> {
    /// what keeps the file to which the globals go locked, where there was one
    pub lock: Option<LockedFile<F>>,
    /// the trace, where a file is named for it
    pub trace: Option<Trace<'a>>,
}

/// What a run begins with, over the devices of the program, and what was readied for its end.
pub type Begun<'a, R> = (Beginning<Port<R>>, Outlet<'a, <R as Files>::File>);

/// Reads all that a run begins with. The first that is refused ends it. Nothing was taken of its pool. There is a trace exactly where a file is named for it.
pub fn begin<'a, R: Files + AllocGlobal + Copy + Drop, I: Read>(
    rt: R,
    order: &Run<'a>,
    input: &mut I,
) -> Result<Begun<'a, R>, ProgramError<'a>>
where
    R::File: Lockable,
    ensures given { IfOk result (λ b. WereGiven order.now b.0.starts.items b.0.pool b.0.image b.0.globals.content b.0.steps) }
    ensures worded { IfOk result (λ b. Each IsRoutineWorded (routines_of b.0.image)) }
    ensures whole { IfOk result (λ b. AreWhole b.0.pool) }
    ensures text { IfOk result (λ b. IfSome b.1.trace (λ t. t.opening.items ≡ opening_text (Second V2) (map count_of b.0.pool) (entries_of b.0.starts.items))) }
    ensures sized { IfOk result (λ b. IfSome b.1.trace (λ t. list_all device_count_fits (map count_of b.0.pool) ≡ true)) }
    ensures rising { IfOk result (λ b. IfSome b.1.trace (λ t. AreRising b.0.pool)) }
    ensures traced { IfOk result (λ b. option_map (λ t. t.file.now) b.1.trace ≡ option_map (λ word. word.now) order.now.trace) }
{
    let starts = starts(rt.alloc(), &order.starts)?;
    match begin_at(rt, order, input) {
        Ok(rest) => match or_first(rt.alloc(), order, starts) {
            Ok(starts) => begun(rt.alloc(), order, starts, rest),
            Err(stop) => {
                drop(rest);
                Err(stop)
            }
        },
        Err(stop) => {
            drop(starts);
            Err(stop)
        }
    }
}

// What a run begins with, of what was read, with the head of its trace. That there is a start is what the command line asks for; it is looked at once more, so
// that it is known.
fn begun<'a, R: Files + AllocGlobal + Copy + Drop>(
    alloc: Global,
    order: &Run<'a>,
    starts: Vec<Start>,
    rest: (Option<Vec<Step>>, Stored<R>),
) -> Result<Begun<'a, R>, ProgramError<'a>>
    requires starts { WereBegun order.now.starts.items order.now.files.items starts.items }
    requires few { length starts.items ≤ rows_limit }
    requires routines { WereRead order.now.files.items rest.1.0.routines }
    requires worded { Each IsRoutineWorded (routines_of rest.1.0) }
    requires long { rest.1.0.bounds.limit ≡ V2 }
    requires events { rest.1.0.bounds.events ≡ order.now.events }
    requires listed { WereListed V2 order.now.globals rest.1.1.content }
    requires global { are_global rest.1.1.content ≡ true }
    requires content { is_content rest.1.1.content ≡ true }
    requires steps { WereSteps order.now.steps rest.0 }
    requires pool { IsPoolOf order.now.devices.items rest.1.2 }
    requires whole { AreWhole rest.1.2 }
    ensures given { IfOk result (λ b. WereGiven order.now b.0.starts.items b.0.pool b.0.image b.0.globals.content b.0.steps) }
    ensures worded { IfOk result (λ b. Each IsRoutineWorded (routines_of b.0.image)) }
    ensures whole { IfOk result (λ b. AreWhole b.0.pool) }
    ensures text { IfOk result (λ b. IfSome b.1.trace (λ t. t.opening.items ≡ opening_text (Second V2) (map count_of b.0.pool) (entries_of b.0.starts.items))) }
    ensures sized { IfOk result (λ b. IfSome b.1.trace (λ t. list_all device_count_fits (map count_of b.0.pool) ≡ true)) }
    ensures rising { IfOk result (λ b. IfSome b.1.trace (λ t. AreRising b.0.pool)) }
    ensures traced { IfOk result (λ b. option_map (λ t. t.file.now) b.1.trace ≡ option_map (λ word. word.now) order.now.trace) }
{
    let (steps, stored) = rest;
    let (image, globals, pool, lock) = stored;
    if !starts.is_empty()
        && let Ok(trace) = trace_of(alloc, order.trace, &pool, &starts)
    {
        let beginning = Beginning {
            steps,
            image,
            globals,
            pool,
            starts,
        };
        return Ok((beginning, Outlet { lock, trace }));
    }
    drop(steps);
    drop(image);
    drop(globals);
    drop(pool);
    drop(starts);
    drop(lock);
    Err(ProgramError::Memory)
}

// Reads the rest of what a run begins with.
fn begin_at<'a, R: Files + AllocGlobal + Copy + Drop, I: Read>(
    rt: R,
    order: &Run<'a>,
    input: &mut I,
) -> Result<(Option<Vec<Step>>, Stored<R>), ProgramError<'a>>
where
    R::File: Lockable,
    ensures routines { IfOk result (λ x. WereRead order.now.files.items x.1.0.routines) }
    ensures worded { IfOk result (λ x. Each IsRoutineWorded (routines_of x.1.0)) }
    ensures long { IfOk result (λ x. x.1.0.bounds.limit ≡ V2) }
    ensures events { IfOk result (λ x. x.1.0.bounds.events ≡ order.now.events) }
    ensures globals { IfOk result (λ x. WereListed V2 order.now.globals x.1.1.content) }
    ensures global { IfOk result (λ x. are_global x.1.1.content ≡ true) }
    ensures content { IfOk result (λ x. is_content x.1.1.content ≡ true) }
    ensures steps { IfOk result (λ x. WereSteps order.now.steps x.0) }
    ensures pool { IfOk result (λ x. IsPoolOf order.now.devices.items x.1.2) }
    ensures whole { IfOk result (λ x. AreWhole x.1.2) }
{
    let devices = devices(rt.alloc(), &order.devices)?;
    written_apart(&rt, order, &devices)?;
    let steps = steps(&rt, order.steps)?;
    match stored(rt, order, input, &devices) {
        Ok(stored) => Ok((steps, stored)),
        Err(stop) => {
            drop(steps);
            Err(stop)
        }
    }
}

// The routines, the globals, the devices, and the lock on the file to which the globals go.
type Stored<R> = (
    Image,
    Globals,
    Pool<Port<R>>,
    Option<LockedFile<<R as Files>::File>>,
);

// Reads the routines and the globals, and makes the devices. The file to which the globals go is locked before they are read.
fn stored<'a, R: Files + AllocGlobal + Copy + Drop, I: Read>(
    rt: R,
    order: &Run<'a>,
    input: &mut I,
    devices: &[Named<'a>],
) -> Result<Stored<R>, ProgramError<'a>>
where
    R::File: Lockable,
    ensures routines { IfOk result (λ x. WereRead order.now.files.items x.0.routines) }
    ensures worded { IfOk result (λ x. Each IsRoutineWorded (routines_of x.0)) }
    ensures long { IfOk result (λ x. x.0.bounds.limit ≡ V2) }
    ensures events { IfOk result (λ x. x.0.bounds.events ≡ order.now.events) }
    ensures globals { IfOk result (λ x. WereListed V2 order.now.globals x.1.content) }
    ensures global { IfOk result (λ x. are_global x.1.content ≡ true) }
    ensures content { IfOk result (λ x. is_content x.1.content ≡ true) }
    ensures pool { IfOk result (λ x. x.2 ≡ with_devices (names_of devices.now) (with_principals rows_limit)) }
    ensures whole { IfOk result (λ x. AreWhole x.2) }
{
    let image = loaded(&rt, &order.files, Limit::V2, order.events)?;
    let (lock, globals) = match kept(&rt, order) {
        Ok(kept) => kept,
        Err(stop) => {
            drop(image);
            return Err(stop);
        }
    };
    match pool_over(rt, order, input, devices) {
        Ok(pool) => Ok((image, globals, pool, lock)),
        Err(stop) => {
            drop(image);
            drop(globals);
            drop(lock);
            Err(stop)
        }
    }
}

// Locks the file to which the globals go, where there is one, and reads the globals.
fn kept<'a, R: Files + AllocGlobal>(
    rt: &R,
    order: &Run<'a>,
) -> Result<(Option<LockedFile<R::File>>, Globals), ProgramError<'a>>
where
    R::File: Lockable,
    ensures globals { IfOk result (λ x. WereListed V2 order.now.globals x.1.content) }
    ensures global { IfOk result (λ x. are_global x.1.content ≡ true) }
    ensures content { IfOk result (λ x. is_content x.1.content ≡ true) }
{
    let lock = match order.save {
        None => None,
        Some(file) => locked(rt, file)?,
    };
    match listed(rt, order.globals, Limit::V2) {
        Ok(globals) => Ok((lock, globals)),
        Err(stop) => {
            drop(lock);
            Err(stop)
        }
    }
}

// Makes the devices. Standard input is read whole, where the words ask for it.
fn pool_over<'a, R: Files + AllocGlobal + Copy + Drop, I: Read>(
    rt: R,
    order: &Run<'a>,
    input: &mut I,
    devices: &[Named<'a>],
) -> Result<Pool<Port<R>>, ProgramError<'a>>
    ensures value { IfOk result (λ pool. pool ≡ with_devices (names_of devices.now) (with_principals rows_limit)) }
    ensures whole { IfOk result (λ pool. AreWhole pool) }
{
    let lines = if order.stdin {
        whole(rt.alloc(), input, "-")?
    } else {
        Vec::new(rt.alloc())
    };
    pool(rt, lines, devices)
}

// The first jobs' starts, by the words that name them, which give no values. One that is no entry is bad, and so is one more than there may be jobs.
#[tactic(auto, using(crate::proofs::Starting::can_be_read))]
fn starts<'a>(alloc: Global, words: &[&'a str]) -> Result<Vec<Start>, ProgramError<'a>>
    ensures named { IfOk result (λ starts. WereStarts words.now starts.items) }
    ensures few { IfOk result (λ starts. length starts.items ≤ rows_limit) }
{
    let mut starts = Vec::new(alloc);
    for word in words {
        let Some(entry) = Entry::read(alloc, word.as_bytes())? else {
            return Err(ProgramError::Chosen {
                option: Choice::Start,
                value: *word,
            });
        };
        if starts.len() >= ROWS_LIMIT {
            return Err(ProgramError::Chosen {
                option: Choice::Start,
                value: *word,
            });
        }
        if starts.push(Start::new(entry, Vec::new(alloc))).is_err() {
            return Err(ProgramError::Memory);
        }
    }
    Ok(starts)
}

// These starts, or where the words name none, that of a job at the first line of the first file's routine.
fn or_first<'a>(
    alloc: Global,
    order: &Run<'a>,
    starts: Vec<Start>,
) -> Result<Vec<Start>, ProgramError<'a>>
    requires named { WereStarts order.now.starts.items starts.items }
    requires few { length starts.items ≤ rows_limit }
    ensures begun { IfOk result (λ all. WereBegun order.now.starts.items order.now.files.items all.items) }
    ensures few { IfOk result (λ all. length all.items ≤ rows_limit) }
{
    if !order.starts.is_empty() {
        return Ok(starts);
    }
    drop(starts);
    let [file, ..] = order.files.as_slice() else {
        return Err(ProgramError::Memory);
    };
    first_start(alloc, *file)
}

// The start of a job at the first line of the routine in a file. One whose name is no word has none.
fn first_start<'a>(alloc: Global, file: &'a str) -> Result<Vec<Start>, ProgramError<'a>>
    ensures { IfOk result (λ starts. (is_word (name_at file.now) ≡ true)
        × (starts.items ≡ bare_start (record { label = None; routine = name_at file.now }) ∷ [])) }
{
    let name = routine_name(alloc, file)?;
    if !mj_subs::is_word(&name) {
        return Err(ProgramError::Chosen {
            option: Choice::Start,
            value: file,
        });
    }
    let Ok(routine) = Text::from(alloc, &name) else {
        return Err(ProgramError::Memory);
    };
    let entry = Entry {
        label: None,
        routine,
    };
    let mut starts = Vec::new(alloc);
    if starts.push(Start::new(entry, Vec::new(alloc))).is_err() {
        return Err(ProgramError::Memory);
    }
    Ok(starts)
}

// The devices that these words name, in order. The first that names none is bad.
fn devices<'a>(alloc: Global, words: &[&'a str]) -> Result<Vec<Named<'a>>, ProgramError<'a>>
    ensures { IfOk result (λ devices. AreDevices words.now devices.items) }
{
    let mut devices = Vec::new(alloc);
    for word in words {
        let Some(device) = read_device(alloc, *word)? else {
            return Err(ProgramError::Chosen {
                option: Choice::Device,
                value: *word,
            });
        };
        if devices.push(device).is_err() {
            return Err(ProgramError::Memory);
        }
    }
    Ok(devices)
}

// Makes a principal device for each of the jobs that there may be, of which the first gives the lines of this input, and these devices.
fn pool<'a, R: Files + AllocGlobal + Copy + Drop>(
    rt: R,
    input: Vec<u8>,
    devices: &[Named<'_>],
) -> Result<Pool<Port<R>>, ProgramError<'a>>
    ensures value { IfOk result (λ pool. pool ≡ with_devices (names_of devices.now) (with_principals rows_limit)) }
    ensures whole { IfOk result (λ pool. AreWhole pool) }
{
    Ok(pool_of(rt.alloc(), rt, ROWS_LIMIT as u32, input, devices)?)
}

// Reads the steps of a file, if one is named.
fn steps<'a, R: Files + AllocGlobal>(
    rt: &R,
    file: Option<&'a str>,
) -> Result<Option<Vec<Step>>, ProgramError<'a>>
    ensures { IfOk result (λ steps. WereSteps file.entry steps) }
{
    let Some(file) = file else {
        return Ok(None);
    };
    let bytes = file_bytes(rt, file)?;
    match mj_steps::read(rt.alloc(), &bytes) {
        Ok(steps) => Ok(Some(steps)),
        Err(StepsError::Memory) => Err(ProgramError::Memory),
        Err(refusal) => Err(ProgramError::Steps(refusal)),
    }
}
