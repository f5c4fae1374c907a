// Traces that are brought to today's form.

ghost use Rattle.std.specs.Prelude.{◌≡◌, ◌≤◌, length, IfOk, true};
ghost use Rattle.std.specs.String.{string_bytes};
ghost use Rattle.mj_ask.specs.Fitting.{is_content};
ghost use Rattle.mj_globs.specs.Within.{is_content_within};
ghost use Rattle.mj_rou.specs.Words.{Each, IsRoutineWorded};
ghost use Rattle.mj_load.specs.Image.{program_of, routines_of};
ghost use Rattle.mj_sys.specs.Shared.{are_global};
ghost use Rattle.mj_trace.specs.Lines.{IsTrace};
ghost use Rattle.mj_trace.specs.Trace.{limit_of, version_of};
ghost use Rattle.mj_replay.specs.Traces.{Migrates};
ghost use Rattle.mj_recall.specs.Migrations.{IsNewer};
ghost use Rattle.mj_recall.specs.Printed.{migrated_line};

use crate::causes::tell_difference;
use crate::replays::{recorded, verdict_text};
use mj_begin::{listed, loaded, migrated_apart};
use mj_command_line::Migrate;
use mj_drafts::{Lockable, ProgramError, print, write_file};
use mj_globs::Globals;
use mj_load::Image;
use mj_recorded::migrated_traces_are_read_back;
use mj_replay::Migrated;
use mj_replica::Verdict;
use mj_trace::{Trace, write_trace};
use std::alloc::{AllocError, Global};
use std::io::Write;
use std::mem::forget;
use std::rt::Files;

/// Brings a trace to today's form, and says how many events it has.
pub fn migrate<'a, R: Files + AllocGlobal, O: Write, E: Write>(
    rt: &R,
    order: &Migrate<'a>,
    out: &mut O,
    err: &mut E,
) -> Result<u8, ProgramError<'a>>
where
    R::File: Lockable,
    ensures { IfOk result (λ status. status ≤ 1) }
{
    migrated_apart(rt, order.out, &order.record)?;
    let trace = recorded(rt, order.record.trace, order.record.events)?;
    let done = migrate_over(rt, order, &trace, out, err);
    forget(trace);
    done
}

// Brings a trace to today's form over the routines and then the globals that are read for it, writes it, and says how many events it has. Where its events
// aren't a run, nothing is written.
fn migrate_over<'a, R: Files + AllocGlobal, O: Write, E: Write>(
    rt: &R,
    order: &Migrate<'a>,
    trace: &Trace,
    out: &mut O,
    err: &mut E,
) -> Result<u8, ProgramError<'a>>
where
    R::File: Lockable,
    requires written { IsTrace trace.now }
    requires few { length trace.now.events ≤ order.now.record.events }
    ensures { IfOk result (λ status. status ≤ 1) }
{
    match brought(rt, order, trace)? {
        Migrated::To(new) => {
            let told = written(rt, order.out, &new);
            forget(new);
            let told = told?;
            print(told.as_bytes(), out)?;
            Ok(0)
        }
        Migrated::Differs(at) => {
            let (told, status) = verdict_text(rt.alloc(), trace, Verdict::Differs(at))?;
            print(told.as_bytes(), out)?;
            tell_difference(rt, &order.record, trace, at, err);
            Ok(status)
        }
    }
}

// Brings it to today's form, where texts have its limit.
fn brought<'a, R: Files + AllocGlobal>(
    rt: &R,
    order: &Migrate<'a>,
    trace: &Trace,
) -> Result<Migrated, ProgramError<'a>>
    requires { IsTrace trace.now }
    ensures { IfOk result IsNewer }
{
    let limit = trace.limit();
    let image = loaded(rt, &order.record.files, limit, order.record.events)?;
    let brought = match listed(rt, order.record.globals, limit) {
        Ok(globals) => bring(rt.alloc(), &image, globals, trace),
        Err(stop) => Err(stop),
    };
    forget(image);
    brought
}

// Brings it there over these routines and globals.
#[tactic(auto, using(crate::proofs::Migrations::newer))]
fn bring<'a>(
    alloc: Global,
    image: &Image,
    globals: Globals,
    trace: &Trace,
) -> Result<Migrated, ProgramError<'a>>
    requires global { are_global globals.content ≡ true }
    requires written { IsTrace trace.now }
    requires limit { image.now.bounds.limit ≡ limit_of trace.now.form }
    requires within { is_content_within image.now.bounds.limit globals.content ≡ true }
    requires listed { is_content globals.content ≡ true }
    requires worded { Each IsRoutineWorded (routines_of image.now) }
    ensures brings { IfOk result (λ migrated. Migrates (program_of image.now) globals.content trace.now migrated) }
    ensures newer { IfOk result IsNewer }
{
    migrated_traces_are_read_back();
    Ok(mj_replay::migrate(alloc, image, globals, trace)?)
}

// Writes it to a file, in today's form and in no other, and tells how many events it has. What is told is made first: where memory is refused the file stays.
fn written<'a, R: Files + AllocGlobal>(
    rt: &R,
    out: &'a str,
    trace: &Trace,
) -> Result<String, ProgramError<'a>>
where
    R::File: Lockable,
    requires written { IsTrace trace.now }
    requires form { version_of trace.now.form ≡ 2 }
    ensures { IfOk result (λ told. string_bytes told ≡ migrated_line (length trace.now.events)) }
{
    let bytes = write_trace(rt.alloc(), trace)?;
    let text = told(rt.alloc(), trace)?;
    write_file(rt, out, &bytes)?;
    Ok(text)
}

// How many events a trace has that was brought to today's form.
fn told(alloc: Global, trace: &Trace) -> Result<String, AllocError>
    ensures { IfOk result (λ told. string_bytes told ≡ migrated_line (length trace.now.events)) }
{
    let count = trace.events().len();
    format!(in alloc; "migrated {count}\n")
}
