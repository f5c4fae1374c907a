// The listings of globals that the command line names.

ghost use Rattle.std.specs.Prelude.{◌≡◌, true, IfOk};
ghost use Rattle.std.specs.Io.KnownBytes.{Appends};
ghost use Rattle.mj_ask.specs.Fitting.{is_content};
ghost use Rattle.mj_globs.specs.Within.{is_content_within};
ghost use Rattle.mj_text.specs.declared.limit.Limit.TheVariants.{V2};
ghost use Rattle.mj_gfile.specs.Spelling.{listing_of};
ghost use Rattle.mj_sys.specs.Shared.{are_global};
ghost use Rattle.mj_begin.specs.Words.{WereListed};

use crate::files::file_bytes;
use mj_drafts::{Lockable, LockedFile, ProgramError, drafted, given_up, locked, path_or, placed};
use mj_gfile::ReadError;
use mj_globs::Globals;
use mj_text::Limit;
use std::alloc::Global;
use std::io::Write;
use std::rt::Files;

/// Reads the globals that a file lists, where texts have this limit: none where no file is named.
#[tactic(auto, using(crate::proofs::Content::can_be_written, crate::proofs::Content::none_within, crate::proofs::Content::texts_within))]
pub fn listed<'a, R: Files + AllocGlobal>(
    rt: &R,
    file: Option<&'a str>,
    limit: Limit,
) -> Result<Globals, ProgramError<'a>>
    ensures listed { IfOk result (λ globals. WereListed limit file.entry globals.content) }
    ensures global { IfOk result (λ globals. are_global globals.content ≡ true) }
    ensures content { IfOk result (λ globals. is_content globals.content ≡ true) }
    ensures within { IfOk result (λ globals. is_content_within limit globals.content ≡ true) }
{
    let Some(file) = file else {
        return Ok(Globals::new(rt.alloc()));
    };
    let bytes = file_bytes(rt, file)?;
    match mj_gfile::read(rt.alloc(), &bytes, limit) {
        Ok(globals) => Ok(globals),
        Err(ReadError::Memory) => Err(ProgramError::Memory),
        Err(refusal) => Err(ProgramError::Listing(refusal)),
    }
}

/// Writes the listing of these globals to a file, where one is named, in the place of what stands there. The old one stays as it is until the new one is whole.
/// It is the one that is locked, or else someone else may have locked it by now, and it stays.
pub fn save<'a, R: Files + AllocGlobal>(
    rt: &R,
    globals: &Globals,
    file: Option<&'a str>,
    lock: &Option<LockedFile<R::File>>,
) -> Result<(), ProgramError<'a>>
where
    R::File: Lockable,
{
    let Some(file) = file else {
        return Ok(());
    };
    if lock.is_some() {
        return save_at(rt, globals, file, path_or(lock, file));
    }
    let late = locked(rt, file)?;
    let saved = save_at(rt, globals, file, path_or(&late, file));
    drop(late);
    saved
}

// Writes the listing of these globals to the file at a path.
fn save_at<'a, R: Files + AllocGlobal>(
    rt: &R,
    globals: &Globals,
    file: &'a str,
    path: &str,
) -> Result<(), ProgramError<'a>> {
    let (draft, out) = drafted(rt, file, path)?;
    match put_listing(rt.alloc(), globals, out, file) {
        Ok(out) => placed(rt, draft, out),
        Err(stop) => {
            given_up(rt, draft);
            Err(stop)
        }
    }
}

// Writes the listing of these globals to a writer, which messages call by this name, and gives the writer back.
fn put_listing<'a, W: Write + Drop>(
    alloc: Global,
    globals: &Globals,
    out: W,
    name: &'a str,
) -> Result<W, ProgramError<'a>>
    ensures { IfOk result (λ given. Appends (W.contents out) (W.contents given) (listing_of V2 globals.now.content)) }
{
    match mj_gfile::write_to(alloc, globals, out) {
        Ok(given) => Ok(given),
        Err(mj_tree::SinkStop::Memory) => Err(ProgramError::Memory),
        Err(mj_tree::SinkStop::Closed) => Err(ProgramError::File(name)),
    }
}
