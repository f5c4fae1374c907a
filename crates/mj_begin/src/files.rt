// Files that are read, and the names of the routines in them.

ghost use Rattle.std.specs.Prelude.{◌≡◌, IfOk, IfSome, Ok};
ghost use Rattle.std.specs.List.{after_last};
ghost use Rattle.mj_begin.specs.Names.{is_slash, stem_of, name_at};

use mj_ast::{LINE_LIMIT, ROUTINE_LIMIT};
use mj_drafts::ProgramError;
use mj_files::{BYTES_LIMIT, Trouble};
use std::alloc::{AllocError, Global};
use std::io::Read;
use std::rt::Files;

/// The most bytes of a routine that are looked at: one that has more has a line over its limit among these, or a line too many.
const ROUTINE_BYTES: usize = ROUTINE_LIMIT * (LINE_LIMIT + 2) + 1;

/// Reads the bytes of a file.
pub fn file_bytes<'a, R: Files + AllocGlobal>(
    rt: &R,
    file: &'a str,
) -> Result<Vec<u8>, ProgramError<'a>> {
    named(mj_files::file_bytes(rt.alloc(), rt, file), file)
}

/// Reads the bytes of a routine, as many as are looked at.
pub fn routine_bytes<'a, R: Files + AllocGlobal>(
    rt: &R,
    file: &'a str,
) -> Result<Vec<u8>, ProgramError<'a>> {
    named(
        mj_files::file_front(rt.alloc(), rt, file, ROUTINE_BYTES),
        file,
    )
}

/// Reads all bytes of a reader, which messages call by this name.
pub fn whole<'a, R: Read>(
    alloc: Global,
    reader: &mut R,
    name: &'a str,
) -> Result<Vec<u8>, ProgramError<'a>>
    ensures { IfOk result (λ bytes. IfSome (R.remaining reader.old) (λ known. bytes.items ≡ known)) }
{
    named(mj_files::whole(alloc, reader, BYTES_LIMIT), name)
}

// What was read of a file, which messages call by this name.
fn named<'a>(read: Result<Vec<u8>, Trouble>, name: &'a str) -> Result<Vec<u8>, ProgramError<'a>>
    ensures { IfOk result (λ bytes. read ≡ Ok bytes) }
{
    match read {
        Ok(bytes) => Ok(bytes),
        Err(Trouble::Memory) => Err(ProgramError::Memory),
        Err(Trouble::Failed) => Err(ProgramError::File(name)),
    }
}

// The name of a file: what stands behind the last `/` of its path.
fn file_name(path: &str) -> &str
    ensures { result.now ≡ after_last is_slash path.now }
{
    match path.rsplit_once('/') {
        Some((_, name)) => name,
        None => path,
    }
}

// What a name says before its last point. A leading point isn't one.
fn stem(name: &str) -> &str
    ensures { result.now ≡ stem_of name.now }
{
    match name.rsplit_once('.') {
        Some((stem, _)) if !stem.is_empty() => stem,
        _ => name,
    }
}

/// The name of the routine in the file at a path: the stem of the file's name, in which a first `_` stands for `%`.
pub fn routine_name(alloc: Global, path: &str) -> Result<Vec<u8>, AllocError>
    ensures { IfOk result (λ name. name.items ≡ name_at path.now) }
{
    let mut name = Vec::new(alloc);
    let stem = stem(file_name(path));
    let rest = match stem.strip_prefix('_') {
        Some(rest) => {
            name.push(b'%')?;
            rest
        }
        None => stem,
    };
    name.extend_from_slice(rest.as_bytes())?;
    Ok(name)
}
