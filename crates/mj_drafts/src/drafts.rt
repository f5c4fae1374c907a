// Files that are written: the old one stands until the new one is whole.
//
// What is to be written goes to a new file in the same folder. Once it is there, with the permissions of the old one, and was handed to the disk, it takes
// the old one's name in one call of the file system. So whoever opens the file, and whenever the program or the machine stops, has the old bytes or the new
// ones.

use crate::locks::{Lockable, locked, path_or};
use crate::places::{Place, failed, place_of};
use crate::stop::ProgramError;
use std::fs::{self, File, Metadata, OpenFile, OpenOptions};
use std::io::{Error, ErrorKind, Write};
use std::os::unix::fs::{MetadataExt, OpenOptionsExt, PermissionsExt, lchown};
use std::rt::Files;

/// How many new files of a name are tried before it is given up.
const NAMES: u32 = 100;

/// A file that is being written.
#[derive(Drop)]
pub struct Draft<'a> {
    // as the command line names it
    name: &'a str,
    // none where it is written to as it is
    beside: Option<Beside>,
}

// A new file and the one that it will take the place of.
#[derive(Drop)]
struct Beside {
    new: String,
    path: String,
    old: Option<Metadata>,
}

/// Writes these bytes to a file, in the place of what stands there, unless someone else has that locked.
pub fn write_file<'a, R: Files + AllocGlobal>(
    rt: &R,
    name: &'a str,
    bytes: &[u8],
) -> Result<(), ProgramError<'a>>
where
    R::File: Lockable,
{
    let lock = locked(rt, name)?;
    let written = write_at(rt, name, path_or(&lock, name), bytes);
    drop(lock);
    written
}

// Writes these bytes to the file at a path.
fn write_at<'a, R: Files + AllocGlobal>(
    rt: &R,
    name: &'a str,
    path: &str,
    bytes: &[u8],
) -> Result<(), ProgramError<'a>> {
    let (draft, mut out) = drafted(rt, name, path)?;
    match out.write_all(bytes) {
        Ok(()) => placed(rt, draft, out),
        Err(error) => {
            drop(out);
            given_up(rt, draft);
            Err(failed(&error, name))
        }
    }
}

/// Begins to write the file at a path, which messages call by its name: where its bytes go, to which `placed` or `given_up` comes.
pub fn drafted<'a, R: Files + AllocGlobal>(
    rt: &R,
    name: &'a str,
    path: &str,
) -> Result<(Draft<'a>, R::File), ProgramError<'a>> {
    match place_of(rt, path) {
        Ok(Place::Own(path, old)) => drafted_beside(rt, name, path, old),
        Ok(Place::Straight) => match OpenOptions::new().append(true).open(rt, path) {
            Ok(out) => Ok((Draft { name, beside: None }, out)),
            Err(error) => Err(failed(&error, name)),
        },
        Err(ProgramError::Memory) => Err(ProgramError::Memory),
        Err(_) => Err(ProgramError::File(name)),
    }
}

// Makes a new file beside the one at a path.
fn drafted_beside<'a, R: Files + AllocGlobal>(
    rt: &R,
    name: &'a str,
    path: String,
    old: Option<Metadata>,
) -> Result<(Draft<'a>, R::File), ProgramError<'a>> {
    match made_for(rt, name, path.as_str(), old.is_some()) {
        Ok((new, out)) => {
            let beside = Some(Beside { new, path, old });
            Ok((Draft { name, beside }, out))
        }
        Err(stop) => {
            drop(path);
            drop(old);
            Err(stop)
        }
    }
}

// Makes a new file for a path. An old one there has to be one that may be written.
fn made_for<'a, R: Files + AllocGlobal>(
    rt: &R,
    name: &'a str,
    path: &str,
    is_old: bool,
) -> Result<(String, R::File), ProgramError<'a>> {
    if is_old {
        if let Err(error) = OpenOptions::new().write(true).open(rt, path) {
            return Err(failed(&error, name));
        }
    }
    made(rt, name, path, is_old)
}

// Makes a file that isn't there yet, by the first name that is free. Where it is to take the place of an old one, only its owner may open it until then.
fn made<'a, R: Files + AllocGlobal>(
    rt: &R,
    name: &'a str,
    path: &str,
    is_old: bool,
) -> Result<(String, R::File), ProgramError<'a>> {
    let mode = if is_old { 0o600 } else { 0o666 };
    for number in 1..=NAMES {
        let new = format!(in rt.alloc(); "{path}.{number}.new")?;
        let mut options = OpenOptions::new();
        options.write(true).create_new(true).mode(mode);
        match options.open(rt, new.as_str()) {
            Ok(out) => return Ok((new, out)),
            Err(error) => {
                drop(new);
                if error.kind() != ErrorKind::AlreadyExists {
                    return Err(failed(&error, name));
                }
            }
        }
    }
    Err(ProgramError::File(name))
}

/// Lets a file that was written take the place of the old one.
pub fn placed<'a, R: Files + AllocGlobal>(
    rt: &R,
    draft: Draft<'a>,
    out: R::File,
) -> Result<(), ProgramError<'a>> {
    let Draft { name, beside } = draft;
    let Some(beside) = beside else {
        drop(out);
        return Ok(());
    };
    let done = placed_beside(rt, &beside, &out);
    drop(out);
    drop(beside);
    match done {
        Ok(true) => Ok(()),
        Ok(false) => Err(ProgramError::File(name)),
        Err(error) => Err(failed(&error, name)),
    }
}

/// Gives up a file that was begun. The old one stays as it is.
pub fn given_up<R: Files>(files: &R, draft: Draft<'_>) {
    if let Some(beside) = &draft.beside {
        removed(files, beside);
    }
    drop(draft);
}

// Removes a new file. Where that is refused it stays; nothing else can be done about it.
fn removed<R: Files>(files: &R, beside: &Beside) {
    let _ = fs::remove_file(files, beside.new.as_str());
}

// Gives a new file the old one's name, and says whether the disk has that too. Where it can't have the name, it is removed; behind that its own name may be
// another's, and no memory is taken any more.
fn placed_beside<R: Files>(files: &R, beside: &Beside, out: &R::File) -> Result<bool, Error> {
    match renamed(files, beside, out) {
        Ok(Some(folder)) => Ok(folder.sync_all().is_ok()),
        Ok(None) => Ok(true),
        Err(error) => {
            removed(files, beside);
            Err(error)
        }
    }
}

// Hands a new file to the disk, then gives it the old one's name. Its folder is opened before.
fn renamed<R: Files>(files: &R, beside: &Beside, out: &R::File) -> Result<Option<R::File>, Error> {
    if let Some(old) = &beside.old {
        keep_rights(files, beside.new.as_str(), out, old)?;
    }
    out.sync_all()?;
    let folder = folder_of(files, beside.path.as_str())?;
    match fs::rename(files, beside.new.as_str(), beside.path.as_str()) {
        Ok(()) => Ok(folder),
        Err(error) => {
            drop(folder);
            Err(error)
        }
    }
}

// Gives a new file the owner, the group and the permissions of the old one. Where the group can't be kept, it gets no rights from the old one's.
fn keep_rights<R: Files>(files: &R, new: &str, out: &R::File, old: &Metadata) -> Result<(), Error> {
    let mine = out.metadata()?;
    let mut rights = 0o777;
    if old.gid() != mine.gid() && lchown(files, new, None, Some(old.gid())).is_err() {
        rights = 0o707;
    }
    if old.uid() != mine.uid() {
        // Only the system's administrator may give a file away, so this may be refused.
        let _ = lchown(files, new, Some(old.uid()), None);
    }
    drop(mine);
    let mut permissions = old.permissions();
    permissions.set_mode(old.mode() & rights);
    out.set_permissions(permissions)
}

// Opens the folder of a file, unless it may not be opened.
fn folder_of<R: Files>(files: &R, path: &str) -> Result<Option<R::File>, Error> {
    let folder = match path.rsplit_once('/') {
        Some((folder, _)) if !folder.is_empty() => folder,
        _ => "/",
    };
    match File::open(files, folder) {
        Ok(open) => Ok(Some(open)),
        Err(error) if error.kind() == ErrorKind::PermissionDenied => Ok(None),
        Err(error) => Err(error),
    }
}
