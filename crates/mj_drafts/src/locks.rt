// Locks on files, so that no two runs change one at a time.

use crate::places::{Place, failed, place_of};
use crate::stop::ProgramError;
use std::fs::{self, File, OpenFile, OpenOptions, TryLockError};
use std::io::{Error, ErrorKind};
use std::os::unix::fs::MetadataExt;
use std::rt::Files;

/// How often a file is looked for that others put a new one in the place of.
const TRIES: u32 = 100;

/// An open file that can be locked.
pub trait Lockable {
    /// Locks it until it is closed, unless it was opened and locked elsewhere, and says whether it did.
    fn lock_now(&self) -> Result<bool, Error>;
}

impl Lockable for File {
    fn lock_now(&self) -> Result<bool, Error> {
        match self.try_lock() {
            Ok(()) => Ok(true),
            Err(TryLockError::WouldBlock) => Ok(false),
            Err(TryLockError::Error(error)) => Err(error),
        }
    }
}

/// A file that is locked as long as this is kept, and its path by no link: what is written there takes the place of this file, wherever a link leads by then.
#[derive(Drop)]
pub struct LockedFile<F> {
    file: F,
    path: String,
}

/// Where a file is to be written: at the path at which it is locked, or else where its name leads.
pub fn path_or<'b, F>(lock: &'b Option<LockedFile<F>>, name: &'b str) -> &'b str {
    match lock {
        Some(locked) => locked.path.as_str(),
        None => name,
    }
}

/// Locks the file of this name, if there is one.
pub fn locked<'a, R: Files + AllocGlobal>(
    rt: &R,
    name: &'a str,
) -> Result<Option<LockedFile<R::File>>, ProgramError<'a>>
where
    R::File: Lockable,
{
    for _ in 0..TRIES {
        let Some(path) = own_path(rt, name)? else {
            return Ok(None);
        };
        match locked_at(rt, path.as_str()) {
            Ok(Lock::Kept(file)) => return Ok(Some(LockedFile { file, path })),
            Ok(Lock::Busy) => return Err(ProgramError::Busy(name)),
            Ok(Lock::Moved) => {}
            Err(error) => return Err(failed(&error, name)),
        }
    }
    Err(ProgramError::Busy(name))
}

// The path of the file of this name, if there is one that another can take the place of. Where its folder isn't there, that is told when it is written.
fn own_path<'a, R: Files + AllocGlobal>(
    rt: &R,
    name: &'a str,
) -> Result<Option<String>, ProgramError<'a>> {
    match place_of(rt, name) {
        Ok(Place::Own(path, Some(_))) => Ok(Some(path)),
        Err(ProgramError::Memory) => Err(ProgramError::Memory),
        _ => Ok(None),
    }
}

// What came of an attempt to lock the file at a path.
#[derive(Drop)]
enum Lock<F> {
    Kept(F),
    // someone else has it locked
    Busy,
    // another file is there by now, or none
    Moved,
}

// Locks the file at a path. A lock is on a file and not on its name, so it is kept only if the name still leads there: then only who has the lock puts
// another file in its place.
fn locked_at<R: Files>(files: &R, path: &str) -> Result<Lock<R::File>, Error>
where
    R::File: Lockable,
{
    let file = match OpenOptions::new().write(true).open(files, path) {
        Ok(file) => file,
        Err(error) if error.kind() == ErrorKind::NotFound => return Ok(Lock::Moved),
        Err(error) => return Err(error),
    };
    if !file.lock_now()? {
        return Ok(Lock::Busy);
    }
    if leads_to(files, path, &file)? {
        Ok(Lock::Kept(file))
    } else {
        Ok(Lock::Moved)
    }
}

// Whether a path leads to an open file.
fn leads_to<R: Files>(files: &R, path: &str, file: &R::File) -> Result<bool, Error> {
    let open = file.metadata()?;
    match fs::metadata(files, path) {
        Ok(found) => Ok(found.dev() == open.dev() && found.ino() == open.ino()),
        Err(error) if error.kind() == ErrorKind::NotFound => Ok(false),
        Err(error) => Err(error),
    }
}
