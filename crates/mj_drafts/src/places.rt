// Where a file is that is to be written.

use crate::stop::ProgramError;
use std::alloc::AllocError;
use std::fs::{self, Metadata};
use std::io::{Error, ErrorKind};
use std::rt::Files;

/// Where a file is that is to be written, and what stands there.
#[derive(Drop)]
pub enum Place {
    /// a file or nothing, which another can take the place of: its path, by no link
    Own(String, Option<Metadata>),
    /// what is written to as it is: a pipe, a terminal, an output of the program
    Straight,
}

/// Where the file of this name is.
pub fn place_of<'a, R: Files + AllocGlobal>(
    rt: &R,
    name: &'a str,
) -> Result<Place, ProgramError<'a>> {
    if is_stream(name) {
        return Ok(Place::Straight);
    }
    let path = path_of(rt, name)?;
    match fs::symlink_metadata(rt, path.as_str()) {
        Ok(found) if found.is_file() => Ok(Place::Own(path, Some(found))),
        // a link that leads nowhere
        Ok(found) if found.is_symlink() => Err(ProgramError::File(name)),
        Ok(_) => Ok(Place::Straight),
        Err(error) if error.kind() == ErrorKind::NotFound => Ok(Place::Own(path, None)),
        Err(error) => Err(failed(&error, name)),
    }
}

/// Why the program stops where the file system refuses a call on the file of this name.
pub fn failed<'a>(error: &Error, name: &'a str) -> ProgramError<'a> {
    if error.kind() == ErrorKind::OutOfMemory {
        ProgramError::Memory
    } else {
        ProgramError::File(name)
    }
}

/// The path of a file, by no link: that of what is there, or else its last part in the folder before it.
pub fn path_of<'a, R: Files + AllocGlobal>(
    rt: &R,
    name: &'a str,
) -> Result<String, ProgramError<'a>> {
    match fs::canonicalize(rt, name) {
        Ok(path) => Ok(path.into_string()),
        Err(error) if error.kind() == ErrorKind::NotFound => new_path(rt, name),
        Err(error) => Err(failed(&error, name)),
    }
}

// The path of a file that isn't there yet.
fn new_path<'a, R: Files + AllocGlobal>(rt: &R, name: &'a str) -> Result<String, ProgramError<'a>> {
    let (folder, last) = match name.rsplit_once('/') {
        None => (".", name),
        Some(("", last)) => ("/", last),
        Some(parts) => parts,
    };
    if last.is_empty() {
        return Err(ProgramError::File(name));
    }
    match fs::canonicalize(rt, folder) {
        Ok(folder) => {
            let path = joined(folder.into_string(), last);
            Ok(path?)
        }
        Err(error) => Err(failed(&error, name)),
    }
}

// The path of what has this name in a folder.
fn joined(folder: String, name: &str) -> Result<String, AllocError> {
    let mut path = folder;
    if !path.as_str().ends_with('/') {
        path.push('/')?;
    }
    path.push_str(name)?;
    Ok(path)
}

/// Whether the name is one of an output or input that the program has open, which no file can take the place of.
pub fn is_stream(name: &str) -> bool {
    name == "/dev/stdin"
        || name == "/dev/stdout"
        || name == "/dev/stderr"
        || name.starts_with("/dev/fd/")
        || name.starts_with("/proc/")
}
