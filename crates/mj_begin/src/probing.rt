// What the system says of files that can't be read or written.

use mj_files::{Named, Side, read_device};
use mj_reasons::kind_words;
use std::alloc::AllocError;
use std::fs::{self, File, OpenOptions};
use std::io::{self, ErrorKind};
use std::rt::Files;

/// Puts why a file can't be read, if it was to be, or can't be written, if it was to be, to the end of some bytes, where the system says so now: it is asked
/// once more, and nothing is written. Where memory is refused a part of it may stand there.
pub fn put_trouble<R: Files>(
    files: &R,
    bytes: &mut Vec<u8>,
    file: &str,
    is_read: bool,
    is_written: bool,
) -> Result<(), AllocError> {
    match trouble(files, file, is_read, is_written) {
        None => Ok(()),
        Some(kind) => put_kind(bytes, file, kind),
    }
}

// Why a file can't be read or written, if the system says so.
fn trouble<R: Files>(files: &R, file: &str, is_read: bool, is_written: bool) -> Option<ErrorKind> {
    if is_read && let Some(kind) = unread(files, file) {
        return Some(kind);
    }
    if is_written {
        unwritten(files, file)
    } else {
        None
    }
}

/// Puts, for each of the devices that these words name, why its file can't be read or written, where the system says so now. Nothing is written to it. Where
/// memory is refused a part of it may stand there.
pub fn put_devices<R: Files + AllocGlobal>(
    rt: &R,
    bytes: &mut Vec<u8>,
    words: &[&str],
) -> Result<(), AllocError> {
    for word in words {
        if let Some(device) = read_device(rt.alloc(), *word)? {
            let done = put_device(rt, bytes, *word, &device);
            drop(device);
            done?;
        }
    }
    Ok(())
}

// Puts why the file of a device can't be read or written.
fn put_device<R: Files>(
    files: &R,
    bytes: &mut Vec<u8>,
    word: &str,
    device: &Named<'_>,
) -> Result<(), AllocError> {
    let kind = match device.side {
        Side::In => unread(files, device.file),
        Side::Out => unwritten(files, device.file),
    };
    match kind {
        None => Ok(()),
        Some(kind) => put_kind(bytes, word, kind),
    }
}

// Puts a line on what the system says.
fn put_kind(bytes: &mut Vec<u8>, what: &str, kind: ErrorKind) -> Result<(), AllocError> {
    bytes.extend_from_slice(b"    ")?;
    bytes.extend_from_slice(what.as_bytes())?;
    bytes.extend_from_slice(b": ")?;
    bytes.extend_from_slice(kind_words(kind).as_bytes())?;
    bytes.push(b'\n')?;
    Ok(())
}

// Why a file can't be read, if the system says so. What is no file isn't opened, since that may wait.
fn unread<R: Files>(files: &R, path: &str) -> Option<ErrorKind> {
    match fs::metadata(files, path) {
        Err(error) => Some(error.kind()),
        Ok(found) if found.is_dir() => Some(ErrorKind::IsADirectory),
        Ok(found) if found.is_file() => kind_of(File::open(files, path)),
        Ok(_) => None,
    }
}

// Why a file can't be written, if the system says so. One that isn't there can't be written where its folder isn't there.
fn unwritten<R: Files>(files: &R, path: &str) -> Option<ErrorKind> {
    match fs::metadata(files, path) {
        Err(error) if error.kind() == ErrorKind::NotFound => {
            kind_of(fs::metadata(files, folder_of(path)))
        }
        Err(error) => Some(error.kind()),
        Ok(found) if found.is_dir() => Some(ErrorKind::IsADirectory),
        Ok(found) if found.is_file() => kind_of(OpenOptions::new().append(true).open(files, path)),
        Ok(_) => None,
    }
}

// What sort of failure it is, if it is one.
fn kind_of<T: Drop>(done: io::Result<T>) -> Option<ErrorKind> {
    match done {
        Ok(_) => None,
        Err(error) => Some(error.kind()),
    }
}

// The folder of a file.
fn folder_of(path: &str) -> &str {
    match path.rsplit_once('/') {
        None => ".",
        Some(("", _)) => "/",
        Some((folder, _)) => folder,
    }
}
