// Files are read.

ghost use Rattle.std.specs.Prelude.{◌<◌, ◌≤◌, ◌^◌, length, IfOk};

use crate::bytes::{BYTES_LIMIT, Trouble, front, whole};
use std::alloc::Global;
use std::fs::{self, File};
use std::os::unix::fs::FileTypeExt;
use std::rt::Files;

/// Reads all bytes of a file. One that goes on behind its length, and behind the most that is read of what doesn't say that it has more, fails.
pub fn file_bytes<R: Files>(alloc: Global, files: &R, path: &str) -> Result<Vec<u8>, Trouble> {
    let (mut file, length) = opened(alloc, files, path)?;
    whole(alloc, &mut file, most_of(length))
}

/// Reads the first bytes of a file: so many, or fewer where it has no more.
pub fn file_front<R: Files>(
    alloc: Global,
    files: &R,
    path: &str,
    most: usize,
) -> Result<Vec<u8>, Trouble>
    ensures { IfOk result (λ bytes. length bytes.items ≤ most) }
{
    let (mut file, _) = opened(alloc, files, path)?;
    front(alloc, &mut file, most)
}

// How many bytes may be read of a file of this length.
fn most_of(length: u64) -> usize
    ensures { result < 2 ^ 63 }
{
    (length as usize).max(BYTES_LIMIT).min(1 << 62)
}

// Opens a file to be read, and gives its length. To open a pipe that has a name would be to wait until someone writes to it, so it fails.
fn opened<R: Files>(alloc: Global, files: &R, path: &str) -> Result<(R::File, u64), Trouble> {
    let found = fs::metadata(files, path)?;
    if found.file_type().is_fifo() && has_name(alloc, files, path) {
        return Err(Trouble::Failed);
    }
    Ok((File::open(files, path)?, found.len()))
}

// Whether what a path leads to has a name of its own. A pipe that a shell or a program above made has none.
fn has_name<R: Files>(alloc: Global, files: &R, path: &str) -> bool {
    files.canonicalize(alloc, path).is_ok()
}
