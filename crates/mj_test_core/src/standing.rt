// How shared things stand, as a text: two that differ have different texts.

use mj_gfile::{put_name, write};
use mj_globs::Globals;
use mj_locktab::LockTable;
use std::alloc::{AllocError, Global};

/// The listing of globals, and a line for each name that is held: its job, the name, and its count.
pub fn shared(alloc: Global, globals: &Globals, locks: &LockTable) -> Result<Vec<u8>, AllocError> {
    let mut text = write(alloc, globals)?;
    let held = locks.held(alloc)?;
    for (job, name, count) in &held {
        put_number(alloc, &mut text, *job)?;
        put_name(&mut text, name)?;
        text.push(b' ')?;
        put_number(alloc, &mut text, *count)?;
        text.push(b'\n')?;
    }
    Ok(text)
}

/// Puts a number to the end, and a space.
pub fn put_number(alloc: Global, text: &mut Vec<u8>, number: u32) -> Result<(), AllocError> {
    let digits = format!(in alloc; "{number} ")?;
    let put = text.extend_from_slice(digits.as_bytes());
    drop(digits);
    put
}
