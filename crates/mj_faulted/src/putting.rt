// How words, numbers and names are put to the end of some bytes. Where memory is refused a part may stand there.

ghost use Rattle.std.specs.Prelude.{◌≡◌, ◌++◌, OnOk, decimal, take};
ghost use Rattle.mj_ask.specs.Written.{entry_text};
ghost use Rattle.mj_faulted.specs.Subjects.{shortened};

use itoa::Buffer;
use mj_ask::Entry;
use mj_text::{Digits, Text};
use std::alloc::{AllocError, Global};

/// The most bytes of a name that are shown.
const NAME: usize = 150;

/// Puts words.
pub fn put(bytes: &mut Vec<u8>, words: &[u8]) -> Result<(), AllocError>
    ensures { OnOk result (bytes.new.items ≡ bytes.old.items ++ words.now) }
{
    bytes.extend_from_slice(words)
}

/// Puts a number.
pub fn put_number(bytes: &mut Vec<u8>, number: usize) -> Result<(), AllocError>
    ensures { OnOk result (bytes.new.items ≡ bytes.old.items ++ decimal number) }
{
    bytes.extend_from_slice(Buffer::new().format(number).as_bytes())
}

/// Puts a text.
pub fn put_text(bytes: &mut Vec<u8>, text: &Text) -> Result<(), AllocError>
    ensures { OnOk result (bytes.new.items ≡ bytes.old.items ++ text.now) }
{
    bytes.extend_from_slice(text.bytes(&mut Digits::new()))
}

/// Puts an entry, as it is written.
pub fn put_entry(alloc: Global, bytes: &mut Vec<u8>, entry: &Entry) -> Result<(), AllocError>
    ensures { OnOk result (bytes.new.items ≡ bytes.old.items ++ entry_text entry.now) }
{
    let spelled = entry.spell(alloc)?;
    put(bytes, &spelled)
}

/// Puts a name, or its first bytes and `..` where it is long.
pub fn put_shortened(bytes: &mut Vec<u8>, name: &[u8]) -> Result<(), AllocError>
    ensures { OnOk result (bytes.new.items ≡ bytes.old.items ++ shortened name.now) }
{
    if NAME < name.len() {
        put(bytes, front(name, NAME))?;
        return put(bytes, b"..");
    }
    put(bytes, name)
}

// The first bytes, so many of them as there are.
fn front(bytes: &[u8], count: usize) -> &[u8]
    ensures { result.now ≡ take count bytes.now }
{
    if count < bytes.len() {
        &bytes[..count]
    } else {
        bytes
    }
}
