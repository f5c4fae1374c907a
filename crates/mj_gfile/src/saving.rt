// Listings go to a writer, a part at a time.

ghost use Rattle.std.specs.Prelude.{◌≡◌, ◌++◌, ◌∷◌, [], OnOk, IfOk};
ghost use Rattle.std.specs.Io.KnownBytes.{Appends};
ghost use Rattle.mj_text.specs.declared.limit.Limit.TheVariants.{V2};
ghost use Rattle.mj_gfile.specs.Spelling.{header, listing_of};

use crate::HEADER;
use crate::writing::add_line;
use mj_globs::Globals;
use mj_subs::Subs;
use mj_text::Text;
use mj_tree::{Sink, SinkStop};
use std::alloc::{AllocError, Global};
use std::io::{ErrorKind, Write};

// From how many bytes on lines are written.
const PART: usize = 65_536;

/// The listing of a store, as bytes. It is one of version 2, which holds each text that there is.
pub fn write(alloc: Global, globals: &Globals) -> Result<Vec<u8>, AllocError>
    ensures { IfOk result (λ bytes. bytes.items ≡ listing_of V2 globals.now.content) }
{
    match write_to(alloc, globals, Vec::new(alloc)) {
        Ok(bytes) => Ok(bytes),
        Err(_) => Err(AllocError),
    }
}

/// Writes the listing of a store, of version 2, to a writer, a part at a time, and gives the writer back. Beside a part and a line it takes no memory.
/// After a refusal a front of the listing may have been written.
pub fn write_to<W: Write + Drop>(alloc: Global, globals: &Globals, out: W) -> Result<W, SinkStop>
    ensures { IfOk result (λ given. Appends (W.contents out) (W.contents given) (listing_of V2 globals.now.content)) }
{
    let mut lines = Lines {
        bytes: first_line(alloc)?,
        out,
    };
    globals.walk(&mut lines)?;
    let Lines { mut bytes, mut out } = lines;
    pour(&mut bytes, &mut out)?;
    Ok(out)
}

// The first line, with its byte 10.
fn first_line(alloc: Global) -> Result<Vec<u8>, AllocError>
    ensures { IfOk result (λ bytes. bytes.items ≡ header V2 ++ 10 ∷ []) }
{
    let mut bytes = Vec::new(alloc);
    bytes.extend_from_slice(HEADER)?;
    bytes.push(b'\n')?;
    Ok(bytes)
}

// A writer, and lines that are to be written.
#[derive(Drop)]
struct Lines<W> {
    bytes: Vec<u8>,
    out: W,
}

impl<W: Write> Sink for Lines<W> {
    ghost use Rattle.std.specs.Io.KnownBytes.{Appends};
    ghost use Rattle.mj_gfile.specs.Spelling.{listed_lines};
    ghost use Rattle.mj_gfile.specs.Waiting.{with_waiting, appends_none, lines_more};

    ghost takes = { λ r nodes s.
        Appends (with_waiting (W.contents r.out) r.bytes.items) (with_waiting (W.contents s.out) s.bytes.items) (listed_lines nodes) };

    ghost nothing = { λ s. appends_none (with_waiting (W.contents s.out) s.bytes.items) };

    ghost more = { λ r s t xs ys one two.
        lines_more (with_waiting (W.contents r.out) r.bytes.items) (with_waiting (W.contents s.out) s.bytes.items)
        (with_waiting (W.contents t.out) t.bytes.items) xs ys one two };

    // Of what a writer closes at nothing is said.
    ghost closes = { λ _ _ _. Unit {0} };

    ghost closed = { λ _ _ _ _ _ _ _. tt };

    fn take(
        &mut self,
        global: bool,
        word: &[u8],
        subscripts: &Subs,
        text: &Text,
    ) -> Result<(), SinkStop> {
        add_line(&mut self.bytes, global, word, subscripts.as_slice(), text)?;
        if self.bytes.len() < PART {
            return Ok(());
        }
        pour(&mut self.bytes, &mut self.out)
    }
}

// Writes these bytes and empties them.
fn pour<W: Write>(bytes: &mut Vec<u8>, out: &mut W) -> Result<(), SinkStop>
    ensures gone { OnOk result (bytes.new.items ≡ []) }
    ensures written { OnOk result (Appends (W.contents out.old) (W.contents out.new) bytes.old.items) }
{
    match out.write_all(bytes) {
        Ok(()) => {
            bytes.clear();
            Ok(())
        }
        Err(error) if error.kind() == ErrorKind::OutOfMemory => Err(SinkStop::Memory),
        Err(_) => Err(SinkStop::Closed),
    }
}
