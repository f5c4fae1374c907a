// Lines that are answered.

ghost use Rattle.std.specs.Prelude.{◌≡◌, ◌==◌, length, IfOk};
ghost use Rattle.mj_dialogue.specs.Lines.{lined};
ghost use Rattle.mj_inspect.specs.Listed.{or_mark, or_nothing};

use std::alloc::{AllocError, Global};

/// A line of these words.
pub fn said(alloc: Global, words: &[u8]) -> Result<Vec<u8>, AllocError>
    ensures { IfOk result (λ bytes. bytes.items ≡ lined words.now) }
{
    let mut bytes = Vec::new(alloc);
    bytes.extend_from_slice(words)?;
    bytes.push(b'\n')?;
    Ok(bytes)
}

/// Lines that are listed, or that there are none.
pub fn or_nothing(alloc: Global, lines: Vec<u8>) -> Result<Vec<u8>, AllocError>
    ensures { IfOk result (λ bytes. bytes.items ≡ or_nothing lines.items) }
{
    if is_none(&lines) {
        return said(alloc, b"none");
    }
    Ok(lines)
}

// Lines that are listed, or a mark where there are none.
pub fn or_mark(alloc: Global, lines: Vec<u8>) -> Result<Vec<u8>, AllocError>
    ensures { IfOk result (λ bytes. bytes.items ≡ or_mark lines.items) }
{
    if is_none(&lines) {
        return said(alloc, b"-");
    }
    Ok(lines)
}

// Whether there are none.
fn is_none(lines: &[u8]) -> bool
    ensures { result ≡ (length lines.now == 0) }
{
    lines.is_empty()
}
