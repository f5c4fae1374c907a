// What is told of runs by chance, where hints are wanted.

ghost use Rattle.std.specs.Prelude.{◌≡◌, ◌≤◌, ◌++◌, length, take, codes, IfOk, OnOk};
ghost use Rattle.std.specs.String.{string_bytes};
ghost use Rattle.mj_search.specs.Told.{behind_head, cut, each_end, end_line, end_lines, ends_lines, how_word, indented, rest_line, whether_over};

use mj_explore::End;
use std::alloc::{AllocError, Global};

// The most ends that are told.
const ENDS: usize = 10;
// The most bytes that are told of an end.
const BYTES: usize = 400;
// How many bytes stand before what is told of it: whether all jobs ended, and the header of a listing.
const HEAD: usize = 14;

/// What is told of the ends of runs: which came how often.
pub fn told_ends(alloc: Global, ends: &[End]) -> Result<Vec<u8>, AllocError>
    ensures { IfOk result (λ bytes. bytes.items ≡ ends_lines ends.now) }
{
    let mut bytes = Vec::new(alloc);
    put_ends(alloc, &mut bytes, ends)?;
    Ok(bytes)
}

// Puts the first of these ends to the end of some bytes, and how many others there are.
fn put_ends(alloc: Global, bytes: &mut Vec<u8>, ends: &[End]) -> Result<(), AllocError>
    ensures { OnOk result (bytes.new.items ≡ bytes.old.items ++ ends_lines ends.now) }
{
    if ends.len() > ENDS {
        let front = &ends[..ENDS];
        put_each(alloc, bytes, front)?;
        put_rest(alloc, bytes, ends.len() - ENDS)?;
        Ok(())
    } else {
        put_each(alloc, bytes, ends)
    }
}

// Puts how many other ends there are to the end of some bytes.
fn put_rest(alloc: Global, bytes: &mut Vec<u8>, count: usize) -> Result<(), AllocError>
    ensures { OnOk result (bytes.new.items ≡ bytes.old.items ++ rest_line count) }
{
    let line = rest_line(alloc, count)?;
    bytes.extend_from_slice(line.as_bytes())
}

// The line on how many other ends there are.
fn rest_line(alloc: Global, count: usize) -> Result<String, AllocError>
    ensures { IfOk result (λ line. string_bytes line ≡ rest_line count) }
{
    let line = format!(in alloc; "    ends that aren't shown: {count}\n")?;
    Ok(line)
}

// Puts each of these ends to the end of some bytes.
fn put_each(alloc: Global, bytes: &mut Vec<u8>, ends: &[End]) -> Result<(), AllocError>
    ensures { OnOk result (bytes.new.items ≡ bytes.old.items ++ each_end ends.now) }
{
    'ends: for end in ends {
        put_end(alloc, bytes, end)?;
    }
    Ok(())
}

// Puts an end to the end of some bytes: how many runs had it, and what it is, as far as there is room.
fn put_end(alloc: Global, bytes: &mut Vec<u8>, end: &End) -> Result<(), AllocError>
    ensures { OnOk result (bytes.new.items ≡ bytes.old.items ++ end_lines end.now) }
{
    let line = end_line(alloc, end.runs, how_word(whether_over(&end.text)))?;
    bytes.extend_from_slice(line.as_bytes())?;
    put_shown(alloc, bytes, behind_head(&end.text))?;
    Ok(())
}

// Puts what is shown of these bytes to the end of others.
fn put_shown(alloc: Global, bytes: &mut Vec<u8>, shown: &[u8]) -> Result<(), AllocError>
    ensures { OnOk result (bytes.new.items ≡ bytes.old.items ++ cut shown.now) }
{
    if shown.len() > BYTES {
        let text = dotted(alloc, front(shown, BYTES))?;
        put_indented(bytes, &text)
    } else {
        put_indented(bytes, shown)
    }
}

// These bytes, and two dots in place of those that are left out.
fn dotted(alloc: Global, text: &[u8]) -> Result<Vec<u8>, AllocError>
    ensures { IfOk result (λ bytes. bytes.items ≡ text.now ++ codes "..\n") }
{
    let mut bytes = Vec::new(alloc);
    bytes.extend_from_slice(text)?;
    bytes.extend_from_slice(b"..\n")?;
    Ok(bytes)
}

// The first of these bytes, so many.
fn front(text: &[u8], most: usize) -> &[u8]
    requires { most ≤ length text.now }
    ensures { result.now ≡ take most text.now }
{
    &text[..most]
}

// The line on how many runs had an end, and whether all jobs ended.
fn end_line(alloc: Global, runs: u32, how: &str) -> Result<String, AllocError>
    ensures { IfOk result (λ line. string_bytes line ≡ end_line runs how.now) }
{
    let line = format!(in alloc; "    runs that ended so: {runs}, {how}\n")?;
    Ok(line)
}

// The word for whether all jobs ended.
fn how_word(over: bool) -> &'static str
    ensures { result.now ≡ how_word over }
{
    if over {
        "with all jobs over"
    } else {
        "with jobs that haven't ended"
    }
}

// Whether all jobs ended, by the text of an end.
fn whether_over(text: &[u8]) -> bool
    ensures { result ≡ whether_over text.now }
{
    match text.first() {
        Some(byte) => *byte == b'+',
        None => false,
    }
}

// What stands behind that, and behind the header of a listing.
fn behind_head(text: &[u8]) -> &[u8]
    ensures { result.now ≡ behind_head text.now }
{
    if text.len() > HEAD {
        &text[HEAD..]
    } else {
        b""
    }
}

// Puts some lines to the end of some bytes, each behind six blanks.
fn put_indented(bytes: &mut Vec<u8>, text: &[u8]) -> Result<(), AllocError>
    ensures { OnOk result (bytes.new.items ≡ bytes.old.items ++ indented 10 text.now) }
{
    let mut last = b'\n';
    'bytes: for byte in text {
        if last == b'\n' {
            bytes.extend_from_slice(b"      ")?;
        }
        bytes.push(*byte)?;
        last = *byte;
    }
    Ok(())
}
