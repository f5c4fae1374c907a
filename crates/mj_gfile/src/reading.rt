// Listings are read.

ghost use Rattle.std.specs.Prelude.{◌≡◌, ◌+◌, ◌<◌, ◌^◌, ◌⊎◌, [], true, None, length, IfOk, IfErr, Ok, Err};
ghost use Rattle.std.specs.List.{list_all};
ghost use Rattle.mj_gfile.specs.declared.error.ReadError.TheVariants as error;
ghost use Rattle.mj_store.specs.Questions.{Content};
ghost use Rattle.mj_gfile.specs.Reading.{line_of};
ghost use Rattle.mj_gfile.specs.Listing.{IsListed, IsPut, judged, lines_of, nodes_of, reading_of, version_of};
ghost use Rattle.mj_gfile.specs.Refused.{IsListingRefused};

use crate::error::ReadError;
use crate::line::{read_node, split_line};
use crate::{HEADER, OLD_HEADER};
use mj_globs::Globals;
use mj_store::Store;
use mj_subs::Name;
use mj_text::Limit;
use std::alloc::Global;

/// The globals that some bytes list. A listing of globals is refused for want of memory alone, and anything else by the first line that is
/// none: in a line, one that isn't spelled so before one over a limit, and that before one out of order. Up to the refused line the bytes
/// are a listing of some globals. A text or subscript is over the limit where it is above that of the header, or above this one.
pub fn read(alloc: Global, bytes: &[u8], limit: Limit) -> Result<Globals, ReadError>
    ensures ok { IfOk result (λ globals. reading_of limit bytes.now ≡ Ok globals.content) }
    ensures err { IfErr result (λ e. (e ≡ error.Memory) ⊎ (reading_of limit bytes.now ≡ Err e)) }
    ensures lists { IfOk result (λ globals. IsListed limit bytes.now globals.content) }
    ensures global { IfOk result (λ globals. list_all (λ e. e.0.global) globals.content ≡ true) }
    ensures refused { IfErr result (λ e. IsListingRefused limit bytes.now e) }
    ensures all { (content : Content) → IsListed limit bytes.now content → IfErr result (λ e. e ≡ error.Memory) }
{
    read_lines(alloc, bytes, limit)
}

// The globals that the header and the lines behind it list.
fn read_lines(alloc: Global, bytes: &[u8], limit: Limit) -> Result<Globals, ReadError>
    ensures ok { IfOk result (λ globals. reading_of limit bytes.now ≡ Ok globals.content) }
    ensures err { IfErr result (λ e. (e ≡ error.Memory) ⊎ (reading_of limit bytes.now ≡ Err e)) }
{
    let Some((first, rest)) = split_line(bytes) else {
        return Err(ReadError::Header);
    };
    let Some(version) = version_of(first) else {
        return Err(ReadError::Header);
    };
    read_nodes(alloc, rest, version.smaller(limit))
}

// The version whose header a line is.
fn version_of(line: &[u8]) -> Option<Limit>
    ensures { result ≡ version_of line.now }
{
    if line == OLD_HEADER {
        Some(Limit::V1)
    } else if line == HEADER {
        Some(Limit::V2)
    } else {
        None
    }
}

// The globals that the lines behind the header list.
fn read_nodes(alloc: Global, bytes: &[u8], limit: Limit) -> Result<Globals, ReadError>
    requires { length bytes.now + 2 < 2 ^ 64 }
    ensures ok { IfOk result (λ globals. nodes_of limit None 2 (lines_of bytes.now) ≡ Ok globals.content) }
    ensures err { IfErr result (λ e. (e ≡ error.Memory) ⊎ (nodes_of limit None 2 (lines_of bytes.now) ≡ Err e)) }
{
    let mut globals = Globals::new(alloc);
    let mut last = None;
    let read = put_nodes(alloc, bytes, limit, &mut globals, &mut last);
    drop(last); // for the proof
    match read {
        Ok(()) => Ok(globals),
        Err(error) => {
            drop(globals); // for the proof
            Err(error)
        }
    }
}

// Puts what these lines list to the globals, where there is nothing yet; `last` is the name in the last line that was read.
fn put_nodes(
    alloc: Global,
    bytes: &[u8],
    limit: Limit,
    globals: &mut Globals,
    last: &mut Option<Name>,
) -> Result<(), ReadError>
    requires long { length bytes.now + 2 < 2 ^ 64 }
    requires globals { globals.old.content ≡ [] }
    requires last { last.old ≡ None }
    ensures ok { IfOk result (λ u. nodes_of limit None 2 (lines_of bytes.now) ≡ Ok globals.new.content) }
    ensures err { IfErr result (λ e. (e ≡ error.Memory) ⊎ (nodes_of limit None 2 (lines_of bytes.now) ≡ Err e)) }
{
    let mut number = 2;
    let mut rest = bytes;
    while let Some((line, behind)) = split_line(rest) {
        put_node(alloc, line, number, limit, globals, last)?;
        number += 1;
        rest = behind;
    }
    if rest.is_empty() {
        Ok(())
    } else {
        Err(ReadError::Line(number))
    }
}

// Puts what one line more lists to the globals, and makes its name the last one.
fn put_node(
    alloc: Global,
    line: &[u8],
    number: usize,
    limit: Limit,
    globals: &mut Globals,
    last: &mut Option<Name>,
) -> Result<(), ReadError>
    ensures ok { IfOk result (λ u. IsPut limit last.old number line.now globals.old.content last.new globals.new.content) }
    ensures err { IfErr result (λ e. (e ≡ error.Memory) ⊎ (judged limit last.old number (line_of line.now) ≡ Err e)) }
{
    let (name, text) = read_node(alloc, line, number, last.as_ref(), limit)?;
    let put = globals.set(&name, &text);
    drop(text); // for the proof
    match put {
        Ok(()) => {
            drop(last.replace(name));
            Ok(())
        }
        Err(_) => {
            drop(name); // for the proof
            Err(ReadError::Memory)
        }
    }
}
