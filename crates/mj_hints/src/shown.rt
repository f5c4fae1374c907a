// What is shown of a refusal.

ghost use Rattle.std.specs.Prelude.{◌≡◌, ◌++◌, ◌∷◌, ◌-◌, [], None, Some, OnOk, length, map, take, drop};
ghost use Rattle.std.specs.Option.{option_map};
ghost use Rattle.mj_hints.specs.Hints.{Nearly, Said, help_seen, slice_of, front_there};
ghost use Rattle.mj_hints.specs.Phrases.{phrase_of};
ghost use Rattle.mj_hints.specs.Refusals.{line_at as the_line};
ghost use Rattle.mj_hints.specs.Shown.{caret_front, caret_line, help_behind, help_text, limit_case as the_limit_case, plain_line, refusal_text, shown_at};
ghost use Rattle.mj_hints.specs.Shown.{shown_byte as the_shown_byte, shown_bytes, source_line, start_of, stuck_text, under_bytes, word_shown};

use crate::hint::hint_at;
use crate::phrases::Hint;
use crate::text::{from, line_at};
use crate::token::front;
use mj_ast::{Construct, LINE_LIMIT, ROUTINE_LIMIT};
use mj_rou::LoadError;
use std::alloc::{AllocError, Global};

/// The most bytes of a line that are shown.
const SHOWN: usize = 150;

/// How many bytes a column is away from the front of what is shown, at most.
const NEAR: usize = 100;

/// The most bytes of a word that are shown.
const WORD: usize = 40;

/// Puts what is shown of a refusal of a text to the end of some bytes: the line of the source, a caret under the column, the word that stands there, and what
/// helps. Where memory is refused a part of it may stand there.
pub fn put_help(
    alloc: Global,
    bytes: &mut Vec<u8>,
    text: &[u8],
    refusal: &LoadError,
) -> Result<(), AllocError>
    ensures { OnOk result (bytes.new.items ≡ bytes.old.items ++ refusal_text text.now refusal.now) }
{
    match refusal {
        LoadError::Name => put_plain(bytes, Hint::Named),
        LoadError::Stuck { line, column, .. } => {
            put_stuck(alloc, bytes, line_of(text, *line), *column, None)
        }
        LoadError::LeftOut {
            line,
            column,
            construct,
            ..
        } => put_stuck(
            alloc,
            bytes,
            line_of(text, *line),
            *column,
            Some(*construct),
        ),
        LoadError::Deep { line, column, .. } => {
            put_at(
                alloc,
                bytes,
                line_of(text, *line),
                *column,
                Some(Hint::Deep),
            )
        }
        LoadError::Twice { line, .. } => {
            put_at(alloc, bytes, line_of(text, *line), 1, Some(Hint::Again))
        }
        LoadError::Long { line, .. } => put_long(bytes, line_of(text, *line), *line),
        LoadError::Memory => Ok(()),
    }
}

// The line of this number, which counts from 1.
fn line_of(text: &[u8], number: usize) -> &[u8]
    ensures { result.now ≡ the_line (number - 1) text.now }
{
    line_at(text, number.saturating_sub(1))
}

// Puts what is shown of a line that can't go on at the column.
fn put_stuck(
    alloc: Global,
    bytes: &mut Vec<u8>,
    line: &[u8],
    column: usize,
    construct: Option<Construct>,
) -> Result<(), AllocError>
    ensures { OnOk result (bytes.new.items ≡ bytes.old.items ++ stuck_text construct column line.now) }
{
    let at = column.saturating_sub(1);
    let hint = hint_at(alloc, construct, up_to(line, at), from(line, at))?;
    put_at(alloc, bytes, line, column, hint)
}

// Puts what is shown at a column of a line.
fn put_at(
    alloc: Global,
    bytes: &mut Vec<u8>,
    line: &[u8],
    column: usize,
    hint: Option<Hint>,
) -> Result<(), AllocError>
    ensures { OnOk result (bytes.new.items ≡ bytes.old.items ++ shown_at column line.now (option_map help_seen hint)) }
{
    put_source(bytes, line, column.saturating_sub(NEAR))?;
    put_caret(alloc, bytes, line, column, hint)
}

/// Puts a line of the source to the end of some bytes, from so many of its bytes on, behind a margin. Where memory is refused a part of it may stand there.
pub fn put_source(bytes: &mut Vec<u8>, line: &[u8], start: usize) -> Result<(), AllocError>
    ensures { OnOk result (bytes.new.items ≡ bytes.old.items ++ source_line start line.now) }
{
    if start == 0 {
        bytes.extend_from_slice(b"    ")?;
    } else {
        bytes.extend_from_slice(b" .. ")?;
    }
    let rest = from(line, start);
    put_shown(bytes, up_to(rest, SHOWN))?;
    if start < line.len() && line.len() - start > SHOWN {
        bytes.extend_from_slice(b" ..")?;
    }
    bytes.push(b'\n')?;
    Ok(())
}

// Puts the line of the caret.
fn put_caret(
    alloc: Global,
    bytes: &mut Vec<u8>,
    line: &[u8],
    column: usize,
    hint: Option<Hint>,
) -> Result<(), AllocError>
    ensures { OnOk result (bytes.new.items ≡ bytes.old.items ++ caret_line column line.now (option_map help_seen hint)) }
{
    put_front(bytes, line, column)?;
    bytes.extend_from_slice(b"^ ")?;
    put_there(alloc, bytes, from(line, column.saturating_sub(1)))?;
    put_behind(bytes, hint)?;
    bytes.push(b'\n')?;
    Ok(())
}

/// Puts what stands before a caret under a column of a line to the end of some bytes. Where memory is refused a part of it may stand there.
pub fn put_front(bytes: &mut Vec<u8>, line: &[u8], column: usize) -> Result<(), AllocError>
    ensures { OnOk result (bytes.new.items ≡ bytes.old.items ++ caret_front (start_of column) column line.now) }
{
    let start = column.saturating_sub(NEAR);
    let at = column.saturating_sub(1);
    bytes.extend_from_slice(b"    ")?;
    put_under(bytes, up_to(from(line, start), at.saturating_sub(start)))?;
    Ok(())
}

// Puts the first word of the bytes that stand there.
fn put_there(alloc: Global, bytes: &mut Vec<u8>, there: &[u8]) -> Result<(), AllocError>
    ensures { OnOk result (bytes.new.items ≡ bytes.old.items ++ word_shown (slice_of (front_there there.now))) }
{
    match front(alloc, there)? {
        None => put_word(bytes, b""),
        Some((_, slice)) => put_word(bytes, slice),
    }
}

// Puts a word as it is shown.
fn put_word(bytes: &mut Vec<u8>, word: &[u8]) -> Result<(), AllocError>
    ensures { OnOk result (bytes.new.items ≡ bytes.old.items ++ word_shown word.now) }
{
    match word {
        [] => bytes.extend_from_slice(b"the line's end"),
        [b' ' | b'\t', ..] => bytes.extend_from_slice(b"a blank"),
        _ => put_shown(bytes, up_to(word, WORD)),
    }
}

// Puts what helps, if something does.
fn put_behind(bytes: &mut Vec<u8>, hint: Option<Hint>) -> Result<(), AllocError>
    ensures { OnOk result (bytes.new.items ≡ bytes.old.items ++ help_behind (option_map help_seen hint)) }
{
    let Some(hint) = hint else {
        return Ok(());
    };
    bytes.extend_from_slice(b": ")?;
    put_hint(bytes, hint)
}

// Puts what helps.
fn put_hint(bytes: &mut Vec<u8>, hint: Hint) -> Result<(), AllocError>
    ensures { OnOk result (bytes.new.items ≡ bytes.old.items ++ help_text (help_seen hint)) }
{
    match hint {
        Hint::Near(name) => put_near(bytes, name),
        other => bytes.extend_from_slice(other.phrase().as_bytes()),
    }
}

// Puts the name that a word nearly is.
fn put_near(bytes: &mut Vec<u8>, name: &[u8]) -> Result<(), AllocError>
    ensures { OnOk result (bytes.new.items ≡ bytes.old.items ++ help_text (Nearly name.now)) }
{
    bytes.extend_from_slice(b"did you mean `")?;
    bytes.extend_from_slice(name)?;
    bytes.extend_from_slice(b"`?")?;
    Ok(())
}

// Puts a line that has a phrase alone.
fn put_plain(bytes: &mut Vec<u8>, hint: Hint) -> Result<(), AllocError>
    ensures { OnOk result (bytes.new.items ≡ bytes.old.items ++ plain_line hint) }
{
    bytes.extend_from_slice(b"    ")?;
    bytes.extend_from_slice(hint.phrase().as_bytes())?;
    bytes.push(b'\n')?;
    Ok(())
}

// Puts what is shown of a line of this number that is over a limit.
fn put_long(bytes: &mut Vec<u8>, line: &[u8], number: usize) -> Result<(), AllocError>
    ensures { OnOk result (bytes.new.items ≡ bytes.old.items ++ (source_line 0 line.now ++ plain_line (the_limit_case number line.now))) }
{
    put_source(bytes, line, 0)?;
    put_plain(bytes, limit_case(line, number))
}

// Which limit a line of this number is over.
fn limit_case(line: &[u8], number: usize) -> Hint
    ensures { result ≡ the_limit_case number line.now }
{
    if number > ROUTINE_LIMIT {
        Hint::LongRoutine
    } else if line.len() > LINE_LIMIT {
        Hint::LongLine
    } else {
        Hint::LongWord
    }
}

// Puts bytes of the source as they are shown.
fn put_shown(bytes: &mut Vec<u8>, source: &[u8]) -> Result<(), AllocError>
    ensures { OnOk result (bytes.new.items ≡ bytes.old.items ++ shown_bytes source.now) }
{
    for byte in source {
        bytes.push(shown_byte(*byte))?;
    }
    Ok(())
}

// A byte as it is shown.
fn shown_byte(byte: u8) -> u8
    ensures { result ≡ the_shown_byte byte }
{
    if (byte < 32 && byte != b'\t') || byte == 127 {
        b'?'
    } else {
        byte
    }
}

// Puts what stands under bytes, before the caret.
fn put_under(bytes: &mut Vec<u8>, source: &[u8]) -> Result<(), AllocError>
    ensures { OnOk result (bytes.new.items ≡ bytes.old.items ++ under_bytes source.now) }
{
    for byte in source {
        if *byte == b'\t' {
            bytes.push(b'\t')?;
        } else if *byte < 128 || *byte >= 192 {
            bytes.push(b' ')?;
        }
    }
    Ok(())
}

// The first bytes, so many of them as there are.
fn up_to(bytes: &[u8], count: usize) -> &[u8]
    ensures { result.now ≡ take count bytes.now }
{
    if count < bytes.len() {
        &bytes[..count]
    } else {
        bytes
    }
}
