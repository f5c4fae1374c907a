// What the lines of a trace behind its header say.

ghost use Rattle.std.specs.Prelude.{◌≡◌, ◌&&◌, IfOk};
ghost use Rattle.mj_text.specs.Limit.{is_within};
ghost use Rattle.mj_subs.specs.Name.{is_word};
ghost use Rattle.mj_trace.specs.Reading.{skipped};
ghost use Rattle.mj_trace.specs.Trace.{limit_of};
ghost use Rattle.std.specs.Str.{bytes_eq};
ghost use Rattle.mj_trace.specs.Lines.{piece_text, is_piece, is_event, is_spot, are_told, told_in, asked, event_in, pooled, starting, piece_in, piece_of};

use crate::asked::find_ask;
use crate::fields::put_entry;
use crate::form::Form;
use crate::found::{find_spot, find_text, read_count};
use crate::head::{event_line, put_device};
use crate::run::{Run, skip, split};
use crate::told::find_reply;
use mj_ask::{Ask, Entry, Noted, Reply, Spot, is_ask, is_reply};
use mj_subs::is_word;
use mj_text::{Digits, Text};
use std::alloc::{AllocError, Global};

/// What a line says.
#[derive(Drop)]
pub(crate) enum Piece {
    /// a device, and how many sessions of it there are
    Device(Text, u32),
    /// a first job starts there
    Start(Entry),
    /// a job asked, and was told
    Event(Noted),
}

/// Reads what a line of a form says, without its byte 10: what is found there, where it is spelled so.
pub(crate) fn read_piece(
    alloc: Global,
    form: Form,
    line: &[u8],
) -> Result<Option<Piece>, AllocError>
    ensures { IfOk result (λ r. r ≡ piece_of form line.now) }
{
    let Some(piece) = find_piece(alloc, form, line)? else {
        return Ok(None);
    };
    match is_spelled(alloc, form, &piece, line) {
        Ok(true) => Ok(Some(piece)),
        Ok(false) => {
            drop(piece);
            Ok(None)
        }
        Err(error) => {
            drop(piece);
            Err(error)
        }
    }
}

// Whether it can be written, and is written so.
fn is_spelled(alloc: Global, form: Form, piece: &Piece, line: &[u8]) -> Result<bool, AllocError>
    ensures { IfOk result (λ b. b ≡ (is_piece form piece.now && bytes_eq (piece_text form piece.now) line.now)) }
{
    if !is_piece(form, piece) {
        return Ok(false);
    }
    let spelled = spell(alloc, form, piece)?;
    Ok(spelled.as_slice() == line)
}

// Spells the line of it.
fn spell(alloc: Global, form: Form, piece: &Piece) -> Result<Vec<u8>, AllocError>
    ensures { IfOk result (λ bytes. bytes.items ≡ piece_text form piece.now) }
{
    match piece {
        Piece::Device(device, count) => {
            let mut bytes = Vec::new(alloc);
            put_device(&mut bytes, device, *count)?;
            Ok(bytes)
        }
        Piece::Start(entry) => {
            let mut bytes = Vec::new(alloc);
            put_entry(alloc, &mut bytes, entry)?;
            Ok(bytes)
        }
        Piece::Event(event) => event_line(
            alloc,
            form,
            event.job,
            event.spot.as_ref(),
            &event.ask,
            &event.reply,
        ),
    }
}

// Whether it can be written.
fn is_piece(form: Form, piece: &Piece) -> bool
    ensures { result ≡ is_piece form piece.now }
{
    match piece {
        Piece::Device(name, _) => name.is_within(form.limit()),
        Piece::Start(entry) => entry.is_entry(),
        Piece::Event(event) => is_event(form, event),
    }
}

// Whether an event can be written in a form.
fn is_event(form: Form, event: &Noted) -> bool
    ensures { result ≡ is_event form event.now }
{
    is_spot(form, &event.spot)
        && are_told(&event.ask, &event.reply)
        && event.ask.is_within(form.limit())
        && event.reply.is_within(form.limit())
}

// Whether it can be written in a form where an ask came from.
fn is_spot(form: Form, spot: &Option<Spot>) -> bool
    ensures { result ≡ is_spot form spot.now }
{
    match (form, spot) {
        (_, None) => true,
        (Form::First, Some(_)) => false,
        (Form::Second(_), Some(spot)) => is_word_text(&spot.routine),
    }
}

// Whether a text is a word.
fn is_word_text(text: &Text) -> bool
    ensures { result ≡ is_word text.now }
{
    let mut digits = Digits::new();
    is_word(text.bytes(&mut digits))
}

// Whether what was asked and told can be written, and the reply is one to the ask.
fn are_told(ask: &Ask, reply: &Reply) -> bool
    ensures { result ≡ are_told ask.now reply.now }
{
    is_ask(ask) && is_reply(reply) && ask.has_reply(reply)
}

// Finds what a line may say.
fn find_piece(alloc: Global, form: Form, line: &[u8]) -> Result<Option<Piece>, AllocError>
    ensures { IfOk result (λ r. r ≡ piece_in form line.now) }
{
    let (word, rest) = split(line, Run::Letters);
    if word == b"pool".as_slice() {
        find_device(alloc, skip(rest))
    } else if word == b"start".as_slice() {
        find_start(alloc, skip(rest))
    } else {
        find_event(alloc, form, line)
    }
}

// Finds a device, behind its word.
fn find_device(alloc: Global, bytes: &[u8]) -> Result<Option<Piece>, AllocError>
    ensures { IfOk result (λ r. r ≡ pooled bytes.now) }
{
    let Some((device, rest)) = find_text(alloc, bytes)? else {
        return Ok(None);
    };
    match read_count(skip(rest)) {
        Some((count, _)) => Ok(Some(Piece::Device(device, count))),
        None => Ok(None),
    }
}

// Finds a start, behind its word.
fn find_start(alloc: Global, bytes: &[u8]) -> Result<Option<Piece>, AllocError>
    ensures { IfOk result (λ r. r ≡ starting bytes.now) }
{
    match Entry::read(alloc, bytes)? {
        Some(entry) => Ok(Some(Piece::Start(entry))),
        None => Ok(None),
    }
}

// Finds an event.
fn find_event(alloc: Global, form: Form, line: &[u8]) -> Result<Option<Piece>, AllocError>
    ensures { IfOk result (λ r. r ≡ event_in form line.now) }
{
    let Some((job, rest)) = read_count(line) else {
        return Ok(None);
    };
    match form {
        Form::First => find_asked(alloc, job, None, rest),
        Form::Second(_) => {
            let Some((spot, rest)) = find_spot(alloc, skip(rest))? else {
                return Ok(None);
            };
            find_asked(alloc, job, spot, rest)
        }
    }
}

// Finds what a job asked from a place, and what it was told.
fn find_asked(
    alloc: Global,
    job: u32,
    spot: Option<Spot>,
    bytes: &[u8],
) -> Result<Option<Piece>, AllocError>
    ensures { IfOk result (λ r. r ≡ asked job spot bytes.now) }
{
    match find_told(alloc, bytes) {
        Ok(Some((ask, reply))) => Ok(Some(Piece::Event(Noted {
            job,
            spot,
            ask,
            reply,
        }))),
        Ok(None) => {
            drop(spot);
            Ok(None)
        }
        Err(refused) => {
            drop(spot);
            Err(refused)
        }
    }
}

// Finds what was asked, and what was told.
fn find_told(alloc: Global, bytes: &[u8]) -> Result<Option<(Ask, Reply)>, AllocError>
    ensures { IfOk result (λ r. r ≡ told_in (skipped bytes.now)) }
{
    let Some((ask, rest)) = find_ask(alloc, skip(bytes))? else {
        return Ok(None);
    };
    match find_reply(alloc, &ask, skip(rest)) {
        Ok(Some(reply)) => Ok(Some((ask, reply))),
        Ok(None) => {
            drop(ask);
            Ok(None)
        }
        Err(refused) => {
            drop(ask);
            Err(refused)
        }
    }
}
