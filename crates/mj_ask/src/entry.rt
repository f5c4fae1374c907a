// Where a job starts.

ghost use Rattle.std.specs.Prelude.{◌≡◌, ◌<◌, ◌≤◌, length, true, Some, IfOk, IfSome, position};
ghost use Rattle.std.specs.Char.{is_ascii_digit};
ghost use Rattle.std.specs.List.{list_all};
ghost use Rattle.mj_subs.specs.Name.{is_word};
ghost use Rattle.mj_ask.specs.Written.{is_label, is_entry, is_caret, entry_text, entry_of, IsReading};

use mj_subs::is_word;
use mj_text::{Digits, TEXT_LIMIT, Text};
use std::alloc::{AllocError, Global};

/// A place that a job may start at: a label of a routine, or its first line where no label is given.
#[derive(Drop)]
pub struct Entry {
    pub label: Option<Text>,
    pub routine: Text,
}

impl Entry {
    /// The entry that is written so: `label^ROUTINE`, or `^ROUTINE` for the routine's first line. None is written in another way.
    pub fn read(alloc: Global, bytes: &[u8]) -> Result<Option<Entry>, AllocError>
        ensures value { IfOk result (λ r. r ≡ entry_of bytes.now) }
        ensures spelled { IfOk result (λ r. IsReading bytes.now r) }
    {
        read(alloc, bytes)
    }

    /// Whether it can be written: its label is one, if it has any, and its routine is a word.
    pub fn is_entry(&self) -> bool
        ensures { result ≡ is_entry self.now }
    {
        let mut digits = Digits::new();
        (match &self.label {
            None => true,
            Some(label) => is_label(label.bytes(&mut digits)),
        }) && is_word(self.routine.bytes(&mut digits))
    }

    /// A copy of it.
    pub fn try_clone(&self) -> Result<Entry, AllocError>
        ensures { IfOk result (λ entry. entry ≡ self.now) }
    {
        Ok(Entry {
            label: self.label.clone()?,
            routine: self.routine.try_clone()?,
        })
    }

    /// The bytes that it is written with.
    pub fn spell(&self, alloc: Global) -> Result<Vec<u8>, AllocError>
        ensures { IfOk result (λ bytes. bytes.items ≡ entry_text self.now) }
    {
        let mut digits = Digits::new();
        let mut bytes = Vec::new(alloc);
        if let Some(label) = &self.label {
            bytes.extend_from_slice(label.bytes(&mut digits))?;
        }
        bytes.push(b'^')?;
        bytes.extend_from_slice(self.routine.bytes(&mut digits))?;
        Ok(bytes)
    }
}

// The entry that is written so.
fn read(alloc: Global, bytes: &[u8]) -> Result<Option<Entry>, AllocError>
    ensures { IfOk result (λ r. r ≡ entry_of bytes.now) }
{
    let Some(at) = caret(bytes) else {
        return Ok(None);
    };
    let (label, routine) = (&bytes[..at], &bytes[at + 1..]);
    if !is_word(routine) {
        return Ok(None);
    }
    let label = match label {
        [] => None,
        _ if is_label(label) => Some(text(alloc, label)?),
        _ => return Ok(None),
    };
    let routine = text(alloc, routine)?;
    Ok(Some(Entry { label, routine }))
}

/// Where the first caret is.
fn caret(bytes: &[u8]) -> Option<usize>
    ensures { result ≡ position is_caret bytes.now }
{
    bytes.iter().position(|byte| *byte == b'^')
}

/// Whether the bytes are a label: a word, or digits.
fn is_label(bytes: &[u8]) -> bool
    ensures { result ≡ is_label bytes.now }
{
    match bytes {
        [] => false,
        _ => is_word(bytes) || (are_digits(bytes) && bytes.len() <= TEXT_LIMIT),
    }
}

fn are_digits(bytes: &[u8]) -> bool
    ensures { result ≡ list_all is_ascii_digit bytes.now }
{
    bytes.iter().all(|byte| byte.is_ascii_digit())
}

/// A text of bytes that one holds.
fn text(alloc: Global, bytes: &[u8]) -> Result<Text, AllocError>
    ensures { IfOk result (λ t. t ≡ bytes.now) }
{
    match Text::from(alloc, bytes) {
        Ok(text) => Ok(text),
        Err(_) => Err(AllocError),
    }
}
