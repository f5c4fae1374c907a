// The functions on the bytes of a text.

ghost use Rattle.std.specs.Prelude.{◌≡◌, Ok};
ghost use Rattle.std.specs.Option.{option_copied};
ghost use Rattle.mj_text.specs.Failing.{failing, Answers};
ghost use Rattle.mj_strfn.specs.Functions.{ascii_value, char_value, extract_value, find_value, justify_value, reverse_value, byte_of_text, AnswersOrMemory};
ghost use Rattle.mj_strfn.specs.Parts.{AnswersByte};

use crate::arguments::{count_text, first_and_last, number, number_or, place};
use mj_num::Num;
use mj_text::{Digits, Failure, Fault, Limit, Text};
use std::alloc::Global;

/// `$ASCII`: the code of the byte at a place, the first where none is given; -1 where no byte stands. It takes no memory.
pub fn ascii(alloc: Global, text: &Text, at: Option<&Text>) -> Result<Text, Failure>
    ensures { result ≡ failing (ascii_value text.now (option_copied at.entry)) }
{
    let at = place(number_or(Num::from_truth(true), at)?);
    let mut digits = Digits::new();
    let bytes = text.bytes(&mut digits);
    if at == 0 || at > bytes.len() as u64 {
        return Ok(Text::from_number(alloc, -1));
    }
    Ok(count_text(alloc, u64::from(bytes[at as usize - 1])))
}

/// `$CHAR`: the bytes of these codes. One below 0 gives no byte, one above 255 is the fault `Char`. More bytes than the limit are `Length`.
pub fn char(alloc: Global, codes: &[Text], limit: Limit) -> Result<Text, Failure>
    ensures { AnswersOrMemory (char_value limit codes.now) result }
{
    match codes {
        [code] => char_of_one(alloc, code),
        _ => char_of_all(alloc, codes, limit),
    }
}

/// The text of the byte of one code.
fn char_of_one(alloc: Global, code: &Text) -> Result<Text, Failure>
    ensures { AnswersOrMemory (byte_of_text code.now) result }
{
    match byte(code)? {
        Some(byte) => Text::from(alloc, &[byte]),
        None => Ok(Text::new(alloc)),
    }
}

/// The text of the bytes of any number of codes.
#[inline(never)]
fn char_of_all(alloc: Global, codes: &[Text], limit: Limit) -> Result<Text, Failure>
    ensures { AnswersOrMemory (char_value limit codes.now) result }
{
    let mut bytes = Vec::new(alloc);
    for code in codes {
        if let Some(byte) = byte(code)? {
            bytes.push(byte)?;
        }
    }
    if bytes.len() > limit.bytes() {
        return Err(Failure::Fault(Fault::Length));
    }
    Text::from(alloc, bytes.as_slice())
}

/// The byte of a code, if it is one.
fn byte(code: &Text) -> Result<Option<u8>, Failure>
    ensures { AnswersByte (byte_of_text code.now) result }
{
    let code = number(code)?;
    if code.value() < 0 {
        return Ok(None);
    }
    match u8::try_from(place(code)) {
        Ok(byte) => Ok(Some(byte)),
        Err(_) => Err(Failure::Fault(Fault::Char)),
    }
}

/// `$EXTRACT`: the bytes from a first to a last place. The first is 1 where it isn't given, the last is the first.
pub fn extract(text: &Text, first: Option<&Text>, last: Option<&Text>) -> Result<Text, Failure>
    ensures { Answers (extract_value text.now (option_copied first.entry) (option_copied last.entry)) result }
{
    let (first, last) = first_and_last(first, last)?;
    let first = place(first).max(1);
    Ok(text.cut(first as usize - 1, place(last) as usize)?)
}

/// `$FIND`: the place behind the first occurrence of a part, from a place on, 1 where none is given; 0 without an occurrence. It
/// takes no memory.
pub fn find(alloc: Global, text: &Text, part: &Text, from: Option<&Text>) -> Result<Text, Failure>
    ensures { result ≡ failing (find_value text.now part.now (option_copied from.entry)) }
{
    let from = place(number_or(Num::from_truth(true), from)?).max(1);
    if part.is_empty() {
        return Ok(count_text(alloc, from));
    }
    let limit = text.len();
    Ok(match text.find(part, from as usize - 1) {
        Some(found) => {
            prove!(found <= limit);
            count_text(alloc, (found + part.len() + 1) as u64)
        }
        None => count_text(alloc, 0),
    })
}

/// `$JUSTIFY`: the text with blanks before it, up to a width. Where the width or the text is above the limit, that is `Length`, and no memory is asked for.
pub fn justify(alloc: Global, text: &Text, width: &Text, limit: Limit) -> Result<Text, Failure>
    ensures { Answers (justify_value limit text.now width.now) result }
{
    let width = place(number(width)?);
    let mut digits = Digits::new();
    let bytes = text.bytes(&mut digits);
    if width > limit.bytes() as u64 || bytes.len() > limit.bytes() {
        return Err(Failure::Fault(Fault::Length));
    }
    let mut justified = vec![in alloc; b' '; (width as usize).saturating_sub(bytes.len())]?;
    justified.extend_from_slice(bytes)?;
    Text::from(alloc, justified.as_slice())
}

/// `$REVERSE`: the bytes from last to first.
pub fn reverse(alloc: Global, text: &Text) -> Result<Text, Failure>
    ensures { Answers (Ok (reverse_value text.now)) result }
{
    let mut digits = Digits::new();
    let mut reversed = Vec::from_slice(alloc, text.bytes(&mut digits))?;
    reversed.as_mut_slice().reverse();
    Text::from(alloc, reversed.as_slice())
}
