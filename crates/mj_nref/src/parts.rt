// How many subscripts a name text has, and each of them.

ghost use Rattle.std.specs.Prelude.{◌≡◌, ◌≤◌, ◌⊎◌, length, IfOk, IfErr, MatchOption, None};
ghost use Rattle.mj_text.specs.declared.fault.Failure.TheVariants as failure;
ghost use Rattle.mj_text.specs.declared.fault.Fault.TheVariants as fault;
ghost use Rattle.mj_nref.specs.Spelling.{part_at, word_text};
ghost use Rattle.mj_nref.specs.Reading.{name_of};

use crate::read::{read_name, text_of};
use mj_num::Num;
use mj_subs::{Name, SUBSCRIPTS_LIMIT};
use mj_text::{Digits, Failure, Fault, Text};
use std::alloc::{AllocError, Global};

/// How many subscripts a name text has. One that is no name text is `Subscript`.
pub fn qlength(alloc: Global, text: &Text) -> Result<usize, Failure>
    ensures ok { IfOk result (λ k. MatchOption (name_of text.now) ⊥ (λ n. k ≡ length n.subscripts)) }
    ensures few { IfOk result (λ k. k ≤ SUBSCRIPTS_LIMIT) }
    ensures err { IfErr result (λ e. (e ≡ failure.Memory)
        ⊎ ((e ≡ failure.Fault fault.Subscript) × (name_of text.now ≡ None))) }
{
    match read_name(alloc, text)? {
        Some(name) => Ok(name.subscripts().len()),
        None => Err(Failure::Fault(Fault::Subscript)),
    }
}

/// The word of a name text with its `^` for 0, its subscript at that place for a place from 1, and else the empty text.
/// One that is no name text is `Subscript`, whatever the place.
pub fn qsubscript(alloc: Global, text: &Text, place: Num) -> Result<Text, Failure>
    ensures ok { IfOk result (λ t. MatchOption (name_of text.now) ⊥ (λ n. t ≡ part_at n place)) }
    ensures err { IfErr result (λ e. (e ≡ failure.Memory)
        ⊎ ((e ≡ failure.Fault fault.Subscript) × (name_of text.now ≡ None))) }
{
    let Some(name) = read_name(alloc, text)? else {
        return Err(Failure::Fault(Fault::Subscript));
    };
    Ok(part_of(alloc, &name, place)?)
}

fn part_of(alloc: Global, name: &Name, place: Num) -> Result<Text, AllocError>
    ensures { IfOk result (λ t. t ≡ part_at name.now place) }
{
    let place = place.value();
    if place < 0 {
        return Ok(Text::new(alloc));
    }
    let place = place as usize;
    if place == 0 {
        return word_of(alloc, name);
    }
    match name.subscripts().get(place - 1) {
        Some(sub) => sub.text().try_clone(),
        None => Ok(Text::new(alloc)),
    }
}

fn word_of(alloc: Global, name: &Name) -> Result<Text, AllocError>
    ensures { IfOk result (λ t. t ≡ word_text name.now.global name.now.word) }
{
    let mut bytes = Vec::new(alloc);
    if name.is_global() {
        bytes.push(b'^')?;
    }
    let mut digits = Digits::new();
    bytes.extend_from_slice(name.word().bytes(&mut digits))?;
    text_of(alloc, bytes.as_slice())
}
