// Arguments that stand for numbers, and texts that stand for an answer.

ghost use Rattle.std.specs.Prelude.{◌≡◌, ◌≤◌, ◌<◌, ◌^◌, ℤ, length, IfOk, OnErr};
ghost use Rattle.std.specs.Option.{option_copied};
ghost use Rattle.mj_num.specs.Number.{reading};
ghost use Rattle.mj_text.specs.Failing.{failing};
ghost use Rattle.mj_strfn.specs.Functions.{number_or as number_or_default, from_to, number_text, place as place_of};
ghost use Rattle.mj_text.specs.declared.fault.Failure.TheVariants as failure;

use mj_num::Num;
use mj_text::{Failure, Text};
use std::alloc::Global;

/// What a text counts as where a number is wanted.
pub(crate) fn number(text: &Text) -> Result<Num, Failure>
    ensures { result ≡ failing (reading text.now) }
{
    match Num::read(text) {
        Ok(number) => Ok(number),
        Err(fault) => Err(Failure::Fault(fault)),
    }
}

/// What an argument counts as that may be left out.
pub(crate) fn number_or(default: Num, argument: Option<&Text>) -> Result<Num, Failure>
    ensures { result ≡ failing (number_or_default default (option_copied argument.entry)) }
{
    match argument {
        Some(text) => number(text),
        None => Ok(default),
    }
}

/// The first and the last place or piece that two arguments name.
pub(crate) fn first_and_last(
    first: Option<&Text>,
    last: Option<&Text>,
) -> Result<(Num, Num), Failure>
    ensures { result ≡ failing (from_to (option_copied first.entry) (option_copied last.entry)) }
{
    let first = number_or(Num::from_truth(true), first)?;
    let last = number_or(first, last)?;
    Ok((first, last))
}

/// A number as a place: 0 for one below 0.
pub(crate) fn place(number: Num) -> u64
    ensures value { result ≡ place_of number }
    ensures limit { result < 10 ^ 18 }
{
    number.value().max(0) as u64
}

/// A count or a place as a text.
pub(crate) fn count_text(alloc: Global, count: u64) -> Text
    requires { count < 10 ^ 18 }
    ensures { result ≡ number_text count }
{
    Text::from_number(alloc, count as i64)
}
