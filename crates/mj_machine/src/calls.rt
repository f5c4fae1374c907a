// What the functions give of their arguments.

ghost use Rattle.std.specs.Prelude.{◌≡◌, [], Ok, length, option_copied};
ghost use Rattle.mj_text.specs.Failing.{then_value};
ghost use Rattle.mj_num.specs.Number.{reading};
ghost use Rattle.mj_nref.specs.Spelling.{part_at};
ghost use Rattle.mj_strfn.specs.Functions.{AnswersOrMemory, number_text};
ghost use Rattle.mj_semantics.specs.Functions.{call_value, spelled_name, needed as needed_of, optional as optional_of};

use mj_ast::Function;
use mj_nref::{qlength, qsubscript};
use mj_num::Num;
use mj_strfn::{ascii, char, extract, find, justify, length, piece, reverse, translate};
use mj_text::{Failure, Limit, Text};
use std::alloc::Global;

/// What a function gives of these arguments, where texts have this limit.
pub fn value_of(
    alloc: Global,
    function: Function,
    arguments: &[Text],
    limit: Limit,
) -> Result<Text, Failure>
    ensures { AnswersOrMemory (call_value limit function arguments.now) result }
{
    let none = Text::new(alloc);
    let first = needed(arguments, 0, &none);
    let second = needed(arguments, 1, &none);
    match function {
        Function::Ascii => ascii(alloc, first, optional(arguments, 1)),
        Function::Char => char(alloc, arguments, limit),
        Function::Extract => extract(first, optional(arguments, 1), optional(arguments, 2)),
        Function::Find => find(alloc, first, second, optional(arguments, 2)),
        Function::Justify => justify(alloc, first, second, limit),
        Function::Length => Ok(length(alloc, first, optional(arguments, 1))),
        Function::Piece => piece(
            alloc,
            first,
            second,
            optional(arguments, 2),
            optional(arguments, 3),
        ),
        Function::QLength => name_length(alloc, first),
        Function::QSubscript => name_part(alloc, first, second),
        Function::Reverse => reverse(alloc, first),
        Function::Translate => translate(alloc, first, second, optional(arguments, 2)),
    }
}

/// How many subscripts a name text has.
fn name_length(alloc: Global, name: &Text) -> Result<Text, Failure>
    ensures { AnswersOrMemory (then_value (spelled_name name.now) (λ n. Ok (number_text (length n.subscripts)))) result }
{
    let count = qlength(alloc, name)?;
    Ok(Text::from_number(alloc, count as i64))
}

/// A part of a name text. That it is one is looked at before the place is read.
fn name_part(alloc: Global, name: &Text, place: &Text) -> Result<Text, Failure>
    ensures { AnswersOrMemory (then_value (spelled_name name.now) (λ n. then_value (reading place.now) (λ k. Ok (part_at n k)))) result }
{
    match Num::read(place) {
        Ok(place) => qsubscript(alloc, name, place),
        Err(fault) => {
            let _count = qlength(alloc, name)?;
            Err(Failure::Fault(fault))
        }
    }
}

/// The argument behind `n` others, which is always there.
pub fn needed<'a>(arguments: &'a [Text], n: usize, none: &'a Text) -> &'a Text
    requires { none.now ≡ [] }
    ensures { result.now ≡ needed_of n arguments.now }
{
    match arguments.get(n) {
        Some(argument) => argument,
        None => none,
    }
}

/// The argument behind `n` others, if there is one.
pub fn optional(arguments: &[Text], n: usize) -> Option<&Text>
    ensures { option_copied result ≡ optional_of n arguments.now }
{
    arguments.get(n)
}
