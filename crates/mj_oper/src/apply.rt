// What the operators give.

ghost use Rattle.std.specs.Prelude.{◌≡◌, true, SomeIff, IfSome, Ok};
ghost use Rattle.mj_num.specs.Number.{reading, number_of, canonic_text, is_canonic as is_canonic_of};
ghost use Rattle.mj_subs.specs.Collation.{subscript_cmp};
ghost use Rattle.mj_text.specs.Failing.{failing, Answers};
ghost use Rattle.mj_text.specs.declared.limit.Limit.{Limit as SeenLimit};
ghost use Rattle.mj_oper.specs.Operators.{binary_value, unary_value, holds as holds_of, truth_value, truth_text as text_of_truth};

use crate::op::{Op, TruthOp, UnaryOp};
use mj_num::{Num, is_canonic};
use mj_text::{Failure, Limit, Text};
use std::alloc::Global;
use std::cmp::Ordering;

/// What a binary operator gives of the values on its left and its right side. Both are read before it is applied. A text that `_` would make above the
/// limit is `Length`, and no memory is asked for then.
pub fn binary(
    alloc: Global,
    op: Op,
    left: &Text,
    right: &Text,
    limit: Limit,
) -> Result<Text, Failure>
    ensures { Answers (binary_value limit op left.now right.now) result }
{
    let number = match op {
        Op::Add => read(left)?.add(read(right)?),
        Op::Subtract => read(left)?.sub(read(right)?),
        Op::Multiply => read(left)?.mul(read(right)?),
        Op::Quotient => read(left)?.quot(read(right)?),
        Op::Remainder => read(left)?.rem(read(right)?),
        Op::Divide => read(left)?.exact(read(right)?),
        Op::Join => return left.join(right, limit),
        Op::Is(test) => return Ok(truth_text(alloc, holds(test, left, right)?)),
        Op::IsNot(test) => return Ok(truth_text(alloc, !holds(test, left, right)?)),
    };
    match number {
        Ok(number) => Ok(number.to_text(alloc)),
        Err(fault) => Err(Failure::Fault(fault)),
    }
}

/// What a binary operator gives, as a number, of two values that are kept as numbers, whatever the limit of texts is. `None` says nothing: then [`binary`]
/// says what it gives. It takes no memory, and few instructions.
pub fn of_numbers(op: Op, left: &Text, right: &Text) -> Option<Num>
    ensures { IfSome result (λ n. (limit : SeenLimit) → binary_value limit op left.now right.now ≡ Ok (canonic_text n)) }
{
    let a = Num::at_hand(left)?;
    let b = Num::at_hand(right)?;
    match op {
        Op::Add => a.add(b).ok(),
        Op::Subtract => a.sub(b).ok(),
        Op::Multiply => a.mul(b).ok(),
        Op::Quotient => a.quot(b).ok(),
        Op::Remainder => a.rem(b).ok(),
        Op::Divide => a.exact(b).ok(),
        Op::Join => None,
        Op::Is(test) => Some(Num::from_truth(holds_of_numbers(test, left, right, a, b)?)),
        Op::IsNot(test) => Some(Num::from_truth(!holds_of_numbers(test, left, right, a, b)?)),
    }
}

/// Whether what a truth operator says holds of two values that count as these numbers, where they are enough to say so.
fn holds_of_numbers(op: TruthOp, left: &Text, right: &Text, a: Num, b: Num) -> Option<bool>
    requires left { reading left.now ≡ Ok a }
    requires right { reading right.now ≡ Ok b }
    ensures { IfSome result (λ h. holds_of op left.now right.now ≡ Ok h) }
{
    match op {
        TruthOp::Equal => Some(left == right),
        TruthOp::Less => Some(a.is_less(b)),
        TruthOp::Greater => Some(b.is_less(a)),
        TruthOp::And => Some(!a.is_zero() & !b.is_zero()),
        TruthOp::Or => Some(!a.is_zero() | !b.is_zero()),
        TruthOp::Contains | TruthOp::Follows | TruthOp::SortsAfter => None,
    }
}

/// What a unary operator gives of the value behind it. It takes no memory.
pub fn unary(alloc: Global, op: UnaryOp, value: &Text) -> Result<Text, Failure>
    ensures { result ≡ failing (unary_value op value.now) }
{
    match op {
        UnaryOp::Plus => Ok(read(value)?.to_text(alloc)),
        UnaryOp::Minus => Ok(read(value)?.neg().to_text(alloc)),
        UnaryOp::Not => Ok(truth_text(alloc, !truth(value)?)),
    }
}

/// Whether a value counts as true: its number isn't 0. It takes no memory.
pub fn truth(value: &Text) -> Result<bool, Failure>
    ensures { result ≡ failing (truth_value value.now) }
{
    Ok(!read(value)?.is_zero())
}

/// Whether what a truth operator says holds.
fn holds(op: TruthOp, left: &Text, right: &Text) -> Result<bool, Failure>
    ensures { result ≡ failing (holds_of op left.now right.now) }
{
    Ok(match op {
        TruthOp::Equal => left == right,
        TruthOp::Less => read(left)?.is_less(read(right)?),
        TruthOp::Greater => {
            let left = read(left)?;
            read(right)?.is_less(left)
        }
        TruthOp::Contains => left.find(right, 0).is_some(),
        TruthOp::Follows => left.cmp_bytes(right).is_gt(),
        TruthOp::SortsAfter => compare(left, right).is_gt(),
        TruthOp::And => truth(left)? & truth(right)?,
        TruthOp::Or => truth(left)? | truth(right)?,
    })
}

/// How two texts stand to each other as subscripts.
fn compare(left: &Text, right: &Text) -> Ordering
    ensures { result ≡ subscript_cmp left.now right.now }
{
    match (canonic_number(left), canonic_number(right)) {
        (Some(left), Some(right)) => left.cmp(&right),
        (Some(_), None) => {
            if right.is_empty() {
                Ordering::Greater
            } else {
                Ordering::Less
            }
        }
        (None, Some(_)) => {
            if left.is_empty() {
                Ordering::Less
            } else {
                Ordering::Greater
            }
        }
        (None, None) => left.cmp_bytes(right),
    }
}

/// The number that a canonic text writes.
fn canonic_number(text: &Text) -> Option<Num>
    ensures { SomeIff result (is_canonic_of text.now ≡ true) (number_of text.now) }
{
    if is_canonic(text) {
        Num::read(text).ok()
    } else {
        None
    }
}

/// What a value counts as where a number is wanted.
fn read(text: &Text) -> Result<Num, Failure>
    ensures { result ≡ failing (reading text.now) }
{
    match Num::read(text) {
        Ok(number) => Ok(number),
        Err(fault) => Err(Failure::Fault(fault)),
    }
}

/// A truth value as a text.
fn truth_text(alloc: Global, truth: bool) -> Text
    ensures { result ≡ text_of_truth truth }
{
    Num::from_truth(truth).to_text(alloc)
}
