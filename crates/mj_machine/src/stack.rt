// Operands, in a vector of which the last one is the topmost.

ghost use Rattle.std.specs.Prelude.{◌≡◌, ◌+◌, ◌≤◌, ◌<◌, ◌↔◌, ◌∷◌, ◌++◌, length, drop, reverse, OnOk, OnErr, IsOkUnless};
ghost use Rattle.mj_text.specs.declared.fault.Failure.TheVariants as failure;
ghost use Rattle.mj_text.specs.declared.fault.Fault.TheVariants as fault;
ghost use Rattle.mj_text.specs.Limit.{most_bytes};
ghost use Rattle.mj_pcode.specs.Machine.{top, below, operands};

use mj_text::{Failure, Limit, Text};
use std::alloc::AllocError;

/// The topmost operand.
pub fn top(stack: &[Text]) -> &Text
    requires { 1 ≤ length stack.now }
    ensures { result.now ≡ top (reverse stack.now) }
{
    match stack.last() {
        Some(t) => t,
        None => unreachable!(),
    }
}

/// The operand below it.
pub(crate) fn second(stack: &[Text]) -> &Text
    requires { 2 ≤ length stack.now }
    ensures { result.now ≡ top (below (reverse stack.now)) }
{
    let n = stack.len();
    &stack[n - 2]
}

/// The `count` topmost operands, the topmost last.
pub fn topmost(stack: &[Text], count: usize) -> &[Text]
    requires { count ≤ length stack.now }
    ensures { result.now ≡ operands count (reverse stack.now) }
{
    let kept = stack.len() - count;
    &stack[kept..]
}

/// Takes the topmost operand off.
#[inline(always)]
pub fn take_one(stack: &mut Vec<Text>)
    requires { 1 ≤ length stack.old.items }
    ensures { reverse stack.new.items ≡ below (reverse stack.old.items) }
{
    let _top = stack.pop();
}

/// Takes the topmost operand off, and gives it.
pub fn pop(stack: &mut Vec<Text>) -> Text
    requires { 1 ≤ length stack.old.items }
    ensures value { result ≡ top (reverse stack.old.items) }
    ensures left { reverse stack.new.items ≡ below (reverse stack.old.items) }
    ensures room { stack.new.cap ≡ stack.old.cap }
{
    match stack.pop() {
        Some(top) => top,
        None => unreachable!(),
    }
}

/// Takes the `count` topmost operands off.
pub fn take_off(stack: &mut Vec<Text>, count: usize)
    requires { count ≤ length stack.old.items }
    ensures { reverse stack.new.items ≡ drop count (reverse stack.old.items) }
{
    let kept = stack.len() - count;
    stack.truncate(kept);
}

/// Puts a value on.
#[inline(always)]
pub fn push(stack: &mut Vec<Text>, value: Text) -> Result<(), AllocError>
    ensures ok { OnOk result (reverse stack.new.items ≡ value ∷ reverse stack.old.items) }
    ensures err { OnErr result (stack.new.items ≡ stack.old.items) }
{
    // `push` would give the value back where memory is wanting, and so move it twice
    stack.reserve(1)?;
    stack.push_reserved(value);
    Ok(())
}

/// Puts a value in the place of the two topmost operands. It takes no memory.
#[inline(always)]
pub(crate) fn fold(stack: &mut Vec<Text>, value: Text)
    requires { 2 ≤ length stack.old.items }
    ensures { reverse stack.new.items ≡ value ∷ below (below (reverse stack.old.items)) }
{
    let kept = stack.len() - 2;
    let _right = stack.pop();
    stack[kept] = value;
}

/// Puts the topmost operand to the end of the one below it, where that lies, and takes it off. More than the limit are `Length`.
pub(crate) fn join(stack: &mut Vec<Text>, limit: Limit) -> Result<(), Failure>
    requires { 2 ≤ length stack.old.items }
    ensures ok { OnOk result (reverse stack.new.items
        ≡ (top (below (reverse stack.old.items)) ++ top (reverse stack.old.items)) ∷ below (below (reverse stack.old.items))) }
    ensures long { (result ≡ Err (failure.Fault fault.Length))
        ↔ (most_bytes limit < length (top (below (reverse stack.old.items))) + length (top (reverse stack.old.items))) }
    ensures within { length (top (below (reverse stack.old.items))) + length (top (reverse stack.old.items)) ≤ most_bytes limit
        → IsOkUnless result failure.Memory }
    ensures err { OnErr result (stack.new.items ≡ stack.old.items) }
{
    let n = stack.len();
    let (below, right) = stack.split_at_mut(n - 1);
    append(&mut below[n - 2], &right[0], limit)?;
    take_one(stack);
    Ok(())
}

// Puts a text to the end of another.
fn append(left: &mut Text, right: &Text, limit: Limit) -> Result<(), Failure>
    ensures ok { OnOk result (left.new ≡ left.old ++ right.now) }
    ensures long { (result ≡ Err (failure.Fault fault.Length)) ↔ (most_bytes limit < length left.old + length right.now) }
    ensures within { length left.old + length right.now ≤ most_bytes limit → IsOkUnless result failure.Memory }
    ensures err { OnErr result (left.new ≡ left.old) }
{
    left.append(right, limit)
}

/// Puts a value in the place of the `count` topmost operands.
pub fn replace(stack: &mut Vec<Text>, count: usize, value: Text) -> Result<(), AllocError>
    requires { count ≤ length stack.old.items }
    ensures ok { OnOk result (reverse stack.new.items ≡ value ∷ drop count (reverse stack.old.items)) }
    ensures err { OnErr result (stack.new.items ≡ stack.old.items) }
{
    let n = stack.len();
    let kept = n - count;
    if kept < n {
        stack.truncate(kept + 1);
        stack[kept] = value;
    } else {
        stack.push(value)?;
    }
    Ok(())
}

/// The operands below the `count` topmost ones.
pub fn under(stack: &[Text], count: usize) -> &[Text]
    requires { count ≤ length stack.now }
    ensures { reverse result.now ≡ drop count (reverse stack.now) }
{
    let kept = stack.len() - count;
    &stack[..kept]
}

/// The `count` topmost operands of those below `above` and then `more` others.
pub fn below_both(stack: &[Text], above: usize, more: usize, count: usize) -> &[Text]
    requires { above + more + count ≤ length stack.now }
    ensures { result.now ≡ operands count (drop more (drop above (reverse stack.now))) }
{
    topmost(under(under(stack, above), more), count)
}

/// The operand that lies below so many others.
pub fn at(stack: &[Text], above: usize) -> &Text
    requires { above + 1 ≤ length stack.now }
    ensures { result.now ≡ top (drop above (reverse stack.now)) }
{
    top(under(stack, above))
}
