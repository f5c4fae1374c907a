// Reading variables, and their names.

ghost use Rattle.std.specs.Prelude.{◌≡◌, ◌+◌, ◌<◌, ◌^◌, IsTrue, drop, IfOk, OnErr, ◌≤◌, length};
ghost use Rattle.mj_ast.specs.declared.expr.Scope.TheVariants as scopes;
ghost use Rattle.mj_semantics.specs.State.{plain_name};
ghost use Rattle.mj_semantics.specs.Evaluation as evaluation;
ghost use Rattle.mj_semantics.specs.Accesses.{answer_told};
ghost use Rattle.mj_strfn.specs.Functions.{AnswersOrMemory};
ghost use Rattle.mj_store.specs.declared.access.Access.TheVariants as accesses;
ghost use Rattle.mj_variable_ops.specs.Answers as answers;
ghost use Rattle.mj_variable_ops.specs.Asked.{AsksFor};
ghost use Rattle.mj_pcode.specs.Machine.{operands};
ghost use Rattle.mj_pcode.specs.declared.instr.Instr.TheVariants as instrs;
ghost use Rattle.mj_machine.specs.Kept.{Does, DoesAlone, Obeys, ObeysAlone, Stays, stack_of, with_value, replied};

use crate::globals::{ask, at_hand};
use crate::names::{global_name, refusal};
use mj_ask::Reply;
use mj_ast::Scope;
use mj_machine::quiet::fail;
use mj_machine::values::put_told;
use mj_machine::{Control, Machine, TurnOutcome, stack};
use mj_pcode::Reference;
use mj_store::{Access, Answer};
use mj_subs::SUBSCRIPTS_LIMIT;
use mj_text::{Failure, Fault, Text};
use std::alloc::{AllocError, Global};

/// Puts the value of a variable in the place of its subscripts.
#[inline(never)]
pub fn load(
    alloc: Global,
    pc: usize,
    reference: &Reference,
    machine: &mut Machine,
    given: Option<&Reply>,
) -> Result<TurnOutcome, AllocError>
    requires next { pc + 1 < 2 ^ 64 }
    requires enough { reference.now.count ≤ length machine.old.stack.items }
    ensures ok { IfOk result (λ step. Obeys (instrs.Load reference.now) pc machine.old (replied given.entry) step machine.new) }
    ensures err { OnErr result (Stays machine.old machine.new) }
{
    if is_plain_local(reference) {
        return read_word(pc, &reference.word, machine);
    }
    match reference.scope {
        Scope::Local => load_local(pc, reference, machine),
        Scope::Global => load_named(alloc, pc, reference, machine, given),
    }
}

/// Whether a variable is a local without subscripts, whose name needn't be made.
#[inline]
pub fn is_plain_local(reference: &Reference) -> bool
    ensures plain { IsTrue result → (reference.now.scope ≡ scopes.Local) × (reference.now.count ≡ 0) }
    ensures only { reference.now.scope ≡ scopes.Local → reference.now.count ≡ 0 → IsTrue result }
{
    match reference.scope {
        Scope::Local => reference.count == 0,
        Scope::Global => false,
    }
}

// Puts the value of a local without subscripts on the stack.
fn read_word(pc: usize, word: &Text, machine: &mut Machine) -> Result<TurnOutcome, AllocError>
    requires { pc + 1 < 2 ^ 64 }
    ensures ok { IfOk result
        (λ step. DoesAlone (λ next. evaluation.read (plain_name word.now) (with_value machine.old pc 0 next)) machine.old step machine.new) }
    ensures err { OnErr result (Stays machine.old machine.new) }
{
    match machine.locals.value_of_word(word) {
        Some(value) => {
            let value = value.try_clone()?;
            stack::push(&mut machine.stack, value)?;
            machine.control = Control::At(pc + 1);
            Ok(TurnOutcome::Next)
        }
        None => Ok(fail(Fault::Undefined, machine)),
    }
}

// Puts the value of a local in the place of its subscripts. Makes no name.
#[inline(never)]
fn load_local(
    pc: usize,
    reference: &Reference,
    machine: &mut Machine,
) -> Result<TurnOutcome, AllocError>
    requires next { pc + 1 < 2 ^ 64 }
    requires local { reference.now.scope ≡ scopes.Local }
    requires enough { reference.now.count ≤ length machine.old.stack.items }
    ensures ok { IfOk result (λ step. ObeysAlone (instrs.Load reference.now) pc machine.old step machine.new) }
    ensures err { OnErr result (Stays machine.old machine.new) }
{
    if let Some(fault) = refusal(stack::topmost(&machine.stack, reference.count)) {
        return Ok(fail(fault, machine));
    }
    read_under(pc, &reference.word, reference.count, machine)
}

// Puts the value of the local of this word, whose subscripts lie on top, in their place.
fn read_under(
    pc: usize,
    word: &Text,
    count: usize,
    machine: &mut Machine,
) -> Result<TurnOutcome, AllocError>
    requires next { pc + 1 < 2 ^ 64 }
    requires enough { count ≤ length machine.old.stack.items }
    ensures ok { IfOk result (λ step. DoesAlone (λ next. evaluation.read (answers.local_with word.now (operands count (stack_of machine.old)))
        (with_value machine.old pc count next)) machine.old step machine.new) }
    ensures err { OnErr result (Stays machine.old machine.new) }
{
    let subscripts = stack::topmost(&machine.stack, count);
    match machine.locals.value_under(word, subscripts)? {
        Some(value) => {
            let value = value.try_clone()?;
            stack::replace(&mut machine.stack, count, value)?;
            machine.control = Control::At(pc + 1);
            Ok(TurnOutcome::Next)
        }
        None => Ok(fail(Fault::Undefined, machine)),
    }
}

// Puts the value of a global in the place of its subscripts.
#[inline(never)]
fn load_named(
    alloc: Global,
    pc: usize,
    reference: &Reference,
    machine: &mut Machine,
    given: Option<&Reply>,
) -> Result<TurnOutcome, AllocError>
    requires next { pc + 1 < 2 ^ 64 }
    requires global { reference.now.scope ≡ scopes.Global }
    requires enough { reference.now.count ≤ length machine.old.stack.items }
    ensures ok { IfOk result (λ step. Obeys (instrs.Load reference.now) pc machine.old (replied given.entry) step machine.new) }
    ensures err { OnErr result (Stays machine.old machine.new) }
{
    if let Some(fault) = refusal(stack::topmost(&machine.stack, reference.count)) {
        return Ok(fail(fault, machine));
    }
    read_global(alloc, pc, &reference.word, reference.count, machine, given)
}

// Puts the value of the global of this word, whose subscripts lie on top, in their place. Makes its name for an ask, and none where the reply is at hand.
fn read_global(
    alloc: Global,
    pc: usize,
    word: &Text,
    count: usize,
    machine: &mut Machine,
    given: Option<&Reply>,
) -> Result<TurnOutcome, AllocError>
    requires next { pc + 1 < 2 ^ 64 }
    requires enough { count ≤ length machine.old.stack.items }
    requires few { length (operands count (stack_of machine.old)) ≤ SUBSCRIPTS_LIMIT }
    ensures ok { IfOk result (λ step. Does (λ next. evaluation.read (answers.global_with word.now (operands count (stack_of machine.old)))
        (with_value machine.old pc count next)) machine.old (replied given.entry) step machine.new) }
    ensures err { OnErr result (Stays machine.old machine.new) }
{
    match at_hand(machine, given) {
        None => ask_value(alloc, word, count, 0, 0, machine),
        Some(reply) => put_told(pc, count, value_read(reply), machine),
    }
}

/// Asks for the value of the global of this word, so many subscripts of which lie below `above` and then `more` other operands.
#[inline(never)]
pub(crate) fn ask_value(
    alloc: Global,
    word: &Text,
    count: usize,
    above: usize,
    more: usize,
    machine: &mut Machine,
) -> Result<TurnOutcome, AllocError>
    requires enough { above + more + count ≤ length machine.old.stack.items }
    requires few { length (operands count (drop more (drop above (stack_of machine.old)))) ≤ SUBSCRIPTS_LIMIT }
    ensures ok { IfOk result (λ step. AsksFor (accesses.Value
        (answers.global_with word.now (operands count (drop more (drop above (stack_of machine.old)))))) machine.old step machine.new) }
    ensures err { OnErr result (Stays machine.old machine.new) }
{
    let subscripts = stack::below_both(&machine.stack, above, more, count);
    let name = global_name(alloc, word, subscripts)?;
    ask(alloc, Access::Value(name), machine)
}

// Gives the value that a reply brings to who reads.
fn value_read(reply: &Reply) -> Result<Text, Failure>
    ensures { AnswersOrMemory (answers.value_read (answer_told reply.now)) result }
{
    match reply {
        Reply::Answer(Answer::Value(Some(value))) => Ok(value.try_clone()?),
        Reply::Answer(Answer::Limit) => Err(Failure::Fault(Fault::Limit)),
        _ => Err(Failure::Fault(Fault::Undefined)),
    }
}

/// Tests that the subscripts on the stack make the variable's name, and faults where they don't.
#[inline(never)]
pub fn check(
    pc: usize,
    reference: &Reference,
    machine: &mut Machine,
) -> Result<TurnOutcome, AllocError>
    requires next { pc + 1 < 2 ^ 64 }
    requires enough { reference.now.count ≤ length machine.old.stack.items }
    ensures ok { IfOk result (λ step. ObeysAlone (instrs.CheckName reference.now) pc machine.old step machine.new) }
    ensures err { OnErr result (Stays machine.old machine.new) }
{
    if is_plain_local(reference) {
        machine.control = Control::At(pc + 1);
        return Ok(TurnOutcome::Next);
    }
    if let Some(fault) = refusal(stack::topmost(&machine.stack, reference.count)) {
        return Ok(fail(fault, machine));
    }
    machine.control = Control::At(pc + 1);
    Ok(TurnOutcome::Next)
}
