// Pieces of a variable's value.

ghost use Rattle.std.specs.Prelude.{◌≡◌, ◌+◌, ◌<◌, ◌^◌, drop, option_copied, IfOk, OnErr, ◌≤◌, length};
ghost use Rattle.mj_ast.specs.declared.expr.Scope.TheVariants as scopes;
ghost use Rattle.mj_text.specs.Failing.{failing, then_value};
ghost use Rattle.mj_strfn.specs.Functions.{AnswersOrMemory, set_piece_value, assigned_pieces as assigned_by};
ghost use Rattle.mj_semantics.specs.Functions.{needed as needed_of, optional as optional_of};
ghost use Rattle.mj_semantics.specs.Commands as commands;
ghost use Rattle.mj_semantics.specs.Accesses.{answer_told};
ghost use Rattle.mj_variable_ops.specs.Answers as answers;
ghost use Rattle.mj_pcode.specs.declared.instr.Instr.TheVariants as instrs;
ghost use Rattle.mj_pcode.specs.Machine.{top, operands};
ghost use Rattle.mj_machine.specs.Kept.{stack_of, Does, DoesAlone, Obeys, Stays, with_value, replied};

use crate::globals::at_hand;
use crate::names::refusal;
use crate::variables::ask_value;
use mj_ask::Reply;
use mj_ast::Scope;
use mj_machine::calls::{needed, optional};
use mj_machine::quiet::fail;
use mj_machine::values::{put_told, put_value};
use mj_machine::{Control, Machine, TurnOutcome, stack};
use mj_pcode::{Depth, Reference};
use mj_store::Answer;
use mj_strfn::{PieceRange, assigned_pieces, set_piece};
use mj_subs::SUBSCRIPTS_LIMIT;
use mj_text::{Failure, Fault, Limit, Text};
use std::alloc::{AllocError, Global};

/// Puts a variable's value on, in which some pieces are the topmost operand. The arguments that say which lie at a depth, and the
/// variable's subscripts below them. Where they are none, the next instruction is passed over.
#[inline(never)]
pub fn assign_piece(
    alloc: Global,
    pc: usize,
    reference: &Reference,
    count: usize,
    depth: Depth,
    machine: &mut Machine,
    given: Option<&Reply>,
) -> Result<TurnOutcome, AllocError>
    requires next { pc + 2 < 2 ^ 64 }
    requires value { 1 ≤ length machine.old.stack.items }
    requires enough { depth.above + count + reference.now.count ≤ length machine.old.stack.items }
    requires taken { depth.taken ≤ length machine.old.stack.items }
    ensures ok { IfOk result (λ step. Obeys (instrs.SetPiece reference.now count depth) pc machine.old (replied given.entry) step machine.new) }
    ensures err { OnErr result (Stays machine.old machine.new) }
{
    let subscripts = stack::below_both(&machine.stack, depth.above, count, reference.count);
    if let Some(fault) = refusal(subscripts) {
        return Ok(fail(fault, machine));
    }
    let arguments = stack::below_both(&machine.stack, depth.above, 0, count);
    match range_of(alloc, arguments) {
        Err(failure) => match failure {
            Failure::Fault(fault) => {
                machine.control = Control::Faulted(fault);
                Ok(TurnOutcome::Next)
            }
            Failure::Memory => Err(AllocError),
        },
        Ok(None) => {
            stack::take_off(&mut machine.stack, depth.taken);
            machine.control = Control::At(pc + 2);
            Ok(TurnOutcome::Next)
        }
        Ok(Some(range)) => renew_range(
            alloc,
            pc,
            reference,
            count,
            depth.above,
            range,
            machine,
            given,
        ),
    }
}

// Tells which pieces the arguments mean, if any.
fn range_of(alloc: Global, arguments: &[Text]) -> Result<Option<PieceRange>, Failure>
    ensures { result ≡ failing (assigned_by (needed_of 0 arguments.now) (optional_of 1 arguments.now) (optional_of 2 arguments.now)) }
{
    let none = Text::new(alloc);
    let separator = needed(arguments, 0, &none);
    assigned_pieces(separator, optional(arguments, 1), optional(arguments, 2))
}

// Assigns the topmost operand to the pieces of a range. `count` arguments, of which the first lies between the pieces, lie below `above` operands.
fn renew_range(
    alloc: Global,
    pc: usize,
    reference: &Reference,
    count: usize,
    above: usize,
    range: PieceRange,
    machine: &mut Machine,
    given: Option<&Reply>,
) -> Result<TurnOutcome, AllocError>
    requires next { pc + 1 < 2 ^ 64 }
    requires value { 1 ≤ length machine.old.stack.items }
    requires enough { above + count + reference.now.count ≤ length machine.old.stack.items }
    requires few { length (operands reference.now.count (drop count (drop above (stack_of machine.old)))) ≤ SUBSCRIPTS_LIMIT }
    ensures ok { IfOk result (λ step. Does (λ next. commands.renewed
        (answers.name_with reference.now.scope reference.now.word (operands reference.now.count (drop count (drop above (stack_of machine.old)))))
        (needed_of 0 (operands count (drop above (stack_of machine.old)))) range (top (stack_of machine.old)) (with_value machine.old pc 0 next))
        machine.old (replied given.entry) step machine.new) }
    ensures err { OnErr result (Stays machine.old machine.new) }
{
    match reference.scope {
        Scope::Local => renew_local(alloc, pc, reference, count, above, range, machine),
        Scope::Global => renew_global(alloc, pc, reference, count, above, range, machine, given),
    }
}

// Assigns them to those of a local. Makes no name.
fn renew_local(
    alloc: Global,
    pc: usize,
    reference: &Reference,
    count: usize,
    above: usize,
    range: PieceRange,
    machine: &mut Machine,
) -> Result<TurnOutcome, AllocError>
    requires next { pc + 1 < 2 ^ 64 }
    requires local { reference.now.scope ≡ scopes.Local }
    requires value { 1 ≤ length machine.old.stack.items }
    requires enough { above + count + reference.now.count ≤ length machine.old.stack.items }
    ensures ok { IfOk result (λ step. DoesAlone (λ next. commands.renewed
        (answers.name_with reference.now.scope reference.now.word (operands reference.now.count (drop count (drop above (stack_of machine.old)))))
        (needed_of 0 (operands count (drop above (stack_of machine.old)))) range (top (stack_of machine.old)) (with_value machine.old pc 0 next))
        machine.old step machine.new) }
    ensures err { OnErr result (Stays machine.old machine.new) }
{
    let none = Text::new(alloc);
    let separator = needed(stack::below_both(&machine.stack, above, 0, count), 0, &none);
    let subscripts = stack::below_both(&machine.stack, above, count, reference.count);
    let old = machine.locals.value_under(&reference.word, subscripts)?;
    let value = stack::top(&machine.stack);
    let limit = machine.bounds.limit;
    let renewed = with_pieces(alloc, old, separator, range, value, limit);
    put_value(pc, 0, renewed, machine)?;
    Ok(TurnOutcome::Next)
}

// Assigns them to those of a global. Makes its name for an ask, and none where the reply is at hand.
fn renew_global(
    alloc: Global,
    pc: usize,
    reference: &Reference,
    count: usize,
    above: usize,
    range: PieceRange,
    machine: &mut Machine,
    given: Option<&Reply>,
) -> Result<TurnOutcome, AllocError>
    requires next { pc + 1 < 2 ^ 64 }
    requires global { reference.now.scope ≡ scopes.Global }
    requires value { 1 ≤ length machine.old.stack.items }
    requires enough { above + count + reference.now.count ≤ length machine.old.stack.items }
    requires few { length (operands reference.now.count (drop count (drop above (stack_of machine.old)))) ≤ SUBSCRIPTS_LIMIT }
    ensures ok { IfOk result (λ step. Does (λ next. commands.renewed
        (answers.name_with reference.now.scope reference.now.word (operands reference.now.count (drop count (drop above (stack_of machine.old)))))
        (needed_of 0 (operands count (drop above (stack_of machine.old)))) range (top (stack_of machine.old)) (with_value machine.old pc 0 next))
        machine.old (replied given.entry) step machine.new) }
    ensures err { OnErr result (Stays machine.old machine.new) }
{
    match at_hand(machine, given) {
        None => ask_value(
            alloc,
            &reference.word,
            reference.count,
            above,
            count,
            machine,
        ),
        Some(reply) => {
            let none = Text::new(alloc);
            let separator = needed(stack::below_both(&machine.stack, above, 0, count), 0, &none);
            let value = stack::top(&machine.stack);
            let limit = machine.bounds.limit;
            let renewed = renewed(alloc, reply, separator, range, value, limit);
            put_told(pc, 0, renewed, machine)
        }
    }
}

// Makes the new value. The old one is empty where there is none.
fn with_pieces(
    alloc: Global,
    old: Option<&Text>,
    separator: &Text,
    range: PieceRange,
    value: &Text,
    limit: Limit,
) -> Result<Text, Failure>
    ensures { AnswersOrMemory (set_piece_value limit (commands.or_empty (option_copied old.entry)) separator.now range value.now) result }
{
    match old {
        Some(old) => set_piece(alloc, old, separator, range, value, limit),
        None => {
            let none = Text::new(alloc);
            set_piece(alloc, &none, separator, range, value, limit)
        }
    }
}

// Makes the new value, by a reply that brings the old one.
fn renewed(
    alloc: Global,
    reply: &Reply,
    separator: &Text,
    range: PieceRange,
    value: &Text,
    limit: Limit,
) -> Result<Text, Failure>
    ensures { AnswersOrMemory (then_value (answers.value_or_empty (answer_told reply.now))
        (λ old. set_piece_value limit old separator.now range value.now)) result }
{
    match reply {
        Reply::Answer(Answer::Value(Some(old))) => {
            with_pieces(alloc, Some(old), separator, range, value, limit)
        }
        Reply::Answer(Answer::Limit) => Err(Failure::Fault(Fault::Limit)),
        _ => with_pieces(alloc, None, separator, range, value, limit),
    }
}
