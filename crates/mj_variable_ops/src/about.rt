// Functions of variables.

ghost use Rattle.std.specs.Prelude.{◌≡◌, ◌+◌, ◌<◌, ◌^◌, true, false, Some, drop, option_copied, IsTrue, IfOk, OnErr, ◌≤◌, length};
ghost use Rattle.mj_ast.specs.declared.expr.Scope.TheVariants as scopes;
ghost use Rattle.mj_subs.specs.Name.{Name as NameOf};
ghost use Rattle.mj_semantics.specs.Functions.{optional};
ghost use Rattle.mj_semantics.specs.Outcome as told;
ghost use Rattle.mj_semantics.specs.Names.{asks as asks_of};
ghost use Rattle.mj_semantics.specs.Evaluation as evaluation;
ghost use Rattle.mj_pcode.specs.declared.instr.Instr.TheVariants as instrs;
ghost use Rattle.mj_pcode.specs.Machine.{operands};
ghost use Rattle.mj_variable_ops.specs.Answers as answers;
ghost use Rattle.mj_variable_ops.specs.Asked as asked;
ghost use Rattle.mj_machine.specs.Kept.{stack_of, Does, DoesAlone, Obeys, ObeysAlone, Stays, with_value, replied};

use crate::globals::{ask, at_hand};
use crate::names::{global_name, name_for, refusal_for};
use crate::tellings::{
    asks, misled, question, spelled, tells_no_name, told_by, told_here, told_under,
};
use mj_ask::Reply;
use mj_ast::{NameFunction, Scope};
use mj_machine::quiet::fail;
use mj_machine::values::{put_told, put_value};
use mj_machine::{Control, Machine, TurnOutcome, stack};
use mj_pcode::Reference;
use mj_subs::{Name, SUBSCRIPTS_LIMIT};
use mj_text::Text;
use std::alloc::{AllocError, Global};

/// Tests that the subscripts on the stack make a name that the function may be about, and faults where they don't.
#[inline(never)]
pub fn named(
    pc: usize,
    function: NameFunction,
    reference: &Reference,
    machine: &mut Machine,
) -> Result<TurnOutcome, AllocError>
    requires next { pc + 1 < 2 ^ 64 }
    requires enough { reference.now.count ≤ length machine.old.stack.items }
    ensures ok { IfOk result (λ step. ObeysAlone (instrs.CheckNamed function reference.now) pc machine.old step machine.new) }
    ensures err { OnErr result (Stays machine.old machine.new) }
{
    if let Some(fault) = refusal_for(function, stack::topmost(&machine.stack, reference.count)) {
        return Ok(fail(fault, machine));
    }
    machine.control = Control::At(pc + 1);
    Ok(TurnOutcome::Next)
}

/// Puts what a function gives in the place of the `count` operands that it takes.
#[inline(never)]
pub fn about(
    alloc: Global,
    pc: usize,
    function: NameFunction,
    reference: &Reference,
    count: usize,
    machine: &mut Machine,
    given: Option<&Reply>,
) -> Result<TurnOutcome, AllocError>
    requires next { pc + 1 < 2 ^ 64 }
    requires whole { reference.now.count ≤ count }
    requires enough { count ≤ length machine.old.stack.items }
    ensures ok { IfOk result (λ step. Obeys (instrs.CallNameFunction function reference.now count) pc machine.old (replied given.entry) step machine.new) }
    ensures err { OnErr result (Stays machine.old machine.new) }
{
    if is_told_here(function, reference) {
        return about_local(alloc, pc, function, reference, count, machine);
    }
    if is_asked(function, reference) {
        return about_global(alloc, pc, function, reference, count, machine, given);
    }
    about_named(alloc, pc, function, reference, count, machine)
}

/// Whether it is a local, and the function needs no name of it.
fn is_told_here(function: NameFunction, reference: &Reference) -> bool
    ensures { IsTrue result → (reference.now.scope ≡ scopes.Local) × (asked.tells_no_name function ≡ true) }
{
    match reference.scope {
        Scope::Local => tells_no_name(function),
        Scope::Global => false,
    }
}

/// Whether it is a global, and the function asks something of it.
fn is_asked(function: NameFunction, reference: &Reference) -> bool
    ensures global { IsTrue result → (reference.now.scope ≡ scopes.Global) × (asks_of function ≡ true) }
    ensures local { result ≡ false → asks_of function ≡ true → reference.now.scope ≡ scopes.Local }
{
    match reference.scope {
        Scope::Local => false,
        Scope::Global => asks(function),
    }
}

/// Puts what a function gives of a local in the place of the operands. Makes no name.
#[inline(never)]
fn about_local(
    alloc: Global,
    pc: usize,
    function: NameFunction,
    reference: &Reference,
    count: usize,
    machine: &mut Machine,
) -> Result<TurnOutcome, AllocError>
    requires next { pc + 1 < 2 ^ 64 }
    requires local { reference.now.scope ≡ scopes.Local }
    requires tells { asked.tells_no_name function ≡ true }
    requires whole { reference.now.count ≤ count }
    requires enough { count ≤ length machine.old.stack.items }
    ensures ok { IfOk result (λ step. ObeysAlone (instrs.CallNameFunction function reference.now count) pc machine.old step machine.new) }
    ensures err { OnErr result (Stays machine.old machine.new) }
{
    let others = count - reference.count;
    let subscripts = stack::topmost(stack::under(&machine.stack, others), reference.count);
    if let Some(fault) = refusal_for(function, subscripts) {
        return Ok(fail(fault, machine));
    }
    let other = foremost(stack::topmost(&machine.stack, others));
    let word = &reference.word;
    let value = told_under(alloc, function, word, subscripts, other, &machine.locals);
    put_value(pc, count, value, machine)?;
    Ok(TurnOutcome::Next)
}

/// Lends the first text, if there is one.
#[inline]
pub fn foremost(texts: &[Text]) -> Option<&Text>
    ensures { option_copied result ≡ optional 0 texts.now }
{
    texts.get(0)
}

/// Puts what a function that asks gives of a global in the place of the operands. Makes its name for an ask, and none where the reply is at hand.
#[inline(never)]
fn about_global(
    alloc: Global,
    pc: usize,
    function: NameFunction,
    reference: &Reference,
    count: usize,
    machine: &mut Machine,
    given: Option<&Reply>,
) -> Result<TurnOutcome, AllocError>
    requires next { pc + 1 < 2 ^ 64 }
    requires global { reference.now.scope ≡ scopes.Global }
    requires asks { asks_of function ≡ true }
    requires whole { reference.now.count ≤ count }
    requires enough { count ≤ length machine.old.stack.items }
    ensures ok { IfOk result (λ step. Obeys (instrs.CallNameFunction function reference.now count) pc machine.old (replied given.entry) step machine.new) }
    ensures err { OnErr result (Stays machine.old machine.new) }
{
    let others = count - reference.count;
    let subscripts = stack::topmost(stack::under(&machine.stack, others), reference.count);
    if let Some(fault) = refusal_for(function, subscripts) {
        return Ok(fail(fault, machine));
    }
    match at_hand(machine, given) {
        None => ask_about(
            alloc,
            function,
            &reference.word,
            reference.count,
            others,
            machine,
        ),
        Some(reply) => take_about(alloc, pc, function, count, others, reply, machine),
    }
}

/// Asks of the global of this word what a function is to be told. Its subscripts lie below so many other operands.
#[inline(never)]
fn ask_about(
    alloc: Global,
    function: NameFunction,
    word: &Text,
    count: usize,
    others: usize,
    machine: &mut Machine,
) -> Result<TurnOutcome, AllocError>
    requires asks { asks_of function ≡ true }
    requires enough { others + count ≤ length machine.old.stack.items }
    requires few { length (operands count (drop others (stack_of machine.old))) ≤ SUBSCRIPTS_LIMIT }
    ensures ok { IfOk result (λ step. asked.AsksAbout function (answers.global_with word.now (operands count (drop others (stack_of machine.old))))
        (optional 0 (operands others (stack_of machine.old))) machine.old step machine.new) }
    ensures err { OnErr result (Stays machine.old machine.new) }
{
    let subscripts = stack::topmost(stack::under(&machine.stack, others), count);
    let name = global_name(alloc, word, subscripts)?;
    let other = foremost(stack::topmost(&machine.stack, others));
    match question(function, name, other) {
        Ok(access) => ask(alloc, access, machine),
        Err(fault) => Ok(fail(fault, machine)),
    }
}

/// Puts what a function makes of a reply in the place of the operands, unless what stands behind the variable says that nothing was to be asked.
fn take_about(
    alloc: Global,
    pc: usize,
    function: NameFunction,
    count: usize,
    others: usize,
    reply: &Reply,
    machine: &mut Machine,
) -> Result<TurnOutcome, AllocError>
    requires next { pc + 1 < 2 ^ 64 }
    requires asks { asks_of function ≡ true }
    requires enough { count ≤ length machine.old.stack.items }
    requires behind { others ≤ count }
    requires more { machine.old.replied < machine.old.bounds.events }
    ensures ok { IfOk result (λ step. (x : NameOf) → x.global ≡ true → Does (λ next.
        evaluation.about function x (optional 0 (operands others (stack_of machine.old))) (with_value machine.old pc count next))
        machine.old (Some reply.now) step machine.new) }
    ensures err { OnErr result (Stays machine.old machine.new) }
{
    let other = foremost(stack::topmost(&machine.stack, others));
    if let Some(fault) = misled(function, other) {
        return Ok(fail(fault, machine));
    }
    let value = told_by(alloc, function, other, reply, machine.bounds.limit);
    put_told(pc, count, value, machine)
}

/// Puts what a function gives of a variable by its name in the place of the operands. Asks nothing.
#[inline(never)]
fn about_named(
    alloc: Global,
    pc: usize,
    function: NameFunction,
    reference: &Reference,
    count: usize,
    machine: &mut Machine,
) -> Result<TurnOutcome, AllocError>
    requires next { pc + 1 < 2 ^ 64 }
    requires here { asks_of function ≡ true → reference.now.scope ≡ scopes.Local }
    requires whole { reference.now.count ≤ count }
    requires enough { count ≤ length machine.old.stack.items }
    ensures ok { IfOk result (λ step. ObeysAlone (instrs.CallNameFunction function reference.now count) pc machine.old step machine.new) }
    ensures err { OnErr result (Stays machine.old machine.new) }
{
    let others = count - reference.count;
    let subscripts = stack::topmost(stack::under(&machine.stack, others), reference.count);
    let name = match name_for(alloc, function, reference, subscripts)? {
        Ok(name) => name,
        Err(fault) => return Ok(fail(fault, machine)),
    };
    let other = first(stack::topmost(&machine.stack, others))?;
    let step = inquire(alloc, pc, function, count, &name, other.as_ref(), machine);
    drop(name);
    step
}

/// Copies the first text, if there is one.
fn first(texts: &[Text]) -> Result<Option<Text>, AllocError>
    ensures { IfOk result (λ text. text ≡ optional 0 texts.now) }
{
    match texts.get(0) {
        Some(text) => Ok(Some(text.try_clone()?)),
        None => Ok(None),
    }
}

/// Puts what a function gives of this name, of a local where it asks, in the place of the operands.
fn inquire(
    alloc: Global,
    pc: usize,
    function: NameFunction,
    count: usize,
    name: &Name,
    other: Option<&Text>,
    machine: &mut Machine,
) -> Result<TurnOutcome, AllocError>
    requires next { pc + 1 < 2 ^ 64 }
    requires local { asks_of function ≡ true → name.now.global ≡ false }
    requires enough { count ≤ length machine.old.stack.items }
    ensures ok { IfOk result (λ step. DoesAlone (λ next.
        evaluation.about function name.now (option_copied other.entry) (with_value machine.old pc count next)) machine.old step machine.new) }
    ensures err { OnErr result (Stays machine.old machine.new) }
{
    if !asks(function) {
        let text = spelled(alloc, name, machine.bounds.limit);
        put_value(pc, count, text, machine)?;
        return Ok(TurnOutcome::Next);
    }
    inquire_local(alloc, pc, function, count, name, other, machine)
}

/// Puts what a function that asks gives of a local, which is looked at where it stands, in the place of the operands.
fn inquire_local(
    alloc: Global,
    pc: usize,
    function: NameFunction,
    count: usize,
    name: &Name,
    other: Option<&Text>,
    machine: &mut Machine,
) -> Result<TurnOutcome, AllocError>
    requires next { pc + 1 < 2 ^ 64 }
    requires local { name.now.global ≡ false }
    requires asks { asks_of function ≡ true }
    requires enough { count ≤ length machine.old.stack.items }
    ensures ok { IfOk result (λ step. DoesAlone (λ next.
        evaluation.about function name.now (option_copied other.entry) (with_value machine.old pc count next)) machine.old step machine.new) }
    ensures err { OnErr result (Stays machine.old machine.new) }
{
    let value = told_here(
        alloc,
        function,
        name,
        other,
        &machine.locals,
        machine.bounds.limit,
    );
    put_value(pc, count, value, machine)?;
    Ok(TurnOutcome::Next)
}
