// Assigning variables, and taking them away.

ghost use Rattle.std.specs.Prelude.{◌≡◌, ◌+◌, ◌<◌, ◌^◌, true, false, drop, IfOk, OnErr, ◌≤◌, length};
ghost use Rattle.mj_ast.specs.declared.expr.Scope.TheVariants as scopes;
ghost use Rattle.mj_store.specs.declared.access.Access.TheVariants as access_kinds;
ghost use Rattle.mj_semantics.specs.State.{plain_name};
ghost use Rattle.mj_semantics.specs.Outcome as told;
ghost use Rattle.mj_semantics.specs.Commands as commands;
ghost use Rattle.mj_semantics.specs.Accesses.{answer_told};
ghost use Rattle.mj_variable_ops.specs.Answers as answers;
ghost use Rattle.mj_variable_ops.specs.Asked.{AsksFor};
ghost use Rattle.mj_pcode.specs.declared.instr.Instr.TheVariants as instrs;
ghost use Rattle.mj_pcode.specs.Machine.{top, operands};
ghost use Rattle.mj_machine.specs.Kept.{stack_of, DidAlone, Does, DoesAlone, Obeys, ObeysAlone, Stays, TakesReply, without, replied};

use crate::globals::{ask, at_hand};
use crate::names::{global_name, refusal};
use crate::variables::is_plain_local;
use mj_ask::Reply;
use mj_ast::Scope;
use mj_machine::quiet::fail;
use mj_machine::{Control, Machine, TurnOutcome, stack};
use mj_pcode::{Depth, Reference};
use mj_store::{Access, Answer};
use mj_subs::SUBSCRIPTS_LIMIT;
use mj_text::{Fault, Text};
use std::alloc::{AllocError, Global};

/// Assigns the topmost operand to the variable whose subscripts lie at a depth.
#[inline(never)]
pub fn store(
    alloc: Global,
    pc: usize,
    reference: &Reference,
    depth: Depth,
    machine: &mut Machine,
    given: Option<&Reply>,
) -> Result<TurnOutcome, AllocError>
    requires next { pc + 1 < 2 ^ 64 }
    requires value { 1 ≤ length machine.old.stack.items }
    requires enough { depth.above + reference.now.count ≤ length machine.old.stack.items }
    requires taken { depth.taken ≤ length machine.old.stack.items }
    ensures ok { IfOk result (λ step. Obeys (instrs.Store reference.now depth) pc machine.old (replied given.entry) step machine.new) }
    ensures err { OnErr result (Stays machine.old machine.new) }
{
    if is_plain_local(reference) {
        return store_word(pc, &reference.word, depth.taken, machine);
    }
    match reference.scope {
        Scope::Local => store_subscripted(pc, reference, depth, machine),
        Scope::Global => store_named(alloc, pc, reference, depth, machine, given),
    }
}

// Assigns the topmost operand to a local without subscripts, and then takes `taken` operands off.
fn store_word(
    pc: usize,
    word: &Text,
    taken: usize,
    machine: &mut Machine,
) -> Result<TurnOutcome, AllocError>
    requires next { pc + 1 < 2 ^ 64 }
    requires value { 1 ≤ length machine.old.stack.items }
    requires enough { taken ≤ length machine.old.stack.items }
    ensures ok { IfOk result (λ step. DoesAlone (λ next.
        commands.store (plain_name word.now) (top (stack_of machine.old)) (without machine.old pc taken next)) machine.old step machine.new) }
    ensures err { OnErr result (Stays machine.old machine.new) }
{
    machine.locals.set_word(word, stack::top(&machine.stack))?;
    stack::take_off(&mut machine.stack, taken);
    machine.control = Control::At(pc + 1);
    Ok(TurnOutcome::Next)
}

// Assigns the topmost operand to a local whose subscripts lie at a depth. Makes no name.
#[inline(never)]
fn store_subscripted(
    pc: usize,
    reference: &Reference,
    depth: Depth,
    machine: &mut Machine,
) -> Result<TurnOutcome, AllocError>
    requires next { pc + 1 < 2 ^ 64 }
    requires local { reference.now.scope ≡ scopes.Local }
    requires value { 1 ≤ length machine.old.stack.items }
    requires enough { depth.above + reference.now.count ≤ length machine.old.stack.items }
    requires taken { depth.taken ≤ length machine.old.stack.items }
    ensures ok { IfOk result (λ step. ObeysAlone (instrs.Store reference.now depth) pc machine.old step machine.new) }
    ensures err { OnErr result (Stays machine.old machine.new) }
{
    let subscripts = stack::below_both(&machine.stack, depth.above, 0, reference.count);
    if let Some(fault) = refusal(subscripts) {
        return Ok(fail(fault, machine));
    }
    store_under(pc, &reference.word, reference.count, depth, machine)
}

// Assigns the topmost operand to the local of this word, so many subscripts of which lie at a depth.
fn store_under(
    pc: usize,
    word: &Text,
    count: usize,
    depth: Depth,
    machine: &mut Machine,
) -> Result<TurnOutcome, AllocError>
    requires next { pc + 1 < 2 ^ 64 }
    requires value { 1 ≤ length machine.old.stack.items }
    requires enough { depth.above + count ≤ length machine.old.stack.items }
    requires taken { depth.taken ≤ length machine.old.stack.items }
    ensures ok { IfOk result (λ step. DoesAlone (λ next. commands.store (answers.local_with word.now (operands count (drop depth.above (stack_of machine.old))))
        (top (stack_of machine.old)) (without machine.old pc depth.taken next)) machine.old step machine.new) }
    ensures err { OnErr result (Stays machine.old machine.new) }
{
    let subscripts = stack::below_both(&machine.stack, depth.above, 0, count);
    machine
        .locals
        .set_under(word, subscripts, stack::top(&machine.stack))?;
    stack::take_off(&mut machine.stack, depth.taken);
    machine.control = Control::At(pc + 1);
    Ok(TurnOutcome::Next)
}

// Assigns the topmost operand to a global whose subscripts lie at a depth.
#[inline(never)]
fn store_named(
    alloc: Global,
    pc: usize,
    reference: &Reference,
    depth: Depth,
    machine: &mut Machine,
    given: Option<&Reply>,
) -> Result<TurnOutcome, AllocError>
    requires next { pc + 1 < 2 ^ 64 }
    requires global { reference.now.scope ≡ scopes.Global }
    requires value { 1 ≤ length machine.old.stack.items }
    requires enough { depth.above + reference.now.count ≤ length machine.old.stack.items }
    requires taken { depth.taken ≤ length machine.old.stack.items }
    ensures ok { IfOk result (λ step. Obeys (instrs.Store reference.now depth) pc machine.old (replied given.entry) step machine.new) }
    ensures err { OnErr result (Stays machine.old machine.new) }
{
    let subscripts = stack::below_both(&machine.stack, depth.above, 0, reference.count);
    if let Some(fault) = refusal(subscripts) {
        return Ok(fail(fault, machine));
    }
    store_global(
        alloc,
        pc,
        &reference.word,
        reference.count,
        depth,
        machine,
        given,
    )
}

// Assigns the topmost operand to the global of this word, so many subscripts of which lie at a depth. Makes its name for an ask alone.
fn store_global(
    alloc: Global,
    pc: usize,
    word: &Text,
    count: usize,
    depth: Depth,
    machine: &mut Machine,
    given: Option<&Reply>,
) -> Result<TurnOutcome, AllocError>
    requires next { pc + 1 < 2 ^ 64 }
    requires value { 1 ≤ length machine.old.stack.items }
    requires enough { depth.above + count ≤ length machine.old.stack.items }
    requires taken { depth.taken ≤ length machine.old.stack.items }
    requires few { length (operands count (drop depth.above (stack_of machine.old))) ≤ SUBSCRIPTS_LIMIT }
    ensures ok { IfOk result (λ step. Does (λ next. commands.store (answers.global_with word.now (operands count (drop depth.above (stack_of machine.old))))
        (top (stack_of machine.old)) (without machine.old pc depth.taken next)) machine.old (replied given.entry) step machine.new) }
    ensures err { OnErr result (Stays machine.old machine.new) }
{
    match at_hand(machine, given) {
        None => ask_store(alloc, word, count, depth.above, machine),
        Some(reply) => Ok(take_done(pc, depth.taken, reply, machine)),
    }
}

// Asks that the topmost operand be assigned to the global of this word, so many subscripts of which lie below `above` operands.
#[inline(never)]
fn ask_store(
    alloc: Global,
    word: &Text,
    count: usize,
    above: usize,
    machine: &mut Machine,
) -> Result<TurnOutcome, AllocError>
    requires value { 1 ≤ length machine.old.stack.items }
    requires enough { above + count ≤ length machine.old.stack.items }
    requires few { length (operands count (drop above (stack_of machine.old))) ≤ SUBSCRIPTS_LIMIT }
    ensures ok { IfOk result (λ step. AsksFor (access_kinds.Set (answers.global_with word.now (operands count (drop above (stack_of machine.old))))
        (top (stack_of machine.old))) machine.old step machine.new) }
    ensures err { OnErr result (Stays machine.old machine.new) }
{
    let subscripts = stack::below_both(&machine.stack, above, 0, count);
    let name = global_name(alloc, word, subscripts)?;
    let value = stack::top(&machine.stack).try_clone()?;
    ask(alloc, Access::Set(name, value), machine)
}

/// Kills the variable whose subscripts lie on top, with all that is below it.
#[inline(never)]
pub fn kill(
    alloc: Global,
    pc: usize,
    reference: &Reference,
    machine: &mut Machine,
    given: Option<&Reply>,
) -> Result<TurnOutcome, AllocError>
    requires next { pc + 1 < 2 ^ 64 }
    requires enough { reference.now.count ≤ length machine.old.stack.items }
    ensures ok { IfOk result (λ step. Obeys (instrs.Kill reference.now) pc machine.old (replied given.entry) step machine.new) }
    ensures err { OnErr result (Stays machine.old machine.new) }
{
    match reference.scope {
        Scope::Local => kill_local(pc, reference, machine),
        Scope::Global => kill_named(alloc, pc, reference, machine, given),
    }
}

// Kills a local, with all that is below it. Makes no name.
fn kill_local(
    pc: usize,
    reference: &Reference,
    machine: &mut Machine,
) -> Result<TurnOutcome, AllocError>
    requires next { pc + 1 < 2 ^ 64 }
    requires local { reference.now.scope ≡ scopes.Local }
    requires enough { reference.now.count ≤ length machine.old.stack.items }
    ensures ok { IfOk result (λ step. ObeysAlone (instrs.Kill reference.now) pc machine.old step machine.new) }
    ensures err { OnErr result (Stays machine.old machine.new) }
{
    if let Some(fault) = refusal(stack::topmost(&machine.stack, reference.count)) {
        return Ok(fail(fault, machine));
    }
    kill_under(pc, &reference.word, reference.count, machine)
}

// Kills the local of this word, so many subscripts of which lie on top, with all that is below it.
fn kill_under(
    pc: usize,
    word: &Text,
    count: usize,
    machine: &mut Machine,
) -> Result<TurnOutcome, AllocError>
    requires next { pc + 1 < 2 ^ 64 }
    requires enough { count ≤ length machine.old.stack.items }
    ensures ok { IfOk result (λ step. DoesAlone (λ next. commands.remove
        (answers.local_with word.now (operands count (stack_of machine.old))) (without machine.old pc count next)) machine.old step machine.new) }
    ensures err { OnErr result (Stays machine.old machine.new) }
{
    let subscripts = stack::topmost(&machine.stack, count);
    machine.locals.kill_under(word, subscripts)?;
    stack::take_off(&mut machine.stack, count);
    machine.control = Control::At(pc + 1);
    Ok(TurnOutcome::Next)
}

// Kills a global, with all that is below it.
#[inline(never)]
fn kill_named(
    alloc: Global,
    pc: usize,
    reference: &Reference,
    machine: &mut Machine,
    given: Option<&Reply>,
) -> Result<TurnOutcome, AllocError>
    requires next { pc + 1 < 2 ^ 64 }
    requires global { reference.now.scope ≡ scopes.Global }
    requires enough { reference.now.count ≤ length machine.old.stack.items }
    ensures ok { IfOk result (λ step. Obeys (instrs.Kill reference.now) pc machine.old (replied given.entry) step machine.new) }
    ensures err { OnErr result (Stays machine.old machine.new) }
{
    if let Some(fault) = refusal(stack::topmost(&machine.stack, reference.count)) {
        return Ok(fail(fault, machine));
    }
    kill_global(alloc, pc, &reference.word, reference.count, machine, given)
}

// Kills the global of this word, so many subscripts of which lie on top, with all that is below it. Makes its name for an ask alone.
fn kill_global(
    alloc: Global,
    pc: usize,
    word: &Text,
    count: usize,
    machine: &mut Machine,
    given: Option<&Reply>,
) -> Result<TurnOutcome, AllocError>
    requires next { pc + 1 < 2 ^ 64 }
    requires enough { count ≤ length machine.old.stack.items }
    requires few { length (operands count (stack_of machine.old)) ≤ SUBSCRIPTS_LIMIT }
    ensures ok { IfOk result (λ step. Does (λ next. commands.remove
        (answers.global_with word.now (operands count (stack_of machine.old))) (without machine.old pc count next))
        machine.old (replied given.entry) step machine.new) }
    ensures err { OnErr result (Stays machine.old machine.new) }
{
    match at_hand(machine, given) {
        None => ask_kill(alloc, word, count, machine),
        Some(reply) => Ok(take_done(pc, count, reply, machine)),
    }
}

// Asks that the global of this word, so many subscripts of which lie on top, be killed with all that is below it.
#[inline(never)]
fn ask_kill(
    alloc: Global,
    word: &Text,
    count: usize,
    machine: &mut Machine,
) -> Result<TurnOutcome, AllocError>
    requires enough { count ≤ length machine.old.stack.items }
    requires few { length (operands count (stack_of machine.old)) ≤ SUBSCRIPTS_LIMIT }
    ensures ok { IfOk result
        (λ step. AsksFor (access_kinds.Kill (answers.global_with word.now (operands count (stack_of machine.old)))) machine.old step machine.new) }
    ensures err { OnErr result (Stays machine.old machine.new) }
{
    let name = global_name(alloc, word, stack::topmost(&machine.stack, count))?;
    ask(alloc, Access::Kill(name), machine)
}

// Goes on with `taken` operands less behind a change that is done, or fails.
fn settle(pc: usize, taken: usize, done: Result<(), Fault>, machine: &mut Machine)
    requires next { pc + 1 < 2 ^ 64 }
    requires enough { taken ≤ length machine.old.stack.items }
    ensures { DidAlone (λ next. told.given done (λ u. without machine.old pc taken next)) machine.old machine.new }
{
    match done {
        Ok(()) => {
            stack::take_off(&mut machine.stack, taken);
            machine.control = Control::At(pc + 1);
        }
        Err(fault) => machine.control = Control::Faulted(fault),
    }
}

// Counts the reply to a change and takes it: goes on with `taken` operands less, or fails.
fn take_done(pc: usize, taken: usize, reply: &Reply, machine: &mut Machine) -> TurnOutcome
    requires next { pc + 1 < 2 ^ 64 }
    requires enough { taken ≤ length machine.old.stack.items }
    requires more { machine.old.replied < machine.old.bounds.events }
    ensures { TakesReply (λ next. told.given (answers.change_done (answer_told reply.now)) (λ u. without machine.old pc taken next))
        machine.old result machine.new }
{
    machine.replied += 1;
    settle(pc, taken, reply_done(reply), machine);
    TurnOutcome::Took
}

/// Whether a reply says that a change is done.
pub(crate) fn reply_done(reply: &Reply) -> Result<(), Fault>
    ensures { result ≡ answers.change_done (answer_told reply.now) }
{
    match reply {
        Reply::Answer(answer) => change_done(answer),
        _ => Ok(()),
    }
}

// Whether an answer says that a change is done.
fn change_done(answer: &Answer) -> Result<(), Fault>
    ensures { result ≡ answers.change_done answer.now }
{
    match answer {
        Answer::Limit => Err(Fault::Limit),
        _ => Ok(()),
    }
}
