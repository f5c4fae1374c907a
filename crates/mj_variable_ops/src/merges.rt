// What MERGE takes from a variable, and puts to another.

ghost use Rattle.std.specs.Prelude.{◌≡◌, ◌+◌, ◌<◌, ◌^◌, [], true, false, IfOk, OnErr, ◌≤◌, length, drop};
ghost use Rattle.mj_store.specs.declared.access.Access.TheVariants as accesses;
ghost use Rattle.mj_semantics.specs.Outcome as told;
ghost use Rattle.mj_semantics.specs.Evaluation.{name_of};
ghost use Rattle.mj_semantics.specs.Accesses.{access, answer_told, nodes_told};
ghost use Rattle.mj_semantics.specs.State.{hold};
ghost use Rattle.mj_variable_ops.specs.Answers as answers;
ghost use Rattle.mj_pcode.specs.declared.instr.Instr.TheVariants as instrs;
ghost use Rattle.mj_pcode.specs.Machine.{operands};
ghost use Rattle.mj_machine.specs.Kept.{stack_of, DidAlone, Does, DoesAlone, Obeys, Stays, without, replied};

use crate::changes::reply_done;
use crate::globals::{ask, at_hand};
use crate::names::name_below;
use mj_ask::Reply;
use mj_machine::quiet::fail;
use mj_machine::{Control, Machine, TurnOutcome, stack};
use mj_pcode::Reference;
use mj_store::{Access, Answer, Nodes};
use mj_subs::{Name, SharedName};
use mj_text::{Failure, Fault};
use std::alloc::{AllocError, Global};

/// Takes what stands at the second variable and below it in hand. Its subscripts lie on top, those of the first below them.
#[inline(never)]
pub fn take(
    alloc: Global,
    pc: usize,
    into: &Reference,
    from: &Reference,
    machine: &mut Machine,
    given: Option<&Reply>,
) -> Result<TurnOutcome, AllocError>
    requires next { pc + 1 < 2 ^ 64 }
    requires enough { from.now.count + into.now.count ≤ length machine.old.stack.items }
    ensures ok { IfOk result (λ step. Obeys (instrs.MergeTake into.now from.now) pc machine.old (replied given.entry) step machine.new) }
    ensures err { OnErr result (Stays machine.old machine.new) }
{
    let source = match name_below(alloc, from, machine, 0, 0)? {
        Ok(name) => name,
        Err(fault) => return Ok(fail(fault, machine)),
    };
    match refusal(alloc, into, machine, from.count, &source) {
        Ok(None) => take_named(alloc, pc, from.count, source, machine, given),
        Ok(Some(fault)) => {
            drop(source);
            Ok(fail(fault, machine))
        }
        Err(refused) => {
            drop(source);
            Err(refused)
        }
    }
}

// Tells why nodes can't go from a variable to the one whose subscripts lie below so many operands, if they can't.
fn refusal(
    alloc: Global,
    into: &Reference,
    machine: &Machine,
    above: usize,
    source: &Name,
) -> Result<Option<Fault>, AllocError>
    requires { above + into.now.count ≤ length machine.now.stack.items }
    ensures { IfOk result
        (λ r. r ≡ answers.refusal (name_of into.now.scope into.now.word (operands into.now.count (drop above (stack_of machine.now)))) source.now) }
{
    let target = match name_below(alloc, into, machine, above, 0)? {
        Ok(name) => name,
        Err(fault) => return Ok(Some(fault)),
    };
    let fault = if target.overlap(source) {
        Some(Fault::Overlap)
    } else {
        None
    };
    drop(target);
    Ok(fault)
}

// Takes what stands at a name and below it in hand.
fn take_named(
    alloc: Global,
    pc: usize,
    count: usize,
    name: Name,
    machine: &mut Machine,
    given: Option<&Reply>,
) -> Result<TurnOutcome, AllocError>
    requires next { pc + 1 < 2 ^ 64 }
    requires enough { count ≤ length machine.old.stack.items }
    ensures ok { IfOk result (λ step. Does (λ next. access (accesses.Subtree name) (λ a. told.change (hold (nodes_told a)) (without machine.old pc count next)))
        machine.old (replied given.entry) step machine.new) }
    ensures err { OnErr result (Stays machine.old machine.new) }
{
    if name.is_global() {
        return take_global(alloc, pc, count, name, machine, given);
    }
    let step = take_local(pc, count, &name, machine);
    drop(name);
    step
}

fn take_local(
    pc: usize,
    count: usize,
    name: &Name,
    machine: &mut Machine,
) -> Result<TurnOutcome, AllocError>
    requires next { pc + 1 < 2 ^ 64 }
    requires local { name.now.global ≡ false }
    requires enough { count ≤ length machine.old.stack.items }
    ensures ok { IfOk result (λ step. DoesAlone (λ next. access (accesses.Subtree name.now)
        (λ a. told.change (hold (nodes_told a)) (without machine.old pc count next))) machine.old step machine.new) }
    ensures err { OnErr result (Stays machine.old machine.new) }
{
    let nodes = machine.locals.subtree(name)?;
    machine.held = nodes;
    stack::take_off(&mut machine.stack, count);
    machine.control = Control::At(pc + 1);
    Ok(TurnOutcome::Next)
}

// Keeps nodes that are read in hand, and takes `count` operands off; or faults.
fn keep(pc: usize, count: usize, nodes: Result<Nodes, Fault>, machine: &mut Machine)
    requires next { pc + 1 < 2 ^ 64 }
    requires enough { count ≤ length machine.old.stack.items }
    ensures { DidAlone (λ next. told.given nodes (λ l. told.change (hold l) (without machine.old pc count next))) machine.old machine.new }
{
    match nodes {
        Ok(nodes) => {
            machine.held = nodes;
            stack::take_off(&mut machine.stack, count);
            machine.control = Control::At(pc + 1);
        }
        Err(fault) => machine.control = Control::Faulted(fault),
    }
}

// Lets go of nodes that are put, and takes `count` operands off; or faults.
fn let_go(alloc: Global, pc: usize, count: usize, done: Result<(), Fault>, machine: &mut Machine)
    requires next { pc + 1 < 2 ^ 64 }
    requires enough { count ≤ length machine.old.stack.items }
    ensures { DidAlone (λ next. told.given done (λ u. told.change (hold []) (without machine.old pc count next))) machine.old machine.new }
{
    match done {
        Ok(()) => {
            machine.held = Nodes::new(alloc);
            stack::take_off(&mut machine.stack, count);
            machine.control = Control::At(pc + 1);
        }
        Err(fault) => machine.control = Control::Faulted(fault),
    }
}

fn take_global(
    alloc: Global,
    pc: usize,
    count: usize,
    name: Name,
    machine: &mut Machine,
    given: Option<&Reply>,
) -> Result<TurnOutcome, AllocError>
    requires next { pc + 1 < 2 ^ 64 }
    requires global { name.global ≡ true }
    requires enough { count ≤ length machine.old.stack.items }
    ensures ok { IfOk result (λ step. Does (λ next. access (accesses.Subtree name) (λ a. told.change (hold (nodes_told a)) (without machine.old pc count next)))
        machine.old (replied given.entry) step machine.new) }
    ensures err { OnErr result (Stays machine.old machine.new) }
{
    match at_hand(machine, given) {
        None => {
            let shared = SharedName::new(alloc, name)?;
            ask(alloc, Access::Subtree(shared), machine)
        }
        Some(reply) => {
            let nodes = nodes_of(alloc, reply)?;
            machine.replied += 1;
            keep(pc, count, nodes, machine);
            Ok(TurnOutcome::Took)
        }
    }
}

// Gives the nodes that a reply brings.
fn nodes_of(alloc: Global, reply: &Reply) -> Result<Result<Nodes, Fault>, AllocError>
    ensures { IfOk result (λ r. r ≡ answers.nodes_read (answer_told reply.now)) }
{
    match reply {
        Reply::Answer(Answer::Subtree(nodes)) => Ok(Ok(nodes.try_clone()?)),
        Reply::Answer(Answer::Limit) => Ok(Err(Fault::Limit)),
        _ => Ok(Ok(Nodes::new(alloc))),
    }
}

/// Puts what is in hand to the variable whose subscripts lie on top.
#[inline(never)]
pub fn put(
    alloc: Global,
    pc: usize,
    reference: &Reference,
    machine: &mut Machine,
    given: Option<&Reply>,
) -> Result<TurnOutcome, AllocError>
    requires next { pc + 1 < 2 ^ 64 }
    requires enough { reference.now.count ≤ length machine.old.stack.items }
    ensures ok { IfOk result (λ step. Obeys (instrs.MergePut reference.now) pc machine.old (replied given.entry) step machine.new) }
    ensures err { OnErr result (Stays machine.old machine.new) }
{
    let name = match name_below(alloc, reference, machine, 0, 0)? {
        Ok(name) => name,
        Err(fault) => return Ok(fail(fault, machine)),
    };
    if machine.held.as_slice().is_empty() {
        stack::take_off(&mut machine.stack, reference.count);
        machine.control = Control::At(pc + 1);
        return Ok(TurnOutcome::Next);
    }
    if name.is_global() {
        return put_global(alloc, pc, reference.count, name, machine, given);
    }
    put_local(alloc, pc, reference.count, &name, machine)
}

fn put_local(
    alloc: Global,
    pc: usize,
    count: usize,
    name: &Name,
    machine: &mut Machine,
) -> Result<TurnOutcome, AllocError>
    requires next { pc + 1 < 2 ^ 64 }
    requires local { name.now.global ≡ false }
    requires enough { count ≤ length machine.old.stack.items }
    ensures ok { IfOk result (λ step. DoesAlone (λ next. access (accesses.Put name.now machine.old.held)
        (λ a. told.change (hold []) (without machine.old pc count next))) machine.old step machine.new) }
    ensures err { OnErr result (Stays machine.old machine.new) }
{
    match machine.locals.put(name, &machine.held) {
        Ok(()) => {
            machine.held = Nodes::new(alloc);
            stack::take_off(&mut machine.stack, count);
            machine.control = Control::At(pc + 1);
            Ok(TurnOutcome::Next)
        }
        Err(failure) => match failure {
            Failure::Fault(fault) => {
                machine.control = Control::Faulted(fault);
                Ok(TurnOutcome::Next)
            }
            Failure::Memory => Err(AllocError),
        },
    }
}

fn put_global(
    alloc: Global,
    pc: usize,
    count: usize,
    name: Name,
    machine: &mut Machine,
    given: Option<&Reply>,
) -> Result<TurnOutcome, AllocError>
    requires next { pc + 1 < 2 ^ 64 }
    requires global { name.global ≡ true }
    requires enough { count ≤ length machine.old.stack.items }
    ensures ok { IfOk result (λ step. Does (λ next. access (accesses.Put name machine.old.held)
        (λ a. told.change (hold []) (without machine.old pc count next))) machine.old (replied given.entry) step machine.new) }
    ensures err { OnErr result (Stays machine.old machine.new) }
{
    match at_hand(machine, given) {
        None => {
            let shared = SharedName::new(alloc, name)?;
            let nodes = machine.held.try_clone()?;
            ask(alloc, Access::Put(shared, nodes), machine)
        }
        Some(reply) => {
            machine.replied += 1;
            let_go(alloc, pc, count, reply_done(reply), machine);
            Ok(TurnOutcome::Took)
        }
    }
}
