// LOCK.

ghost use Rattle.std.specs.Prelude.{◌≡◌, ◌+◌, ◌<◌, ◌≤◌, ◌^◌, ◌∷◌, [], ◌++◌, Bool, Some, Ok, IfOk, IfSome, OnErr, length, drop};
ghost use Rattle.mj_text.specs.Failing.{then_value};
ghost use Rattle.mj_pcode.specs.Machine as machines;
ghost use Rattle.mj_pcode.specs.declared.instr.Instr.TheVariants as instrs;
ghost use Rattle.mj_machine.specs.Kept.{stack_of, Obeys, Stays, replied};
ghost use Rattle.mj_lock_ops.specs.Wanted.{ask_of, listed, lock_of, refused, wanted_in};

use crate::timed::{ask_in_time, take, timeout_of, wait_size};
use mj_ask::{Ask, Names, Reply, SharedAsk};
use mj_machine::quiet::{discard, fail};
use mj_machine::{Machine, TurnOutcome, stack};
use mj_num::Num;
use mj_pcode::{Reference, References, Wait};
use mj_subs::Name;
use mj_text::Fault;
use mj_variable_ops::names::{name_below, refusal};
use std::alloc::{AllocError, Global};

/// Gives up all names that the job holds. In a transaction it is a fault.
#[inline(never)]
pub fn unlock_all(
    alloc: Global,
    pc: usize,
    machine: &mut Machine,
    given: Option<&Reply>,
) -> Result<TurnOutcome, AllocError>
    requires next { pc + 1 < 2 ^ 64 }
    ensures ok { IfOk result (λ step. Obeys instrs.UnlockAll pc machine.old (replied given.entry) step machine.new) }
    ensures err { OnErr result (Stays machine.old machine.new) }
{
    if machine.level > 0 {
        return Ok(fail(Fault::InTransaction, machine));
    }
    ask_in_time(
        alloc,
        pc,
        0,
        Ask::Shared(SharedAsk::UnlockAll),
        None,
        machine,
        given,
    )
}

/// Takes the names of variables, all or none.
#[inline(never)]
pub fn lock(
    alloc: Global,
    pc: usize,
    references: &References,
    wait: Wait,
    machine: &mut Machine,
    given: Option<&Reply>,
) -> Result<TurnOutcome, AllocError>
    requires next { pc + 1 < 2 ^ 64 }
    requires enough { machines.counts references.now + machines.wait_size wait ≤ length machine.old.stack.items }
    ensures ok { IfOk result (λ step. Obeys (instrs.Lock references.now wait) pc machine.old (replied given.entry) step machine.new) }
    ensures err { OnErr result (Stays machine.old machine.new) }
{
    take_or_give(alloc, pc, true, references, wait, machine, given)
}

/// Gives up the names of variables.
#[inline(never)]
pub fn unlock(
    alloc: Global,
    pc: usize,
    references: &References,
    wait: Wait,
    machine: &mut Machine,
    given: Option<&Reply>,
) -> Result<TurnOutcome, AllocError>
    requires next { pc + 1 < 2 ^ 64 }
    requires enough { machines.counts references.now + machines.wait_size wait ≤ length machine.old.stack.items }
    ensures ok { IfOk result (λ step. Obeys (instrs.Unlock references.now wait) pc machine.old (replied given.entry) step machine.new) }
    ensures err { OnErr result (Stays machine.old machine.new) }
{
    take_or_give(alloc, pc, false, references, wait, machine, given)
}

// Takes the names of variables, or gives them up.
fn take_or_give(
    alloc: Global,
    pc: usize,
    takes: bool,
    references: &References,
    wait: Wait,
    machine: &mut Machine,
    given: Option<&Reply>,
) -> Result<TurnOutcome, AllocError>
    requires next { pc + 1 < 2 ^ 64 }
    requires enough { machines.counts references.now + machines.wait_size wait ≤ length machine.old.stack.items }
    ensures ok { IfOk result (λ step. Obeys (lock_of takes references.now wait) pc machine.old (replied given.entry) step machine.new) }
    ensures err { OnErr result (Stays machine.old machine.new) }
{
    if let Some(reply) = given {
        if machine.replied < machine.bounds.events as u64 {
            return Ok(take_wanted(pc, references, wait, reply, machine));
        }
    }
    let wanted = match read_wanted(alloc, references, wait, machine)? {
        Ok(wanted) => wanted,
        Err(fault) => return Ok(fail(fault, machine)),
    };
    let timeout = wanted.timeout;
    let count = wanted.count;
    let names = wanted.names;
    match names {
        None => Ok(discard(pc, count, machine)),
        Some(names) => {
            let ask = ask_of(takes, names, &timeout);
            ask_in_time(alloc, pc, count, ask, timeout, machine, given)
        }
    }
}

// What is asked where names are to be taken, or given up.
fn ask_of(takes: bool, names: Names, timeout: &Option<Num>) -> Ask
    ensures { result ≡ ask_of takes names timeout.now }
{
    if takes {
        Ask::Shared(SharedAsk::Try(names, *timeout))
    } else {
        Ask::Shared(SharedAsk::Unlock(names))
    }
}

// Takes the reply to what LOCK asked, which the operands say, be it that names are taken or that they are given up. Makes no name of it, but faults where one
// can't be made.
fn take_wanted(
    pc: usize,
    references: &References,
    wait: Wait,
    reply: &Reply,
    machine: &mut Machine,
) -> TurnOutcome
    requires next { pc + 1 < 2 ^ 64 }
    requires enough { machines.counts references.now + machines.wait_size wait ≤ length machine.old.stack.items }
    requires more { machine.old.replied < machine.old.bounds.events }
    ensures { (takes : Bool) → Obeys (lock_of takes references.now wait) pc machine.old (Some reply.now) result machine.new }
{
    let timeout = match timeout_of(wait, &machine.stack) {
        Ok(timeout) => timeout,
        Err(fault) => return fail(fault, machine),
    };
    let above = wait_size(wait);
    let variables = references.as_slice();
    if let Some(fault) = refusal_below(variables, machine, above) {
        return fail(fault, machine);
    }
    let count = counts(variables) + above;
    if variables.is_empty() {
        return discard(pc, count, machine);
    }
    take(pc, count, timeout, reply, machine)
}

// Tells why variables, whose subscripts lie below `above` other operands, have no names, if one has none. It takes no memory.
fn refusal_below(references: &[Reference], machine: &Machine, above: usize) -> Option<Fault>
    requires { above + machines.counts references.now ≤ length machine.now.stack.items }
    ensures { result ≡ refused (machines.names_on references.now (drop above (stack_of machine.now))) }
{
    let mut more = counts(references);
    for reference in references {
        more -= reference.count;
        let subscripts = stack::below_both(&machine.stack, above, more, reference.count);
        if let Some(fault) = refusal(subscripts) {
            return Some(fault);
        }
    }
    None
}

// What the operands of LOCK say.
#[derive(Drop)]
struct Wanted {
    // the names of its variables, if it has any
    names: Option<Names>,
    // how long it may wait
    timeout: Option<Num>,
    // how many operands say both
    count: usize,
}

// Takes from the topmost operands what LOCK is to take or give up, or gives the fault of the first that says nothing of the kind.
fn read_wanted(
    alloc: Global,
    references: &References,
    wait: Wait,
    machine: &Machine,
) -> Result<Result<Wanted, Fault>, AllocError>
    requires { machines.counts references.now + machines.wait_size wait ≤ length machine.now.stack.items }
    ensures wanted { IfOk result
        (λ r. then_value r (λ found. Ok (found.timeout, listed found.names)) ≡ wanted_in references.now wait (stack_of machine.now)) }
    ensures count { IfOk result (λ r. IfOk r (λ found. found.count ≡ machines.counts references.now + machines.wait_size wait)) }
    ensures some { IfOk result (λ r. IfOk r (λ found. IfSome found.names (λ xs. 0 < length xs))) }
{
    let timeout = match timeout_of(wait, &machine.stack) {
        Ok(timeout) => timeout,
        Err(fault) => return Ok(Err(fault)),
    };
    let above = wait_size(wait);
    let variables = references.as_slice();
    match names_below(alloc, variables, machine, above)? {
        Err(fault) => Ok(Err(fault)),
        Ok(names) => Ok(Ok(Wanted {
            names,
            timeout,
            count: counts(variables) + above,
        })),
    }
}

// Counts the subscripts of variables.
fn counts(references: &[Reference]) -> usize
    requires { machines.counts references.now < 2 ^ 64 }
    ensures { result ≡ machines.counts references.now }
{
    let mut count = 0;
    for reference in references {
        count += reference.count;
    }
    count
}

// Makes the names of variables, whose subscripts lie below `above` other operands.
fn names_below(
    alloc: Global,
    references: &[Reference],
    machine: &Machine,
    above: usize,
) -> Result<Result<Option<Names>, Fault>, AllocError>
    requires { above + machines.counts references.now ≤ length machine.now.stack.items }
    ensures names { IfOk result (λ r. then_value r (λ o. Ok (listed o)) ≡ machines.names_on references.now (drop above (stack_of machine.now))) }
    ensures some { IfOk result (λ r. IfOk r (λ o. IfSome o (λ xs. 0 < length xs))) }
{
    let mut more = counts(references);
    let mut names = None;
    for reference in references {
        more -= reference.count;
        let name = match name_below(alloc, reference, machine, above, more)? {
            Ok(name) => name,
            Err(fault) => return Ok(Err(fault)),
        };
        names = Some(one_more(alloc, names, name)?);
    }
    Ok(Ok(names))
}

// Adds a name to names, if there are any.
fn one_more(alloc: Global, names: Option<Names>, name: Name) -> Result<Names, AllocError>
    ensures { IfOk result (λ all. all ≡ listed names ++ name ∷ []) }
{
    match names {
        None => Names::one(alloc, name),
        Some(mut names) => {
            names.push(name)?;
            Ok(names)
        }
    }
}
