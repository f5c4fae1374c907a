// The instructions of HANG, JOB and LOCK.

ghost use Rattle.std.specs.Prelude.{◌≡◌, ◌++◌, length, map, option_map, IfOk, OnOk};
ghost use Rattle.mj_ast.specs.Trees.{expr_of, variable_of, started_of, lock_names_of, locked_of};
ghost use Rattle.mj_asm.specs.Code as code_spec;
ghost use Rattle.mj_asm.specs.Code.{timeout_code, wait_of, hang_code, hangs_code, start_code, jobs_code, variables_code, lock_variables, taking_code};
ghost use Rattle.mj_asm.specs.Code.{lock_code, locks_code, lock_all_code};
ghost use Rattle.mj_asm.specs.Sites.{here_of};

use crate::entries::entry_of;
use crate::expr::{emit_actuals, emit_expr, put, reference};
use crate::site::Site;
use crate::targets::emit_name;
use mj_ast::{Expr, LockMode, LockNames, Locked, Started, Variable};
use mj_pcode::{Instr, References, Wait};
use std::alloc::{AllocError, Global};

/// The arguments of HANG.
pub fn emit_hangs(code: &mut Vec<Instr>, times: &[Expr]) -> Result<(), AllocError>
    ensures { OnOk result (code.new.items ≡ code.old.items ++ hangs_code (length code.old.items) (map expr_of times.now)) }
{
    for time in times {
        emit_hang(code, time)?;
    }
    Ok(())
}

fn emit_hang(code: &mut Vec<Instr>, time: &Expr) -> Result<(), AllocError>
    ensures { OnOk result (code.new.items ≡ code.old.items ++ hang_code (length code.old.items) (expr_of time.now)) }
{
    emit_expr(code, time)?;
    put(code, Instr::Hang)
}

/// How long an argument may wait, which is looked at once it has its value.
pub fn emit_timeout(code: &mut Vec<Instr>, timeout: &Option<Expr>) -> Result<Wait, AllocError>
    ensures code { OnOk result (code.new.items ≡ code.old.items ++ timeout_code (length code.old.items) (option_map expr_of timeout.now)) }
    ensures wait { IfOk result (λ wait. wait ≡ wait_of (option_map expr_of timeout.now)) }
{
    match timeout {
        None => Ok(Wait::Ever),
        Some(time) => {
            emit_expr(code, time)?;
            put(code, Instr::CheckNumber)?;
            Ok(Wait::Timed)
        }
    }
}

/// The arguments of JOB.
pub fn emit_jobs(site: Site, code: &mut Vec<Instr>, list: &[Started]) -> Result<(), AllocError>
    ensures { OnOk result (code.new.items ≡ code.old.items ++ jobs_code (here_of site.entry) (length code.old.items) (map started_of list.now)) }
{
    for started in list {
        emit_start(site, code, started)?;
    }
    Ok(())
}

// The actuals, and then the timeout.
fn emit_start(site: Site, code: &mut Vec<Instr>, started: &Started) -> Result<(), AllocError>
    ensures { OnOk result (code.new.items ≡ code.old.items ++ start_code (here_of site.entry) (length code.old.items) (started_of started.now)) }
{
    let shape = emit_actuals(code, &started.actuals)?;
    let wait = emit_timeout(code, &started.timeout)?;
    let entry = entry_of(site, &started.target)?;
    put(code, Instr::StartJob(entry, shape, wait))
}

/// The arguments of LOCK; without one all names are given up.
pub fn emit_lock_all(
    alloc: Global,
    code: &mut Vec<Instr>,
    list: &[Locked],
) -> Result<(), AllocError>
    ensures { OnOk result (code.new.items ≡ code.old.items ++ lock_all_code (length code.old.items) (map locked_of list.now)) }
{
    if list.is_empty() {
        return put(code, Instr::UnlockAll);
    }
    emit_locks(alloc, code, list)
}

fn emit_locks(alloc: Global, code: &mut Vec<Instr>, list: &[Locked]) -> Result<(), AllocError>
    ensures { OnOk result (code.new.items ≡ code.old.items ++ locks_code (length code.old.items) (map locked_of list.now)) }
{
    for locked in list {
        emit_lock(alloc, code, locked)?;
    }
    Ok(())
}

// The names, and then the timeout.
fn emit_lock(alloc: Global, code: &mut Vec<Instr>, locked: &Locked) -> Result<(), AllocError>
    ensures { OnOk result (code.new.items ≡ code.old.items ++ lock_code (length code.old.items) (locked_of locked.now)) }
{
    let references = emit_lock_names(alloc, code, &locked.names)?;
    let wait = emit_timeout(code, &locked.timeout)?;
    emit_taking(code, locked.mode, references, wait)
}

// What is asked once the names and the timeout lie on the stack.
fn emit_taking(
    code: &mut Vec<Instr>,
    mode: LockMode,
    references: References,
    wait: Wait,
) -> Result<(), AllocError>
    ensures { OnOk result (code.new.items ≡ code.old.items ++ taking_code mode references wait) }
{
    match mode {
        LockMode::Whole => {
            put(code, Instr::UnlockAll)?;
            put(code, Instr::Lock(references, wait))
        }
        LockMode::Plus => put(code, Instr::Lock(references, wait)),
        LockMode::Minus => put(code, Instr::Unlock(references, wait)),
    }
}

fn emit_lock_names(
    alloc: Global,
    code: &mut Vec<Instr>,
    names: &LockNames,
) -> Result<References, AllocError>
    ensures code { OnOk result (code.new.items ≡ code.old.items ++ variables_code (length code.old.items) (lock_variables (lock_names_of names.now))) }
    ensures names { IfOk result (λ references. references ≡ map code_spec.reference (lock_variables (lock_names_of names.now))) }
{
    match names {
        LockNames::One(variable) => {
            let mut references = References::new(alloc);
            emit_name(code, variable)?;
            references.push(reference(variable)?)?;
            Ok(references)
        }
        LockNames::Several(list) => emit_variables(alloc, code, list),
    }
}

// Variables, each of whose names is looked at before the next one.
fn emit_variables(
    alloc: Global,
    code: &mut Vec<Instr>,
    list: &[Variable],
) -> Result<References, AllocError>
    ensures code { OnOk result (code.new.items ≡ code.old.items ++ variables_code (length code.old.items) (map variable_of list.now)) }
    ensures names { IfOk result (λ references. references ≡ map code_spec.reference (map variable_of list.now)) }
{
    let mut references = References::new(alloc);
    for variable in list {
        emit_name(code, variable)?;
        references.push(reference(variable)?)?;
    }
    Ok(references)
}
