// The instructions of commands, lines and routines.

ghost use Rattle.std.specs.Prelude.{◌≡◌, ◌<◌, ◌+◌, ◌^◌, [], ◌∷◌, ◌++◌, length, map, slice_set, option_map, IfOk, OnOk};
ghost use Rattle.mj_pcode.specs.Checked.{IsChecked};
ghost use Rattle.mj_ast.specs.Trees.{expr_of, variable_of, assignment_of, killed_of, merged_of, called_of, jumped_of, range_of, renewed_of, restored_of};
ghost use Rattle.mj_ast.specs.Trees.{restartable_of, command_of, step_of, line_of, routine_of};
ghost use Rattle.mj_asm.specs.Code.{assignment_code, assignments_code, names_code, kill_code, kills_code, kill_all_code, merge_code, merges_code, code_if};
ghost use Rattle.mj_asm.specs.Code.{command_code, steps_code, if_code, ifs_code, else_code, for_code, body_code, range_code, ranges_code, do_code, call_code};
ghost use Rattle.mj_asm.specs.Code.{jumps_code, jump_code, quit_code, new_all_code, set_piece_code, listed_of, restores_of, begin_code, transaction_code};
ghost use Rattle.mj_asm.specs.Code.{line_code};
ghost use Rattle.mj_semantics.specs.Transactions as transactions;
ghost use Rattle.mj_asm.specs.Sites.{here_of};
ghost use Rattle.mj_asm.specs.Correct.{with_labels, IsUnitOf};

use crate::devices::{emit_closes, emit_inputs, emit_opens, emit_outputs, emit_uses};
use crate::entries::entry_of;
use crate::expr::{aim, change, emit_actuals, emit_expr, emit_subscripts, put, reference};
use crate::sharing::{emit_hangs, emit_jobs, emit_lock_all};
use crate::site::Site;
use crate::targets::{emit_name, emit_one, emit_several};
use mj_ast::{
    Assignment, Called, Command, Expr, Jumped, Killed, Line, LineCommand, Merged, Range, Renewed,
    Restartable, Restored, Routine, Serial, Targets, Variable,
};
use mj_pcode::{Head, Instr, Labels, LineStart, Restores, Span, Unit, Words};
use mj_text::Text;
use std::alloc::{AllocError, Global};

/// The p-code of a routine. Its lines are numbered from 1 on. At none of its instructions an operand or a FOR is missing, and none leads out
/// of it.
pub fn assemble(alloc: Global, routine: &Routine) -> Result<Unit, AllocError>
    requires { length routine.now.lines.items < 2 ^ 32 }
    ensures code { IfOk result (λ u. IsUnitOf (routine_of routine.now) u) }
    ensures checked { IfOk result (λ u. IsChecked u) }
{
    let name = routine.name.try_clone()?;
    let mut unit = Unit {
        name,
        instrs: Vec::new(alloc),
        heads: Vec::new(alloc),
        labels: Labels::new(alloc),
    };
    let mut number = 0;
    for line in &routine.lines {
        number += 1;
        let site = Site {
            alloc,
            routine: &routine.name,
            line: number,
        };
        emit_line(site, &mut unit, line)?;
    }
    Ok(unit)
}

// One more line.
fn emit_line(site: Site, unit: &mut Unit, line: &Line) -> Result<(), AllocError>
    ensures name { unit.new.name ≡ unit.old.name }
    ensures instrs { OnOk result
        (unit.new.instrs.items ≡ unit.old.instrs.items ++ line_code (length unit.old.instrs.items) (here_of site.entry) (line_of line.now)) }
    ensures heads { OnOk result (unit.new.heads.items ≡ unit.old.heads.items ++ record {
      start = length unit.old.instrs.items;
      level = line.now.level;
      formals = line.now.formals.items;
    } ∷ []) }
    ensures labels { OnOk result (unit.new.labels ≡ with_labels unit.old.labels site.entry.line (line_of line.now ∷ [])) }
{
    emit_label(site, &mut unit.labels, line)?;
    let start = unit.instrs.len();
    let formals = Words::copied(site.alloc, &line.formals)?;
    let level = line.level;
    unit.heads.push(Head {
        start,
        level,
        formals,
    })?;
    let mut entered = LineStart {
        line: site.line,
        level,
        next: 0,
    };
    put(&mut unit.instrs, Instr::Line(entered))?;
    emit_steps(site, &mut unit.instrs, None, &line.steps)?;
    entered.next = unit.instrs.len();
    change(&mut unit.instrs, start, Instr::Line(entered));
    Ok(())
}

// The line's label, if it has one that no earlier line has.
fn emit_label(site: Site, labels: &mut Labels, line: &Line) -> Result<(), AllocError>
    ensures { OnOk result (labels.new ≡ with_labels labels.old site.entry.line (line_of line.now ∷ [])) }
{
    match &line.label {
        None => Ok(()),
        Some(label) => labels.add(site.alloc, label, site.line),
    }
}

// The commands of a line, or those behind one of them; in a FOR that is closed at an instruction, or in none. Only what goes on up to
// the line's end (IF, ELSE, FOR) calls this again.
#[cycle(steps)]
fn emit_steps(
    site: Site,
    code: &mut Vec<Instr>,
    close: Option<usize>,
    steps: &[LineCommand],
) -> Result<(), AllocError>
    ensures { OnOk result (code.new.items ≡ code.old.items ++ steps_code (here_of site.entry) (length code.old.items) close (map step_of steps.now)) }
{
    let mut rest = steps;
    while let Some((step, behind)) = rest.split_first() {
        match &step.command {
            Command::If(conditions) => return emit_if(site, code, close, conditions, behind),
            Command::Else => return emit_else(site, code, close, behind),
            Command::For(variable, ranges) => return emit_for(site, code, variable, ranges, behind),
            Command::Forever => {
                put(code, Instr::ForForever)?;
                return emit_body(site, code, behind);
            }
            _ => emit_step(site, code, close, step)?,
        }
        rest = behind;
    }
    Ok(())
}

// ELSE, and the commands behind it.
#[cycle(steps)]
fn emit_else(
    site: Site,
    code: &mut Vec<Instr>,
    close: Option<usize>,
    behind: &[LineCommand],
) -> Result<(), AllocError>
    ensures { OnOk result (code.new.items
        ≡ code.old.items ++ else_code (length code.old.items) (λ p. steps_code (here_of site.entry) p close (map step_of behind.now))) }
{
    let test = code.len();
    put(code, Instr::JumpIfTest(0))?;
    emit_steps(site, code, close, behind)?;
    let target = code.len();
    change(code, test, Instr::JumpIfTest(target));
    Ok(())
}

// IF, and the commands behind it.
#[cycle(steps)]
fn emit_if(
    site: Site,
    code: &mut Vec<Instr>,
    close: Option<usize>,
    conditions: &[Expr],
    behind: &[LineCommand],
) -> Result<(), AllocError>
    ensures { OnOk result (code.new.items ≡ code.old.items
        ++ if_code (length code.old.items) (map expr_of conditions.now) (λ p. steps_code (here_of site.entry) p close (map step_of behind.now))) }
{
    if conditions.is_empty() {
        let test = code.len();
        put(code, Instr::JumpUnlessTest(0))?;
        emit_steps(site, code, close, behind)?;
        let target = code.len();
        change(code, test, Instr::JumpUnlessTest(target));
        return Ok(());
    }
    emit_ifs(site, code, close, conditions, behind)
}

// The conditions of an IF, and the commands behind it.
#[cycle(steps)]
fn emit_ifs(
    site: Site,
    code: &mut Vec<Instr>,
    close: Option<usize>,
    conditions: &[Expr],
    behind: &[LineCommand],
) -> Result<(), AllocError>
    ensures { OnOk result (code.new.items ≡ code.old.items
        ++ ifs_code (length code.old.items) (map expr_of conditions.now) (λ p. steps_code (here_of site.entry) p close (map step_of behind.now))) }
{
    match conditions.split_first() {
        None => emit_steps(site, code, close, behind),
        Some((first, others)) => {
            emit_expr(code, first)?;
            let test = code.len();
            put(code, Instr::SetTest(0))?;
            emit_ifs(site, code, close, others, behind)?;
            let target = code.len();
            change(code, test, Instr::SetTest(target));
            Ok(())
        }
    }
}

// FOR, and the commands behind it.
#[cycle(steps)]
fn emit_for(
    site: Site,
    code: &mut Vec<Instr>,
    variable: &Variable,
    ranges: &[Range],
    behind: &[LineCommand],
) -> Result<(), AllocError>
    ensures { OnOk result (code.new.items ≡ code.old.items
        ++ for_code (length code.old.items)
        (variable_of variable.now) (map range_of ranges.now) (λ p o. steps_code (here_of site.entry) p o (map step_of behind.now))) }
{
    emit_subscripts(code, variable)?;
    let local = reference(variable)?;
    let open = code.len();
    put(code, Instr::Discard(0))?;
    emit_ranges(code, ranges)?;
    let body = code.len() + 1;
    change(code, open, Instr::ForOpen(local.word, local.count, body));
    emit_body(site, code, behind)
}

// The instruction that closes a FOR, the commands of its passes, and the next pass.
#[cycle(steps)]
fn emit_body(site: Site, code: &mut Vec<Instr>, behind: &[LineCommand]) -> Result<(), AllocError>
    ensures { OnOk result (code.new.items
        ≡ code.old.items ++ body_code (length code.old.items) (λ p o. steps_code (here_of site.entry) p o (map step_of behind.now))) }
{
    let close = code.len();
    put(code, Instr::ForClose(0))?;
    emit_steps(site, code, Some(close), behind)?;
    put(code, Instr::ForAgain)?;
    let target = code.len();
    change(code, close, Instr::ForClose(target));
    Ok(())
}

// What a FOR goes through.
fn emit_ranges(code: &mut Vec<Instr>, ranges: &[Range]) -> Result<(), AllocError>
    ensures { OnOk result (code.new.items ≡ code.old.items ++ ranges_code (length code.old.items) (map range_of ranges.now)) }
{
    for range in ranges {
        emit_range(code, range)?;
    }
    Ok(())
}

fn emit_range(code: &mut Vec<Instr>, range: &Range) -> Result<(), AllocError>
    ensures { OnOk result (code.new.items ≡ code.old.items ++ range_code (length code.old.items) (range_of range.now)) }
{
    match range {
        Range::One(first) => {
            emit_expr(code, first)?;
            put(code, Instr::ForBegin(Span::One))
        }
        Range::Endless(first, step) => {
            emit_expr(code, first)?;
            emit_expr(code, step)?;
            put(code, Instr::ForBegin(Span::Endless))
        }
        Range::UpTo(first, step, last) => {
            emit_expr(code, first)?;
            emit_expr(code, step)?;
            emit_expr(code, last)?;
            put(code, Instr::ForBegin(Span::UpTo))
        }
    }
}

// A command that has a postcondition or could have one, behind it.
fn emit_step(
    site: Site,
    code: &mut Vec<Instr>,
    close: Option<usize>,
    step: &LineCommand,
) -> Result<(), AllocError>
    ensures { OnOk result (code.new.items ≡ code.old.items
        ++ code_if (length code.old.items)
        (option_map expr_of step.now.condition) (λ p. command_code (here_of site.entry) p close (command_of step.now.command))) }
{
    match &step.condition {
        None => emit_command(site, code, close, &step.command),
        Some(condition) => {
            emit_expr(code, condition)?;
            let test = code.len();
            put(code, Instr::JumpUnless(0))?;
            emit_command(site, code, close, &step.command)?;
            aim(code, test);
            Ok(())
        }
    }
}

fn emit_command(
    site: Site,
    code: &mut Vec<Instr>,
    close: Option<usize>,
    command: &Command,
) -> Result<(), AllocError>
    ensures { OnOk result (code.new.items ≡ code.old.items ++ command_code (here_of site.entry) (length code.old.items) close (command_of command.now)) }
{
    match command {
        Command::Set(assignments) => emit_assignments(code, assignments),
        Command::Write(outputs) => emit_outputs(site.alloc, code, outputs),
        Command::Halt => put(code, Instr::Halt),
        Command::Hang(times) => emit_hangs(code, times),
        Command::Job(list) => emit_jobs(site, code, list),
        Command::Lock(list) => emit_lock_all(site.alloc, code, list),
        Command::Open(list) => emit_opens(code, list),
        Command::Use(names) => emit_uses(code, names),
        Command::Close(names) => emit_closes(code, names),
        Command::Read(list) => emit_inputs(site.alloc, code, list),
        Command::Kill(list) => emit_kill_all(site.alloc, code, list),
        Command::Merge(list) => emit_merges(code, list),
        Command::Do(list) => emit_do(site, code, list),
        Command::Goto(list) => emit_jumps(site, code, list),
        Command::Quit(value) => emit_quit(code, close, value),
        Command::New(list) => emit_new_all(site.alloc, code, list),
        Command::TStart(argument) => emit_transaction(site.alloc, code, argument),
        Command::TCommit => emit_again(code, Instr::Commit),
        Command::TRestart => emit_again(code, Instr::RollBackForRestart),
        Command::TRollback => put(code, Instr::RollBack),
        Command::Break => put(code, Instr::Discard(0)),
        Command::If(_) | Command::Else | Command::For(_, _) | Command::Forever => Ok(()),
    }
}

// The end of the frame, or of the FOR that is closed at an instruction. With a value it ends a function's frame, and may be in no FOR.
fn emit_quit(
    code: &mut Vec<Instr>,
    close: Option<usize>,
    value: &Option<Expr>,
) -> Result<(), AllocError>
    ensures { OnOk result (code.new.items ≡ code.old.items ++ quit_code (length code.old.items) close (option_map expr_of value.now)) }
{
    match value {
        None => match close {
            None => put(code, Instr::Quit),
            Some(close) => put(code, Instr::Jump(close)),
        },
        Some(value) => match close {
            None => {
                put(code, Instr::CheckFunction)?;
                emit_expr(code, value)?;
                put(code, Instr::GiveValue)
            }
            Some(_) => put(code, Instr::FailQuit),
        },
    }
}

// The block behind this line, or calls.
fn emit_do(site: Site, code: &mut Vec<Instr>, list: &[Called]) -> Result<(), AllocError>
    ensures { OnOk result (code.new.items ≡ code.old.items ++ do_code (here_of site.entry) (length code.old.items) (map called_of list.now)) }
{
    if list.is_empty() {
        return put(code, Instr::DoBlock(site.line));
    }
    for called in list {
        emit_called(site, code, called)?;
    }
    Ok(())
}

// A call, behind its postcondition.
fn emit_called(site: Site, code: &mut Vec<Instr>, called: &Called) -> Result<(), AllocError>
    ensures { OnOk result (code.new.items ≡ code.old.items
        ++ code_if (length code.old.items) (option_map expr_of called.now.condition) (call_code (here_of site.entry) (called_of called.now))) }
{
    match &called.condition {
        None => emit_call(site, code, called),
        Some(condition) => {
            emit_expr(code, condition)?;
            let test = code.len();
            put(code, Instr::JumpUnless(0))?;
            emit_call(site, code, called)?;
            aim(code, test);
            Ok(())
        }
    }
}

fn emit_call(site: Site, code: &mut Vec<Instr>, called: &Called) -> Result<(), AllocError>
    ensures { OnOk result (code.new.items ≡ code.old.items ++ call_code (here_of site.entry) (called_of called.now) (length code.old.items)) }
{
    let shape = emit_actuals(code, &called.actuals)?;
    let entry = entry_of(site, &called.target)?;
    put(code, Instr::Do(entry, shape))
}

// GOTO.
fn emit_jumps(site: Site, code: &mut Vec<Instr>, list: &[Jumped]) -> Result<(), AllocError>
    ensures { OnOk result (code.new.items ≡ code.old.items ++ jumps_code (here_of site.entry) (length code.old.items) (map jumped_of list.now)) }
{
    for jumped in list {
        emit_jumped(site, code, jumped)?;
    }
    Ok(())
}

// A jump, behind its postcondition.
fn emit_jumped(site: Site, code: &mut Vec<Instr>, jumped: &Jumped) -> Result<(), AllocError>
    ensures { OnOk result (code.new.items ≡ code.old.items
        ++ code_if (length code.old.items) (option_map expr_of jumped.now.condition) (jump_code (here_of site.entry) (jumped_of jumped.now))) }
{
    match &jumped.condition {
        None => emit_jump(site, code, jumped),
        Some(condition) => {
            emit_expr(code, condition)?;
            let test = code.len();
            put(code, Instr::JumpUnless(0))?;
            emit_jump(site, code, jumped)?;
            aim(code, test);
            Ok(())
        }
    }
}

fn emit_jump(site: Site, code: &mut Vec<Instr>, jumped: &Jumped) -> Result<(), AllocError>
    ensures { OnOk result (code.new.items ≡ code.old.items ++ jump_code (here_of site.entry) (jumped_of jumped.now) (length code.old.items)) }
{
    let entry = entry_of(site, &jumped.target)?;
    put(code, Instr::Goto(entry))
}

// NEW of some, or of all locals.
fn emit_new_all(alloc: Global, code: &mut Vec<Instr>, list: &[Renewed]) -> Result<(), AllocError>
    ensures { OnOk result (code.new.items ≡ code.old.items ++ new_all_code (map renewed_of list.now)) }
{
    if list.is_empty() {
        let none = Words::copied(alloc, &[])?;
        return put(code, Instr::NewExcept(none));
    }
    for renewed in list {
        emit_new(alloc, code, renewed)?;
    }
    Ok(())
}

fn emit_new(alloc: Global, code: &mut Vec<Instr>, renewed: &Renewed) -> Result<(), AllocError>
    ensures { OnOk result (code.new.items ≡ code.old.items ++ set_piece_code (renewed_of renewed.now)) }
{
    match renewed {
        Renewed::Name(word) => {
            let words = Words::one(alloc, word)?;
            put(code, Instr::New(words))
        }
        Renewed::Except(words) => {
            emit_names(code, words)?;
            let words = Words::copied(alloc, words)?;
            put(code, Instr::NewExcept(words))
        }
    }
}

// TSTART.
fn emit_transaction(
    alloc: Global,
    code: &mut Vec<Instr>,
    argument: &Option<Restartable>,
) -> Result<(), AllocError>
    ensures { OnOk result (code.new.items ≡ code.old.items ++ transaction_code (option_map restartable_of argument.now)) }
{
    match argument {
        None => emit_begin(code, Restores::Never, false),
        Some(restartable) => {
            let restores = emit_restored(alloc, code, &restartable.restored)?;
            emit_begin(code, restores, says_serial(restartable.serial))
        }
    }
}

// The instruction that begins a transaction, and the one where a restart goes on.
fn emit_begin(code: &mut Vec<Instr>, restores: Restores, serial: bool) -> Result<(), AllocError>
    ensures { OnOk result (code.new.items ≡ code.old.items ++ begin_code restores serial) }
{
    put(code, Instr::StartTransaction(restores, serial))?;
    put(code, Instr::MarkRestart)
}

// The locals that a restart restores, behind an instruction for each name of a list.
fn emit_restored(
    alloc: Global,
    code: &mut Vec<Instr>,
    restored: &Restored,
) -> Result<Restores, AllocError>
    ensures code { OnOk result (code.new.items ≡ code.old.items ++ names_code (listed_of (restored_of restored.now))) }
    ensures restores { IfOk result (λ r. r ≡ restores_of (restored_of restored.now)) }
{
    match restored {
        Restored::One(word) => Ok(Restores::Only(Words::one(alloc, word)?)),
        Restored::Several(words) => {
            emit_names(code, words)?;
            Ok(Restores::Only(Words::copied(alloc, words)?))
        }
        Restored::All => Ok(Restores::All),
    }
}

fn says_serial(serial: Serial) -> bool
    ensures { result ≡ transactions.says_serial serial }
{
    match serial {
        Serial::No => false,
        Serial::Bare | Serial::Enclosed => true,
    }
}

// An instruction, and the one that begins the transaction once more.
fn emit_again(code: &mut Vec<Instr>, first: Instr) -> Result<(), AllocError>
    ensures { OnOk result (code.new.items ≡ code.old.items ++ first ∷ Instr.BeginRestart ∷ []) }
{
    put(code, first)?;
    put(code, Instr::BeginRestart)
}

fn emit_assignments(code: &mut Vec<Instr>, assignments: &[Assignment]) -> Result<(), AllocError>
    ensures { OnOk result (code.new.items ≡ code.old.items ++ assignments_code (length code.old.items) (map assignment_of assignments.now)) }
{
    for assignment in assignments {
        emit_assignment(code, assignment)?;
    }
    Ok(())
}

// The destinations, then the value, then the assignments.
fn emit_assignment(code: &mut Vec<Instr>, assignment: &Assignment) -> Result<(), AllocError>
    ensures { OnOk result (code.new.items ≡ code.old.items ++ assignment_code (length code.old.items) (assignment_of assignment.now)) }
{
    match &assignment.targets {
        Targets::One(destination) => emit_one(code, destination, &assignment.value),
        Targets::Several(list) => emit_several(code, list, &assignment.value),
    }
}

// One kill, or that of all locals.
fn emit_kill_all(alloc: Global, code: &mut Vec<Instr>, list: &[Killed]) -> Result<(), AllocError>
    ensures { OnOk result (code.new.items ≡ code.old.items ++ kill_all_code (length code.old.items) (map killed_of list.now)) }
{
    if list.is_empty() {
        let none = Words::copied(alloc, &[])?;
        return put(code, Instr::KillExcept(none));
    }
    emit_kills(alloc, code, list)
}

fn emit_kills(alloc: Global, code: &mut Vec<Instr>, list: &[Killed]) -> Result<(), AllocError>
    ensures { OnOk result (code.new.items ≡ code.old.items ++ kills_code (length code.old.items) (map killed_of list.now)) }
{
    for killed in list {
        emit_kill(alloc, code, killed)?;
    }
    Ok(())
}

fn emit_kill(alloc: Global, code: &mut Vec<Instr>, killed: &Killed) -> Result<(), AllocError>
    ensures { OnOk result (code.new.items ≡ code.old.items ++ kill_code (length code.old.items) (killed_of killed.now)) }
{
    match killed {
        Killed::Tree(variable) => {
            emit_name(code, variable)?;
            let gone = reference(variable)?;
            put(code, Instr::Kill(gone))
        }
        Killed::Except(words) => {
            emit_names(code, words)?;
            let words = Words::copied(alloc, words)?;
            put(code, Instr::KillExcept(words))
        }
    }
}

// An instruction that does nothing for each name of a list.
fn emit_names(code: &mut Vec<Instr>, words: &[Text]) -> Result<(), AllocError>
    ensures { OnOk result (code.new.items ≡ code.old.items ++ names_code words.now) }
{
    for word in words {
        let _ = word;
        put(code, Instr::Discard(0))?;
    }
    Ok(())
}

fn emit_merges(code: &mut Vec<Instr>, list: &[Merged]) -> Result<(), AllocError>
    ensures { OnOk result (code.new.items ≡ code.old.items ++ merges_code (length code.old.items) (map merged_of list.now)) }
{
    for merged in list {
        emit_merge(code, merged)?;
    }
    Ok(())
}

// The name to which is looked at before the name from which.
fn emit_merge(code: &mut Vec<Instr>, merged: &Merged) -> Result<(), AllocError>
    ensures { OnOk result (code.new.items ≡ code.old.items ++ merge_code (length code.old.items) (merged_of merged.now)) }
{
    emit_name(code, &merged.into)?;
    emit_subscripts(code, &merged.from)?;
    let into = reference(&merged.into)?;
    let from = reference(&merged.from)?;
    put(code, Instr::MergeTake(into, from))?;
    let filled = reference(&merged.into)?;
    put(code, Instr::MergePut(filled))
}
