// A turn, wherever a job stands.

ghost use Rattle.std.specs.Prelude.{◌≡◌, ◌+◌, ◌<◌, ◌^◌, Option, Some, None, IfOk, OnErr, length};
ghost use Rattle.mj_ask.specs.declared.ask.Reply as replies;
ghost use Rattle.mj_machine.specs.Kept.{standing, stack_of, context_of, Acts, Stays, replied};
ghost use Rattle.mj_turn.specs.Turns.{Turns};
ghost use Rattle.mj_pcode.specs.Checked.{footing};
ghost use Rattle.mj_pcode.specs.Sound.{AreChecked};
ghost use Rattle.mj_turn.specs.Groups.{IsAlike, IsOther, IsOutside};
ghost use Rattle.mj_turn.specs.Sound.{IsReady, IsSound};
ghost use Rattle.mj_turn.specs.Units.{AreSmall, IsSmall};

use crate::calling::{begin, call_function, call_line};
use crate::ending::{close, tell_fault};
use crate::entering::{block, go_to};
use crate::flow::{branch, end_unit, enter_line, set_test};
use crate::leaving::{check_function, give_value, quit};
use crate::news::{new_except, new_words};
use crate::repeat;
use crate::start::Start;
use mj_ask::Reply;
use mj_device_ops::closing::{end_session, give_up, give_up_failed};
use mj_device_ops::formats::{tab, write_byte};
use mj_device_ops::opening::{begin_session, open_device};
use mj_device_ops::reading::read;
use mj_device_ops::using::use_device;
use mj_lock_ops::hang::{hang, number};
use mj_lock_ops::locks::{lock, unlock, unlock_all};
use mj_lock_ops::start::start_job;
use mj_machine::format::write_marks;
use mj_machine::quiet::{discard, fail, halt, jump, kill_except, push, special};
use mj_machine::values::{apply_binary, apply_unary, call, test, write};
use mj_machine::{Control, Machine, TurnOutcome};
use mj_pcode::{Instr, Unit};
use mj_text::Fault;
use mj_transaction_ops::again::begin_restart;
use mj_transaction_ops::ending::{commit, roll_back, roll_back_for_restart};
use mj_transaction_ops::marking::mark_restart;
use mj_transaction_ops::starting::start_transaction;
use mj_variable_ops::about::{about, named};
use mj_variable_ops::changes::{kill, store};
use mj_variable_ops::merges::{put, take};
use mj_variable_ops::pieces::assign_piece;
use mj_variable_ops::variables::{check, load};
use std::alloc::{AllocError, Global};

/// Executes an instruction of a unit, but for one that marks where a restart goes on, or leads there.
pub fn obey(
    alloc: Global,
    units: &[Unit],
    unit: &Unit,
    pc: usize,
    instr: &Instr,
    machine: &mut Machine,
    given: Option<&Reply>,
) -> Result<TurnOutcome, AllocError>
    requires next { pc + 3 < 2 ^ 64 }
    requires small { IsSmall unit.now }
    requires all { AreSmall units.now }
    requires enough { IsReady instr.now (footing (length (stack_of machine.old)) (length (context_of machine.old).loops)) }
    requires alike { IsAlike instr.now }
    ensures ok { IfOk result (λ step. Acts units.now unit.now (Some instr.now) pc machine.old (replied given.entry) step machine.new) }
    ensures err { OnErr result (Stays machine.old machine.new) }
{
    match instr {
        Instr::Push(text) => push(pc, text, machine),
        Instr::PushSpecial(variable) => special(alloc, pc, *variable, machine),
        Instr::Load(reference) => load(alloc, pc, reference, machine, given),
        Instr::Unary(op) => apply_unary(alloc, pc, *op, machine),
        Instr::Binary(op) => apply_binary(alloc, pc, *op, machine),
        Instr::CallFunction(function, count) => call(alloc, pc, *function, *count, machine),
        Instr::CheckNamed(function, reference) => named(pc, *function, reference, machine),
        Instr::CallNameFunction(function, reference, count) => about(
            alloc, pc, *function, reference, *count, machine, given,
        ),
        Instr::CheckName(reference) => check(pc, reference, machine),
        Instr::Store(reference, depth) => store(alloc, pc, reference, *depth, machine, given),
        Instr::SetPiece(reference, count, depth) => {
            assign_piece(alloc, pc, reference, *count, *depth, machine, given)
        }
        Instr::Discard(count) => Ok(discard(pc, *count, machine)),
        Instr::Kill(reference) => kill(alloc, pc, reference, machine, given),
        Instr::KillExcept(words) => Ok(kill_except(pc, words, machine)),
        Instr::MergeTake(into, from) => take(alloc, pc, into, from, machine, given),
        Instr::MergePut(reference) => put(alloc, pc, reference, machine, given),
        Instr::Write => write(alloc, pc, machine, given),
        Instr::WriteFormat(marks) => write_marks(alloc, pc, marks, machine, given),
        Instr::JumpUnless(target) => test(pc, *target, machine),
        Instr::Jump(target) => Ok(jump(*target, machine)),
        Instr::SelectFails => Ok(fail(Fault::Select, machine)),
        Instr::Halt => Ok(halt(machine)),
        Instr::CheckNumber => Ok(number(pc, machine)),
        _ => obey_control(alloc, units, unit, pc, instr, machine, given),
    }
}

// Executes an instruction of lines, frames and FORs, or one of the world outside.
fn obey_control(
    alloc: Global,
    units: &[Unit],
    unit: &Unit,
    pc: usize,
    instr: &Instr,
    machine: &mut Machine,
    given: Option<&Reply>,
) -> Result<TurnOutcome, AllocError>
    requires next { pc + 3 < 2 ^ 64 }
    requires small { IsSmall unit.now }
    requires all { AreSmall units.now }
    requires enough { IsReady instr.now (footing (length (stack_of machine.old)) (length (context_of machine.old).loops)) }
    requires other { IsOther instr.now }
    ensures ok { IfOk result (λ step. Acts units.now unit.now (Some instr.now) pc machine.old (replied given.entry) step machine.new) }
    ensures err { OnErr result (Stays machine.old machine.new) }
{
    match instr {
        Instr::Line(line) => enter_line(unit, pc, *line, machine),
        Instr::SetTest(target) => set_test(pc, *target, machine),
        Instr::JumpUnlessTest(target) => Ok(branch(pc, true, *target, machine)),
        Instr::JumpIfTest(target) => Ok(branch(pc, false, *target, machine)),
        Instr::ForOpen(word, count, body) => repeat::for_open(
            alloc, pc, word, *count, *body, machine,
        ),
        Instr::ForForever => repeat::for_forever(alloc, pc, machine),
        Instr::ForBegin(span) => repeat::for_begin(alloc, pc, *span, machine),
        Instr::ForAgain => repeat::for_again(alloc, pc, machine),
        Instr::ForClose(target) => Ok(repeat::for_close(*target, machine)),
        Instr::Do(entry, shape) => call_line(alloc, units, pc, entry, shape, machine),
        Instr::DoBlock(line) => block(alloc, unit, pc, *line, machine),
        Instr::Goto(entry) => Ok(go_to(units, entry, machine)),
        Instr::Quit => quit(machine),
        Instr::Invoke(target, shape) => {
            call_function(alloc, units, unit, pc, target, shape, machine)
        }
        Instr::CheckFunction => Ok(check_function(pc, machine)),
        Instr::FailQuit => Ok(fail(Fault::Quit, machine)),
        Instr::GiveValue => Ok(give_value(machine)),
        Instr::New(words) => new_words(pc, words, machine),
        Instr::NewExcept(words) => new_except(pc, words, machine),
        _ => obey_outside(alloc, units, unit, pc, instr, machine, given),
    }
}

// Executes an instruction of the world outside: time, jobs, locks, devices and transactions.
fn obey_outside(
    alloc: Global,
    units: &[Unit],
    unit: &Unit,
    pc: usize,
    instr: &Instr,
    machine: &mut Machine,
    given: Option<&Reply>,
) -> Result<TurnOutcome, AllocError>
    requires next { pc + 3 < 2 ^ 64 }
    requires enough { IsReady instr.now (footing (length (stack_of machine.old)) (length (context_of machine.old).loops)) }
    requires outside { IsOutside instr.now }
    ensures ok { IfOk result (λ step. Acts units.now unit.now (Some instr.now) pc machine.old (replied given.entry) step machine.new) }
    ensures err { OnErr result (Stays machine.old machine.new) }
{
    match instr {
        Instr::Hang => hang(alloc, pc, machine, given),
        Instr::StartJob(entry, shape, wait) => {
            start_job(alloc, pc, entry, shape, *wait, machine, given)
        }
        Instr::UnlockAll => unlock_all(alloc, pc, machine, given),
        Instr::Lock(references, wait) => lock(alloc, pc, references, *wait, machine, given),
        Instr::Unlock(references, wait) => unlock(alloc, pc, references, *wait, machine, given),
        Instr::WriteTab(marks) => tab(alloc, pc, marks, machine, given),
        Instr::WriteByte => write_byte(alloc, pc, machine, given),
        Instr::OpenDevice(wait) => open_device(alloc, pc, *wait, machine, given),
        Instr::BeginSession => begin_session(alloc, pc, machine, given),
        Instr::UseDevice => Ok(use_device(pc, machine)),
        Instr::EndSession => end_session(alloc, pc, machine, given),
        Instr::GiveUpFailedDevice => give_up_failed(alloc, machine, given),
        Instr::GiveUpDevice => give_up(alloc, pc, machine, given),
        Instr::Read(mode, wait) => read(alloc, pc, *mode, *wait, machine, given),
        Instr::StartTransaction(restores, serial) => {
            start_transaction(alloc, pc, restores, *serial, machine, given)
        }
        Instr::Commit => commit(alloc, pc, machine, given),
        Instr::RollBackForRestart => roll_back_for_restart(alloc, pc, machine, given),
        Instr::RollBack => roll_back(alloc, pc, machine, given),
        _ => unreachable!(),
    }
}

/// Makes a turn of a job that runs these units and starts so. With want of memory the machine stands where it stood. It leads only to
/// where no operand and no FOR is missing.
pub fn make_turn(
    alloc: Global,
    units: &[Unit],
    start: &Start,
    machine: &mut Machine,
    given: Option<&Reply>,
) -> Result<TurnOutcome, AllocError>
    requires small { AreSmall units.now }
    requires checked { AreChecked units.now }
    requires sound { IsSound units.now (standing machine.old None) }
    ensures ok { IfOk result (λ step. Turns units.now start.now machine.old (replied given.entry) step machine.new) }
    ensures err { OnErr result (Stays machine.old machine.new) }
    ensures sound { IsSound units.now (standing machine.new None) }
{
    match machine.control {
        Control::Begin => begin(alloc, units, start, machine, given),
        Control::At(pc) => match units.get(machine.unit) {
            None => unreachable!(),
            Some(unit) => match unit.instrs.get(pc) {
                None => end_unit(unit, machine),
                Some(instr) => match instr {
                    Instr::MarkRestart => mark_restart(alloc, pc, machine),
                    Instr::BeginRestart => begin_restart(alloc, machine, given),
                    _ => obey(alloc, units, unit, pc, instr, machine, given),
                },
            },
        },
        Control::Faulted(fault) => tell_fault(alloc, fault, machine, given),
        Control::Closing(done, fault) => close(alloc, done, fault, machine, given),
        Control::Over => Ok(TurnOutcome::Ends),
    }
}
