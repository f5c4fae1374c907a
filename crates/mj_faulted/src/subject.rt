// What a fault is about.

ghost use Rattle.std.specs.Prelude.{◌≡◌, ◌++◌, None, OnOk, IfOk, codes, drop, reverse, slice_get};
ghost use Rattle.mj_semantics.specs.Lines.{entry_in};
ghost use Rattle.mj_ast.specs.Trees.{target_of};
ghost use Rattle.mj_ask.specs.Written.{entry_text};
ghost use Rattle.mj_pcode.specs.Machine.{operands as the_operands};
ghost use Rattle.mj_machine.specs.Contexts.{loops_of};
ghost use Rattle.mj_machine.specs.Kept.{standing};
ghost use Rattle.mj_faulted.specs.Subjects.{is_counted as counted, is_of_device as of_device, is_of_entry as of_entry, is_of_subscripts as of_subscripts};
ghost use Rattle.mj_faulted.specs.Subjects.{control_subject, current_of, device_upon, instr_subject, local_of, merged_upon, named_upon};
ghost use Rattle.mj_faulted.specs.Subjects.{shortened, start_subject, subject_of, unit_subject, variable_upon, word_in};
ghost use Rattle.mj_gfile.specs.Spelling.{listed_text};

use crate::putting::{put, put_entry, put_shortened, put_text};
use mj_ask::Entry;
use mj_ast::{Scope, Target};
use mj_frames::Loop;
use mj_gfile::{put_name, put_subscripts, put_text as put_quoted};
use mj_machine::stack::{topmost, under};
use mj_machine::{Control, Machine};
use mj_open_devices::Devices;
use mj_pcode::{Instr, Reference, Unit, Wait};
use mj_subs::Sub;
use mj_text::{Fault, Text};
use std::alloc::{AllocError, Global};

/// Puts what this fault is about, to which a machine comes from here, of a job that starts at this entry, to the end of some bytes. Where memory is refused a
/// part may stand there.
pub fn put_subject(
    alloc: Global,
    bytes: &mut Vec<u8>,
    units: &[Unit],
    entry: &Entry,
    fault: Fault,
    machine: &Machine,
) -> Result<(), AllocError>
    ensures { OnOk result (bytes.new.items ≡ bytes.old.items ++ subject_of units.now entry.now fault (standing machine.now None)) }
{
    if is_counted(fault) {
        return Ok(());
    }
    put_control(alloc, bytes, units, entry, fault, machine)
}

// Whether a fault comes at an ask too many.
fn is_counted(fault: Fault) -> bool
    ensures { result ≡ counted fault }
{
    matches!(fault, Fault::Steps)
}

// Puts what it is about by where the machine stands.
fn put_control(
    alloc: Global,
    bytes: &mut Vec<u8>,
    units: &[Unit],
    entry: &Entry,
    fault: Fault,
    machine: &Machine,
) -> Result<(), AllocError>
    ensures { OnOk result (bytes.new.items
        ≡ bytes.old.items ++ control_subject units.now entry.now fault machine.now.control (standing machine.now None)) }
{
    match machine.control {
        Control::Begin => put_start(alloc, bytes, entry, fault),
        Control::At(pc) => match units.get(machine.unit) {
            None => Ok(()),
            Some(unit) => put_at(
                alloc,
                bytes,
                unit,
                fault,
                &machine.devices,
                pc,
                &machine.stack,
                &machine.loops,
            ),
        },
        Control::Faulted(_) | Control::Closing(_, _) | Control::Over => Ok(()),
    }
}

// Puts the entry where a job starts, if the fault is of that.
fn put_start(
    alloc: Global,
    bytes: &mut Vec<u8>,
    entry: &Entry,
    fault: Fault,
) -> Result<(), AllocError>
    ensures { OnOk result (bytes.new.items ≡ bytes.old.items ++ start_subject fault entry.now) }
{
    if !is_of_entry(fault) {
        return Ok(());
    }
    put_entry(alloc, bytes, entry)
}

// Whether a fault comes where a line is called.
fn is_of_entry(fault: Fault) -> bool
    ensures { result ≡ of_entry fault }
{
    matches!(fault, Fault::NoLine | Fault::Params)
}

// Puts what stands at a place of a unit.
fn put_at(
    alloc: Global,
    bytes: &mut Vec<u8>,
    unit: &Unit,
    fault: Fault,
    devices: &Devices,
    pc: usize,
    stack: &[Text],
    loops: &[Loop],
) -> Result<(), AllocError>
    ensures { OnOk result (bytes.new.items ≡ bytes.old.items
        ++ unit_subject unit.now fault devices.now.current (slice_get unit.now.instrs.items pc) (reverse stack.now) (loops_of loops.now)) }
{
    match unit.instrs.get(pc) {
        None => Ok(()),
        Some(instr) => put_instr(
            alloc, bytes, &unit.name, fault, devices, instr, stack, loops,
        ),
    }
}

// Puts what this fault of an instruction of the routine of this name is about.
fn put_instr(
    alloc: Global,
    bytes: &mut Vec<u8>,
    routine: &Text,
    fault: Fault,
    devices: &Devices,
    instr: &Instr,
    stack: &[Text],
    loops: &[Loop],
) -> Result<(), AllocError>
    ensures { OnOk result (bytes.new.items
        ≡ bytes.old.items ++ instr_subject routine.now fault devices.now.current instr.now (reverse stack.now) (loops_of loops.now)) }
{
    match instr {
        Instr::Load(reference) | Instr::CheckName(reference) | Instr::CheckNamed(_, reference) => {
            put_variable(alloc, bytes, reference, stack)
        }
        Instr::MergeTake(_, reference) => put_merged(alloc, bytes, fault, reference, stack),
        Instr::ForOpen(word, count, _) => {
            put_named(alloc, bytes, Scope::Local, word, *count, stack)
        }
        Instr::Do(entry, _) | Instr::Goto(entry) => put_entry(alloc, bytes, entry),
        Instr::Invoke(target, _) => put_function(bytes, routine, target),
        Instr::OpenDevice(Wait::Ever)
        | Instr::BeginSession
        | Instr::UseDevice
        | Instr::GiveUpFailedDevice => put_device(alloc, bytes, stack),
        Instr::OpenDevice(Wait::Timed) => put_device(alloc, bytes, but_last(stack)),
        Instr::Write
        | Instr::WriteFormat(_)
        | Instr::WriteTab(_)
        | Instr::WriteByte
        | Instr::Read(_, _) => put_current(alloc, bytes, fault, devices),
        Instr::ForAgain => put_local(alloc, bytes, loops),
        _ => Ok(()),
    }
}

// Puts a variable whose subscripts are the topmost operands.
fn put_variable(
    alloc: Global,
    bytes: &mut Vec<u8>,
    reference: &Reference,
    stack: &[Text],
) -> Result<(), AllocError>
    ensures { OnOk result (bytes.new.items ≡ bytes.old.items ++ variable_upon reference.now (reverse stack.now)) }
{
    put_named(
        alloc,
        bytes,
        reference.scope,
        &reference.word,
        reference.count,
        stack,
    )
}

// Puts the variable that a MERGE takes from, if the fault is of its subscripts.
fn put_merged(
    alloc: Global,
    bytes: &mut Vec<u8>,
    fault: Fault,
    reference: &Reference,
    stack: &[Text],
) -> Result<(), AllocError>
    ensures { OnOk result (bytes.new.items ≡ bytes.old.items ++ merged_upon fault reference.now (reverse stack.now)) }
{
    if !is_of_subscripts(fault) {
        return Ok(());
    }
    put_variable(alloc, bytes, reference, stack)
}

// Whether a fault is of subscripts that make no name.
fn is_of_subscripts(fault: Fault) -> bool
    ensures { result ≡ of_subscripts fault }
{
    matches!(fault, Fault::Subscript)
}

// Puts a variable of this word, whose subscripts are the topmost operands, so many.
fn put_named(
    alloc: Global,
    bytes: &mut Vec<u8>,
    scope: Scope,
    word: &Text,
    count: usize,
    stack: &[Text],
) -> Result<(), AllocError>
    ensures { OnOk result (bytes.new.items ≡ bytes.old.items ++ named_upon scope word.now count (reverse stack.now)) }
{
    let mut name = Vec::new(alloc);
    put_word(&mut name, scope, word)?;
    let subs = subs(alloc, operands(stack, count))?;
    put_subscripts(&mut name, &subs)?;
    put_shortened(bytes, &name)
}

// Puts a word, behind the `^` of a global.
fn put_word(bytes: &mut Vec<u8>, scope: Scope, word: &Text) -> Result<(), AllocError>
    ensures { OnOk result (bytes.new.items ≡ bytes.old.items ++ word_in scope word.now) }
{
    match scope {
        Scope::Local => put_text(bytes, word),
        Scope::Global => {
            bytes.push(b'^')?;
            put_text(bytes, word)
        }
    }
}

// The topmost operands, so many, or all where there are fewer.
fn operands(stack: &[Text], count: usize) -> &[Text]
    ensures { result.now ≡ the_operands count (reverse stack.now) }
{
    if count <= stack.len() {
        topmost(stack, count)
    } else {
        stack
    }
}

// These texts as subscripts.
fn subs(alloc: Global, texts: &[Text]) -> Result<Vec<Sub>, AllocError>
    ensures { IfOk result (λ subs. subs.items ≡ texts.now) }
{
    let mut subs = Vec::new(alloc);
    for text in texts {
        subs.push(Sub::from_text(text.try_clone()?))?;
    }
    Ok(subs)
}

// Puts the entry of a function that is called in the routine of this name.
fn put_function(bytes: &mut Vec<u8>, routine: &Text, target: &Target) -> Result<(), AllocError>
    ensures { OnOk result (bytes.new.items ≡ bytes.old.items ++ (codes "$$" ++ entry_text (entry_in routine.now (target_of target.now)))) }
{
    put(bytes, b"$$")?;
    if let Some(label) = &target.label {
        put_text(bytes, label)?;
    }
    bytes.push(b'^')?;
    match &target.routine {
        None => put_text(bytes, routine),
        Some(other) => put_text(bytes, other),
    }
}

// Puts the device that the topmost operand names.
fn put_device(alloc: Global, bytes: &mut Vec<u8>, stack: &[Text]) -> Result<(), AllocError>
    ensures { OnOk result (bytes.new.items ≡ bytes.old.items ++ device_upon (reverse stack.now)) }
{
    let Some(device) = stack.last() else {
        return Ok(());
    };
    put_listed(alloc, bytes, device)
}

// Puts the current device, if it failed.
fn put_current(
    alloc: Global,
    bytes: &mut Vec<u8>,
    fault: Fault,
    devices: &Devices,
) -> Result<(), AllocError>
    ensures { OnOk result (bytes.new.items ≡ bytes.old.items ++ current_of fault devices.now.current) }
{
    if !is_of_device(fault) {
        return Ok(());
    }
    let device = devices.current(alloc)?;
    put_listed(alloc, bytes, &device)
}

// Whether a device failed.
fn is_of_device(fault: Fault) -> bool
    ensures { result ≡ of_device fault }
{
    matches!(fault, Fault::Device)
}

// Puts the name of a device in listing quotes.
fn put_listed(alloc: Global, bytes: &mut Vec<u8>, device: &Text) -> Result<(), AllocError>
    ensures { OnOk result (bytes.new.items ≡ bytes.old.items ++ shortened (listed_text device.now)) }
{
    let mut name = Vec::new(alloc);
    put_quoted(&mut name, device)?;
    put_shortened(bytes, &name)
}

// All operands but the topmost.
fn but_last(stack: &[Text]) -> &[Text]
    ensures { reverse result.now ≡ drop 1 (reverse stack.now) }
{
    match stack {
        [] => stack,
        [_, ..] => under(stack, 1),
    }
}

// Puts the local of the innermost FOR.
fn put_local(alloc: Global, bytes: &mut Vec<u8>, loops: &[Loop]) -> Result<(), AllocError>
    ensures { OnOk result (bytes.new.items ≡ bytes.old.items ++ local_of (loops_of loops.now)) }
{
    let Some(innermost) = loops.last() else {
        return Ok(());
    };
    let mut name = Vec::new(alloc);
    put_name(&mut name, &innermost.name)?;
    put_shortened(bytes, &name)
}
