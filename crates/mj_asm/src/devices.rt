// The instructions of WRITE, OPEN, USE, CLOSE and READ.

ghost use Rattle.std.specs.Prelude.{◌≡◌, ◌+◌, ◌++◌, length, map, option_map, OnOk};
ghost use Rattle.mj_ast.specs.Trees.{expr_of, variable_of, layout_of, output_of, opened_of, received_of, input_of};
ghost use Rattle.mj_asm.specs.Code as code_spec;
ghost use Rattle.mj_asm.specs.Code.{format_code, output_code, outputs_code, open_code, opens_code, use_code, uses_code, close_code, closes_code, receive_code};
ghost use Rattle.mj_asm.specs.Code.{input_code, inputs_code};

use crate::expr::{emit_expr, put, reference};
use crate::sharing::emit_timeout;
use crate::targets::emit_name;
use mj_ast::{Expr, Input, Layout, Opened, Output, Received, Variable};
use mj_pcode::{Depth, Instr, Marks};
use std::alloc::{AllocError, Global};

/// The arguments of WRITE.
pub fn emit_outputs(
    alloc: Global,
    code: &mut Vec<Instr>,
    outputs: &[Output],
) -> Result<(), AllocError>
    ensures { OnOk result (code.new.items ≡ code.old.items ++ outputs_code (length code.old.items) (map output_of outputs.now)) }
{
    for output in outputs {
        emit_output(alloc, code, output)?;
    }
    Ok(())
}

fn emit_output(alloc: Global, code: &mut Vec<Instr>, output: &Output) -> Result<(), AllocError>
    ensures { OnOk result (code.new.items ≡ code.old.items ++ output_code (length code.old.items) (output_of output.now)) }
{
    match output {
        Output::Value(e) => {
            emit_expr(code, e)?;
            put(code, Instr::Write)
        }
        Output::Format(layout) => emit_format(alloc, code, layout),
        Output::Code(e) => {
            emit_expr(code, e)?;
            put(code, Instr::WriteByte)
        }
    }
}

// A format, of which the column has its value first.
fn emit_format(alloc: Global, code: &mut Vec<Instr>, layout: &Layout) -> Result<(), AllocError>
    ensures { OnOk result (code.new.items ≡ code.old.items ++ format_code (length code.old.items) (layout_of layout.now).marks (layout_of layout.now).column) }
{
    match &layout.column {
        None => {
            let marks = Marks::copied(alloc, &layout.marks)?;
            put(code, Instr::WriteFormat(marks))
        }
        Some(column) => {
            emit_expr(code, column)?;
            let marks = Marks::copied(alloc, &layout.marks)?;
            put(code, Instr::WriteTab(marks))
        }
    }
}

/// The arguments of OPEN.
pub fn emit_opens(code: &mut Vec<Instr>, list: &[Opened]) -> Result<(), AllocError>
    ensures { OnOk result (code.new.items ≡ code.old.items ++ opens_code (length code.old.items) (map opened_of list.now)) }
{
    for opened in list {
        emit_open(code, opened)?;
    }
    Ok(())
}

// The device, and then the timeout.
fn emit_open(code: &mut Vec<Instr>, opened: &Opened) -> Result<(), AllocError>
    ensures { OnOk result (code.new.items ≡ code.old.items ++ open_code (length code.old.items) (opened_of opened.now)) }
{
    emit_expr(code, &opened.device)?;
    let wait = emit_timeout(code, &opened.timeout)?;
    put(code, Instr::OpenDevice(wait))?;
    put(code, Instr::BeginSession)
}

/// The arguments of USE.
pub fn emit_uses(code: &mut Vec<Instr>, names: &[Expr]) -> Result<(), AllocError>
    ensures { OnOk result (code.new.items ≡ code.old.items ++ uses_code (length code.old.items) (map expr_of names.now)) }
{
    for name in names {
        emit_use(code, name)?;
    }
    Ok(())
}

fn emit_use(code: &mut Vec<Instr>, name: &Expr) -> Result<(), AllocError>
    ensures { OnOk result (code.new.items ≡ code.old.items ++ use_code (length code.old.items) (expr_of name.now)) }
{
    emit_expr(code, name)?;
    put(code, Instr::UseDevice)
}

/// The arguments of CLOSE.
pub fn emit_closes(code: &mut Vec<Instr>, names: &[Expr]) -> Result<(), AllocError>
    ensures { OnOk result (code.new.items ≡ code.old.items ++ closes_code (length code.old.items) (map expr_of names.now)) }
{
    for name in names {
        emit_close(code, name)?;
    }
    Ok(())
}

// The session ends, and the device is given up where that failed, or where it didn't.
fn emit_close(code: &mut Vec<Instr>, name: &Expr) -> Result<(), AllocError>
    ensures { OnOk result (code.new.items ≡ code.old.items ++ close_code (length code.old.items) (expr_of name.now)) }
{
    emit_expr(code, name)?;
    put(code, Instr::EndSession)?;
    put(code, Instr::GiveUpFailedDevice)?;
    put(code, Instr::GiveUpDevice)
}

/// The arguments of READ.
pub fn emit_inputs(alloc: Global, code: &mut Vec<Instr>, list: &[Input]) -> Result<(), AllocError>
    ensures { OnOk result (code.new.items ≡ code.old.items ++ inputs_code (length code.old.items) (map input_of list.now)) }
{
    for input in list {
        emit_input(alloc, code, input)?;
    }
    Ok(())
}

fn emit_input(alloc: Global, code: &mut Vec<Instr>, input: &Input) -> Result<(), AllocError>
    ensures { OnOk result (code.new.items ≡ code.old.items ++ input_code (length code.old.items) (input_of input.now)) }
{
    match input {
        Input::Prompt(text) => {
            let prompt = text.try_clone()?;
            put(code, Instr::Push(prompt))?;
            put(code, Instr::Write)
        }
        Input::Format(layout) => emit_format(alloc, code, layout),
        Input::Into(received) => emit_receive(code, received),
    }
}

// The variable, and then the timeout; what is read is assigned.
fn emit_receive(code: &mut Vec<Instr>, received: &Received) -> Result<(), AllocError>
    ensures { OnOk result (code.new.items ≡ code.old.items ++ receive_code (length code.old.items) (received_of received.now)) }
{
    emit_name(code, &received.variable)?;
    let taken = with_value(&received.variable);
    let wait = emit_timeout(code, &received.timeout)?;
    put(code, Instr::Read(received.mode, wait))?;
    let stored = reference(&received.variable)?;
    put(code, Instr::Store(stored, Depth { above: 1, taken }))
}

// How many operands the subscripts of a variable are, with a value on top.
fn with_value(variable: &Variable) -> usize
    ensures { result ≡ (code_spec.reference (variable_of variable.now)).count + 1 }
{
    variable.subscripts.len() + 1
}
