// The instructions of destinations.

ghost use Rattle.std.specs.Prelude.{◌≡◌, ◌<◌, ◌+◌, ◌^◌, [], ◌∷◌, ◌++◌, length, map, OnOk};
ghost use Rattle.mj_ast.specs.Trees.{expr_of, variable_of, destination_of};
ghost use Rattle.mj_ast.specs.Syntax as syntax;
ghost use Rattle.mj_asm.specs.Code as code_spec;
ghost use Rattle.mj_asm.specs.Code.{subscripts_code, destination_code, destinations_code, store_code, stores_code, targets_code};

use crate::expr::{emit_all, emit_expr, emit_subscripts, put, reference};
use mj_ast::{Destination, Expr, Variable};
use mj_pcode::{Depth, Instr};
use std::alloc::AllocError;

/// One destination, then the value, then the assignment, after which all operands are gone.
pub fn emit_one(
    code: &mut Vec<Instr>,
    destination: &Destination,
    value: &Expr,
) -> Result<(), AllocError>
    ensures { OnOk result (code.new.items
        ≡ code.old.items ++ targets_code (length code.old.items) (syntax.One (destination_of destination.now)) (expr_of value.now)) }
{
    emit_destination(code, destination)?;
    emit_expr(code, value)?;
    let taken = size(destination) + 1;
    emit_store(code, destination, Depth { above: 1, taken })
}

/// A list of destinations, then the value, then the assignments, and then all operands go.
pub fn emit_several(
    code: &mut Vec<Instr>,
    list: &[Destination],
    common: &Expr,
) -> Result<(), AllocError>
    ensures { OnOk result (code.new.items
        ≡ code.old.items ++ targets_code (length code.old.items) (syntax.Several (map destination_of list.now)) (expr_of common.now)) }
{
    emit_destinations(code, list)?;
    emit_expr(code, common)?;
    let above = sizes(list);
    emit_stores(code, list, above)?;
    put(code, Instr::Discard(above + 1))
}

fn emit_destinations(code: &mut Vec<Instr>, list: &[Destination]) -> Result<(), AllocError>
    ensures { OnOk result (code.new.items ≡ code.old.items ++ destinations_code (length code.old.items) (map destination_of list.now)) }
{
    for destination in list {
        emit_destination(code, destination)?;
    }
    Ok(())
}

// A name, and then of pieces the arguments.
fn emit_destination(code: &mut Vec<Instr>, destination: &Destination) -> Result<(), AllocError>
    ensures { OnOk result (code.new.items ≡ code.old.items ++ destination_code (length code.old.items) (destination_of destination.now)) }
{
    match destination {
        Destination::Whole(variable) => emit_name(code, variable),
        Destination::Pieces(variable, arguments) => {
            emit_name(code, variable)?;
            emit_all(code, arguments)
        }
    }
}

/// The subscripts, and then the name's check.
pub fn emit_name(code: &mut Vec<Instr>, variable: &Variable) -> Result<(), AllocError>
    ensures { OnOk result (code.new.items ≡ code.old.items
        ++ (subscripts_code (length code.old.items) (variable_of variable.now) ++ Instr.CheckName (code_spec.reference (variable_of variable.now)) ∷ [])) }
{
    emit_subscripts(code, variable)?;
    let checked = reference(variable)?;
    put(code, Instr::CheckName(checked))
}

// The assignments from left to right. Above the operands of each lie those of the later ones, and the value.
fn emit_stores(
    code: &mut Vec<Instr>,
    list: &[Destination],
    operands: usize,
) -> Result<(), AllocError>
    requires all { operands ≡ code_spec.sizes (map destination_of list.now) }
    requires few { operands + 2 < 2 ^ 64 }
    ensures { OnOk result (code.new.items ≡ code.old.items ++ stores_code (map destination_of list.now)) }
{
    let mut later = operands;
    for destination in list {
        later -= size(destination);
        let depth = Depth {
            above: later + 1,
            taken: 0,
        };
        emit_store(code, destination, depth)?;
    }
    Ok(())
}

// The assignment of the topmost operand.
fn emit_store(
    code: &mut Vec<Instr>,
    destination: &Destination,
    depth: Depth,
) -> Result<(), AllocError>
    requires above { depth.above + code_spec.size (destination_of destination.now) + 1 < 2 ^ 64 }
    requires taken { depth.taken + 1 < 2 ^ 64 }
    ensures { OnOk result (code.new.items ≡ code.old.items ++ store_code (destination_of destination.now) depth) }
{
    match destination {
        Destination::Whole(variable) => {
            let stored = reference(variable)?;
            put(code, Instr::Store(stored, depth))
        }
        Destination::Pieces(variable, arguments) => {
            let count = arguments.len();
            let read = reference(variable)?;
            put(code, Instr::SetPiece(read, count, depth))?;
            let stored = reference(variable)?;
            let under = Depth {
                above: depth.above + count + 1,
                taken: depth.taken + 1,
            };
            put(code, Instr::Store(stored, under))
        }
    }
}

// How many operands a destination is.
fn size(destination: &Destination) -> usize
    requires { code_spec.size (destination_of destination.now) < 2 ^ 64 }
    ensures { result ≡ code_spec.size (destination_of destination.now) }
{
    match destination {
        Destination::Whole(variable) => variable.subscripts.len(),
        Destination::Pieces(variable, arguments) => variable.subscripts.len() + arguments.len(),
    }
}

// How many operands the destinations of a list are.
fn sizes(list: &[Destination]) -> usize
    requires { code_spec.sizes (map destination_of list.now) < 2 ^ 64 }
    ensures { result ≡ code_spec.sizes (map destination_of list.now) }
{
    let mut total = 0;
    for destination in list {
        total += size(destination);
    }
    total
}
