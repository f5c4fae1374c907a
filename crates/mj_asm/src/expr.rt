// The instructions of expressions.

ghost use Rattle.std.specs.Prelude.{◌≡◌, ◌<◌, [], ◌∷◌, ◌++◌, length, map, slice_set, IfOk, IfSome, IfNone, OnOk};
ghost use Rattle.mj_ast.specs.Trees.{operand_of, expr_of, variable_of, choice_of, tails_of, exprs_of, option_of};
ghost use Rattle.mj_ast.specs.Syntax.{as_actuals};
ghost use Rattle.mj_asm.specs.Code.{operand_code, expr_code, tails_code, exprs_code, subscripts_code, choices_code, others_code, actuals_code, shape_of};
ghost use Rattle.mj_asm.specs.Code as code_spec;

use mj_ast::{Actual, Choice, Expr, Operand, Tail, Target, Variable};
use mj_pcode::{Instr, Reference, Shape};
use std::alloc::AllocError;
use std::mem::replace;

/// One more instruction.
pub fn put(code: &mut Vec<Instr>, instr: Instr) -> Result<(), AllocError>
    ensures { OnOk result (code.new.items ≡ code.old.items ++ instr ∷ []) }
{
    code.push(instr)?;
    Ok(())
}

/// Another instruction in the place of this one.
pub fn change(code: &mut Vec<Instr>, at: usize, instr: Instr)
    requires { at < length code.old.items }
    ensures { code.new.items ≡ slice_set code.old.items at instr }
{
    // by an assignment the one before would end here, which makes a long proof
    drop(replace(&mut code[at], instr));
}

/// The test at this place leads to the end of the code where it fails.
pub fn aim(code: &mut Vec<Instr>, at: usize)
    requires { at < length code.old.items }
    ensures { code.new.items ≡ slice_set code.old.items at (Instr.JumpUnless (length code.old.items)) }
{
    let target = code.len();
    change(code, at, Instr::JumpUnless(target));
}

// The jump at this place leads to the end of the code.
fn aim_jump(code: &mut Vec<Instr>, at: usize)
    requires { at < length code.old.items }
    ensures { code.new.items ≡ slice_set code.old.items at (Instr.Jump (length code.old.items)) }
{
    let target = code.len();
    change(code, at, Instr::Jump(target));
}

/// An expression, whose value comes onto the stack.
#[cycle(emit)]
pub fn emit_expr(code: &mut Vec<Instr>, e: &Expr) -> Result<(), AllocError>
    ensures { OnOk result (code.new.items ≡ code.old.items ++ expr_code (length code.old.items) (expr_of e.now)) }
{
    emit_operand(code, &e.first)?;
    emit_tails(code, &e.rest)
}

// Operators, with what stands left of them on the stack.
#[cycle(emit)]
fn emit_tails(code: &mut Vec<Instr>, tails: &[Tail]) -> Result<(), AllocError>
    ensures { OnOk result (code.new.items ≡ code.old.items ++ tails_code (length code.old.items) (tails_of tails.now)) }
{
    for tail in tails {
        emit_operand(code, &tail.operand)?;
        put(code, Instr::Binary(tail.op))?;
    }
    Ok(())
}

#[cycle(emit)]
fn emit_operand(code: &mut Vec<Instr>, operand: &Operand) -> Result<(), AllocError>
    ensures { OnOk result (code.new.items ≡ code.old.items ++ operand_code (length code.old.items) (operand_of operand.now)) }
{
    match operand {
        Operand::Literal(text) => {
            let text = text.try_clone()?;
            put(code, Instr::Push(text))
        }
        Operand::Variable(variable) => {
            emit_subscripts(code, variable)?;
            let reference = reference(variable)?;
            put(code, Instr::Load(reference))
        }
        Operand::Special(special) => put(code, Instr::PushSpecial(*special)),
        Operand::Unary(op, inner) => {
            emit_operand(code, inner)?;
            put(code, Instr::Unary(*op))
        }
        Operand::Group(e) => emit_expr(code, e),
        Operand::Call(function, arguments) => {
            emit_all(code, arguments)?;
            put(code, Instr::CallFunction(*function, arguments.len()))
        }
        Operand::About(function, variable, others) => {
            emit_subscripts(code, variable)?;
            let name = reference(variable)?;
            put(code, Instr::CheckNamed(*function, name))?;
            emit_all(code, others)?;
            let name = reference(variable)?;
            let count = variable.subscripts.len() + others.len();
            put(code, Instr::CallNameFunction(*function, name, count))
        }
        Operand::Select(choice) => emit_choice(code, choice),
        Operand::Extrinsic(target, actuals) => {
            let written = emit_actuals(code, actuals)?;
            let passed = plain(written);
            let begins = copied(target)?;
            put(code, Instr::Invoke(begins, passed))
        }
    }
}

// A condition, a test, its value, a jump past the other choices, and these.
#[cycle(emit)]
fn emit_choice(code: &mut Vec<Instr>, choice: &Choice) -> Result<(), AllocError>
    ensures { OnOk result (code.new.items ≡ code.old.items ++ choices_code (length code.old.items) (choice_of choice.now)) }
{
    emit_expr(code, &choice.condition)?;
    let test = code.len();
    put(code, Instr::JumpUnless(0))?;
    emit_expr(code, &choice.value)?;
    let exit = code.len();
    put(code, Instr::Jump(0))?;
    aim(code, test);
    emit_others(code, choice)?;
    aim_jump(code, exit);
    Ok(())
}

// The choices behind the first.
#[cycle(emit)]
fn emit_others(code: &mut Vec<Instr>, choice: &Choice) -> Result<(), AllocError>
    ensures { OnOk result (code.new.items ≡ code.old.items ++ others_code (length code.old.items) (choice_of choice.now)) }
{
    match &choice.others {
        Some(others) => emit_choice(code, others),
        None => put(code, Instr::SelectFails),
    }
}

/// A variable's subscripts, whose values come onto the stack in order.
#[cycle(emit)]
pub fn emit_subscripts(code: &mut Vec<Instr>, variable: &Variable) -> Result<(), AllocError>
    ensures { OnOk result (code.new.items ≡ code.old.items ++ subscripts_code (length code.old.items) (variable_of variable.now)) }
{
    emit_all(code, &variable.subscripts)
}

/// Expressions, whose values come onto the stack in order.
#[cycle(emit)]
pub fn emit_all(code: &mut Vec<Instr>, expressions: &[Expr]) -> Result<(), AllocError>
    ensures { OnOk result (code.new.items ≡ code.old.items ++ exprs_code (length code.old.items) (exprs_of expressions.now)) }
{
    for expression in expressions {
        emit_expr(code, expression)?;
    }
    Ok(())
}

/// Actuals, of which the values of those that are given come onto the stack in order.
#[cycle(emit)]
pub fn emit_actuals(code: &mut Vec<Instr>, actuals: &[Actual]) -> Result<Shape, AllocError>
    ensures code { OnOk result (code.new.items ≡ code.old.items ++ actuals_code (length code.old.items) (as_actuals (map option_of actuals.now))) }
    ensures shape { IfOk result (λ shape. shape ≡ shape_of (as_actuals (map option_of actuals.now))) }
{
    let mut shape = Shape::new(*code.allocator());
    for actual in actuals {
        match actual {
            Actual::Given(value) => {
                shape.push(true)?;
                emit_expr(code, value)?;
            }
            Actual::Omitted => shape.push(false)?,
        }
    }
    Ok(shape)
}

// Parentheses with nothing in them are one actual that is left out, and pass none.
#[tactic(auto, using(crate::proofs::Actuals::plain_many))]
fn plain(shape: Shape) -> Shape
    ensures { result ≡ code_spec.plain_shape shape }
{
    let Some(given) = only(shape.as_slice()) else {
        return shape;
    };
    if given {
        return shape;
    }
    let mut none = shape;
    none.clear();
    none
}

// Whether the one actual is given, where there is one alone.
fn only(given: &[bool]) -> Option<bool>
    ensures one { IfSome result (λ b. given.now ≡ b ∷ []) }
    ensures other { IfNone result (length given.now ≡ 1 → ⊥) }
{
    match given {
        [only] => Some(*only),
        _ => None,
    }
}

// Where a function begins, once more.
fn copied(target: &Target) -> Result<Target, AllocError>
    ensures { IfOk result (λ t. t ≡ target.now) }
{
    let label = match &target.label {
        None => None,
        Some(label) => Some(label.try_clone()?),
    };
    let routine = match &target.routine {
        None => None,
        Some(routine) => Some(routine.try_clone()?),
    };
    Ok(Target { label, routine })
}

/// A variable whose subscripts lie on the stack.
pub fn reference(variable: &Variable) -> Result<Reference, AllocError>
    ensures { IfOk result (λ r. r ≡ code_spec.reference (variable_of variable.now)) }
{
    Ok(Reference {
        scope: variable.scope,
        word: variable.word.try_clone()?,
        count: variable.subscripts.len(),
    })
}
