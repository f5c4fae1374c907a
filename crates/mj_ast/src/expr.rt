// Expressions.

use crate::function::{Function, NameFunction, Special};
use crate::routine::Target;
use mj_oper::{Op, UnaryOp};
use mj_text::Text;

/// Whose a variable is: the job's own, or shared by all jobs.
#[derive(Clone, Copy, PartialEq, Eq, Debug)]
pub enum Scope {
    Local,
    Global,
}

/// An operand, and then operators with theirs, which are applied from left to right.
#[derive(Drop)]
#[cycle(expr)]
pub struct Expr {
    pub first: Operand,
    pub rest: Vec<Tail>,
}

/// An operator and its right operand.
#[derive(Drop)]
#[cycle(expr)]
pub struct Tail {
    pub op: Op,
    pub operand: Operand,
}

/// What stands between binary operators.
#[derive(Drop)]
#[cycle(expr)]
pub enum Operand {
    /// a quoted text, or the canonic text of the number that digits read
    Literal(Text),
    /// the value of a variable
    Variable(Variable),
    /// the value of a special variable
    Special(Special),
    /// an operator and its operand
    Unary(UnaryOp, Box<Operand>),
    /// an expression in parentheses
    Group(Box<Expr>),
    /// a function and its arguments
    Call(Function, Vec<Expr>),
    /// a function of a variable, and what stands behind that
    About(NameFunction, Variable, Vec<Expr>),
    /// `$SELECT` and its choices
    Select(Box<Choice>),
    /// a function that is written in M: where it begins, and its actuals; parentheses with nothing in them are one that is left out
    Extrinsic(Target, Vec<Actual>),
}

/// An actual, which may be left out.
#[derive(Drop)]
#[cycle(expr)]
pub enum Actual {
    Given(Expr),
    Omitted,
}

/// A choice of `$SELECT`: a condition with the value that it leads to, and the choices behind it, if there are any.
#[derive(Drop)]
#[cycle(expr)]
pub struct Choice {
    pub condition: Expr,
    pub value: Expr,
    pub others: Option<Box<Choice>>,
}

/// A local or a global, with its subscripts.
#[derive(Drop)]
#[cycle(expr)]
pub struct Variable {
    pub scope: Scope,
    pub word: Text,
    pub subscripts: Vec<Expr>,
}
