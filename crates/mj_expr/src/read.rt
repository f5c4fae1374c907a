// The parts of expressions, each read from the front of the tokens.

ghost use Rattle.std.specs.Prelude.{◌≡◌, ◌<◌, ◌≤◌, ℕ, List, Option, false, length, IfOk};
ghost use Rattle.std.specs.Option.{is_some};
ghost use Rattle.mj_ast.specs.declared.expr.Scope.{Scope};
ghost use Rattle.mj_ast.specs.Trees.{operand_of, expr_of, variable_of, exprs_of, choice_of, actuals_of, option_of};
ghost use Rattle.mj_expr.specs.Lists.{choices_of};
ghost use Rattle.mj_expr.specs.Reads.{symbols_seen, HasNoBinary, label_seen, IsLabelSize};
ghost use Rattle.mj_expr.specs.Readers.{ReadsOperand, ReadsGroup, ReadsOther, ReadsCall, ReadsAbout, ReadsChoices, ReadsChosen, ReadsOthers, ReadsGlobal};
ghost use Rattle.mj_expr.specs.Readers.{ReadsNamed, ReadsSought, ReadsExpr, ReadsList, ReadsEntry, ReadsRoutine, ReadsPassed, ReadsActual, ReadsActuals};
ghost use Rattle.mj_expr.specs.Readers.{IsWhole, IsLeft};

use crate::list::added;
use crate::stop::ParseError;
use crate::token::{
    Head, ListKind, behind_binary, behind_caret, behind_close, behind_colon, behind_comma,
    behind_name, behind_open, fills, front, head_of, is_limited, label_text, least,
    least_subscripts, levels, most, most_others, name_text, refusal,
};
use mj_ast::{Actual, Callee, Choice, Expr, NameFunction, Operand, Scope, Tail, Target, Variable};
use mj_lex::Lexeme;
use mj_text::Text;
use std::alloc::{AllocError, Global};
use std::mem::replace;

/// Reads the operand in front and the tokens behind it. `room` is how many levels may be opened, and `full` says that the list
/// of subscripts that it stands in has no room for another.
#[cycle(parse)]
fn operand<'a, 't>(
    alloc: Global,
    tokens: &'t [Lexeme<'a>],
    room: usize,
    full: bool,
) -> Result<(Operand, &'t [Lexeme<'a>]), ParseError>
    ensures shorter { IfOk result (λ x. length x.1.now < length tokens.now) }
    ensures reads { ReadsOperand (λ x. operand_of x.0) (λ x. x.1.now) result room full tokens.now }
{
    let Some((token, rest)) = front(tokens) else {
        return Err(refusal(tokens, full));
    };
    match head_of(alloc, token)? {
        Head::Constant(text) => Ok((Operand::Literal(text), rest)),
        Head::Special(variable) => Ok((Operand::Special(variable), rest)),
        Head::Name(word) => {
            let (variable, rest) = named(alloc, Scope::Local, word, rest, room)?;
            Ok((Operand::Variable(variable), rest))
        }
        Head::Callee(callee) => {
            if room < levels(callee) {
                return Err(ParseError::Deep(tokens.len()));
            }
            call(alloc, callee, rest, room - 1)
        }
        Head::Entry(label) => extrinsic(alloc, label, rest, room, full),
        Head::Caret => {
            let (variable, rest) = global(alloc, rest, room, full)?;
            Ok((Operand::Variable(variable), rest))
        }
        Head::Open => {
            if room == 0 {
                return Err(ParseError::Deep(tokens.len()));
            }
            let (inner, rest) = group(alloc, rest, room - 1)?;
            Ok((Operand::Group(Box::new(alloc, inner)?), rest))
        }
        Head::Unary(_, op) => {
            if room == 0 {
                return Err(ParseError::Deep(tokens.len()));
            }
            let (inner, rest) = operand(alloc, rest, room - 1, full)?;
            Ok((Operand::Unary(op, Box::new(alloc, inner)?), rest))
        }
        Head::Nothing => Err(refusal(tokens, full)),
    }
}

/// Reads the expression in front, which a parenthesis closes, and the tokens behind that.
#[cycle(parse)]
fn group<'a, 't>(
    alloc: Global,
    tokens: &'t [Lexeme<'a>],
    room: usize,
) -> Result<(Expr, &'t [Lexeme<'a>]), ParseError>
    ensures shorter { IfOk result (λ x. length x.1.now < length tokens.now) }
    ensures reads { ReadsGroup (λ x. expr_of x.0) (λ x. x.1.now) result room tokens.now }
    ensures other { ReadsOther (λ x. expr_of x.0) (λ x. x.1.now) result room tokens.now }
{
    let (inner, rest) = expr(alloc, tokens, room, false)?;
    match behind_close(rest) {
        Some(rest) => Ok((inner, rest)),
        None => Err(refusal(rest, false)),
    }
}

/// Reads the call of a function whose word was read, which opened a level.
#[cycle(parse)]
fn call<'a, 't>(
    alloc: Global,
    callee: Callee,
    tokens: &'t [Lexeme<'a>],
    room: usize,
) -> Result<(Operand, &'t [Lexeme<'a>]), ParseError>
    ensures shorter { IfOk result (λ x. length x.1.now < length tokens.now) }
    ensures reads { ReadsCall (λ x. operand_of x.0) (λ x. x.1.now) result callee room tokens.now }
{
    let Some(rest) = behind_open(tokens) else {
        return Err(refusal(tokens, false));
    };
    match callee {
        Callee::Texts(function) => {
            let (arguments, rest) = list(alloc, ListKind::Arguments(function), rest, room)?;
            Ok((Operand::Call(function, arguments), rest))
        }
        Callee::Names(function) => about(alloc, function, rest, room),
        Callee::Select => {
            let (choice, rest) = choices(alloc, rest, room)?;
            Ok((Operand::Select(Box::new(alloc, choice)?), rest))
        }
    }
}

/// Makes a text of the label of an entry, if one stands there.
fn label_of(alloc: Global, label: Option<&[u8]>) -> Result<Option<Text>, AllocError>
    requires { IsLabelSize (label_seen label) }
    ensures { IfOk result (λ l. l ≡ label_seen label.entry) }
{
    match label {
        None => Ok(None),
        Some(label) => Ok(Some(label_text(alloc, label)?)),
    }
}

/// Reads the routine of an entry, if one stands there, and the tokens behind it. Behind `$$` alone one has to.
fn routine<'a, 't>(
    alloc: Global,
    labelled: bool,
    tokens: &'t [Lexeme<'a>],
    full: bool,
) -> Result<(Option<Text>, &'t [Lexeme<'a>]), ParseError>
    ensures shorter { IfOk result (λ x. length x.1.now ≤ length tokens.now) }
    ensures whole { IfOk result (λ x. (label : Option (List ℕ)) → is_some label ≡ labelled → IsWhole label x.0 (symbols_seen x.1.now)) }
    ensures reads { (label : Option (List ℕ)) → is_some label ≡ labelled → ReadsRoutine (λ x. x.0) (λ x. x.1.now) result label full tokens.now }
{
    match behind_caret(tokens) {
        Some(behind) => match behind_name(behind) {
            Some((word, rest)) => Ok((Some(name_text(alloc, word)?), rest)),
            None => Err(refusal(behind, full)),
        },
        None => {
            if labelled {
                Ok((None, tokens))
            } else {
                Err(refusal(tokens, full))
            }
        }
    }
}

/// Reads a function that is written in M, of which `$$` and the label, if one stands there, were read.
#[cycle(parse)]
fn extrinsic<'a, 't>(
    alloc: Global,
    label: Option<&[u8]>,
    tokens: &'t [Lexeme<'a>],
    room: usize,
    full: bool,
) -> Result<(Operand, &'t [Lexeme<'a>]), ParseError>
    requires { IsLabelSize (label_seen label) }
    ensures shorter { IfOk result (λ x. length x.1.now ≤ length tokens.now) }
    ensures reads { ReadsEntry (λ x. operand_of x.0) (λ x. x.1.now) result (label_seen label.entry) room full tokens.now }
{
    let (routine, rest) = routine(alloc, label.is_some(), tokens, full)?;
    match passed(alloc, rest, room) {
        Ok((actuals, rest)) => match label_of(alloc, label) {
            Ok(label) => Ok((Operand::Extrinsic(Target { label, routine }, actuals), rest)),
            Err(_) => {
                drop(routine); // for the proof
                drop(actuals); // for the proof
                Err(ParseError::Memory)
            }
        },
        Err(stop) => {
            drop(routine); // for the proof
            Err(stop)
        }
    }
}

/// Reads the actuals behind an entry, if some stand there, and the tokens behind them.
#[cycle(parse)]
fn passed<'a, 't>(
    alloc: Global,
    tokens: &'t [Lexeme<'a>],
    room: usize,
) -> Result<(Vec<Actual>, &'t [Lexeme<'a>]), ParseError>
    ensures shorter { IfOk result (λ x. length x.1.now ≤ length tokens.now) }
    ensures reads { ReadsPassed (λ x. actuals_of x.0.items) (λ x. x.1.now) result room tokens.now }
{
    let Some(behind) = behind_open(tokens) else {
        return Ok((Vec::new(alloc), tokens));
    };
    if room == 0 {
        return Err(ParseError::Deep(tokens.len()));
    }
    actuals(alloc, behind, room - 1)
}

/// Reads the actuals behind their opening parenthesis, and the tokens behind the closing one.
#[cycle(parse)]
fn actuals<'a, 't>(
    alloc: Global,
    tokens: &'t [Lexeme<'a>],
    room: usize,
) -> Result<(Vec<Actual>, &'t [Lexeme<'a>]), ParseError>
    ensures shorter { IfOk result (λ x. length x.1.now < length tokens.now) }
    ensures reads { ReadsActuals (λ x. actuals_of x.0.items) (λ x. x.1.now) result room tokens.now }
{
    let (mut last, mut rest) = actual(alloc, tokens, room)?;
    let mut items = Vec::new(alloc);
    'commas: while let Some(after) = behind_comma(rest) {
        let (item, behind) = actual(alloc, after, room)?;
        let before = replace(&mut last, item);
        added(&mut items, before)?;
        rest = behind;
    }
    match behind_close(rest) {
        Some(rest) => {
            added(&mut items, last)?;
            Ok((items, rest))
        }
        None => Err(refusal(rest, false)),
    }
}

/// Reads an actual, which may be left out before a comma or a closing parenthesis, and the tokens behind it.
#[cycle(parse)]
fn actual<'a, 't>(
    alloc: Global,
    tokens: &'t [Lexeme<'a>],
    room: usize,
) -> Result<(Actual, &'t [Lexeme<'a>]), ParseError>
    ensures shorter { IfOk result (λ x. length x.1.now ≤ length tokens.now) }
    ensures left { IfOk result (λ x. IsLeft (option_of x.0) (symbols_seen x.1.now)) }
    ensures reads { ReadsActual (λ x. option_of x.0) (λ x. x.1.now) result room tokens.now }
{
    match behind_comma(tokens) {
        Some(_) => Ok((Actual::Omitted, tokens)),
        None => match behind_close(tokens) {
            Some(_) => Ok((Actual::Omitted, tokens)),
            None => {
                let (value, rest) = expr(alloc, tokens, room, false)?;
                Ok((Actual::Given(value), rest))
            }
        },
    }
}

/// Reads the call of a function of a variable behind the opening parenthesis, and the tokens behind the closing one.
#[cycle(parse)]
fn about<'a, 't>(
    alloc: Global,
    function: NameFunction,
    tokens: &'t [Lexeme<'a>],
    room: usize,
) -> Result<(Operand, &'t [Lexeme<'a>]), ParseError>
    ensures shorter { IfOk result (λ x. length x.1.now < length tokens.now) }
    ensures reads { ReadsAbout (λ x. operand_of x.0) (λ x. x.1.now) result function room tokens.now }
{
    let (variable, rest) = sought(alloc, tokens, room)?;
    if variable.subscripts.len() < least_subscripts(function) {
        return Err(refusal(rest, false));
    }
    if let Some(rest) = behind_close(rest) {
        return Ok((Operand::About(function, variable, Vec::new(alloc)), rest));
    }
    if most_others(function) == 0 {
        return Err(refusal(rest, false));
    }
    let Some(behind) = behind_comma(rest) else {
        return Err(refusal(rest, false));
    };
    let (other, rest) = group(alloc, behind, room)?;
    let mut others = Vec::new(alloc);
    added(&mut others, other)?;
    Ok((Operand::About(function, variable, others), rest))
}

/// Reads the choices of `$SELECT` behind the opening parenthesis, and the tokens behind the closing one.
#[cycle(parse)]
fn choices<'a, 't>(
    alloc: Global,
    tokens: &'t [Lexeme<'a>],
    room: usize,
) -> Result<(Choice, &'t [Lexeme<'a>]), ParseError>
    ensures shorter { IfOk result (λ x. length x.1.now < length tokens.now) }
    ensures reads { ReadsChoices (λ x. choice_of x.0) (λ x. x.1.now) result room tokens.now }
{
    let (condition, rest) = expr(alloc, tokens, room, false)?;
    match chosen(alloc, rest, room) {
        Ok((value, others, rest)) => Ok((
            Choice {
                condition,
                value,
                others,
            },
            rest,
        )),
        Err(stop) => {
            drop(condition); // for the proof
            Err(stop)
        }
    }
}

/// Reads the value behind a condition and the choices behind that, and the tokens behind the closing parenthesis.
#[cycle(parse)]
fn chosen<'a, 't>(
    alloc: Global,
    tokens: &'t [Lexeme<'a>],
    room: usize,
) -> Result<(Expr, Option<Box<Choice>>, &'t [Lexeme<'a>]), ParseError>
    requires { HasNoBinary (symbols_seen tokens.now) }
    ensures shorter { IfOk result (λ x. length x.2.now < length tokens.now) }
    ensures reads { ReadsChosen (λ a x. choices_of a (expr_of x.0) x.1) (λ x. x.2.now) result room tokens.now }
{
    let Some(rest) = behind_colon(tokens) else {
        return Err(refusal(tokens, false));
    };
    let (value, rest) = expr(alloc, rest, room, false)?;
    match others(alloc, rest, room) {
        Ok((others, rest)) => Ok((value, others, rest)),
        Err(stop) => {
            drop(value); // for the proof
            Err(stop)
        }
    }
}

/// Reads the choices behind a condition and its value, if there are any, and the tokens behind the closing parenthesis.
#[cycle(parse)]
fn others<'a, 't>(
    alloc: Global,
    tokens: &'t [Lexeme<'a>],
    room: usize,
) -> Result<(Option<Box<Choice>>, &'t [Lexeme<'a>]), ParseError>
    requires { HasNoBinary (symbols_seen tokens.now) }
    ensures shorter { IfOk result (λ x. length x.1.now < length tokens.now) }
    ensures reads { ReadsOthers (λ a v x. choices_of a v x.0) (λ x. x.1.now) result room tokens.now }
{
    if let Some(behind) = behind_comma(tokens) {
        let (others, rest) = choices(alloc, behind, room)?;
        return Ok((Some(Box::new(alloc, others)?), rest));
    }
    match behind_close(tokens) {
        Some(rest) => Ok((None, rest)),
        None => Err(refusal(tokens, false)),
    }
}

/// Reads the variable behind a `^`.
#[cycle(parse)]
fn global<'a, 't>(
    alloc: Global,
    tokens: &'t [Lexeme<'a>],
    room: usize,
    full: bool,
) -> Result<(Variable, &'t [Lexeme<'a>]), ParseError>
    ensures shorter { IfOk result (λ x. length x.1.now < length tokens.now) }
    ensures reads { ReadsGlobal (λ x. variable_of x.0) (λ x. x.1.now) result room full tokens.now }
{
    match behind_name(tokens) {
        Some((word, rest)) => named(alloc, Scope::Global, word, rest, room),
        None => Err(refusal(tokens, full)),
    }
}

/// Reads the variable whose name was read.
#[cycle(parse)]
fn named<'a, 't>(
    alloc: Global,
    scope: Scope,
    word: &[u8],
    tokens: &'t [Lexeme<'a>],
    room: usize,
) -> Result<(Variable, &'t [Lexeme<'a>]), ParseError>
    requires { length word.now ≤ 31 }
    ensures shorter { IfOk result (λ x. length x.1.now ≤ length tokens.now) }
    ensures reads { ReadsNamed (λ x. variable_of x.0) (λ x. x.1.now) result scope word.now room tokens.now }
{
    let word = name_text(alloc, word)?;
    match behind_open(tokens) {
        Some(rest) => {
            if room == 0 {
                return Err(ParseError::Deep(tokens.len()));
            }
            let (subscripts, rest) = list(alloc, ListKind::Subscripts, rest, room - 1)?;
            Ok((
                Variable {
                    scope,
                    word,
                    subscripts,
                },
                rest,
            ))
        }
        None => Ok((
            Variable {
                scope,
                word,
                subscripts: Vec::new(alloc),
            },
            tokens,
        )),
    }
}

/// Reads the expression in front and the tokens behind it, where it can't go on.
#[cycle(parse)]
pub(crate) fn expr<'a, 't>(
    alloc: Global,
    tokens: &'t [Lexeme<'a>],
    room: usize,
    full: bool,
) -> Result<(Expr, &'t [Lexeme<'a>]), ParseError>
    ensures shorter { IfOk result (λ x. length x.1.now < length tokens.now) }
    ensures stops { IfOk result (λ x. HasNoBinary (symbols_seen x.1.now)) }
    ensures reads { ReadsExpr (λ x. expr_of x.0) (λ x. x.1.now) result room full tokens.now }
{
    let (first, mut rest) = operand(alloc, tokens, room, full)?;
    let mut tails = Vec::new(alloc);
    'joins: while let Some((op, after)) = behind_binary(rest) {
        let (operand, behind) = operand(alloc, after, room, full)?;
        added(&mut tails, Tail { op, operand })?;
        rest = behind;
    }
    Ok((Expr { first, rest: tails }, rest))
}

/// Reads the expressions of a list behind its opening parenthesis, and the tokens behind the closing one.
#[cycle(parse)]
fn list<'a, 't>(
    alloc: Global,
    kind: ListKind,
    tokens: &'t [Lexeme<'a>],
    room: usize,
) -> Result<(Vec<Expr>, &'t [Lexeme<'a>]), ParseError>
    ensures shorter { IfOk result (λ x. length x.1.now < length tokens.now) }
    ensures reads { ReadsList (λ x. exprs_of x.0.items) (λ x. x.1.now) result kind room tokens.now }
{
    let (first, mut rest) = expr(alloc, tokens, room, false)?;
    let mut items = Vec::new(alloc);
    added(&mut items, first)?;
    'commas: while let Some(after) = behind_comma(rest) {
        if items.len() >= most(kind) {
            return Err(refusal(rest, is_limited(kind)));
        }
        let full = fills(kind, items.len());
        let (item, behind) = expr(alloc, after, room, full)?;
        added(&mut items, item)?;
        rest = behind;
    }
    if items.len() < least(kind) {
        return Err(refusal(rest, false));
    }
    match behind_close(rest) {
        Some(rest) => Ok((items, rest)),
        None => Err(refusal(rest, false)),
    }
}

/// Reads the variable in front and the tokens behind it, where it can't go on.
#[cycle(parse)]
pub(crate) fn sought<'a, 't>(
    alloc: Global,
    tokens: &'t [Lexeme<'a>],
    room: usize,
) -> Result<(Variable, &'t [Lexeme<'a>]), ParseError>
    ensures shorter { IfOk result (λ x. length x.1.now < length tokens.now) }
    ensures reads { ReadsSought (λ x. variable_of x.0) (λ x. x.1.now) result room tokens.now }
{
    match behind_name(tokens) {
        Some((word, rest)) => named(alloc, Scope::Local, word, rest, room),
        None => match behind_caret(tokens) {
            Some(rest) => global(alloc, rest, room, false),
            None => Err(refusal(tokens, false)),
        },
    }
}
