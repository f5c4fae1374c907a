// Where a phrase ends whose depth doesn't matter: without its tree, and without recursion.

ghost use Rattle.std.specs.Prelude.{◌≡◌, ◌∷◌, ◌<◌, ◌≤◌, ◌&&◌, [], IfOk, IfSome, length, reverse};
ghost use Rattle.mj_ast.specs.Expressions.{symbol};
ghost use Rattle.mj_ast.specs.Tokens.{Token as SpelledToken};
ghost use Rattle.mj_expr.specs.Machine.{Whole, Target, Wanted, Sought, Front, AsTarget, Alone, unary_of, binary_of};
ghost use Rattle.mj_expr.specs.Reads.{symbols_seen, BeginsNone};
ghost use Rattle.mj_expr.specs.Shapes.{IsEndOf, PassesAs, sort_of as the_sort, stray_turn, comma_turn, close_turn, colon_turn, behind_turn};
ghost use Rattle.mj_expr.specs.Shapes.{bare_goes as the_bare, operand_turn, variable_turn, name_turn, arguments_turn, subscripts_turn, inside as the_inside};
ghost use Rattle.mj_expr.specs.Shapes.{actual_turn, actuals_turn, entry_turn, label_turn, routine_turn};
ghost use Rattle.mj_expr.specs.Shapes.{turn_at, may_end, is_last, ended as the_end, led as the_lead, IsLed, pass, AdvancesFrom, EndsFrom};
ghost use Rattle.mj_lex.specs.Seen.{token_seen, tokens_seen};

use crate::stop::ParseError;
use crate::token::{
    Head, ListKind, binary, head_of, is_limited, least, least_subscripts, most, most_others,
    refusal, unary,
};
use mj_ast::{Callee, NameFunction, Sign};
use mj_lex::{Lexeme, Token, next};
use std::alloc::{AllocError, Global};

/// What is open around a place.
#[derive(Clone, Copy)]
pub(crate) enum Around {
    /// nothing, and an expression is read
    Alone,
    /// nothing, and a variable is read
    Target,
    /// parentheses
    Group,
    /// a list, and how many expressions it has with the one that is read
    List(ListKind, usize),
    /// a function, at its variable
    About(NameFunction),
    /// `$SELECT`, in a condition
    Condition,
    /// `$SELECT`, in the value of a condition
    Choice,
    /// the actuals of a function that is written in M
    Actuals,
}

/// What may come at a place.
#[derive(Clone, Copy)]
pub(crate) enum Stage {
    /// a variable
    Variable,
    /// an operand
    Operand,
    /// a name, behind a `^`
    Name,
    /// the arguments of a function
    Arguments(Callee),
    /// subscripts, or what follows an operand
    Subscripts,
    /// what follows an operand
    Behind,
    /// an actual, which may be left out
    Actual,
    /// actuals, or what follows an operand
    Actuals,
    /// a routine, behind `$$` alone
    Entry,
    /// a routine, actuals, or what follows an operand
    Label,
    /// the name of a routine
    Routine,
}

/// What a token is to a phrase, without what it stands for.
#[derive(Clone, Copy)]
pub(crate) enum Sort {
    Constant,
    Name,
    Callee(Callee),
    /// `$$`, with a label or without
    Entry(bool),
    Sign(Sign),
    Other,
}

/// What a token does at a place.
#[derive(Clone, Copy)]
pub(crate) enum Turn {
    /// leads to another place, where this is open instead
    Goes(Stage, Around),
    /// opens this too, and leads to a place in it
    Opens(Stage, Around),
    /// ends what is open
    Closes,
    Stuck,
    Long,
}

/// Says what a token is with which no operand begins.
fn other_sort(token: Token<'_>) -> Sort
    requires { BeginsNone (symbol (token_seen token)) }
    ensures { result ≡ the_sort (symbol (token_seen token.entry)) }
{
    match token {
        Token::Sign(sign) => Sort::Sign(sign),
        Token::Word(_) => Sort::Other,
        Token::Called(_) => Sort::Other,
        Token::Special(_) => Sort::Other,
        Token::Invoked(_) => Sort::Other,
        Token::Numbered(_) => Sort::Other,
        Token::Dollars => Sort::Other,
        Token::Digits(_) => Sort::Other,
        Token::Quoted(_) => Sort::Other,
        Token::Blank => Sort::Other,
        Token::Comment(_) => Sort::Other,
        Token::Unclosed(_) => Sort::Other,
        Token::Stray(_) => Sort::Other,
    }
}

/// Says what the token is.
fn sort_of(alloc: Global, token: Token<'_>) -> Result<Sort, AllocError>
    ensures { IfOk result (λ s. s ≡ the_sort (symbol (token_seen token.entry))) }
{
    match head_of(alloc, &token)? {
        Head::Constant(_) => Ok(Sort::Constant),
        Head::Special(_) => Ok(Sort::Constant),
        Head::Name(_) => Ok(Sort::Name),
        Head::Callee(callee) => Ok(Sort::Callee(callee)),
        Head::Entry(label) => Ok(Sort::Entry(label.is_some())),
        Head::Caret => Ok(Sort::Sign(Sign::Caret)),
        Head::Open => Ok(Sort::Sign(Sign::Open)),
        Head::Unary(sign, _) => Ok(Sort::Sign(sign)),
        Head::Nothing => Ok(other_sort(token)),
    }
}

/// Says what a comma does where an operand is wanted: it can't stand there, and may be one too many.
fn stray(around: Around) -> Turn
    ensures { result ≡ stray_turn around }
{
    match around {
        Around::List(kind, count) => {
            if is_limited(kind) && count >= most(kind) {
                Turn::Long
            } else {
                Turn::Stuck
            }
        }
        Around::Alone
        | Around::Target
        | Around::Group
        | Around::About(_)
        | Around::Condition
        | Around::Choice
        | Around::Actuals => Turn::Stuck,
    }
}

/// Says what a comma does behind an expression, or behind the variable of a function.
fn comma(around: Around) -> Turn
    ensures { result ≡ comma_turn around }
{
    match around {
        Around::List(kind, count) => {
            if count < most(kind) {
                Turn::Goes(Stage::Operand, Around::List(kind, count + 1))
            } else if is_limited(kind) {
                Turn::Long
            } else {
                Turn::Stuck
            }
        }
        Around::About(function) => {
            if most_others(function) > 0 {
                Turn::Goes(Stage::Operand, Around::Group)
            } else {
                Turn::Stuck
            }
        }
        Around::Choice => Turn::Goes(Stage::Operand, Around::Condition),
        Around::Actuals => Turn::Goes(Stage::Actual, Around::Actuals),
        Around::Alone | Around::Target | Around::Group | Around::Condition => Turn::Stuck,
    }
}

/// Says what a closing parenthesis does there.
fn close(around: Around) -> Turn
    ensures { result ≡ close_turn around }
{
    match around {
        Around::List(kind, count) => {
            if least(kind) <= count {
                Turn::Closes
            } else {
                Turn::Stuck
            }
        }
        Around::Group | Around::About(_) | Around::Choice | Around::Actuals => Turn::Closes,
        Around::Alone | Around::Target | Around::Condition => Turn::Stuck,
    }
}

/// Says what a colon does behind an expression.
fn colon(around: Around) -> Turn
    ensures { result ≡ colon_turn around }
{
    match around {
        Around::Condition => Turn::Goes(Stage::Operand, Around::Choice),
        _ => Turn::Stuck,
    }
}

/// Says what a token does behind an operand. A variable that is wanted alone or by a function goes on with no operator.
fn behind(around: Around, sort: Sort) -> Turn
    ensures { result ≡ behind_turn around sort }
{
    match sort {
        Sort::Sign(sign) => match binary(sign) {
            Some(_) => match around {
                Around::Target | Around::About(_) => Turn::Stuck,
                _ => Turn::Goes(Stage::Operand, around),
            },
            None => match sign {
                Sign::Close => close(around),
                Sign::Comma => comma(around),
                Sign::Colon => colon(around),
                _ => Turn::Stuck,
            },
        },
        _ => Turn::Stuck,
    }
}

/// Says what a token does where an operand is wanted.
fn operand(around: Around, sort: Sort) -> Turn
    ensures { result ≡ operand_turn around sort }
{
    match sort {
        Sort::Constant => Turn::Goes(Stage::Behind, around),
        Sort::Name => Turn::Goes(Stage::Subscripts, around),
        Sort::Callee(callee) => Turn::Goes(Stage::Arguments(callee), around),
        Sort::Entry(true) => Turn::Goes(Stage::Label, around),
        Sort::Entry(false) => Turn::Goes(Stage::Entry, around),
        Sort::Sign(sign) => match unary(sign) {
            Some(_) => Turn::Goes(Stage::Operand, around),
            None => match sign {
                Sign::Caret => Turn::Goes(Stage::Name, around),
                Sign::Open => Turn::Opens(Stage::Operand, Around::Group),
                Sign::Comma => stray(around),
                _ => Turn::Stuck,
            },
        },
        Sort::Other => Turn::Stuck,
    }
}

/// Says what a token does where an actual may stand.
fn actual(around: Around, sort: Sort) -> Turn
    ensures { result ≡ actual_turn around sort }
{
    match sort {
        Sort::Sign(Sign::Comma) => Turn::Goes(Stage::Actual, around),
        Sort::Sign(Sign::Close) => Turn::Closes,
        _ => operand(around, sort),
    }
}

/// Says what a token does behind an entry.
fn actuals(around: Around, sort: Sort) -> Turn
    ensures { result ≡ actuals_turn around sort }
{
    match sort {
        Sort::Sign(Sign::Open) => Turn::Opens(Stage::Actual, Around::Actuals),
        _ => behind(around, sort),
    }
}

/// Says what a token does behind `$$` alone.
fn entry(around: Around, sort: Sort) -> Turn
    ensures { result ≡ entry_turn around sort }
{
    match sort {
        Sort::Sign(Sign::Caret) => Turn::Goes(Stage::Routine, around),
        Sort::Sign(Sign::Comma) => stray(around),
        _ => Turn::Stuck,
    }
}

/// Says what a token does behind `$$` and a label.
fn label(around: Around, sort: Sort) -> Turn
    ensures { result ≡ label_turn around sort }
{
    match sort {
        Sort::Sign(Sign::Caret) => Turn::Goes(Stage::Routine, around),
        _ => actuals(around, sort),
    }
}

/// Says what a token does where the name of a routine is wanted.
fn routine(around: Around, sort: Sort) -> Turn
    ensures { result ≡ routine_turn around sort }
{
    match sort {
        Sort::Name => Turn::Goes(Stage::Actuals, around),
        Sort::Sign(Sign::Comma) => stray(around),
        _ => Turn::Stuck,
    }
}

/// Says what a token does where a variable is wanted.
fn variable(around: Around, sort: Sort) -> Turn
    ensures { result ≡ variable_turn around sort }
{
    match sort {
        Sort::Name => Turn::Goes(Stage::Subscripts, around),
        Sort::Sign(Sign::Caret) => Turn::Goes(Stage::Name, around),
        _ => Turn::Stuck,
    }
}

/// Says what a token does behind a `^`.
fn name(around: Around, sort: Sort) -> Turn
    ensures { result ≡ name_turn around sort }
{
    match sort {
        Sort::Name => Turn::Goes(Stage::Subscripts, around),
        Sort::Sign(Sign::Comma) => stray(around),
        _ => Turn::Stuck,
    }
}

/// Says what opens behind a function.
fn inside(callee: Callee) -> Turn
    ensures { result ≡ the_inside callee }
{
    match callee {
        Callee::Texts(function) => Turn::Opens(
            Stage::Operand,
            Around::List(ListKind::Arguments(function), 1),
        ),
        Callee::Names(function) => Turn::Opens(Stage::Variable, Around::About(function)),
        Callee::Select => Turn::Opens(Stage::Operand, Around::Condition),
    }
}

/// Says what a token does behind a function.
fn arguments(callee: Callee, sort: Sort) -> Turn
    ensures { result ≡ arguments_turn callee sort }
{
    match sort {
        Sort::Sign(Sign::Open) => inside(callee),
        _ => Turn::Stuck,
    }
}

/// Whether a variable without subscripts goes on there.
fn bare_goes(around: Around) -> bool
    ensures { result ≡ the_bare around }
{
    match around {
        Around::About(function) => least_subscripts(function) == 0,
        Around::Alone
        | Around::Target
        | Around::Group
        | Around::List(_, _)
        | Around::Condition
        | Around::Choice
        | Around::Actuals => true,
    }
}

/// Says what a token does behind a name.
fn subscripts(around: Around, sort: Sort) -> Turn
    ensures { result ≡ subscripts_turn around sort }
{
    match sort {
        Sort::Sign(Sign::Open) => Turn::Opens(
            Stage::Operand,
            Around::List(ListKind::Subscripts, 1),
        ),
        _ => {
            if bare_goes(around) {
                behind(around, sort)
            } else {
                Turn::Stuck
            }
        }
    }
}

/// Says what the token does at the place.
fn turn_of(stage: Stage, around: Around, sort: Sort) -> Turn
    ensures { result ≡ turn_at stage around sort }
{
    match stage {
        Stage::Variable => variable(around, sort),
        Stage::Operand => operand(around, sort),
        Stage::Name => name(around, sort),
        Stage::Arguments(callee) => arguments(callee, sort),
        Stage::Subscripts => subscripts(around, sort),
        Stage::Behind => behind(around, sort),
        Stage::Actual => actual(around, sort),
        Stage::Actuals => actuals(around, sort),
        Stage::Entry => entry(around, sort),
        Stage::Label => label(around, sort),
        Stage::Routine => routine(around, sort),
    }
}

/// Whether a phrase may end at the place.
fn is_end(stage: Stage, around: Around) -> bool
    ensures { result ≡ (may_end stage && is_last around) }
{
    matches!(
        stage,
        Stage::Subscripts | Stage::Behind | Stage::Label | Stage::Actuals
    ) && matches!(around, Around::Alone | Around::Target)
}

/// What follows the phrase where no token goes on, or why none ends there.
fn ended<'a, 't>(
    stage: Stage,
    around: Around,
    tokens: &'t [Lexeme<'a>],
) -> Result<&'t [Lexeme<'a>], ParseError>
    ensures same { IfOk result (λ x. x.now ≡ tokens.now) }
    ensures passes { PassesAs (λ x. x.now) result (the_end stage around (symbols_seen tokens.now)) }
{
    if is_end(stage, around) {
        return Ok(tokens);
    }
    Err(refusal(tokens, false))
}

/// Says where the turn leads, if it leads somewhere. `others` is what is open around `around`.
fn led(
    others: &mut Vec<Around>,
    around: Around,
    turn: Turn,
) -> Result<Option<(Stage, Around)>, ParseError>
    ensures { IsLed result others.new.items (the_lead around (reverse others.old.items) turn) }
{
    match turn {
        Turn::Goes(next, inner) => Ok(Some((next, inner))),
        Turn::Opens(next, inner) => {
            others.push(around)?;
            Ok(Some((next, inner)))
        }
        Turn::Closes => match others.pop() {
            Some(outer) => Ok(Some((Stage::Behind, outer))),
            None => Ok(None),
        },
        Turn::Stuck => Ok(None),
        Turn::Long => Err(ParseError::Long),
    }
}

/// Takes the token in front, if a phrase goes on with it, and gives the place behind it and the tokens there.
fn advanced<'a, 't>(
    alloc: Global,
    others: &mut Vec<Around>,
    stage: Stage,
    around: Around,
    tokens: &'t [Lexeme<'a>],
) -> Result<Option<(Stage, Around, &'t [Lexeme<'a>])>, ParseError>
    ensures shorter { IfOk result (λ x. IfSome x (λ y. length y.2.now < length tokens.now)) }
    ensures next { IfOk result (λ x. IfSome x (λ y. (k : SpelledToken) × (tokens_seen tokens.now ≡ k ∷ tokens_seen y.2.now))) }
    ensures goes { AdvancesFrom (λ x. x.now) result (symbols_seen tokens.now) others.old.items others.new.items stage around }
{
    let Some((token, rest)) = next(tokens) else {
        return Ok(None);
    };
    let sort = sort_of(alloc, token)?;
    match led(others, around, turn_of(stage, around, sort))? {
        Some((next, inner)) => Ok(Some((next, inner, rest))),
        None => Ok(None),
    }
}

/// What follows the phrase that is read from this place on.
#[tactic(auto, using(crate::proofs::Runs::end_next, crate::proofs::Runs::end_more))]
fn beyond<'a, 't>(
    alloc: Global,
    tokens: &'t [Lexeme<'a>],
    stage: Stage,
    around: Around,
) -> Result<&'t [Lexeme<'a>], ParseError>
    ensures shorter { IfOk result (λ x. length x.now ≤ length tokens.now) }
    ensures back { IfOk result (λ x. IsEndOf (tokens_seen tokens.now) (tokens_seen x.now)) }
    ensures passes { PassesAs (λ x. x.now) result (pass (symbols_seen tokens.now) stage around []) }
{
    let mut others = Vec::new(alloc);
    match advanced(alloc, &mut others, stage, around, tokens)? {
        None => ended(stage, around, tokens),
        Some((next, inner, after)) => {
            let mut stage = next;
            let mut around = inner;
            let mut rest = after;
            'tokens: while let Some((next, inner, after)) = advanced(
                alloc,
                &mut others,
                stage,
                around,
                rest,
            )? {
                stage = next;
                around = inner;
                rest = after;
            }
            ended(stage, around, rest)
        }
    }
}

/// What follows the expression in front, however deep it nests.
pub fn behind_expression<'a, 't>(
    alloc: Global,
    tokens: &'t [Lexeme<'a>],
) -> Result<&'t [Lexeme<'a>], ParseError>
    ensures shorter { IfOk result (λ x. length x.now ≤ length tokens.now) }
    ensures back { IfOk result (λ x. IsEndOf (tokens_seen tokens.now) (tokens_seen x.now)) }
    ensures ends { EndsFrom Whole (λ x. x.now) result tokens.now (Wanted (Front Alone)) }
{
    beyond(alloc, tokens, Stage::Operand, Around::Alone)
}

/// What follows the variable in front, however deep it nests.
pub fn behind_variable<'a, 't>(
    alloc: Global,
    tokens: &'t [Lexeme<'a>],
) -> Result<&'t [Lexeme<'a>], ParseError>
    ensures shorter { IfOk result (λ x. length x.now ≤ length tokens.now) }
    ensures back { IfOk result (λ x. IsEndOf (tokens_seen tokens.now) (tokens_seen x.now)) }
    ensures ends { EndsFrom Target (λ x. x.now) result tokens.now (Sought AsTarget) }
{
    beyond(alloc, tokens, Stage::Variable, Around::Target)
}
