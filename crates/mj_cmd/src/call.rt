// The arguments of DO and JOB.

ghost use Rattle.std.specs.Prelude.{◌≡◌, ◌∷◌, ◌++◌, ◌≤◌, IfOk, Some, false, length, map, option_map, refl, true};
ghost use Rattle.mj_ast.specs.Commands.{Put, actual_parts, plain_actuals as the_plain, wait_parts};
ghost use Rattle.mj_ast.specs.Trees.{called_of, expr_of, option_of, started_of};
ghost use Rattle.mj_ast.specs.declared.sign.Sign.TheVariants.{Close};
ghost use Rattle.mj_line.specs.Forms.{ActualEnd, ActualWanted, Calls, EntryWanted, GuardEnd, Mode, Starts};
ghost use Rattle.mj_cmd.specs.Heads.{HasOther, HasArgument};
ghost use Rattle.mj_cmd.specs.Parts.{MayBeGuarded, actuals_closed};
ghost use Rattle.mj_cmd.specs.Reads.{IsWrittenCall, IsWrittenStart};
ghost use Rattle.mj_cmd.specs.Readers.{PassesActuals, PassesAsEach, PassesAsWhere, PassesEach, PassesWhere};

use crate::control::{entry, guard};
use crate::list::{Argument, Enclosed, Item, listed};
use crate::parts::{behind_close, behind_colon, behind_comma, behind_open, stuck};
use crate::phrase::Phrases;
use mj_ast::{Actual, Called, Expr, Started};
use mj_expr::ParseError;
use mj_lex::Lexeme;
use std::alloc::Global;

/// Reads an actual, or none where it is left out.
fn actual<'a, 't>(
    phrases: Phrases,
    tokens: &'t [Lexeme<'a>],
) -> Result<(Actual, &'t [Lexeme<'a>]), ParseError>
    ensures shorter { IfOk result (λ x. length x.1.now ≤ length tokens.now) }
    ensures reads { PassesEach phrases.limited (λ x. actual_parts (option_of x.0)) (λ x. x.1.now) result tokens.now ActualWanted ActualEnd }
{
    match behind_comma(tokens) {
        Some(_) => Ok((Actual::Omitted, tokens)),
        None => match behind_close(tokens) {
            Some(_) => Ok((Actual::Omitted, tokens)),
            None => {
                let (actual, rest) = phrases.expression(1, tokens)?;
                Ok((Actual::Given(actual), rest))
            }
        },
    }
}

impl Item for Actual {
    ghost lists = { Mode };

    ghost first_at = { ActualWanted };

    ghost more_at = { ActualWanted };

    ghost behind_at = { ActualEnd };

    ghost begins = { λ _ _. Unit {0} };

    ghost spells = { λ ps x. ps ≡ actual_parts (option_of x) };

    fn read<'a, 't>(
        phrases: Phrases,
        tokens: &'t [Lexeme<'a>],
    ) -> Result<(Actual, &'t [Lexeme<'a>]), ParseError> {
        actual(phrases, tokens)
    }

    ghost comma = { λ _. refl };
}

impl Enclosed for Actual {
    ghost use Rattle.mj_cmd.specs.Lists.{actuals_unclosed};

    ghost closed_at = { actuals_closed };

    ghost close = { λ _. refl };

    ghost unclosed = { actuals_unclosed };
}

/// Gives the actuals that are meant: parentheses with nothing in them, which are written as one that is left out, have none.
fn plain_actuals(alloc: Global, actuals: Vec<Actual>) -> Vec<Actual>
    ensures { map option_of result.items ≡ the_plain (map option_of actuals.items) }
{
    let none = match actuals.as_slice() {
        [Actual::Omitted] => true,
        _ => false,
    };
    if none {
        return Vec::new(alloc);
    }
    actuals
}

/// Reads the actuals behind an entry, if there are some.
fn passed<'a, 't>(
    phrases: Phrases,
    tokens: &'t [Lexeme<'a>],
) -> Result<(Vec<Actual>, &'t [Lexeme<'a>]), ParseError>
    ensures shorter { IfOk result (λ x. length x.1.now ≤ length tokens.now) }
    ensures reads { PassesActuals phrases.limited (λ x. map option_of x.0.items) (λ x. x.1.now) result tokens.now }
{
    match behind_open(tokens) {
        None => Ok((Vec::new(phrases.alloc), tokens)),
        Some(behind) => {
            let (actuals, rest) = listed(phrases, behind)?;
            Ok((plain_actuals(phrases.alloc, actuals), rest))
        }
    }
}

/// Reads an entry, its actuals and its condition.
fn called<'a, 't>(
    phrases: Phrases,
    tokens: &'t [Lexeme<'a>],
) -> Result<(Called, &'t [Lexeme<'a>]), ParseError>
    ensures shorter { IfOk result (λ x. length x.1.now ≤ length tokens.now) }
    ensures reads { PassesAsWhere phrases.limited HasArgument (λ ps x. IsWrittenCall ps (called_of x.0)) (λ x. x.1.now) result tokens.now
        (EntryWanted Calls) (λ _. GuardEnd Calls) }
{
    let (target, rest) = entry(phrases, tokens)?;
    match passed(phrases, rest) {
        Ok((actuals, rest)) => match guard(phrases, rest) {
            Ok((condition, rest)) => Ok((
                Called {
                    target,
                    actuals,
                    condition,
                },
                rest,
            )),
            Err(stop) => {
                drop(target); // for the proof
                drop(actuals); // for the proof
                Err(stop)
            }
        },
        Err(stop) => {
            drop(target); // for the proof
            Err(stop)
        }
    }
}

impl Item for Called {
    ghost first_at = { λ _. EntryWanted Calls true };

    ghost more_at = { λ _. EntryWanted Calls false };

    ghost behind_at = { λ _. GuardEnd Calls };

    ghost begins = { λ _. HasOther };

    ghost spells = { λ ps x. IsWrittenCall ps (called_of x) };

    fn read<'a, 't>(
        phrases: Phrases,
        tokens: &'t [Lexeme<'a>],
    ) -> Result<(Called, &'t [Lexeme<'a>]), ParseError> {
        called(phrases, tokens)
    }

    ghost comma = { λ _. refl };
}

impl Argument for Called {
    ghost use Rattle.mj_cmd.specs.Lists.{guard_over};

    ghost over = { λ _. guard_over Calls };
}

/// Reads the timeout of a job that starts, behind two colons, if there is one.
fn wait<'a, 't>(
    phrases: Phrases,
    tokens: &'t [Lexeme<'a>],
) -> Result<(Option<Expr>, &'t [Lexeme<'a>]), ParseError>
    ensures shorter { IfOk result (λ x. length x.1.now ≤ length tokens.now) }
    ensures reads { PassesWhere phrases.limited (MayBeGuarded Starts) (λ x. wait_parts (option_map expr_of x.0)) (λ x. x.1.now) result tokens.now
        (λ n. n) (λ _. GuardEnd Starts) }
{
    match behind_colon(tokens) {
        None => Ok((None, tokens)),
        Some(behind) => match behind_colon(behind) {
            None => Err(stuck(behind)),
            Some(behind) => {
                let (timeout, rest) = phrases.expression(0, behind)?;
                Ok((Some(timeout), rest))
            }
        },
    }
}

/// Reads an entry, its actuals and its timeout.
fn started<'a, 't>(
    phrases: Phrases,
    tokens: &'t [Lexeme<'a>],
) -> Result<(Started, &'t [Lexeme<'a>]), ParseError>
    ensures shorter { IfOk result (λ x. length x.1.now ≤ length tokens.now) }
    ensures reads { PassesAsEach phrases.limited (λ ps x. IsWrittenStart ps (started_of x.0)) (λ x. x.1.now) result tokens.now
        (EntryWanted Starts) (λ _. GuardEnd Starts) }
{
    let (target, rest) = entry(phrases, tokens)?;
    match passed(phrases, rest) {
        Ok((actuals, rest)) => match wait(phrases, rest) {
            Ok((timeout, rest)) => Ok((
                Started {
                    target,
                    actuals,
                    timeout,
                },
                rest,
            )),
            Err(stop) => {
                drop(target); // for the proof
                drop(actuals); // for the proof
                Err(stop)
            }
        },
        Err(stop) => {
            drop(target); // for the proof
            Err(stop)
        }
    }
}

impl Item for Started {
    ghost first_at = { λ _. EntryWanted Starts true };

    ghost more_at = { λ _. EntryWanted Starts false };

    ghost behind_at = { λ _. GuardEnd Starts };

    ghost begins = { λ _ _. Unit {0} };

    ghost spells = { λ ps x. IsWrittenStart ps (started_of x) };

    fn read<'a, 't>(
        phrases: Phrases,
        tokens: &'t [Lexeme<'a>],
    ) -> Result<(Started, &'t [Lexeme<'a>]), ParseError> {
        started(phrases, tokens)
    }

    ghost comma = { λ _. refl };
}

impl Argument for Started {
    ghost use Rattle.mj_cmd.specs.Lists.{guard_over};

    ghost over = { λ _. guard_over Starts };
}
