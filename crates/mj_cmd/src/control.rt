// The arguments of IF, HANG, NEW and GOTO, and of QUIT.

ghost use Rattle.std.specs.Prelude.{◌≡◌, ◌⊎◌, ◌∷◌, ◌++◌, ◌≤◌, Bool, IfOk, Some, [], false, length, option_map, refl, true};
ghost use Rattle.mj_ast.specs.Commands.{Named, value_parts, result_parts, guard_parts, jumped_parts, renewed_parts, target_parts};
ghost use Rattle.mj_ast.specs.Trees.{expr_of, jumped_of, renewed_of, target_of};
ghost use Rattle.mj_line.specs.Forms.{EntryWanted, GuardEnd, ResultEnd, ResultWanted, ValueEnd, ValueWanted, Jumps, NewEnd, NewWanted};
ghost use Rattle.mj_line.specs.Forms.{RoutineEnd, RoutineWanted};
ghost use Rattle.mj_lex.specs.Seen.{tokens_seen};
ghost use Rattle.mj_cmd.specs.Heads.{HasOther, HasArgument, HasParted};
ghost use Rattle.mj_cmd.specs.Readers.{PassesEach, PassesEntry, PassesEverEach, PassesGuard, PassesIn, PassesWhere};

use crate::kill::{names, word_text};
use crate::list::{Argument, Item};
use crate::parts::{
    behind_caret, behind_colon, behind_entry_label, behind_name, behind_open, parted, stuck,
};
use crate::phrase::Phrases;
use mj_ast::{Expr, Jumped, Renewed, Target};
use mj_expr::ParseError;
use mj_lex::Lexeme;
use mj_text::Text;

/// Reads a condition of IF, or an argument of HANG.
fn value<'a, 't>(
    phrases: Phrases,
    tokens: &'t [Lexeme<'a>],
) -> Result<(Expr, &'t [Lexeme<'a>]), ParseError>
    ensures shorter { IfOk result (λ x. length x.1.now ≤ length tokens.now) }
    ensures reads { PassesWhere phrases.limited HasArgument (λ x. value_parts (expr_of x.0)) (λ x. x.1.now) result tokens.now ValueWanted (λ _. ValueEnd) }
{
    let (value, rest) = phrases.expression(0, tokens)?;
    Ok((value, rest))
}

/// Reads the value that a QUIT gives, up to where the command ends.
pub fn given<'a, 't>(
    phrases: Phrases,
    tokens: &'t [Lexeme<'a>],
) -> Result<(Expr, &'t [Lexeme<'a>]), ParseError>
    requires { HasOther (tokens_seen tokens.now) }
    ensures shorter { IfOk result (λ x. length x.1.now ≤ length tokens.now) }
    ensures parted { IfOk result (λ x. HasParted (tokens_seen x.1.now)) }
    ensures reads { PassesIn phrases.limited (λ x. result_parts (Some (expr_of x.0))) (λ x. x.1.now) result tokens.now ResultWanted ResultEnd }
{
    let (value, rest) = phrases.expression(0, tokens)?;
    match parted(rest) {
        Ok(rest) => Ok((value, rest)),
        Err(stop) => {
            drop(value); // for the proof
            Err(stop)
        }
    }
}

impl Item for Expr {
    ghost lists = { Bool };

    ghost first_at = { ValueWanted };

    ghost more_at = { λ _. ValueWanted false };

    ghost behind_at = { λ _. ValueEnd };

    ghost begins = { λ first ks. (first ≡ false) ⊎ HasOther ks };

    ghost spells = { λ ps x. ps ≡ value_parts (expr_of x) };

    fn read<'a, 't>(
        phrases: Phrases,
        tokens: &'t [Lexeme<'a>],
    ) -> Result<(Expr, &'t [Lexeme<'a>]), ParseError> {
        value(phrases, tokens)
    }

    ghost comma = { λ _. refl };
}

impl Argument for Expr {
    ghost use Rattle.mj_cmd.specs.Lists.{value_over};

    ghost over = { λ _. value_over };
}

/// Reads a name, or names in parentheses.
fn renewed<'a, 't>(
    phrases: Phrases,
    tokens: &'t [Lexeme<'a>],
) -> Result<(Renewed, &'t [Lexeme<'a>]), ParseError>
    ensures shorter { IfOk result (λ x. length x.1.now ≤ length tokens.now) }
    ensures reads { PassesWhere phrases.limited HasArgument (λ x. renewed_parts (renewed_of x.0)) (λ x. x.1.now) result tokens.now NewWanted (λ _. NewEnd) }
{
    match behind_open(tokens) {
        None => match behind_name(tokens) {
            None => Err(stuck(tokens)),
            Some((word, rest)) => {
                let name = word_text(phrases.alloc, word)?;
                Ok((Renewed::Name(name), rest))
            }
        },
        Some(behind) => {
            let (names, rest) = names(phrases, behind)?;
            Ok((Renewed::Except(names), rest))
        }
    }
}

impl Item for Renewed {
    ghost first_at = { λ _. NewWanted true };

    ghost more_at = { λ _. NewWanted false };

    ghost behind_at = { λ _. NewEnd };

    ghost begins = { λ _. HasOther };

    ghost spells = { λ ps x. ps ≡ renewed_parts (renewed_of x) };

    fn read<'a, 't>(
        phrases: Phrases,
        tokens: &'t [Lexeme<'a>],
    ) -> Result<(Renewed, &'t [Lexeme<'a>]), ParseError> {
        renewed(phrases, tokens)
    }

    ghost comma = { λ _. refl };
}

impl Argument for Renewed {
    ghost use Rattle.mj_cmd.specs.Lists.{new_over};

    ghost over = { λ _. new_over };
}

/// Reads the name of a routine, behind a `^`.
fn routine<'a, 't>(
    phrases: Phrases,
    tokens: &'t [Lexeme<'a>],
) -> Result<(Text, &'t [Lexeme<'a>]), ParseError>
    ensures shorter { IfOk result (λ x. length x.1.now ≤ length tokens.now) }
    ensures reads { PassesEverEach phrases.limited (λ x. Named x.0 ∷ []) (λ x. x.1.now) result tokens.now RoutineWanted RoutineEnd }
{
    match behind_name(tokens) {
        None => Err(stuck(tokens)),
        Some((word, rest)) => {
            let name = word_text(phrases.alloc, word)?;
            Ok((name, rest))
        }
    }
}

/// Reads a label, a routine behind a `^`, or both.
pub fn entry<'a, 't>(
    phrases: Phrases,
    tokens: &'t [Lexeme<'a>],
) -> Result<(Target, &'t [Lexeme<'a>]), ParseError>
    ensures shorter { IfOk result (λ x. length x.1.now ≤ length tokens.now) }
    ensures reads { PassesEntry phrases.limited (λ x. target_parts (target_of x.0)) (λ x. x.1.now) result tokens.now }
{
    match behind_entry_label(tokens) {
        None => match behind_caret(tokens) {
            None => Err(stuck(tokens)),
            Some(behind) => {
                let (name, rest) = routine(phrases, behind)?;
                let target = Target {
                    label: None,
                    routine: Some(name),
                };
                Ok((target, rest))
            }
        },
        Some((label, behind)) => {
            let label = word_text(phrases.alloc, label)?;
            match behind_caret(behind) {
                None => {
                    let target = Target {
                        label: Some(label),
                        routine: None,
                    };
                    Ok((target, behind))
                }
                Some(behind) => {
                    let (name, rest) = routine(phrases, behind)?;
                    let target = Target {
                        label: Some(label),
                        routine: Some(name),
                    };
                    Ok((target, rest))
                }
            }
        }
    }
}

/// Reads the condition of an argument of DO or GOTO, if there is one.
pub fn guard<'a, 't>(
    phrases: Phrases,
    tokens: &'t [Lexeme<'a>],
) -> Result<(Option<Expr>, &'t [Lexeme<'a>]), ParseError>
    ensures shorter { IfOk result (λ x. length x.1.now ≤ length tokens.now) }
    ensures reads { PassesGuard phrases.limited (λ x. guard_parts (option_map expr_of x.0)) (λ x. x.1.now) result tokens.now }
{
    match behind_colon(tokens) {
        None => Ok((None, tokens)),
        Some(behind) => {
            let (condition, rest) = phrases.expression(0, behind)?;
            Ok((Some(condition), rest))
        }
    }
}

/// Reads an entry, and its condition.
fn jump<'a, 't>(
    phrases: Phrases,
    tokens: &'t [Lexeme<'a>],
) -> Result<(Jumped, &'t [Lexeme<'a>]), ParseError>
    ensures shorter { IfOk result (λ x. length x.1.now ≤ length tokens.now) }
    ensures reads { PassesEach phrases.limited (λ x. jumped_parts (jumped_of x.0)) (λ x. x.1.now) result tokens.now (EntryWanted Jumps) (λ _. GuardEnd Jumps) }
{
    let (target, rest) = entry(phrases, tokens)?;
    let (condition, rest) = guard(phrases, rest)?;
    Ok((Jumped { target, condition }, rest))
}

impl Item for Jumped {
    ghost first_at = { λ _. EntryWanted Jumps true };

    ghost more_at = { λ _. EntryWanted Jumps false };

    ghost behind_at = { λ _. GuardEnd Jumps };

    ghost begins = { λ _ _. Unit {0} };

    ghost spells = { λ ps x. ps ≡ jumped_parts (jumped_of x) };

    fn read<'a, 't>(
        phrases: Phrases,
        tokens: &'t [Lexeme<'a>],
    ) -> Result<(Jumped, &'t [Lexeme<'a>]), ParseError> {
        jump(phrases, tokens)
    }

    ghost comma = { λ _. refl };
}

impl Argument for Jumped {
    ghost use Rattle.mj_cmd.specs.Lists.{guard_over};

    ghost over = { λ _. guard_over Jumps };
}
