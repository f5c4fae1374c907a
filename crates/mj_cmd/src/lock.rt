// The arguments of LOCK.

ghost use Rattle.std.specs.Prelude.{◌≡◌, ◌⊎◌, ◌++◌, ◌≤◌, Bool, IfOk, false, length, option_map, refl, true};
ghost use Rattle.mj_ast.specs.Commands.{guard_parts, lock_names_parts, locked_parts, variable_parts};
ghost use Rattle.mj_ast.specs.Trees.{expr_of, lock_names_of, locked_of, variable_of};
ghost use Rattle.mj_lex.specs.Seen.{tokens_seen};
ghost use Rattle.mj_line.specs.Forms.{LockBehind, LockEnd, LockListed, LockNamed, LockWanted};
ghost use Rattle.mj_cmd.specs.Heads.{HasOther, HasArgument};
ghost use Rattle.mj_cmd.specs.Parts.{MayBeNamed, lock_node, mode_tokens};
ghost use Rattle.mj_cmd.specs.Readers.{PassesIn, PassesWhere, PassesWherePaired};

use crate::list::{Argument, Enclosed, Item, listed};
use crate::parts::{behind_colon, behind_minus, behind_open, behind_plus};
use crate::phrase::Phrases;
use mj_ast::{Expr, LockMode, LockNames, Locked, Variable};
use mj_expr::ParseError;
use mj_lex::Lexeme;

/// Reads what the argument does, by the sign in front, and what follows that.
fn lock_mode<'a, 't>(tokens: &'t [Lexeme<'a>]) -> (LockMode, &'t [Lexeme<'a>])
    ensures spelled { tokens_seen tokens.now ≡ mode_tokens result.0 ++ tokens_seen result.1.now }
    ensures named { (first : Bool) → (first ≡ false) ⊎ HasOther (tokens_seen tokens.now) → MayBeNamed result.0 first (tokens_seen result.1.now) }
    ensures shorter { length result.1.now ≤ length tokens.now }
{
    match behind_plus(tokens) {
        Some(behind) => (LockMode::Plus, behind),
        None => match behind_minus(tokens) {
            Some(behind) => (LockMode::Minus, behind),
            None => (LockMode::Whole, tokens),
        },
    }
}

/// Reads a variable of a list.
fn name<'a, 't>(
    phrases: Phrases,
    tokens: &'t [Lexeme<'a>],
) -> Result<(Variable, &'t [Lexeme<'a>]), ParseError>
    ensures shorter { IfOk result (λ x. length x.1.now ≤ length tokens.now) }
    ensures reads { PassesIn phrases.limited (λ x. variable_parts (variable_of x.0)) (λ x. x.1.now) result tokens.now LockListed LockBehind }
{
    let (variable, rest) = phrases.variable(0, tokens)?;
    Ok((variable, rest))
}

impl Item for Variable {
    ghost first_at = { λ _. LockListed };

    ghost more_at = { λ _. LockListed };

    ghost behind_at = { λ _. LockBehind };

    ghost begins = { λ _ _. Unit {0} };

    ghost spells = { λ ps x. ps ≡ variable_parts (variable_of x) };

    fn read<'a, 't>(
        phrases: Phrases,
        tokens: &'t [Lexeme<'a>],
    ) -> Result<(Variable, &'t [Lexeme<'a>]), ParseError> {
        name(phrases, tokens)
    }

    ghost comma = { λ _. refl };
}

impl Enclosed for Variable {
    ghost use Rattle.mj_cmd.specs.Lists.{locks_unclosed};

    ghost closed_at = { λ _. LockNamed };

    ghost close = { λ _. refl };

    ghost unclosed = { λ _. locks_unclosed };
}

/// Reads a variable, or a list of variables in parentheses.
fn names<'a, 't>(
    phrases: Phrases,
    tokens: &'t [Lexeme<'a>],
) -> Result<(LockNames, &'t [Lexeme<'a>]), ParseError>
    ensures shorter { IfOk result (λ x. length x.1.now ≤ length tokens.now) }
    ensures reads { PassesWherePaired phrases.limited MayBeNamed (λ x. lock_names_parts (lock_names_of x.0)) (λ x. x.1.now) result tokens.now
        lock_node (λ _. LockNamed) }
{
    match behind_open(tokens) {
        None => {
            let (variable, rest) = phrases.variable(0, tokens)?;
            Ok((LockNames::One(variable), rest))
        }
        Some(behind) => {
            let (variables, rest) = listed(phrases, behind)?;
            Ok((LockNames::Several(variables), rest))
        }
    }
}

/// Reads the timeout, if there is one.
fn timeout<'a, 't>(
    phrases: Phrases,
    tokens: &'t [Lexeme<'a>],
) -> Result<(Option<Expr>, &'t [Lexeme<'a>]), ParseError>
    ensures shorter { IfOk result (λ x. length x.1.now ≤ length tokens.now) }
    ensures reads { PassesIn phrases.limited (λ x. guard_parts (option_map expr_of x.0)) (λ x. x.1.now) result tokens.now LockNamed LockEnd }
{
    match behind_colon(tokens) {
        None => Ok((None, tokens)),
        Some(behind) => {
            let (timeout, rest) = phrases.expression(0, behind)?;
            Ok((Some(timeout), rest))
        }
    }
}

/// Reads what the argument does, its names and its timeout.
fn locked<'a, 't>(
    phrases: Phrases,
    tokens: &'t [Lexeme<'a>],
) -> Result<(Locked, &'t [Lexeme<'a>]), ParseError>
    ensures shorter { IfOk result (λ x. length x.1.now ≤ length tokens.now) }
    ensures reads { PassesWhere phrases.limited HasArgument (λ x. locked_parts (locked_of x.0)) (λ x. x.1.now) result tokens.now LockWanted (λ _. LockEnd) }
{
    let (mode, rest) = lock_mode(tokens);
    let (names, rest) = names(phrases, rest)?;
    let (timeout, rest) = timeout(phrases, rest)?;
    Ok((
        Locked {
            mode,
            names,
            timeout,
        },
        rest,
    ))
}

impl Item for Locked {
    ghost first_at = { λ _. LockWanted true };

    ghost more_at = { λ _. LockWanted false };

    ghost behind_at = { λ _. LockEnd };

    ghost begins = { λ _. HasOther };

    ghost spells = { λ ps x. ps ≡ locked_parts (locked_of x) };

    fn read<'a, 't>(
        phrases: Phrases,
        tokens: &'t [Lexeme<'a>],
    ) -> Result<(Locked, &'t [Lexeme<'a>]), ParseError> {
        locked(phrases, tokens)
    }

    ghost comma = { λ _. refl };
}

impl Argument for Locked {
    ghost use Rattle.mj_cmd.specs.Lists.{lock_over};

    ghost over = { λ _. lock_over };
}
