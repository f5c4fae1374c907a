// The arguments of SET.

ghost use Rattle.std.specs.Prelude.{◌≡◌, ◌<◌, ◌-◌, ◌∷◌, ◌++◌, ◌≤◌, IfOk, [], false, length, refl, true};
ghost use Rattle.mj_ast.specs.Commands.{PieceCall, Put, assignment_parts, destination_parts, more_parts, targets_parts};
ghost use Rattle.mj_ast.specs.Tokens.{Signed};
ghost use Rattle.mj_ast.specs.Trees.{assignment_of, destination_of, expr_of, exprs_of, targets_of};
ghost use Rattle.mj_ast.specs.declared.sign.Sign.TheVariants.{Close, Comma};
ghost use Rattle.mj_lex.specs.Seen.{tokens_seen};
ghost use Rattle.mj_line.specs.Forms.{PieceComma, PieceOpens, SetBehind, SetEnd, SetTarget};
ghost use Rattle.mj_cmd.specs.Parts.{NotListed, opened_parts};
ghost use Rattle.mj_cmd.specs.Readers.{PassesEach, PassesIn, PassesText, PassesWhere};

use crate::list::{Argument, Enclosed, Item, listed};
use crate::parts::{behind_close, behind_comma, behind_equals, behind_open, behind_piece, stuck};
use crate::phrase::Phrases;
use mj_ast::{Assignment, Destination, Expr, Targets};
use mj_expr::{ParseError, added};
use mj_lex::Lexeme;

/// The most expressions behind the variable of `$PIECE`.
const PIECE_LIMIT: usize = 3;

/// Reads another expression of `$PIECE`, behind a comma, where so many stand before it.
fn text<'a, 't>(
    phrases: Phrases,
    count: usize,
    tokens: &'t [Lexeme<'a>],
    behind: &'t [Lexeme<'a>],
) -> Result<(Expr, &'t [Lexeme<'a>]), ParseError>
    requires comma { tokens_seen tokens.now ≡ Signed Comma ∷ tokens_seen behind.now }
    requires count { count ≤ 3 }
    requires room { length behind.now ≤ length tokens.now }
    ensures shorter { IfOk result (λ x. length x.1.now ≤ length behind.now) }
    ensures few { IfOk result (λ _. count < 3) }
    ensures reads { PassesText phrases.limited (λ x. expr_of x.0) (λ x. x.1.now) result count tokens.now }
{
    if count >= PIECE_LIMIT {
        return Err(stuck(tokens));
    }
    let (text, rest) = phrases.expression(1, behind)?;
    Ok((text, rest))
}

/// Reads the expressions of `$PIECE`, each behind a comma, and the `)` that closes them.
fn texts<'a, 't>(
    phrases: Phrases,
    tokens: &'t [Lexeme<'a>],
) -> Result<(Vec<Expr>, &'t [Lexeme<'a>]), ParseError>
    ensures shorter { IfOk result (λ x. length x.1.now ≤ length tokens.now) }
    ensures reads { PassesEach phrases.limited (λ x. more_parts (exprs_of x.0.items) ++ Put Close ∷ []) (λ x. x.1.now) result tokens.now PieceComma SetBehind }
{
    let mut texts = Vec::new(phrases.alloc);
    match behind_comma(tokens) {
        None => Err(stuck(tokens)),
        Some(behind) => {
            let (first, mut rest) = phrases.expression(1, behind)?;
            added(&mut texts, first)?;
            'commas: while let Some(behind) = behind_comma(rest) {
                let (text, behind) = text(phrases, texts.len(), rest, behind)?;
                added(&mut texts, text)?;
                rest = behind;
            }
            match behind_close(rest) {
                None => Err(stuck(rest)),
                Some(behind) => Ok((texts, behind)),
            }
        }
    }
}

/// Reads what stands behind `$PIECE`, up to the `)` that closes it.
fn pieces<'a, 't>(
    phrases: Phrases,
    tokens: &'t [Lexeme<'a>],
) -> Result<(Destination, &'t [Lexeme<'a>]), ParseError>
    ensures shorter { IfOk result (λ x. length x.1.now ≤ length tokens.now) }
    ensures reads { PassesEach phrases.limited (λ x. opened_parts (destination_of x.0)) (λ x. x.1.now) result tokens.now PieceOpens SetBehind }
    ensures pieces { IfOk result (λ x. destination_parts (destination_of x.0) ≡ PieceCall ∷ opened_parts (destination_of x.0)) }
{
    match behind_open(tokens) {
        None => Err(stuck(tokens)),
        Some(behind) => {
            let (variable, rest) = phrases.variable(1, behind)?;
            let (texts, rest) = texts(phrases, rest)?;
            Ok((Destination::Pieces(variable, texts), rest))
        }
    }
}

/// Reads what a value is assigned to: a variable, or pieces of one.
fn destination<'a, 't>(
    phrases: Phrases,
    tokens: &'t [Lexeme<'a>],
) -> Result<(Destination, &'t [Lexeme<'a>]), ParseError>
    ensures shorter { IfOk result (λ x. length x.1.now ≤ length tokens.now) }
    ensures reads { PassesWhere phrases.limited NotListed (λ x. destination_parts (destination_of x.0)) (λ x. x.1.now) result tokens.now SetTarget SetBehind }
{
    match behind_piece(tokens) {
        Some(behind) => pieces(phrases, behind),
        None => {
            let (variable, rest) = phrases.variable(0, tokens)?;
            Ok((Destination::Whole(variable), rest))
        }
    }
}

impl Item for Destination {
    ghost first_at = { λ _. SetTarget true };

    ghost more_at = { λ _. SetTarget true };

    ghost behind_at = { λ _. SetBehind true };

    ghost begins = { λ _ _. Unit {0} };

    ghost spells = { λ ps x. ps ≡ destination_parts (destination_of x) };

    fn read<'a, 't>(
        phrases: Phrases,
        tokens: &'t [Lexeme<'a>],
    ) -> Result<(Destination, &'t [Lexeme<'a>]), ParseError> {
        destination(phrases, tokens)
    }

    ghost comma = { λ _. refl };
}

impl Enclosed for Destination {
    ghost use Rattle.mj_cmd.specs.Lists.{targets_unclosed};

    ghost closed_at = { λ _. SetBehind false };

    ghost close = { λ _. refl };

    ghost unclosed = { λ _. targets_unclosed };
}

/// Reads one destination, or a list in parentheses.
fn targets<'a, 't>(
    phrases: Phrases,
    tokens: &'t [Lexeme<'a>],
) -> Result<(Targets, &'t [Lexeme<'a>]), ParseError>
    ensures shorter { IfOk result (λ x. length x.1.now ≤ length tokens.now) }
    ensures reads { PassesIn phrases.limited (λ x. targets_parts (targets_of x.0)) (λ x. x.1.now) result tokens.now (SetTarget false) (SetBehind false) }
{
    match behind_open(tokens) {
        None => {
            let (destination, rest) = destination(phrases, tokens)?;
            Ok((Targets::One(destination), rest))
        }
        Some(behind) => {
            let (destinations, rest) = listed(phrases, behind)?;
            Ok((Targets::Several(destinations), rest))
        }
    }
}

/// Reads destinations, `=` and the value. Destinations that are refused behind are given to `drop`: a function at whose ends
/// they are dropped by themselves takes a long proof.
fn assignment<'a, 't>(
    phrases: Phrases,
    tokens: &'t [Lexeme<'a>],
) -> Result<(Assignment, &'t [Lexeme<'a>]), ParseError>
    ensures shorter { IfOk result (λ x. length x.1.now ≤ length tokens.now) }
    ensures reads { PassesIn phrases.limited (λ x. assignment_parts (assignment_of x.0)) (λ x. x.1.now) result tokens.now (SetTarget false) SetEnd }
{
    let (targets, rest) = targets(phrases, tokens)?;
    match behind_equals(rest) {
        None => {
            drop(targets); // for the proof
            Err(stuck(rest))
        }
        Some(behind) => match phrases.expression(0, behind) {
            Ok((value, rest)) => Ok((Assignment { targets, value }, rest)),
            Err(stop) => {
                drop(targets); // for the proof
                Err(stop)
            }
        },
    }
}

impl Item for Assignment {
    ghost first_at = { λ _. SetTarget false };

    ghost more_at = { λ _. SetTarget false };

    ghost behind_at = { λ _. SetEnd };

    ghost begins = { λ _ _. Unit {0} };

    ghost spells = { λ ps x. ps ≡ assignment_parts (assignment_of x) };

    fn read<'a, 't>(
        phrases: Phrases,
        tokens: &'t [Lexeme<'a>],
    ) -> Result<(Assignment, &'t [Lexeme<'a>]), ParseError> {
        assignment(phrases, tokens)
    }

    ghost comma = { λ _. refl };
}

impl Argument for Assignment {
    ghost use Rattle.mj_cmd.specs.Lists.{set_over};

    ghost over = { λ _. set_over };
}
