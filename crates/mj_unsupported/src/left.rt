// What stands where a line is stuck.

ghost use Rattle.std.specs.Prelude.{◌≡◌, ◌∷◌, ◌+◌, ◌<◌, [], ℕ, IfOk, MatchOption, length};
ghost use Rattle.mj_ast.specs.LeftOut.{IsFirstOf, IsNamed, IsNamedAt};
ghost use Rattle.mj_cmd.specs.Heads.{IsLabelShort};
ghost use Rattle.mj_cmd.specs.Said.{IsStuckWith};
ghost use Rattle.mj_lex.specs.Seen.{token_seen, tokens_seen};
ghost use Rattle.mj_unsupported.specs.Fronts.{IsFront, IsOnlyName};

use crate::rows::fits;
use mj_ast::Construct;
use mj_lex::{Lexeme, Token, next};
use std::alloc::{AllocError, Global};

/// The first row, and those behind it.
fn taken(rows: &[Construct]) -> Option<(Construct, &[Construct])>
    ensures { MatchOption result (rows.now ≡ []) (λ x. (rows.now ≡ x.0 ∷ x.1.now) × (length x.1.now < length rows.now)) }
{
    match rows {
        [] => None,
        [row, others @ ..] => Some((*row, others)),
    }
}

/// The first of the rows by which the token stands for something, if there is one.
fn first_of(
    alloc: Global,
    rows: &[Construct],
    front: &[Lexeme],
    token: Token,
    behind: &[Lexeme],
) -> Result<Option<Construct>, AllocError>
    requires { IsFront (tokens_seen front.now) }
    ensures { IfOk result (λ c. IsFirstOf rows.now (tokens_seen front.now) (token_seen token.entry) (tokens_seen behind.now) c) }
{
    let mut rest = rows;
    'rows: while let Some((row, others)) = taken(rest) {
        if fits(alloc, row, front, token, behind)? {
            return Ok(Some(row));
        }
        rest = others;
    }
    Ok(None)
}

/// What the token stands for, if it does: the rows in their order.
fn named(
    alloc: Global,
    front: &[Lexeme],
    token: Token,
    behind: &[Lexeme],
) -> Result<Option<Construct>, AllocError>
    requires { IsFront (tokens_seen front.now) }
    ensures { IfOk result (λ c. IsNamed (tokens_seen front.now) (token_seen token.entry) (tokens_seen behind.now) c) }
{
    let rows = [
        Construct::Indirection,
        Construct::Fraction,
        Construct::Exponent,
        Construct::Power,
        Construct::Pattern,
        Construct::Naked,
        Construct::Environment,
        Construct::Structured,
        Construct::ByReference,
        Construct::EntryOffset,
        Construct::ReadLength,
        Construct::DeviceParameters,
        Construct::ProcessParameters,
        Construct::MnemonicSpace,
        Construct::TransactionId,
        Construct::BareSerial,
        Construct::SetExtract,
        Construct::JustifyDecimals,
        Construct::QueryBackward,
        Construct::NameDepth,
        Construct::OrderNames,
        Construct::Function,
        Construct::Variable,
        Construct::Command,
    ];
    first_of(alloc, &rows, front, token, behind)
}

/// What stands at the token from which on so many are left, at which the line of the tokens is stuck: the construct that the
/// language leaves out by name, if it is one.
pub fn left_out(
    alloc: Global,
    tokens: &[Lexeme],
    left: usize,
) -> Result<Option<Construct>, AllocError>
    requires label { IsLabelShort (tokens_seen tokens.now) }
    requires stuck { IsStuckWith (tokens_seen tokens.now) left }
    ensures named { IfOk result (λ c. (place : ℕ) → place + left ≡ length tokens.now → IsNamedAt (tokens_seen tokens.now) place c) }
    ensures only { IfOk result (λ c. IsOnlyName tokens.now left c) }
{
    let (front, rest) = tokens.split_at(tokens.len() - left);
    match next(rest) {
        None => Ok(None),
        Some((token, behind)) => named(alloc, front, token, behind),
    }
}
