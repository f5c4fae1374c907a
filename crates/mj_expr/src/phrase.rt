// Expressions and variables at the front of the tokens.

ghost use Rattle.std.specs.Prelude.{◌≡◌, ◌<◌, ◌≤◌, ◌-◌, length, IfOk, IfErr};
ghost use Rattle.mj_ast.specs.Expressions.{expressions, variables, depth_limit};
ghost use Rattle.mj_ast.specs.Trees.{expr_of, variable_of};
ghost use Rattle.mj_expr.specs.Machine.{Whole, Target, Wanted, Sought, Front, Alone, AsTarget};
ghost use Rattle.mj_expr.specs.Reads.{RunGives};
ghost use Rattle.mj_expr.specs.Phrases.{IsRead, IsPhraseRefused};
ghost use Rattle.mj_lex.specs.Seen.{tokens_seen};

use crate::read::{expr, sought};
use crate::stop::ParseError;
use mj_ast::{DEPTH_LIMIT, Expr, Variable};
use mj_lex::Lexeme;
use std::alloc::Global;

/// Reads the expression in front, as far as it goes, and the tokens behind it. `depth` is how many levels are open around it.
pub fn expression<'a, 't>(
    alloc: Global,
    tokens: &'t [Lexeme<'a>],
    depth: usize,
) -> Result<(Expr, &'t [Lexeme<'a>]), ParseError>
    requires { depth ≤ depth_limit }
    ensures shorter { IfOk result (λ x. length x.1.now < length tokens.now) }
    ensures read { IfOk result (λ x. IsRead expressions (depth_limit - depth) (tokens_seen tokens.now) (expr_of x.0) (tokens_seen x.1.now)) }
    ensures refused { IfErr result (λ e. IsPhraseRefused expressions (depth_limit - depth) (tokens_seen tokens.now) e) }
    ensures runs { RunGives (λ x. Whole (expr_of x.0)) (λ x. x.1.now) result (depth_limit - depth) tokens.now (Wanted (Front Alone)) }
{
    let (e, rest) = expr(alloc, tokens, DEPTH_LIMIT - depth, false)?;
    Ok((e, &tokens[tokens.len() - rest.len()..]))
}

/// Reads the variable in front, and the tokens behind it. `depth` is how many levels are open around it.
pub fn variable<'a, 't>(
    alloc: Global,
    tokens: &'t [Lexeme<'a>],
    depth: usize,
) -> Result<(Variable, &'t [Lexeme<'a>]), ParseError>
    requires { depth ≤ depth_limit }
    ensures shorter { IfOk result (λ x. length x.1.now < length tokens.now) }
    ensures read { IfOk result (λ x. IsRead variables (depth_limit - depth) (tokens_seen tokens.now) (variable_of x.0) (tokens_seen x.1.now)) }
    ensures refused { IfErr result (λ e. IsPhraseRefused variables (depth_limit - depth) (tokens_seen tokens.now) e) }
    ensures runs { RunGives (λ x. Target (variable_of x.0)) (λ x. x.1.now) result (depth_limit - depth) tokens.now (Sought AsTarget) }
{
    let (v, rest) = sought(alloc, tokens, DEPTH_LIMIT - depth)?;
    Ok((v, &tokens[tokens.len() - rest.len()..]))
}
