// The argument of TSTART: where it may begin, and where the word of SERIAL is wanted in it.

ghost use Rattle.std.specs.Prelude.{◌≡◌, ◌∷◌, ◌++◌, [], IfOk, MatchOption, false};
ghost use Rattle.mj_ast.specs.LeftOut.{IsBehindCommand, IsBehindSerial, MayBeginRestartable, ends_in, is_open as the_open};
ghost use Rattle.mj_ast.specs.Tokens.{Signed};
ghost use Rattle.mj_ast.specs.declared.keyword.Keyword.TheVariants.{TStart};
ghost use Rattle.mj_ast.specs.declared.sign.Sign.TheVariants.{Open};
ghost use Rattle.mj_lex.specs.Seen.{tokens_seen};
ghost use Rattle.mj_unsupported.specs.Fronts.{IsBehindStart, IsFront, Says};

use crate::devices::ends_in_command;
use crate::stand::may_be_star;
use crate::tokens::last;
use mj_ast::{Keyword, Sign};
use mj_lex::{Lexeme, Token};
use std::alloc::{AllocError, Global};

/// The tokens before a `(` at their end.
fn before_open<'a, 't>(tokens: &'t [Lexeme<'a>]) -> Option<&'t [Lexeme<'a>]>
    ensures { MatchOption result (ends_in the_open (tokens_seen tokens.now) ≡ false) (λ x. tokens_seen tokens.now ≡ tokens_seen x.now ++ Signed Open ∷ []) }
{
    match last(tokens) {
        Some((Token::Sign(Sign::Open), before)) => Some(before),
        _ => None,
    }
}

/// Whether a `:` stands last, behind an argument of TSTART.
fn is_behind_start(alloc: Global, front: &[Lexeme]) -> Result<bool, AllocError>
    requires { IsFront (tokens_seen front.now) }
    ensures { IfOk result (λ b. Says b (IsBehindStart (tokens_seen front.now))) }
{
    match last(front) {
        Some((Token::Sign(Sign::Colon), before)) => ends_in_command(alloc, Keyword::TStart, before),
        _ => Ok(false),
    }
}

/// Whether a `:` stands last behind an argument of TSTART, or a `(` behind that.
pub fn is_behind_serial(alloc: Global, front: &[Lexeme]) -> Result<bool, AllocError>
    requires { IsFront (tokens_seen front.now) }
    ensures { IfOk result (λ b. Says b (IsBehindSerial (tokens_seen front.now))) }
{
    match before_open(front) {
        None => is_behind_start(alloc, front),
        Some(before) => is_behind_start(alloc, before),
    }
}

/// Whether TSTART is the last command, and one blank stands behind it.
fn is_behind_word(alloc: Global, front: &[Lexeme]) -> Result<bool, AllocError>
    requires { IsFront (tokens_seen front.now) }
    ensures { IfOk result (λ b. Says b (IsBehindCommand TStart (tokens_seen front.now))) }
{
    match last(front) {
        Some((Token::Blank, before)) => ends_in_command(alloc, Keyword::TStart, before),
        _ => Ok(false),
    }
}

/// Whether such an argument may begin.
pub fn may_begin_restartable(alloc: Global, front: &[Lexeme]) -> Result<bool, AllocError>
    requires { IsFront (tokens_seen front.now) }
    ensures { IfOk result (λ b. Says b (MayBeginRestartable (tokens_seen front.now))) }
{
    if !is_behind_word(alloc, front)? {
        return Ok(false);
    }
    may_be_star(alloc, front)
}
