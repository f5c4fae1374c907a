// Where something may begin.

ghost use Rattle.std.specs.Prelude.{◌≡◌, ◌⊎◌, IfOk, codes, true};
ghost use Rattle.mj_ast.specs.declared.sign.Sign.TheVariants.{Caret, Close, Colon, Exclamation, Star, Underscore};
ghost use Rattle.mj_ast.specs.Tokens.{Called, Signed, Special, Word};
ghost use Rattle.mj_ast.specs.LeftOut.{IsBehindLabel, MayBeOperator, MayBeginActual, MayBeginCommand, MayBeginDestination, MayBeginName, MayBeginOperand};
ghost use Rattle.mj_ast.specs.LeftOut.{MayBeginOutput, MayStand, is_in_formals as in_formals, wants_name as the_wanted};
ghost use Rattle.mj_lex.specs.Seen.{token_seen, tokens_seen};
ghost use Rattle.mj_unsupported.specs.Fronts.{IsFront, IsProbe, Says};

use crate::tokens::{
    ends_in_blank_or_dot, ends_in_dollars, ends_in_label, ends_in_open_or_comma, has_no_blank,
};
use mj_ast::Sign;
use mj_cmd::line;
use mj_expr::ParseError;
use mj_lex::{Lexeme, Token};
use std::alloc::{AllocError, Global};

/// Whether a line goes on with the token behind those in front.
fn may_stand<'a>(alloc: Global, front: &[Lexeme<'a>], token: Token<'a>) -> Result<bool, AllocError>
    requires front { IsFront (tokens_seen front.now) }
    requires probe { IsProbe (token_seen token) }
    ensures { IfOk result (λ b. Says b (MayStand (tokens_seen front.now) (token_seen token.entry))) }
{
    let mut tokens = Vec::from_slice(alloc, front)?;
    tokens.push(Lexeme { token, at: 0 })?;
    match line(alloc, &tokens) {
        Ok(_) => Ok(true),
        Err(stop) => match stop {
            ParseError::Stuck(left) => Ok(left == 0),
            // It opens a level too many, so a line goes on with it, if only a deeper one.
            ParseError::Deep(_) => Ok(true),
            ParseError::Long => Ok(false),
            ParseError::Memory => Err(AllocError),
        },
    }
}

/// Whether a name may stand as a formal of the line.
fn is_in_formals(front: &[Lexeme]) -> bool
    ensures { result ≡ in_formals (tokens_seen front.now) }
{
    has_no_blank(front) && ends_in_open_or_comma(front)
}

/// Whether a name is wanted as a formal, or behind `$$`.
fn wants_name(front: &[Lexeme]) -> bool
    ensures { result ≡ the_wanted (tokens_seen front.now) }
{
    is_in_formals(front) || ends_in_dollars(front)
}

/// Whether a name may begin.
pub fn may_begin_name(alloc: Global, front: &[Lexeme]) -> Result<bool, AllocError>
    requires { IsFront (tokens_seen front.now) }
    ensures { IfOk result (λ b. Says b (MayBeginName (tokens_seen front.now))) }
{
    if wants_name(front) {
        return Ok(true);
    }
    may_stand(alloc, front, Token::Word(b"A"))
}

/// Whether an operand may begin.
pub fn may_begin_operand(alloc: Global, front: &[Lexeme]) -> Result<bool, AllocError>
    requires { IsFront (tokens_seen front.now) }
    ensures { IfOk result (λ b. Says b (MayBeginOperand (tokens_seen front.now))) }
{
    may_stand(alloc, front, Token::Special(b"T"))
}

/// Whether a binary operator may stand.
pub fn may_be_operator(alloc: Global, front: &[Lexeme]) -> Result<bool, AllocError>
    requires { IsFront (tokens_seen front.now) }
    ensures { IfOk result (λ b. Says b (MayBeOperator (tokens_seen front.now))) }
{
    may_stand(alloc, front, Token::Sign(Sign::Underscore))
}

/// Whether an actual may begin.
pub fn may_begin_actual(alloc: Global, front: &[Lexeme]) -> Result<bool, AllocError>
    requires { IsFront (tokens_seen front.now) }
    ensures { IfOk result (λ b. Says b (MayBeginActual (tokens_seen front.now))) }
{
    if !may_begin_operand(alloc, front)? {
        return Ok(false);
    }
    may_stand(alloc, front, Token::Sign(Sign::Close))
}

/// Whether an argument of WRITE or READ may begin.
pub fn may_begin_output(alloc: Global, front: &[Lexeme]) -> Result<bool, AllocError>
    requires { IsFront (tokens_seen front.now) }
    ensures { IfOk result (λ b. Says b (MayBeginOutput (tokens_seen front.now))) }
{
    if !may_stand(alloc, front, Token::Quoted(b""))? {
        return Ok(false);
    }
    may_stand(alloc, front, Token::Sign(Sign::Exclamation))
}

/// Whether the label of an entry was read.
pub fn is_behind_label(alloc: Global, front: &[Lexeme]) -> Result<bool, AllocError>
    requires { IsFront (tokens_seen front.now) }
    ensures { IfOk result (λ b. Says b (IsBehindLabel (tokens_seen front.now))) }
{
    if !ends_in_label(front) {
        return Ok(false);
    }
    may_stand(alloc, front, Token::Sign(Sign::Caret))
}

/// Whether a `:` may stand.
pub fn may_be_colon(alloc: Global, front: &[Lexeme]) -> Result<bool, AllocError>
    requires { IsFront (tokens_seen front.now) }
    ensures { IfOk result (λ b. Says b (MayStand (tokens_seen front.now) (Signed Colon))) }
{
    may_stand(alloc, front, Token::Sign(Sign::Colon))
}

/// Whether a `*` may stand.
pub fn may_be_star(alloc: Global, front: &[Lexeme]) -> Result<bool, AllocError>
    requires { IsFront (tokens_seen front.now) }
    ensures { IfOk result (λ b. Says b (MayStand (tokens_seen front.now) (Signed Star))) }
{
    may_stand(alloc, front, Token::Sign(Sign::Star))
}

/// Whether a destination may begin, or an operand.
pub fn may_begin_destination(alloc: Global, front: &[Lexeme]) -> Result<bool, AllocError>
    requires { IsFront (tokens_seen front.now) }
    ensures { IfOk result (λ b. Says b (MayBeginDestination (tokens_seen front.now))) }
{
    may_stand(alloc, front, Token::Called(b"P"))
}

/// Whether a command may begin.
pub fn may_begin_command(alloc: Global, front: &[Lexeme]) -> Result<bool, AllocError>
    requires { IsFront (tokens_seen front.now) }
    ensures { IfOk result (λ b. Says b (MayBeginCommand (tokens_seen front.now))) }
{
    if !ends_in_blank_or_dot(front) {
        return Ok(false);
    }
    may_stand(alloc, front, Token::Word(b"W"))
}
