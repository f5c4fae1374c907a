// The colons of arguments that name devices, and what stands behind a variable of READ.

ghost use Rattle.std.specs.Prelude.{◌≡◌, IfOk, Option, Some};
ghost use Rattle.mj_ast.specs.LeftOut.{EndsInCommand, IsBehindColon, IsBehindColons, IsBehindDevice, IsBehindInput, IsBehindTimeout};
ghost use Rattle.mj_ast.specs.declared.keyword.Keyword.TheVariants.{Open};
ghost use Rattle.mj_lex.specs.Seen.{tokens_seen};
ghost use Rattle.mj_unsupported.specs.Fronts.{IsFront, Says};

use crate::last::last_command;
use crate::stand::may_be_colon;
use crate::tokens::last;
use mj_ast::{Keyword, Sign};
use mj_lex::{Lexeme, Token};
use std::alloc::{AllocError, Global};

/// Whether it is this one.
fn is_keyword(last: Option<Keyword>, keyword: Keyword) -> bool
    ensures { Says result (last ≡ Some keyword) }
{
    match last {
        Some(found) => found == keyword,
        None => false,
    }
}

/// Whether such a command stands last in the tokens, which are a line up to its end.
pub fn ends_in_command(
    alloc: Global,
    keyword: Keyword,
    tokens: &[Lexeme],
) -> Result<bool, AllocError>
    requires { IsFront (tokens_seen tokens.now) }
    ensures { IfOk result (λ b. Says b (EndsInCommand keyword (tokens_seen tokens.now))) }
{
    let last = last_command(alloc, tokens)?;
    Ok(is_keyword(last, keyword))
}

/// Whether the first `:` of an argument of such a command was read, behind which another may stand.
pub fn is_behind_colon(
    alloc: Global,
    keyword: Keyword,
    front: &[Lexeme],
) -> Result<bool, AllocError>
    requires { IsFront (tokens_seen front.now) }
    ensures { IfOk result (λ b. Says b (IsBehindColon keyword (tokens_seen front.now))) }
{
    match last(front) {
        Some((Token::Sign(Sign::Colon), before)) => {
            if !ends_in_command(alloc, keyword, before)? {
                return Ok(false);
            }
            may_be_colon(alloc, front)
        }
        _ => Ok(false),
    }
}

/// Whether an argument of USE or CLOSE was read.
pub fn is_behind_device(alloc: Global, front: &[Lexeme]) -> Result<bool, AllocError>
    requires { IsFront (tokens_seen front.now) }
    ensures { IfOk result (λ b. Says b (IsBehindDevice (tokens_seen front.now))) }
{
    if ends_in_command(alloc, Keyword::Use, front)? {
        return Ok(true);
    }
    ends_in_command(alloc, Keyword::Close, front)
}

/// Whether the second `:` of an argument of OPEN was read.
fn is_behind_colons(alloc: Global, front: &[Lexeme]) -> Result<bool, AllocError>
    requires { IsFront (tokens_seen front.now) }
    ensures { IfOk result (λ b. Says b (IsBehindColons (tokens_seen front.now))) }
{
    match last(front) {
        Some((Token::Sign(Sign::Colon), before)) => is_behind_colon(alloc, Keyword::Open, before),
        _ => Ok(false),
    }
}

/// Whether a third `:` of an argument of OPEN would stand there.
pub fn is_behind_timeout(alloc: Global, front: &[Lexeme]) -> Result<bool, AllocError>
    requires { IsFront (tokens_seen front.now) }
    ensures { IfOk result (λ b. Says b (IsBehindTimeout (tokens_seen front.now))) }
{
    if is_behind_colons(alloc, front)? {
        return Ok(true);
    }
    ends_in_command(alloc, Keyword::Open, front)
}

/// Whether a variable of READ was read.
pub fn is_behind_input(alloc: Global, front: &[Lexeme]) -> Result<bool, AllocError>
    requires { IsFront (tokens_seen front.now) }
    ensures { IfOk result (λ b. Says b (IsBehindInput (tokens_seen front.now))) }
{
    if !ends_in_command(alloc, Keyword::Read, front)? {
        return Ok(false);
    }
    may_be_colon(alloc, front)
}
