// What stands at a column.

ghost use Rattle.std.specs.Prelude.{◌≡◌, IfOk, take};
ghost use Rattle.std.specs.Option.{option_map};
ghost use Rattle.mj_ast.specs.Tokens.{lexemes as the_lexemes};
ghost use Rattle.mj_lex.specs.Seen.{placed, places_seen, token_seen};
ghost use Rattle.mj_hints.specs.Hints.{front_there};

use mj_lex::{Lexeme, Token, tokens_into};
use std::alloc::{AllocError, Global};

/// The first token of some bytes, and the bytes that spell it.
pub fn front<'a>(
    alloc: Global,
    bytes: &'a [u8],
) -> Result<Option<(Token<'a>, &'a [u8])>, AllocError>
    ensures { IfOk result (λ f. option_map (λ x. (token_seen x.0, x.1.now)) f ≡ front_there bytes.now) }
{
    let mut lexemes = Vec::new(alloc);
    let placed = tokens_into(&mut lexemes, bytes);
    let front = front_of(&lexemes, bytes);
    drop(lexemes);
    match placed {
        Ok(()) => Ok(front),
        Err(error) => Err(error),
    }
}

// The first of the tokens of some bytes, and the bytes up to the second.
fn front_of<'a>(lexemes: &[Lexeme<'a>], bytes: &'a [u8]) -> Option<(Token<'a>, &'a [u8])>
    ensures { places_seen lexemes.now ≡ placed 0 (the_lexemes bytes.now) → option_map (λ x. (token_seen x.0, x.1.now)) result ≡ front_there bytes.now }
{
    match lexemes {
        [] => None,
        [first] => Some((first.token, bytes)),
        [first, second, ..] => Some((first.token, up_to(bytes, second.at))),
    }
}

// The first bytes, so many of them as there are.
fn up_to(bytes: &[u8], count: usize) -> &[u8]
    ensures { result.now ≡ take count bytes.now }
{
    if count < bytes.len() {
        &bytes[..count]
    } else {
        bytes
    }
}
