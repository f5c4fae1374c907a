// Tokens, and what is read off them.

ghost use Rattle.std.specs.Prelude.{IfSome, IsOkUnless, ◌≤◌, ◌+◌, ◌≡◌, ◌∷◌, [], IfOk, MatchOption};
ghost use Rattle.std.specs.Prelude.{IfErr, ◌<◌, ◌↔◌, ◌⊎◌, length};
ghost use Rattle.std.specs.List.{list_any};
ghost use Rattle.mj_lex.specs.Seen.{is_quote, token_seen, tokens_seen, undoubled};
ghost use Rattle.mj_text.specs.declared.fault.Failure.TheVariants as failure;
ghost use Rattle.mj_text.specs.declared.fault.Fault.TheVariants as fault;

use mj_ast::Sign;
use mj_text::{Failure, TEXT_LIMIT, Text};
use std::alloc::Global;

/// A token of a line, with its bytes where they matter.
#[derive(Clone, Copy)]
pub enum Token<'a> {
    /// a letter or `%`, then letters and digits
    Word(&'a [u8]),
    /// `$` and a word, by the bytes of the word, with a `(` directly behind it
    Called(&'a [u8]),
    /// `$` and a word, with anything else behind it
    Special(&'a [u8]),
    /// `$$` and a word, by the bytes of the word
    Invoked(&'a [u8]),
    /// `$$` and digits, by the bytes of the digits
    Numbered(&'a [u8]),
    /// `$$` with neither behind it
    Dollars,
    /// digits
    Digits(&'a [u8]),
    /// a quoted text: the bytes between its quotes, in which each quote is doubled
    Quoted(&'a [u8]),
    /// a sign
    Sign(Sign),
    /// one space or tab
    Blank,
    /// the bytes behind a `;`, up to the line's end
    Comment(&'a [u8]),
    /// the bytes behind a quote that isn't closed, up to the line's end
    Unclosed(&'a [u8]),
    /// any other byte
    Stray(u8),
}

/// A token, and how many bytes of its line stand before it.
#[derive(Clone, Copy)]
pub struct Lexeme<'a> {
    pub token: Token<'a>,
    pub at: usize,
}

/// The first token, and those behind it.
pub fn next<'a, 't>(tokens: &'t [Lexeme<'a>]) -> Option<(Token<'a>, &'t [Lexeme<'a>])>
    ensures seen { MatchOption result (tokens.now ≡ []) (λ x. tokens_seen tokens.now ≡ token_seen x.0 ∷ tokens_seen x.1.now) }
    ensures shorter { IfSome result (λ x. length tokens.now ≡ length x.1.now + 1) }
{
    match tokens {
        [] => None,
        [first, rest @ ..] => Some((first.token, rest)),
    }
}

/// Whether a quote is among the bytes.
fn has_quote(bytes: &[u8]) -> bool
    ensures { result ≡ list_any is_quote bytes.now }
{
    bytes.iter().any(|byte| *byte == b'"')
}

/// The content of a quoted text, from the bytes between its quotes: of two quotes in a row one. Content above the limit of
/// a text is `LENGTH`.
pub fn unquoted(alloc: Global, bytes: &[u8]) -> Result<Text, Failure>
    ensures ok { IfOk result (λ t. t ≡ undoubled bytes.now) }
    ensures long { (result ≡ Err (failure.Fault fault.Length)) → TEXT_LIMIT < length (undoubled bytes.now) }
    ensures within { length (undoubled bytes.now) ≤ TEXT_LIMIT → IsOkUnless result failure.Memory }
    ensures above { TEXT_LIMIT < length (undoubled bytes.now) → (result ≡ Err (failure.Fault fault.Length)) ⊎ (result ≡ Err failure.Memory) }
{
    if !has_quote(bytes) {
        return Text::from(alloc, bytes);
    }
    let mut content = Vec::with_capacity(alloc, bytes.len())?;
    let mut rest = bytes;
    'content: while let [first, behind @ ..] = rest {
        content.push(*first)?;
        rest = match behind {
            [_, more @ ..] if *first == b'"' => more,
            _ => behind,
        };
    }
    Text::from(alloc, content.as_slice())
}
