// Words that the profile has, and functions.

ghost use Rattle.std.specs.Prelude.{◌≡◌, ◌∷◌, ◌+◌, ◌≤◌, MatchOption, Option, None, length, reverse, ℕ};
ghost use Rattle.mj_ast.specs.LeftOut.{called as the_called, function_of as the_function, innermost as the_innermost, is_e as the_e, is_extract as the_extract};
ghost use Rattle.mj_ast.specs.LeftOut.{is_justify as the_justify, is_name as the_name, is_order as the_order, is_order_name as the_order_name, is_in_order};
ghost use Rattle.mj_ast.specs.LeftOut.{is_query as the_query, is_t as the_t, is_variable as the_variable, without_caret as the_rest};
ghost use Rattle.mj_ast.specs.Expressions.{is_named};
ghost use Rattle.mj_lex.specs.Seen.{token_seen, tokens_seen};
ghost use Rattle.mj_unsupported.specs.Fronts.{seen_back};

use crate::tokens::{is_close, is_comma, is_open, last};
use mj_ast::{Callee, Function, NameFunction, Sign};
use mj_expr::callee;
use mj_lex::{Lexeme, Token};

/// Whether the word begins with a capital `E`.
pub fn is_e(word: &[u8]) -> bool
    ensures { result ≡ the_e word.now }
{
    match word {
        [] => false,
        [first, ..] => *first == b'E',
    }
}

/// Whether the word begins with a `T`, in any case.
pub fn is_t(word: &[u8]) -> bool
    ensures { result ≡ the_t word.now }
{
    match word {
        [] => false,
        [first, ..] => *first == b'T' || *first == b't',
    }
}

/// Whether the word is this one or its abbreviation, in any case.
fn is_either(word: &[u8], full: &[u8], short: &[u8]) -> bool
    ensures { result ≡ is_named word.now full.now short.now }
{
    word.eq_ignore_ascii_case(full) || word.eq_ignore_ascii_case(short)
}

/// Whether it is the word of a variable.
pub fn is_variable(word: &[u8]) -> bool
    ensures { result ≡ the_variable word.now }
{
    is_either(word, b"IO", b"I")
        || is_either(word, b"JOB", b"J")
        || is_either(word, b"TEST", b"T")
        || is_either(word, b"TLEVEL", b"TL")
        || is_either(word, b"TRESTART", b"TR")
        || is_either(word, b"X", b"X")
        || is_either(word, b"Y", b"Y")
}

/// The function that the token names, if it does.
pub fn called(token: Token) -> Option<Callee>
    ensures { result ≡ the_called (token_seen token.entry) }
{
    match token {
        Token::Called(word) => callee(word),
        _ => None,
    }
}

/// The function of the parenthesis that stands behind these tokens.
fn function_of(tokens: &[Lexeme]) -> Option<Callee>
    ensures { result ≡ the_function (reverse (tokens_seen tokens.now)) }
{
    match last(tokens) {
        Some((token, _)) => called(token),
        None => None,
    }
}

pub fn is_extract(function: Option<Callee>) -> bool
    ensures { result ≡ the_extract function }
{
    matches!(function, Some(Callee::Texts(Function::Extract)))
}

pub fn is_justify(function: Option<Callee>) -> bool
    ensures { result ≡ the_justify function }
{
    matches!(function, Some(Callee::Texts(Function::Justify)))
}

pub fn is_query(function: Option<Callee>) -> bool
    ensures { result ≡ the_query function }
{
    matches!(function, Some(Callee::Names(NameFunction::Query)))
}

pub fn is_name(function: Option<Callee>) -> bool
    ensures { result ≡ the_name function }
{
    matches!(function, Some(Callee::Names(NameFunction::Name)))
}

fn is_order(function: Option<Callee>) -> bool
    ensures { result ≡ the_order function }
{
    matches!(function, Some(Callee::Names(NameFunction::Order)))
}

/// The function of the innermost parenthesis that is still open behind the tokens, and how many commas stand directly in it.
pub fn innermost(tokens: &[Lexeme]) -> (Option<Callee>, usize)
    ensures { result ≡ the_innermost 0 0 (reverse (tokens_seen tokens.now)) }
{
    let mut closed = 0_usize;
    let mut commas = 0;
    let (mut rest, _) = tokens.split_at(tokens.len());
    'tokens: while let Some((token, before)) = last(rest) {
        if is_close(token) {
            closed += 1;
        } else if is_open(token) {
            if closed == 0 {
                return (function_of(before), commas);
            }
            closed -= 1;
        } else if is_comma(token) && closed == 0 {
            commas += 1;
        }
        rest = before;
    }
    (None, commas)
}

/// The tokens before a `^` at their end.
fn before_caret<'a, 't>(tokens: &'t [Lexeme<'a>]) -> Option<&'t [Lexeme<'a>]>
    ensures { MatchOption result (the_rest (seen_back tokens.now) ≡ seen_back tokens.now) (λ x. the_rest (seen_back tokens.now) ≡ seen_back x.now) }
{
    match last(tokens) {
        Some((Token::Sign(Sign::Caret), before)) => Some(before),
        _ => None,
    }
}

/// Whether the parenthesis of `$ORDER` is the last token.
fn ends_in_order(tokens: &[Lexeme]) -> bool
    ensures { result ≡ is_in_order (reverse (tokens_seen tokens.now)) }
{
    match last(tokens) {
        Some((token, before)) => is_open(token) && is_order(function_of(before)),
        None => false,
    }
}

/// Whether the name of the variable of `$ORDER` is.
pub fn is_order_name(tokens: &[Lexeme]) -> bool
    ensures { result ≡ the_order_name (reverse (tokens_seen tokens.now)) }
{
    match last(tokens) {
        Some((Token::Word(_), before)) => match before_caret(before) {
            Some(before) => ends_in_order(before),
            None => ends_in_order(before),
        },
        _ => false,
    }
}
