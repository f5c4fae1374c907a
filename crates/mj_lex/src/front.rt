// The token at the front of the bytes of a line.

ghost use Rattle.std.specs.Prelude.{◌∷◌, ◌≡◌, ◌<◌, ◌≤◌, ◌+◌, List, [], length, take_while, IfSome, OnOk, OnErr, MatchOption, drop};
ghost use Rattle.mj_ast.specs.Tokens.{Lexeme as Spelled, front_of, lexemes as the_lexemes, IsTokenisation, quotation, quoted_token, class_of};
ghost use Rattle.mj_ast.specs.Tokens.{is_digit, continues_word, bracket_front, truth_front, apostrophe_sign, longest_sign, begins_word, dollar_word};
ghost use Rattle.mj_ast.specs.Tokens.{dollar_front, dollars_front};
ghost use Rattle.mj_lex.specs.Seen.{BeginsWith, placed, places_seen, class_seen, token_seen};

use crate::token::{Lexeme, Token};
use mj_ast::Sign;
use mj_oper::TruthOp;
use std::alloc::AllocError;

/// What a byte begins.
#[derive(Clone, Copy)]
enum Class {
    Word,
    Dollar,
    Digit,
    Quote,
    Blank,
    Comment,
    Sign(Sign),
    Other,
}

fn begun_by(byte: u8) -> Class
    ensures { class_seen result ≡ class_of byte }
{
    match byte {
        b'A'..=b'Z' | b'a'..=b'z' | b'%' => Class::Word,
        b'0'..=b'9' => Class::Digit,
        b' ' | b'\t' => Class::Blank,
        b'"' => Class::Quote,
        b';' => Class::Comment,
        b'$' => Class::Dollar,
        b'+' => Class::Sign(Sign::Plus),
        b'-' => Class::Sign(Sign::Minus),
        b'*' => Class::Sign(Sign::Star),
        b'\\' => Class::Sign(Sign::Backslash),
        b'#' => Class::Sign(Sign::Hash),
        b'/' => Class::Sign(Sign::Slash),
        b'_' => Class::Sign(Sign::Underscore),
        b'=' => Class::Sign(Sign::Equals),
        b'<' => Class::Sign(Sign::Less),
        b'>' => Class::Sign(Sign::Greater),
        b'[' => Class::Sign(Sign::OpenBracket),
        b']' => Class::Sign(Sign::CloseBracket),
        b'&' => Class::Sign(Sign::Ampersand),
        b'!' => Class::Sign(Sign::Exclamation),
        b'\'' => Class::Sign(Sign::Apostrophe),
        b'?' => Class::Sign(Sign::Question),
        b'^' => Class::Sign(Sign::Caret),
        b'(' => Class::Sign(Sign::Open),
        b')' => Class::Sign(Sign::Close),
        b',' => Class::Sign(Sign::Comma),
        b':' => Class::Sign(Sign::Colon),
        b'.' => Class::Sign(Sign::Dot),
        _ => Class::Other,
    }
}

fn is_word_byte(byte: u8) -> bool
    ensures { result ≡ continues_word byte }
{
    matches!(byte, b'A'..=b'Z' | b'a'..=b'z' | b'0'..=b'9')
}

fn is_digit_byte(byte: u8) -> bool
    ensures { result ≡ is_digit byte }
{
    matches!(byte, b'0'..=b'9')
}

fn begins_word_byte(byte: u8) -> bool
    ensures { result ≡ begins_word byte }
{
    matches!(byte, b'A'..=b'Z' | b'a'..=b'z' | b'%')
}

/// How many letters and digits stand in front.
fn word_length(bytes: &[u8]) -> usize
    ensures value { result ≡ length (take_while continues_word bytes.now) }
    ensures within { result ≤ length bytes.now }
{
    bytes.iter().take_while(|byte| is_word_byte(**byte)).count()
}

/// How many digits stand in front.
fn digits_length(bytes: &[u8]) -> usize
    ensures value { result ≡ length (take_while is_digit bytes.now) }
    ensures within { result ≤ length bytes.now }
{
    bytes
        .iter()
        .take_while(|byte| is_digit_byte(**byte))
        .count()
}

/// The quoted text from behind its opening quote on, and what follows it.
fn quoted(bytes: &[u8]) -> (Token<'_>, &[u8])
    ensures token { token_seen result.0 ≡ quoted_token (quotation bytes.now) }
    ensures rest { result.1.now ≡ drop (quotation bytes.now).width bytes.now }
    ensures within { length result.1.now ≤ length bytes.now }
{
    let mut at = 0;
    'content: while at < bytes.len() {
        if bytes[at] != b'"' {
            at += 1;
        } else if at + 1 < bytes.len() && bytes[at + 1] == b'"' {
            at += 2;
        } else {
            return (Token::Quoted(&bytes[..at]), &bytes[at + 1..]);
        }
    }
    (Token::Unclosed(bytes), &bytes[bytes.len()..])
}

/// The truth operator of a `]`, by the bytes behind it.
fn bracket(rest: &[u8]) -> TruthOp
    ensures { result ≡ bracket_front rest.now }
{
    match rest {
        [b']', ..] => TruthOp::SortsAfter,
        _ => TruthOp::Follows,
    }
}

/// The truth operator in front.
fn truth(bytes: &[u8]) -> Option<TruthOp>
    ensures { result ≡ truth_front bytes.now }
{
    let Some((first, rest)) = first(bytes) else {
        return None;
    };
    match first {
        b'=' => Some(TruthOp::Equal),
        b'<' => Some(TruthOp::Less),
        b'>' => Some(TruthOp::Greater),
        b'[' => Some(TruthOp::Contains),
        b']' => Some(bracket(rest)),
        b'&' => Some(TruthOp::And),
        b'!' => Some(TruthOp::Or),
        _ => None,
    }
}

/// The sign of a `'` with no truth operator behind it, by the bytes there, and what follows it.
fn apostrophe(rest: &[u8]) -> (Sign, &[u8])
    ensures sign { result.0 ≡ (apostrophe_sign rest.now).0 }
    ensures rest { result.1.now ≡ drop (apostrophe_sign rest.now).1 rest.now }
    ensures within { length result.1.now ≤ length rest.now }
{
    match rest {
        [b'?', ..] => (Sign::NegatedQuestion, &rest[1..]),
        _ => (Sign::Apostrophe, rest),
    }
}

/// The longest sign that begins as this one, by the bytes behind that, and what follows it.
fn longest(sign: Sign, rest: &[u8]) -> (Sign, &[u8])
    ensures sign { result.0 ≡ (longest_sign sign rest.now).0 }
    ensures rest { result.1.now ≡ drop (longest_sign sign rest.now).1 rest.now }
    ensures within { length result.1.now ≤ length rest.now }
{
    match sign {
        Sign::CloseBracket => match bracket(rest) {
            TruthOp::SortsAfter => (Sign::CloseBrackets, &rest[1..]),
            _ => (sign, rest),
        },
        Sign::Apostrophe => match truth(rest) {
            Some(TruthOp::SortsAfter) => (Sign::Negated(TruthOp::SortsAfter), &rest[2..]),
            Some(op) => (Sign::Negated(op), &rest[1..]),
            None => apostrophe(rest),
        },
        _ => (sign, rest),
    }
}

/// The first byte, and those behind it.
fn first(bytes: &[u8]) -> Option<(u8, &[u8])>
    ensures { MatchOption result (bytes.now ≡ []) (λ x. bytes.now ≡ x.0 ∷ x.1.now) }
{
    match bytes {
        [] => None,
        [first, rest @ ..] => Some((*first, rest)),
    }
}

/// The token of `$` and a word, by what stands behind it.
fn dollar_token<'a>(word: &'a [u8], rest: &[u8]) -> Token<'a>
    ensures { token_seen result ≡ dollar_word word.now rest.now }
{
    match rest {
        [b'(', ..] => Token::Called(word),
        _ => Token::Special(word),
    }
}

/// The token of `$$`, by the bytes behind it, and what follows it.
fn dollars(bytes: &[u8]) -> (Token<'_>, &[u8])
    ensures token { token_seen result.0 ≡ (dollars_front bytes.now).0 }
    ensures rest { result.1.now ≡ drop (dollars_front bytes.now).1 bytes.now }
    ensures within { length result.1.now ≤ length bytes.now }
{
    let Some((byte, behind)) = first(bytes) else {
        return (Token::Dollars, bytes);
    };
    if begins_word_byte(byte) {
        let n = word_length(behind);
        (Token::Invoked(&bytes[..n + 1]), &behind[n..])
    } else if is_digit_byte(byte) {
        let n = digits_length(behind);
        (Token::Numbered(&bytes[..n + 1]), &behind[n..])
    } else {
        (Token::Dollars, bytes)
    }
}

/// The token of a `$`, by the bytes behind it, and what follows it.
fn dollar(bytes: &[u8]) -> (Token<'_>, &[u8])
    ensures token { token_seen result.0 ≡ (dollar_front bytes.now).0 }
    ensures rest { result.1.now ≡ drop (dollar_front bytes.now).1 bytes.now }
    ensures within { length result.1.now ≤ length bytes.now }
{
    let Some((byte, behind)) = first(bytes) else {
        return (Token::Stray(b'$'), bytes);
    };
    if begins_word_byte(byte) {
        let n = word_length(behind);
        let rest = &behind[n..];
        (dollar_token(&bytes[..n + 1], rest), rest)
    } else if byte == b'$' {
        dollars(behind)
    } else {
        (Token::Stray(b'$'), bytes)
    }
}

/// The token that a first byte begins, and the bytes behind it, where these stand behind the first.
fn begun<'a>(bytes: &'a [u8], first: u8, rest: &'a [u8]) -> (Token<'a>, &'a [u8])
    requires { bytes.now ≡ first ∷ rest.now }
    ensures token { token_seen result.0 ≡ (front_of (class_of first) first rest.now).0 }
    ensures rest { result.1.now ≡ drop (front_of (class_of first) first rest.now).1 rest.now }
    ensures within { length result.1.now ≤ length rest.now }
{
    match begun_by(first) {
        Class::Word => {
            let n = word_length(rest);
            (Token::Word(&bytes[..n + 1]), &rest[n..])
        }
        Class::Dollar => dollar(rest),
        Class::Digit => {
            let n = digits_length(rest);
            (Token::Digits(&bytes[..n + 1]), &rest[n..])
        }
        Class::Quote => quoted(rest),
        Class::Blank => (Token::Blank, rest),
        Class::Comment => (Token::Comment(rest), &rest[rest.len()..]),
        Class::Sign(sign) => {
            let (sign, rest) = longest(sign, rest);
            (Token::Sign(sign), rest)
        }
        Class::Other => (Token::Stray(first), rest),
    }
}

/// The token at the front, and the bytes behind it.
fn front(bytes: &[u8]) -> Option<(Token<'_>, &[u8])>
    ensures token { MatchOption result (bytes.now ≡ []) (λ x. BeginsWith bytes.now (token_seen x.0) x.1.now) }
    ensures shorter { IfSome result (λ x. length x.1.now < length bytes.now) }
{
    match first(bytes) {
        None => None,
        Some((byte, rest)) => Some(begun(bytes, byte, rest)),
    }
}

/// Puts the tokens of a line, from the left, in the place of what the list holds, and keeps the room that it has: their slices are the line, and each is the
/// longest that spells a token. There is one such list. With want of memory the list is empty.
pub fn tokens_into<'a>(lexemes: &mut Vec<Lexeme<'a>>, line: &'a [u8]) -> Result<(), AllocError>
    ensures placed { OnOk result (places_seen lexemes.new.items ≡ placed 0 (the_lexemes line.now)) }
    ensures none { OnErr result (lexemes.new.items ≡ []) }
    ensures longest { IsTokenisation line.now (the_lexemes line.now) }
    ensures only { (others : List Spelled) → IsTokenisation line.now others → others ≡ the_lexemes line.now }
{
    lexemes.clear();
    let mut rest = line;
    'tokens: while let Some((token, behind)) = front(rest) {
        let at = line.len() - rest.len();
        let Ok(()) = lexemes.push(Lexeme { token, at }) else {
            lexemes.clear();
            return Err(AllocError);
        };
        rest = behind;
    }
    Ok(())
}
