// Single tokens, and those at the ends of a list.

ghost use Rattle.std.specs.Prelude.{◌≡◌, ◌∷◌, ◌++◌, ◌+◌, [], IfSome, MatchOption, length};
ghost use Rattle.mj_ast.specs.LeftOut.{has_no_blank as has_none, has_dollar as the_dollar, is_at as the_at, is_bar as the_bar};
ghost use Rattle.mj_ast.specs.LeftOut.{is_blank_or_dot as the_blank_or_dot, is_blank_token, is_bracket as the_bracket, is_caret as the_caret};
ghost use Rattle.mj_ast.specs.LeftOut.{is_close as the_close, is_colon as the_colon, is_comma as the_comma, is_digits as the_digits};
ghost use Rattle.mj_ast.specs.LeftOut.{is_dollar as the_stray_dollar, is_dot as the_dot, is_hash as the_hash, is_label as the_label};
ghost use Rattle.mj_ast.specs.LeftOut.{is_negated_question as the_negated_question, is_open as the_open, is_open_or_comma as the_open_or_comma};
ghost use Rattle.mj_ast.specs.LeftOut.{is_plus as the_plus, is_question as the_question, is_slash as the_slash, is_star as the_star, is_word as the_word};
ghost use Rattle.mj_ast.specs.LeftOut.{starts, ends_in, ends_digits as the_number, is_dollars as the_dollars};
ghost use Rattle.mj_lex.specs.Seen.{token_seen, tokens_seen};
ghost use Rattle.mj_unsupported.specs.Fronts.{seen_back};

use mj_ast::Sign;
use mj_lex::{Lexeme, Token, next};

pub fn is_at(token: Token) -> bool
    ensures { result ≡ the_at (token_seen token.entry) }
{
    matches!(token, Token::Stray(b'@'))
}

pub fn is_question(token: Token) -> bool
    ensures { result ≡ the_question (token_seen token.entry) }
{
    matches!(token, Token::Sign(Sign::Question))
}

pub fn is_hash(token: Token) -> bool
    ensures { result ≡ the_hash (token_seen token.entry) }
{
    matches!(token, Token::Sign(Sign::Hash))
}

pub fn is_slash(token: Token) -> bool
    ensures { result ≡ the_slash (token_seen token.entry) }
{
    matches!(token, Token::Sign(Sign::Slash))
}

pub fn is_bar(token: Token) -> bool
    ensures { result ≡ the_bar (token_seen token.entry) }
{
    matches!(token, Token::Stray(b'|'))
}

/// A `$` without a word behind it.
pub fn is_dollar(token: Token) -> bool
    ensures { result ≡ the_stray_dollar (token_seen token.entry) }
{
    matches!(token, Token::Stray(b'$'))
}

/// A `$`, with or without a word behind it.
pub fn has_dollar(token: Token) -> bool
    ensures { result ≡ the_dollar (token_seen token.entry) }
{
    matches!(
        token,
        Token::Special(_)
            | Token::Called(_)
            | Token::Invoked(_)
            | Token::Numbered(_)
            | Token::Dollars
    ) || is_dollar(token)
}

pub fn is_digits(token: Token) -> bool
    ensures { result ≡ the_digits (token_seen token.entry) }
{
    matches!(token, Token::Digits(_))
}

/// Digits, as the label of a function or not.
pub fn ends_digits(token: Token) -> bool
    ensures { result ≡ the_number (token_seen token.entry) }
{
    matches!(token, Token::Numbered(_)) || is_digits(token)
}

/// `$$` without a label.
pub fn is_dollars(token: Token) -> bool
    ensures { result ≡ the_dollars (token_seen token.entry) }
{
    matches!(token, Token::Dollars)
}

pub fn is_word(token: Token) -> bool
    ensures { result ≡ the_word (token_seen token.entry) }
{
    matches!(token, Token::Word(_))
}

pub fn is_blank(token: Token) -> bool
    ensures { result ≡ is_blank_token (token_seen token.entry) }
{
    matches!(token, Token::Blank)
}

pub fn is_dot(token: Token) -> bool
    ensures { result ≡ the_dot (token_seen token.entry) }
{
    matches!(token, Token::Sign(Sign::Dot))
}

pub fn is_star(token: Token) -> bool
    ensures { result ≡ the_star (token_seen token.entry) }
{
    matches!(token, Token::Sign(Sign::Star))
}

pub fn is_caret(token: Token) -> bool
    ensures { result ≡ the_caret (token_seen token.entry) }
{
    matches!(token, Token::Sign(Sign::Caret))
}

pub fn is_open(token: Token) -> bool
    ensures { result ≡ the_open (token_seen token.entry) }
{
    matches!(token, Token::Sign(Sign::Open))
}

pub fn is_close(token: Token) -> bool
    ensures { result ≡ the_close (token_seen token.entry) }
{
    matches!(token, Token::Sign(Sign::Close))
}

pub fn is_comma(token: Token) -> bool
    ensures { result ≡ the_comma (token_seen token.entry) }
{
    matches!(token, Token::Sign(Sign::Comma))
}

pub fn is_colon(token: Token) -> bool
    ensures { result ≡ the_colon (token_seen token.entry) }
{
    matches!(token, Token::Sign(Sign::Colon))
}

pub fn is_plus(token: Token) -> bool
    ensures { result ≡ the_plus (token_seen token.entry) }
{
    matches!(token, Token::Sign(Sign::Plus))
}

pub fn is_bracket(token: Token) -> bool
    ensures { result ≡ the_bracket (token_seen token.entry) }
{
    matches!(token, Token::Sign(Sign::OpenBracket))
}

pub fn is_negated_question(token: Token) -> bool
    ensures { result ≡ the_negated_question (token_seen token.entry) }
{
    matches!(token, Token::Sign(Sign::NegatedQuestion))
}

/// The last token, and those before it.
pub fn last<'a, 't>(tokens: &'t [Lexeme<'a>]) -> Option<(Token<'a>, &'t [Lexeme<'a>])>
    ensures seen { MatchOption result (tokens_seen tokens.now ≡ []) (λ x. tokens_seen tokens.now ≡ tokens_seen x.1.now ++ token_seen x.0 ∷ []) }
    ensures nearest { MatchOption result (seen_back tokens.now ≡ []) (λ x. seen_back tokens.now ≡ token_seen x.0 ∷ seen_back x.1.now) }
    ensures shorter { IfSome result (λ x. length tokens.now ≡ length x.1.now + 1) }
{
    if tokens.is_empty() {
        return None;
    }
    let end = tokens.len() - 1;
    Some((tokens[end].token, &tokens[..end]))
}

/// Whether digits are the last token, as the label of a function or not.
pub fn ends_in_digits(tokens: &[Lexeme]) -> bool
    ensures { result ≡ ends_in the_number (tokens_seen tokens.now) }
{
    match last(tokens) {
        Some((end, _)) => ends_digits(end),
        None => false,
    }
}

/// Whether a `*` is.
pub fn ends_in_star(tokens: &[Lexeme]) -> bool
    ensures { result ≡ ends_in the_star (tokens_seen tokens.now) }
{
    match last(tokens) {
        Some((end, _)) => is_star(end),
        None => false,
    }
}

/// Whether a `^` is.
pub fn ends_in_caret(tokens: &[Lexeme]) -> bool
    ensures { result ≡ ends_in the_caret (tokens_seen tokens.now) }
{
    match last(tokens) {
        Some((end, _)) => is_caret(end),
        None => false,
    }
}

/// Whether `$$` without a label is.
pub fn ends_in_dollars(tokens: &[Lexeme]) -> bool
    ensures { result ≡ ends_in the_dollars (tokens_seen tokens.now) }
{
    match last(tokens) {
        Some((end, _)) => is_dollars(end),
        None => false,
    }
}

/// Whether a blank is.
pub fn ends_in_blank(tokens: &[Lexeme]) -> bool
    ensures { result ≡ ends_in is_blank_token (tokens_seen tokens.now) }
{
    match last(tokens) {
        Some((end, _)) => is_blank(end),
        None => false,
    }
}

/// Whether a word or digits are, as a label.
pub fn ends_in_label(tokens: &[Lexeme]) -> bool
    ensures { result ≡ ends_in the_label (tokens_seen tokens.now) }
{
    match last(tokens) {
        Some((end, _)) => is_word(end) || is_digits(end),
        None => false,
    }
}

/// Whether a blank or a dot is.
pub fn ends_in_blank_or_dot(tokens: &[Lexeme]) -> bool
    ensures { result ≡ ends_in the_blank_or_dot (tokens_seen tokens.now) }
{
    match last(tokens) {
        Some((end, _)) => is_blank(end) || is_dot(end),
        None => false,
    }
}

/// Whether a `(` or a comma is.
pub fn ends_in_open_or_comma(tokens: &[Lexeme]) -> bool
    ensures { result ≡ ends_in the_open_or_comma (tokens_seen tokens.now) }
{
    match last(tokens) {
        Some((end, _)) => is_open(end) || is_comma(end),
        None => false,
    }
}

/// Whether digits are the first token.
pub fn starts_digits(tokens: &[Lexeme]) -> bool
    ensures { result ≡ starts the_digits (tokens_seen tokens.now) }
{
    match next(tokens) {
        Some((token, _)) => is_digits(token),
        None => false,
    }
}

/// Whether a word is.
pub fn starts_word(tokens: &[Lexeme]) -> bool
    ensures { result ≡ starts the_word (tokens_seen tokens.now) }
{
    match next(tokens) {
        Some((token, _)) => is_word(token),
        None => false,
    }
}

/// Whether no blank is among the tokens.
pub fn has_no_blank(tokens: &[Lexeme]) -> bool
    ensures { result ≡ has_none (tokens_seen tokens.now) }
{
    let (_, mut rest) = tokens.split_at(0);
    'tokens: while let Some((token, behind)) = next(rest) {
        if is_blank(token) {
            return false;
        }
        rest = behind;
    }
    true
}
