// What commands and lines are made of: single tokens, blanks, and where a command may end.

ghost use Rattle.std.specs.Prelude.{◌≡◌, Some, false, true, ◌++◌, ◌+◌, ◌<◌, Bool, IfErr, IfOk, MatchOption, length, nat_le, if◌then◌else◌, replicate};
ghost use Rattle.mj_expr.specs.declared.stop.ParseError.TheVariants.{Stuck, Long};
ghost use Rattle.mj_ast.specs.Tokens.{Blank, Called, Signed, Word};
ghost use Rattle.mj_ast.specs.Commands.{PieceCall};
ghost use Rattle.mj_line.specs.Forms.{part_of};
ghost use Rattle.mj_ast.specs.declared.sign.Sign.TheVariants.{Caret, Close, Colon, Comma, Dot, Equals, Minus, Open, Plus, Question, Star};
ghost use Rattle.mj_cmd.specs.Parts.{mark_sign};
ghost use Rattle.mj_lex.specs.Seen.{tokens_seen};
ghost use Rattle.mj_line.specs.Machine.{refused};
ghost use Rattle.mj_cmd.specs.Reads.{Refuses};
ghost use Rattle.mj_cmd.specs.Heads.{HasNoBlank, HasNoCaret, HasNoClose, HasNoColon, HasNoComma, HasNoDot, HasNoEquals, HasNoLabel, HasNoMark, HasNoMinus};
ghost use Rattle.mj_cmd.specs.Heads.{HasNoName, HasNoOpen, HasNoPiece, HasNoPlus, HasNoQuestion, HasNoQuoted, HasNoStar, HasNoWord, HasOther, HasParted};
ghost use Rattle.mj_cmd.specs.Heads.{StartsWith, StartsWithLabel, StartsWithName, StartsWithPiece, StartsWithQuoted, StepsOver};

use mj_ast::{Callee, FormatMark, Function, Sign};
use mj_expr::{ParseError, callee};
use mj_lex::{Lexeme, Token, next, unquoted};
use mj_text::{Failure, TEXT_LIMIT, Text};
use std::alloc::{AllocError, Global};

/// The most bytes of a word.
pub const WORD_LIMIT: usize = 31;

/// Refuses where the grammar can't go on at this word, the first of these tokens: one past its limit is too long.
fn stuck_word(tokens: &[Lexeme], word: &[u8]) -> ParseError
    ensures { result ≡ (if nat_le (length word.now) 31 then Stuck (length tokens.now) else Long) }
{
    if word.len() <= WORD_LIMIT {
        ParseError::Stuck(tokens.len())
    } else {
        ParseError::Long
    }
}

/// Refuses where the grammar can't go on at the first of these tokens: a word past its limit comes before that.
pub fn stuck(tokens: &[Lexeme]) -> ParseError
    ensures { (limited : Bool) → Refuses limited result (refused (tokens_seen tokens.now)) }
{
    match next(tokens) {
        Some((Token::Word(word), _)) => stuck_word(tokens, word),
        Some((Token::Called(word), _)) => stuck_word(tokens, word),
        Some((Token::Special(word), _)) => stuck_word(tokens, word),
        Some((Token::Invoked(word), _)) => stuck_word(tokens, word),
        _ => ParseError::Stuck(tokens.len()),
    }
}

/// The word in front, and what follows it.
pub fn behind_word<'a, 't>(tokens: &'t [Lexeme<'a>]) -> Option<(&'a [u8], &'t [Lexeme<'a>])>
    ensures { MatchOption result (HasNoWord (tokens_seen tokens.now)) (λ x. StartsWith (Word x.0.now) tokens.now x.1.now) }
{
    match next(tokens) {
        Some((Token::Word(word), rest)) => Some((word, rest)),
        _ => None,
    }
}

/// The word of a length that a name may have in front, and what follows it.
pub fn behind_name<'a, 't>(tokens: &'t [Lexeme<'a>]) -> Option<(&'a [u8], &'t [Lexeme<'a>])>
    ensures { MatchOption result (HasNoName (tokens_seen tokens.now)) (λ x. StartsWithName x.0.now tokens.now x.1.now) }
{
    match behind_word(tokens) {
        None => None,
        Some((word, rest)) => {
            if word.len() <= WORD_LIMIT {
                return Some((word, rest));
            }
            None
        }
    }
}

/// The label in front, a name or digits, and what follows it.
pub fn behind_entry_label<'a, 't>(tokens: &'t [Lexeme<'a>]) -> Option<(&'a [u8], &'t [Lexeme<'a>])>
    ensures { MatchOption result (HasNoLabel (tokens_seen tokens.now)) (λ x. StartsWithLabel x.0.now tokens.now x.1.now) }
{
    match next(tokens) {
        Some((Token::Word(name), rest)) => {
            if name.len() <= WORD_LIMIT {
                return Some((name, rest));
            }
            None
        }
        Some((Token::Digits(digits), rest)) => {
            if digits.len() <= TEXT_LIMIT {
                return Some((digits, rest));
            }
            None
        }
        _ => None,
    }
}

/// Whether the `$` word is that of `$PIECE`.
fn is_piece(word: &[u8]) -> bool
    ensures yes { result ≡ true → part_of (Called word.now) ≡ Some PieceCall }
    ensures no { result ≡ false → part_of (Called word.now) ≡ Some PieceCall → ⊥ }
{
    if word.len() > WORD_LIMIT {
        return false;
    }
    match callee(word) {
        Some(Callee::Texts(Function::Piece)) => true,
        _ => false,
    }
}

/// What follows `$PIECE`, if it stands in front with a `(` behind it.
pub fn behind_piece<'a, 't>(tokens: &'t [Lexeme<'a>]) -> Option<&'t [Lexeme<'a>]>
    ensures { MatchOption result (HasNoPiece (tokens_seen tokens.now)) (λ x. StartsWithPiece tokens.now x.now) }
{
    match next(tokens) {
        None => None,
        Some((token, rest)) => match token {
            Token::Called(word) => {
                if is_piece(word) {
                    return Some(rest);
                }
                None
            }
            _ => None,
        },
    }
}

/// What follows a `^`, if it stands in front.
pub fn behind_caret<'a, 't>(tokens: &'t [Lexeme<'a>]) -> Option<&'t [Lexeme<'a>]>
    ensures { MatchOption result (HasNoCaret (tokens_seen tokens.now)) (λ x. StartsWith (Signed Caret) tokens.now x.now) }
{
    match next(tokens) {
        Some((Token::Sign(Sign::Caret), rest)) => Some(rest),
        _ => None,
    }
}

/// What follows a `+`, if it stands in front.
pub fn behind_plus<'a, 't>(tokens: &'t [Lexeme<'a>]) -> Option<&'t [Lexeme<'a>]>
    ensures { MatchOption result (HasNoPlus (tokens_seen tokens.now)) (λ x. StartsWith (Signed Plus) tokens.now x.now) }
{
    match next(tokens) {
        Some((Token::Sign(Sign::Plus), rest)) => Some(rest),
        _ => None,
    }
}

/// What follows a `-`, if it stands in front.
pub fn behind_minus<'a, 't>(tokens: &'t [Lexeme<'a>]) -> Option<&'t [Lexeme<'a>]>
    ensures { MatchOption result (HasNoMinus (tokens_seen tokens.now)) (λ x. StartsWith (Signed Minus) tokens.now x.now) }
{
    match next(tokens) {
        Some((Token::Sign(Sign::Minus), rest)) => Some(rest),
        _ => None,
    }
}

/// What follows a `(`, if it stands in front.
pub fn behind_open<'a, 't>(tokens: &'t [Lexeme<'a>]) -> Option<&'t [Lexeme<'a>]>
    ensures { MatchOption result (HasNoOpen (tokens_seen tokens.now)) (λ x. StartsWith (Signed Open) tokens.now x.now) }
{
    match next(tokens) {
        Some((Token::Sign(Sign::Open), rest)) => Some(rest),
        _ => None,
    }
}

/// What follows a `)`, if it stands in front.
pub fn behind_close<'a, 't>(tokens: &'t [Lexeme<'a>]) -> Option<&'t [Lexeme<'a>]>
    ensures { MatchOption result (HasNoClose (tokens_seen tokens.now)) (λ x. StartsWith (Signed Close) tokens.now x.now) }
{
    match next(tokens) {
        Some((Token::Sign(Sign::Close), rest)) => Some(rest),
        _ => None,
    }
}

/// What follows a comma, if it stands in front.
pub fn behind_comma<'a, 't>(tokens: &'t [Lexeme<'a>]) -> Option<&'t [Lexeme<'a>]>
    ensures { MatchOption result (HasNoComma (tokens_seen tokens.now)) (λ x. StartsWith (Signed Comma) tokens.now x.now) }
{
    match next(tokens) {
        Some((Token::Sign(Sign::Comma), rest)) => Some(rest),
        _ => None,
    }
}

/// What follows a `=`, if it stands in front.
pub fn behind_equals<'a, 't>(tokens: &'t [Lexeme<'a>]) -> Option<&'t [Lexeme<'a>]>
    ensures { MatchOption result (HasNoEquals (tokens_seen tokens.now)) (λ x. StartsWith (Signed Equals) tokens.now x.now) }
{
    match next(tokens) {
        Some((Token::Sign(Sign::Equals), rest)) => Some(rest),
        _ => None,
    }
}

/// What follows a colon, if it stands in front.
pub fn behind_colon<'a, 't>(tokens: &'t [Lexeme<'a>]) -> Option<&'t [Lexeme<'a>]>
    ensures { MatchOption result (HasNoColon (tokens_seen tokens.now)) (λ x. StartsWith (Signed Colon) tokens.now x.now) }
{
    match next(tokens) {
        Some((Token::Sign(Sign::Colon), rest)) => Some(rest),
        _ => None,
    }
}

/// The format mark in front, and what follows it.
pub fn behind_mark<'a, 't>(tokens: &'t [Lexeme<'a>]) -> Option<(FormatMark, &'t [Lexeme<'a>])>
    ensures { MatchOption result (HasNoMark (tokens_seen tokens.now)) (λ x. StartsWith (Signed (mark_sign x.0)) tokens.now x.1.now) }
{
    match next(tokens) {
        Some((Token::Sign(Sign::Exclamation), rest)) => Some((FormatMark::NewLine, rest)),
        Some((Token::Sign(Sign::Hash), rest)) => Some((FormatMark::NewPage, rest)),
        _ => None,
    }
}

/// What follows a `?`, if it stands in front.
pub fn behind_question<'a, 't>(tokens: &'t [Lexeme<'a>]) -> Option<&'t [Lexeme<'a>]>
    ensures { MatchOption result (HasNoQuestion (tokens_seen tokens.now)) (λ x. StartsWith (Signed Question) tokens.now x.now) }
{
    match next(tokens) {
        Some((Token::Sign(Sign::Question), rest)) => Some(rest),
        _ => None,
    }
}

/// What follows a `*`, if it stands in front.
pub fn behind_star<'a, 't>(tokens: &'t [Lexeme<'a>]) -> Option<&'t [Lexeme<'a>]>
    ensures { MatchOption result (HasNoStar (tokens_seen tokens.now)) (λ x. StartsWith (Signed Star) tokens.now x.now) }
{
    match next(tokens) {
        Some((Token::Sign(Sign::Star), rest)) => Some(rest),
        _ => None,
    }
}

/// The text in quotes in front, and what follows it.
pub fn behind_quoted<'a, 't>(
    alloc: Global,
    tokens: &'t [Lexeme<'a>],
) -> Result<Option<(Text, &'t [Lexeme<'a>])>, AllocError>
    ensures { IfOk result (λ q. MatchOption q (HasNoQuoted (tokens_seen tokens.now)) (λ x. StartsWithQuoted x.0 tokens.now x.1.now)) }
{
    match next(tokens) {
        Some((Token::Quoted(bytes), rest)) => match unquoted(alloc, bytes) {
            Ok(text) => Ok(Some((text, rest))),
            Err(Failure::Fault(_)) => Ok(None),
            Err(Failure::Memory) => Err(AllocError),
        },
        _ => Ok(None),
    }
}

/// What follows a dot, if it stands in front.
pub fn behind_dot<'a, 't>(tokens: &'t [Lexeme<'a>]) -> Option<&'t [Lexeme<'a>]>
    ensures { MatchOption result (HasNoDot (tokens_seen tokens.now)) (λ x. StepsOver (Signed Dot) tokens.now x.now) }
{
    match next(tokens) {
        Some((Token::Sign(Sign::Dot), rest)) => Some(rest),
        _ => None,
    }
}

/// What follows a blank, if it stands in front.
pub fn behind_blank<'a, 't>(tokens: &'t [Lexeme<'a>]) -> Option<&'t [Lexeme<'a>]>
    ensures { MatchOption result (HasNoBlank (tokens_seen tokens.now)) (λ x. StepsOver Blank tokens.now x.now) }
{
    match next(tokens) {
        Some((Token::Blank, rest)) => Some(rest),
        _ => None,
    }
}

/// How many blanks stand in front, and what follows them.
pub fn behind_blanks<'a, 't>(tokens: &'t [Lexeme<'a>]) -> (usize, &'t [Lexeme<'a>])
    ensures blanks { tokens_seen tokens.now ≡ replicate result.0 Blank ++ tokens_seen result.1.now }
    ensures none { HasNoBlank (tokens_seen result.1.now) }
    ensures count { result.0 + length result.1.now ≡ length tokens.now }
{
    match behind_blank(tokens) {
        None => (0, tokens),
        Some(behind) => {
            let mut count = 1;
            let mut rest = behind;
            'blanks: while let Some(more) = behind_blank(rest) {
                count += 1;
                rest = more;
            }
            (count, rest)
        }
    }
}

/// Gives the tokens, where a command may end before them: at a blank, a comment or the line's end.
pub fn parted<'a, 't>(tokens: &'t [Lexeme<'a>]) -> Result<&'t [Lexeme<'a>], ParseError>
    ensures ok { IfOk result (λ x. (x.now ≡ tokens.now) × HasParted (tokens_seen tokens.now)) }
    ensures other { IfErr result (λ _. HasOther (tokens_seen tokens.now)) }
    ensures refused { IfErr result (λ e. (limited : Bool) → Refuses limited e (refused (tokens_seen tokens.now))) }
{
    match next(tokens) {
        None => Ok(tokens),
        Some((token, _)) => match token {
            Token::Blank => Ok(tokens),
            Token::Comment(_) => Ok(tokens),
            _ => Err(stuck(tokens)),
        },
    }
}
