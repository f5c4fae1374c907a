// Lines.

ghost use Rattle.std.specs.Prelude.{◌≡◌, ◌+◌, ◌<◌, ◌≤◌, Bool, IfErr, IfOk, MatchOption, None, is_some, length, map};
ghost use Rattle.mj_ast.specs.Trees.{line_of, step_of};
ghost use Rattle.mj_expr.specs.Machine.{Limits};
ghost use Rattle.mj_lex.specs.Seen.{tokens_seen};
ghost use Rattle.mj_line.specs.Machine.{At, Begin};
ghost use Rattle.mj_cmd.specs.Heads.{HasNoBlank, HasNoWord, IsLabelShort, IsUnlabelled, label_spot};
ghost use Rattle.mj_cmd.specs.Reads.{AreWritten, IsWrittenLine, ReadsTokens};
ghost use Rattle.mj_ast.specs.Lines.{HasOverlong};
ghost use Rattle.mj_cmd.specs.Said.{IsLate, IsRead, RefusalSays};
ghost use Rattle.mj_cmd.specs.Readers.{EndsBehind, EndsLine, EndsWith, HasDots, ReadsDots, ReadsHead};

use crate::command::step;
use crate::formals::formals;
use crate::keyword::verb_of;
use crate::kill::word_text;
use crate::parts::{
    WORD_LIMIT, behind_blank, behind_blanks, behind_dot, behind_word, parted, stuck,
};
use crate::phrase::Phrases;
use mj_ast::{Line, LineCommand};
use mj_expr::{ParseError, added};
use mj_lex::{Lexeme, Token, next};
use mj_text::Text;
use std::alloc::Global;

/// Reads a label, if one stands in front, and what follows it.
fn label<'a, 't>(
    alloc: Global,
    tokens: &'t [Lexeme<'a>],
) -> Result<(Option<Text>, &'t [Lexeme<'a>]), ParseError>
    requires { IsLabelShort (tokens_seen tokens.now) }
    ensures shorter { IfOk result (λ x. length x.1.now ≤ length tokens.now) }
    ensures none { IfOk result (λ x. x.0 ≡ None → IsUnlabelled (tokens_seen x.1.now)) }
    ensures reads { (m : Limits) → (limited : Bool) → ReadsTokens limited (λ x. x.0) (λ x. x.1.now) result m tokens.now (At Begin) (λ l. At (label_spot l)) }
{
    match next(tokens) {
        None => Ok((None, tokens)),
        Some((token, rest)) => match token {
            Token::Word(word) => {
                if word.len() <= WORD_LIMIT {
                    let text = word_text(alloc, word)?;
                    Ok((Some(text), rest))
                } else {
                    Err(ParseError::Long)
                }
            }
            Token::Digits(digits) => {
                let text = word_text(alloc, digits)?;
                Ok((Some(text), rest))
            }
            _ => Ok((None, tokens)),
        },
    }
}

/// Reads a label with its formals, if one stands in front, and what follows them.
fn head<'a, 't>(
    alloc: Global,
    tokens: &'t [Lexeme<'a>],
) -> Result<(Option<Text>, Vec<Text>, &'t [Lexeme<'a>]), ParseError>
    requires { IsLabelShort (tokens_seen tokens.now) }
    ensures shorter { IfOk result (λ x. length x.2.now ≤ length tokens.now) }
    ensures reads { ReadsHead (λ x. x.0) (λ x. x.1.items) (λ x. x.2.now) result tokens.now }
{
    let (label, rest) = label(alloc, tokens)?;
    match label {
        None => Ok((None, Vec::new(alloc), rest)),
        Some(label) => {
            let (formals, rest) = formals(alloc, rest)?;
            Ok((Some(label), formals, rest))
        }
    }
}

/// How many dots stand in front, behind a blank that was read, and what follows them. Blanks may stand before and behind each.
fn dots<'a, 't>(tokens: &'t [Lexeme<'a>]) -> (usize, &'t [Lexeme<'a>])
    ensures count { result.0 + length result.1.now ≤ length tokens.now }
    ensures goes { HasDots result.0 tokens.now result.1.now }
{
    let (_, mut rest) = behind_blanks(tokens);
    let mut dots = 0;
    'dots: while let Some(behind) = behind_dot(rest) {
        let (_, behind) = behind_blanks(behind);
        dots += 1;
        rest = behind;
    }
    (dots, rest)
}

/// Reads the dots behind a label and its formals, or where there is no label, and what follows them, if a line goes on so: a
/// blank before them, the end, or without a label a comment.
fn indent<'a, 't>(
    labelled: bool,
    tokens: &'t [Lexeme<'a>],
) -> Result<(usize, &'t [Lexeme<'a>]), ParseError>
    ensures count { IfOk result (λ x. x.0 + length x.1.now ≤ length tokens.now) }
    ensures reads { ReadsDots (λ x. x.0) (λ x. x.1.now) result labelled tokens.now }
{
    match behind_blank(tokens) {
        Some(behind) => Ok(dots(behind)),
        None => {
            if labelled && !tokens.is_empty() {
                return Err(stuck(tokens));
            }
            let rest = parted(tokens)?;
            Ok((0, rest))
        }
    }
}

/// Reads the end of a line behind its commands: nothing, or a comment.
fn ended(tokens: &[Lexeme]) -> Result<(), ParseError>
    requires word { HasNoWord (tokens_seen tokens.now) }
    requires blank { HasNoBlank (tokens_seen tokens.now) }
    ensures { EndsBehind result tokens.now }
{
    match next(tokens) {
        None => Ok(()),
        Some((token, behind)) => match token {
            Token::Comment(_) => {
                if behind.is_empty() {
                    Ok(())
                } else {
                    Err(stuck(behind))
                }
            }
            _ => Err(stuck(tokens)),
        },
    }
}

/// Reads the commands behind the blanks in front, if there are some, up to a comment or the line's end.
fn steps(phrases: Phrases, tokens: &[Lexeme]) -> Result<Vec<LineCommand>, ParseError>
    ensures { EndsWith phrases.limited (λ cs v. AreWritten cs (map step_of v.items)) result tokens.now }
{
    let mut steps = Vec::new(phrases.alloc);
    let (_, mut rest) = behind_blanks(tokens);
    'steps: while let Some((word, behind)) = behind_word(rest) {
        match verb_of(word) {
            None => return Err(stuck(rest)),
            Some(verb) => {
                let (read, behind) = step(phrases, verb, behind)?;
                added(&mut steps, read)?;
                let (_, behind) = behind_blanks(behind);
                rest = behind;
            }
        }
    }
    match ended(rest) {
        Ok(()) => Ok(steps),
        Err(stop) => Err(stop),
    }
}

/// Reads the line that the tokens spell, its phrases in this way.
fn line_by(phrases: Phrases, tokens: &[Lexeme]) -> Result<Line, ParseError>
    requires { IsLabelShort (tokens_seen tokens.now) }
    ensures { EndsLine phrases.limited (λ s l. IsWrittenLine s (line_of l)) result tokens.now }
{
    let (label, formals, rest) = head(phrases.alloc, tokens)?;
    let (dots, rest) = indent(label.is_some(), rest)?;
    let steps = steps(phrases, rest)?;
    Ok(Line {
        label,
        formals,
        level: dots + 1,
        steps,
    })
}

/// Says what a reading without the depth limit comes to: a word or a list over its limit, or want of memory.
fn late(alloc: Global, tokens: &[Lexeme]) -> Option<ParseError>
    requires { IsLabelShort (tokens_seen tokens.now) }
    ensures { MatchOption result (HasOverlong (tokens_seen tokens.now) → ⊥) (λ e. IsLate (tokens_seen tokens.now) e) }
{
    let unlimited = Phrases {
        alloc,
        limited: false,
    };
    let Err(stop) = line_by(unlimited, tokens) else {
        return None;
    };
    match stop {
        ParseError::Long => Some(ParseError::Long),
        ParseError::Memory => Some(ParseError::Memory),
        ParseError::Stuck(_) => None,
        ParseError::Deep(_) => None,
    }
}

/// The line that the tokens spell, or why they spell none. A level too many doesn't end the search for a word or a list over
/// its limit. A label of digits may have as many bytes as a text.
pub fn line(alloc: Global, tokens: &[Lexeme]) -> Result<Line, ParseError>
    requires { IsLabelShort (tokens_seen tokens.now) }
    ensures read { IfOk result (λ l. IsRead (tokens_seen tokens.now) (line_of l)) }
    ensures refused { IfErr result (λ e. RefusalSays (tokens_seen tokens.now) e) }
{
    let limited = Phrases {
        alloc,
        limited: true,
    };
    match line_by(limited, tokens) {
        Ok(line) => Ok(line),
        Err(stop) => match stop {
            ParseError::Deep(left) => match late(alloc, tokens) {
                Some(other) => Err(other),
                None => Err(ParseError::Deep(left)),
            },
            ParseError::Stuck(left) => Err(ParseError::Stuck(left)),
            ParseError::Long => Err(ParseError::Long),
            ParseError::Memory => Err(ParseError::Memory),
        },
    }
}
