// Routines.

ghost use Rattle.std.specs.Prelude.{◌≡◌, ◌+◌, ◌≤◌, ◌<◌, ◌&&◌, ℕ, IfErr, IfOk, List, MatchOption, length, nat_le};
ghost use Rattle.std.specs.List.{list_all};
ghost use Rattle.std.specs.Result.{IsErrAnd};
ghost use Rattle.mj_ast.specs.Expressions.{name_limit};
ghost use Rattle.mj_ast.specs.Tokens.{Token as SpelledToken, lexemes as the_lexemes, column as the_column, tokens as the_tokens, begins_word, continues_word};
ghost use Rattle.mj_ast.specs.Lines.{HasLabelOf, label_of, line_limit};
ghost use Rattle.mj_ast.specs.Routines.{IsName, routine_limit};
ghost use Rattle.mj_ast.specs.Trees.{line_of, routine_of};
ghost use Rattle.mj_lex.specs.Seen.{placed, places_seen, tokens_seen};
ghost use Rattle.mj_cmd.specs.Said.{IsStuckWith};
ghost use Rattle.mj_rou.specs.Read.{IsLineRead, IsRefusedAlone, IsLineRefused, HoldsLabels, IsTwice, IsRoutineRead, IsRoutineRefused, label_seen, and_label};
ghost use Rattle.mj_rou.specs.Read.{is_word as the_word, is_name as the_name, IsRanked};
ghost use Rattle.mj_rou.specs.declared.error.LoadError.TheVariants.{Name};

use crate::error::{LineError, LoadError, RoutineName, at_line};
use crate::file::first_line;
use mj_ast::{LINE_LIMIT, Line, ROUTINE_LIMIT, Routine};
use mj_expr::ParseError;
use mj_lex::{Lexeme, Token, next, tokens_into};
use mj_text::Text;
use mj_unsupported::left_out;
use std::alloc::{AllocError, Global};
use std::collections::BTreeSet;
use std::str;

/// The most bytes of a name.
const NAME_LIMIT: usize = 31;

/// Whether a word begins with the byte.
fn begins(byte: u8) -> bool
    ensures { result ≡ begins_word byte }
{
    matches!(byte, b'A'..=b'Z' | b'a'..=b'z' | b'%')
}

/// Whether a word goes on with it.
fn continues(byte: u8) -> bool
    ensures { result ≡ continues_word byte }
{
    matches!(byte, b'A'..=b'Z' | b'a'..=b'z' | b'0'..=b'9')
}

/// Whether a word goes on with all of them.
fn all_continue(bytes: &[u8]) -> bool
    ensures { result ≡ list_all continues_word bytes.now }
{
    bytes.iter().all(|byte| continues(*byte))
}

/// Whether the bytes are a word.
fn is_word(bytes: &[u8]) -> bool
    ensures { result ≡ the_word bytes.now }
{
    match bytes {
        [] => false,
        [first, rest @ ..] => begins(*first) && all_continue(rest),
    }
}

/// Whether the bytes are a word of a length that a name may have.
fn is_name(bytes: &[u8]) -> bool
    ensures { result ≡ the_name bytes.now }
{
    is_word(bytes) && bytes.len() <= NAME_LIMIT
}

/// The name, if it is a word of a length that a name may have.
fn name_of(name: &[u8]) -> Option<RoutineName>
    ensures { MatchOption result (IsName name.now → ⊥) (λ r. IsName name.now × (r.bytes ≡ name.now)) }
{
    if !is_name(name) {
        return None;
    }
    match str::from_utf8(name) {
        Err(_) => None,
        Ok(text) => match RoutineName::from(text) {
            Err(_) => None,
            Ok(routine) => Some(routine),
        },
    }
}

/// The column of the token from which on so many are left, or of the line's end.
fn column(line: &[u8], lexemes: &[Lexeme], left: usize) -> usize
    requires short { length line.now ≤ line_limit }
    requires placed { places_seen lexemes.now ≡ placed 0 (the_lexemes line.now) }
    ensures { (place : ℕ) → place + left ≡ length lexemes.now → result ≡ the_column line.now place }
{
    if left == 0 || lexemes.len() < left {
        return line.len() + 1;
    }
    lexemes[lexemes.len() - left].at + 1
}

/// The label of a line, as far as its first token says.
fn label<'a>(lexemes: &[Lexeme<'a>]) -> Option<&'a [u8]>
    ensures { label_seen result ≡ label_of (tokens_seen lexemes.now) }
{
    match next(lexemes) {
        None => None,
        Some((token, _)) => match token {
            Token::Word(bytes) => Some(bytes),
            Token::Digits(bytes) => Some(bytes),
            _ => None,
        },
    }
}

/// Whether the label is kept.
fn is_kept<'a>(labels: &BTreeSet<&'a [u8]>, label: Option<&'a [u8]>) -> bool
    ensures { (before : List (List ℕ))
        → (ks : List SpelledToken) → HoldsLabels before labels.now → label_seen label.entry ≡ label_of ks → IsTwice result before ks }
{
    match label {
        None => false,
        Some(label) => labels.contains(&label),
    }
}

/// Keeps the label, if there is one.
fn keep<'a>(labels: &mut BTreeSet<&'a [u8]>, label: Option<&'a [u8]>) -> Result<(), AllocError>
    ensures { IfOk result (λ _. (before : List (List ℕ)) → HoldsLabels before labels.old → HoldsLabels (and_label before (label_seen label.entry)) labels.new) }
{
    let Some(label) = label else {
        return Ok(());
    };
    match labels.insert(label) {
        Ok(_) => Ok(()),
        Err(_) => Err(AllocError),
    }
}

/// The refusal of a line that is stuck where so many of its tokens are left: by the name of what stands there, if that is left out by
/// one.
fn stuck(alloc: Global, line: &[u8], lexemes: &[Lexeme], left: usize) -> LineError
    requires short { length line.now ≤ line_limit }
    requires placed { places_seen lexemes.now ≡ placed 0 (the_lexemes line.now) }
    requires stuck { IsStuckWith (tokens_seen lexemes.now) left }
    ensures { IsRefusedAlone line.now result }
{
    let column = column(line, lexemes, left);
    match left_out(alloc, lexemes, left) {
        Err(_) => LineError::Memory,
        Ok(None) => LineError::Stuck(column),
        Ok(Some(construct)) => LineError::LeftOut(column, construct),
    }
}

/// The tree of a line of these tokens.
fn tree_of(alloc: Global, line: &[u8], lexemes: &[Lexeme]) -> Result<Line, LineError>
    requires short { length line.now ≤ line_limit }
    requires placed { places_seen lexemes.now ≡ placed 0 (the_lexemes line.now) }
    ensures read { IfOk result (λ l. IsLineRead line.now (line_of l)) }
    ensures refused { IfErr result (λ e. IsRefusedAlone line.now e) }
{
    match mj_cmd::line(alloc, lexemes) {
        Ok(tree) => Ok(tree),
        Err(stop) => match stop {
            ParseError::Stuck(left) => Err(stuck(alloc, line, lexemes, left)),
            ParseError::Deep(left) => Err(LineError::Deep(column(line, lexemes, left))),
            ParseError::Long => Err(LineError::Long),
            ParseError::Memory => Err(LineError::Memory),
        },
    }
}

/// Which of two refusals is given: what is over its limit comes before a label that stands twice, that before the others.
fn ranked(refusal: LineError, twice: bool) -> LineError
    ensures { IsRanked refusal twice result }
{
    match refusal {
        LineError::Memory => LineError::Memory,
        LineError::Long => LineError::Long,
        LineError::Twice => LineError::Twice,
        LineError::Stuck(column) => {
            if twice {
                return LineError::Twice;
            }
            LineError::Stuck(column)
        }
        LineError::LeftOut(column, construct) => {
            if twice {
                return LineError::Twice;
            }
            LineError::LeftOut(column, construct)
        }
        LineError::Deep(column) => {
            if twice {
                return LineError::Twice;
            }
            LineError::Deep(column)
        }
    }
}

/// The tree of a line, and its label. `labels` are those of the lines before. The line's tokens take the place of those that the
/// list holds.
fn line_tree<'a>(
    alloc: Global,
    line: &'a [u8],
    labels: &BTreeSet<&'a [u8]>,
    lexemes: &mut Vec<Lexeme<'a>>,
) -> Result<(Line, Option<&'a [u8]>), LineError>
    ensures read { IfOk result (λ x. IsLineRead line.now (line_of x.0)) }
    ensures label { IfOk result (λ x. label_seen x.1 ≡ label_of (the_tokens line.now)) }
    ensures apart { IfOk result (λ x. (before : List (List ℕ)) → HoldsLabels before labels.now → HasLabelOf before (the_tokens line.now) → ⊥) }
    ensures refused { IfErr result (λ e. (before : List (List ℕ)) → HoldsLabels before labels.now → IsLineRefused before line.now e) }
{
    if line.len() > LINE_LIMIT {
        return Err(LineError::Long);
    }
    let Ok(()) = tokens_into(lexemes, line) else {
        return Err(LineError::Memory);
    };
    let lexemes = lexemes.as_slice();
    let label = label(lexemes);
    let twice = is_kept(labels, label);
    match tree_of(alloc, line, lexemes) {
        Err(refusal) => Err(ranked(refusal, twice)),
        Ok(tree) => {
            if twice {
                return Err(LineError::Twice);
            }
            Ok((tree, label))
        }
    }
}

/// Reads a routine of this name from the bytes of its file.
pub fn read(alloc: Global, name: &[u8], bytes: &[u8]) -> Result<Routine, LoadError>
    ensures name { IfOk result (λ routine. (routine.name ≡ name.now) × (length routine.name ≤ name_limit)) }
    ensures lines { IfOk result (λ routine. length routine.lines.items ≤ routine_limit) }
    ensures read { IfOk result (λ routine. IsName name.now × IsRoutineRead name.now bytes.now (routine_of routine)) }
    ensures refused { IfErr result (λ e. IsRoutineRefused name.now bytes.now e) }
    ensures unnamed { (IsName name.now → ⊥) → IsErrAnd result (λ e. e ≡ Name) }
{
    let Some(routine) = name_of(name) else {
        return Err(LoadError::Name);
    };
    let Ok(name) = Text::from(alloc, name) else {
        return Err(LoadError::Memory);
    };
    let mut lines = Vec::new(alloc);
    let mut labels = BTreeSet::new(alloc);
    let mut lexemes = Vec::new(alloc);
    let mut rest = bytes;
    'lines: while let Some((line, behind)) = first_line(rest) {
        let number = lines.len() + 1;
        if number > ROUTINE_LIMIT {
            return Err(at_line(LineError::Long, routine, number));
        }
        match line_tree(alloc, line, &labels, &mut lexemes) {
            Err(refusal) => return Err(at_line(refusal, routine, number)),
            Ok((tree, label)) => {
                if lines.push(tree).is_err() || keep(&mut labels, label).is_err() {
                    return Err(LoadError::Memory);
                }
            }
        }
        rest = behind;
    }
    Ok(Routine { name, lines })
}
