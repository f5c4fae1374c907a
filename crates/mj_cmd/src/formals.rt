// Formals, behind the label of a line.

ghost use Rattle.std.specs.Prelude.{◌∷◌, ◌++◌, ◌≡◌, ◌≤◌, IfOk, [], bytes_eq, length};
ghost use Rattle.std.specs.List.{list_any};
ghost use Rattle.mj_lex.specs.Seen.{tokens_seen};
ghost use Rattle.mj_line.specs.Machine.{FormalBehind, FormalWanted, FormalsEnd, FormalsOpened, Labelled};
ghost use Rattle.mj_cmd.specs.Readers.{ReadsFormals};

use crate::kill::word_text;
use crate::parts::{behind_close, behind_comma, behind_name, behind_open, stuck};
use mj_expr::{ParseError, added};
use mj_lex::Lexeme;
use mj_text::{Digits, Text};
use std::alloc::Global;

/// Whether one of the names is this one. Each is looked at, which serves: a line has at most 8,192 bytes.
fn is_among(names: &[Text], name: &[u8]) -> bool
    ensures { result ≡ list_any (bytes_eq name.now) names.now }
{
    names
        .iter()
        .any(|other| name == other.bytes(&mut Digits::new()))
}

/// Reads a name that isn't one of these, and what follows it.
fn formal<'a, 't>(
    alloc: Global,
    names: &[Text],
    tokens: &'t [Lexeme<'a>],
) -> Result<(Text, &'t [Lexeme<'a>]), ParseError>
    ensures shorter { IfOk result (λ x. length x.1.now ≤ length tokens.now) }
    ensures reads { ReadsFormals (λ x. names.now ++ x.0 ∷ []) (λ x. x.1.now) result tokens.now (λ l. FormalWanted l names.now) FormalBehind }
{
    match behind_name(tokens) {
        None => Err(stuck(tokens)),
        Some((name, rest)) => {
            if is_among(names, name) {
                return Err(stuck(tokens));
            }
            let text = word_text(alloc, name)?;
            Ok((text, rest))
        }
    }
}

/// Reads the names behind a `(`, with commas between them, or none, and what follows the `)`.
fn names<'a, 't>(
    alloc: Global,
    tokens: &'t [Lexeme<'a>],
) -> Result<(Vec<Text>, &'t [Lexeme<'a>]), ParseError>
    ensures shorter { IfOk result (λ x. length x.1.now ≤ length tokens.now) }
    ensures reads { ReadsFormals (λ x. x.0.items) (λ x. x.1.now) result tokens.now FormalsOpened FormalsEnd }
{
    let mut names = Vec::new(alloc);
    match behind_close(tokens) {
        Some(behind) => Ok((names, behind)),
        None => {
            let (first, mut rest) = formal(alloc, &names, tokens)?;
            added(&mut names, first)?;
            'commas: while let Some(behind) = behind_comma(rest) {
                let (name, behind) = formal(alloc, &names, behind)?;
                added(&mut names, name)?;
                rest = behind;
            }
            match behind_close(rest) {
                None => Err(stuck(rest)),
                Some(behind) => Ok((names, behind)),
            }
        }
    }
}

/// Reads the formals directly behind a label, and what follows them. Parentheses with nothing in them have none, as no
/// parentheses.
pub fn formals<'a, 't>(
    alloc: Global,
    tokens: &'t [Lexeme<'a>],
) -> Result<(Vec<Text>, &'t [Lexeme<'a>]), ParseError>
    ensures shorter { IfOk result (λ x. length x.1.now ≤ length tokens.now) }
    ensures reads { ReadsFormals (λ x. x.0.items) (λ x. x.1.now) result tokens.now Labelled FormalsEnd }
{
    match behind_open(tokens) {
        None => Ok((Vec::new(alloc), tokens)),
        Some(behind) => names(alloc, behind),
    }
}
