// Formats, in WRITE and in READ.

ghost use Rattle.std.specs.Prelude.{◌≡◌, ◌++◌, ◌≤◌, IfErr, IfOk, false, length, map, option_map, true};
ghost use Rattle.mj_ast.specs.Commands.{column_parts, layout_parts};
ghost use Rattle.mj_ast.specs.Tokens.{Signed};
ghost use Rattle.mj_ast.specs.Trees.{expr_of, layout_of};
ghost use Rattle.mj_expr.specs.declared.stop.ParseError.TheVariants.{Memory};
ghost use Rattle.mj_lex.specs.Seen.{tokens_seen};
ghost use Rattle.mj_line.specs.Forms.{OutputEnd, OutputWanted};
ghost use Rattle.mj_cmd.specs.Heads.{HasNoMark, HasNoQuestion, StartsLayout};
ghost use Rattle.mj_cmd.specs.Parts.{MayBeColumn, mark_sign};
ghost use Rattle.mj_cmd.specs.Readers.{PassesEach, PassesWherePaired};

use crate::parts::{behind_mark, behind_question};
use crate::phrase::Phrases;
use mj_ast::{Expr, FormatMark, Layout, Sign};
use mj_expr::{ParseError, added};
use mj_lex::{Lexeme, Token, next};

/// Reads the marks in front, and what follows them.
fn marks<'a, 't>(
    phrases: Phrases,
    tokens: &'t [Lexeme<'a>],
) -> Result<(Vec<FormatMark>, &'t [Lexeme<'a>]), ParseError>
    ensures marks { IfOk result (λ x. tokens_seen tokens.now ≡ map (λ m. Signed (mark_sign m)) x.0.items ++ tokens_seen x.1.now) }
    ensures none { IfOk result (λ x. HasNoMark (tokens_seen x.1.now)) }
    ensures shorter { IfOk result (λ x. length x.1.now ≤ length tokens.now) }
    ensures memory { IfErr result (λ e. e ≡ Memory) }
{
    let mut marks = Vec::new(phrases.alloc);
    match behind_mark(tokens) {
        None => Ok((marks, tokens)),
        Some((first, behind)) => {
            added(&mut marks, first)?;
            let mut rest = behind;
            'marks: while let Some((mark, behind)) = behind_mark(rest) {
                added(&mut marks, mark)?;
                rest = behind;
            }
            Ok((marks, rest))
        }
    }
}

/// Reads the column behind marks, if there is one.
fn column<'a, 't>(
    phrases: Phrases,
    tokens: &'t [Lexeme<'a>],
) -> Result<(Option<Expr>, &'t [Lexeme<'a>]), ParseError>
    ensures shorter { IfOk result (λ x. length x.1.now ≤ length tokens.now) }
    ensures reads { PassesWherePaired phrases.limited MayBeColumn (λ x. column_parts (option_map expr_of x.0)) (λ x. x.1.now) result tokens.now
        (λ _ n. n) OutputEnd }
{
    match behind_question(tokens) {
        None => Ok((None, tokens)),
        Some(behind) => {
            let (column, rest) = phrases.expression(0, behind)?;
            Ok((Some(column), rest))
        }
    }
}

/// Whether a format begins with the token in front.
pub fn begins_layout(tokens: &[Lexeme]) -> bool
    ensures yes { result ≡ true → StartsLayout (tokens_seen tokens.now) }
    ensures no { result ≡ false → HasNoMark (tokens_seen tokens.now) × HasNoQuestion (tokens_seen tokens.now) }
{
    matches!(
        next(tokens),
        Some((
            Token::Sign(Sign::Exclamation | Sign::Hash | Sign::Question),
            _
        ))
    )
}

/// Reads the format in front: its marks and its column.
pub fn layout<'a, 't>(
    phrases: Phrases,
    tokens: &'t [Lexeme<'a>],
) -> Result<(Layout, &'t [Lexeme<'a>]), ParseError>
    requires { StartsLayout (tokens_seen tokens.now) }
    ensures shorter { IfOk result (λ x. length x.1.now ≤ length tokens.now) }
    ensures reads { PassesEach phrases.limited (λ x. layout_parts (layout_of x.0)) (λ x. x.1.now) result tokens.now OutputWanted OutputEnd }
{
    let (marks, rest) = marks(phrases, tokens)?;
    match column(phrases, rest) {
        Ok((column, rest)) => Ok((Layout { marks, column }, rest)),
        Err(stop) => {
            drop(marks); // for the proof
            Err(stop)
        }
    }
}
