// Lists of items with commas between them.

ghost use Rattle.std.specs.Prelude.{◌≡◌, ◌≤◌, Option, IfOk, Some, length, List};
ghost use Rattle.mj_ast.specs.Commands.{Part, Put};
ghost use Rattle.mj_ast.specs.Tokens.{Token};
ghost use Rattle.mj_ast.specs.declared.sign.Sign.TheVariants.{Close, Comma};
ghost use Rattle.mj_lex.specs.Seen.{tokens_seen};
ghost use Rattle.mj_line.specs.Forms.{Node, takes};
ghost use Rattle.mj_cmd.specs.Heads.{HasNoComma, HasParted};
ghost use Rattle.mj_cmd.specs.Lists.{AreItems, IsOver, IsUnclosed, AreEnclosed};
ghost use Rattle.mj_cmd.specs.Readers.{PassesList, PassesMore};

use crate::parts::{behind_close, behind_comma, parted, stuck};
use crate::phrase::Phrases;
use mj_expr::{ParseError, added};
use mj_lex::Lexeme;

/// What stands between commas.
pub trait Item: Drop + Sized {
    // the lists of such items, where there are several
    ghost lists: { Type 0 } = { Unit {0} };

    // the places in a list where the first is wanted, where another is, and behind one
    ghost first_at: { lists → Node };

    ghost more_at: { lists → Node };

    ghost behind_at: { lists → Node };

    // before these tokens the first is wanted
    ghost begins: { lists → List Token → Type 0 };

    // the parts are those of the item, as it may be written
    ghost spells: { List Part → Self → Type 0 };

    /// Reads one, the first or another.
    fn read<'a, 't>(
        phrases: Phrases,
        tokens: &'t [Lexeme<'a>],
    ) -> Result<(Self, &'t [Lexeme<'a>]), ParseError>
        ensures shorter { IfOk result (λ x. length x.1.now ≤ length tokens.now) }
        ensures first { PassesList phrases.limited begins (λ ps x. spells ps x.0) (λ x. x.1.now) result tokens.now first_at behind_at }
        ensures more { PassesMore phrases.limited (λ ps x. spells ps x.0) (λ x. x.1.now) result tokens.now more_at behind_at };

    ghost comma: { (q : lists) → takes (behind_at q) (Put Comma) ≡ Some (more_at q) };
}

/// Arguments, which end where the command does.
pub trait Argument: Item {
    // where neither a comma nor the end of the command stands, nothing goes on
    ghost over: { (q : Self.lists) → IsOver (Self.behind_at q) };
}

/// What stands in a list in parentheses.
pub trait Enclosed: Item {
    // the place behind the `)`, by the one before it
    ghost closed_at: { Node → Node };

    ghost close: { (q : Self.lists) → takes (Self.behind_at q) (Put Close) ≡ Some (closed_at (Self.behind_at q)) };

    // where neither a comma nor a `)` stands, nothing goes on
    ghost unclosed: { (q : Self.lists) → IsUnclosed (Self.behind_at q) };
}

/// Reads the items, of which there is one at least, up to where no comma follows.
fn items<'a, 't, T: Item>(
    phrases: Phrases,
    tokens: &'t [Lexeme<'a>],
) -> Result<(Vec<T>, &'t [Lexeme<'a>]), ParseError>
    ensures shorter { IfOk result (λ x. length x.1.now ≤ length tokens.now) }
    ensures some { IfOk result (λ x. 1 ≤ length x.0.items) }
    ensures over { IfOk result (λ x. HasNoComma (tokens_seen x.1.now)) }
    ensures reads { PassesList phrases.limited T.begins (λ ps x. AreItems T.spells ps x.0.items) (λ x. x.1.now) result tokens.now T.first_at T.behind_at }
{
    let mut items = Vec::new(phrases.alloc);
    let (first, mut rest) = T::read(phrases, tokens)?;
    added(&mut items, first)?;
    'commas: while let Some(behind) = behind_comma(rest) {
        let (item, behind) = T::read(phrases, behind)?;
        added(&mut items, item)?;
        rest = behind;
    }
    Ok((items, rest))
}

/// Reads the arguments of a command, of which there is one at least, up to where it ends.
pub fn arguments<'a, 't, T: Argument>(
    phrases: Phrases,
    tokens: &'t [Lexeme<'a>],
) -> Result<(Vec<T>, &'t [Lexeme<'a>]), ParseError>
    ensures shorter { IfOk result (λ x. length x.1.now ≤ length tokens.now) }
    ensures parted { IfOk result (λ x. HasParted (tokens_seen x.1.now)) }
    ensures reads { PassesList phrases.limited T.begins (λ ps x. AreItems T.spells ps x.0.items) (λ x. x.1.now) result tokens.now T.first_at T.behind_at }
{
    let (items, rest) = items(phrases, tokens)?;
    let rest = parted(rest)?;
    Ok((items, rest))
}

/// Reads the items of a list in parentheses behind its `(`, of which there is one at least, and the `)` that closes it.
pub fn listed<'a, 't, T: Enclosed>(
    phrases: Phrases,
    tokens: &'t [Lexeme<'a>],
) -> Result<(Vec<T>, &'t [Lexeme<'a>]), ParseError>
    ensures shorter { IfOk result (λ x. length x.1.now ≤ length tokens.now) }
    ensures some { IfOk result (λ x. 1 ≤ length x.0.items) }
    ensures reads { PassesList phrases.limited T.begins (λ ps x. AreEnclosed T.spells ps x.0.items) (λ x. x.1.now) result tokens.now
        T.first_at (λ q. T.closed_at (T.behind_at q)) }
{
    let (items, rest) = items(phrases, tokens)?;
    match behind_close(rest) {
        None => Err(stuck(rest)),
        Some(behind) => Ok((items, behind)),
    }
}
