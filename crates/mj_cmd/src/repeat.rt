// The argument of FOR.

ghost use Rattle.std.specs.Prelude.{◌≡◌, ◌∷◌, ◌++◌, ◌≤◌, IfOk, [], length, map, refl};
ghost use Rattle.mj_ast.specs.Commands.{Control, Put, command_parts, range_parts};
ghost use Rattle.mj_ast.specs.Syntax.{For};
ghost use Rattle.mj_ast.specs.Trees.{range_of, variable_of};
ghost use Rattle.mj_ast.specs.declared.sign.Sign.TheVariants.{Equals};
ghost use Rattle.mj_lex.specs.Seen.{tokens_seen};
ghost use Rattle.mj_line.specs.Forms.{ForWanted, LimitEnd, RangeWanted};
ghost use Rattle.mj_cmd.specs.Heads.{HasOther, HasParted};
ghost use Rattle.mj_cmd.specs.Readers.{PassesIn};

use crate::list::{Argument, Item, arguments};
use crate::parts::{behind_caret, behind_colon, behind_equals, stuck};
use crate::phrase::Phrases;
use mj_ast::{Range, Variable};
use mj_expr::ParseError;
use mj_lex::Lexeme;

/// Reads a value; or numbers, by the first, the step and perhaps the last, with colons between them. What was read before a
/// refusal is given to `drop`: a function at whose ends expressions are dropped by themselves takes a long proof.
fn range<'a, 't>(
    phrases: Phrases,
    tokens: &'t [Lexeme<'a>],
) -> Result<(Range, &'t [Lexeme<'a>]), ParseError>
    ensures shorter { IfOk result (λ x. length x.1.now ≤ length tokens.now) }
    ensures reads { PassesIn phrases.limited (λ x. range_parts (range_of x.0)) (λ x. x.1.now) result tokens.now RangeWanted LimitEnd }
{
    let (first, rest) = phrases.expression(0, tokens)?;
    match behind_colon(rest) {
        None => Ok((Range::One(first), rest)),
        Some(behind) => match phrases.expression(0, behind) {
            Ok((step, rest)) => match behind_colon(rest) {
                None => Ok((Range::Endless(first, step), rest)),
                Some(behind) => match phrases.expression(0, behind) {
                    Ok((last, rest)) => Ok((Range::UpTo(first, step, last), rest)),
                    Err(stop) => {
                        drop(first); // for the proof
                        drop(step); // for the proof
                        Err(stop)
                    }
                },
            },
            Err(stop) => {
                drop(first); // for the proof
                Err(stop)
            }
        },
    }
}

impl Item for Range {
    ghost first_at = { λ _. RangeWanted };

    ghost more_at = { λ _. RangeWanted };

    ghost behind_at = { λ _. LimitEnd };

    ghost begins = { λ _ _. Unit {0} };

    ghost spells = { λ ps x. ps ≡ range_parts (range_of x) };

    fn read<'a, 't>(
        phrases: Phrases,
        tokens: &'t [Lexeme<'a>],
    ) -> Result<(Range, &'t [Lexeme<'a>]), ParseError> {
        range(phrases, tokens)
    }

    ghost comma = { λ _. refl };
}

impl Argument for Range {
    ghost use Rattle.mj_cmd.specs.Lists.{range_over};

    ghost over = { λ _. range_over };
}

/// Reads the local that is set at each pass, and the `=` behind it.
fn counter<'a, 't>(
    phrases: Phrases,
    tokens: &'t [Lexeme<'a>],
) -> Result<(Variable, &'t [Lexeme<'a>]), ParseError>
    requires { HasOther (tokens_seen tokens.now) }
    ensures shorter { IfOk result (λ x. length x.1.now ≤ length tokens.now) }
    ensures reads { PassesIn phrases.limited (λ x. Control (variable_of x.0) ∷ Put Equals ∷ []) (λ x. x.1.now) result tokens.now ForWanted RangeWanted }
{
    match behind_caret(tokens) {
        Some(_) => Err(stuck(tokens)),
        None => {
            let (counter, rest) = phrases.variable(0, tokens)?;
            match behind_equals(rest) {
                None => Err(stuck(rest)),
                Some(behind) => Ok((counter, behind)),
            }
        }
    }
}

/// Reads the argument of FOR, up to where the command ends: a local, and what it goes through.
pub fn repeated<'a, 't>(
    phrases: Phrases,
    tokens: &'t [Lexeme<'a>],
) -> Result<(Variable, Vec<Range>, &'t [Lexeme<'a>]), ParseError>
    requires { HasOther (tokens_seen tokens.now) }
    ensures shorter { IfOk result (λ x. length x.2.now ≤ length tokens.now) }
    ensures parted { IfOk result (λ x. HasParted (tokens_seen x.2.now)) }
    ensures reads { PassesIn phrases.limited (λ x. command_parts (For (variable_of x.0) (map range_of x.1.items))) (λ x. x.2.now) result tokens.now
        ForWanted LimitEnd }
{
    let (counter, rest) = counter(phrases, tokens)?;
    let (ranges, rest) = arguments(phrases, rest)?;
    Ok((counter, ranges, rest))
}
