// The arguments of WRITE.

ghost use Rattle.std.specs.Prelude.{◌≡◌, ◌≤◌, IfOk, length, refl};
ghost use Rattle.mj_ast.specs.Commands.{output_parts};
ghost use Rattle.mj_ast.specs.Trees.{output_of};
ghost use Rattle.mj_lex.specs.Seen.{tokens_seen};
ghost use Rattle.mj_line.specs.Forms.{OutputEnd, OutputWanted, Writes};
ghost use Rattle.mj_cmd.specs.Readers.{PassesIn};

use crate::layout::{begins_layout, layout};
use crate::list::{Argument, Item};
use crate::parts::behind_star;
use crate::phrase::Phrases;
use mj_ast::Output;
use mj_expr::ParseError;
use mj_lex::Lexeme;

/// Reads a format, the code of a byte behind a `*`, or an expression.
fn output<'a, 't>(
    phrases: Phrases,
    tokens: &'t [Lexeme<'a>],
) -> Result<(Output, &'t [Lexeme<'a>]), ParseError>
    ensures shorter { IfOk result (λ x. length x.1.now ≤ length tokens.now) }
    ensures reads { PassesIn phrases.limited (λ x. output_parts (output_of x.0)) (λ x. x.1.now) result tokens.now (OutputWanted Writes) (OutputEnd Writes) }
{
    if begins_layout(tokens) {
        let (layout, rest) = layout(phrases, tokens)?;
        return Ok((Output::Format(layout), rest));
    }
    match behind_star(tokens) {
        Some(behind) => {
            let (code, rest) = phrases.expression(0, behind)?;
            Ok((Output::Code(code), rest))
        }
        None => {
            let (value, rest) = phrases.expression(0, tokens)?;
            Ok((Output::Value(value), rest))
        }
    }
}

impl Item for Output {
    ghost first_at = { λ _. OutputWanted Writes };

    ghost more_at = { λ _. OutputWanted Writes };

    ghost behind_at = { λ _. OutputEnd Writes };

    ghost begins = { λ _ _. Unit {0} };

    ghost spells = { λ ps x. ps ≡ output_parts (output_of x) };

    fn read<'a, 't>(
        phrases: Phrases,
        tokens: &'t [Lexeme<'a>],
    ) -> Result<(Output, &'t [Lexeme<'a>]), ParseError> {
        output(phrases, tokens)
    }

    ghost comma = { λ _. refl };
}

impl Argument for Output {
    ghost use Rattle.mj_cmd.specs.Lists.{output_over};

    ghost over = { λ _. output_over Writes };
}
