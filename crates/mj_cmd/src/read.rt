// The arguments of READ.

ghost use Rattle.std.specs.Prelude.{◌≡◌, ◌++◌, ◌≤◌, IfOk, length, option_map, refl};
ghost use Rattle.mj_ast.specs.Commands.{guard_parts, input_parts, received_parts};
ghost use Rattle.mj_ast.specs.Trees.{expr_of, input_of, received_of};
ghost use Rattle.mj_lex.specs.Seen.{tokens_seen};
ghost use Rattle.mj_line.specs.Forms.{IntoEnd, OutputEnd, OutputWanted, Reads as InRead};
ghost use Rattle.mj_cmd.specs.Parts.{MayBeInto, read_tokens};
ghost use Rattle.mj_cmd.specs.Readers.{PassesIn, PassesReceived};

use crate::layout::{begins_layout, layout};
use crate::list::{Argument, Item};
use crate::parts::{behind_colon, behind_quoted, behind_star};
use crate::phrase::Phrases;
use mj_ast::{Expr, Input, ReadMode, Received};
use mj_expr::ParseError;
use mj_lex::Lexeme;

/// Reads how much is taken, by the `*` in front if there is one, and what follows that.
fn read_mode<'a, 't>(tokens: &'t [Lexeme<'a>]) -> (ReadMode, &'t [Lexeme<'a>])
    ensures spelled { tokens_seen tokens.now ≡ read_tokens result.0 ++ tokens_seen result.1.now }
    ensures into { MayBeInto result.0 (tokens_seen result.1.now) }
    ensures shorter { length result.1.now ≤ length tokens.now }
{
    match behind_star(tokens) {
        Some(behind) => (ReadMode::Byte, behind),
        None => (ReadMode::Line, tokens),
    }
}

/// Reads the timeout behind a variable, if there is one.
fn timeout<'a, 't>(
    phrases: Phrases,
    tokens: &'t [Lexeme<'a>],
) -> Result<(Option<Expr>, &'t [Lexeme<'a>]), ParseError>
    ensures shorter { IfOk result (λ x. length x.1.now ≤ length tokens.now) }
    ensures reads { PassesIn phrases.limited (λ x. guard_parts (option_map expr_of x.0)) (λ x. x.1.now) result tokens.now IntoEnd (OutputEnd InRead) }
{
    match behind_colon(tokens) {
        None => Ok((None, tokens)),
        Some(behind) => {
            let (timeout, rest) = phrases.expression(0, behind)?;
            Ok((Some(timeout), rest))
        }
    }
}

/// Reads what is taken: how much, the variable that gets it, and its timeout.
fn received<'a, 't>(
    phrases: Phrases,
    tokens: &'t [Lexeme<'a>],
) -> Result<(Received, &'t [Lexeme<'a>]), ParseError>
    ensures shorter { IfOk result (λ x. length x.1.now ≤ length tokens.now) }
    ensures reads { PassesReceived phrases.limited (λ x. received_parts (received_of x.0)) (λ x. x.1.now) result tokens.now }
{
    let (mode, rest) = read_mode(tokens);
    let (variable, rest) = phrases.variable(0, rest)?;
    match timeout(phrases, rest) {
        Ok((timeout, rest)) => Ok((
            Received {
                mode,
                variable,
                timeout,
            },
            rest,
        )),
        Err(stop) => {
            drop(variable); // for the proof
            Err(stop)
        }
    }
}

/// Reads a format, a text in quotes, or what is taken.
fn input<'a, 't>(
    phrases: Phrases,
    tokens: &'t [Lexeme<'a>],
) -> Result<(Input, &'t [Lexeme<'a>]), ParseError>
    ensures shorter { IfOk result (λ x. length x.1.now ≤ length tokens.now) }
    ensures reads { PassesIn phrases.limited (λ x. input_parts (input_of x.0)) (λ x. x.1.now) result tokens.now (OutputWanted InRead) (OutputEnd InRead) }
{
    if begins_layout(tokens) {
        let (layout, rest) = layout(phrases, tokens)?;
        return Ok((Input::Format(layout), rest));
    }
    match behind_quoted(phrases.alloc, tokens)? {
        Some((value, behind)) => Ok((Input::Prompt(value), behind)),
        None => {
            let (received, rest) = received(phrases, tokens)?;
            Ok((Input::Into(received), rest))
        }
    }
}

impl Item for Input {
    ghost first_at = { λ _. OutputWanted InRead };

    ghost more_at = { λ _. OutputWanted InRead };

    ghost behind_at = { λ _. OutputEnd InRead };

    ghost begins = { λ _ _. Unit {0} };

    ghost spells = { λ ps x. ps ≡ input_parts (input_of x) };

    fn read<'a, 't>(
        phrases: Phrases,
        tokens: &'t [Lexeme<'a>],
    ) -> Result<(Input, &'t [Lexeme<'a>]), ParseError> {
        input(phrases, tokens)
    }

    ghost comma = { λ _. refl };
}

impl Argument for Input {
    ghost use Rattle.mj_cmd.specs.Lists.{output_over};

    ghost over = { λ _. output_over InRead };
}
