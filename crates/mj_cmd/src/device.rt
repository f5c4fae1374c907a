// The arguments of OPEN.

ghost use Rattle.std.specs.Prelude.{◌≡◌, ◌≤◌, IfOk, length, option_map, refl};
ghost use Rattle.mj_ast.specs.Commands.{opened_parts, wait_parts};
ghost use Rattle.mj_ast.specs.Trees.{expr_of, opened_of};
ghost use Rattle.mj_line.specs.Forms.{DeviceEnd, DeviceWaited, DeviceWanted};
ghost use Rattle.mj_cmd.specs.Readers.{PassesIn};

use crate::list::{Argument, Item};
use crate::parts::{behind_colon, stuck};
use crate::phrase::Phrases;
use mj_ast::{Expr, Opened};
use mj_expr::ParseError;
use mj_lex::Lexeme;

/// Reads the timeout behind two colons, if there is one.
fn wait<'a, 't>(
    phrases: Phrases,
    tokens: &'t [Lexeme<'a>],
) -> Result<(Option<Expr>, &'t [Lexeme<'a>]), ParseError>
    ensures shorter { IfOk result (λ x. length x.1.now ≤ length tokens.now) }
    ensures reads { PassesIn phrases.limited (λ x. wait_parts (option_map expr_of x.0)) (λ x. x.1.now) result tokens.now DeviceEnd DeviceWaited }
{
    match behind_colon(tokens) {
        None => Ok((None, tokens)),
        Some(behind) => match behind_colon(behind) {
            None => Err(stuck(behind)),
            Some(behind) => {
                let (timeout, rest) = phrases.expression(0, behind)?;
                Ok((Some(timeout), rest))
            }
        },
    }
}

/// Reads a device and its timeout.
fn opened<'a, 't>(
    phrases: Phrases,
    tokens: &'t [Lexeme<'a>],
) -> Result<(Opened, &'t [Lexeme<'a>]), ParseError>
    ensures shorter { IfOk result (λ x. length x.1.now ≤ length tokens.now) }
    ensures reads { PassesIn phrases.limited (λ x. opened_parts (opened_of x.0)) (λ x. x.1.now) result tokens.now DeviceWanted DeviceWaited }
{
    let (device, rest) = phrases.expression(0, tokens)?;
    match wait(phrases, rest) {
        Ok((timeout, rest)) => Ok((Opened { device, timeout }, rest)),
        Err(stop) => {
            drop(device); // for the proof
            Err(stop)
        }
    }
}

impl Item for Opened {
    ghost first_at = { λ _. DeviceWanted };

    ghost more_at = { λ _. DeviceWanted };

    ghost behind_at = { λ _. DeviceWaited };

    ghost begins = { λ _ _. Unit {0} };

    ghost spells = { λ ps x. ps ≡ opened_parts (opened_of x) };

    fn read<'a, 't>(
        phrases: Phrases,
        tokens: &'t [Lexeme<'a>],
    ) -> Result<(Opened, &'t [Lexeme<'a>]), ParseError> {
        opened(phrases, tokens)
    }

    ghost comma = { λ _. refl };
}

impl Argument for Opened {
    ghost use Rattle.mj_cmd.specs.Lists.{device_over};

    ghost over = { λ _. device_over };
}
