// The argument of TSTART.

ghost use Rattle.std.specs.Prelude.{◌∷◌, ◌<◌, ◌≤◌, Bool, IfOk, MatchOption, Some, [], length};
ghost use Rattle.mj_ast.specs.Commands.{Put, SerialWord, restartable_parts, restored_parts, serial_parts};
ghost use Rattle.mj_ast.specs.Trees.{restartable_of, restored_of};
ghost use Rattle.mj_ast.specs.declared.sign.Sign.TheVariants.{Close};
ghost use Rattle.mj_expr.specs.Machine.{Limits};
ghost use Rattle.mj_lex.specs.Seen.{tokens_seen};
ghost use Rattle.mj_line.specs.Forms.{RestartWanted, RestoredEnd, RestoredOpens, SerialEnd, SerialInside};
ghost use Rattle.mj_cmd.specs.Heads.{HasNoSerial, HasOther, HasParted, StartsWithSerial};
ghost use Rattle.mj_cmd.specs.Reads.{Passes};
ghost use Rattle.mj_cmd.specs.Parts.{enclosed_names};
ghost use Rattle.mj_cmd.specs.Readers.{PassesEver};

use crate::keyword::is_serial;
use crate::kill::{names, word_text};
use crate::parts::{
    behind_close, behind_colon, behind_name, behind_open, behind_star, behind_word, parted, stuck,
};
use crate::phrase::Phrases;
use mj_ast::{Restartable, Restored, Serial};
use mj_expr::ParseError;
use mj_lex::Lexeme;
use mj_text::Text;

/// Reads the names of a list behind its `(`, of which there may be none, and the `)` that closes it.
fn restored_names<'a, 't>(
    phrases: Phrases,
    tokens: &'t [Lexeme<'a>],
) -> Result<(Vec<Text>, &'t [Lexeme<'a>]), ParseError>
    ensures shorter { IfOk result (λ x. length x.1.now ≤ length tokens.now) }
    ensures reads { PassesEver phrases.limited (λ x. enclosed_names x.0.items) (λ x. x.1.now) result tokens.now RestoredOpens RestoredEnd }
{
    match behind_close(tokens) {
        None => names(phrases, tokens),
        Some(behind) => Ok((Vec::new(phrases.alloc), behind)),
    }
}

/// Reads which locals a restart restores: all, those of names in parentheses, or those of a name.
fn restored<'a, 't>(
    phrases: Phrases,
    tokens: &'t [Lexeme<'a>],
) -> Result<(Restored, &'t [Lexeme<'a>]), ParseError>
    requires { HasOther (tokens_seen tokens.now) }
    ensures shorter { IfOk result (λ x. length x.1.now ≤ length tokens.now) }
    ensures reads { PassesEver phrases.limited (λ x. restored_parts (restored_of x.0)) (λ x. x.1.now) result tokens.now RestartWanted RestoredEnd }
{
    if let Some(rest) = behind_star(tokens) {
        return Ok((Restored::All, rest));
    }
    match behind_open(tokens) {
        None => match behind_name(tokens) {
            None => Err(stuck(tokens)),
            Some((word, rest)) => {
                let name = word_text(phrases.alloc, word)?;
                Ok((Restored::One(name), rest))
            }
        },
        Some(behind) => {
            let (names, rest) = restored_names(phrases, behind)?;
            Ok((Restored::Several(names), rest))
        }
    }
}

/// What follows the word that makes a transaction SERIAL, if it stands in front.
fn behind_serial<'a, 't>(tokens: &'t [Lexeme<'a>]) -> Option<&'t [Lexeme<'a>]>
    ensures { MatchOption result (HasNoSerial (tokens_seen tokens.now)) (λ x. StartsWithSerial tokens.now x.now) }
{
    match behind_word(tokens) {
        None => None,
        Some((word, rest)) => {
            if is_serial(word) {
                return Some(rest);
            }
            None
        }
    }
}

/// What follows that word and a `)`, behind a `(`.
fn enclosed<'a, 't>(tokens: &'t [Lexeme<'a>]) -> Result<&'t [Lexeme<'a>], ParseError>
    ensures shorter { IfOk result (λ x. length x.now ≤ length tokens.now) }
    ensures reads { (limited : Bool) → PassesEver limited (λ x. SerialWord ∷ Put Close ∷ []) (λ x. x.now) result tokens.now SerialInside SerialEnd }
{
    match behind_serial(tokens) {
        None => Err(stuck(tokens)),
        Some(behind) => match behind_close(behind) {
            None => Err(stuck(behind)),
            Some(rest) => Ok(rest),
        },
    }
}

/// Reads how the transaction is said to be SERIAL, behind the locals that are restored.
fn serial<'a, 't>(tokens: &'t [Lexeme<'a>]) -> Result<(Serial, &'t [Lexeme<'a>]), ParseError>
    ensures shorter { IfOk result (λ x. length x.1.now ≤ length tokens.now) }
    ensures reads { (limited : Bool) → (m : Limits) → Passes limited (λ x. serial_parts x.0) (λ x. x.1.now) result m tokens.now RestoredEnd SerialEnd }
{
    match behind_colon(tokens) {
        None => Ok((Serial::No, tokens)),
        Some(colon) => match behind_serial(colon) {
            Some(rest) => Ok((Serial::Bare, rest)),
            None => match behind_open(colon) {
                None => Err(stuck(colon)),
                Some(open) => {
                    let rest = enclosed(open)?;
                    Ok((Serial::Enclosed, rest))
                }
            },
        },
    }
}

/// Reads how it is said to be SERIAL, up to where the command ends.
fn last<'a, 't>(tokens: &'t [Lexeme<'a>]) -> Result<(Serial, &'t [Lexeme<'a>]), ParseError>
    ensures shorter { IfOk result (λ x. length x.1.now ≤ length tokens.now) }
    ensures parted { IfOk result (λ x. HasParted (tokens_seen x.1.now)) }
    ensures reads { (limited : Bool) → (m : Limits) → Passes limited (λ x. serial_parts x.0) (λ x. x.1.now) result m tokens.now RestoredEnd SerialEnd }
{
    let (serial, rest) = serial(tokens)?;
    let rest = parted(rest)?;
    Ok((serial, rest))
}

/// Reads the argument of TSTART, up to where the command ends: which locals a restart restores, and whether the transaction is
/// SERIAL.
pub fn restartable<'a, 't>(
    phrases: Phrases,
    tokens: &'t [Lexeme<'a>],
) -> Result<(Restartable, &'t [Lexeme<'a>]), ParseError>
    requires { HasOther (tokens_seen tokens.now) }
    ensures shorter { IfOk result (λ x. length x.1.now ≤ length tokens.now) }
    ensures parted { IfOk result (λ x. HasParted (tokens_seen x.1.now)) }
    ensures reads { PassesEver phrases.limited (λ x. restartable_parts (Some (restartable_of x.0))) (λ x. x.1.now) result tokens.now RestartWanted SerialEnd }
{
    let (restored, rest) = restored(phrases, tokens)?;
    match last(rest) {
        Ok((serial, rest)) => Ok((Restartable { restored, serial }, rest)),
        Err(stop) => {
            drop(restored); // for the proof
            Err(stop)
        }
    }
}
