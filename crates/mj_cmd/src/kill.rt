// The arguments of KILL and MERGE.

ghost use Rattle.std.specs.Prelude.{◌≡◌, ◌≤◌, IfErr, IfOk, false, length, refl, true};
ghost use Rattle.mj_ast.specs.Commands.{killed_parts, merged_parts};
ghost use Rattle.mj_ast.specs.Trees.{killed_of, merged_of};
ghost use Rattle.mj_expr.specs.declared.stop.ParseError.TheVariants.{Memory};
ghost use Rattle.mj_line.specs.Forms.{KillEnd, KillWanted, MergeEnd, MergeInto};
ghost use Rattle.mj_cmd.specs.Heads.{HasOther, HasArgument};
ghost use Rattle.mj_cmd.specs.Parts.{name_end, name_wanted, enclosed_names};
ghost use Rattle.mj_cmd.specs.Readers.{PassesEverEach, PassesIn, PassesWhere};

use crate::list::{Argument, Item};
use crate::parts::{behind_close, behind_comma, behind_equals, behind_name, behind_open, stuck};
use crate::phrase::Phrases;
use mj_ast::{Killed, Merged};
use mj_expr::{ParseError, added};
use mj_lex::Lexeme;
use mj_text::{TEXT_LIMIT, Text};
use std::alloc::Global;

/// Makes a text of a word.
pub fn word_text(alloc: Global, bytes: &[u8]) -> Result<Text, ParseError>
    requires { length bytes.now ≤ TEXT_LIMIT }
    ensures ok { IfOk result (λ t. t ≡ bytes.now) }
    ensures memory { IfErr result (λ e. e ≡ Memory) }
{
    match Text::from(alloc, bytes) {
        Ok(text) => Ok(text),
        Err(_) => Err(ParseError::Memory),
    }
}

/// Reads the names of a list behind its `(`, and the `)` that closes it.
pub fn names<'a, 't>(
    phrases: Phrases,
    tokens: &'t [Lexeme<'a>],
) -> Result<(Vec<Text>, &'t [Lexeme<'a>]), ParseError>
    ensures shorter { IfOk result (λ x. length x.1.now ≤ length tokens.now) }
    ensures reads { PassesEverEach phrases.limited (λ x. enclosed_names x.0.items) (λ x. x.1.now) result tokens.now name_wanted name_end }
{
    let mut names = Vec::new(phrases.alloc);
    match behind_name(tokens) {
        None => Err(stuck(tokens)),
        Some((first, behind)) => {
            let first = word_text(phrases.alloc, first)?;
            added(&mut names, first)?;
            let mut rest = behind;
            'commas: while let Some(behind) = behind_comma(rest) {
                match behind_name(behind) {
                    None => return Err(stuck(behind)),
                    Some((name, behind)) => {
                        let name = word_text(phrases.alloc, name)?;
                        added(&mut names, name)?;
                        rest = behind;
                    }
                }
            }
            match behind_close(rest) {
                None => Err(stuck(rest)),
                Some(behind) => Ok((names, behind)),
            }
        }
    }
}

/// Reads a variable, or names in parentheses.
fn killed<'a, 't>(
    phrases: Phrases,
    tokens: &'t [Lexeme<'a>],
) -> Result<(Killed, &'t [Lexeme<'a>]), ParseError>
    ensures shorter { IfOk result (λ x. length x.1.now ≤ length tokens.now) }
    ensures reads { PassesWhere phrases.limited HasArgument (λ x. killed_parts (killed_of x.0)) (λ x. x.1.now) result tokens.now KillWanted (λ _. KillEnd) }
{
    match behind_open(tokens) {
        None => {
            let (variable, rest) = phrases.variable(0, tokens)?;
            Ok((Killed::Tree(variable), rest))
        }
        Some(behind) => {
            let (names, rest) = names(phrases, behind)?;
            Ok((Killed::Except(names), rest))
        }
    }
}

impl Item for Killed {
    ghost first_at = { λ _. KillWanted true };

    ghost more_at = { λ _. KillWanted false };

    ghost behind_at = { λ _. KillEnd };

    ghost begins = { λ _. HasOther };

    ghost spells = { λ ps x. ps ≡ killed_parts (killed_of x) };

    fn read<'a, 't>(
        phrases: Phrases,
        tokens: &'t [Lexeme<'a>],
    ) -> Result<(Killed, &'t [Lexeme<'a>]), ParseError> {
        killed(phrases, tokens)
    }

    ghost comma = { λ _. refl };
}

impl Argument for Killed {
    ghost use Rattle.mj_cmd.specs.Lists.{kill_over};

    ghost over = { λ _. kill_over };
}

/// Reads a variable, `=` and the variable that is copied.
fn merged<'a, 't>(
    phrases: Phrases,
    tokens: &'t [Lexeme<'a>],
) -> Result<(Merged, &'t [Lexeme<'a>]), ParseError>
    ensures shorter { IfOk result (λ x. length x.1.now ≤ length tokens.now) }
    ensures reads { PassesIn phrases.limited (λ x. merged_parts (merged_of x.0)) (λ x. x.1.now) result tokens.now MergeInto MergeEnd }
{
    let (into, rest) = phrases.variable(0, tokens)?;
    match behind_equals(rest) {
        None => {
            drop(into); // for the proof
            Err(stuck(rest))
        }
        Some(behind) => match phrases.variable(0, behind) {
            Ok((from, rest)) => Ok((Merged { into, from }, rest)),
            Err(stop) => {
                drop(into); // for the proof
                Err(stop)
            }
        },
    }
}

impl Item for Merged {
    ghost first_at = { λ _. MergeInto };

    ghost more_at = { λ _. MergeInto };

    ghost behind_at = { λ _. MergeEnd };

    ghost begins = { λ _ _. Unit {0} };

    ghost spells = { λ ps x. ps ≡ merged_parts (merged_of x) };

    fn read<'a, 't>(
        phrases: Phrases,
        tokens: &'t [Lexeme<'a>],
    ) -> Result<(Merged, &'t [Lexeme<'a>]), ParseError> {
        merged(phrases, tokens)
    }

    ghost comma = { λ _. refl };
}

impl Argument for Merged {
    ghost use Rattle.mj_cmd.specs.Lists.{merge_over};

    ghost over = { λ _. merge_over };
}
