// Commands, with their postconditions and their arguments.

ghost use Rattle.std.specs.Prelude.{◌≡◌, ◌∷◌, ◌≤◌, IfOk, [], length, option_map, true};
ghost use Rattle.mj_ast.specs.Tokens.{Blank};
ghost use Rattle.mj_line.specs.Forms.{may_be_bare as the_bare};
ghost use Rattle.mj_ast.specs.Syntax as tree;
ghost use Rattle.mj_ast.specs.declared.keyword.Verb.TheVariants.{Of};
ghost use Rattle.mj_ast.specs.Commands.{bare_of, command_parts, keyword_for, plain, is_conditional as the_conditional};
ghost use Rattle.mj_ast.specs.Trees.{expr_of, command_of, step_of};
ghost use Rattle.mj_lex.specs.Seen.{tokens_seen};
ghost use Rattle.mj_cmd.specs.Heads.{HasOther, HasParted};
ghost use Rattle.mj_cmd.specs.Reads.{IsMeant, IsWrittenStep, IsWrittenAfter};
ghost use Rattle.mj_cmd.specs.Readers.{ReadsArguments, ReadsCondition, ReadsStep};

use crate::control::given;
use crate::list::arguments;
use crate::parts::{behind_blank, behind_colon, parted, stuck};
use crate::phrase::Phrases;
use crate::repeat::repeated;
use crate::restart::restartable;
use mj_ast::{Command, Expr, Keyword, LineCommand, Verb};
use mj_expr::ParseError;
use mj_lex::Lexeme;
use std::alloc::Global;

/// Whether a postcondition may stand behind the word.
fn is_conditional(verb: Verb) -> bool
    ensures { result ≡ the_conditional (bare_of verb) }
{
    match verb {
        Verb::Of(keyword) => !matches!(keyword, Keyword::If | Keyword::Else | Keyword::For),
        Verb::HaltOrHang => true,
    }
}

/// Reads a postcondition, if there is one.
fn condition<'a, 't>(
    phrases: Phrases,
    verb: Verb,
    tokens: &'t [Lexeme<'a>],
) -> Result<(Option<Expr>, &'t [Lexeme<'a>]), ParseError>
    ensures shorter { IfOk result (λ x. length x.1.now ≤ length tokens.now) }
    ensures reads { ReadsCondition phrases.limited (λ x. option_map expr_of x.0) (λ x. x.1.now) result verb tokens.now }
{
    if !is_conditional(verb) {
        return Ok((None, tokens));
    }
    match behind_colon(tokens) {
        None => Ok((None, tokens)),
        Some(behind) => {
            let (condition, rest) = phrases.expression(0, behind)?;
            Ok((Some(condition), rest))
        }
    }
}

/// Whether the word may have no arguments.
pub fn may_be_bare(verb: Verb) -> bool
    ensures { result ≡ the_bare verb }
{
    match verb {
        Verb::Of(keyword) => !matches!(
            keyword,
            Keyword::Set
                | Keyword::Write
                | Keyword::Hang
                | Keyword::Job
                | Keyword::Merge
                | Keyword::Goto
                | Keyword::Open
                | Keyword::Use
                | Keyword::Close
                | Keyword::Read
        ),
        Verb::HaltOrHang => true,
    }
}

/// Finds the command that the word is without arguments.
fn bare_keyword(verb: Verb) -> Keyword
    ensures { result ≡ bare_of verb }
{
    match verb {
        Verb::Of(keyword) => keyword,
        Verb::HaltOrHang => Keyword::Halt,
    }
}

/// Makes the command without arguments.
fn bare(alloc: Global, keyword: Keyword) -> Command
    ensures named { keyword_for (command_of result) ≡ keyword }
    ensures parts { command_parts (command_of result) ≡ [] }
    ensures plain { plain (command_of result) ≡ command_of result }
{
    match keyword {
        Keyword::Set => Command::Set(Vec::new(alloc)),
        Keyword::Write => Command::Write(Vec::new(alloc)),
        Keyword::Halt => Command::Halt,
        Keyword::Hang => Command::Hang(Vec::new(alloc)),
        Keyword::Job => Command::Job(Vec::new(alloc)),
        Keyword::Lock => Command::Lock(Vec::new(alloc)),
        Keyword::Kill => Command::Kill(Vec::new(alloc)),
        Keyword::Merge => Command::Merge(Vec::new(alloc)),
        Keyword::If => Command::If(Vec::new(alloc)),
        Keyword::Else => Command::Else,
        Keyword::For => Command::Forever,
        Keyword::Do => Command::Do(Vec::new(alloc)),
        Keyword::Goto => Command::Goto(Vec::new(alloc)),
        Keyword::Quit => Command::Quit(None),
        Keyword::New => Command::New(Vec::new(alloc)),
        Keyword::Open => Command::Open(Vec::new(alloc)),
        Keyword::Use => Command::Use(Vec::new(alloc)),
        Keyword::Close => Command::Close(Vec::new(alloc)),
        Keyword::Read => Command::Read(Vec::new(alloc)),
        Keyword::TStart => Command::TStart(None),
        Keyword::TCommit => Command::TCommit,
        Keyword::TRestart => Command::TRestart,
        Keyword::TRollback => Command::TRollback,
        Keyword::Break => Command::Break,
    }
}

/// Reads the command with its arguments, which stand behind a blank: `tokens` are those from the blank on, `behind` those
/// behind it.
fn with_own<'a, 't>(
    phrases: Phrases,
    keyword: Keyword,
    tokens: &'t [Lexeme<'a>],
    behind: &'t [Lexeme<'a>],
) -> Result<(Command, &'t [Lexeme<'a>]), ParseError>
    requires blank { tokens_seen tokens.now ≡ Blank ∷ tokens_seen behind.now }
    requires room { length behind.now ≤ length tokens.now }
    requires other { the_bare (Of keyword) ≡ true → HasOther (tokens_seen behind.now) }
    ensures shorter { IfOk result (λ x. length x.1.now ≤ length behind.now) }
    ensures parted { IfOk result (λ x. HasParted (tokens_seen x.1.now)) }
    ensures reads { ReadsArguments phrases.limited (λ ps x. IsWrittenAfter keyword ps (command_of x.0)) (λ x. x.1.now) result (Of keyword) tokens.now }
{
    match keyword {
        Keyword::Set => {
            let (arguments, rest) = arguments(phrases, behind)?;
            Ok((Command::Set(arguments), rest))
        }
        Keyword::Write => {
            let (arguments, rest) = arguments(phrases, behind)?;
            Ok((Command::Write(arguments), rest))
        }
        Keyword::Hang => {
            let (arguments, rest) = arguments(phrases, behind)?;
            Ok((Command::Hang(arguments), rest))
        }
        Keyword::Job => {
            let (arguments, rest) = arguments(phrases, behind)?;
            Ok((Command::Job(arguments), rest))
        }
        Keyword::Lock => {
            let (arguments, rest) = arguments(phrases, behind)?;
            Ok((Command::Lock(arguments), rest))
        }
        Keyword::Kill => {
            let (arguments, rest) = arguments(phrases, behind)?;
            Ok((Command::Kill(arguments), rest))
        }
        Keyword::Merge => {
            let (arguments, rest) = arguments(phrases, behind)?;
            Ok((Command::Merge(arguments), rest))
        }
        Keyword::If => {
            let (arguments, rest) = arguments(phrases, behind)?;
            Ok((Command::If(arguments), rest))
        }
        Keyword::Do => {
            let (arguments, rest) = arguments(phrases, behind)?;
            Ok((Command::Do(arguments), rest))
        }
        Keyword::Goto => {
            let (arguments, rest) = arguments(phrases, behind)?;
            Ok((Command::Goto(arguments), rest))
        }
        Keyword::New => {
            let (arguments, rest) = arguments(phrases, behind)?;
            Ok((Command::New(arguments), rest))
        }
        Keyword::Open => {
            let (arguments, rest) = arguments(phrases, behind)?;
            Ok((Command::Open(arguments), rest))
        }
        Keyword::Use => {
            let (arguments, rest) = arguments(phrases, behind)?;
            Ok((Command::Use(arguments), rest))
        }
        Keyword::Close => {
            let (arguments, rest) = arguments(phrases, behind)?;
            Ok((Command::Close(arguments), rest))
        }
        Keyword::Read => {
            let (arguments, rest) = arguments(phrases, behind)?;
            Ok((Command::Read(arguments), rest))
        }
        Keyword::For => {
            let (counter, ranges, rest) = repeated(phrases, behind)?;
            Ok((Command::For(counter, ranges), rest))
        }
        Keyword::TStart => {
            let (argument, rest) = restartable(phrases, behind)?;
            Ok((Command::TStart(Some(argument)), rest))
        }
        Keyword::Quit => {
            let (value, rest) = given(phrases, behind)?;
            Ok((Command::Quit(Some(value)), rest))
        }
        Keyword::Halt => Err(stuck(behind)),
        Keyword::Else => Err(stuck(behind)),
        Keyword::TCommit => Err(stuck(behind)),
        Keyword::TRestart => Err(stuck(behind)),
        Keyword::TRollback => Err(stuck(behind)),
        Keyword::Break => Err(stuck(behind)),
    }
}

/// Reads the arguments behind a word, which may stand for one of two commands.
fn with_arguments<'a, 't>(
    phrases: Phrases,
    verb: Verb,
    tokens: &'t [Lexeme<'a>],
    behind: &'t [Lexeme<'a>],
) -> Result<(Command, &'t [Lexeme<'a>]), ParseError>
    requires blank { tokens_seen tokens.now ≡ Blank ∷ tokens_seen behind.now }
    requires room { length behind.now ≤ length tokens.now }
    requires other { the_bare verb ≡ true → HasOther (tokens_seen behind.now) }
    ensures shorter { IfOk result (λ x. length x.1.now ≤ length behind.now) }
    ensures parted { IfOk result (λ x. HasParted (tokens_seen x.1.now)) }
    ensures reads { ReadsArguments phrases.limited (λ ps x. IsMeant verb ps (command_of x.0)) (λ x. x.1.now) result verb tokens.now }
{
    match verb {
        Verb::Of(keyword) => with_own(phrases, keyword, tokens, behind),
        Verb::HaltOrHang => {
            let (arguments, rest) = arguments(phrases, behind)?;
            Ok((Command::Hang(arguments), rest))
        }
    }
}

/// Reads the command behind its word and its postcondition: without arguments at the end, or at one blank and then a second
/// one, a comment or the end; else with arguments behind a blank.
fn command<'a, 't>(
    phrases: Phrases,
    verb: Verb,
    tokens: &'t [Lexeme<'a>],
) -> Result<(Command, &'t [Lexeme<'a>]), ParseError>
    ensures shorter { IfOk result (λ x. length x.1.now ≤ length tokens.now) }
    ensures parted { IfOk result (λ x. HasParted (tokens_seen x.1.now)) }
    ensures reads { ReadsArguments phrases.limited (λ ps x. IsMeant verb ps (command_of x.0)) (λ x. x.1.now) result verb tokens.now }
{
    let may_end = may_be_bare(verb);
    match behind_blank(tokens) {
        None => {
            if may_end && tokens.is_empty() {
                Ok((bare(phrases.alloc, bare_keyword(verb)), tokens))
            } else {
                Err(stuck(tokens))
            }
        }
        Some(behind) => {
            if !may_end {
                return with_arguments(phrases, verb, tokens, behind);
            }
            match parted(behind) {
                Ok(rest) => Ok((bare(phrases.alloc, bare_keyword(verb)), rest)),
                Err(_) => with_arguments(phrases, verb, tokens, behind),
            }
        }
    }
}

/// Reads a command behind its word, up to where it ends.
pub fn step<'a, 't>(
    phrases: Phrases,
    verb: Verb,
    tokens: &'t [Lexeme<'a>],
) -> Result<(LineCommand, &'t [Lexeme<'a>]), ParseError>
    ensures shorter { IfOk result (λ x. length x.1.now ≤ length tokens.now) }
    ensures parted { IfOk result (λ x. HasParted (tokens_seen x.1.now)) }
    ensures reads { ReadsStep phrases.limited (λ c x. IsWrittenStep c (step_of x.0)) (λ x. x.1.now) result verb tokens.now }
{
    let (condition, rest) = condition(phrases, verb, tokens)?;
    match command(phrases, verb, rest) {
        Ok((command, rest)) => Ok((LineCommand { condition, command }, rest)),
        Err(stop) => {
            drop(condition); // for the proof
            Err(stop)
        }
    }
}
