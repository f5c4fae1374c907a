// The command that stands last.

ghost use Rattle.std.specs.Prelude.{◌≡◌, IfOk, map};
ghost use Rattle.mj_ast.specs.Commands.{keyword_for as the_keyword};
ghost use Rattle.mj_ast.specs.LeftOut.{IsLast, last_keyword as the_last};
ghost use Rattle.mj_ast.specs.Trees.{command_of, step_of};
ghost use Rattle.mj_lex.specs.Seen.{tokens_seen};
ghost use Rattle.mj_unsupported.specs.Fronts.{IsFront};

use crate::tokens::ends_in_blank;
use mj_ast::{Command, Keyword, LineCommand};
use mj_cmd::line;
use mj_expr::ParseError;
use mj_lex::Lexeme;
use std::alloc::{AllocError, Global};

/// Which command it is.
fn keyword_for(command: &Command) -> Keyword
    ensures { result ≡ the_keyword (command_of command.now) }
{
    match command {
        Command::Set(_) => Keyword::Set,
        Command::Write(_) => Keyword::Write,
        Command::Halt => Keyword::Halt,
        Command::Hang(_) => Keyword::Hang,
        Command::Job(_) => Keyword::Job,
        Command::Lock(_) => Keyword::Lock,
        Command::Kill(_) => Keyword::Kill,
        Command::Merge(_) => Keyword::Merge,
        Command::If(_) => Keyword::If,
        Command::Else => Keyword::Else,
        Command::For(_, _) => Keyword::For,
        Command::Forever => Keyword::For,
        Command::Do(_) => Keyword::Do,
        Command::Goto(_) => Keyword::Goto,
        Command::Quit(_) => Keyword::Quit,
        Command::New(_) => Keyword::New,
        Command::Open(_) => Keyword::Open,
        Command::Use(_) => Keyword::Use,
        Command::Close(_) => Keyword::Close,
        Command::Read(_) => Keyword::Read,
        Command::TStart(_) => Keyword::TStart,
        Command::TCommit => Keyword::TCommit,
        Command::TRestart => Keyword::TRestart,
        Command::TRollback => Keyword::TRollback,
        Command::Break => Keyword::Break,
    }
}

/// Which command is the last.
fn last_keyword(steps: &[LineCommand]) -> Option<Keyword>
    ensures { result ≡ the_last (map step_of steps.now) }
{
    if steps.is_empty() {
        return None;
    }
    Some(keyword_for(&steps[steps.len() - 1].command))
}

/// The command that stands last in the tokens, if they are a line up to its end.
pub fn last_command(alloc: Global, tokens: &[Lexeme]) -> Result<Option<Keyword>, AllocError>
    requires { IsFront (tokens_seen tokens.now) }
    ensures { IfOk result (λ k. IsLast (tokens_seen tokens.now) k) }
{
    if ends_in_blank(tokens) {
        return Ok(None);
    }
    match line(alloc, tokens) {
        Ok(line) => Ok(last_keyword(&line.steps)),
        Err(stop) => match stop {
            ParseError::Memory => Err(AllocError),
            ParseError::Stuck(_) => Ok(None),
            ParseError::Deep(_) => Ok(None),
            ParseError::Long => Ok(None),
        },
    }
}
