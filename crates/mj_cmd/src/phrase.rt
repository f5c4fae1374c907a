// The phrases of commands: expressions and variables, with their trees, or without them and however deep they nest.

ghost use Rattle.std.specs.Prelude.{◌≤◌, IfOk, length};
ghost use Rattle.mj_ast.specs.Trees.{expr_of, variable_of};
ghost use Rattle.mj_expr.specs.Machine.{Whole, Target};
ghost use Rattle.mj_line.specs.Machine.{expression_wanted, variable_wanted};
ghost use Rattle.mj_line.specs.Machine as lines;
ghost use Rattle.mj_cmd.specs.Readers.{ReadsPhrase};

use mj_ast::{Expr, Operand, Scope, Variable};
use mj_expr::{ParseError, behind_expression, behind_variable};
use mj_lex::Lexeme;
use mj_text::Text;
use std::alloc::Global;

/// How the phrases of a line are read: within the depth limit, or only up to where they end.
#[derive(Clone, Copy)]
pub struct Phrases {
    pub alloc: Global,
    pub limited: bool,
}

impl Phrases {
    /// Reads an expression that stands inside so many levels, at most one. Where depth doesn't matter its tree stands for any.
    pub fn expression<'a, 't>(
        self,
        level: usize,
        tokens: &'t [Lexeme<'a>],
    ) -> Result<(Expr, &'t [Lexeme<'a>]), ParseError>
        requires { level ≤ 1 }
        ensures shorter { IfOk result (λ x. length x.1.now ≤ length tokens.now) }
        ensures reads { ReadsPhrase self.limited (λ x. expr_of x.0) (λ x. x.1.now) result level tokens.now expression_wanted Whole }
    {
        if self.limited {
            return mj_expr::expression(self.alloc, tokens, level);
        }
        let rest = behind_expression(self.alloc, tokens)?;
        let any = Expr {
            first: Operand::Literal(Text::new(self.alloc)),
            rest: Vec::new(self.alloc),
        };
        Ok((any, rest))
    }

    /// Reads a variable that stands inside so many levels, at most one. Where depth doesn't matter its tree stands for any.
    pub fn variable<'a, 't>(
        self,
        level: usize,
        tokens: &'t [Lexeme<'a>],
    ) -> Result<(Variable, &'t [Lexeme<'a>]), ParseError>
        requires { level ≤ 1 }
        ensures shorter { IfOk result (λ x. length x.1.now ≤ length tokens.now) }
        ensures reads { ReadsPhrase self.limited (λ x. variable_of x.0) (λ x. x.1.now) result level tokens.now variable_wanted Target }
    {
        if self.limited {
            return mj_expr::variable(self.alloc, tokens, level);
        }
        let rest = behind_variable(self.alloc, tokens)?;
        let any = Variable {
            scope: Scope::Local,
            word: Text::new(self.alloc),
            subscripts: Vec::new(self.alloc),
        };
        Ok((any, rest))
    }
}
