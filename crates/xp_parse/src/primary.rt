//! Expressions that are no paths (XPath 1.0, sections 3.1 to 3.3).

ghost use Rattle.std.specs.Prelude.{◌≤◌, ℕ, true, MatchResult};
ghost use Rattle.xp_tree.specs.declared.terms.Level.TheVariants as level;
ghost use Rattle.xp_tree.specs.View.{tree_of};
ghost use Rattle.xp_grammar.specs.declared.token.Token.TheVariants as token;
ghost use Rattle.xp_grammar.specs.inner.Machine.{Ending, want, after};
ghost use Rattle.xp_parse.specs.inner.Places.{IsFirst, IsNoPath, IsThere, rest_of, token_of};
ghost use Rattle.xp_parse.specs.inner.Parsing.{FailsInCall, OperandFails, EnclosedRead, EnclosedFails, FilterRead, PrimaryRead, ArgumentsRead, MoreArgumentsRead, Settled, Quiet};

use crate::mark::Mark;
use crate::parser::Parser;
use crate::stop::Stop;
use sch_base::{MAX_NESTING, Text};
use xp_grammar::{Token, Word};
use xp_tree::{Expr, Level};

impl<'t, 'a> Parser<'t, 'a> {
    /// A primary expression with its predicates, if it has any.
    #[cycle(parser)]
    pub(crate) fn filter(&mut self, depth: usize) -> Result<Expr, Stop>
        requires depth { depth ≤ MAX_NESTING }
        requires first { IsNoPath (rest_of self.old) }
        ensures { MatchResult result (λ e. FilterRead MAX_NESTING depth (rest_of self.old) (rest_of self.new) (tree_of e))
            (OperandFails MAX_NESTING level.Union depth (rest_of self.old) (rest_of self.new)) }
    {
        let offset = self.offset();
        let base = self.primary(depth)?;
        if !self.is_at(Mark::OpenBracket) {
            return Ok(base);
        }
        let base = Box::new(self.alloc, base)?;
        let predicates = self.predicates(depth)?;
        Ok(Expr::filtered(offset, base, predicates))
    }

    /// A primary expression.
    #[cycle(parser)]
    fn primary(&mut self, depth: usize) -> Result<Expr, Stop>
        requires depth { depth ≤ MAX_NESTING }
        requires first { IsNoPath (rest_of self.old) }
        ensures { MatchResult result (λ e. PrimaryRead MAX_NESTING depth (rest_of self.old) (rest_of self.new) (tree_of e))
            (OperandFails MAX_NESTING level.Union depth (rest_of self.old) (rest_of self.new)) }
    {
        let offset = self.offset();
        let Some(first) = self.token() else {
            return Err(Stop::Unexpected);
        };
        match first {
            Token::Variable(name) => Ok(Expr::variable(offset, self.take_word(name)?)),
            Token::Literal(value) => Ok(Expr::literal(offset, self.take_word(value)?)),
            Token::Number(digits) => Ok(Expr::number(offset, self.take_word(digits)?)),
            Token::OpenParen => self.enclosed(Mark::CloseParen, depth),
            Token::Function(name) => self.call(name, depth),
            _ => Err(Stop::Unexpected),
        }
    }

    /// An expression between the token at the place and this mark.
    #[cycle(parser)]
    pub(crate) fn enclosed(&mut self, close: Mark, depth: usize) -> Result<Expr, Stop>
        requires depth { depth ≤ MAX_NESTING }
        requires first { IsThere (rest_of self.old) }
        ensures { MatchResult result (λ e. EnclosedRead MAX_NESTING depth (token_of close) (rest_of self.old) (rest_of self.new) (tree_of e))
            (EnclosedFails MAX_NESTING depth (token_of close) (rest_of self.old) (rest_of self.new)) }
    {
        if depth >= MAX_NESTING {
            return Err(Stop::TooNested);
        }
        self.advance();
        let inner = self.chain(Level::Or, depth + 1)?;
        self.take_behind(close, inner)
    }

    /// A call of the function whose name stands at the place.
    #[cycle(parser)]
    fn call(&mut self, name: &Word, depth: usize) -> Result<Expr, Stop>
        requires depth { depth ≤ MAX_NESTING }
        requires first { IsFirst (token.Function name.now) (rest_of self.old) }
        ensures { MatchResult result (λ e. PrimaryRead MAX_NESTING depth (rest_of self.old) (rest_of self.new) (tree_of e))
            (OperandFails MAX_NESTING level.Union depth (rest_of self.old) (rest_of self.new)) }
    {
        if depth >= MAX_NESTING {
            return Err(Stop::TooNested);
        }
        let offset = self.offset();
        self.advance();
        self.take(Mark::OpenParen)?;
        let args = self.arguments(depth + 1)?;
        self.take(Mark::CloseParen)?;
        let name = Text::copy(self.alloc, name.as_str())?;
        Ok(Expr::call(offset, name, args))
    }

    /// The arguments of a call.
    #[cycle(parser)]
    fn arguments(&mut self, depth: usize) -> Result<Vec<Expr>, Stop>
        requires { depth ≤ MAX_NESTING }
        ensures { MatchResult result (λ found. ArgumentsRead MAX_NESTING depth (rest_of self.old) (rest_of self.new) found.items)
            (FailsInCall MAX_NESTING (want true 0 true) depth (rest_of self.old) (rest_of self.new)) }
    {
        if self.is_at(Mark::CloseParen) {
            return Ok(Vec::new(self.alloc));
        }
        let first = self.chain(Level::Or, depth)?;
        self.more_arguments(first, depth)
    }

    /// The arguments behind the first one.
    #[cycle(parser)]
    fn more_arguments(&mut self, first: Expr, depth: usize) -> Result<Vec<Expr>, Stop>
        requires { depth ≤ MAX_NESTING }
        ensures { (e : Ending) → Settled e (rest_of self.old) → Quiet 0 (rest_of self.old) → MatchResult result
            (λ found. MoreArgumentsRead MAX_NESTING depth e (tree_of first) (rest_of self.old) (rest_of self.new) found.items)
            (FailsInCall MAX_NESTING (after e) depth (rest_of self.old) (rest_of self.new)) }
    {
        let mut found = Vec::new(self.alloc);
        found.push(first)?;
        while self.is_at(Mark::Comma) {
            self.advance();
            let argument = self.chain(Level::Or, depth)?;
            found.push(argument)?;
        }
        Ok(found)
    }
}
