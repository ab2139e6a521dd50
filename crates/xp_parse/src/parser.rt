//! The parser with its place in the tokens; chains of operands, and paths (XPath 1.0, sections 2 and 3).

ghost use Rattle.std.specs.Prelude.{◌≡◌, ◌≤◌, ◌∷◌, [], List, ℕ, suc, true, MatchResult, MatchOption};
ghost use Rattle.xp_tree.specs.declared.terms.Level.TheVariants as level;
ghost use Rattle.xp_tree.specs.View.{tree_of};
ghost use Rattle.xp_grammar.specs.declared.token.Placed.{Placed};
ghost use Rattle.xp_grammar.specs.declared.token.Token.TheVariants as token;
ghost use Rattle.xp_grammar.specs.Parts.{offset_at};
ghost use Rattle.xp_parse.specs.inner.Places.{IsFirst, IsNoPath, is_at_step, rest_of};
ghost use Rattle.xp_parse.specs.inner.Parsing.{ChainRead, OperandRead, PathRead, OperandsRead, SignsRead, OperandFails, Fails, SignsFail, Settled, Quiet, rank};
ghost use Rattle.xp_grammar.specs.inner.Machine.{Ending, after};

use crate::mark::Mark;
use crate::steps::everywhere;
use crate::stop::Stop;
use sch_base::MAX_NESTING;
use std::alloc::Global;
use xp_grammar::{Placed, Token};
use xp_tree::{Chain, Expr, Level, Operand};

/// Reads expressions from their tokens.
#[derive(Drop)]
pub(crate) struct Parser<'t, 'a> {
    pub(crate) alloc: Global,
    tokens: &'t [Placed<'a>],
    at: usize,
}

impl<'t, 'a> Parser<'t, 'a> {
    /// At the first of these tokens.
    #[tactic(auto, unfolding(crate::specs::inner::Places::rest_of))]
    pub(crate) fn new(alloc: Global, tokens: &'t [Placed<'a>]) -> Parser<'t, 'a>
        ensures { rest_of result ≡ tokens.now }
    {
        Parser {
            alloc,
            tokens,
            at: 0,
        }
    }

    /// The token at the place, None at the end.
    #[tactic(auto, unfolding(crate::specs::inner::Places::rest_of))]
    pub(crate) fn token(&self) -> Option<&'t Token<'a>>
        ensures { MatchOption result (rest_of self.now ≡ []) (λ t. IsFirst t.now (rest_of self.now)) }
    {
        match self.tokens.get(self.at) {
            Some(placed) => Some(&placed.token),
            None => None,
        }
    }

    /// Where the token at the place stands, 0 at the end.
    #[tactic(auto, unfolding(crate::specs::inner::Places::rest_of))]
    pub(crate) fn offset(&self) -> u32
        ensures { result ≡ offset_at (rest_of self.now) }
    {
        match self.tokens.get(self.at) {
            Some(placed) => placed.offset,
            None => 0,
        }
    }

    /// Goes on to the next token.
    #[tactic(auto, unfolding(crate::specs::inner::Places::rest_of))]
    pub(crate) fn advance(&mut self)
        ensures { (p : Placed) (rest : List Placed) → rest_of self.old ≡ p ∷ rest → rest_of self.new ≡ rest }
    {
        if self.at < self.tokens.len() {
            self.at += 1;
        }
    }

    /// An operand of a chain of the level, where this many brackets are open.
    #[cycle(parser)]
    pub(crate) fn operand(&mut self, level: Level, depth: usize) -> Result<Expr, Stop>
        requires { depth ≤ MAX_NESTING }
        ensures { MatchResult result (λ e. OperandRead MAX_NESTING level depth (rest_of self.old) (rest_of self.new) (tree_of e))
            (OperandFails MAX_NESTING level depth (rest_of self.old) (rest_of self.new)) }
    {
        match level {
            Level::Or => self.chain(Level::And, depth),
            Level::And => self.chain(Level::Equal, depth),
            Level::Equal => self.chain(Level::Rel, depth),
            Level::Rel => self.chain(Level::Sum, depth),
            Level::Sum => self.chain(Level::Prod, depth),
            Level::Prod => self.signed(depth),
            Level::Union => self.path(depth),
        }
    }

    /// A chain of the level, or its only operand.
    #[cycle(parser)]
    pub(crate) fn chain(&mut self, level: Level, depth: usize) -> Result<Expr, Stop>
        requires { depth ≤ MAX_NESTING }
        ensures { MatchResult result (λ e. ChainRead MAX_NESTING level depth (rest_of self.old) (rest_of self.new) (tree_of e))
            (OperandFails MAX_NESTING level depth (rest_of self.old) (rest_of self.new)) }
    {
        let offset = self.offset();
        let first = self.operand(level, depth)?;
        let Some(_) = self.operator_of(level) else {
            return Ok(first);
        };
        let first = Box::new(self.alloc, first)?;
        let rest = self.operands(level, depth)?;
        Ok(Chain::new(offset, first, rest).at_level(level))
    }

    /// The later operands of a chain.
    #[cycle(parser)]
    fn operands(&mut self, level: Level, depth: usize) -> Result<Vec<Operand>, Stop>
        requires { depth ≤ MAX_NESTING }
        ensures { (e : Ending) → Settled e (rest_of self.old) → Quiet (suc (rank level)) (rest_of self.old) → MatchResult result
            (λ found. OperandsRead MAX_NESTING level depth e (rest_of self.old) (rest_of self.new) found.items)
            (Fails MAX_NESTING (after e) depth (rest_of self.old) (rest_of self.new)) }
    {
        let mut found = Vec::new(self.alloc);
        while let Some(operator) = self.operator_of(level) {
            let offset = self.offset();
            self.advance();
            let operand = self.operand(level, depth)?;
            found.push(Operand::new(operator, offset, operand))?;
        }
        Ok(found)
    }

    /// An operand of a product, behind its signs.
    #[cycle(parser)]
    fn signed(&mut self, depth: usize) -> Result<Expr, Stop>
        requires { depth ≤ MAX_NESTING }
        ensures { MatchResult result (λ e. OperandRead MAX_NESTING level.Prod depth (rest_of self.old) (rest_of self.new) (tree_of e))
            (OperandFails MAX_NESTING level.Prod depth (rest_of self.old) (rest_of self.new)) }
    {
        let offset = self.offset();
        let count = self.signs(depth)?;
        let operand = self.chain(Level::Union, depth)?;
        if count == 0 {
            return Ok(operand);
        }
        let operand = Box::new(self.alloc, operand)?;
        Ok(Expr::negated(offset, count, operand))
    }

    /// The minus signs at the place.
    fn signs(&mut self, depth: usize) -> Result<u32, Stop>
        requires { depth ≤ MAX_NESTING }
        ensures { MatchResult result (SignsRead MAX_NESTING depth (rest_of self.old) (rest_of self.new))
            (SignsFail MAX_NESTING depth (rest_of self.old) (rest_of self.new)) }
    {
        let mut count = 0;
        while self.is_at(Mark::Minus) {
            if depth + count as usize >= MAX_NESTING {
                return Err(Stop::TooNested);
            }
            self.advance();
            count += 1;
        }
        Ok(count)
    }

    /// A path, or an expression that is no path with the steps behind it (XPath 1.0, sections 2 and 3.3).
    #[cycle(parser)]
    fn path(&mut self, depth: usize) -> Result<Expr, Stop>
        requires { depth ≤ MAX_NESTING }
        ensures { MatchResult result (λ e. PathRead MAX_NESTING depth (rest_of self.old) (rest_of self.new) (tree_of e))
            (OperandFails MAX_NESTING level.Union depth (rest_of self.old) (rest_of self.new)) }
    {
        let Some(first) = self.token() else {
            return Err(Stop::Unexpected);
        };
        match first {
            Token::Slash => self.from_root(depth),
            Token::DoubleSlash => self.from_anywhere(depth),
            _ if self.at_step() => self.from_here(depth),
            _ => self.from_filter(depth),
        }
    }

    /// A path that begins with `/`.
    #[cycle(parser)]
    fn from_root(&mut self, depth: usize) -> Result<Expr, Stop>
        requires depth { depth ≤ MAX_NESTING }
        requires first { IsFirst token.Slash (rest_of self.old) }
        ensures { MatchResult result (λ e. PathRead MAX_NESTING depth (rest_of self.old) (rest_of self.new) (tree_of e))
            (OperandFails MAX_NESTING level.Union depth (rest_of self.old) (rest_of self.new)) }
    {
        let offset = self.offset();
        self.advance();
        let steps = Vec::new(self.alloc);
        if !self.at_step() {
            return Ok(Expr::from_root(offset, steps));
        }
        let steps = self.steps(steps, depth)?;
        Ok(Expr::from_root(offset, steps))
    }

    /// A path that begins with `//`.
    #[cycle(parser)]
    fn from_anywhere(&mut self, depth: usize) -> Result<Expr, Stop>
        requires depth { depth ≤ MAX_NESTING }
        requires first { IsFirst token.DoubleSlash (rest_of self.old) }
        ensures { MatchResult result (λ e. PathRead MAX_NESTING depth (rest_of self.old) (rest_of self.new) (tree_of e))
            (OperandFails MAX_NESTING level.Union depth (rest_of self.old) (rest_of self.new)) }
    {
        let offset = self.offset();
        self.advance();
        let mut steps = Vec::new(self.alloc);
        steps.push(everywhere(self.alloc, offset))?;
        let steps = self.steps(steps, depth)?;
        Ok(Expr::from_root(offset, steps))
    }

    /// A path that begins with a step.
    #[cycle(parser)]
    fn from_here(&mut self, depth: usize) -> Result<Expr, Stop>
        requires depth { depth ≤ MAX_NESTING }
        requires first { is_at_step (rest_of self.old) ≡ true }
        ensures { MatchResult result (λ e. PathRead MAX_NESTING depth (rest_of self.old) (rest_of self.new) (tree_of e))
            (OperandFails MAX_NESTING level.Union depth (rest_of self.old) (rest_of self.new)) }
    {
        let offset = self.offset();
        let steps = Vec::new(self.alloc);
        let steps = self.steps(steps, depth)?;
        Ok(Expr::from_here(offset, steps))
    }

    /// An expression that is no path, with its predicates, and the steps behind it.
    #[cycle(parser)]
    fn from_filter(&mut self, depth: usize) -> Result<Expr, Stop>
        requires depth { depth ≤ MAX_NESTING }
        requires first { IsNoPath (rest_of self.old) }
        ensures { MatchResult result (λ e. PathRead MAX_NESTING depth (rest_of self.old) (rest_of self.new) (tree_of e))
            (OperandFails MAX_NESTING level.Union depth (rest_of self.old) (rest_of self.new)) }
    {
        let offset = self.offset();
        let base = self.filter(depth)?;
        if !self.at_slash() {
            return Ok(base);
        }
        let base = Box::new(self.alloc, base)?;
        let steps = Vec::new(self.alloc);
        let steps = self.more_steps(steps, depth)?;
        Ok(Expr::from_nodes(offset, base, steps))
    }
}
