//! Whole expressions and patterns, and their first faults.

ghost use Rattle.std.specs.Prelude.{MatchResult};
ghost use Rattle.xp_tree.specs.PatternTree.{pattern_of};
ghost use Rattle.xp_tree.specs.View.{tree_of};
ghost use Rattle.xp_parse.specs.Whole.{Faults, IsWhole, IsWholePattern, PatternFaults};

use crate::error::ParseError;
use crate::parser::Parser;
use crate::stopped::finished;
use sch_base::MAX_NESTING;
use std::alloc::Global;
use xp_grammar::Placed;
use xp_tree::{Expr, Level, Pattern};

/// The expression that the tokens are, or the first fault; the tokens were read up to a place, to the end of the text
/// or to where no token can be read.
pub fn parse_tokens(
    alloc: Global,
    tokens: &[Placed],
    whole: bool,
    end: u32,
) -> Result<Expr, ParseError>
    ensures { MatchResult result (λ e. IsWhole MAX_NESTING whole tokens.now (tree_of e)) (Faults MAX_NESTING tokens.now whole end) }
{
    let mut parser = Parser::new(alloc, tokens);
    let read = parser.chain(Level::Or, 0);
    finished(read, &parser, whole, end)
}

/// The pattern that the tokens are, or the first fault; the tokens were read up to a place, to the end of the text or
/// to where no token can be read. Costs time linear in the number of tokens.
pub fn parse_pattern_tokens(
    alloc: Global,
    tokens: &[Placed],
    whole: bool,
    end: u32,
) -> Result<Pattern, ParseError>
    ensures { MatchResult result (λ p. IsWholePattern MAX_NESTING whole tokens.now (pattern_of p)) (PatternFaults MAX_NESTING tokens.now whole end) }
{
    let mut parser = Parser::new(alloc, tokens);
    let read = parser.pattern();
    let paths = finished(read, &parser, whole, end)?;
    Ok(Pattern { paths })
}
