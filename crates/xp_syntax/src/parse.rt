//! Expressions and match patterns read from their texts.

ghost use Rattle.std.specs.Prelude.{◌≤◌, length, MatchResult};
ghost use Rattle.xp_tree.specs.View.{tree_of};
ghost use Rattle.xp_tree.specs.PatternTree.{pattern_of};
ghost use Rattle.xp_syntax.specs.Syntax.{Spells, IsSyntaxFault, SpellsPattern, IsPatternFault, UnlessMemory};

use sch_base::{MAX_EXPRESSION_BYTES, MAX_NESTING};
use std::alloc::Global;
use xp_lexicon::{tokenize, whole_texts_end};
use xp_parse::{ParseError, parse_pattern_tokens, parse_tokens};
use xp_tree::{Expr, Pattern};

/// The expression that the text spells (XPath 1.0, section 3), or the text's first fault.
///
/// The text has at most 65,536 bytes. Brackets and signs nest at most 64 deep. An error is the first fault of the text,
/// with the number of bytes before it, or want of memory. The time grows with the text's length.
pub fn parse_expr(alloc: Global, text: &str) -> Result<Expr, ParseError>
    requires { length text.now ≤ MAX_EXPRESSION_BYTES }
    ensures { MatchResult result (λ e. Spells MAX_NESTING text.now (tree_of e)) (UnlessMemory (IsSyntaxFault MAX_NESTING text.now)) }
{
    whole_texts_end();
    let lexed = tokenize(alloc, text)?;
    parse_tokens(alloc, &lexed.tokens, lexed.whole, lexed.end)
}

/// The match pattern that the text spells (XSLT 1.0, section 5.2), or the text's first fault.
///
/// The text has at most 65,536 bytes. Brackets and signs nest at most 64 deep. An error is the first fault of the text,
/// with the number of bytes before it, or want of memory. The time grows with the text's length.
pub fn parse_pattern(alloc: Global, text: &str) -> Result<Pattern, ParseError>
    requires { length text.now ≤ MAX_EXPRESSION_BYTES }
    ensures { MatchResult result (λ p. SpellsPattern MAX_NESTING text.now (pattern_of p)) (UnlessMemory (IsPatternFault MAX_NESTING text.now)) }
{
    whole_texts_end();
    let lexed = tokenize(alloc, text)?;
    parse_pattern_tokens(alloc, &lexed.tokens, lexed.whole, lexed.end)
}
