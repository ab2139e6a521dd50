//! Laws of the grammars, for the proofs of callers.

ghost use Rattle.xp_grammar_laws.specs.OnePattern.{OnePattern};
ghost use Rattle.xp_grammar_laws.specs.OneTree.{OneTree};

/// Tokens are those of at most one expression, at whatever limits of nesting.
pub fn one_tree()
    ensures { OneTree }
{}

/// Tokens are those of at most one pattern, at whatever limits of nesting.
pub fn one_pattern()
    ensures { OnePattern }
{}
