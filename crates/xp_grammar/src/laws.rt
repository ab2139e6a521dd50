//! Laws of the definitions, for the proofs of callers.

ghost use Rattle.xp_grammar.specs.Faults.{EachDerivesAPatternOrFails, EachDerivesOrFails};

/// Tokens of a whole text derive an expression, or they have a first fault as an expression.
pub fn each_derives_or_fails()
    ensures { EachDerivesOrFails }
{}

/// Tokens of a whole text derive a pattern, or they have a first fault as a pattern.
pub fn each_derives_a_pattern_or_fails()
    ensures { EachDerivesAPatternOrFails }
{}
