//! Laws of the definitions, for the proofs of callers.

ghost use Rattle.xp_outcome.specs.Laws.{GatherInParts, OutcomesCompose, RunsCompose, SlotsKeep};

/// Evaluations compose: nothing before or after changes nothing, and brackets don't matter.
pub fn outcomes_compose<F, A, B, C>()
    ensures { OutcomesCompose F A B C }
{}

/// A list is gathered in parts.
pub fn gather_in_parts<F, X, A, B>()
    ensures { GatherInParts F X A B }
{}

/// Runs compose as outcomes do.
pub fn runs_compose<F, A, B>()
    ensures { RunsCompose F A B }
{}

/// A slot holds what was put there last, and nothing once it was cut.
pub fn slots_keep<V>()
    ensures { SlotsKeep V }
{}
