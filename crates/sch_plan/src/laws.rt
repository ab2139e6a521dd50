//! The law of plans.

ghost use Rattle.sch_plan.specs.OnePlan.{OnePlan};

use xp_syntax::{
    faulty_texts_spell_no_pattern, faulty_texts_spell_nothing, first_faults_are_unique,
    first_pattern_faults_are_unique, one_pattern_spelling, one_spelling,
};
use xp_types::{expressions_are_typed_or_refused, patterns_are_typed_or_refused};

/// A schema and the word for a phase have one plan, or one first broken rule: a law, for the proofs of callers.
pub fn one_plan()
    ensures { OnePlan }
{
    one_spelling();
    one_pattern_spelling();
    first_faults_are_unique();
    first_pattern_faults_are_unique();
    faulty_texts_spell_nothing();
    faulty_texts_spell_no_pattern();
    expressions_are_typed_or_refused();
    patterns_are_typed_or_refused();
}
