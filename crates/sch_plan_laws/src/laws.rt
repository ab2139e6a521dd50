//! Laws of the definitions, for the proofs of callers.

ghost use Rattle.sch_plan_laws.specs.Places.{PlansNeedNoPlaces};
ghost use Rattle.sch_plan_laws.specs.Planned.{EachPhaseIsCompiled};

use xp_grammar::{each_derives_a_pattern_or_fails, each_derives_or_fails};
use xp_lexicon::whole_texts_end;
use xp_lexicon_laws::each_text_is_read;
use xp_types::{expressions_are_typed_or_refused, patterns_are_typed_or_refused};

/// Schemas that are the same but for the places of their parts have the same plans.
pub fn plans_need_no_places()
    ensures { PlansNeedNoPlaces }
{}

/// Each schema has a plan for each word for a phase, or a first broken rule.
pub fn each_phase_is_compiled()
    ensures { EachPhaseIsCompiled }
{
    each_text_is_read();
    whole_texts_end();
    each_derives_or_fails();
    each_derives_a_pattern_or_fails();
    expressions_are_typed_or_refused();
    patterns_are_typed_or_refused();
}
