//! Locality of units: what a let in force gives, and a node under a pattern, depends on what it reads, and on nothing else; so
//! edits leave the units none of whose reads they touched.
#![tactic(auto)]

ghost use Rattle.std.specs.Prelude.{◌<◌, length};
ghost use Rattle.sch_compiled.specs.Soundness.{IsCounted};
ghost use Rattle.sch_locality_laws.specs.Edits.{EditsChange, UnitsStand};
ghost use Rattle.sch_locality_laws.specs.Locality.{GivenLetsAreLocal, OwnLetsAreLocal, RulesTyped};

use doc_edit_laws::edits_leave_the_rest;
use sch_compiled::Plan;
use xp_locality_laws::evaluations_are_local;
use xslt_locality_laws::matches_are_local;

/// Where two trees agree outside some cells, and no cell that a unit reads in the first is one of them, and each let that it
/// reads has the same value or fault, the unit gives the same in both, reads the same and costs the same. A unit is a let in
/// force, or a node that lives in both trees under a pattern.
///
/// The lets are given tables, or those in force of each tree. Of the second kind it is enough that a let has the same outcome
/// in both trees: then its nodes live in both.
pub fn units_are_local()
    ensures given { GivenLetsAreLocal }
    ensures own { OwnLetsAreLocal }
{
    evaluations_are_local();
    matches_are_local();
}

/// A unit none of whose reads the edits touched gives, reads and costs the same in the tree that they make. A unit is a let in
/// force, or a node that lives in both trees under a pattern; a let that is read is touched where its outcome changed.
pub fn units_stand()
    ensures change { EditsChange }
    ensures units { UnitsStand }
{
    edits_leave_the_rest();
    units_are_local();
}

/// The contexts of the rules of an active pattern, counted from 0, are well typed: what the laws on pairs ask of a plan's
/// rules. Costs a look at each rule.
pub fn rules_are_typed(plan: &Plan, p: u32)
    requires counted { IsCounted plan.now }
    requires active { p < length plan.now.patterns }
    ensures { RulesTyped plan.now p }
{
    for r in 0..plan.rule_count(p) {
        let _paths = plan.rule(p, r).context.paths();
    }
}
