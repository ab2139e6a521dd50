//! Which units edits touch, and what it costs to evaluate them anew: the definitions, and what holds of them. A unit is a let in
//! force, or a live node under an active pattern.
#![tactic(auto)]

ghost use Rattle.edit_costs.specs.Laws.{CleanUnitsStand, LetsNeedThoseBefore, SameOutcomesAreEqual};

pub use sch_locality_laws::{rules_are_typed, units_are_local, units_stand};
use xp_meaning_laws::{lets_read_are_named, meaning_needs_slots_alone};

/// A unit that edits leave clean gives, reads and costs the same in the tree that they make.
pub fn clean_units_stand()
    ensures { CleanUnitsStand }
{
    units_stand();
}

/// A let in force of a sound plan depends on the lets before it alone, and reads none but these.
pub fn lets_need_those_before()
    ensures { LetsNeedThoseBefore }
{
    lets_read_are_named();
    meaning_needs_slots_alone();
}

/// Two outcomes are the same exactly where they are equal.
pub fn same_outcomes_are_equal()
    ensures { SameOutcomesAreEqual }
{}
