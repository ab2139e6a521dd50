//! The laws.

ghost use Rattle.kept_state.specs.Laws.{DirtyAreRun, DirtyUnitsAreRun, EditsKeep, KeptIsRight, LetsKeep, NothingKeeps, PairsKeep};
ghost use Rattle.kept_state.specs.Refreshing.{RefreshesKeep};

use cover_laws::{edits_touch_held_alike, held_stays_alike, reads_are_touched};
use edit_costs::{lets_need_those_before, same_outcomes_are_equal, units_are_local, units_stand};
use sch_units::lets_stand_in_order;
use unit_live_laws::units_read_live_cells;

/// Where nothing is kept, the state of any tree is.
pub fn nothing_keeps()
    ensures { NothingKeeps }
{}

/// Edits keep the state, where those units are made stale that read what was touched.
pub fn edits_keep()
    ensures { EditsKeep }
{
    edits_touch_held_alike();
    held_stays_alike();
    units_read_live_cells();
    units_are_local();
    units_stand();
}

/// The run of a node under a pattern keeps the state.
pub fn pairs_keep()
    ensures { PairsKeep }
{}

/// The run of a let in force keeps the state, where those units are made stale that read a let whose outcome has changed.
pub fn lets_keep()
    ensures { LetsKeep }
{
    lets_need_those_before();
    same_outcomes_are_equal();
    units_are_local();
    units_stand();
}

/// What is kept of a unit is right, where neither it nor a let is stale.
pub fn kept_is_right()
    ensures { KeptIsRight }
{
    lets_need_those_before();
    lets_stand_in_order();
    units_are_local();
    units_stand();
}

/// After edits of a tree whose units were all done, the units that are to be run are those that the edits left dirty.
pub fn dirty_are_run()
    ensures each { DirtyAreRun }
    ensures all { DirtyUnitsAreRun }
{
    edits_touch_held_alike();
    held_stays_alike();
    reads_are_touched();
    units_read_live_cells();
    lets_need_those_before();
    lets_stand_in_order();
    same_outcomes_are_equal();
    units_are_local();
    units_stand();
}

/// A refresh that goes over the units in order, and runs those that are stale when it comes to them, ends with all units done;
/// wherever it stops, the units that were to be run are done, or stale, or as they were.
pub fn refreshes_keep()
    ensures { RefreshesKeep }
{
    lets_need_those_before();
    lets_stand_in_order();
    same_outcomes_are_equal();
    units_are_local();
    units_stand();
}
