//! What is held of what was read: cells that others cover may be left out, and names along upward axes are held one by one.
#![tactic(auto)]

ghost use Rattle.cover_laws.specs.Covering.{AlikeAreTouchedAlike, AlikeComposes, AlikeStay, CoveredMayGo, CoveringIsTouched, EditsTouchAlike, EqualAreAlike};
ghost use Rattle.cover_laws.specs.Covering.{EditsTouchHeldAlike, EqualIsHeldAlike, HeldIsTouchedAlike, HeldStaysAlike, NamesTouchedAlike, ReadsAreTouched, TouchingIsTold, UpwardCellsStay};

use doc_edit_laws::edits_leave_the_rest;

/// An edit that touches a cell touches each cell that covers it.
pub fn covering_is_touched()
    ensures { CoveringIsTouched }
{}

/// Of two sets that are alike an edit touches some cell of both, or none of either.
pub fn alike_are_touched_alike()
    ensures { AlikeAreTouchedAlike }
{
    covering_is_touched();
}

/// So do edits one after another, where the nodes of the cells live before.
pub fn edits_touch_alike()
    ensures { EditsTouchAlike }
{
    covering_is_touched();
    edits_leave_the_rest();
}

/// Sets that are alike stay so over edits, where the nodes of their cells live before and after.
pub fn alike_stay()
    ensures { AlikeStay }
{
    edits_leave_the_rest();
}

/// Which sets are alike: a set and itself, a set and what is left of it without covered cells, and what is alike by way of a third.
pub fn sets_are_alike()
    ensures equal { EqualAreAlike }
    ensures composes { AlikeComposes }
    ensures covered { CoveredMayGo }
{}

/// An edit touches a name along an axis in the tree before it and in the tree after it, or in neither; so whether it touched what is
/// held is told by either tree.
pub fn names_are_touched_alike()
    ensures names { NamesTouchedAlike }
    ensures held { TouchingIsTold }
{}

/// What was read is touched where a cell of a read is.
pub fn reads_are_touched()
    ensures { ReadsAreTouched }
{}

/// An edit touches what is held and what was read, or neither.
pub fn held_is_touched_alike()
    ensures { HeldIsTouchedAlike }
{
    alike_are_touched_alike();
}

/// So do edits one after another, where what was read is of live nodes before.
pub fn edits_touch_held_alike()
    ensures { EditsTouchHeldAlike }
{
    edits_touch_alike();
}

/// What is held stays so over edits, where what was read is of live nodes before and after; names along upward axes stay as they are.
pub fn held_stays_alike()
    ensures upward { UpwardCellsStay }
    ensures held { HeldStaysAlike }
{
    edits_leave_the_rest();
}

/// What was read may be held as it was read, where no names along an upward axis were.
pub fn equal_is_held_alike()
    ensures { EqualIsHeldAlike }
{}
