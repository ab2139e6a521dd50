//! What holds of watched expressions over edits.

ghost use Rattle.xp_watch.specs.Laws.{CleanWatchesStand, DirtyAreStale, EditsKeep};

use cover_laws::{held_is_touched_alike, held_stays_alike, reads_are_touched};
use doc_edit_laws::edits_leave_the_rest;
use xp_locality_laws::evaluations_are_local;

/// An expression none of whose reads was touched gives, reads and costs the same after edits as before.
pub fn clean_watches_stand()
    ensures { CleanWatchesStand }
{
    edits_leave_the_rest();
    evaluations_are_local();
    reads_are_touched();
}

/// An edit that marks what read a touched cell keeps the rest right.
pub fn edits_keep()
    ensures { EditsKeep }
{
    clean_watches_stand();
    edits_leave_the_rest();
    held_is_touched_alike();
    held_stays_alike();
}

/// After an edit of a tree over which all watches were done just the dirty ones are stale.
pub fn dirty_are_stale()
    ensures { DirtyAreStale }
{
    held_is_touched_alike();
}
