//! What two trees of one document have in common outside some cells, and what edits leave of a tree: all outside the
//! cells that they touch.
#![tactic(auto)]

ghost use Rattle.doc_edit_laws.specs.Agreement.{AgreementComposes};
ghost use Rattle.doc_edit_laws.specs.Along.{EditsLeave};
ghost use Rattle.doc_edit_laws.specs.Leaving.{AttributesLeave, DeletionsLeave, InsertionsLeave, RenamesLeave, SayingsLeave};

use doc_edits::{
    additions_keep_trees, deletions_keep_trees, removals_keep_trees, renames_keep_trees,
    sayings_keep_trees,
};

/// Trees that agree with one between them, the first outside some cells and the last outside others, agree outside both.
pub fn agreement_composes()
    ensures { AgreementComposes }
{}

/// Where a node says another text.
pub fn sayings_leave_the_rest()
    ensures { SayingsLeave }
{
    sayings_keep_trees();
}

/// Where an element or an attribute gets another name.
pub fn renames_leave_the_rest()
    ensures { RenamesLeave }
{
    renames_keep_trees();
}

/// Where an attribute comes or goes.
pub fn attributes_leave_the_rest()
    ensures { AttributesLeave }
{
    additions_keep_trees();
    removals_keep_trees();
}

/// Where a node is deleted.
pub fn deletions_leave_the_rest()
    ensures { DeletionsLeave }
{
    deletions_keep_trees();
}

/// Where a piece comes under a node.
pub fn insertions_leave_the_rest()
    ensures { InsertionsLeave }
{
    additions_keep_trees();
}

/// Where edits come one after another.
pub fn edits_leave_the_rest()
    ensures { EditsLeave }
{
    sayings_keep_trees();
    renames_keep_trees();
    removals_keep_trees();
    deletions_keep_trees();
    additions_keep_trees();
    agreement_composes();
}
