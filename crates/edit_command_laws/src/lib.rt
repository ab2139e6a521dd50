//! What holds of the commands of edit scripts: a command makes one tree, and a document stays one.
#![tactic(auto)]

ghost use Rattle.edit_command_laws.specs.OneEdit.{OneEdit};
ghost use Rattle.edit_command_laws.specs.SomeEdit.{EditsMakeTrees, ScriptsAreWellFormed};
ghost use Rattle.edit_command_laws.specs.TreesKept.{EditsKeepTrees};

use doc_edits::{
    additions_keep_trees, deletions_keep_trees, edits_keep_documents, removals_keep_trees,
    renames_keep_trees, sayings_keep_trees,
};
use doc_tree::{one_table, well_formed_is_enough};
use name_scopes_laws::fragments_have_pieces;
use pyx_core::events_nest;

/// A command makes one tree of a table: what it says decides all of it, the numbers of new nodes too.
pub fn one_edit()
    ensures { OneEdit }
{
    well_formed_is_enough();
    one_table();
}

/// An accepted command makes a tree of a tree, and a document of a document.
pub fn edits_keep_trees()
    ensures { EditsKeepTrees }
{
    sayings_keep_trees();
    renames_keep_trees();
    removals_keep_trees();
    deletions_keep_trees();
    additions_keep_trees();
    edits_keep_documents();
}

/// A well-formed command against which no reason speaks makes a tree.
pub fn edits_make_trees()
    ensures { EditsMakeTrees }
{
    fragments_have_pieces();
}

/// Each command that a script gives is well formed.
pub fn scripts_are_well_formed()
    ensures { ScriptsAreWellFormed }
{
    events_nest();
}
