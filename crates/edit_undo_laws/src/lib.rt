//! Commands that take a command of an edit script back. Laws, as calls that do nothing.
#![tactic(auto)]

ghost use Rattle.edit_undo_laws.specs.Undoing.{
  AttributeRenamesAreUndone,
  CommandsAreUndone,
  InsertsAreUndone,
  LoneDeletionsAreUndone,
  MergingDeletionsAreUndone,
  RenamesAreUndone,
  SettingsAreUndone,
  TextsAreUndone,
  UndoingsAreFormed,
  UnsettingsAreUndone,
};

use doc_undo_laws::{attributes_are_given_back, deletions_are_undone, insertions_are_undone};
use edit_command_laws::edits_keep_trees;
use edit_iso_laws::scripts_go_on;
use name_scopes_laws::{edits_keep_scope, fragments_have_pieces};
use sch_base::qnames_split;
use subtree_events::subtrees_are_fragments;

/// The node that came is deleted.
pub fn inserts_are_undone()
    ensures { InsertsAreUndone }
{
    edits_keep_trees();
    insertions_are_undone();
}

/// The node says its own text again.
pub fn texts_are_undone()
    ensures { TextsAreUndone }
{}

/// The attribute has its own value again, or goes where it came.
pub fn settings_are_undone()
    ensures { SettingsAreUndone }
{
    attributes_are_given_back();
}

/// The attribute comes again, and those behind it in their order.
pub fn unsettings_are_undone()
    ensures { UnsettingsAreUndone }
{
    attributes_are_given_back();
    qnames_split();
}

/// The element has its own name again.
pub fn renames_are_undone()
    ensures { RenamesAreUndone }
{
    qnames_split();
}

/// The attribute has its own name again.
pub fn attribute_renames_are_undone()
    ensures { AttributeRenamesAreUndone }
{
    qnames_split();
}

/// The node comes again with all below it, where no two texts met.
pub fn lone_deletions_are_undone()
    ensures { LoneDeletionsAreUndone }
{
    deletions_are_undone();
    fragments_have_pieces();
    subtrees_are_fragments();
}

/// The left one of two texts that met says its own again, and then the node and the right one come again.
pub fn merging_deletions_are_undone()
    ensures { MergingDeletionsAreUndone }
{
    deletions_are_undone();
    fragments_have_pieces();
    subtrees_are_fragments();
    edits_keep_scope();
    edits_keep_trees();
    scripts_go_on();
    qnames_split();
}

/// Each command that was done is taken back by the commands that the tree before it tells.
pub fn commands_are_undone()
    ensures { CommandsAreUndone }
{
    inserts_are_undone();
    texts_are_undone();
    settings_are_undone();
    unsettings_are_undone();
    renames_are_undone();
    attribute_renames_are_undone();
    lone_deletions_are_undone();
    merging_deletions_are_undone();
}

/// A script can hold the commands that take a command back.
pub fn undoings_are_formed()
    ensures { UndoingsAreFormed }
{
    qnames_split();
    subtrees_are_fragments();
}
