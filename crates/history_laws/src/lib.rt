//! What a history of edits stands for. Laws, as calls that do nothing.
#![tactic(auto)]

ghost use Rattle.history_laws.specs.Histories.{HistoriesStand};

use doc_tree::{same_lines_same_tree, same_tree_same_lines};
use edit_command_laws::{edits_keep_trees, one_edit};
use edit_iso_laws::scripts_go_on;

/// The entries of a history stand for trees: as many, the same ones over each document that is the same, and after an undo all but
/// the newest one, which the document then is.
pub fn histories_stand()
    ensures { HistoriesStand }
{
    one_edit();
    edits_keep_trees();
    scripts_go_on();
    same_lines_same_tree();
    same_tree_same_lines();
}
