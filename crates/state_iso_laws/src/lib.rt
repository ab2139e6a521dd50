//! Two trees that are equal but for the numbers of their nodes have equal states: the same report, or the same line of a fault.
#![tactic(auto)]

ghost use Rattle.state_iso_laws.specs.States.{LocationsStay, SameLinesShowTheSame, SameTreesShowTheSame, SavedDocumentsShowTheSame};

use doc_tree::same_lines_same_tree;
use name_scopes::tree_comes_back;
use sch_iso_laws::{units_move, verdicts_move};
use tree_iso::{renumbered_trees_hang, same_trees_are_renumbered};

/// Where the nodes of a tree are renumbered, a node is found at the same location as before.
pub fn locations_stay()
    ensures { LocationsStay }
{
    renumbered_trees_hang();
}

/// Two trees that are the same but for the numbers of their nodes have the same text of their states by every plan, and it shows
/// the same.
pub fn same_trees_show_the_same()
    ensures { SameTreesShowTheSame }
{
    same_trees_are_renumbered();
    locations_stay();
    units_move();
    verdicts_move();
}

/// So have two trees of the same lines.
pub fn same_lines_show_the_same()
    ensures { SameLinesShowTheSame }
{
    same_lines_same_tree();
    same_trees_show_the_same();
}

/// A document that was written and is read back has the state that it had: any tree of the events of its text, as `load_tree` gives
/// it, has as many nodes, and by every plan the same text, which shows the same.
pub fn saved_documents_show_the_same()
    ensures { SavedDocumentsShowTheSame }
{
    tree_comes_back();
    same_trees_are_renumbered();
    same_trees_show_the_same();
}
