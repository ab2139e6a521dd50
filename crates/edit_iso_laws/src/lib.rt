//! Commands of edit scripts on trees that are the same: they name corresponding nodes, and make the same tree. Laws, as calls that do
//! nothing.
#![tactic(auto)]

ghost use Rattle.edit_iso_laws.specs.CommandsMove.{CommandsMove, NumbersMove, RefusalsMove, ScriptsGoOn, ScriptsMove};
ghost use Rattle.edit_iso_laws.specs.PathsMove.{PathsMove};

use doc_iso_laws::{additions_move, changes_move};
use doc_tree::{one_table, well_formed_is_enough};
use edit_command_laws::{edits_keep_trees, edits_make_trees};
use tree_iso::{renumbered_trees_are_same, renumbered_trees_hang, same_trees_are_renumbered};

/// Paths, scopes and attributes by name.
pub fn paths_move()
    ensures { PathsMove }
{
    renumbered_trees_hang();
}

/// A command makes the same tree of trees that are the same.
pub fn commands_move()
    ensures { CommandsMove }
{
    well_formed_is_enough();
    one_table();
    changes_move();
    additions_move();
    paths_move();
    renumbered_trees_are_same();
    same_trees_are_renumbered();
}

/// So do commands one after another.
pub fn scripts_move()
    ensures { ScriptsMove }
{
    edits_keep_trees();
    commands_move();
}

/// What nothing speaks against in one of them, nothing speaks against in the other, unless it has too few numbers left.
pub fn refusals_move()
    ensures { RefusalsMove }
{
    renumbered_trees_hang();
    same_trees_are_renumbered();
    paths_move();
}

/// A command makes as many new numbers in one of them as in the other.
pub fn numbers_move()
    ensures { NumbersMove }
{
    renumbered_trees_hang();
    same_trees_are_renumbered();
    paths_move();
}

/// Commands that were done on one of them are done on the other, to the same end, with as many new numbers, where these are left.
pub fn scripts_go_on()
    ensures { ScriptsGoOn }
{
    edits_keep_trees();
    edits_make_trees();
    commands_move();
    refusals_move();
    numbers_move();
}
