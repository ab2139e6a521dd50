//! What renumbering is, and what it leaves, as calls that do nothing.

ghost use Rattle.tree_iso.specs.Renumbering.{RenumberedTreesAreSame, RenumberedTreesHang, SameTreesAreRenumbered};

use doc_table::well_formed_is_enough;

/// Where two trees are the same, one is the other with its nodes renumbered: each goes to the one at its position.
pub fn same_trees_are_renumbered()
    ensures { SameTreesAreRenumbered }
{
    well_formed_is_enough();
}

/// A tree whose nodes are renumbered is the same tree.
pub fn renumbered_trees_are_same()
    ensures { RenumberedTreesAreSame }
{}

/// What hangs together in a tree does so where it is renumbered: the root, the ways up, the texts and the lines below each node.
pub fn renumbered_trees_hang()
    ensures { RenumberedTreesHang }
{
    well_formed_is_enough();
}
