//! Matching where the nodes of a tree are renumbered: the same nodes match but for their numbers.
#![tactic(auto)]

ghost use Rattle.xslt_iso_laws.specs.Moves.{PatternsMove};

use tree_iso::renumbered_trees_hang;
use xp_iso_laws::expressions_move;

/// Where a tree is another with its nodes renumbered, and so are the lets, a node matches a pattern in the one just where the node
/// to which it went does in the other, with the same fault, by the same reads and at the same cost (XSLT 1.0, section 5.2).
pub fn patterns_move()
    ensures { PatternsMove }
{
    renumbered_trees_hang();
    expressions_move();
}
