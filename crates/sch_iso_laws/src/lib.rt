//! What a plan says of a tree whose nodes are renumbered: the same, with the numbers changed.
#![tactic(auto)]

ghost use Rattle.sch_iso_laws.specs.Moves.{GivenLetsMove, OwnLetsMove, VerdictsMove};

use tree_iso::renumbered_trees_hang;
use xp_iso_laws::expressions_move;
use xslt_iso_laws::patterns_move;

/// Where a tree is another with its nodes renumbered, a unit gives the same in both but for the numbers of nodes, reads the same
/// of the nodes to which these went, and costs the same. A unit is a let in force, or a node under a pattern; the lets are
/// given ones that are renumbered too, or those in force of each tree.
pub fn units_move()
    ensures given { GivenLetsMove }
    ensures own { OwnLetsMove }
{
    renumbered_trees_hang();
    expressions_move();
    patterns_move();
}

/// The first fault is at the node to which the first fault's node went, and there is a finding in both or in neither.
pub fn verdicts_move()
    ensures { VerdictsMove }
{
    units_move();
}
