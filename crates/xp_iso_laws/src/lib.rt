//! What an expression gives where the nodes of a tree are renumbered: the same, with the numbers changed.
#![tactic(auto)]

ghost use Rattle.xp_iso_laws.specs.Moves.{CellsMove, ExpressionsMove, PredicatesMove, StepsMove};

use tree_iso::renumbered_trees_hang;

/// Where a tree is another with its nodes renumbered, and so are the lets and the context, an expression gives the same value or
/// fault in both but for the numbers of nodes, reads the same cells of the nodes to which these went, and costs the same.
pub fn expressions_move()
    ensures expressions { ExpressionsMove }
    ensures steps { StepsMove }
    ensures predicates { PredicatesMove }
    ensures cells { CellsMove }
{
    renumbered_trees_hang();
}
