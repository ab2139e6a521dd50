//! The ways of locations: from the root the steps of a node's location lead to that node, and to no other (XPath 1.0, section 2).
#![tactic(auto)]

ghost use Rattle.location_ways.specs.WayDown.{EachHasAWayDown};

use doc_axes::axes_by_cells;
use doc_tree::Tree;

/// Each node has a way down, whose steps spell its location, where the attributes have names that an expression can say.
pub fn each_node_has_a_way_down(tree: &Tree)
    ensures { EachHasAWayDown tree.now.nodes }
{
    tree.laws();
    axes_by_cells(tree);
}
