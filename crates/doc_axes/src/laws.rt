//! Laws of the axes, for the proofs of callers.

ghost use Rattle.doc_axes.specs.Axes.{AxesPartition};
ghost use Rattle.doc_axes.specs.AxesByCells.{AxesByCells};

use doc_tree::Tree;

/// From any node, each node that is no attribute is an ancestor, a descendant, following, preceding or the node itself,
/// and just one of these (XPath 1.0, section 2.2).
pub fn axes_partition(tree: &Tree)
    ensures { AxesPartition tree.now.nodes }
{
    tree.laws();
}

/// What each axis holds by the kids, the attributes, the descendants or the way up that show it (XPath 1.0, section 2.2).
pub fn axes_by_cells(tree: &Tree)
    ensures { AxesByCells tree.now.nodes }
{
    tree.laws();
}
