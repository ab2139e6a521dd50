//! Nodes on an axis that the tree keeps as a list (XPath 1.0, section 2.2).

ghost use Rattle.std.specs.Prelude.{◌≡◌, ◌<◌, ◌≤◌, true, drop, length, slice_index_or, IfSome};
ghost use Rattle.doc_tree.specs.Table.{is_live};
ghost use Rattle.doc_tree.specs.declared.axes.Axis.TheVariants.{PrecedingSibling};
ghost use Rattle.doc_axes.specs.Axes.{axis_nodes, backwards};
ghost use Rattle.doc_axes.specs.inner.Lending.{AreFirstKids, lent_nodes};

use crate::axes::kids_beside;
use crate::laws::axes_by_cells;
use crate::siblings::{kids_before, kids_behind};
use doc_tree::{Axis, NodeId, Tree};

/// Nodes that the tree lends, which an axis goes over from the first or from the last.
#[derive(Clone, Copy)]
pub(crate) struct Lent<'t> {
    pub(crate) nodes: &'t [NodeId],
    pub(crate) from_end: bool,
}

/// The nodes on the axis from a live node, where the tree keeps them as a list.
pub(crate) fn lent_nodes(tree: &Tree, n: NodeId, axis: Axis) -> Option<Lent<'_>>
    requires { is_live tree.now.nodes n ≡ true }
    ensures nodes { IfSome result (λ lent. lent_nodes lent ≡ axis_nodes tree.now.nodes axis n) }
    ensures before { axis ≡ PrecedingSibling → IfSome result (AreFirstKids tree.now.nodes) }
{
    axes_by_cells(tree);
    match axis {
        Axis::Attribute => Some(Lent::from_start(tree.attrs(n))),
        Axis::Child => Some(Lent::from_start(tree.kids(n))),
        Axis::FollowingSibling => Some(Lent::from_start(kids_behind(kids_beside(tree, n), n))),
        Axis::PrecedingSibling => Some(Lent::from_end(kids_before(kids_beside(tree, n), n))),
        _ => None,
    }
}

impl<'t> Lent<'t> {
    /// Nodes from the first to the last.
    pub(crate) fn from_start(nodes: &'t [NodeId]) -> Lent<'t>
        ensures { lent_nodes result ≡ nodes.now }
    {
        Lent {
            nodes,
            from_end: false,
        }
    }

    /// Nodes from the last to the first.
    fn from_end(nodes: &'t [NodeId]) -> Lent<'t>
        ensures lent { lent_nodes result ≡ backwards nodes.now }
        ensures nodes { result.nodes.now ≡ nodes.now }
        ensures turned { result.from_end ≡ true }
    {
        Lent {
            nodes,
            from_end: true,
        }
    }

    /// How many nodes there are.
    pub(crate) fn len(self) -> usize
        ensures { result ≡ length (lent_nodes self.entry) }
    {
        self.nodes.len()
    }

    /// The node at a place, counted from 0 in the order in which they are gone over.
    pub(crate) fn at(self, place: usize) -> NodeId
        requires { place < length (lent_nodes self) }
        ensures { slice_index_or (lent_nodes self.entry) place result ≡ result }
    {
        if self.from_end {
            self.nodes[self.nodes.len() - 1 - place]
        } else {
            self.nodes[place]
        }
    }

    /// Those behind so many, in the same order.
    pub(crate) fn behind(self, count: usize) -> Lent<'t>
        requires { count ≤ length (lent_nodes self) }
        ensures { lent_nodes result ≡ drop count (lent_nodes self.entry) }
    {
        if self.from_end {
            Lent::from_end(self.nodes.split_at(self.nodes.len() - count).0)
        } else {
            Lent::from_start(self.nodes.split_at(count).1)
        }
    }
}
