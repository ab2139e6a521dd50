//! The nodes on an axis (XPath 1.0, section 2.2).

ghost use Rattle.std.specs.Prelude.{◌≡◌, ◌∷◌, ◌++◌, true, IfOk, OnOk};
ghost use Rattle.doc_tree.specs.Lists.{Distinct};
ghost use Rattle.doc_tree.specs.Table.{is_live, kids_of};
ghost use Rattle.doc_tree.specs.Walks.{ancestors};
ghost use Rattle.doc_tree.specs.declared.axes.Axis.TheVariants as axes;
ghost use Rattle.doc_axes.specs.Axes.{axis_nodes, kids_beside};
ghost use Rattle.doc_axes.specs.Plain.{plain_below};
ghost use Rattle.doc_axes.specs.inner.Found.{found_on};

use crate::laws::axes_by_cells;
use crate::siblings::{kids_before, kids_behind};
use crate::walks::{push_ancestors, push_each_plain, push_following, push_preceding};
use doc_tree::{Axis, Kind, NodeId, NodeList, Tree};
use std::alloc::{AllocError, Global};

/// The nodes on the axis from a live node, in the axis's own order: backwards for `ancestor`, `ancestor-or-self`,
/// `preceding` and `preceding-sibling` (XPath 1.0, sections 2.2 and 2.4). The axes `following` and `preceding` hold no
/// attribute, and an attribute has no siblings.
///
/// Costs time linear in the nodes that it lists, in the attributes and siblings beside them, and in the way up.
#[tactic(auto, using(crate::proofs::SubLists::backwards_reverse))]
pub fn axis_nodes(alloc: Global, tree: &Tree, n: NodeId, axis: Axis) -> Result<NodeList, AllocError>
    requires { is_live tree.now.nodes n ≡ true }
    ensures { IfOk result (λ nodes. nodes ≡ axis_nodes tree.now.nodes axis n) }
{
    let mut list = NodeList::new(alloc);
    push_axis(tree, &mut list, n, axis)?;
    Ok(match axis {
        Axis::Preceding | Axis::PrecedingSibling => list.reversed(),
        _ => list,
    })
}

/// Puts the nodes on the axis from a live node at the end of the list, the preceding ones in document order.
pub(crate) fn push_axis(
    tree: &Tree,
    list: &mut NodeList,
    n: NodeId,
    axis: Axis,
) -> Result<(), AllocError>
    requires { is_live tree.now.nodes n ≡ true }
    ensures { OnOk result (list.new ≡ list.old ++ found_on tree.now.nodes axis n) }
{
    axes_by_cells(tree);
    match axis {
        Axis::Ancestor => push_ancestors(tree, list, n),
        Axis::AncestorOrSelf => push_upwards(tree, list, n),
        Axis::Attribute => list.push_all(tree.attrs(n)),
        Axis::Child => list.push_all(tree.kids(n)),
        Axis::Descendant => push_below(tree, list, n),
        Axis::DescendantOrSelf => push_downwards(tree, list, n),
        Axis::Following => push_following(tree, list, n),
        Axis::FollowingSibling => list.push_all(kids_behind(kids_beside(tree, n), n)),
        Axis::Parent => push_parent(tree, list, n),
        Axis::Preceding => push_preceding(tree, list, n),
        Axis::PrecedingSibling => list.push_all(kids_before(kids_beside(tree, n), n)),
        Axis::SelfNode => list.push(n),
    }
}

/// Puts a node and then its ancestors, nearest first, at the end of the list.
fn push_upwards(tree: &Tree, list: &mut NodeList, n: NodeId) -> Result<(), AllocError>
    ensures { OnOk result (list.new ≡ list.old ++ n ∷ ancestors tree.now.nodes n) }
{
    list.push(n)?;
    push_ancestors(tree, list, n)
}

/// Puts a node and then all below it but attributes at the end of the list.
fn push_downwards(tree: &Tree, list: &mut NodeList, n: NodeId) -> Result<(), AllocError>
    ensures { OnOk result (list.new ≡ list.old ++ n ∷ plain_below tree.now.nodes (kids_of tree.now.nodes n)) }
{
    list.push(n)?;
    push_below(tree, list, n)
}

/// Puts all below a node but attributes at the end of the list.
fn push_below(tree: &Tree, list: &mut NodeList, n: NodeId) -> Result<(), AllocError>
    ensures { OnOk result (list.new ≡ list.old ++ plain_below tree.now.nodes (kids_of tree.now.nodes n)) }
{
    axes_by_cells(tree);
    push_each_plain(tree, list, tree.kids(n))
}

/// Puts the node's parent, where it has one, at the end of the list.
fn push_parent(tree: &Tree, list: &mut NodeList, n: NodeId) -> Result<(), AllocError>
    ensures { OnOk result (list.new ≡ list.old ++ axis_nodes tree.now.nodes axes.Parent n) }
{
    axes_by_cells(tree);
    match tree.parent(n) {
        Some(parent) => list.push(parent),
        None => Ok(()),
    }
}

/// The kids of the node's parent, none for an attribute and for the root.
pub(crate) fn kids_beside(tree: &Tree, n: NodeId) -> &[NodeId]
    requires { is_live tree.now.nodes n ≡ true }
    ensures beside { result.now ≡ kids_beside tree.now.nodes n }
    ensures once { Distinct result.now }
{
    tree.laws();
    if tree.kind(n) == Kind::Attribute {
        return &[];
    }
    match tree.parent(n) {
        Some(parent) => tree.kids(parent),
        None => &[],
    }
}
