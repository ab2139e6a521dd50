//! Walks from a node that put nodes at the end of a list, in document order but for the ways up.

ghost use Rattle.std.specs.Prelude.{◌≡◌, ◌++◌, ℕ, true, false, OnOk};
ghost use Rattle.doc_tree.specs.declared.axes.Axis.TheVariants as axes;
ghost use Rattle.doc_tree.specs.Lists.{mem};
ghost use Rattle.doc_tree.specs.Table.{is_live};
ghost use Rattle.doc_tree.specs.Walks.{ancestors, below};
ghost use Rattle.doc_axes.specs.Axes.{axis_order, is_attribute};
ghost use Rattle.doc_axes.specs.Plain.{plain, plain_below, NoAttributes};

use crate::siblings::{kids_before, kids_behind};
use doc_tree::{NodeId, NodeList, Tree};
use std::alloc::AllocError;

/// Puts the node's ancestors at the end of the list, nearest first.
pub(crate) fn push_ancestors(tree: &Tree, list: &mut NodeList, n: NodeId) -> Result<(), AllocError>
    ensures { OnOk result (list.new ≡ list.old ++ ancestors tree.now.nodes n) }
{
    tree.laws();
    if let Some(parent) = tree.parent(n) {
        list.push(parent)?;
        push_ancestors(tree, list, parent)?;
    }
    Ok(())
}

/// Puts a node that is no attribute and all below it but attributes at the end of the list.
pub(crate) fn push_plain(tree: &Tree, list: &mut NodeList, n: NodeId) -> Result<(), AllocError>
    requires { is_attribute tree.now.nodes n ≡ false }
    ensures { OnOk result (list.new ≡ list.old ++ plain tree.now.nodes (below tree.now.nodes n)) }
{
    tree.laws();
    list.push(n)?;
    for kid in tree.kids(n) {
        push_plain(tree, list, *kid)?;
    }
    Ok(())
}

/// `push_plain` of each of some nodes.
pub(crate) fn push_each_plain(
    tree: &Tree,
    list: &mut NodeList,
    nodes: &[NodeId],
) -> Result<(), AllocError>
    requires { NoAttributes tree.now.nodes nodes.now }
    ensures { OnOk result (list.new ≡ list.old ++ plain_below tree.now.nodes nodes.now) }
{
    for n in nodes {
        push_plain(tree, list, *n)?;
    }
    Ok(())
}

/// Puts the nodes that follow a live node at the end of the list.
pub(crate) fn push_following(tree: &Tree, list: &mut NodeList, n: NodeId) -> Result<(), AllocError>
    requires { is_live tree.now.nodes n ≡ true }
    ensures { OnOk result (list.new ≡ list.old ++ axis_order tree.now.nodes axes.Following n) }
{
    tree.laws();
    if let Some(parent) = tree.parent(n) {
        push_each_plain(tree, list, kids_behind(tree.kids(parent), n))?;
        push_following(tree, list, parent)?;
    }
    Ok(())
}

/// Puts the nodes that precede a live node at the end of the list, in document order.
pub(crate) fn push_preceding(tree: &Tree, list: &mut NodeList, n: NodeId) -> Result<(), AllocError>
    requires { is_live tree.now.nodes n ≡ true }
    ensures { OnOk result (list.new ≡ list.old ++ axis_order tree.now.nodes axes.Preceding n) }
{
    tree.laws();
    if let Some(parent) = tree.parent(n) {
        push_preceding(tree, list, parent)?;
        push_each_plain(tree, list, kids_before(tree.kids(parent), n))?;
    }
    Ok(())
}
