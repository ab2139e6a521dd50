//! Names along axes, as they are held: those along upward axes one by one.

ghost use Rattle.std.specs.Prelude.{◌≡◌, true, OnOk};
ghost use Rattle.std.specs.List.{list_any};
ghost use Rattle.doc_axes.specs.Axes.{axis_nodes};
ghost use Rattle.cover_laws.specs.Covering.{is_upward};
ghost use Rattle.cell_covers.specs.inner.Naming.{with_along, with_each_name, with_name, with_names};

use doc_axes::axis_nodes;
use doc_tree::{Axis, Cell, NodeId, Tree};
use std::alloc::{AllocError, Global};
use xp_outcome::{NamesAlong, Recorder};

/// Whether names along an upward axis are among these.
pub(crate) fn has_upward(names: &[NamesAlong]) -> bool
    ensures { result ≡ list_any (λ along. is_upward along.axis) names.now }
{
    names.iter().any(|along| is_upward(along.axis))
}

/// Whether the axis stays or leads upward.
fn is_upward(axis: Axis) -> bool
    ensures { result ≡ is_upward axis }
{
    matches!(
        axis,
        Axis::SelfNode | Axis::Parent | Axis::Ancestor | Axis::AncestorOrSelf
    )
}

/// Adds names along axes. Costs the way up for each of an upward axis.
pub(crate) fn add_names(
    alloc: Global,
    tree: &Tree,
    names: &[NamesAlong],
    held: &mut Recorder,
) -> Result<(), AllocError>
    ensures { OnOk result (held.new ≡ with_names tree.now.nodes held.old names.now) }
{
    for along in names {
        add_along(alloc, tree, *along, held)?;
    }
    Ok(())
}

/// Adds the names along an axis.
fn add_along(
    alloc: Global,
    tree: &Tree,
    along: NamesAlong,
    held: &mut Recorder,
) -> Result<(), AllocError>
    ensures { OnOk result (held.new ≡ with_along tree.now.nodes held.old along) }
{
    if is_upward(along.axis) {
        spell_out(alloc, tree, along, held)
    } else {
        held.add_names(along.axis, along.node)
    }
}

/// Adds the names along an upward axis one by one. From a node that does not live it leads nowhere.
fn spell_out(
    alloc: Global,
    tree: &Tree,
    along: NamesAlong,
    held: &mut Recorder,
) -> Result<(), AllocError>
    requires { is_upward along.axis ≡ true }
    ensures { OnOk result (held.new ≡ with_each_name tree.now.nodes held.old (axis_nodes tree.now.nodes along.axis along.node)) }
{
    tree.laws();
    if !tree.contains(along.node) {
        return Ok(());
    }
    let nodes = axis_nodes(alloc, tree, along.node, along.axis)?;
    let added = add_each_name(tree, nodes.as_slice(), held);
    drop(nodes);
    added
}

/// Adds the names of those of some nodes that are elements.
fn add_each_name(tree: &Tree, nodes: &[NodeId], held: &mut Recorder) -> Result<(), AllocError>
    ensures { OnOk result (held.new ≡ with_each_name tree.now.nodes held.old nodes.now) }
{
    for node in nodes {
        add_name(tree, *node, held)?;
    }
    Ok(())
}

/// Adds the name of a node, where it is an element.
fn add_name(tree: &Tree, node: NodeId, held: &mut Recorder) -> Result<(), AllocError>
    ensures { OnOk result (held.new ≡ with_name tree.now.nodes held.old node) }
{
    if !tree.is_element(node) {
        return Ok(());
    }
    held.add(Cell::Name(node))
}
