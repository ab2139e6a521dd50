//! The nodes on an axis that pass a node test (XPath 1.0, sections 2.2 and 2.3).

ghost use Rattle.std.specs.Prelude.{◌≡◌, ◌++◌, ℕ, true, false, filter, length, IfOk, OnOk};
ghost use Rattle.doc_tree.specs.declared.axes.NodeTest.TheVariants as tests;
ghost use Rattle.doc_tree.specs.Lists.{mem};
ghost use Rattle.doc_tree.specs.Table.{Table, is_live};
ghost use Rattle.doc_axes.specs.Axes.{axis_nodes};
ghost use Rattle.doc_axes.specs.NodeTests.{passes};
ghost use Rattle.doc_axes.specs.inner.Found.{found_on};
ghost use Rattle.doc_axes.specs.inner.Lending.{lent_nodes};

use crate::axes::{axis_nodes, push_axis};
use crate::judged::{Judged, passes_by};
use crate::lent::{Lent, lent_nodes};
use doc_tree::{Axis, NodeId, NodeList, NodeTest, Tree};
use std::alloc::{AllocError, Global};

/// Puts the nodes on the axis from a live node that pass the test at the end of the list, in the axis's own order, and
/// tells how many nodes the axis has.
///
/// Costs as much as `axis_nodes` and a test for each node. Only the list takes memory where the nodes are kids, attributes
/// or siblings, and on most axes where all nodes pass.
pub fn push_passing(
    alloc: Global,
    tree: &Tree,
    axis: Axis,
    test: &NodeTest,
    n: NodeId,
    list: &mut NodeList,
) -> Result<usize, AllocError>
    requires { is_live tree.now.nodes n ≡ true }
    ensures pushed { OnOk result (list.new ≡ list.old ++ filter (passes tree.now.nodes axis test.now) (axis_nodes tree.now.nodes axis n)) }
    ensures counted { IfOk result (λ count. count ≡ length (axis_nodes tree.now.nodes axis n)) }
{
    tree.laws();
    if let Some(lent) = lent_nodes(tree, n, axis) {
        return push_those(tree, axis, test, lent, list);
    }
    if is_any(test) && !is_turned(axis) {
        return push_all_on(tree, axis, n, list);
    }
    let nodes = axis_nodes(alloc, tree, n, axis)?;
    push_those(tree, axis, test, Lent::from_start(nodes.as_slice()), list)
}

/// Whether the test is the one that all nodes pass.
fn is_any(test: &NodeTest) -> bool
    ensures { result ≡ true → test.now ≡ tests.Any }
{
    matches!(test, NodeTest::Any)
}

/// Whether `push_axis` finds the nodes of the axis from its end.
fn is_turned(axis: Axis) -> bool
    ensures { result ≡ false → (T : Table) (n : ℕ) → found_on T axis n ≡ axis_nodes T axis n }
{
    matches!(axis, Axis::Preceding | Axis::PrecedingSibling)
}

/// Puts all nodes on an axis from a live node at the end of the list, and tells how many they are.
fn push_all_on(tree: &Tree, axis: Axis, n: NodeId, list: &mut NodeList) -> Result<usize, AllocError>
    requires { is_live tree.now.nodes n ≡ true }
    ensures pushed { OnOk result (list.new ≡ list.old ++ found_on tree.now.nodes axis n) }
    ensures counted { IfOk result (λ count. count ≡ length (found_on tree.now.nodes axis n)) }
{
    let before = list.len();
    push_axis(tree, list, n, axis)?;
    Ok(list.len() - before)
}

/// Puts those of some live nodes that pass the test at the end of the list, and tells how many nodes there are. A name is compared where it is
/// not known yet.
fn push_those(
    tree: &Tree,
    axis: Axis,
    test: &NodeTest,
    lent: Lent<'_>,
    list: &mut NodeList,
) -> Result<usize, AllocError>
    requires { (m : ℕ) → mem m (lent_nodes lent) ≡ true → is_live tree.now.nodes m ≡ true }
    ensures pushed { OnOk result (list.new ≡ list.old ++ filter (passes tree.now.nodes axis test.now) (lent_nodes lent.entry)) }
    ensures counted { IfOk result (λ count. count ≡ length (lent_nodes lent.entry)) }
{
    let count = lent.len();
    let mut judged = Judged::nothing();
    for place in 0..count {
        let n = lent.at(place);
        let stays = passes_by(tree, n, axis, test, &mut judged);
        list.push_if(n, stays)?;
    }
    Ok(count)
}
