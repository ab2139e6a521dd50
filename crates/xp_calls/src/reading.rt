//! The recording of what evaluation reads.

ghost use Rattle.std.specs.Prelude.{◌≡◌, OnOk, OnErr, option_map};
ghost use Rattle.std.specs.Option.{option_to_list};
ghost use Rattle.doc_tree.specs.Table.{kind_of};
ghost use Rattle.doc_tree.specs.Kinds.{has_own_name, holds_kids};
ghost use Rattle.xp_outcome.specs.Evaluation.{cell, done};
ghost use Rattle.xp_outcome.specs.Recorded.{note_all};
ghost use Rattle.xp_outcome.specs.Running.{Ran};
ghost use Rattle.xp_meaning.specs.Reads.{axis_reads, is_by_name, name_read, names_tested, sibling_reads, text_read, taking};
ghost use Rattle.xp_meaning.specs.Results.{shown_alloc};

use doc_tree::{Axis, Cell, Kind, NodeId, NodeTest, Tree};
use std::alloc::AllocError;
use std::sync::ledger::Ledger;
use xp_outcome::{Recorder, Steps};

/// Whether the node is of a kind that has kids: the root or an element.
pub(crate) fn holds_kids(tree: &Tree, n: NodeId) -> bool
    ensures { result ≡ holds_kids (kind_of tree.now.nodes n) }
{
    matches!(tree.kind_of(n), Some(Kind::Root | Kind::Element))
}

/// The cell that a step along an axis from a node looks at, if there is one.
fn axis_cell(tree: &Tree, axis: Axis, n: NodeId) -> Option<Cell>
    ensures { option_to_list (option_map cell result) ≡ axis_reads tree.now.nodes axis n }
{
    match axis {
        Axis::Child => holds_kids(tree, n).then_some(Cell::Kids(n)),
        Axis::Descendant | Axis::DescendantOrSelf => {
            holds_kids(tree, n).then_some(Cell::Shape(n))
        }
        Axis::Following | Axis::Preceding => Some(Cell::Shape(tree.root())),
        Axis::FollowingSibling | Axis::PrecedingSibling => sibling_cell(tree, n),
        Axis::Attribute => tree.is_element(n).then_some(Cell::Attrs(n)),
        Axis::SelfNode | Axis::Parent | Axis::Ancestor | Axis::AncestorOrSelf => None,
    }
}

/// The list of kids in which the node stands; an attribute stands in none.
fn sibling_cell(tree: &Tree, n: NodeId) -> Option<Cell>
    ensures { option_to_list (option_map cell result) ≡ sibling_reads tree.now.nodes n }
{
    match tree.kind_of(n) {
        Some(Kind::Attribute) => None,
        _ => Some(Cell::Kids(tree.parent(n)?)),
    }
}

/// Records what a step along an axis from a node looks at.
pub fn read_axis(tree: &Tree, axis: Axis, n: NodeId, reads: &mut Recorder) -> Result<(), AllocError>
    ensures read { OnOk result (reads.new ≡ note_all reads.old (axis_reads tree.now.nodes axis n)) }
    ensures unchanged { OnErr result (reads.new ≡ reads.old) }
{
    match axis_cell(tree, axis, n) {
        Some(cell) => reads.add(cell),
        None => Ok(()),
    }
}

/// Whether a node test looks at names; the target of an instruction is none (XPath 1.0, section 2.3).
pub fn is_by_name(test: &NodeTest) -> bool
    ensures { result ≡ is_by_name test.now }
{
    matches!(test, NodeTest::InNamespace { .. } | NodeTest::Named { .. })
}

/// Records the names along an axis from a node, where a step's test looks at names. They are one item, however many nodes stand
/// on the axis.
pub fn read_names(
    axis: Axis,
    test: &NodeTest,
    n: NodeId,
    reads: &mut Recorder,
) -> Result<(), AllocError>
    ensures read { OnOk result (reads.new ≡ note_all reads.old (names_tested axis test.now n)) }
    ensures unchanged { OnErr result (reads.new ≡ reads.old) }
{
    if is_by_name(test) {
        reads.add_names(axis, n)
    } else {
        Ok(())
    }
}

/// Whether the node is of a kind that has a name: an element or an attribute.
fn has_own_name(tree: &Tree, n: NodeId) -> bool
    ensures { result ≡ has_own_name (kind_of tree.now.nodes n) }
{
    matches!(tree.kind_of(n), Some(Kind::Element | Kind::Attribute))
}

/// The cell of a node's name, where there is a node whose kind has a name.
fn name_cell(tree: &Tree, n: &Option<NodeId>) -> Option<Cell>
    ensures { option_to_list (option_map cell result) ≡ name_read tree.now.nodes n.now }
{
    match n {
        Some(n) => has_own_name(tree, *n).then_some(Cell::Name(*n)),
        None => None,
    }
}

/// Records the name of a node, where there is a node whose kind has a name.
pub fn read_name(tree: &Tree, n: &Option<NodeId>, reads: &mut Recorder) -> Result<(), AllocError>
    ensures read { OnOk result (reads.new ≡ note_all reads.old (name_read tree.now.nodes n.now)) }
    ensures unchanged { OnErr result (reads.new ≡ reads.old) }
{
    match name_cell(tree, n) {
        Some(cell) => reads.add(cell),
        None => Ok(()),
    }
}

/// The cell in which a node's string-value is read.
fn text_cell(tree: &Tree, n: NodeId) -> Cell
    ensures { cell result ≡ text_read tree.now.nodes n }
{
    if holds_kids(tree, n) {
        Cell::Text(n)
    } else {
        Cell::Value(n)
    }
}

/// Records that the string-values of some nodes are taken, with one step each.
pub(crate) fn take_texts<L: Ledger>(
    tree: &Tree,
    nodes: &[NodeId],
    reads: &mut Recorder,
    steps: &mut Steps<L>,
) -> Result<(), AllocError>
    ensures { Ran (taking tree.now.nodes nodes.now (done tt)) (shown_alloc result) reads.old reads.new steps.old steps.new }
{
    for n in nodes {
        reads.add(text_cell(tree, *n))?;
        steps.tick();
    }
    Ok(())
}
