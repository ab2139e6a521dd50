//! The candidates of steps: the nodes on an axis that pass a test (XPath 1.0, sections 2.2 and 2.3).

ghost use Rattle.std.specs.Prelude.{◌≡◌, [], ◌++◌, if◌then◌else◌, true, length, Ok, IfOk, OnOk};
ghost use Rattle.doc_axes.specs.Axes.{axis_nodes, backwards, is_reverse};
ghost use Rattle.xp_typed_tree.specs.declared.expr.TypedStep.{out-TypedStep};
ghost use Rattle.xp_outcome.specs.Running.{Ran};
ghost use Rattle.doc_axes.specs.Sets.{in_order};
ghost use Rattle.xp_values.specs.Outcomes.{Gives};
ghost use Rattle.xp_meaning.specs.Results.{shown};
ghost use Rattle.xp_eval.specs.inner.Candidates.{found, candidates_of, plain_step_from, shown_found};

use crate::answers::allocated;
use crate::evaluator::Evaluator;
use doc_axes::{axes_by_cells, into_document_order, push_passing};
use doc_tree::{Axis, NodeId, NodeList, Tree};
use std::alloc::{AllocError, Global};
use std::sync::ledger::Ledger;
use xp_calls::{Caller, read_axis, read_names};
use xp_outcome::{Recorder, Steps};
use xp_typed_tree::TypedStep;
use xp_values::EvalError;

impl Evaluator<'_> {
    /// The nodes that a step without predicates selects from a set of nodes, in document order: the candidates at all of
    /// them, put into one list.
    pub(crate) fn plain_step<L: Ledger>(
        &self,
        step: &TypedStep,
        nodes: &[NodeId],
        reads: &mut Recorder,
        steps: &mut Steps<L>,
    ) -> Result<NodeList, EvalError>
        ensures { Ran (plain_step_from self.now.caller.tree.now.nodes step.now nodes.now) (shown result) reads.old reads.new steps.old steps.new }
    {
        let mut selected = NodeList::new(self.caller.alloc);
        for n in nodes {
            self.push_candidates(step, *n, &mut selected, reads, steps)?;
        }
        in_document_order(self.caller.alloc, self.caller.tree, selected)
    }

    /// The nodes on the axis from a node that pass the test, in the axis's own order.
    pub(crate) fn candidates<L: Ledger>(
        &self,
        step: &TypedStep,
        n: NodeId,
        reads: &mut Recorder,
        steps: &mut Steps<L>,
    ) -> Result<NodeList, EvalError>
        ensures { Ran (candidates_of self.now.caller.tree.now.nodes step.now n) (shown result) reads.old reads.new steps.old steps.new }
    {
        let mut list = NodeList::new(self.caller.alloc);
        self.push_candidates(step, n, &mut list, reads, steps)?;
        Ok(list)
    }

    /// Puts the nodes on the axis from a node that pass the test at the end of the list, in the axis's own order, and looks the axis over.
    fn push_candidates<L: Ledger>(
        &self,
        step: &TypedStep,
        n: NodeId,
        list: &mut NodeList,
        reads: &mut Recorder,
        steps: &mut Steps<L>,
    ) -> Result<(), AllocError>
        ensures ran { Ran (candidates_of self.now.caller.tree.now.nodes step.now n) (shown_found (found self.now.caller.tree.now.nodes step.now n) result) reads.old reads.new steps.old steps.new }
        ensures pushed { OnOk result (list.new ≡ list.old ++ found self.now.caller.tree.now.nodes step.now n) }
    {
        let Caller { alloc, tree } = self.caller;
        let count = push_found(alloc, tree, step, n, list)?;
        self.look_over(step, n, count, reads, steps)
    }

    /// Records what a step's axis and test look at from a node, and counts a step for the node and one for each node on the axis.
    pub(crate) fn look_over<L: Ledger>(
        &self,
        step: &TypedStep,
        n: NodeId,
        on_axis: usize,
        reads: &mut Recorder,
        steps: &mut Steps<L>,
    ) -> Result<(), AllocError>
        requires { on_axis ≡ length (axis_nodes self.now.caller.tree.now.nodes (out-TypedStep step.now).axis n) }
        ensures { Ran (candidates_of self.now.caller.tree.now.nodes step.now n) (shown_found (found self.now.caller.tree.now.nodes step.now n) result) reads.old reads.new steps.old steps.new }
    {
        let tree = self.caller.tree;
        read_axis(tree, step.axis, n, reads)?;
        read_names(step.axis, &step.test, n, reads)?;
        steps.tick();
        steps.tick_times(on_axis);
        Ok(())
    }
}

/// Puts the nodes on the axis from a node that pass the test at the end of the list, and tells how many nodes the axis
/// has: none from a number at which no node lives. Nothing is looked for where the node has no attributes or no kids.
fn push_found(
    alloc: Global,
    tree: &Tree,
    step: &TypedStep,
    n: NodeId,
    list: &mut NodeList,
) -> Result<usize, AllocError>
    ensures pushed { OnOk result (list.new ≡ list.old ++ found tree.now.nodes step.now n) }
    ensures counted { IfOk result (λ count. count ≡ length (axis_nodes tree.now.nodes (out-TypedStep step.now).axis n)) }
{
    if is_bare(tree, step.axis, n) {
        return Ok(0);
    }
    tree.laws();
    if tree.contains(n) {
        push_passing(alloc, tree, step.axis, &step.test, n, list)
    } else {
        Ok(0)
    }
}

/// Whether the axis is that of attributes or of kids, and the node has none. Takes a constant time.
fn is_bare(tree: &Tree, axis: Axis, n: NodeId) -> bool
    ensures { result ≡ true → axis_nodes tree.now.nodes axis n ≡ [] }
{
    axes_by_cells(tree);
    tree.laws();
    match axis {
        Axis::Attribute => tree.attrs(n).is_empty(),
        Axis::Child => tree.kids(n).is_empty(),
        _ => false,
    }
}

/// Whether a step has no predicates.
pub(crate) fn is_plain(step: &TypedStep) -> bool
    ensures { result ≡ true → (out-TypedStep step.now).predicates.items ≡ [] }
{
    step.predicates.as_slice().is_empty()
}

/// Nodes in document order, each once (XPath 1.0, section 3.3).
pub(crate) fn in_document_order(
    alloc: Global,
    tree: &Tree,
    nodes: NodeList,
) -> Result<NodeList, EvalError>
    ensures { Gives result (Ok (in_order tree.now.nodes nodes)) }
{
    allocated(into_document_order(alloc, tree, nodes))
}

/// Nodes in an axis's own order, put in document order: turned round where the axis runs backwards (XPath 1.0, section 2.4).
/// Takes no memory.
#[tactic(auto, using(doc_axes::proofs::SubLists::backwards_reverse))]
pub(crate) fn to_document_order(axis: Axis, nodes: NodeList) -> NodeList
    ensures { result ≡ (if is_reverse axis then backwards nodes else nodes) }
{
    if is_reverse(axis) {
        nodes.reversed()
    } else {
        nodes
    }
}

/// Whether an axis runs backwards (XPath 1.0, section 2.4).
fn is_reverse(axis: Axis) -> bool
    ensures { result ≡ is_reverse axis }
{
    matches!(
        axis,
        Axis::Ancestor | Axis::AncestorOrSelf | Axis::Preceding | Axis::PrecedingSibling
    )
}
