//! Predicates that are a position: a whole number, or `last()` (XPath 1.0, section 2.4). The node there is taken at once, and the predicate's visits
//! at all nodes are added up.

ghost use Rattle.std.specs.Prelude.{◌≡◌, ℕ, List, ◌∷◌, length, pos, true, IfOk, IfSome};
ghost use Rattle.std.specs.Option.{option_to_list};
ghost use Rattle.doc_tree.specs.Table.{Table, is_live};
ghost use Rattle.doc_axes.specs.Axes.{axis_nodes};
ghost use Rattle.doc_axes.specs.Places.{IsPlaced, node_at};
ghost use Rattle.xp_typed_tree.specs.declared.expr.TypedExpr.{TypedExpr};
ghost use Rattle.xp_typed_tree.specs.declared.expr.TypedStep.{out-TypedStep};
ghost use Rattle.xp_typed_tree.specs.TypedView.{typed_tree_of};
ghost use Rattle.xp_typed_tree.specs.declared.function.Function.TheVariants as functions;
ghost use Rattle.xp_outcome.specs.Evaluation.{bind, done, visit, visits};
ghost use Rattle.xp_outcome.specs.Recorded.{Recorded};
ghost use Rattle.xp_outcome.specs.Running.{Ran};
ghost use Rattle.xp_meaning.specs.declared.context.Context.{Context};
ghost use Rattle.xp_meaning.specs.Evaluation.{Lets, meaning};
ghost use Rattle.xp_meaning.specs.Functions.{counted};
ghost use Rattle.xp_meaning.specs.Paths.{Meaning, kept, placed};
ghost use Rattle.xp_meaning.specs.Results.{shown};
ghost use Rattle.xp_eval.specs.inner.Candidates.{candidates_of, found};
ghost use Rattle.xp_eval.specs.inner.Places.{IsAskedAt, place_for};

use crate::evaluator::Evaluator;
use doc_axes::{Placed, passing_at};
use doc_tree::{NodeId, NodeList, Tree};
use std::alloc::{AllocError, Global};
use std::sync::ledger::Ledger;
use xp_outcome::{Recorder, Steps};
use xp_typed_tree::{Function, TypedExpr, TypedStep};
use xp_values::EvalError;

/// The place that a predicate asks for.
#[derive(Clone, Copy)]
pub(crate) enum Asked {
    /// This one, counted from 1.
    At(usize),
    /// That of the last node.
    Last,
}

impl Asked {
    /// The place among so many nodes.
    pub(crate) fn place(self, size: usize) -> usize
        ensures { result ≡ place_for self size }
    {
        match self {
            Asked::At(place) => place,
            Asked::Last => size,
        }
    }
}

/// The place that a predicate asks for, where it is a position.
pub(crate) fn place_asked(predicate: &TypedExpr) -> Option<Asked>
    ensures { IfSome result (λ at. (T : Table) (L : Lets) (c : Context) → meaning T L (typed_tree_of predicate.now) c ≡ visit (done (counted (place_for at c.size)))) }
{
    match predicate {
        TypedExpr::Number { value } => match place_of(value) {
            Some(place) => Some(Asked::At(place)),
            None => None,
        },
        TypedExpr::Call { function, args } => {
            if is_last(*function) && args.as_slice().is_empty() {
                Some(Asked::Last)
            } else {
                None
            }
        }
        _ => None,
    }
}

/// The candidate of a step at a node that has the place for which the first predicate asks, where there is such a predicate, and the tree keeps
/// a list of the nodes on the axis.
pub(crate) fn placed_candidate(tree: &Tree, step: &TypedStep, n: NodeId) -> Option<Placed>
    ensures { IfSome result (IsAskedAt tree.now.nodes step.now n) }
{
    let (first, _) = step.predicates.split_first()?;
    let asked = place_asked(first)?;
    if !tree.contains(n) {
        return None;
    }
    match asked {
        Asked::At(place) => passing_at(tree, step.axis, &step.test, n, place),
        Asked::Last => last_passing(tree, step, n),
    }
}

/// The predicates behind the first one.
pub(crate) fn behind_first(predicates: &[TypedExpr]) -> &[TypedExpr]
    ensures { (first : TypedExpr) (rest : List TypedExpr) → predicates.now ≡ first ∷ rest → result.now ≡ rest }
{
    match predicates.split_first() {
        Some((_, rest)) => rest,
        None => predicates,
    }
}

/// The last candidate of a step at a live node, where the tree keeps a list of the nodes on the axis.
fn last_passing(tree: &Tree, step: &TypedStep, n: NodeId) -> Option<Placed>
    requires { is_live tree.now.nodes n ≡ true }
    ensures { IfSome result (IsPlaced (length (found tree.now.nodes step.now n)) (axis_nodes tree.now.nodes (out-TypedStep step.now).axis n) (found tree.now.nodes step.now n)) }
{
    let all = passing_at(tree, step.axis, &step.test, n, 0)?;
    passing_at(tree, step.axis, &step.test, n, all.passing)
}

impl Evaluator<'_> {
    /// The candidate of a step at the place for which the first predicate asks. The visits of the step, and of that predicate at each candidate,
    /// are added up.
    pub(crate) fn take_place<L: Ledger>(
        &self,
        step: &TypedStep,
        placed: Placed,
        n: NodeId,
        reads: &mut Recorder,
        steps: &mut Steps<L>,
    ) -> Result<NodeList, EvalError>
        requires { placed.on_axis ≡ length (axis_nodes self.now.caller.tree.now.nodes (out-TypedStep step.now).axis n) }
        ensures { (predicate : Meaning) (current : ℕ) →
            kept predicate current (found self.now.caller.tree.now.nodes step.now n) ≡ visits placed.passing (done (option_to_list placed.node)) →
            Ran (bind (candidates_of self.now.caller.tree.now.nodes step.now n) (λ ms. kept predicate current ms)) (shown result) reads.old reads.new steps.old steps.new }
    {
        self.look_over(step, n, placed.on_axis, reads, steps)?;
        steps.tick_times(placed.passing);
        Ok(one_or_none(self.caller.alloc, placed.node)?)
    }
}

/// A whole number as a place; none is negative.
fn place_of(number: &i64) -> Option<usize>
    ensures { IfSome result (λ place. number.now ≡ pos place) }
{
    match usize::try_from(*number) {
        Ok(place) => Some(place),
        Err(_) => None,
    }
}

/// Whether the function is `last()`.
fn is_last(function: Function) -> bool
    ensures { result ≡ true → function ≡ functions.Last }
{
    matches!(function, Function::Last)
}

/// The nodes for which a predicate holds that asks for a place: the one there. Counts a step for each node.
pub(crate) fn keep_at<L: Ledger>(
    alloc: Global,
    place: usize,
    nodes: &[NodeId],
    steps: &mut Steps<L>,
) -> Result<NodeList, EvalError>
    ensures { (predicate : Meaning) (current : ℕ) (held : Recorded) →
        ((position n : ℕ) → predicate (placed current (length nodes.now) position n) ≡ visit (done (counted place))) →
        Ran (kept predicate current nodes.now) (shown result) held held steps.old steps.new }
{
    steps.tick_times(nodes.len());
    Ok(one_or_none(alloc, node_at(nodes, place))?)
}

/// The list of a node, or of none.
fn one_or_none(alloc: Global, n: Option<NodeId>) -> Result<NodeList, AllocError>
    ensures { IfOk result (λ list. list ≡ option_to_list n) }
{
    match n {
        Some(n) => NodeList::of_one(alloc, n),
        None => Ok(NodeList::new(alloc)),
    }
}

/// The node at a place, counted from 1.
fn node_at(nodes: &[NodeId], place: usize) -> Option<NodeId>
    ensures { result ≡ node_at place nodes.now }
{
    if place == 0 {
        return None;
    }
    match nodes.get(place - 1) {
        Some(n) => Some(*n),
        None => None,
    }
}
