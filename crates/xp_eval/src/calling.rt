//! The calls that evaluate an expression, and a step of one.

ghost use Rattle.xp_outcome.specs.Running.{Ran};
ghost use Rattle.xp_meaning.specs.Results.{shown};
ghost use Rattle.xp_meaning.specs.Evaluation.{meaning};
ghost use Rattle.xp_meaning.specs.Paths.{step_at};
ghost use Rattle.xp_eval.specs.Steps.{step_meant};

use crate::evaluator::Evaluator;
use doc_tree::{NodeId, NodeList, Tree};
use std::alloc::Global;
use std::sync::ledger::Ledger;
use xp_calls::Caller;
use xp_meaning::{Context, Lets};
use xp_outcome::{Recorder, Steps};
use xp_typed_tree::{Typed, TypedStep};
use xp_values::{EvalError, Value};

/// Evaluates an expression in a context (XPath 1.0, sections 2 to 4).
///
/// The answer is the expression's value or its first fault: operands go from left to right, nodes in document order, the
/// candidates of a step in its axis's order. Beside what it held, the recorder holds what was read, and the count has
/// risen by the visits; see `Ran` for what stands where memory is wanting.
pub fn eval<L: Ledger>(
    alloc: Global,
    tree: &Tree,
    expr: &Typed,
    at: &Context,
    lets: &Lets,
    reads: &mut Recorder,
    steps: &mut Steps<L>,
) -> Result<Value, EvalError>
    ensures { Ran (meaning tree.now.nodes lets.now expr.now at.now) (shown result) reads.old reads.new steps.old steps.new }
{
    let caller = Caller { alloc, tree };
    Evaluator { caller, lets }.evaluate(expr.tree(), at, reads, steps)
}

/// Evaluates a step at a node: the nodes that it selects there, in the axis's own order (XPath 1.0, section 2.1).
pub fn step_at<L: Ledger>(
    alloc: Global,
    tree: &Tree,
    step: &TypedStep,
    n: NodeId,
    current: NodeId,
    lets: &Lets,
    reads: &mut Recorder,
    steps: &mut Steps<L>,
) -> Result<NodeList, EvalError>
    ensures { Ran (step_at tree.now.nodes (step_meant tree.now.nodes lets.now step.now) current n) (shown result) reads.old reads.new steps.old steps.new }
{
    let caller = Caller { alloc, tree };
    Evaluator { caller, lets }.step_at(step, current, n, reads, steps)
}
