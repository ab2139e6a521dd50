//! Comparisons of the context node with a literal, as in `. = 'text'` (XPath 1.0, sections 2.5 and 3.4). No list is made of
//! the node, and no copy of the literal.

ghost use Rattle.std.specs.Prelude.{◌≡◌, ℕ, true, [], ◌∷◌, IfSome};
ghost use Rattle.doc_tree.specs.Table.{Table, is_live};
ghost use Rattle.doc_tree.specs.declared.axes.Axis.TheVariants as axes;
ghost use Rattle.doc_tree.specs.declared.axes.NodeTest.TheVariants as tests;
ghost use Rattle.doc_axes.specs.AxesByCells.{AxesByCells};
ghost use Rattle.xp_values.specs.declared.values.Value.{Value};
ghost use Rattle.xp_values.specs.declared.values.Value.TheVariants as value_kinds;
ghost use Rattle.xp_outcome.specs.Evaluation.{done, bind, visit, visits};
ghost use Rattle.xp_outcome.specs.Running.{Ran};
ghost use Rattle.xp_typed_tree.specs.declared.expr.TypedStart.TheVariants as starts;
ghost use Rattle.xp_typed_tree.specs.TypedView.{typed_tree_of, typed_steps_seen, compared_list_seen};
ghost use Rattle.xp_meaning.specs.declared.context.Context.{Context};
ghost use Rattle.xp_meaning.specs.Conversions.{compare_in};
ghost use Rattle.xp_meaning.specs.Results.{shown};
ghost use Rattle.xp_meaning.specs.Paths.{path};
ghost use Rattle.xp_meaning.specs.Evaluation.{Lets, meaning, compared, comparands_meant, steps_meant};
ghost use Rattle.xp_eval.specs.Steps.{step_meant};
ghost use Rattle.xp_eval.specs.inner.OwnNode.{own_step, own_compared};

use crate::answers::truth_value;
use crate::candidates::is_plain;
use crate::choosing::lone;
use crate::evaluator::Evaluator;
use doc_axes::axes_by_cells;
use doc_tree::{Axis, NodeId, NodeTest, Tree};
use std::slice;
use std::sync::ledger::Ledger;
use xp_outcome::{Recorder, Steps};
use xp_typed_tree::{Compared, TypedExpr, TypedStart, TypedStep};
use xp_values::{Comparison, EvalError, Value};

/// A literal, with the comparison before it.
#[derive(Clone, Copy)]
pub(crate) struct Literal<'e> {
    pub(crate) operator: Comparison,
    pub(crate) text: &'e str,
}

impl Evaluator<'_> {
    /// What the comparison of the context node, which `.` gives, with a literal gives. `.`, its step, the node on the step's
    /// axis and the literal are a visit each.
    pub(crate) fn compare_own<L: Ledger>(
        &self,
        n: NodeId,
        operator: Comparison,
        literal: &str,
        reads: &mut Recorder,
        steps: &mut Steps<L>,
    ) -> Result<Value, EvalError>
        ensures { Ran (own_compared self.now.caller.tree.now.nodes operator n literal.now) (shown result) reads.old reads.new steps.old steps.new }
    {
        steps.tick_times(4);
        let own = slice::from_ref(&n);
        truth_value(
            self.caller
                .compare_nodes_in(operator, own, literal, reads, steps),
        )
    }
}

/// The literal that is compared with `.` where the operands are these two alone, and the context node lives.
pub(crate) fn own_comparison<'e>(
    tree: &Tree,
    first: &TypedExpr,
    rest: &'e [Compared],
    n: NodeId,
) -> Option<Literal<'e>>
    ensures { IfSome result (λ literal. (L : Lets) (c : Context) → c.node ≡ n →
        bind (meaning tree.now.nodes L (typed_tree_of first.now) c) (λ v. compared tree.now.nodes (comparands_meant tree.now.nodes L (compared_list_seen rest.now)) v c)
        ≡ own_compared tree.now.nodes literal.operator n literal.text.now) }
{
    let literal = lone_literal(rest)?;
    if is_own_node(tree, first, n) {
        Some(literal)
    } else {
        None
    }
}

/// The literal that is alone behind a first operand.
fn lone_literal(rest: &[Compared]) -> Option<Literal<'_>>
    ensures { IfSome result (λ literal. (T : Table) (L : Lets) (v : Value) (c : Context) → compared T (comparands_meant T L (compared_list_seen rest.now)) v c
        ≡ visit (bind (compare_in T literal.operator v (value_kinds.Chars literal.text.now)) (λ truth. done (value_kinds.Truth truth)))) }
{
    let operand = lone(rest)?;
    match &operand.expr {
        TypedExpr::Literal { value } => Some(Literal {
            operator: operand.operator,
            text: value.as_str(),
        }),
        _ => None,
    }
}

/// Whether the expression is `.`, and the context node lives.
fn is_own_node(tree: &Tree, expr: &TypedExpr, n: NodeId) -> bool
    ensures { result ≡ true → (L : Lets) (c : Context) → c.node ≡ n → meaning tree.now.nodes L (typed_tree_of expr.now) c ≡ visits 3 (done (value_kinds.NodeSet (n ∷ []))) }
{
    axes_by_cells(tree);
    if !tree.contains(n) {
        return false;
    }
    match expr {
        TypedExpr::Path { start, steps } => {
            if !is_here(start) {
                return false;
            }
            is_lone_self(steps)
        }
        _ => false,
    }
}

/// Whether a path begins at the context node.
fn is_here(start: &TypedStart) -> bool
    ensures { result ≡ true → start.now ≡ starts.Here }
{
    matches!(start, TypedStart::Here)
}

/// Whether the only step is `self::node()`.
fn is_lone_self(steps: &[TypedStep]) -> bool
    ensures { result ≡ true → (T : Table) (L : Lets) (current n : ℕ) → AxesByCells T → is_live T n ≡ true →
        path T (steps_meant T L (typed_steps_seen steps.now)) current (n ∷ []) ≡ visits 2 (done (n ∷ [])) }
{
    match lone(steps) {
        Some(step) => is_self(step),
        None => false,
    }
}

/// Whether the step is `self::node()`.
fn is_self(step: &TypedStep) -> bool
    ensures { result ≡ true → (T : Table) (L : Lets) → step_meant T L step.now ≡ own_step }
{
    if !is_self_axis(step.axis) {
        return false;
    }
    if !is_any(&step.test) {
        return false;
    }
    is_plain(step)
}

/// Whether the axis holds the node alone.
fn is_self_axis(axis: Axis) -> bool
    ensures { result ≡ true → axis ≡ axes.SelfNode }
{
    matches!(axis, Axis::SelfNode)
}

/// Whether the test is the one that all nodes pass.
fn is_any(test: &NodeTest) -> bool
    ensures { result ≡ true → test.now ≡ tests.Any }
{
    matches!(test, NodeTest::Any)
}
