//! The evaluation of expressions, part by part (XPath 1.0, sections 2 to 4).
//!
//! Each function answers what its definition in xp_meaning gives, and stops at the first fault.

ghost use Rattle.std.specs.Prelude.{◌≡◌, [], ◌∷◌, None, Some, flat_map};
ghost use Rattle.doc_axes.specs.Sets.{in_order};
ghost use Rattle.xp_values.specs.declared.values.Value.TheVariants as value_kinds;
ghost use Rattle.xp_outcome.specs.Evaluation.{done, given, bind};
ghost use Rattle.xp_outcome.specs.Running.{Ran};
ghost use Rattle.xp_meaning.specs.Conversions.{nodes_of, number_in, compare_in};
ghost use Rattle.xp_meaning.specs.Operators.{negated};
ghost use Rattle.xp_meaning.specs.Results.{shown};
ghost use Rattle.xp_typed_tree.specs.declared.expr.Compared.{out-Compared};
ghost use Rattle.xp_typed_tree.specs.TypedView.{typed_tree_of, typed_seen, place_of, compared_list_seen, combined_list_seen, typed_steps_seen};
ghost use Rattle.xp_meaning.specs.Functions.{applied};
ghost use Rattle.xp_meaning.specs.Paths.{kept, filtered, step_at, step_from, path};
ghost use Rattle.xp_meaning.specs.Evaluation.{meaning, meanings, some_true, all_true, compared, combined, values, start_nodes, comparands_meant, combinands_meant, steps_meant};
ghost use Rattle.xp_eval.specs.Steps.{step_meant};
ghost use Rattle.xp_eval.specs.inner.Places.{IsAskedAt};
ghost use Rattle.xp_eval.specs.inner.Reaching.{nodes_reached, shown_reached};
ghost use Rattle.xp_eval.specs.inner.Wants.{wanted_by};

use crate::answers::{
    holds_in, nodes_in, number_value, reached_set, set_value, text_value, truth_value,
};
use crate::candidates::{in_document_order, is_plain, to_document_order};
use crate::choosing::{joined, lone, lone_slot, size_of, union_of, wanted_by};
use crate::current::is_current;
use crate::own_node::own_comparison;
use crate::positions::{behind_first, keep_at, place_asked, placed_candidate};
use crate::reached::{Reached, lone_step};
use doc_axes::Placed;
use doc_tree::{NodeId, NodeList};
use sch_base::ItemList;
use std::sync::ledger::Ledger;
use xp_calls::{Caller, negate};
use xp_meaning::{Context, Lets};
use xp_outcome::{Recorder, Steps};
use xp_typed_tree::{Combined, Compared, Function, TypedExpr, TypedStart, TypedStep};
use xp_values::{EvalError, Num, Value, arith, to_truth};

/// What stays the same in an evaluation: what functions and conversions are called with, and the values of the lets.
#[derive(Clone, Copy)]
pub struct Evaluator<'r> {
    pub caller: Caller<'r>,
    pub lets: &'r Lets,
}

impl Evaluator<'_> {
    /// The value of an expression in a context. No list is made of a context node that is compared with a literal.
    #[cycle(evaluation)]
    pub(crate) fn evaluate<L: Ledger>(
        &self,
        expr: &TypedExpr,
        at: &Context,
        reads: &mut Recorder,
        steps: &mut Steps<L>,
    ) -> Result<Value, EvalError>
        ensures { Ran (meaning self.now.caller.tree.now.nodes self.now.lets.now (typed_tree_of expr.now) at.now) (shown result) reads.old reads.new steps.old steps.new }
    {
        steps.tick();
        match expr {
            TypedExpr::Or(operands) => truth_value(self.some_true(operands, at, reads, steps)),
            TypedExpr::And(operands) => truth_value(self.all_true(operands, at, reads, steps)),
            TypedExpr::Compare { first, rest } => {
                if let Some(literal) = own_comparison(self.caller.tree, first, rest, at.node) {
                    return self.compare_own(at.node, literal.operator, literal.text, reads, steps);
                }
                match self.evaluate(first, at, reads, steps) {
                    Ok(value) => self.compare_rest(rest, value, at, reads, steps),
                    Err(error) => Err(error),
                }
            }
            TypedExpr::Arith { first, rest } => match self.operand_number(first, at, reads, steps) {
                Ok(number) => number_value(self.combine_rest(rest, number, at, reads, steps)),
                Err(error) => Err(error),
            },
            TypedExpr::Negate { count, operand } => {
                self.negate_value(*count, operand, at, reads, steps)
            }
            TypedExpr::Union(operands) => self.union_value(operands, at, reads, steps),
            TypedExpr::Path { start, steps: path } => {
                match self.start_nodes(start, at, reads, steps) {
                    Ok(begin) => set_value(self.path_nodes(path, at.current, begin, reads, steps)),
                    Err(error) => Err(error),
                }
            }
            TypedExpr::Filter { base, predicates } => {
                match self.operand_nodes(base, at, reads, steps) {
                    Ok(set) => set_value(self.filter(predicates, at.current, set, reads, steps)),
                    Err(error) => Err(error),
                }
            }
            TypedExpr::Variable { slot, .. } => self.variable(*slot, reads),
            TypedExpr::Literal { value } => text_value(self.caller.alloc, value),
            TypedExpr::Number { value } => Ok(whole_value(value)),
            TypedExpr::Call { function, args } => {
                self.call_value(*function, args, at, reads, steps)
            }
        }
    }

    /// Whether some operand is true; those after it aren't evaluated (XPath 1.0, section 3.4).
    #[cycle(evaluation)]
    fn some_true<L: Ledger>(
        &self,
        operands: &[TypedExpr],
        at: &Context,
        reads: &mut Recorder,
        steps: &mut Steps<L>,
    ) -> Result<bool, EvalError>
        ensures { Ran (some_true (meanings self.now.caller.tree.now.nodes self.now.lets.now (typed_seen operands.now)) at.now) (shown result) reads.old reads.new steps.old steps.new }
    {
        for operand in operands {
            let value = self.evaluate(operand, at, reads, steps)?;
            if to_truth(&value) {
                return Ok(true);
            }
        }
        Ok(false)
    }

    /// Whether all operands are true, as predicates of one node or as operands of `and`; those after a false one aren't
    /// evaluated (XPath 1.0, section 3.4).
    #[cycle(evaluation)]
    pub fn all_true<L: Ledger>(
        &self,
        operands: &[TypedExpr],
        at: &Context,
        reads: &mut Recorder,
        steps: &mut Steps<L>,
    ) -> Result<bool, EvalError>
        ensures { Ran (all_true (meanings self.now.caller.tree.now.nodes self.now.lets.now (typed_seen operands.now)) at.now) (shown result) reads.old reads.new steps.old steps.new }
    {
        for operand in operands {
            let value = self.evaluate(operand, at, reads, steps)?;
            if !to_truth(&value) {
                return Ok(false);
            }
        }
        Ok(true)
    }

    /// Comparisons of a value with later operands, from left to right.
    #[cycle(evaluation)]
    fn compare_rest<L: Ledger>(
        &self,
        rest: &[Compared],
        value: Value,
        at: &Context,
        reads: &mut Recorder,
        steps: &mut Steps<L>,
    ) -> Result<Value, EvalError>
        ensures { Ran (compared self.now.caller.tree.now.nodes (comparands_meant self.now.caller.tree.now.nodes self.now.lets.now (compared_list_seen rest.now)) value at.now) (shown result) reads.old reads.new steps.old steps.new }
    {
        let mut value = value;
        for operand in rest {
            let truth = self.compare_operand(operand, &value, at, reads, steps)?;
            value = Value::Truth(truth);
        }
        Ok(value)
    }

    /// What the comparison of a value with one later operand gives. A literal is lent to it, and takes no memory.
    #[cycle(evaluation)]
    fn compare_operand<L: Ledger>(
        &self,
        operand: &Compared,
        value: &Value,
        at: &Context,
        reads: &mut Recorder,
        steps: &mut Steps<L>,
    ) -> Result<bool, EvalError>
        ensures { Ran (bind (meaning self.now.caller.tree.now.nodes self.now.lets.now (typed_tree_of (out-Compared operand.now).expr) at.now)
            (λ w. compare_in self.now.caller.tree.now.nodes (out-Compared operand.now).operator value.now w))
            (shown result) reads.old reads.new steps.old steps.new }
    {
        if let TypedExpr::Literal { value: text } = &operand.expr {
            steps.tick();
            return self
                .caller
                .compare_text_in(operand.operator, value, text.as_str(), reads, steps);
        }
        match self.evaluate(&operand.expr, at, reads, steps) {
            Ok(right) => self
                .caller
                .compare_in(operand.operator, value, &right, reads, steps),
            Err(error) => Err(error),
        }
    }

    /// The value of minus signs before an operand (XPath 1.0, section 3.5).
    #[cycle(evaluation)]
    fn negate_value<L: Ledger>(
        &self,
        signs: u32,
        operand: &TypedExpr,
        at: &Context,
        reads: &mut Recorder,
        steps: &mut Steps<L>,
    ) -> Result<Value, EvalError>
        ensures { Ran (bind (bind (meaning self.now.caller.tree.now.nodes self.now.lets.now (typed_tree_of operand.now) at.now) (number_in self.now.caller.tree.now.nodes))
            (λ x. bind (given (negated signs x)) (λ y. done (value_kinds.Number y))))
            (shown result) reads.old reads.new steps.old steps.new }
    {
        match self.operand_number(operand, at, reads, steps) {
            Ok(number) => Ok(Value::Number(negate(signs, number)?)),
            Err(error) => Err(error),
        }
    }

    /// Arithmetic on a number and later operands, from left to right: each operand is converted and combined before the
    /// next one is evaluated.
    #[cycle(evaluation)]
    fn combine_rest<L: Ledger>(
        &self,
        rest: &[Combined],
        number: Num,
        at: &Context,
        reads: &mut Recorder,
        steps: &mut Steps<L>,
    ) -> Result<Num, EvalError>
        ensures { Ran (combined self.now.caller.tree.now.nodes (combinands_meant self.now.caller.tree.now.nodes self.now.lets.now (combined_list_seen rest.now)) number at.now) (shown result) reads.old reads.new steps.old steps.new }
    {
        let mut number = number;
        for operand in rest {
            let right = self.operand_number(&operand.expr, at, reads, steps)?;
            number = arith(operand.operator, number, right)?;
        }
        Ok(number)
    }

    /// The number of an operand.
    #[cycle(evaluation)]
    fn operand_number<L: Ledger>(
        &self,
        operand: &TypedExpr,
        at: &Context,
        reads: &mut Recorder,
        steps: &mut Steps<L>,
    ) -> Result<Num, EvalError>
        ensures { Ran (bind (meaning self.now.caller.tree.now.nodes self.now.lets.now (typed_tree_of operand.now) at.now) (number_in self.now.caller.tree.now.nodes)) (shown result) reads.old reads.new steps.old steps.new }
    {
        match self.evaluate(operand, at, reads, steps) {
            Ok(value) => self.caller.number_in(&value, reads, steps),
            Err(error) => Err(error),
        }
    }

    /// The nodes of an operand, which is a node-set.
    #[cycle(evaluation)]
    fn operand_nodes<L: Ledger>(
        &self,
        operand: &TypedExpr,
        at: &Context,
        reads: &mut Recorder,
        steps: &mut Steps<L>,
    ) -> Result<NodeList, EvalError>
        ensures { Ran (bind (meaning self.now.caller.tree.now.nodes self.now.lets.now (typed_tree_of operand.now) at.now) (λ v. done (nodes_of v))) (shown result) reads.old reads.new steps.old steps.new }
    {
        nodes_in(self.caller.alloc, self.evaluate(operand, at, reads, steps))
    }

    /// The union of node-sets, as a value (XPath 1.0, section 3.3).
    #[cycle(evaluation)]
    fn union_value<L: Ledger>(
        &self,
        operands: &[TypedExpr],
        at: &Context,
        reads: &mut Recorder,
        steps: &mut Steps<L>,
    ) -> Result<Value, EvalError>
        ensures { Ran (bind (values self.now.caller.tree.now.nodes (wanted_by None) (meanings self.now.caller.tree.now.nodes self.now.lets.now (typed_seen operands.now)) at.now)
            (λ vs. done (value_kinds.NodeSet (in_order self.now.caller.tree.now.nodes (flat_map nodes_of vs)))))
            (shown result) reads.old reads.new steps.old steps.new }
    {
        match self.values(operands, None, at, reads, steps) {
            Ok(sets) => union_of(self.caller.alloc, self.caller.tree, sets.as_slice()),
            Err(error) => Err(error),
        }
    }

    /// What a function gives for arguments (XPath 1.0, section 3.2).
    #[cycle(evaluation)]
    fn call_value<L: Ledger>(
        &self,
        function: Function,
        operands: &[TypedExpr],
        at: &Context,
        reads: &mut Recorder,
        steps: &mut Steps<L>,
    ) -> Result<Value, EvalError>
        ensures { Ran (bind (values self.now.caller.tree.now.nodes (wanted_by (Some function)) (meanings self.now.caller.tree.now.nodes self.now.lets.now (typed_seen operands.now)) at.now)
            (λ vs. applied self.now.caller.tree.now.nodes function at.now vs))
            (shown result) reads.old reads.new steps.old steps.new }
    {
        match lone_slot(function, operands) {
            Some(slot) => self.call_on_let(function, slot, at, reads, steps),
            None => match self.values(operands, Some(function), at, reads, steps) {
                Ok(arguments) => {
                    self.caller
                        .apply(function, at, arguments.as_slice(), reads, steps)
                }
                Err(error) => Err(error),
            },
        }
    }

    /// The values of operands, each converted before the next one is evaluated.
    #[cycle(evaluation)]
    fn values<L: Ledger>(
        &self,
        operands: &[TypedExpr],
        function: Option<Function>,
        at: &Context,
        reads: &mut Recorder,
        steps: &mut Steps<L>,
    ) -> Result<ItemList<Value>, EvalError>
        ensures { Ran (values self.now.caller.tree.now.nodes (wanted_by function) (meanings self.now.caller.tree.now.nodes self.now.lets.now (typed_seen operands.now)) at.now) (shown result) reads.old reads.new steps.old steps.new }
    {
        let mut values = ItemList::new(self.caller.alloc);
        for (place, operand) in operands.iter().enumerate() {
            let value = self.evaluate(operand, at, reads, steps)?;
            let want = wanted_by(function, place);
            let value = self.caller.as_wanted(want, value, reads, steps)?;
            values.push(value)?;
        }
        Ok(values)
    }

    /// The nodes at which a path begins. No list is made of the root, of the context node, or of the node of `current()`,
    /// whose call is a visit.
    #[cycle(evaluation)]
    fn start_nodes<L: Ledger>(
        &self,
        start: &TypedStart,
        at: &Context,
        reads: &mut Recorder,
        steps: &mut Steps<L>,
    ) -> Result<Reached, EvalError>
        ensures { Ran (start_nodes self.now.caller.tree.now.nodes self.now.lets.now (place_of start.now) at.now) (shown_reached result) reads.old reads.new steps.old steps.new }
    {
        match start {
            TypedStart::Root => Ok(Reached::One(self.caller.tree.root())),
            TypedStart::Here => Ok(Reached::One(at.node)),
            TypedStart::From(base) => {
                if is_current(base) {
                    steps.tick();
                    return Ok(Reached::One(at.current));
                }
                reached_set(self.operand_nodes(base, at, reads, steps))
            }
        }
    }

    /// The nodes that a path's steps select from those at which it begins, one step after another. What the only step selects
    /// from one node is handed on as it is.
    #[cycle(evaluation)]
    fn path_nodes<L: Ledger>(
        &self,
        path_steps: &[TypedStep],
        current: NodeId,
        begin: Reached,
        reads: &mut Recorder,
        steps: &mut Steps<L>,
    ) -> Result<NodeList, EvalError>
        ensures { Ran (path self.now.caller.tree.now.nodes (steps_meant self.now.caller.tree.now.nodes self.now.lets.now (typed_steps_seen path_steps.now)) current (nodes_reached begin)) (shown result) reads.old reads.new steps.old steps.new }
    {
        if let Some(only) = lone_step(path_steps, &begin) {
            return self.step_from_one(only.step, current, only.n, reads, steps);
        }
        let mut nodes = begin;
        for step in path_steps {
            let selected = self.step_set(step, current, nodes.as_slice(), reads, steps)?;
            nodes = Reached::Set(selected);
        }
        nodes.into_list(self.caller.alloc)
    }

    /// The nodes that a step selects from one node, in document order: those of `step_at`, turned round where the axis runs
    /// backwards (XPath 1.0, section 2.4). They are not compared, and need no other list.
    #[cycle(evaluation)]
    fn step_from_one<L: Ledger>(
        &self,
        step: &TypedStep,
        current: NodeId,
        n: NodeId,
        reads: &mut Recorder,
        steps: &mut Steps<L>,
    ) -> Result<NodeList, EvalError>
        ensures { Ran (step_from self.now.caller.tree.now.nodes (step_meant self.now.caller.tree.now.nodes self.now.lets.now step.now) current (n ∷ [])) (shown result) reads.old reads.new steps.old steps.new }
    {
        self.caller.tree.laws();
        match self.step_at(step, current, n, reads, steps) {
            Ok(nodes) => Ok(to_document_order(step.axis, nodes)),
            Err(error) => Err(error),
        }
    }

    /// The nodes that a step selects from a set of nodes, in document order.
    #[cycle(evaluation)]
    fn step_set<L: Ledger>(
        &self,
        step: &TypedStep,
        current: NodeId,
        nodes: &[NodeId],
        reads: &mut Recorder,
        steps: &mut Steps<L>,
    ) -> Result<NodeList, EvalError>
        ensures { Ran (step_from self.now.caller.tree.now.nodes (step_meant self.now.caller.tree.now.nodes self.now.lets.now step.now) current nodes.now) (shown result) reads.old reads.new steps.old steps.new }
    {
        match lone(nodes) {
            Some(only) => self.step_from_one(step, current, *only, reads, steps),
            None => {
                if is_plain(step) {
                    self.plain_step(step, nodes, reads, steps)
                } else {
                    self.step_from_each(step, current, nodes, reads, steps)
                }
            }
        }
    }

    /// The nodes that a step selects from nodes, in document order: those of `step_at` at each of them, joined.
    #[cycle(evaluation)]
    fn step_from_each<L: Ledger>(
        &self,
        step: &TypedStep,
        current: NodeId,
        nodes: &[NodeId],
        reads: &mut Recorder,
        steps: &mut Steps<L>,
    ) -> Result<NodeList, EvalError>
        ensures { Ran (step_from self.now.caller.tree.now.nodes (step_meant self.now.caller.tree.now.nodes self.now.lets.now step.now) current nodes.now) (shown result) reads.old reads.new steps.old steps.new }
    {
        let mut selected = NodeList::new(self.caller.alloc);
        for n in nodes {
            let found = self.step_at(step, current, *n, reads, steps)?;
            selected = joined(selected, found)?;
        }
        in_document_order(self.caller.alloc, self.caller.tree, selected)
    }

    /// The nodes that a step selects at a node, in the axis's own order (XPath 1.0, section 2.1).
    #[cycle(evaluation)]
    pub fn step_at<L: Ledger>(
        &self,
        step: &TypedStep,
        current: NodeId,
        n: NodeId,
        reads: &mut Recorder,
        steps: &mut Steps<L>,
    ) -> Result<NodeList, EvalError>
        ensures { Ran (step_at self.now.caller.tree.now.nodes (step_meant self.now.caller.tree.now.nodes self.now.lets.now step.now) current n) (shown result) reads.old reads.new steps.old steps.new }
    {
        if is_plain(step) {
            return self.candidates(step, n, reads, steps);
        }
        if let Some(placed) = placed_candidate(self.caller.tree, step, n) {
            return self.step_to_place(step, placed, current, n, reads, steps);
        }
        match self.candidates(step, n, reads, steps) {
            Ok(nodes) => {
                if nodes.is_empty() {
                    Ok(nodes)
                } else {
                    self.filter(&step.predicates, current, nodes, reads, steps)
                }
            }
            Err(error) => Err(error),
        }
    }

    /// `step_at` where the first predicate asks for a place: the candidate there is filtered by the others.
    #[cycle(evaluation)]
    fn step_to_place<L: Ledger>(
        &self,
        step: &TypedStep,
        placed: Placed,
        current: NodeId,
        n: NodeId,
        reads: &mut Recorder,
        steps: &mut Steps<L>,
    ) -> Result<NodeList, EvalError>
        requires { IsAskedAt self.now.caller.tree.now.nodes step.now n placed }
        ensures { Ran (step_at self.now.caller.tree.now.nodes (step_meant self.now.caller.tree.now.nodes self.now.lets.now step.now) current n) (shown result) reads.old reads.new steps.old steps.new }
    {
        match self.take_place(step, placed, n, reads, steps) {
            Ok(nodes) => {
                let others = behind_first(&step.predicates);
                self.filter(others, current, nodes, reads, steps)
            }
            Err(error) => Err(error),
        }
    }

    /// The nodes for which predicates hold, each of which filters what the one before it has left.
    #[cycle(evaluation)]
    fn filter<L: Ledger>(
        &self,
        predicates: &[TypedExpr],
        current: NodeId,
        nodes: NodeList,
        reads: &mut Recorder,
        steps: &mut Steps<L>,
    ) -> Result<NodeList, EvalError>
        ensures { Ran (filtered (meanings self.now.caller.tree.now.nodes self.now.lets.now (typed_seen predicates.now)) current nodes) (shown result) reads.old reads.new steps.old steps.new }
    {
        let mut nodes = nodes;
        for predicate in predicates {
            nodes = self.keep_by(predicate, current, nodes.as_slice(), reads, steps)?;
        }
        Ok(nodes)
    }

    /// The nodes for which a predicate holds. One that asks for a place is not evaluated at each node.
    #[cycle(evaluation)]
    fn keep_by<L: Ledger>(
        &self,
        predicate: &TypedExpr,
        current: NodeId,
        nodes: &[NodeId],
        reads: &mut Recorder,
        steps: &mut Steps<L>,
    ) -> Result<NodeList, EvalError>
        ensures { Ran (kept (meaning self.now.caller.tree.now.nodes self.now.lets.now (typed_tree_of predicate.now)) current nodes.now) (shown result) reads.old reads.new steps.old steps.new }
    {
        match place_asked(predicate) {
            Some(asked) => keep_at(self.caller.alloc, asked.place(nodes.len()), nodes, steps),
            None => self.keep(predicate, current, nodes, reads, steps),
        }
    }

    /// The nodes for which a predicate holds, each at its position in the list.
    #[cycle(evaluation)]
    fn keep<L: Ledger>(
        &self,
        predicate: &TypedExpr,
        current: NodeId,
        nodes: &[NodeId],
        reads: &mut Recorder,
        steps: &mut Steps<L>,
    ) -> Result<NodeList, EvalError>
        ensures { Ran (kept (meaning self.now.caller.tree.now.nodes self.now.lets.now (typed_tree_of predicate.now)) current nodes.now) (shown result) reads.old reads.new steps.old steps.new }
    {
        let size = size_of(nodes)?;
        let mut kept = NodeList::new(self.caller.alloc);
        let mut position = 0;
        for n in nodes {
            position += 1;
            let at = Context {
                node: *n,
                position,
                size,
                current,
            };
            let stays = holds_in(position, self.evaluate(predicate, &at, reads, steps))?;
            kept.push_if(*n, stays)?;
        }
        Ok(kept)
    }
}

/// A whole number as a value.
fn whole_value(value: &i64) -> Value
    ensures { result ≡ value_kinds.Number (Num.Whole value.now) }
{
    Value::Number(Num::Whole(*value))
}
