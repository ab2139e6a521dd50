//! Conversions and comparisons that record what they take (XPath 1.0, sections 3.4, 3.5 and 4).

ghost use Rattle.std.specs.Prelude.{◌≡◌, ℕ, List, pos, Ok, IfOk};
ghost use Rattle.doc_tree.specs.Walks.{string_value_of};
ghost use Rattle.xp_outcome.specs.Recorded.{Recorded};
ghost use Rattle.xp_outcome.specs.Running.{Ran};
ghost use Rattle.xp_meaning.specs.Conversions.{as_wanted, compare_in, compared_nodes, first_of, nodes_of, number_in, sum_from, sum_in, text_in};
ghost use Rattle.xp_values.specs.Outcomes.{Gives};
ghost use Rattle.xp_values.specs.declared.numbers.Num.TheVariants.{Whole};
ghost use Rattle.xp_values.specs.declared.numbers.Num.{Num};
ghost use Rattle.xp_values.specs.declared.values.EvalFault.{EvalFault};
ghost use Rattle.xp_values.specs.declared.values.Value.TheVariants as value_kinds;
ghost use Rattle.xp_values.specs.Comparisons.{is_truth};
ghost use Rattle.xp_values.specs.Numerals.{text_to_number};
ghost use Rattle.xp_meaning.specs.Functions.{as_number, as_text};
ghost use Rattle.xp_meaning.specs.Results.{shown, shown_alloc};
ghost use Rattle.xp_meaning.specs.Reads.{taking};
ghost use Rattle.xp_outcome.specs.Evaluation.{Evaluation, done};

use crate::caller::Caller;
use crate::comparisons::compare_values;
use crate::reading::take_texts;
use doc_tree::{NodeId, Tree};
use sch_base::Text;
use std::alloc::{AllocError, Global};
use std::sync::ledger::Ledger;
use xp_meaning::Want;
use xp_outcome::{Recorder, Steps};
use xp_values::{ArithOp, Comparison, EvalError, Num, Value, arith, text_to_number};

/// The nodes of a node-set, none of another value.
pub fn nodes_of(value: &Value) -> &[NodeId]
    ensures { result.now ≡ nodes_of value.now }
{
    match value {
        Value::NodeSet(nodes) => nodes.as_slice(),
        _ => &[],
    }
}

/// The first of some nodes alone.
fn first_of(nodes: &[NodeId]) -> &[NodeId]
    ensures { result.now ≡ first_of nodes.now }
{
    if nodes.is_empty() { nodes } else { &nodes[..1] }
}

/// Whether the value is a boolean.
fn is_truth(value: &Value) -> bool
    ensures { result ≡ is_truth value.now }
{
    matches!(value, Value::Truth(_))
}

/// Takes the string-values that a comparison of two values needs: those of the left side, then those of the right side.
fn take_compared<L: Ledger>(
    tree: &Tree,
    left: &Value,
    right: &Value,
    reads: &mut Recorder,
    steps: &mut Steps<L>,
) -> Result<(), AllocError>
    ensures { Ran (taking tree.now.nodes (compared_nodes left.now right.now) (done tt)) (shown_alloc result) reads.old reads.new steps.old steps.new }
{
    if is_truth(left) {
        return Ok(());
    }
    if is_truth(right) {
        return Ok(());
    }
    match take_texts(tree, nodes_of(left), reads, steps) {
        Ok(()) => take_texts(tree, nodes_of(right), reads, steps),
        Err(error) => Err(error),
    }
}

/// The number that a node's string-value is.
fn number_of_node(alloc: Global, tree: &Tree, n: NodeId) -> Result<Num, EvalError>
    ensures { Gives result (text_to_number (string_value_of tree.now.nodes n)) }
{
    let text = tree.string_value(alloc, n)?;
    Ok(text_to_number(text.as_str())?)
}

/// The numbers of some nodes added in turn, each sum in range.
fn sum_of(alloc: Global, tree: &Tree, nodes: &[NodeId]) -> Result<Num, EvalError>
    ensures { Gives result (sum_from tree.now.nodes (Whole (pos 0)) nodes.now) }
{
    let mut sum = Num::Whole(0);
    for n in nodes {
        let number = number_of_node(alloc, tree, *n)?;
        sum = arith(ArithOp::Add, sum, number)?;
    }
    Ok(sum)
}

/// A text, if there was memory for it.
pub(crate) fn allocated(text: Result<Text, AllocError>) -> Result<Text, EvalError>
    ensures { (meant : List ℕ) → IfOk text (λ t. t ≡ meant) → Gives result (Ok meant) }
{
    match text {
        Ok(text) => Ok(text),
        Err(_) => Err(EvalError::Memory),
    }
}

/// The text that a run answers with, as a value.
pub(crate) fn text_value(text: Result<Text, EvalError>) -> Result<Value, EvalError>
    ensures { (m : Evaluation EvalFault (List ℕ)) (held now : Recorded) (before after : ℕ) → Ran m (shown text) held now before after → Ran (as_text m) (shown result) held now before after }
{
    match text {
        Ok(text) => Ok(Value::Chars(text)),
        Err(error) => Err(error),
    }
}

/// The number that a run answers with, as a value.
pub(crate) fn number_value(number: Result<Num, EvalError>) -> Result<Value, EvalError>
    ensures { (m : Evaluation EvalFault Num) (held now : Recorded) (before after : ℕ) → Ran m (shown number) held now before after → Ran (as_number m) (shown result) held now before after }
{
    match number {
        Ok(number) => Ok(Value::Number(number)),
        Err(error) => Err(error),
    }
}

impl Caller<'_> {
    /// The value as a text.
    pub(crate) fn text_in<L: Ledger>(
        &self,
        value: &Value,
        reads: &mut Recorder,
        steps: &mut Steps<L>,
    ) -> Result<Text, EvalError>
        ensures { Ran (text_in self.now.tree.now.nodes value.now) (shown result) reads.old reads.new steps.old steps.new }
    {
        match take_texts(self.tree, first_of(nodes_of(value)), reads, steps) {
            Ok(()) => allocated(xp_values::to_text(self.alloc, self.tree, value)),
            Err(_) => Err(EvalError::Memory),
        }
    }

    /// The value as a number.
    pub fn number_in<L: Ledger>(
        &self,
        value: &Value,
        reads: &mut Recorder,
        steps: &mut Steps<L>,
    ) -> Result<Num, EvalError>
        ensures { Ran (number_in self.now.tree.now.nodes value.now) (shown result) reads.old reads.new steps.old steps.new }
    {
        match take_texts(self.tree, first_of(nodes_of(value)), reads, steps) {
            Ok(()) => xp_values::to_number(self.alloc, self.tree, value),
            Err(_) => Err(EvalError::Memory),
        }
    }

    /// Compares two values.
    pub fn compare_in<L: Ledger>(
        &self,
        operator: Comparison,
        left: &Value,
        right: &Value,
        reads: &mut Recorder,
        steps: &mut Steps<L>,
    ) -> Result<bool, EvalError>
        ensures { Ran (compare_in self.now.tree.now.nodes operator left.now right.now) (shown result) reads.old reads.new steps.old steps.new }
    {
        match take_compared(self.tree, left, right, reads, steps) {
            Ok(()) => compare_values(self.alloc, self.tree, operator, left, right),
            Err(_) => Err(EvalError::Memory),
        }
    }

    /// Compares a value with a text, as `compare_in` does where the text is a value. The text takes no reads, and no copy of
    /// it is made.
    pub fn compare_text_in<L: Ledger>(
        &self,
        operator: Comparison,
        left: &Value,
        text: &str,
        reads: &mut Recorder,
        steps: &mut Steps<L>,
    ) -> Result<bool, EvalError>
        ensures { Ran (compare_in self.now.tree.now.nodes operator left.now (value_kinds.Chars text.now)) (shown result) reads.old reads.new steps.old steps.new }
    {
        match take_texts(self.tree, nodes_of(left), reads, steps) {
            Ok(()) => xp_values::compare_text(self.alloc, self.tree, operator, left, text),
            Err(_) => Err(EvalError::Memory),
        }
    }

    /// Compares some nodes with a text, as `compare_in` does where they are a node-set and the text is a value. Neither is
    /// copied.
    pub fn compare_nodes_in<L: Ledger>(
        &self,
        operator: Comparison,
        nodes: &[NodeId],
        text: &str,
        reads: &mut Recorder,
        steps: &mut Steps<L>,
    ) -> Result<bool, EvalError>
        ensures { Ran (compare_in self.now.tree.now.nodes operator (value_kinds.NodeSet nodes.now) (value_kinds.Chars text.now)) (shown result) reads.old reads.new steps.old steps.new }
    {
        match take_texts(self.tree, nodes, reads, steps) {
            Ok(()) => xp_values::compare_nodes(self.alloc, self.tree, operator, nodes, text),
            Err(_) => Err(EvalError::Memory),
        }
    }

    /// The sum of the numbers of some nodes (XPath 1.0, section 4.4): their string-values are all taken, and then each is
    /// converted and added in turn.
    pub(crate) fn sum_in<L: Ledger>(
        &self,
        nodes: &[NodeId],
        reads: &mut Recorder,
        steps: &mut Steps<L>,
    ) -> Result<Num, EvalError>
        ensures { Ran (sum_in self.now.tree.now.nodes nodes.now) (shown result) reads.old reads.new steps.old steps.new }
    {
        match take_texts(self.tree, nodes, reads, steps) {
            Ok(()) => sum_of(self.alloc, self.tree, nodes),
            Err(_) => Err(EvalError::Memory),
        }
    }

    /// The value as it is wanted.
    pub fn as_wanted<L: Ledger>(
        &self,
        want: Want,
        value: Value,
        reads: &mut Recorder,
        steps: &mut Steps<L>,
    ) -> Result<Value, EvalError>
        ensures { Ran (as_wanted self.now.tree.now.nodes want value) (shown result) reads.old reads.new steps.old steps.new }
    {
        match want {
            Want::AsItIs => Ok(value),
            Want::AsText => self.text_wanted(value, reads, steps),
            Want::AsNumber => self.number_wanted(value, reads, steps),
        }
    }

    /// The text of a value, as a value.
    fn text_wanted<L: Ledger>(
        &self,
        value: Value,
        reads: &mut Recorder,
        steps: &mut Steps<L>,
    ) -> Result<Value, EvalError>
        ensures { Ran (as_text (text_in self.now.tree.now.nodes value)) (shown result) reads.old reads.new steps.old steps.new }
    {
        let text = self.text_in(&value, reads, steps);
        drop(value);
        text_value(text)
    }

    /// The number of a value, as a value.
    fn number_wanted<L: Ledger>(
        &self,
        value: Value,
        reads: &mut Recorder,
        steps: &mut Steps<L>,
    ) -> Result<Value, EvalError>
        ensures { Ran (as_number (number_in self.now.tree.now.nodes value)) (shown result) reads.old reads.new steps.old steps.new }
    {
        let number = self.number_in(&value, reads, steps);
        drop(value);
        number_value(number)
    }
}
