//! Comparisons (XPath 1.0, section 3.4).

ghost use Rattle.std.specs.Prelude.{◌≡◌, map};
ghost use Rattle.std.specs.List.{list_any};
ghost use Rattle.doc_tree.specs.Walks.{string_value_of};
ghost use Rattle.xp_values.specs.declared.values.Value.TheVariants as value_kinds;
ghost use Rattle.xp_values.specs.Comparisons.{is_node_set, is_truth, is_number, is_order, whole_test, number_test, some_pair, all_numbers, numbers_of, numbers_compared, go_by_truths, go_by_numbers, compare};
ghost use Rattle.xp_values.specs.Conversions.{to_number};
ghost use Rattle.xp_values.specs.Numerals.{text_to_number};
ghost use Rattle.xp_values.specs.inner.Comparing.{number_compared};
ghost use Rattle.xp_values.specs.Outcomes.{Gives};

use crate::conversions::{number_in, to_number, to_truth, truth_number};
use crate::lent::number_of_node;
use crate::numbers::Num;
use crate::text_comparisons::{is_unequal, some_passes, text_test, texts_compared};
use crate::values::{EvalError, Value};
use doc_tree::{NodeId, Tree};
use sch_base::ItemList;
use std::alloc::Global;
use xp_tree::Comparison;

/// Compares two values (XPath 1.0, section 3.4). A node-set stands for each of its nodes: the comparison holds where some
/// pair passes.
///
/// A fault is that of `text_to_number` at the first text that has one; all texts of the left side are converted, then all
/// of the right side, also where an early one decides or a side is empty. Costs at most a test for each pair.
pub fn compare(
    alloc: Global,
    tree: &Tree,
    op: Comparison,
    a: &Value,
    b: &Value,
) -> Result<bool, EvalError>
    ensures { Gives result (compare tree.now.nodes op a.now b.now) }
{
    if let Value::Chars(text) = b {
        return compare_text(alloc, tree, op, a, text.as_str());
    }
    if go_by_truths(op, a, b) {
        let left = truth_number(to_truth(a));
        let right = truth_number(to_truth(b));
        return Ok(number_test(op, left, right));
    }
    if go_by_numbers(op, a, b) {
        numbers_compared(alloc, tree, op, a, b)
    } else {
        let holds = texts_compared(alloc, tree, op, a, b)?;
        Ok(holds)
    }
}

/// Compares a value with a text (XPath 1.0, section 3.4), as `compare` does where the text is a value.
///
/// Faults are those of `compare`: where numbers are compared, the value is converted, then the text. A node-set costs what
/// it costs in `compare_nodes`.
pub fn compare_text(
    alloc: Global,
    tree: &Tree,
    op: Comparison,
    a: &Value,
    text: &str,
) -> Result<bool, EvalError>
    ensures { Gives result (compare tree.now.nodes op a.now (value_kinds.Chars text.now)) }
{
    match a {
        Value::NodeSet(nodes) => compare_nodes(alloc, tree, op, nodes.as_slice(), text),
        Value::Truth(truth) if !is_order(op) => {
            let left = truth_number(*truth);
            let right = truth_number(!text.is_empty());
            Ok(number_test(op, left, right))
        }
        Value::Chars(left) if !is_order(op) => Ok(text_test(op, left.as_str(), text)),
        _ => number_compared(alloc, tree, a, op, text),
    }
}

/// Compares the number of a value with that of a text.
fn number_compared(
    alloc: Global,
    tree: &Tree,
    a: &Value,
    op: Comparison,
    text: &str,
) -> Result<bool, EvalError>
    ensures { Gives result (number_compared op (to_number tree.now.nodes a.now) (text_to_number text.now)) }
{
    let left = to_number(alloc, tree, a)?;
    let right = number_in(text)?;
    Ok(number_test(op, left, right))
}

/// Compares some nodes with a text (XPath 1.0, section 3.4), as `compare` does where they are a node-set and the text is a
/// value.
///
/// Faults are those of `compare`: by order the nodes' texts are all converted, then the text. By `=` and `!=` it costs a
/// test for each node up to the first that passes, and memory only for string-values that the tree does not hold as one
/// text.
pub fn compare_nodes(
    alloc: Global,
    tree: &Tree,
    op: Comparison,
    nodes: &[NodeId],
    text: &str,
) -> Result<bool, EvalError>
    ensures { Gives result (compare tree.now.nodes op (value_kinds.NodeSet nodes.now) (value_kinds.Chars text.now)) }
{
    if is_order(op) {
        let left = numbers_of_nodes(alloc, tree, nodes)?;
        let right = number_in(text)?;
        return Ok(some_numbers(op, left.as_slice(), &[right]));
    }
    let holds = some_passes(alloc, tree, op, nodes, text)?;
    Ok(holds)
}

/// Whether two values are compared as truths: by order a node-set with a truth, else where one is a truth.
fn go_by_truths(op: Comparison, a: &Value, b: &Value) -> bool
    ensures { result ≡ go_by_truths op a.now b.now }
{
    if is_order(op) {
        is_node_set(a) && is_truth(b) || is_truth(a) && is_node_set(b)
    } else {
        is_truth(a) || is_truth(b)
    }
}

/// Whether two other values are compared as numbers: by order always, else where one is a number.
fn go_by_numbers(op: Comparison, a: &Value, b: &Value) -> bool
    ensures { result ≡ go_by_numbers op a.now b.now }
{
    is_order(op) || is_number(a) || is_number(b)
}

/// Whether the value is a node-set.
fn is_node_set(v: &Value) -> bool
    ensures { result ≡ is_node_set v.now }
{
    matches!(v, Value::NodeSet(_))
}

/// Whether the value is a truth.
fn is_truth(v: &Value) -> bool
    ensures { result ≡ is_truth v.now }
{
    matches!(v, Value::Truth(_))
}

/// Whether the value is a number.
fn is_number(v: &Value) -> bool
    ensures { result ≡ is_number v.now }
{
    matches!(v, Value::Number(_))
}

/// Whether the operator compares by order.
fn is_order(op: Comparison) -> bool
    ensures { result ≡ is_order op }
{
    match op {
        Comparison::Eq | Comparison::Ne => false,
        Comparison::Lt | Comparison::Le | Comparison::Gt | Comparison::Ge => true,
    }
}

/// Whether some pair of the numbers that the two sides stand for passes.
fn numbers_compared(
    alloc: Global,
    tree: &Tree,
    op: Comparison,
    a: &Value,
    b: &Value,
) -> Result<bool, EvalError>
    ensures { Gives result (numbers_compared tree.now.nodes op a.now b.now) }
{
    let left = numbers_of(alloc, tree, a)?;
    let right = numbers_of(alloc, tree, b)?;
    Ok(some_numbers(op, left.as_slice(), right.as_slice()))
}

/// The numbers that a side stands for.
fn numbers_of(alloc: Global, tree: &Tree, v: &Value) -> Result<ItemList<Num>, EvalError>
    ensures { Gives result (numbers_of tree.now.nodes v.now) }
{
    match v {
        Value::NodeSet(nodes) => numbers_of_nodes(alloc, tree, nodes.as_slice()),
        Value::Truth(_) | Value::Number(_) | Value::Chars(_) => {
            let number = to_number(alloc, tree, v)?;
            let numbers = ItemList::of_one(alloc, number)?;
            Ok(numbers)
        }
    }
}

/// The number of each node's string-value.
fn numbers_of_nodes(
    alloc: Global,
    tree: &Tree,
    nodes: &[NodeId],
) -> Result<ItemList<Num>, EvalError>
    ensures { Gives result (all_numbers (map (string_value_of tree.now.nodes) nodes.now)) }
{
    let mut numbers = ItemList::new(alloc);
    for n in nodes {
        let number = number_of_node(alloc, tree, *n)?;
        numbers.push(number)?;
    }
    Ok(numbers)
}

/// Whether some pair of numbers passes.
fn some_numbers(op: Comparison, mut left: &[Num], right: &[Num]) -> bool
    ensures { result ≡ some_pair (number_test op) left.now right.now }
{
    while let [x, rest @ ..] = left {
        if some_number(op, *x, right) {
            return true;
        }
        left = rest;
    }
    false
}

/// Whether a number passes with some other.
fn some_number(op: Comparison, x: Num, mut right: &[Num]) -> bool
    ensures { result ≡ list_any (number_test op x) right.now }
{
    while let [y, rest @ ..] = right {
        if number_test(op, x, *y) {
            return true;
        }
        right = rest;
    }
    false
}

/// Compares two numbers: `!=` holds of NaN, and nothing else does.
fn number_test(op: Comparison, x: Num, y: Num) -> bool
    ensures { result ≡ number_test op x y }
{
    match (x, y) {
        (Num::Whole(x), Num::Whole(y)) => whole_test(op, x, y),
        _ => is_unequal(op),
    }
}

/// Compares two whole numbers.
fn whole_test(op: Comparison, x: i64, y: i64) -> bool
    ensures { result ≡ whole_test op x y }
{
    match op {
        Comparison::Eq => x == y,
        Comparison::Ne => x != y,
        Comparison::Lt => x < y,
        Comparison::Le => x <= y,
        Comparison::Gt => x > y,
        Comparison::Ge => x >= y,
    }
}
