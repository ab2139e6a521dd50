//! Comparisons by texts (XPath 1.0, section 3.4).

ghost use Rattle.std.specs.Prelude.{◌≡◌, ◌++◌, map, IfOk, OnOk};
ghost use Rattle.std.specs.List.{list_any};
ghost use Rattle.doc_tree.specs.Walks.{string_value_of};
ghost use Rattle.xp_values.specs.Comparisons.{is_unequal, text_test, some_pair, texts_of, texts_compared};

use crate::conversions::to_text;
use crate::lent::lent_text;
use crate::values::Value;
use doc_tree::{NodeId, NodeList, Tree};
use sch_base::{ItemList, Text};
use std::alloc::{AllocError, Global};
use xp_tree::Comparison;

/// Whether some pair of the texts that the two sides stand for passes.
///
/// Nodes at the right of a text are compared with it as they stand; other sides are listed first.
pub(crate) fn texts_compared(
    alloc: Global,
    tree: &Tree,
    op: Comparison,
    a: &Value,
    b: &Value,
) -> Result<bool, AllocError>
    ensures { IfOk result (λ holds. holds ≡ texts_compared tree.now.nodes op a.now b.now) }
{
    match (a, b) {
        (Value::Chars(text), Value::NodeSet(nodes)) => {
            some_passes(alloc, tree, op, nodes.as_slice(), text.as_str())
        }
        _ => lists_compared(alloc, tree, op, a, b),
    }
}

/// The same by a list of the texts of each side.
fn lists_compared(
    alloc: Global,
    tree: &Tree,
    op: Comparison,
    a: &Value,
    b: &Value,
) -> Result<bool, AllocError>
    ensures { IfOk result (λ holds. holds ≡ texts_compared tree.now.nodes op a.now b.now) }
{
    let left = texts_of(alloc, tree, a)?;
    let right = texts_of(alloc, tree, b)?;
    Ok(some_texts(op, left.as_slice(), right.as_slice()))
}

/// Whether the string-value of some node passes with a text: of each node in turn, up to the first that does.
pub(crate) fn some_passes(
    alloc: Global,
    tree: &Tree,
    op: Comparison,
    nodes: &[NodeId],
    text: &str,
) -> Result<bool, AllocError>
    ensures { IfOk result (λ holds. holds ≡ list_any (λ n. text_test op (string_value_of tree.now.nodes n) text.now) nodes.now) }
{
    for n in nodes {
        let passes = text_passes(alloc, tree, op, *n, text)?;
        if passes {
            return Ok(true);
        }
    }
    Ok(false)
}

/// Whether the node's string-value passes with a text. It is copied only where the tree does not lend it.
fn text_passes(
    alloc: Global,
    tree: &Tree,
    op: Comparison,
    n: NodeId,
    text: &str,
) -> Result<bool, AllocError>
    ensures { IfOk result (λ passes. passes ≡ text_test op (string_value_of tree.now.nodes n) text.now) }
{
    if let Some(lent) = lent_text(tree, n) {
        return Ok(text_test(op, lent, text));
    }
    let own = tree.string_value(alloc, n)?;
    Ok(text_test(op, own.as_str(), text))
}

/// The texts that a side stands for.
fn texts_of(alloc: Global, tree: &Tree, v: &Value) -> Result<ItemList<Text>, AllocError>
    ensures { IfOk result (λ texts. texts ≡ texts_of tree.now.nodes v.now) }
{
    match v {
        Value::NodeSet(nodes) => texts_of_nodes(alloc, tree, nodes),
        Value::Truth(_) | Value::Number(_) | Value::Chars(_) => {
            let text = to_text(alloc, tree, v)?;
            ItemList::of_one(alloc, text)
        }
    }
}

/// Each node's string-value.
fn texts_of_nodes(
    alloc: Global,
    tree: &Tree,
    nodes: &NodeList,
) -> Result<ItemList<Text>, AllocError>
    ensures { IfOk result (λ texts. texts ≡ map (string_value_of tree.now.nodes) nodes.now) }
{
    let mut texts = ItemList::new(alloc);
    push_texts(alloc, tree, nodes.as_slice(), &mut texts)?;
    Ok(texts)
}

/// Puts each node's string-value at the end of some texts.
fn push_texts(
    alloc: Global,
    tree: &Tree,
    mut nodes: &[NodeId],
    texts: &mut ItemList<Text>,
) -> Result<(), AllocError>
    ensures { OnOk result (texts.new ≡ texts.old ++ map (string_value_of tree.now.nodes) nodes.now) }
{
    while let [n, rest @ ..] = nodes {
        let text = tree.string_value(alloc, *n)?;
        texts.push(text)?;
        nodes = rest;
    }
    Ok(())
}

/// Whether some pair of texts passes.
fn some_texts(op: Comparison, mut left: &[Text], right: &[Text]) -> bool
    ensures { result ≡ some_pair (text_test op) left.now right.now }
{
    while let [x, rest @ ..] = left {
        if some_text(op, x.as_str(), right) {
            return true;
        }
        left = rest;
    }
    false
}

/// Whether a text passes with some other.
fn some_text(op: Comparison, x: &str, mut right: &[Text]) -> bool
    ensures { result ≡ list_any (text_test op x.now) right.now }
{
    while let [y, rest @ ..] = right {
        if text_test(op, x, y.as_str()) {
            return true;
        }
        right = rest;
    }
    false
}

/// Compares two texts by `=` or `!=`.
pub(crate) fn text_test(op: Comparison, x: &str, y: &str) -> bool
    ensures { result ≡ text_test op x.now y.now }
{
    if is_unequal(op) { x != y } else { x == y }
}

/// Whether the operator is `!=`.
pub(crate) fn is_unequal(op: Comparison) -> bool
    ensures { result ≡ is_unequal op }
{
    match op {
        Comparison::Ne => true,
        Comparison::Eq | Comparison::Lt | Comparison::Le | Comparison::Gt | Comparison::Ge => false,
    }
}
