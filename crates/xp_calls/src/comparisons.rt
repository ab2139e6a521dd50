//! Comparisons of values whose string-values are taken already (XPath 1.0, section 3.4).

ghost use Rattle.std.specs.Prelude.{◌≡◌, ℕ, List, [], ◌∷◌, IfSome};
ghost use Rattle.xp_values.specs.Comparisons.{compare};
ghost use Rattle.xp_values.specs.Outcomes.{Gives};
ghost use Rattle.xp_meaning.specs.Conversions.{nodes_of};
ghost use Rattle.xp_tree.specs.declared.operators.Comparison.{Comparison as AnyComparison};
ghost use Rattle.xp_values.specs.declared.values.Value.TheVariants as value_kinds;

use crate::converting::nodes_of;
use crate::reading::holds_kids;
use doc_tree::{NodeId, Tree};
use std::alloc::Global;
use xp_values::{Comparison, EvalError, Value, compare, compare_nodes};

/// Compares two values. A lone node without kids at the right of a node-set, as an attribute, is compared as its text: the tree lends that, and no texts
/// are listed for either side.
pub(crate) fn compare_values(
    alloc: Global,
    tree: &Tree,
    operator: Comparison,
    left: &Value,
    right: &Value,
) -> Result<bool, EvalError>
    ensures { Gives result (compare tree.now.nodes operator left.now right.now) }
{
    if let Value::NodeSet(nodes) = left {
        if let Some(text) = lone_text(tree, right) {
            return compare_nodes(alloc, tree, operator, nodes.as_slice(), text);
        }
    }
    compare(alloc, tree, operator, left, right)
}

/// The string-value of a value that is one node without kids.
fn lone_text<'t>(tree: &'t Tree, value: &Value) -> Option<&'t str>
    ensures { IfSome result (λ text. (operator : AnyComparison) (nodes : List ℕ) → compare tree.now.nodes operator (value_kinds.NodeSet nodes) value.now
        ≡ compare tree.now.nodes operator (value_kinds.NodeSet nodes) (value_kinds.Chars text.now)) }
{
    let n = lone_node(value)?;
    if holds_kids(tree, n) {
        return None;
    }
    Some(tree.value(n))
}

/// The node of a node-set of one.
fn lone_node(value: &Value) -> Option<NodeId>
    ensures { IfSome result (λ n. nodes_of value.now ≡ n ∷ []) }
{
    match nodes_of(value) {
        [n] => Some(*n),
        _ => None,
    }
}
