//! When two values are the same.

ghost use Rattle.std.specs.Prelude.{◌≡◌, ◌↔◌, true};

use crate::values::Value;
use doc_tree::NodeList;
use sch_base::Text;

/// Whether two values are the same: the same nodes, truth, number or text. NaN is the same as NaN, unlike in a comparison,
/// and values of two types are never the same.
pub fn same_value(a: &Value, b: &Value) -> bool
    ensures { (result ≡ true) ↔ (a.now ≡ b.now) }
{
    match (a, b) {
        (Value::NodeSet(a), Value::NodeSet(b)) => same_nodes(a, b),
        (Value::Truth(a), Value::Truth(b)) => a == b,
        (Value::Number(a), Value::Number(b)) => a == b,
        (Value::Chars(a), Value::Chars(b)) => same_text(a, b),
        _ => false,
    }
}

/// Whether two lists hold the same nodes in the same order.
fn same_nodes(a: &NodeList, b: &NodeList) -> bool
    ensures { (result ≡ true) ↔ (a.now ≡ b.now) }
{
    a.as_slice() == b.as_slice()
}

/// Whether two texts are one.
fn same_text(a: &Text, b: &Text) -> bool
    ensures { (result ≡ true) ↔ (a.now ≡ b.now) }
{
    a.as_str() == b.as_str()
}
