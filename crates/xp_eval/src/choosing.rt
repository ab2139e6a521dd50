//! The choice of nodes by the values of predicates (XPath 1.0, section 2.4), and of sets of nodes.

ghost use Rattle.std.specs.Prelude.{◌≡◌, [], ◌∷◌, ◌++◌, true, Some, length, flat_map, Ok, IfOk, IfSome};
ghost use Rattle.doc_tree.specs.Table.{Table};
ghost use Rattle.doc_axes.specs.Sets.{in_order};
ghost use Rattle.xp_values.specs.declared.values.Value.TheVariants as value_kinds;
ghost use Rattle.xp_values.specs.Outcomes.{Gives};
ghost use Rattle.xp_meaning.specs.Conversions.{nodes_of};
ghost use Rattle.xp_typed_tree.specs.TypedView.{typed_tree_of, typed_seen};
ghost use Rattle.xp_outcome.specs.Evaluation.{visit, reading, variable};
ghost use Rattle.xp_outcome.specs.Slots.{in_slot};
ghost use Rattle.xp_meaning.specs.declared.context.Context.{Context};
ghost use Rattle.xp_meaning.specs.declared.want.Want.TheVariants as wants;
ghost use Rattle.xp_meaning.specs.Paths.{holds_at};
ghost use Rattle.xp_meaning.specs.Evaluation.{Lets, meaning, meanings, values, slot_value};
ghost use Rattle.xp_eval.specs.inner.Wants.{wanted_by, lone_let};

use crate::answers::set_value;
use crate::candidates::in_document_order;
use doc_tree::{NodeId, NodeList, Tree};
use std::alloc::{AllocError, Global};
use xp_calls::{nodes_of, wanted};
use xp_meaning::Want;
use xp_typed_tree::{Function, TypedExpr};
use xp_values::{EvalError, Num, Value, to_truth};

/// Whether a predicate holds at a position: a number where it is the position, another value by its truth.
pub(crate) fn holds_at(position: u32, value: &Value) -> bool
    ensures { result ≡ holds_at position value.now }
{
    match value {
        Value::Number(Num::Whole(whole)) => *whole == i64::from(position),
        Value::Number(Num::NaN) => false,
        _ => to_truth(value),
    }
}

/// How many nodes there are, as the size of a context. A list with more nodes than a size counts, which no tree has, is
/// as if memory were wanting.
pub(crate) fn size_of(nodes: &[NodeId]) -> Result<u32, AllocError>
    ensures { IfOk result (λ size. size ≡ length nodes.now) }
{
    match u32::try_from(nodes.len()) {
        Ok(size) => Ok(size),
        Err(_) => Err(AllocError),
    }
}

/// The union of the node-sets among some values, in document order, as a value.
pub(crate) fn union_of(alloc: Global, tree: &Tree, values: &[Value]) -> Result<Value, EvalError>
    ensures { Gives result (Ok (value_kinds.NodeSet (in_order tree.now.nodes (flat_map nodes_of values.now)))) }
{
    let mut all = NodeList::new(alloc);
    for value in values {
        all.push_all(nodes_of(value))?;
    }
    set_value(in_document_order(alloc, tree, all))
}

/// The first list and then the second; the other itself where one is empty.
pub(crate) fn joined(list: NodeList, more: NodeList) -> Result<NodeList, AllocError>
    ensures { IfOk result (λ all. all ≡ list ++ more) }
{
    if list.is_empty() {
        return Ok(more);
    }
    if more.is_empty() {
        return Ok(list);
    }
    let mut all = list;
    all.push_all(more.as_slice())?;
    Ok(all)
}

/// What the operand at a place is converted to: an argument as its function wants it, an operand of a union not at all.
pub(crate) fn wanted_by(function: Option<Function>, place: usize) -> Want
    ensures { result ≡ wanted_by function place }
{
    match function {
        Some(function) => wanted(function, place),
        None => Want::AsItIs,
    }
}

/// The slot of a variable that is the lone argument of a function which takes it as it is.
pub(crate) fn lone_slot(function: Function, operands: &[TypedExpr]) -> Option<u32>
    ensures { IfSome result (λ slot. (T : Table) (L : Lets) (c : Context) → values T (wanted_by (Some function)) (meanings T L (typed_seen operands.now)) c ≡ lone_let L slot) }
{
    match lone(operands) {
        Some(operand) => {
            if is_as_it_is(wanted(function, 0)) {
                slot_of(operand)
            } else {
                None
            }
        }
        None => None,
    }
}

/// The item that is alone in a list, as an operand or a node.
pub(crate) fn lone<T>(items: &[T]) -> Option<&T>
    ensures { IfSome result (λ item. items.now ≡ item.now ∷ []) }
{
    let Some((first, rest)) = items.split_first() else {
        return None;
    };
    if rest.is_empty() { Some(first) } else { None }
}

/// Whether an argument stays as it is.
fn is_as_it_is(want: Want) -> bool
    ensures { result ≡ true → want ≡ wants.AsItIs }
{
    matches!(want, Want::AsItIs)
}

/// The slot of a variable.
fn slot_of(expr: &TypedExpr) -> Option<u32>
    ensures { IfSome result (λ slot. (T : Table) (L : Lets) (c : Context) → meaning T L (typed_tree_of expr.now) c ≡ visit (reading (variable slot) (slot_value (in_slot L slot)))) }
{
    match expr {
        TypedExpr::Variable { slot, .. } => Some(*slot),
        _ => None,
    }
}
