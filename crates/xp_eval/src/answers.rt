//! Answers of calls that are handed on as answers of another kind: what was computed is seen otherwise, and an error stays.

ghost use Rattle.std.specs.Prelude.{◌≡◌, ℕ, List, Ok, IfOk};
ghost use Rattle.xp_values.specs.declared.values.Value.TheVariants as value_kinds;
ghost use Rattle.xp_values.specs.Outcomes.{Gives};
ghost use Rattle.xp_meaning.specs.Conversions.{nodes_of};
ghost use Rattle.xp_meaning.specs.Paths.{holds_at};
ghost use Rattle.xp_eval.specs.declared.reached.Reached.TheVariants as ways;
ghost use Rattle.xp_eval.specs.inner.Answers.{answer_as};

use crate::choosing::holds_at;
use crate::reached::Reached;
use doc_tree::NodeList;
use sch_base::Text;
use std::alloc::{AllocError, Global};
use xp_values::{EvalError, Num, Value};

/// A truth as a value.
pub(crate) fn truth_value(truth: Result<bool, EvalError>) -> Result<Value, EvalError>
    ensures { result ≡ answer_as value_kinds.Truth truth }
{
    match truth {
        Ok(truth) => Ok(Value::Truth(truth)),
        Err(error) => Err(error),
    }
}

/// A number as a value.
pub(crate) fn number_value(number: Result<Num, EvalError>) -> Result<Value, EvalError>
    ensures { result ≡ answer_as value_kinds.Number number }
{
    match number {
        Ok(number) => Ok(Value::Number(number)),
        Err(error) => Err(error),
    }
}

/// Nodes as a value.
pub(crate) fn set_value(nodes: Result<NodeList, EvalError>) -> Result<Value, EvalError>
    ensures { result ≡ answer_as value_kinds.NodeSet nodes }
{
    match nodes {
        Ok(nodes) => Ok(Value::NodeSet(nodes)),
        Err(error) => Err(error),
    }
}

/// A copy of a text as a value.
pub(crate) fn text_value(alloc: Global, text: &Text) -> Result<Value, EvalError>
    ensures { Gives result (Ok (value_kinds.Chars text.now)) }
{
    match Text::copy(alloc, text.as_str()) {
        Ok(text) => Ok(Value::Chars(text)),
        Err(_) => Err(EvalError::Memory),
    }
}

/// Nodes as those that a path has come to.
pub(crate) fn reached_set(nodes: Result<NodeList, EvalError>) -> Result<Reached, EvalError>
    ensures { result ≡ answer_as ways.Set nodes }
{
    match nodes {
        Ok(nodes) => Ok(Reached::Set(nodes)),
        Err(error) => Err(error),
    }
}

/// A list of nodes, if there was memory for it.
pub(crate) fn allocated(nodes: Result<NodeList, AllocError>) -> Result<NodeList, EvalError>
    ensures { (meant : List ℕ) → IfOk nodes (λ ns. ns ≡ meant) → Gives result (Ok meant) }
{
    match nodes {
        Ok(nodes) => Ok(nodes),
        Err(_) => Err(EvalError::Memory),
    }
}

/// Whether a predicate of a value holds at a position.
pub(crate) fn holds_in(position: u32, value: Result<Value, EvalError>) -> Result<bool, EvalError>
    ensures { result ≡ answer_as (holds_at position) value }
{
    match value {
        Ok(value) => Ok(holds_at(position, &value)),
        Err(error) => Err(error),
    }
}

/// The nodes of a node-set, none of another value, as a list of its own.
pub(crate) fn nodes_in(
    alloc: Global,
    value: Result<Value, EvalError>,
) -> Result<NodeList, EvalError>
    ensures { result ≡ answer_as nodes_of value }
{
    match value {
        Ok(Value::NodeSet(nodes)) => Ok(nodes),
        Ok(_) => Ok(NodeList::new(alloc)),
        Err(error) => Err(error),
    }
}
