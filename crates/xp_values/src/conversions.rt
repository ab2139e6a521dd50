//! Conversions of values to texts, numbers and truths (XPath 1.0, sections 4.2 to 4.4).

ghost use Rattle.std.specs.Prelude.{◌≡◌, IfOk};
ghost use Rattle.xp_values.specs.Numbers.{InRange};
ghost use Rattle.xp_values.specs.Numerals.{text_to_number};
ghost use Rattle.xp_values.specs.Conversions.{ValueInRange, to_text, to_number, to_truth, number_text, truth_number};
ghost use Rattle.xp_values.specs.Outcomes.{Gives};

use crate::numbers::Num;
use crate::numerals::text_to_number;
use crate::values::{EvalError, Value};
use doc_tree::Tree;
use sch_base::Text;
use std::alloc::{AllocError, Global};

/// The value as a text (XPath 1.0, section 4.2, `string`): of a node-set the string-value of its first node, or empty.
pub fn to_text(alloc: Global, tree: &Tree, v: &Value) -> Result<Text, AllocError>
    ensures { IfOk result (λ text. text ≡ to_text tree.now.nodes v.now) }
{
    match v {
        Value::NodeSet(nodes) => match nodes.as_slice().first() {
            Some(first) => tree.string_value(alloc, *first),
            None => Text::copy(alloc, ""),
        },
        Value::Truth(true) => Text::copy(alloc, "true"),
        Value::Truth(false) => Text::copy(alloc, "false"),
        Value::Number(number) => number_text(alloc, *number),
        Value::Chars(text) => Text::copy(alloc, text.as_str()),
    }
}

/// The number in decimal, or `NaN`.
fn number_text(alloc: Global, number: Num) -> Result<Text, AllocError>
    ensures { IfOk result (λ text. text ≡ number_text number) }
{
    match number {
        Num::NaN => Text::copy(alloc, "NaN"),
        Num::Whole(whole) => {
            let text = whole.to_string(alloc)?;
            Ok(Text::from(text))
        }
    }
}

/// The value as a number (XPath 1.0, section 4.4, `number`): a truth is 1 or 0, a node-set is taken by its text.
///
/// A fault is that of `text_to_number`.
pub fn to_number(alloc: Global, tree: &Tree, v: &Value) -> Result<Num, EvalError>
    ensures value { Gives result (to_number tree.now.nodes v.now) }
    ensures in_range { ValueInRange v.now → IfOk result InRange }
{
    match v {
        Value::NodeSet(_) => {
            let text = to_text(alloc, tree, v)?;
            number_in(text.as_str())
        }
        Value::Truth(truth) => Ok(truth_number(*truth)),
        Value::Number(number) => Ok(*number),
        Value::Chars(text) => number_in(text.as_str()),
    }
}

/// The text as a number, as `text_to_number` reads it.
pub(crate) fn number_in(text: &str) -> Result<Num, EvalError>
    ensures value { Gives result (text_to_number text.now) }
    ensures in_range { IfOk result InRange }
{
    let number = text_to_number(text)?;
    Ok(number)
}

/// 1 or 0.
pub(crate) fn truth_number(truth: bool) -> Num
    ensures value { result ≡ truth_number truth }
    ensures in_range { InRange result }
{
    Num::Whole(if truth { 1 } else { 0 })
}

/// The value as a truth (XPath 1.0, section 4.3, `boolean`).
pub fn to_truth(v: &Value) -> bool
    ensures { result ≡ to_truth v.now }
{
    match v {
        Value::NodeSet(nodes) => !nodes.is_empty(),
        Value::Truth(truth) => *truth,
        Value::Number(Num::NaN) => false,
        Value::Number(Num::Whole(whole)) => *whole != 0,
        Value::Chars(text) => !text.as_str().is_empty(),
    }
}
