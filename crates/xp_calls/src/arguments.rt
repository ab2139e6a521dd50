//! The arguments of calls.

ghost use Rattle.std.specs.Prelude.{◌≡◌, Option, option_map};
ghost use Rattle.std.specs.Option.{option_copied};
ghost use Rattle.xp_meaning.specs.Functions.{wanted, text_then_numbers, text_of, number_of, argument, nodes_at, text_at, number_at, length_in, named_node};
ghost use Rattle.xp_values.specs.Conversions.{to_truth};

use crate::converting::nodes_of;
use doc_tree::NodeId;
use xp_meaning::{Context, Want};
use xp_typed_tree::Function;
use xp_values::{Num, Value, to_truth};

/// What the argument at a place, counted from 0, is converted to (XPath 1.0, sections 3.2 and 4).
pub fn wanted(function: Function, place: usize) -> Want
    ensures { result ≡ wanted function place }
{
    match function {
        Function::String
        | Function::Concat
        | Function::StartsWith
        | Function::Contains
        | Function::SubstringBefore
        | Function::SubstringAfter
        | Function::StringLength
        | Function::NormalizeSpace
        | Function::Translate
        | Function::Lang => Want::AsText,
        Function::Number | Function::Floor | Function::Ceiling | Function::Round => Want::AsNumber,
        Function::Substring => text_then_numbers(place),
        Function::Last
        | Function::Position
        | Function::Current
        | Function::Count
        | Function::Sum
        | Function::LocalName
        | Function::NamespaceUri
        | Function::Name
        | Function::Boolean
        | Function::Not
        | Function::True
        | Function::False => Want::AsItIs,
    }
}

/// A text at the first place, and numbers at the others.
fn text_then_numbers(place: usize) -> Want
    ensures { result ≡ text_then_numbers place }
{
    if place == 0 {
        Want::AsText
    } else {
        Want::AsNumber
    }
}

/// The text of a value that is one, empty for others.
pub(crate) fn text_of(value: &Value) -> &str
    ensures { result.now ≡ text_of value.now }
{
    match value {
        Value::Chars(text) => text.as_str(),
        _ => "",
    }
}

/// The number of a value that is one, NaN for others.
pub(crate) fn number_of(value: &Value) -> Num
    ensures { result ≡ number_of value.now }
{
    match value {
        Value::Number(number) => *number,
        _ => Num::NaN,
    }
}

/// The nodes of the argument at a place, none where it is none.
pub(crate) fn nodes_at(args: &[Value], place: usize) -> &[NodeId]
    ensures { result.now ≡ nodes_at args.now place }
{
    match args.get(place) {
        Some(value) => nodes_of(value),
        None => &[],
    }
}

/// The text of the argument at a place.
pub(crate) fn text_at(args: &[Value], place: usize) -> &str
    ensures { result.now ≡ text_at args.now place }
{
    match args.get(place) {
        Some(value) => text_of(value),
        None => "",
    }
}

/// The number of the argument at a place.
pub(crate) fn number_at(args: &[Value], place: usize) -> Num
    ensures { result ≡ number_at args.now place }
{
    match args.get(place) {
        Some(value) => number_of(value),
        None => Num::NaN,
    }
}

/// The truth of the argument at a place.
pub(crate) fn truth_at(args: &[Value], place: usize) -> bool
    ensures { result ≡ to_truth (argument args.now place) }
{
    match args.get(place) {
        Some(value) => to_truth(value),
        None => false,
    }
}

/// The third argument of `substring`, where there is one.
pub(crate) fn length_in(args: &[Value]) -> Option<Num>
    ensures { result ≡ length_in args.now }
{
    match args.get(2) {
        Some(value) => Some(number_of(value)),
        None => None,
    }
}

/// The node whose name is asked for: the first of the argument's nodes, or the context node without an argument.
pub(crate) fn named_node(at: &Context, args: &[Value]) -> Option<NodeId>
    ensures { result ≡ named_node at.now args.now }
{
    match args.first() {
        Some(value) => nodes_of(value).first().copied(),
        None => Some(at.node),
    }
}
