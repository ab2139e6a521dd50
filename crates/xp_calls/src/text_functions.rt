//! The functions on texts (XPath 1.0, section 4.2), of arguments that are converted already.

ghost use Rattle.std.specs.Prelude.{◌≡◌, List, ℕ, Result, Ok, IfOk, flat_map};
ghost use Rattle.xp_values.specs.Outcomes.{Gives};
ghost use Rattle.xp_values.specs.declared.values.Value.TheVariants as values;
ghost use Rattle.xp_values.specs.declared.values.EvalFault.{EvalFault};
ghost use Rattle.xp_values.specs.Texts.{limited, begins_with, contains, substring, substring_before, substring_after, translate};
ghost use Rattle.xp_meaning.specs.Functions.{as_chars, length_in, number_at, text_at, text_of};

use crate::arguments::{length_in, number_at, text_at};
use crate::joining::join;
use sch_base::Text;
use std::alloc::{AllocError, Global};
use xp_values::{EvalError, Value};

/// `concat`. The fault is TextLimit.
pub(crate) fn concat(alloc: Global, args: &[Value]) -> Result<Value, EvalError>
    ensures { Gives result (as_chars (limited (flat_map text_of args.now))) }
{
    as_value(join(alloc, args))
}

/// `starts-with`.
pub(crate) fn starts_with(args: &[Value]) -> Value
    ensures { result ≡ values.Truth (begins_with (text_at args.now 0) (text_at args.now 1)) }
{
    Value::Truth(xp_values::starts_with(text_at(args, 0), text_at(args, 1)))
}

/// `contains`.
pub(crate) fn contains(args: &[Value]) -> Value
    ensures { result ≡ values.Truth (contains (text_at args.now 0) (text_at args.now 1)) }
{
    Value::Truth(xp_values::contains(text_at(args, 0), text_at(args, 1)))
}

/// `substring-before`.
pub(crate) fn substring_before(alloc: Global, args: &[Value]) -> Result<Value, EvalError>
    ensures { Gives result (Ok (values.Chars (substring_before (text_at args.now 0) (text_at args.now 1)))) }
{
    as_chars(xp_values::substring_before(alloc, text_at(args, 0), text_at(args, 1)))
}

/// `substring-after`.
pub(crate) fn substring_after(alloc: Global, args: &[Value]) -> Result<Value, EvalError>
    ensures { Gives result (Ok (values.Chars (substring_after (text_at args.now 0) (text_at args.now 1)))) }
{
    as_chars(xp_values::substring_after(alloc, text_at(args, 0), text_at(args, 1)))
}

/// `substring`.
pub(crate) fn substring(alloc: Global, args: &[Value]) -> Result<Value, EvalError>
    ensures { Gives result (Ok (values.Chars (substring (text_at args.now 0) (number_at args.now 1) (length_in args.now)))) }
{
    as_chars(xp_values::substring(alloc, text_at(args, 0), number_at(args, 1), length_in(args)))
}

/// `translate`. The fault is TextLimit.
pub(crate) fn translate(alloc: Global, args: &[Value]) -> Result<Value, EvalError>
    ensures { Gives result (as_chars (translate (text_at args.now 0) (text_at args.now 1) (text_at args.now 2))) }
{
    as_value(xp_values::translate(alloc, text_at(args, 0), text_at(args, 1), text_at(args, 2)))
}

/// A text as a value.
pub(crate) fn as_chars(text: Result<Text, AllocError>) -> Result<Value, EvalError>
    ensures { (meant : List ℕ) → IfOk text (λ t. t ≡ meant) → Gives result (Ok (values.Chars meant)) }
{
    match text {
        Ok(text) => Ok(Value::Chars(text)),
        Err(_) => Err(EvalError::Memory),
    }
}

/// A text or a fault as a value or that fault.
fn as_value(text: Result<Text, EvalError>) -> Result<Value, EvalError>
    ensures { (meant : Result (List ℕ) EvalFault) → Gives text meant → Gives result (as_chars meant) }
{
    match text {
        Ok(text) => Ok(Value::Chars(text)),
        Err(error) => Err(error),
    }
}
