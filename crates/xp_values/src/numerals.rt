//! How a text is read as a number (XPath 1.0, sections 3.7 and 4.4).

ghost use Rattle.std.specs.Prelude.{◌≡◌, ◌≤◌, IfOk};
ghost use Rattle.std.specs.List.{list_all};
ghost use Rattle.xp_values.specs.Numbers.{InRange};
ghost use Rattle.xp_values.specs.Numerals.{is_space, is_digit, front, past, fraction, past_fraction, bounded, signed, are_zeros, number_written, number_ended, unsigned_number, text_to_number};
ghost use Rattle.xp_tree.specs.Decimals.{decimal_value};
ghost use Rattle.xp_tree.specs.declared.numbers.TheConstants.{MAX_WHOLE};

use crate::numbers::{Num, whole_number};
use crate::values::EvalFault;
use xp_tree::MAX_WHOLE;

/// Reads a text as a number: optional whitespace, optional `-`, digits with an optional point and optional digits after
/// it, or a point and digits, optional whitespace. Any other text is NaN.
///
/// The fault is NotWhole for a digit other than 0 after the point, and else NumberRange for a value outside the range.
pub fn text_to_number(s: &str) -> Result<Num, EvalFault>
    ensures value { result ≡ text_to_number s.now }
    ensures in_range { IfOk result InRange }
{
    let text = past_spaces(s.as_bytes());
    match text.split_first() {
        Some((b'-', rest)) => unsigned_number(true, rest),
        _ => unsigned_number(false, text),
    }
}

/// Whether the byte is whitespace (XML 1.0, section 2.3).
fn is_space(b: u8) -> bool
    ensures { result ≡ is_space b }
{
    b == b' ' || b == b'\t' || b == b'\n' || b == b'\r'
}

/// Whether the byte is a digit from 0 to 9.
fn is_digit(b: u8) -> bool
    ensures { result ≡ is_digit b }
{
    (b'0'..=b'9').contains(&b)
}

/// What stands after the whitespace at the front.
fn past_spaces(text: &[u8]) -> &[u8]
    ensures { result.now ≡ past is_space text.now }
{
    let mut rest = text;
    while let Some((b, others)) = rest.split_first() {
        if !is_space(*b) {
            return rest;
        }
        rest = others;
    }
    rest
}

/// The digits at the front, and what stands after them.
fn split_digits(text: &[u8]) -> (&[u8], &[u8])
    ensures digits { result.0.now ≡ front is_digit text.now }
    ensures rest { result.1.now ≡ past is_digit text.now }
{
    for (i, b) in text.iter().enumerate() {
        if !is_digit(*b) {
            return text.split_at(i);
        }
    }
    (text, &[])
}

/// The digits after a point at the front, and what stands after them.
fn split_fraction(text: &[u8]) -> (&[u8], &[u8])
    ensures digits { result.0.now ≡ fraction text.now }
    ensures rest { result.1.now ≡ past_fraction text.now }
{
    match text.split_first() {
        Some((b'.', rest)) => split_digits(rest),
        _ => (&[], text),
    }
}

/// The number after the sign.
fn unsigned_number(negative: bool, text: &[u8]) -> Result<Num, EvalFault>
    ensures value { result ≡ unsigned_number negative text.now }
    ensures in_range { IfOk result InRange }
{
    let (digits, rest) = split_digits(text);
    let (fraction, rest) = split_fraction(rest);
    number_ended(negative, digits, fraction, rest)
}

/// The number of a numeral with these digits before and after its point, where only whitespace stands after it.
fn number_ended(
    negative: bool,
    digits: &[u8],
    fraction: &[u8],
    rest: &[u8],
) -> Result<Num, EvalFault>
    ensures value { result ≡ number_ended negative digits.now fraction.now rest.now }
    ensures in_range { IfOk result InRange }
{
    if digits.len() + fraction.len() != 0 && are_spaces(rest) {
        number_written(negative, digits, fraction)
    } else {
        Ok(Num::NaN)
    }
}

/// Whether all the bytes are whitespace.
#[tactic(auto, using(crate::proofs::NumeralLemmas::all_past))]
fn are_spaces(text: &[u8]) -> bool
    ensures { result ≡ list_all is_space text.now }
{
    past_spaces(text).is_empty()
}

/// Whether all the digits are 0.
fn are_zeros(mut digits: &[u8]) -> bool
    ensures { result ≡ are_zeros digits.now }
{
    while let [digit, rest @ ..] = digits {
        if *digit != b'0' {
            return false;
        }
        digits = rest;
    }
    true
}

/// The number with these digits before and after its point.
fn number_written(negative: bool, digits: &[u8], fraction: &[u8]) -> Result<Num, EvalFault>
    ensures value { result ≡ number_written negative digits.now fraction.now }
    ensures in_range { IfOk result InRange }
{
    if !are_zeros(fraction) {
        return Err(EvalFault::NotWhole);
    }
    match bounded_value(digits) {
        Some(value) => whole_number(signed(negative, value)),
        None => Err(EvalFault::NumberRange),
    }
}

/// The number of that size, with its sign.
fn signed(negative: bool, value: u64) -> i64
    requires { value ≤ MAX_WHOLE }
    ensures { result ≡ signed negative value }
{
    if negative {
        -(value as i64)
    } else {
        value as i64
    }
}

/// The number that digits write, None where it is greater than the range allows.
fn bounded_value(digits: &[u8]) -> Option<u64>
    ensures { result ≡ bounded (decimal_value digits.now) }
{
    let mut value = 0u64;
    for digit in digits {
        value = value * 10 + u64::from(digit.saturating_sub(b'0'));
        if value > MAX_WHOLE {
            return None;
        }
    }
    Some(value)
}
