//! Functions on texts (XPath 1.0, section 4.2). Positions and lengths count characters, limits bytes.

ghost use Rattle.std.specs.Prelude.{◌≡◌, ◌<◌, ◌<ℤ◌, ◌+ℤ◌, ◌-◌, ◌^◌, ◌++◌, ℕ, pos, Some, length, take, drop, chars, encode_utf8_all, string_bytes, IfOk};
ghost use Rattle.xp_values.specs.Texts.{concat, begins_with, first_place, contains, substring_before, substring_after, string_length, substring};
ghost use Rattle.xp_values.specs.inner.Positions.{KeepsWithin, positions_before};
ghost use Rattle.xp_values.specs.Outcomes.{Gives};

use crate::numbers::Num;
use crate::values::{EvalError, EvalFault};
use memchr::memmem;
use sch_base::{MAX_TEXT_BYTES, Text};
use std::alloc::{AllocError, Global};

/// The two texts joined (XPath 1.0, section 4.2, `concat`).
///
/// The fault is TextLimit, where the text would have more than `MAX_TEXT_BYTES` bytes.
pub fn concat(alloc: Global, a: &str, b: &str) -> Result<Text, EvalError>
    ensures { Gives result (concat a.now b.now) }
{
    if a.len() + b.len() > MAX_TEXT_BYTES {
        return Err(EvalError::Fault(EvalFault::TextLimit));
    }
    let joined = joined(alloc, a, b)?;
    Ok(joined)
}

/// The two texts joined, however long.
fn joined(alloc: Global, a: &str, b: &str) -> Result<Text, AllocError>
    ensures { IfOk result (λ text. text ≡ a.now ++ b.now) }
{
    let mut joined = String::from_str(alloc, a)?;
    joined.push_str(b)?;
    Ok(Text::from(joined))
}

/// Whether `s` begins with `t` (XPath 1.0, section 4.2, `starts-with`).
pub fn starts_with(s: &str, t: &str) -> bool
    ensures { result ≡ begins_with s.now t.now }
{
    s.as_bytes().starts_with(t.as_bytes())
}

/// The first place, in bytes, at which `t` stands in `s`.
fn first_place(s: &str, t: &str) -> Option<usize>
    ensures { result ≡ first_place s.now t.now }
{
    memmem::find(s.as_bytes(), t.as_bytes())
}

/// Whether `t` stands in `s` (XPath 1.0, section 4.2, `contains`). Costs time linear in both.
pub fn contains(s: &str, t: &str) -> bool
    ensures { result ≡ contains s.now t.now }
{
    first_place(s, t).is_some()
}

/// What stands before the first `t` in `s`, empty where there is none (XPath 1.0, section 4.2, `substring-before`).
pub fn substring_before(alloc: Global, s: &str, t: &str) -> Result<Text, AllocError>
    ensures { IfOk result (λ text. text ≡ substring_before s.now t.now) }
{
    match first_place(s, t) {
        Some(place) => Text::copy(alloc, &s[..place]),
        None => Text::copy(alloc, ""),
    }
}

/// What stands after the first `t` in `s`, empty where there is none (XPath 1.0, section 4.2, `substring-after`).
pub fn substring_after(alloc: Global, s: &str, t: &str) -> Result<Text, AllocError>
    ensures { IfOk result (λ text. text ≡ substring_after s.now t.now) }
{
    match first_place(s, t) {
        Some(place) => {
            let rest = &s[place..];
            Text::copy(alloc, &rest[t.len()..])
        }
        None => Text::copy(alloc, ""),
    }
}

/// How many characters the text has (XPath 1.0, section 4.2, `string-length`).
pub fn string_length(s: &str) -> Num
    ensures { result ≡ string_length s.now }
{
    Num::Whole(char_count(s) as i64)
}

/// How many characters the text has.
fn char_count(s: &str) -> usize
    ensures value { result ≡ length (chars s.now) }
    ensures small { result < 2 ^ 63 }
{
    s.chars().count()
}

/// The characters at the positions from `from` on, as many as `len` says or all; the first position is 1, and a NaN keeps
/// none (XPath 1.0, section 4.2, `substring`).
pub fn substring(alloc: Global, s: &str, from: Num, len: Option<Num>) -> Result<Text, AllocError>
    ensures { IfOk result (λ text. text ≡ substring s.now from len) }
{
    let (skipped, kept) = kept_range(from, len, s.len());
    let text = chars_between(alloc, s, skipped, kept)?;
    Ok(Text::from(text))
}

/// At most so many characters, after those that are passed over.
fn chars_between(alloc: Global, s: &str, skipped: usize, kept: usize) -> Result<String, AllocError>
    ensures { IfOk result (λ text. string_bytes text ≡ encode_utf8_all (take kept (drop skipped (chars s.now)))) }
{
    s.chars().skip(skipped).take(kept).collect(alloc)
}

/// How many characters `substring` passes over at the front, and how many it then keeps at most, where there are at most
/// so many.
fn kept_range(from: Num, len: Option<Num>, most: usize) -> (usize, usize)
    ensures { KeepsWithin from len most result.0 result.1 }
{
    match from {
        Num::NaN => (0, 0),
        Num::Whole(from) => kept_after(from, len, most),
    }
}

/// `kept_range` from a whole number on.
fn kept_after(from: i64, len: Option<Num>, most: usize) -> (usize, usize)
    ensures { KeepsWithin (Num.Whole from) len most result.0 result.1 }
{
    match len {
        None => (skipped_before(from), most),
        Some(len) => kept_among(from, len),
    }
}

/// `kept_range` from a whole number on, as many as `len` says.
fn kept_among(from: i64, len: Num) -> (usize, usize)
    ensures { (most : ℕ) → KeepsWithin (Num.Whole from) (Some len) most result.0 result.1 }
{
    match len {
        Num::NaN => (0, 0),
        Num::Whole(len) => (skipped_before(from), kept_from(from, len)),
    }
}

/// How many positions stand before `from`.
fn skipped_before(from: i64) -> usize
    ensures { result ≡ positions_before from }
{
    positions_before(i128::from(from))
}

/// How many positions there are from `from` on, as many as `len` says, of which those below 1 are none.
fn kept_from(from: i64, len: i64) -> usize
    ensures { result ≡ positions_before (from +ℤ len) - positions_before from }
{
    let end = positions_before(i128::from(from) + i128::from(len));
    end.saturating_sub(skipped_before(from))
}

/// How many positions stand before a number; the first position is 1.
fn positions_before(place: i128) -> usize
    requires { place <ℤ pos (2 ^ 64) }
    ensures { result ≡ positions_before place }
{
    if place > 1 { (place - 1) as usize } else { 0 }
}
