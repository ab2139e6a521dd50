//! Characters replaced one by one (XPath 1.0, section 4.2).

ghost use Rattle.std.specs.Prelude.{◌≡◌, ◌<◌, ◌≤◌, ◌+◌, ◌++◌, ◌==◌, ℕ, true, false, None, Some, if◌then◌else◌, length, chars, nat_eq, encode_utf8_all, string_bytes, option_to_list, IfOk, OnOk};
ghost use Rattle.std.specs.HashMap.{get};
ghost use Rattle.std.specs.Option.{option_or};
ghost use Rattle.xp_values.specs.Texts.{translate, replaced_by, counterpart};
ghost use Rattle.xp_values.specs.inner.Replacing.{all_replaced};
ghost use Rattle.xp_values.specs.Outcomes.{Gives};

use crate::values::{EvalError, EvalFault};
use sch_base::{MAX_TEXT_BYTES, Text};
use std::alloc::{AllocError, Global};
use std::collections::HashMap;

/// The text in which each character that stands in `from` is replaced by the one at its place in `to`, or left out where
/// `to` is shorter; its first place in `from` counts (XPath 1.0, section 4.2, `translate`).
///
/// The fault is TextLimit, where the text would have more than `MAX_TEXT_BYTES` bytes. Costs a look-up for each character.
pub fn translate(alloc: Global, s: &str, from: &str, to: &str) -> Result<Text, EvalError>
    ensures { Gives result (translate s.now from.now to.now) }
{
    let counterparts = counterparts(alloc, from, to)?;
    all_replaced(alloc, s, &counterparts)
}

/// The text in which each character is replaced by its counterpart, where it has one; the fault is that of `translate`.
fn all_replaced(
    alloc: Global,
    s: &str,
    counterparts: &HashMap<char, Option<char>>,
) -> Result<Text, EvalError>
    ensures { Gives result (all_replaced (get nat_eq counterparts.now) s.now) }
{
    let mut text = String::new(alloc);
    let mut fits = true;
    for c in s.chars() {
        if fits {
            fits = push_limited(&mut text, replaced(counterparts, c))?;
        }
    }
    if !fits {
        return Err(EvalError::Fault(EvalFault::TextLimit));
    }
    Ok(Text::from(text))
}

/// Puts a character, if any, at the end of a text; false where the text would be too long.
fn push_limited(text: &mut String, c: Option<char>) -> Result<bool, AllocError>
    requires { length (string_bytes text.old) ≤ MAX_TEXT_BYTES }
    ensures small { length (string_bytes text.new) ≤ MAX_TEXT_BYTES }
    ensures pushed { IfOk result (λ fits. fits ≡ true → string_bytes text.new ≡ string_bytes text.old ++ encode_utf8_all (option_to_list c)) }
    ensures past { IfOk result (λ fits. fits ≡ false → MAX_TEXT_BYTES < length (string_bytes text.old) + length (encode_utf8_all (option_to_list c))) }
{
    let Some(c) = c else {
        return Ok(true);
    };
    if c.len_utf8() > MAX_TEXT_BYTES - text.len() {
        return Ok(false);
    }
    text.push(c)?;
    Ok(true)
}

/// The character in the place of one, or none.
fn replaced(counterparts: &HashMap<char, Option<char>>, c: char) -> Option<char>
    ensures { result ≡ replaced_by c (get nat_eq counterparts.now c) }
{
    match counterparts.get(&c) {
        Some(counterpart) => *counterpart,
        None => Some(c),
    }
}

/// What each character of `from` is replaced by.
fn counterparts(
    alloc: Global,
    from: &str,
    to: &str,
) -> Result<HashMap<char, Option<char>>, AllocError>
    ensures { IfOk result (λ map. (c : ℕ) → get nat_eq map c ≡ counterpart (chars from.now) (chars to.now) c) }
{
    let mut counterparts = HashMap::new(alloc);
    let mut others = to.chars();
    for c in from.chars() {
        put_first(&mut counterparts, c, others.next())?;
    }
    Ok(counterparts)
}

/// Keeps what a character is replaced by, unless that is kept already.
fn put_first(
    counterparts: &mut HashMap<char, Option<char>>,
    c: char,
    other: Option<char>,
) -> Result<(), AllocError>
    ensures { OnOk result ((q : ℕ) → get nat_eq counterparts.new q ≡ option_or (get nat_eq counterparts.old q) (if c == q then Some other else None)) }
{
    if !counterparts.contains_key(&c) {
        counterparts.insert(c, other)?;
    }
    Ok(())
}
