//! Whitespace in texts (XPath 1.0, section 4.2).

ghost use Rattle.std.specs.Prelude.{◌≡◌, ◌==◌, ◌++◌, true, false, not, length, encode_utf8_all, string_bytes, IfOk};
ghost use Rattle.sch_base.specs.Characters.{is_whitespace};
ghost use Rattle.xp_values.specs.Texts.{normalize_space, added};

use sch_base::{Text, is_whitespace};
use std::alloc::{AllocError, Global};

/// The text without whitespace at its ends, and with each run of whitespace within as one space (XPath 1.0, section 4.2,
/// `normalize-space`).
pub fn normalize_space(alloc: Global, s: &str) -> Result<Text, AllocError>
    ensures { IfOk result (λ text. text ≡ normalize_space s.now) }
{
    let mut text = String::new(alloc);
    let mut pending = false;
    for c in s.chars() {
        pending = push_normalized(&mut text, pending, c)?;
    }
    Ok(Text::from(text))
}

/// Puts a character at the end of the text, after a space where one is pending. Whitespace adds nothing, and a space is
/// then pending unless the text is empty; the answer says whether one is.
fn push_normalized(text: &mut String, pending: bool, c: char) -> Result<bool, AllocError>
    ensures space { IfOk result (λ next. is_whitespace c ≡ true → (string_bytes text.new ≡ string_bytes text.old) × (next ≡ not (length (string_bytes text.old) == 0))) }
    ensures word { IfOk result (λ next. is_whitespace c ≡ false → (string_bytes text.new ≡ string_bytes text.old ++ encode_utf8_all (added pending c)) × (next ≡ false)) }
{
    if is_whitespace(c) {
        return Ok(!text.is_empty());
    }
    if pending {
        text.push(' ')?;
    }
    text.push(c)?;
    Ok(false)
}
