//! The escapes in the texts of lines, undone.

ghost use Rattle.std.specs.Prelude.{◌≡◌, ◌<◌, ◌≤◌, ◌++◌, ◌∷◌, [], length, true, IfOk, MatchOption};
ghost use Rattle.pyx_core.specs.Escapes.{undone, unescaped, unescaped_after};
ghost use Rattle.pyx_core.specs.inner.Plain.{AreLiteral};

use sch_base::Text;
use std::alloc::{AllocError, Global};

/// The text with its escapes undone, as a reader of the line does.
///
/// The time grows with the text's length; a text without a backslash is copied at once.
pub fn unescape(alloc: Global, text: &str) -> Result<Text, AllocError>
    ensures { IfOk result (λ plain. plain ≡ unescaped text.now) }
{
    match memchr::memchr(b'\\', text.as_bytes()) {
        Some(_) => undo_all(alloc, text),
        None => Text::copy(alloc, text),
    }
}

/// The text with its escapes undone, for which a text that is known to be literal is not searched.
#[tactic(auto, using(crate::proofs::ByteLemmas::literal_unescaped))]
pub fn unescape_line(alloc: Global, text: &str, is_literal: bool) -> Result<Text, AllocError>
    requires { AreLiteral is_literal text.now }
    ensures { IfOk result (λ plain. plain ≡ unescaped text.now) }
{
    if is_literal {
        return Text::copy(alloc, text);
    }
    unescape(alloc, text)
}

/// The text with its escapes undone, run by run.
fn undo_all(alloc: Global, text: &str) -> Result<Text, AllocError>
    ensures { IfOk result (λ plain. plain ≡ unescaped text.now) }
{
    let mut plain = String::new(alloc);
    let mut rest = text;
    while let Some((run, after)) = rest.split_once('\\') {
        plain.push_str(run)?;
        let (undone, later) = undo(after);
        plain.push_str(undone)?;
        rest = later;
    }
    plain.push_str(rest)?;
    Ok(Text::from(plain))
}

/// What a backslash before `text` stands for, and what is left of the text.
fn undo(text: &str) -> (&'static str, &str)
    ensures undone { unescaped_after true text.now ≡ result.0.now ++ unescaped result.1.now }
    ensures shorter { length result.1.now ≤ length text.now }
{
    let mut chars = text.chars();
    if let Some(mark) = chars.next() {
        if let Some(plain) = meaning(mark) {
            return (plain, chars.as_str());
        }
    }
    ("\\", text)
}

/// What a backslash and this character stand for, where they are an escape.
fn meaning(mark: char) -> Option<&'static str>
    ensures { MatchOption result (undone mark ≡ 92 ∷ mark ∷ []) (λ plain. (mark < 128) × (plain.now ≡ undone mark)) }
{
    match mark {
        'n' => Some("\n"),
        't' => Some("\t"),
        'r' => Some("\r"),
        '\\' => Some("\\"),
        _ => None,
    }
}
