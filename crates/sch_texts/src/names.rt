//! Names at the front of a text.

ghost use Rattle.std.specs.Prelude.{◌≡◌, ◌++◌};
ghost use Rattle.sch_base.specs.Fronts.{IsEnd};
ghost use Rattle.sch_texts.specs.Fronts.{IsAfter};
ghost use Rattle.sch_texts.specs.Names.{longest_name, name_chars};

use sch_base::{is_name_char, is_name_start};

/// What follows the characters in front that can stand in a name.
fn after_name_chars(text: &str) -> &str
    ensures { IsAfter name_chars text.now result.now }
{
    let mut rest = text;
    loop {
        let mut chars = rest.chars();
        match chars.next() {
            Some(c) if is_name_char(c) => rest = chars.as_str(),
            _ => return rest,
        }
    }
}

/// What follows the longest NCName in front; the text itself where it begins with none.
pub fn after_name(text: &str) -> &str
    ensures { IsAfter longest_name text.now result.now }
{
    let mut chars = text.chars();
    match chars.next() {
        Some(first) if is_name_start(first) => after_name_chars(chars.as_str()),
        _ => text,
    }
}

/// What stands in the text before its end `rest`.
pub fn before<'a>(text: &'a str, rest: &str) -> &'a str
    requires { IsEnd text.now rest.now }
    ensures { text.now ≡ result.now ++ rest.now }
{
    &text[..text.len() - rest.len()]
}
