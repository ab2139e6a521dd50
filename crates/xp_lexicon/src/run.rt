//! Characters of one class that stand in a row.

ghost use Rattle.std.specs.Prelude.{◌≡◌, ◌++◌};
ghost use Rattle.sch_base.specs.Fronts.{IsEnd};
ghost use Rattle.xp_lexicon.specs.inner.Scanning.{holds, Ran};

use sch_base::{is_name_char, is_whitespace};

/// The classes of characters that lexemes are made of.
#[derive(Clone, Copy)]
pub(crate) enum Class {
    /// `0` to `9`
    Digit,
    /// NameChar without the colon: Namespaces in XML 1.0, section 3.
    NameChar,
    /// ExprWhitespace: XPath 1.0, section 3.7.
    Whitespace,
}

impl Class {
    /// Whether the character is of the class.
    pub(crate) fn holds(self, c: char) -> bool
        ensures { result ≡ holds self c }
    {
        match self {
            Class::Digit => c.is_ascii_digit(),
            Class::NameChar => is_name_char(c),
            Class::Whitespace => is_whitespace(c),
        }
    }
}

/// What is after the characters of the class that the text begins with.
pub(crate) fn after_run(class: Class, text: &str) -> &str
    ensures { Ran (holds class) text.now result.now }
{
    let mut rest = text;
    loop {
        let mut chars = rest.chars();
        match chars.next() {
            Some(c) if class.holds(c) => rest = chars.as_str(),
            _ => return rest,
        }
    }
}

/// What stands in the text before its end `rest`.
pub(crate) fn before<'a>(text: &'a str, rest: &str) -> &'a str
    requires { IsEnd text.now rest.now }
    ensures { text.now ≡ result.now ++ rest.now }
{
    &text[..text.len() - rest.len()]
}
