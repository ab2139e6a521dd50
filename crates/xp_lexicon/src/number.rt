//! Numbers (XPath 1.0, section 3.7).

ghost use Rattle.std.specs.Prelude.{◌≡◌, ◌∷◌, MatchOption};
ghost use Rattle.std.specs.Char.{is_ascii_digit};
ghost use Rattle.xp_lexicon.specs.inner.Scanning.{StartsWith, NumberAt, LongestOf, NoneOf, is_number, is_pointed};

use crate::lexeme::{Lexeme, Scanned};
use crate::run::{Class, after_run, before};
use xp_grammar::Word;

/// The number that the text begins with: a digit stands first.
pub(crate) fn number(text: &str) -> Scanned
    requires { StartsWith is_ascii_digit text.now }
    ensures { LongestOf is_number text.now result.rest.now result.lexeme }
{
    let rest = after_digits(text);
    Scanned {
        lexeme: Lexeme::Number(Word::new(before(text, rest))),
        rest,
    }
}

/// What is after `Digits ("." Digits?)?`.
fn after_digits(text: &str) -> &str
    ensures { NumberAt text.now result.now }
{
    let rest = after_run(Class::Digit, text);
    match rest.strip_prefix('.') {
        Some(fraction) => after_run(Class::Digit, fraction),
        None => rest,
    }
}

/// The number that the text begins with, if digits are after its point.
pub(crate) fn fraction<'a>(text: &'a str, behind: &'a str) -> Option<Scanned<'a>>
    requires { text.now ≡ 46 ∷ behind.now }
    ensures { MatchOption result (NoneOf is_number text.now) (λ s. LongestOf is_pointed text.now s.rest.now s.lexeme) }
{
    let rest = after_run(Class::Digit, behind);
    if rest.len() == behind.len() {
        return None;
    }
    Some(Scanned {
        lexeme: Lexeme::Number(Word::new(before(text, rest))),
        rest,
    })
}
