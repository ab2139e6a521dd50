//! Names, and variables (XPath 1.0, section 3.7).

ghost use Rattle.std.specs.Prelude.{◌≡◌, ◌∷◌, MatchOption};
ghost use Rattle.xp_lexicon.specs.inner.Scanning.{NameAt, NoName, LocalAt, NoLocal, NoStar, IsHead, QnameAt, LongestOf, NoneOf, is_name, is_variable};

use crate::lexeme::{Lexeme, Scanned};
use crate::run::{Class, after_run, before};
use sch_base::is_name_start;
use xp_grammar::Word;

/// What is after the NCName that the text begins with.
fn after_ncname(text: &str) -> Option<&str>
    ensures { MatchOption result (NoName text.now) (λ rest. NameAt text.now rest.now) }
{
    let mut chars = text.chars();
    match chars.next() {
        Some(first) if is_name_start(first) => Some(after_run(Class::NameChar, chars.as_str())),
        _ => None,
    }
}

/// What is after the colon and the NCName that the text begins with.
fn after_local(text: &str) -> Option<&str>
    ensures { MatchOption result (NoLocal text.now) (λ rest. LocalAt text.now rest.now) }
{
    match text.strip_prefix(':') {
        Some(local) => after_ncname(local),
        None => None,
    }
}

/// What is after the colon and the star that the text begins with.
fn after_star(text: &str) -> Option<&str>
    ensures { MatchOption result (NoStar text.now) (λ rest. text.now ≡ 58 ∷ 42 ∷ rest.now) }
{
    match text.strip_prefix(':') {
        Some(local) => local.strip_prefix('*'),
        None => None,
    }
}

/// The name that the text begins with, the longest of a name, a name with a prefix, and a prefix with a star.
pub(crate) fn name(text: &str) -> Option<Scanned>
    ensures { MatchOption result (NoneOf is_name text.now) (λ s. LongestOf is_name text.now s.rest.now s.lexeme) }
{
    match after_ncname(text) {
        Some(rest) => Some(longest_name(text, before(text, rest), rest)),
        None => None,
    }
}

/// The longest name that the text begins with, after whose first NCName is `rest`.
fn longest_name<'a>(text: &'a str, first: &'a str, rest: &'a str) -> Scanned<'a>
    requires { IsHead text.now first.now rest.now }
    ensures { LongestOf is_name text.now result.rest.now result.lexeme }
{
    if let Some(rest) = after_local(rest) {
        return Scanned {
            lexeme: Lexeme::PrefixedName(Word::new(before(text, rest))),
            rest,
        };
    }
    match after_star(rest) {
        Some(rest) => Scanned {
            lexeme: Lexeme::PrefixStar(Word::new(first)),
            rest,
        },
        None => Scanned {
            lexeme: Lexeme::Name(Word::new(first)),
            rest,
        },
    }
}

/// What is after the QName that the text begins with.
fn after_qname(text: &str) -> Option<&str>
    ensures { MatchOption result (NoName text.now) (λ rest. QnameAt text.now rest.now) }
{
    match after_ncname(text) {
        Some(rest) => match after_local(rest) {
            Some(end) => Some(end),
            None => Some(rest),
        },
        None => None,
    }
}

/// The variable, after its dollar sign.
pub(crate) fn variable(text: &str) -> Option<Scanned>
    ensures { MatchOption result (NoneOf is_variable (36 ∷ text.now)) (λ s. LongestOf is_variable (36 ∷ text.now) s.rest.now s.lexeme) }
{
    match after_qname(text) {
        Some(rest) => Some(Scanned {
            lexeme: Lexeme::Variable(Word::new(before(text, rest))),
            rest,
        }),
        None => None,
    }
}
