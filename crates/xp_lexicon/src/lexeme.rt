//! Lexemes: what stands at a place of a text by its characters alone.

ghost use Rattle.std.specs.Prelude.{◌≡◌, ◌∷◌, true, MatchOption};
ghost use Rattle.xp_lexicon.specs.Lexicon.{is_quote};
ghost use Rattle.xp_lexicon.specs.inner.Scanning.{LongestAt, NoLexeme, LongestOf, NoneOf, form_of, is_literal, is_pointed};

use crate::name::{name, variable};
use crate::number::{fraction, number};
use crate::symbol::symbol;
use sch_base::is_name_start;
use xp_grammar::{Token, Word};

/// A token before its place is looked at (XPath 1.0, section 3.7): what `*` and names are depends on the token before,
/// and on what follows.
#[derive(Drop)]
pub enum Lexeme<'a> {
    /// Signs that are the same token at each place.
    Symbol(Token<'a>),
    /// `*`
    Star,
    /// A text between quotes, without these.
    Literal(Word<'a>),
    /// A number as it is spelled.
    Number(Word<'a>),
    /// `$name` or `$p:name`, without the dollar sign.
    Variable(Word<'a>),
    /// A name without a prefix.
    Name(Word<'a>),
    /// `p:name`
    PrefixedName(Word<'a>),
    /// `p:*`, the prefix.
    PrefixStar(Word<'a>),
}

/// What a lexeme's first character tells of it.
#[derive(Clone, Copy)]
enum Form {
    Variable,
    Literal,
    Star,
    /// A number.
    Digit,
    /// A number or a symbol.
    Point,
    /// A name with or without a prefix, or a prefix with a star.
    Name,
    /// A symbol that begins with no point, or none.
    Symbol,
}

/// A lexeme and what follows it.
#[derive(Drop)]
pub(crate) struct Scanned<'a> {
    pub(crate) lexeme: Lexeme<'a>,
    pub(crate) rest: &'a str,
}

/// The longest lexeme that the text begins with, None where it begins with none.
pub(crate) fn scan(text: &str) -> Option<Scanned>
    ensures { MatchOption result (NoLexeme text.now) (λ s. LongestAt text.now s.rest.now s.lexeme) }
{
    let mut chars = text.chars();
    let first = chars.next()?;
    let behind = chars.as_str();
    match form_of(first) {
        Form::Variable => variable(behind),
        Form::Literal => literal(first, behind),
        Form::Star => Some(Scanned {
            lexeme: Lexeme::Star,
            rest: behind,
        }),
        Form::Digit => Some(number(text)),
        Form::Point => point(text, behind),
        Form::Name => name(text),
        Form::Symbol => symbol(first, behind),
    }
}

/// The form of the lexemes that begin with the character.
fn form_of(first: char) -> Form
    ensures { result ≡ form_of first }
{
    match first {
        '$' => Form::Variable,
        '\'' | '"' => Form::Literal,
        '*' => Form::Star,
        '0'..='9' => Form::Digit,
        '.' => Form::Point,
        _ if is_name_start(first) => Form::Name,
        _ => Form::Symbol,
    }
}

/// A literal, after its first quote.
fn literal(quote: char, text: &str) -> Option<Scanned>
    requires { is_quote quote ≡ true }
    ensures { MatchOption result (NoneOf is_literal (quote ∷ text.now)) (λ s. LongestOf is_literal (quote ∷ text.now) s.rest.now s.lexeme) }
{
    match text.split_once(quote) {
        Some((value, rest)) => Some(Scanned {
            lexeme: Lexeme::Literal(Word::new(value)),
            rest,
        }),
        None => None,
    }
}

/// A number or a symbol that begins with a point, and what is after the point.
fn point<'a>(text: &'a str, behind: &'a str) -> Option<Scanned<'a>>
    requires { text.now ≡ 46 ∷ behind.now }
    ensures { MatchOption result (NoneOf is_pointed text.now) (λ s. LongestOf is_pointed text.now s.rest.now s.lexeme) }
{
    match fraction(text, behind) {
        Some(scanned) => Some(scanned),
        None => symbol('.', behind),
    }
}
