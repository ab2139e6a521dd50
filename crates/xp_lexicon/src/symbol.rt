//! Symbols: tokens of one or two signs (XPath 1.0, section 3.7).

ghost use Rattle.std.specs.Prelude.{◌≡◌, ◌∷◌, ◌++◌, [], encode_utf8, MatchOption};
ghost use Rattle.xp_lexicon.specs.Lexicon.{symbols};
ghost use Rattle.sch_base.specs.Named.{named};
ghost use Rattle.xp_lexicon.specs.inner.Scanning.{LongestOf, NoneOf, is_symbol};

use crate::lexeme::{Lexeme, Scanned};
use xp_grammar::Token;
use xp_tree::Operator;

/// The token of one sign.
fn single<'a>(first: char) -> Option<Token<'a>>
    ensures { result ≡ named symbols (first ∷ []) }
{
    match first {
        '(' => Some(Token::OpenParen),
        ')' => Some(Token::CloseParen),
        '[' => Some(Token::OpenBracket),
        ']' => Some(Token::CloseBracket),
        '.' => Some(Token::Dot),
        '@' => Some(Token::At),
        ',' => Some(Token::Comma),
        '/' => Some(Token::Slash),
        '|' => Some(Token::Operator(Operator::Union)),
        '+' => Some(Token::Operator(Operator::Plus)),
        '-' => Some(Token::Operator(Operator::Minus)),
        '=' => Some(Token::Operator(Operator::Equal)),
        '<' => Some(Token::Operator(Operator::Less)),
        '>' => Some(Token::Operator(Operator::Greater)),
        _ => None,
    }
}

/// The token of two signs.
fn double<'a>(first: char, second: char) -> Option<Token<'a>>
    ensures { result ≡ named symbols (first ∷ second ∷ []) }
{
    match (first, second) {
        ('.', '.') => Some(Token::DoubleDot),
        (':', ':') => Some(Token::DoubleColon),
        ('/', '/') => Some(Token::DoubleSlash),
        ('!', '=') => Some(Token::Operator(Operator::NotEqual)),
        ('<', '=') => Some(Token::Operator(Operator::AtMost)),
        ('>', '=') => Some(Token::Operator(Operator::AtLeast)),
        _ => None,
    }
}

/// The longest symbol that a text begins with, whose first sign is given, and what is after that.
pub(crate) fn symbol(first: char, behind: &str) -> Option<Scanned>
    ensures { MatchOption result (NoneOf is_symbol (encode_utf8 first ++ behind.now)) (λ s. LongestOf is_symbol (encode_utf8 first ++ behind.now) s.rest.now s.lexeme) }
{
    let mut chars = behind.chars();
    if let Some(second) = chars.next() {
        if let Some(token) = double(first, second) {
            return Some(Scanned {
                lexeme: Lexeme::Symbol(token),
                rest: chars.as_str(),
            });
        }
    }
    match single(first) {
        Some(token) => Some(Scanned {
            lexeme: Lexeme::Symbol(token),
            rest: behind,
        }),
        None => None,
    }
}
