//! Tokens that are marks.

ghost use Rattle.xp_parse.specs.inner.Places.{IsOrNot, token_of};

use xp_grammar::Token;
use xp_tree::Operator;

/// A token that is always spelled alike, and that has to stand at a place or may stand there.
#[derive(Clone, Copy)]
pub(crate) enum Mark {
    OpenParen,
    CloseParen,
    OpenBracket,
    CloseBracket,
    DoubleColon,
    Comma,
    /// A minus sign.
    Minus,
}

impl Mark {
    /// Whether the token is this mark.
    pub(crate) fn is(self, token: &Token) -> bool
        ensures { IsOrNot (token_of self) token.now result }
    {
        match self {
            Mark::OpenParen => matches!(token, Token::OpenParen),
            Mark::CloseParen => matches!(token, Token::CloseParen),
            Mark::OpenBracket => matches!(token, Token::OpenBracket),
            Mark::CloseBracket => matches!(token, Token::CloseBracket),
            Mark::DoubleColon => matches!(token, Token::DoubleColon),
            Mark::Comma => matches!(token, Token::Comma),
            Mark::Minus => matches!(token, Token::Operator(Operator::Minus)),
        }
    }
}
