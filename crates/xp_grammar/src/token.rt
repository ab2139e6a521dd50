//! The tokens of XPath 1.0, section 3.7.

use std::marker::Model;
use xp_tree::{AxisName, Operator};

/// A part of the text of an expression.
#[derive(Drop)]
pub struct Word<'a> {
    text: &'a str,
}

impl<'a> Model for Word<'a> {
    ghost use Rattle.std.specs.Prelude.{List, ℕ};

    ghost Value = { List ℕ };

    ghost view = { λ w. w.text.now };
}

impl<'a> Word<'a> {
    ghost use Rattle.std.specs.Prelude.{◌≡◌};

    /// The text as a word.
    pub fn new(text: &'a str) -> Word<'a>
        ensures { result ≡ text.now }
    {
        Word { text }
    }

    /// The word's text.
    pub fn as_str(&self) -> &'a str
        ensures { result.now ≡ self.now }
    {
        self.text
    }
}

/// The node types of a node test (XPath 1.0, section 2.3).
#[derive(Clone, Copy)]
pub enum NodeType {
    Comment,
    Chars,
    Pi,
    Node,
}

/// A token. A name before `(` is a node type or a function, one before `::` an axis, and where an operand has just
/// ended, `*` and the names `and`, `or`, `div` and `mod` are operators.
#[derive(Drop)]
pub enum Token<'a> {
    OpenParen,
    CloseParen,
    OpenBracket,
    CloseBracket,
    Dot,
    DoubleDot,
    At,
    Comma,
    DoubleColon,
    Slash,
    DoubleSlash,
    /// An operator other than `/` and `//`; a sign is `Minus` too.
    Operator(Operator),
    /// `*` as a node test.
    Star,
    /// `p:*`, the prefix.
    PrefixStar(Word<'a>),
    /// A name that is a node test, with its prefix.
    Name(Word<'a>),
    /// A name before `::`.
    Axis(AxisName),
    NodeType(NodeType),
    /// A function's name, with its prefix.
    Function(Word<'a>),
    /// A text between quotes, without these.
    Literal(Word<'a>),
    /// A number as it is spelled.
    Number(Word<'a>),
    /// A variable's name, without the dollar sign.
    Variable(Word<'a>),
}

/// A token with the number of bytes before it.
#[derive(Drop)]
pub struct Placed<'a> {
    pub offset: u32,
    pub token: Token<'a>,
}
