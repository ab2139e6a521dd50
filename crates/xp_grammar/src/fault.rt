//! Syntax faults.

ghost use Rattle.std.specs.Prelude.{◌≡◌};
ghost use Rattle.xp_grammar.specs.FaultNames.{kind_name};

/// What is wrong at the first fault of an expression or a pattern.
#[derive(Clone, Copy, Debug, PartialEq, Eq)]
pub enum SyntaxKind {
    /// No token can be read there.
    BadToken,
    /// Nothing that begins like this goes on with the token, or ends there.
    Unexpected,
    /// Only the limit of nesting refuses the token.
    TooNested,
}

impl SyntaxKind {
    /// The kind's name, as messages tell it.
    pub fn name(self) -> &'static str
        ensures { result.now ≡ kind_name self }
    {
        match self {
            SyntaxKind::BadToken => "BadToken",
            SyntaxKind::Unexpected => "Unexpected",
            SyntaxKind::TooNested => "TooNested",
        }
    }
}

/// The first fault of a text, with the number of bytes before it.
#[derive(Clone, Copy, Debug, PartialEq, Eq)]
pub struct SyntaxFault {
    pub kind: SyntaxKind,
    pub offset: u32,
}
