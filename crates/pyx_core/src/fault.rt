//! Why a text is refused.

ghost use Rattle.std.specs.Prelude.{◌≡◌};
ghost use Rattle.pyx_core.specs.declared.fault.FeedError.TheVariants.{Memory};

use std::alloc::AllocError;
use thiserror::Error;

/// The rules that a line can break, in the order in which they are tested, and then those of the end of the text.
#[derive(Clone, Copy, Debug, PartialEq, Eq)]
pub enum PyxKind {
    /// The line isn't UTF-8.
    NotUtf8,
    /// It holds a character that isn't a Char (XML 1.0, section 2.2).
    BadChar,
    /// Its first character is none of those that begin a line.
    UnknownLine,
    /// It begins with `&`.
    EntityLine,
    /// The name isn't a QName; the target isn't an NCName, or is `xml` in any case (Namespaces in XML 1.0, sections
    /// 3 and 4; XML 1.0, section 2.6).
    BadName,
    /// An attribute line that doesn't follow a start or attribute line.
    AttributePlace,
    /// The end of an element that isn't the innermost open one.
    WrongEnd,
    /// In a document, text outside the document element that isn't whitespace alone.
    TextOutside,
    /// A second top element in a document, or a second top item in a fragment.
    SecondRoot,
    /// At the end, no top element in a document, or no top item in a fragment.
    NoRoot,
    /// At the end, an element is open.
    Unfinished,
}

/// The first fault of a text.
#[derive(Clone, Copy, Debug, PartialEq, Eq)]
pub struct PyxFault {
    /// The line, counted from 1, empty ones included; at the end the number of line ends read plus 1.
    pub line: u64,
    pub kind: PyxKind,
}

/// Why a reader stopped.
#[derive(Clone, Copy, Debug, PartialEq, Eq, Error)]
pub enum FeedError {
    /// The text that was fed has this fault.
    #[error("line {}: {:?}", .0.line, .0.kind)]
    Fault(PyxFault),
    #[error("out of memory")]
    Memory,
}

impl From<AllocError> for FeedError {
    ghost from_gives = { λ _ error. error ≡ Memory };

    fn from(_error: AllocError) -> FeedError {
        FeedError::Memory
    }
}
