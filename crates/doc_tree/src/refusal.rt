//! Why an edit is refused.

ghost use Rattle.std.specs.Prelude.{◌≡◌};
ghost use Rattle.doc_tree.specs.declared.refusal.EditError.TheVariants as errors;

use std::alloc::AllocError;
use std::fmt::{Debug, Display, Formatter, Write};
use thiserror::Error;

/// Why an edit is refused, by the reasons of an edit script. Shown as the reason's name.
#[derive(Clone, Copy, Debug, PartialEq, Eq)]
pub enum EditRefusal {
    /// The path names no node.
    NoNode,
    /// The node is of a kind that the edit isn't for.
    WrongKind,
    /// The place is past the one behind the last kid.
    NotInRange,
    /// An element or a text would come under the root, or the document element would go.
    RootElement,
    /// A text would stand beside a text.
    TextBeside,
    /// A text would be empty.
    EmptyText,
    /// A prefix isn't in scope.
    NoPrefix,
    /// The name is one of declarations, not of attributes, or has their prefix, as no element's does.
    XmlnsName,
    /// The element has no such attribute.
    NoAttribute,
    /// More nodes would live than may.
    TooManyNodes,
    /// An element would stand deeper than an element may.
    TooDeep,
    /// The live text would be longer than it may.
    TooMuchText,
    /// More node numbers would have been made than may.
    IdsSpent,
    /// More nodes would live than the tree's pair cap allows.
    TooManyPairs,
    /// Two attributes of one element would have one expanded name.
    SameAttribute,
}

impl Display for EditRefusal {
    /// Writes the reason's name.
    fn fmt<W: Write>(&self, f: &mut Formatter<W>) -> std::fmt::Result {
        Debug::fmt(self, f)
    }
}

impl std::error::Error for EditRefusal {}

/// Why an edit wasn't done.
#[derive(Clone, Copy, Debug, PartialEq, Eq, Error)]
pub enum EditError {
    #[error("refused: {0}")]
    Refused(EditRefusal),
    #[error("out of memory")]
    Memory,
}

impl From<AllocError> for EditError {
    ghost from_gives = { λ _ error. error ≡ errors.Memory };

    fn from(_error: AllocError) -> Self {
        EditError::Memory
    }
}
