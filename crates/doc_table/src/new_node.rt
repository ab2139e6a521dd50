//! What a new node is made of, and why one is refused.

ghost use Rattle.std.specs.Prelude.{◌≡◌};
ghost use Rattle.doc_table.specs.declared.new_node.AppendError.TheVariants as errors;

use doc_names::NameId;
use std::alloc::AllocError;
use thiserror::Error;

/// A node to be appended: its name where it has one, and its value, characters or data.
#[derive(Clone, Copy)]
pub enum NewNode<'a> {
    Element(NameId),
    Attribute(NameId, &'a str),
    Text(&'a str),
    Comment(&'a str),
    /// A processing instruction, whose name has the target as local part, and its data.
    Pi(NameId, &'a str),
}

/// Why a node wasn't appended.
#[derive(Clone, Copy, Debug, PartialEq, Eq, Error)]
pub enum AppendError {
    /// The tree has as many live nodes as it may.
    #[error("too many nodes")]
    TooManyNodes,
    /// The element would stand deeper than an element may.
    #[error("too deep")]
    TooDeep,
    /// The live text would be longer than it may.
    #[error("too much text")]
    TooMuchText,
    #[error("out of memory")]
    Memory,
}

impl From<AllocError> for AppendError {
    ghost from_gives = { λ _ error. error ≡ errors.Memory };

    fn from(_error: AllocError) -> Self {
        AppendError::Memory
    }
}
