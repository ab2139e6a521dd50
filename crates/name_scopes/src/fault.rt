//! Why a document is refused.

ghost use Rattle.std.specs.Prelude.{◌≡◌};
ghost use Rattle.name_scopes.specs.declared.fault.EventError.TheVariants as event_error;
ghost use Rattle.name_scopes.specs.declared.fault.LoadError.TheVariants as load_error;

use pyx_core::PyxKind;
use std::alloc::AllocError;
use thiserror::Error;

/// The rules that a document can break, in the order in which they are tested at one event.
#[derive(Clone, Copy, Debug, PartialEq, Eq)]
pub enum DocKind {
    /// A line breaks a rule of PYX.
    Pyx(PyxKind),
    /// The prefix of the element or of an attribute isn't in scope (Namespaces in XML 1.0, section 5).
    NoPrefix,
    /// Two attributes have one QName or one expanded name (XML 1.0, section 3.1, Namespaces in XML 1.0, section 6.3).
    SameAttribute,
    /// A declaration that may not be (Namespaces in XML 1.0, sections 2.2 and 3).
    BadDeclaration,
    /// A namespace name with both kinds of quotes.
    BothQuotes,
    /// The tree would have more nodes than it may.
    TooManyNodes,
    /// An element would stand deeper than it may.
    TooDeep,
}

/// The first fault of a document.
#[derive(Clone, Copy, Debug, PartialEq, Eq)]
pub struct DocFault {
    /// The line where the event begins that breaks the rule, counted from 1; for a fault of PYX that of the fault.
    pub line: u64,
    pub kind: DocKind,
}

/// Why a document wasn't loaded.
#[derive(Clone, Copy, Debug, PartialEq, Eq, Error)]
pub enum LoadError {
    /// The document has this fault.
    #[error("line {}: {:?}", .0.line, .0.kind)]
    Fault(DocFault),
    #[error("out of memory")]
    Memory,
}

impl From<AllocError> for LoadError {
    ghost from_gives = { λ _ error. error ≡ load_error.Memory };

    fn from(_error: AllocError) -> LoadError {
        LoadError::Memory
    }
}

/// Why an event wasn't taken.
#[derive(Clone, Copy)]
pub(crate) enum EventError {
    /// It breaks this rule.
    Kind(DocKind),
    /// There was no memory for it.
    Memory,
}

impl From<AllocError> for EventError {
    ghost from_gives = { λ _ error. error ≡ event_error.Memory };

    fn from(_error: AllocError) -> EventError {
        EventError::Memory
    }
}
