//! The kinds of nodes.

/// The kinds of nodes (XPath 1.0, section 5).
#[derive(Clone, Copy, Debug, PartialEq, Eq)]
pub enum Kind {
    Root,
    Element,
    Attribute,
    Text,
    Comment,
    /// A processing instruction.
    Pi,
}
