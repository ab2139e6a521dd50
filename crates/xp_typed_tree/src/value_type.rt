//! The types of values.

/// The types of values (XPath 1.0, section 1).
#[derive(Clone, Copy, Debug, PartialEq, Eq)]
pub enum ValueType {
    NodeSet,
    /// A boolean.
    Truth,
    Number,
    /// A string.
    Chars,
}
