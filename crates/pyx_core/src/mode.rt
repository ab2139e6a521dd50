//! What a text has to be as a whole.

/// Whether a text is a document or a part of one.
#[derive(Clone, Copy, Debug, PartialEq, Eq)]
pub enum Mode {
    /// A document: one top element, with comments and processing instructions beside it (XML 1.0, section 2.1).
    Document,
    /// A fragment: one top item, which is an element, a text, a comment or a processing instruction.
    Fragment,
}
