//! What a schema names.

/// The kinds of things whose names a schema may use once; each kind has names of its own.
#[derive(Clone, Copy, Debug, PartialEq, Eq, Hash)]
pub enum Named {
    /// The title of the schema, of which there is one at most.
    Title,
    /// A prefix.
    Prefix,
    Phase,
    Pattern,
    AbstractRule,
    Diagnostic,
    Property,
    /// A parameter, within its pattern.
    Param,
}
