//! The elements of Schematron.

/// An element of a schema, by its local name (ISO/IEC 19757-3, section 5).
#[derive(Clone, Copy, Debug, PartialEq, Eq)]
pub enum Word {
    Schema,
    Title,
    Ns,
    P,
    Let,
    Phase,
    Active,
    Pattern,
    Param,
    Rule,
    Extends,
    Assert,
    Report,
    Diagnostics,
    Diagnostic,
    Properties,
    Property,
    Dir,
    Emph,
    Span,
    ValueOf,
    Name,
}
