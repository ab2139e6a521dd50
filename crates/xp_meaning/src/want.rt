//! What a value is wanted as.

/// What an argument of a function is converted to (XPath 1.0, section 3.2).
#[derive(Clone, Copy, Debug, PartialEq, Eq)]
pub enum Want {
    AsItIs,
    AsText,
    AsNumber,
}
