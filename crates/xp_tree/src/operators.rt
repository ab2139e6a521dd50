//! The operators on values, each said once: trees hold them, evaluation applies them.

/// The comparisons `=`, `!=`, `<`, `<=`, `>` and `>=` (XPath 1.0, section 3.4).
#[derive(Clone, Copy)]
pub enum Comparison {
    Eq,
    Ne,
    Lt,
    Le,
    Gt,
    Ge,
}

/// The operators of arithmetic `+`, `-`, `*` and `mod` (XPath 1.0, section 3.5).
#[derive(Clone, Copy)]
pub enum ArithOp {
    Add,
    Sub,
    Mul,
    /// The remainder, with the sign of the dividend.
    Mod,
}
