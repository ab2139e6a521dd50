//! Tokens derive at most one expression (XPath 1.0, sections 2 and 3) and at most one match pattern (XSLT 1.0, section
//! 5.2).
#![tactic(auto)]

mod laws;

pub use laws::{one_pattern, one_tree};
