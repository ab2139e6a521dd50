//! The grammars of XPath 1.0 expressions and of XSLT 1.0 match patterns: tokens, derivations and first faults.
#![tactic(auto)]

mod fault;
mod laws;
mod token;

pub use fault::{SyntaxFault, SyntaxKind};
pub use laws::{each_derives_a_pattern_or_fails, each_derives_or_fails};
pub use token::{NodeType, Placed, Token, Word};
