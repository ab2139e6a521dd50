//! The parser of XPath 1.0 expressions and of XSLT 1.0 match patterns over their tokens.
#![tactic(auto)]

mod error;
mod mark;
mod parser;
mod pattern;
mod pattern_calls;
mod pattern_steps;
mod primary;
mod steps;
mod stop;
mod stopped;
mod whole;
mod words;

pub use error::ParseError;
pub use whole::{parse_pattern_tokens, parse_tokens};
