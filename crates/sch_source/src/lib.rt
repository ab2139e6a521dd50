//! The document of a Schematron schema (ISO/IEC 19757-3, section 5), read by its elements and attributes: the values that it
//! says, whether it keeps the rules of schemas or not.
#![tactic(auto)]

mod ids;
mod message;
mod patterns;
mod schema;
mod source;
mod values;
mod words;

pub use source::Source;
pub use words::{is_styled, is_word, word_of};
