//! The texts that the command `measure` follows: a schema, a document and a script of edits, made from a number of items.
#![tactic(auto)]

mod shelf;
mod texts;

pub use shelf::{DOCUMENT_NAME, SCHEMA_NAME, SCRIPT_NAME, measure_shelf};
pub use texts::{document_text, schema_text, script_text};
