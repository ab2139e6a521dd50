//! The rules of a Schematron schema as definitions (ISO/IEC 19757-3:2016): what a document says as a schema, and which
//! rule it breaks first.
#![tactic(auto)]

mod laws;
mod named;
mod word;

pub use laws::first_agrees;
pub use named::Named;
pub use word::Word;
