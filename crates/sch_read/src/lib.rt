//! Reading a Schematron schema from its document, or the first rule that it breaks (ISO/IEC 19757-3:2016).
#![tactic(auto)]

mod check;
mod keys;
mod rules;
mod schema;
mod words;

pub use schema::read_schema;
