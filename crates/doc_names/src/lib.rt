//! Words and names, each kept once and numbered in the order of first use.
#![tactic(auto)]

mod ids;
mod names;
mod words;

pub use ids::NameId;
pub use names::NameTable;
pub use words::WordTable;
