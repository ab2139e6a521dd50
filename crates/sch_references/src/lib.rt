//! The names to which a Schematron schema refers: abstract rules and patterns, patterns, phases, diagnostics and
//! properties (ISO/IEC 19757-3:2016, section 5.4), and the order in which abstract rules extend one another.
#![tactic(auto)]

mod ids;
mod laws;
mod order;
mod reach;
mod references;
mod search;

pub use laws::first_in_order;
pub use order::RuleOrder;
pub use references::check_references;
