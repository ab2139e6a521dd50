//! The plan of a phase: a Schematron schema without abstract parts is compiled for one phase, or the first rule is found
//! that it breaks on the way (ISO/IEC 19757-3:2016, clause 6).
#![tactic(auto)]

mod compilation;
mod counts;
mod expressions;
mod faults;
mod ids;
mod laws;
mod lets;
mod messages;
mod plans;
mod scopes;
mod walker;

pub use compilation::compile;
pub use laws::one_plan;
