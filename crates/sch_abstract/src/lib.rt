//! From a Schematron schema as it is read to one without abstract parts, or the first rule that it breaks on the way
//! (ISO/IEC 19757-3:2016).
#![tactic(auto)]

mod expansion;
mod laws;

pub use expansion::expand;
pub use laws::first_fault_agrees;
