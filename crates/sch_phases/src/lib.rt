//! The choice of a phase of a Schematron schema: its lets, and the patterns that it makes active (ISO/IEC 19757-3:2016,
//! sections 5.4.10 and 6.3).
#![tactic(auto)]

mod ids;
mod phases;

pub use phases::{Choice, chosen};
