//! Where a node is found: for each node of a tree the XPath expression that finds it (ISO/IEC 19757-3, annex on SVRL).
#![tactic(auto)]

mod laws;
mod locations;
mod places;

pub use laws::locations_are_told_apart;
pub use locations::{Locator, location};
