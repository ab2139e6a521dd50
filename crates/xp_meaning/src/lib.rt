//! What expressions of XPath 1.0 mean: their values or first faults, what their evaluation reads, and its visits.
//!
//! The definitions stand in `specs/`: what is read in `Reads`, conversions in `Conversions`, steps, predicates and paths
//! in `Paths`, the functions in `Functions`, and all expressions in `Evaluation`. This crate holds no evaluator.
#![tactic(auto)]

mod context;
mod laws;
mod want;

pub use context::{Context, Lets};
pub use laws::{dot_is_context, number_is_position, union_counts_once, values_are_proper};
pub use want::Want;
