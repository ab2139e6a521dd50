//! Which of the faults of a schema is told: the first one in document order, and at one place the one with the least number.
#![tactic(auto)]

mod first;

pub use first::FirstFault;
