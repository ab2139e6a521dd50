//! Trees that are equal but for the numbers of their nodes: one of them is the other with its nodes renumbered.
#![tactic(auto)]

mod laws;

pub use laws::{renumbered_trees_are_same, renumbered_trees_hang, same_trees_are_renumbered};
