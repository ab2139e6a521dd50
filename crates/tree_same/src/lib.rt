//! Whether two trees are the same but for the numbers of their nodes.
#![tactic(auto)]

mod nodes;
mod same;

pub use same::same_tree;
