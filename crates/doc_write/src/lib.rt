//! Writing a tree as PYX text.
#![tactic(auto)]

mod names;
mod tree;

pub use tree::write_tree;
