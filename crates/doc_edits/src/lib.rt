//! Edits of the bare table: what they make of it, and that a tree stays a tree.
#![tactic(auto)]

mod copying;
mod deleting;
mod gaining;
mod inserting;
mod laws;
mod ranking;
mod removing;
mod renaming;
mod reranking;
mod saying;

pub use deleting::delete;
pub use gaining::gain;
pub use inserting::insert;
pub use laws::{
    additions_keep_trees, deletions_keep_trees, edits_keep_documents, removals_keep_trees,
    renames_keep_trees, sayings_keep_trees,
};
pub use removing::remove;
pub use renaming::rename;
pub use saying::say;
