//! The commands of edit scripts, done on a document, and the cells of nodes that they touch.
#![tactic(auto)]

mod commands;
mod inserting;
mod paths;
mod refusal;
mod renaming;
mod touched;

pub use commands::apply_to;
pub use paths::node_named;
pub use refusal::ApplyError;
pub use touched::Touched;
