//! The files that a command names, read: a schema as the plan of a phase or without abstract parts, watched expressions, a document, a
//! report, a script.
#![tactic(auto)]

mod loading;
mod report;
mod schema;
mod watches;

pub use loading::{load_document, load_flat, load_plan, read_script};
pub use report::load_report;
pub use watches::load_watches;
