//! A schema with its includes replaced: each `include` of Schematron gives way to the document element of the file that it
//! names (ISO/IEC 19757-3:2016, section 5.4.4).
#![tactic(auto)]

mod copy;
mod fault;
mod href;
mod including;
mod joiner;
mod laws;
mod source;
mod walk;

pub use fault::{IncludeError, IncludeFault, IncludeKind};
pub use including::include_all;
pub use laws::one_inclusion;
