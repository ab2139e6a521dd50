//! The summary of a report: what is counted of its patterns, and of the roles and flags of its findings.
#![tactic(auto)]

mod label;
mod laws;
mod summary;
mod tally;
mod writing;

pub use label::Label;
pub use laws::labels_are_counted;
pub use summary::{
    LabelCount, LabelCountList, PatternCount, PatternCountList, Summary, summary_of,
};
pub use tally::Tally;
pub use writing::write_summary;
