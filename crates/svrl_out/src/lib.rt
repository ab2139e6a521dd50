//! The report: what validation found, written as SVRL in lines of PYX (ISO/IEC 19757-3, annex on SVRL).
#![tactic(auto)]

mod fault_line;
mod found;
mod laid;
mod page;
mod parts;
mod report;
mod shown;

pub use doc_locations::{location, locations_are_told_apart};
pub use fault_line::write_fault;
pub use report::{OutError, write_report, write_report_among};
pub use shown::Shown;
