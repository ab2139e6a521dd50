//! Laws of files of watched expressions: what holds of each.
#![tactic(auto)]

mod laws;

pub use laws::{each_file_is_read, one_reading};
