//! What watched expressions give, written in lines: instructions in PYX.
#![tactic(auto)]

mod state;
mod value;

pub use state::{shows_fault, write_watches};
pub use svrl_out::OutError;
