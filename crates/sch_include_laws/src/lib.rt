//! Laws of inclusion: what holds of the files of every schema.
#![tactic(auto)]

mod laws;

pub use laws::each_inclusion_ends;
