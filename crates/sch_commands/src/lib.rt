//! What each command does: `carry_out` reads what the words name, evaluates, and writes to the output; how the run then ends, another says.
#![tactic(auto)]

mod commands;
mod expansion;
mod followed;
mod following;
mod measuring;
mod notice;
mod summing;
mod undoing;
mod validation;
mod watching;

pub use commands::carry_out;
pub use sch_undo::{Shown, pair_cap_is_for_pairs};
