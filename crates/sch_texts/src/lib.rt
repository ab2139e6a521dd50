//! Texts of a schema that say more than one thing: a parameter's name and what follows it, the ids of a list.
#![tactic(auto)]

mod ids;
mod names;

pub use ids::joined_ids;
pub use names::{after_name, before};
