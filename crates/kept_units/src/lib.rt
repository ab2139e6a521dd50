//! The units of a plan over a tree, kept: what each gave and read when it was last evaluated. Edits mark those that they touch as
//! stale, and a refresh evaluates these anew, with those that read a let whose outcome has changed.
#![tactic(auto)]

mod counting;
mod kept_units;
mod marking;
mod refreshing_lets;
mod refreshing_pairs;

pub use kept_state::{dirty_are_run, edits_keep, rules_are_typed, units_read_live_cells};
pub use kept_units::KeptUnits;
pub use rule_run::Lets;
pub use state_run::{Evaluated, came_to_among, evaluate};
