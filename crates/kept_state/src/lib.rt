//! What a session keeps of its units, and that it is the state: what holds of it before an edit, or a run of a unit, holds afterwards.
#![tactic(auto)]

mod laws;

pub use edit_costs::rules_are_typed;
pub use laws::{
    dirty_are_run, edits_keep, kept_is_right, lets_keep, nothing_keeps, pairs_keep, refreshes_keep,
};
pub use unit_live_laws::units_read_live_cells;
