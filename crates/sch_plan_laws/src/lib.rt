//! Laws of plans: what holds of the plan of every schema.
#![tactic(auto)]

mod laws;

pub use laws::{each_phase_is_compiled, plans_need_no_places};
