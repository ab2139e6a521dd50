//! A document under a plan, as an editor has it: it is edited by commands, and its state is written at any time.
#![tactic(auto)]

mod counting;
mod laws;
mod pairs;
mod refusal;
mod session;
mod state;
mod told;

pub use counting::Counts;
pub use kept_units::dirty_are_run;
pub use laws::{pair_cap_is_for_pairs, stale_after_edit};
pub use refusal::OpenRefusal;
pub use session::Session;
pub use state::ReportError;
pub use svrl_out::Shown;
