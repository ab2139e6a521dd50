//! The evaluation of a validation's units (ISO/IEC 19757-3, clause 6): of a let in force at the root, and of a node under
//! an active pattern. What is kept of a unit is its outcome and what it read.
#![tactic(auto)]

mod asserting;
mod classes;
mod kept;
mod kept_matches;
mod letting;
mod messages;
mod pairing;
mod placing;
mod rules;
mod validator;

pub use kept::{Kept, KeptLet};
pub use kept_matches::KeptMatches;
pub use letting::run_let;
pub use pairing::{PlanRun, run_pair, run_pair_with};
pub use xp_eval::Caller;
pub use xp_meaning::Lets;
pub use xp_outcome::{Recorder, Steps};
