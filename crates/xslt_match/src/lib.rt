//! Matching of nodes against the match patterns of XSLT 1.0 (section 5.2).
#![tactic(auto)]

mod chains;
mod kept;
mod known_test;
mod leading;
mod matching;
mod names;
mod nodes;
mod one_chain;
mod positional;
mod refusing;
mod testing;

pub use kept::KeptSteps;
pub use matching::{matches, matches_with};
pub use names::NamesUp;
pub use refusing::{NodeClass, refused_levels};
pub use xp_eval::{Caller, Evaluator};
pub use xp_meaning::Lets;
pub use xp_outcome::{Recorder, Steps};
