//! What evaluation gives beside its value: the cells and lets that it reads, and its steps.
//!
//! The definitions of this crate say how an evaluation's answer, reads and work go together, and how a run of code
//! stands to them; evaluation, matching, lets and rules compose by them.
#![tactic(auto)]

mod laws;
mod names_along;
mod read_list;
mod recorder;
mod slots;
mod steps;

pub use laws::{gather_in_parts, outcomes_compose, runs_compose, slots_keep};
pub use names_along::NamesAlong;
pub use recorder::Recorder;
pub use slots::Slots;
pub use steps::Steps;
