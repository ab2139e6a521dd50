//! All units of a plan over a tree: evaluated once, and what they come to (ISO/IEC 19757-3, clause 6).
#![tactic(auto)]

mod outcomes;
mod scanning;

pub use outcomes::{Outcomes, evaluate};
pub use scanning::{Evaluated, came_to, came_to_among};
