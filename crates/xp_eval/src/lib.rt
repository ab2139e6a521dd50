//! The evaluation of expressions of XPath 1.0: values or first faults, with what is read and counted on the way.
#![tactic(auto)]

mod answers;
mod calling;
mod candidates;
mod choosing;
mod current;
mod evaluator;
mod let_calls;
mod own_node;
mod positions;
mod reached;
mod variables;

pub use calling::{eval, step_at};
pub use evaluator::Evaluator;
pub use xp_calls::{Caller, is_by_name};
pub use xp_meaning::{Context, Lets};
pub use xp_outcome::{Recorder, Steps};
