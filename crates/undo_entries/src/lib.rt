//! The commands that take a command of an edit script back, and the events of a subtree, by which it comes again.
#![tactic(auto)]

mod entry;
mod events;
mod finding;
mod making;
mod names;
mod paths;
mod places;

pub use entry::{CommandList, Entry};
pub use events::subtree_events;
pub use making::entry_for;
