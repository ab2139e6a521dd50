//! Watched expressions over a document that is edited: what each gives at the root is kept, an edit makes those stale that read what it
//! touches, and a refresh evaluates just these.
#![tactic(auto)]

mod kept;
mod laws;
mod watch;

pub use laws::{clean_watches_stand, dirty_are_stale, edits_keep};
pub use watch::Watch;
