//! An editor's session that can undo its newest edits.
#![tactic(auto)]

mod error;
mod history;

pub use edit_session::{Counts, OpenRefusal, ReportError, Session, Shown, pair_cap_is_for_pairs};
pub use edit_undo_laws::{commands_are_undone, undoings_are_formed};
pub use error::UndoError;
pub use history::{History, MAX_UNDO_DEPTH};
pub use history_laws::histories_stand;
