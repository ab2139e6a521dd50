//! Why an edit is not undone.

use thiserror::Error;

/// Why an edit is not undone.
#[derive(Clone, Copy, Debug, PartialEq, Eq, Error)]
pub enum UndoError {
    /// No edit is kept.
    #[error("NoHistory")]
    NoHistory,
    /// It would need more new numbers of nodes than are left.
    #[error("IdsSpent")]
    IdsSpent,
    #[error("out of memory")]
    Memory,
}
