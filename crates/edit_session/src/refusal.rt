//! Why a document is not opened under a plan.

use thiserror::Error;

/// Why a document is not opened under a plan.
#[derive(Clone, Copy, Debug, PartialEq, Eq, Error)]
pub enum OpenRefusal {
    /// There are more pairs of an active pattern and a live node than there may be.
    #[error("too many pairs")]
    TooManyPairs,
    #[error("out of memory")]
    Memory,
}
