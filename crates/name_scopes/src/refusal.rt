//! Why a fragment doesn't come under a node.

ghost use Rattle.std.specs.Prelude.{◌≡◌};
ghost use Rattle.name_scopes.specs.declared.refusal.PieceError.TheVariants as piece_error;

use doc_tree::EditRefusal;
use std::alloc::AllocError;
use thiserror::Error;

/// Why a fragment doesn't come under a node.
#[derive(Clone, Copy, Debug, PartialEq, Eq, Error)]
pub enum PieceError {
    #[error("refused: {0}")]
    Refused(EditRefusal),
    #[error("out of memory")]
    Memory,
}

impl From<AllocError> for PieceError {
    ghost from_gives = { λ _ error. error ≡ piece_error.Memory };

    fn from(_error: AllocError) -> PieceError {
        PieceError::Memory
    }
}
