//! Why a command isn't done.

ghost use Rattle.std.specs.Prelude.{◌≡◌};
ghost use Rattle.edit_commands.specs.Refusals.{of_edit, of_piece};

use doc_tree::{EditError, EditRefusal};
use name_scopes::PieceError;
use thiserror::Error;

/// Why a command isn't done.
#[derive(Clone, Copy, Debug, PartialEq, Eq, Error)]
pub enum ApplyError {
    /// The first reason against the command.
    #[error("refused: {0}")]
    Refused(EditRefusal),
    #[error("out of memory")]
    Memory,
}

impl From<EditError> for ApplyError {
    ghost from_gives = { λ cause error. error ≡ of_edit cause };

    fn from(cause: EditError) -> ApplyError {
        match cause {
            EditError::Refused(reason) => ApplyError::Refused(reason),
            EditError::Memory => ApplyError::Memory,
        }
    }
}

impl From<PieceError> for ApplyError {
    ghost from_gives = { λ cause error. error ≡ of_piece cause };

    fn from(cause: PieceError) -> ApplyError {
        match cause {
            PieceError::Refused(reason) => ApplyError::Refused(reason),
            PieceError::Memory => ApplyError::Memory,
        }
    }
}
