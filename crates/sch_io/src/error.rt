//! What the outside answers where it fails.

ghost use Rattle.std.specs.Prelude.{◌≡◌};
ghost use Rattle.sch_io.specs.declared.error.ReadError.TheVariants.{Failed as FailedRead, Memory};

use std::alloc::AllocError;
use thiserror::Error;

/// A read or a write failed.
#[derive(Clone, Copy, Debug, PartialEq, Eq, Error)]
#[error("the host failed")]
pub struct Failed;

/// Why a file wasn't opened.
#[derive(Clone, Copy, Debug, PartialEq, Eq, Error)]
pub enum OpenError {
    /// The shelf holds no file of that name.
    #[error("there is no such file")]
    Missing,
    /// The host failed.
    #[error("the host failed")]
    Failed,
}

/// Why a file wasn't read whole.
#[derive(Clone, Copy, Debug, PartialEq, Eq, Error)]
pub enum ReadError {
    /// The shelf holds no file of that name.
    #[error("there is no such file")]
    Missing,
    /// The host failed, at the opening or at a read.
    #[error("the host failed")]
    Failed,
    /// The file has more than `MAX_FILE_BYTES` bytes.
    #[error("the file is too large")]
    TooLarge,
    /// Memory ran out.
    #[error("out of memory")]
    Memory,
}

impl From<Failed> for ReadError {
    ghost from_gives = { λ _ e. e ≡ FailedRead };

    fn from(_failed: Failed) -> ReadError {
        ReadError::Failed
    }
}

impl From<AllocError> for ReadError {
    ghost from_gives = { λ _ e. e ≡ Memory };

    fn from(_refused: AllocError) -> ReadError {
        ReadError::Memory
    }
}
