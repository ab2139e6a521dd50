//! What reading an expression answers where it gives none.

ghost use Rattle.std.specs.Prelude.{◌≡◌};
ghost use Rattle.xp_parse.specs.declared.error.ParseError.TheVariants as error;

use std::alloc::{AllocError, AllocFailed};
use thiserror::Error;
use xp_grammar::SyntaxFault;

/// Why there is no expression.
#[derive(Clone, Copy, Debug, PartialEq, Eq, Error)]
pub enum ParseError {
    /// The first fault of the text.
    #[error("syntax fault")]
    Fault(SyntaxFault),
    #[error("out of memory")]
    Memory,
}

impl From<AllocError> for ParseError {
    ghost from_gives = { λ _ e. e ≡ error.Memory };

    fn from(_error: AllocError) -> Self {
        ParseError::Memory
    }
}

impl<T: Drop> From<AllocFailed<T>> for ParseError {
    ghost from_gives = { λ _ e. e ≡ error.Memory };

    fn from(_error: AllocFailed<T>) -> Self {
        ParseError::Memory
    }
}
