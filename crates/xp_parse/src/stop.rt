//! Why the parser stopped.

ghost use Rattle.std.specs.Prelude.{◌≡◌};
ghost use Rattle.xp_parse.specs.declared.stop.Stop.TheVariants as stop;

use std::alloc::{AllocError, AllocFailed};

/// Why the parser stopped at the first of the tokens that are left.
#[derive(Clone, Copy)]
pub(crate) enum Stop {
    /// The token, or the end, does not belong there.
    Unexpected,
    /// Only the limit of nesting refuses the token.
    TooNested,
    Memory,
}

impl From<AllocError> for Stop {
    ghost from_gives = { λ _ error. error ≡ stop.Memory };

    fn from(_error: AllocError) -> Self {
        Stop::Memory
    }
}

impl<T: Drop> From<AllocFailed<T>> for Stop {
    ghost from_gives = { λ _ error. error ≡ stop.Memory };

    fn from(_error: AllocFailed<T>) -> Self {
        Stop::Memory
    }
}
