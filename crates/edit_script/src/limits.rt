//! The limits of a script.

ghost use Rattle.std.specs.Prelude.{◌≡◌};

/// The greatest number of a place: of a step among the nodes of its kind, and of a kid.
pub const MAX_PLACE: u32 = 1_048_576;

/// Bytes of a script.
pub const MAX_SCRIPT_BYTES: usize = 16_777_216;

/// The numbers of the limits, which contracts name by their constants.
pub fn numbers_of_limits()
    ensures place { MAX_PLACE ≡ 1048576 }
    ensures bytes { MAX_SCRIPT_BYTES ≡ 16777216 }
{}
