//! Laws of the definitions, for readers.

ghost use Rattle.std.specs.Prelude.{◌≡◌};

use crate::reading::MAX_FILE_BYTES;

/// How many bytes a file may have: 16 MiB.
pub fn numbers_of_limits()
    ensures file_bytes { MAX_FILE_BYTES ≡ 16777216 }
{}
